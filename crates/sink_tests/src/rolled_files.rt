// Rolled files over a folder in memory, cut by time and after faults.
use crate::sinks::Sinks;
use scenarios::pass;
use std::test::Fail;

const FILES: &str = r#"The first moment names all files, whatever comes later.
roll 0
delivers 5000 x|y
delivers 900000 z
faults 0
files 5000-1:x\ny\nz\n

A file is cut thirty seconds from its begin.
roll 30
delivers 5000 a
delivers 34999 b
delivers 35000 c
// an empty body
delivers 64999
faults 0
files 5000-1:a\nb\n5000-2:c\n\n

The clock is set back.
roll 30
delivers 50000 a
delivers 1000 b
faults 0
files 50000-1:a\nb\n

The last moments come.
roll 1
delivers 18446744073709550614 a
delivers 18446744073709551613 b
delivers 18446744073709551614 c
delivers 18446744073709551615 d
faults 0
files 18446744073709550614-1:a\nb\n18446744073709550614-2:c\nd\n

The end of the longest interval is after the last moment.
roll 4294967295
delivers 18446744073709551614 a
delivers 18446744073709551615 b
faults 0
files 18446744073709551614-1:a\nb\n

A write fails between a body and its newline: what was written stays, and the batch comes whole into the next file.
roll 0 4
refuses 7 a|b
delivers 8 a|b
faults 1
files 7-1:a\nb7-2:a\nb\n

A begin that fails takes a number.
roll 0 0
refuses 7 a
delivers 8 a
faults 1
files 7-2:a\n

A batch whose flush fails is not delivered.
roll 0 3
refuses 7 a
delivers 8 a
faults 1
files 7-1:a\n7-2:a\n"#;

#[test]
fn files_are_cut_by_time_and_after_a_fault(rt: HostRuntime) -> Result<(), Fail> {
    pass::<Sinks>(rt.alloc(), FILES)
}
