// What log files leave, or their first fault. The expected answers follow from the rules of the format by hand; a few lines
// of Python in bench/recover give the same.
use crate::logs::Logs;
use scenarios::pass;
use std::test::Fail;

const CASES: &str = r#"No file is there.
leaves left 0 1

A file has no frame.
log 1 header 1 1 1, gate 0
leaves left 0 1

Three lines stand in two files.
log 1 header 1 1 1, gate 1, put 1 a, commit-put 1 0 1, end 2, gate 1, put 2 b, commit-put 2 1 1, end 2, gate 0
log 2 header 1 1 2, gate 1, put 3 c, commit-put 3 2 1, end 2, gate 0
leaves left 3 4 0:a 1:b 2:c

Transaction 1 puts x, transaction 2 puts y, and the second commits first. Of two takes one is rolled back, and one commits.
log 1 header 1 1 1, gate 1, put 1 x, put 2 y, commit-put 2 0 1, end 3, gate 1, commit-put 1 1 1, take 3 0, take 4 1, rollback 3, end 4, gate 1, commit-take 4 1, end 1, gate 0
leaves left 2 5 0:y

Puts are open at the end.
log 1 header 1 1 1, gate 1, put 7 u, put 7 v, end 2, gate 0
leaves left 0 8

They are committed in a file that follows a full one.
log 1 header 1 1 1, gate 1, put 7 u, put 7 v, end 2, gate 0
log 2 header 1 2 2, gate 1, commit-put 7 0 2, end 1, gate 0
leaves left 2 8 0:u 1:v

They are not, where an opening began that file.
log 1 header 1 1 1, gate 1, put 7 u, put 7 v, end 2, gate 0
log 2 header 1 1 2, gate 1, commit-put 7 0 2, end 1, gate 0
leaves bad 2 17

A file of 17 bytes between them drops nothing.
log 1 header 1 1 1, gate 1, put 7 u, put 7 v, end 2, gate 0
log 2 header 1 1 2, gate 0
log 3 header 1 2 3, gate 1, commit-put 7 0 2, end 1, gate 0
leaves left 2 8 0:u 1:v

One byte stands after an open commit byte.
log 1 header 1 1 1, gate 1, garbage 1
leaves bad 1 16

END counts one record too many.
log 1 header 1 1 1, gate 1, put 1 a, commit-put 1 0 1, end 3, gate 0
leaves bad 1 16

A transaction that is not open is committed.
log 1 header 1 1 1, gate 1, commit-put 5 0 1, end 1, gate 0
leaves bad 1 17

17 bytes count as empty, whatever they are.
log 1 garbage 17
leaves left 0 1

The header has another number.
log 3 header 1 1 2, gate 1, put 3 c, commit-put 3 2 1, end 2, gate 0
leaves bad 3 0

A number is taken that an open take holds.
log 1 header 1 1 1, gate 1, put 1 a, commit-put 1 0 1, take 2 0, take 3 0, end 4, gate 0
leaves bad 1 77

A transaction of puts takes.
log 1 header 1 1 1, gate 1, put 1 a, commit-put 1 0 1, put 2 b, take 2 0, end 4, gate 0
leaves bad 1 82

Transaction numbers end at 2^64 - 2.
log 1 header 1 1 1, gate 1, put 18446744073709551614 a, put 18446744073709551615 b, end 2, gate 0
leaves bad 1 39"#;

#[test]
fn log_files_leave_what_their_commits_say(rt: HostRuntime) -> Result<(), Fail> {
    pass::<Logs>(rt.alloc(), CASES)
}

// The file's make, write and sync are recorded calls 0 to 2. The flush's are 3 to 6: it writes the frame, syncs, opens the
// commit byte and syncs.
const CRASHES: &str = r#"A crash leaves the frame of a flush or not.
flushed 7
// after the first
crash 4 old left 0 1
crash 4 new left 0 1
crash 4 front:20 left 0 1
crash 4 garbage:1 left 0 1
// after the second
crash 5 old left 0 1
// after the third
crash 6 old left 0 1
crash 6 new left 1 2 0:a
crash 6 front:0 left 0 1
crash 6 garbage:255 left 0 1
// after the fourth
crash 7 old left 1 2 0:a
crash 7 new left 1 2 0:a
crash 7 garbage:255 left 1 2 0:a"#;

#[test]
fn a_crash_leaves_the_frame_or_not(rt: HostRuntime) -> Result<(), Fail> {
    pass::<Logs>(rt.alloc(), CRASHES)
}

// How many calls of the disk the reading of some frames takes, each of 27 bytes and 22 for each PUT: of the length, and where the
// file doesn't count as empty of the header and of each piece of 65,536 bytes after that.
const READ: &str = r#"A reader gives each record with its offset, and counts a step for it.
log 1 header 1 1 1, gate 1, put 1 a, commit-put 1 0 1, end 2, gate 1, put 2 b, commit-put 2 1 1, end 2, gate 0
records 1 1 17 4 1 39 1 2 66 4 2 88

What is read after a frame is kept for the next one.
calls 0 1 1
calls 1 1 3
calls 100 1 3
calls 1337 1 3
calls 1338 1 4
calls 2 3000 5

A capacity is judged at the end.
log 1 header 1 1 1, gate 1, put 1 a, commit-put 1 0 1, end 2, gate 1, put 2 b, commit-put 2 1 1, end 2, gate 0
capacity 1 over 2
capacity 2 within"#;

#[test]
fn log_files_are_read(rt: HostRuntime) -> Result<(), Fail> {
    pass::<Logs>(rt.alloc(), READ)
}
