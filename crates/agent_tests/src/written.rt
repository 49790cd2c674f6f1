// `pipe DIR` on folders that were written before, and on what a crash leaves.
use crate::running::pass;
use std::test::Fail;

const RERUNS: &str = r#"A line behind two.
input a\nb\n
run pipe d
status 0
calls 8
then
input c\n
run pipe d
status 0
calls 4
writes OK\n
said
file log 1 = TWO_LINES
file log 2 = THIRD_LINE
left a\nb\nc\n

None behind none.
input
run pipe d
status 0
calls 0
then
input
run pipe d
status 0
calls 0
writes
said
file log 1 = BEGUN
file log 2 = BEGUN_2
left -"#;

#[test]
fn lines_follow_those_of_an_earlier_run(rt: HostRuntime) -> Result<(), Fail> {
    pass(&rt, rt.alloc(), RERUNS)
}

// The moment of a crash, within a recorded call or after the last, and what stands of the calls that nothing made stable. Calls 0 to 3
// settle the folder and begin its log file. The line's are 4 to 7: the frame is written and synced, and the commit byte is written
// and synced.
const CRASHES: &str =
    r#"The line is gone, for 5:old, 5:new, 5:front:20, 5:garbage:1, 6:old, 7:old, 7:garbage:255
input a\n
run pipe d
status 0
calls 4
crash $
input z\n
run pipe d
status 0
calls 4
writes OK\n
left z\n

The line is there, for 7:new, 8:old, 8:new, 8:garbage:255
input a\n
run pipe d
status 0
calls 4
crash $
input z\n
run pipe d
status 0
calls 4
writes OK\n
left a\nz\n"#;

#[test]
fn a_crash_leaves_a_line_or_not(rt: HostRuntime) -> Result<(), Fail> {
    pass(&rt, rt.alloc(), CRASHES)
}

// Each call of the disk fails in turn: what a crash then leaves has each line that was answered `OK`, and at most the one that was in
// doubt besides.
const AFTER_FAULTS: &str =
    r#"Nothing stands of what was not stable, and the first line is in doubt, for 9, 10, 11, 12
fails-with-1 $
input a\nb\n
run pipe d
status 3
crash end:old
left - a\n

Nothing stands of what was not stable, and the second line is in doubt, for 13, 14, 15, 16
fails-with-1 $
input a\nb\n
run pipe d
status 3
crash end:old
left a\n a\nb\n

All of it stands, and the first line is in doubt, for 9, 10, 11, 12
fails-with-1 $
input a\nb\n
run pipe d
status 3
crash end:new
left - a\n

All of it stands, and the second line is in doubt, for 13, 14, 15, 16
fails-with-1 $
input a\nb\n
run pipe d
status 3
crash end:new
left a\n a\nb\n

Garbage stands in its place, and the first line is in doubt, for 9, 10, 11, 12
fails-with-1 $
input a\nb\n
run pipe d
status 3
crash end:garbage:1
left - a\n

Garbage stands in its place, and the second line is in doubt, for 13, 14, 15, 16
fails-with-1 $
input a\nb\n
run pipe d
status 3
crash end:garbage:1
left a\n a\nb\n"#;

#[test]
fn what_was_answered_is_left_after_a_fault(rt: HostRuntime) -> Result<(), Fail> {
    pass(&rt, rt.alloc(), AFTER_FAULTS)
}

// A folder of one file is refused, or taken, and the file stays as it is.
const FOLDERS: &str = r#"A header in front of nothing.
folder log 1 = CUT_FRAME
input a\n
run pipe d
status 4
calls 0
writes
said flume: d: bad log 1 at 16
file log 1 = CUT_FRAME

A frame with another end.
folder log 1 = BAD_END
input a\n
run pipe d
status 4
calls 0
writes
said flume: d: bad log 1 at 16
file log 1 = BAD_END

Takes of an event that is not there.
folder log 1 = BAD_TAKE
input a\n
run pipe d
status 4
calls 0
writes
said flume: d: bad log 1 at 17
file log 1 = BAD_TAKE

No header: nothing was ever stable in it.
folder log 1 = GARBAGE
input a\n
run pipe d
status 0
calls 4
writes OK\n
said
file log 1 = GARBAGE

A bad checkpoint.
folder check 3 = BAD_CHECK
input a\n
run pipe d
status 4
calls 0
writes
said flume: d: bad checkpoint 3 at 1
file check 3 = BAD_CHECK

The last number of a log.
folder log 4294967295 = -
input a\n
run pipe d
status 4
calls 0
writes
said flume: d: number at its end
file log 4294967295 = -"#;

#[test]
fn a_folder_is_refused_for_what_it_holds(rt: HostRuntime) -> Result<(), Fail> {
    pass(&rt, rt.alloc(), FOLDERS)
}

const NUMBERS: &str =
    r#"The log's only transaction has the last number but one, so that one line more finds a number. Two of the lines make a begin alone, which is refused.
folder log 1 = LAST_BUT_ONE
input b\nc\nd\n
run pipe d
status 0
calls 6
writes OK\nFAILED: channel refused\nFAILED: channel refused\n
said
file log 2 = LAST_NUMBER"#;

#[test]
fn lines_are_refused_once_a_number_is_at_its_end(rt: HostRuntime) -> Result<(), Fail> {
    pass(&rt, rt.alloc(), NUMBERS)
}
