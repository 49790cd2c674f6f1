// The worked examples of `pipe`, by an agent with a source of lines: its channel is shared, and the answers, the log files and what is
// left are the same. After the answers the report is written.
use crate::running::pass;
use std::test::Fail;

const FRAMES: &str = r#"Two lines.
use UNTAKEN
input a\nb\n
run agent -n a -f x.conf
status 0
begins OK\nOK\n{"CHANNEL.c1":{"ChannelCapacity":"1000000","ChannelSize":"2","EventPutAttemptCount":"2","EventPutSuccessCount":"2","EventTakeAttemptCount":"0","EventTakeSuccessCount":"0"},
file log 1 = TWO_LINES
said

None.
use UNTAKEN
input
run agent -n a -f x.conf
status 0
begins {"CHANNEL.c1":{"ChannelCapacity":"1000000","ChannelSize":"0","EventPutAttemptCount":"0","EventPutSuccessCount":"0","EventTakeAttemptCount":"0","EventTakeSuccessCount":"0"},
file log 1 = BEGUN
said"#;

#[test]
fn each_line_of_an_agent_makes_a_frame(rt: HostRuntime) -> Result<(), Fail> {
    pass(&rt, rt.alloc(), FRAMES)
}

const ANSWERS: &str = r#"A line and a rest.
use UNTAKEN
input a\nb
run agent -n a -f x.conf
status 0
begins OK\n{"CHANNEL.c1":{"ChannelCapacity":"1000000","ChannelSize":"1","EventPutAttemptCount":"1","EventPutSuccessCount":"1","EventTakeAttemptCount":"0","EventTakeSuccessCount":"0"},

An empty line.
use UNTAKEN
input \n
run agent -n a -f x.conf
status 0
begins OK\n{"CHANNEL.c1":{"ChannelCapacity":"1000000","ChannelSize":"1","EventPutAttemptCount":"1","EventPutSuccessCount":"1","EventTakeAttemptCount":"0","EventTakeSuccessCount":"0"},

Three lines, of which one ends with a return and one is empty.
use UNTAKEN
input a\r\n\nb\n
run agent -n a -f x.conf
status 0
begins OK\nOK\nOK\n{"CHANNEL.c1":{"ChannelCapacity":"1000000","ChannelSize":"3","EventPutAttemptCount":"3","EventPutSuccessCount":"3","EventTakeAttemptCount":"0","EventTakeSuccessCount":"0"},

A line of the greatest length.
use UNTAKEN
many 511
input \n
run agent -n a -f x.conf
status 0
begins OK\n{"CHANNEL.c1":{"ChannelCapacity":"1000000","ChannelSize":"1","EventPutAttemptCount":"1","EventPutSuccessCount":"1","EventTakeAttemptCount":"0","EventTakeSuccessCount":"0"},

The same without its end.
use UNTAKEN
many 511
run agent -n a -f x.conf
status 0
begins {"CHANNEL.c1":{"ChannelCapacity":"1000000","ChannelSize":"0","EventPutAttemptCount":"0","EventPutSuccessCount":"0","EventTakeAttemptCount":"0","EventTakeSuccessCount":"0"},

A line with a byte more.
use UNTAKEN
many 512
input \n
run agent -n a -f x.conf
status 7
begins FAILED: line too long\n{"CHANNEL.c1":{"ChannelCapacity":"1000000","ChannelSize":"0","EventPutAttemptCount":"0","EventPutSuccessCount":"0","EventTakeAttemptCount":"0","EventTakeSuccessCount":"0"},

The same behind a line, and without its end.
use UNTAKEN
input a\n
many 512
run agent -n a -f x.conf
status 7
begins OK\nFAILED: line too long\n{"CHANNEL.c1":{"ChannelCapacity":"1000000","ChannelSize":"1","EventPutAttemptCount":"1","EventPutSuccessCount":"1","EventTakeAttemptCount":"0","EventTakeSuccessCount":"0"},

A long line in front of a line.
use UNTAKEN
many 9000
input \na\n
run agent -n a -f x.conf
status 7
begins FAILED: line too long\n{"CHANNEL.c1":{"ChannelCapacity":"1000000","ChannelSize":"0","EventPutAttemptCount":"0","EventPutSuccessCount":"0","EventTakeAttemptCount":"0","EventTakeSuccessCount":"0"},"#;

#[test]
fn every_line_of_an_agent_has_its_answer(rt: HostRuntime) -> Result<(), Fail> {
    pass(&rt, rt.alloc(), ANSWERS)
}

const RERUNS: &str = r#"A line behind two.
use UNTAKEN
input a\nb\n
run agent -n a -f x.conf
status 0
then
use UNTAKEN
input c\n
run agent -n a -f x.conf
status 0
begins OK\n{"CHANNEL.c1":{"ChannelCapacity":"1000000","ChannelSize":"3","EventPutAttemptCount":"1","EventPutSuccessCount":"1","EventTakeAttemptCount":"0","EventTakeSuccessCount":"0"},
file log 1 = TWO_LINES
file log 2 = THIRD_LINE
left a\nb\nc\n

None behind none.
use UNTAKEN
input
run agent -n a -f x.conf
status 0
then
use UNTAKEN
input
run agent -n a -f x.conf
status 0
begins {"CHANNEL.c1":{"ChannelCapacity":"1000000","ChannelSize":"0","EventPutAttemptCount":"0","EventPutSuccessCount":"0","EventTakeAttemptCount":"0","EventTakeSuccessCount":"0"},
file log 1 = BEGUN
file log 2 = BEGUN_2
left -"#;

#[test]
fn an_agent_goes_on_behind_an_earlier_run(rt: HostRuntime) -> Result<(), Fail> {
    pass(&rt, rt.alloc(), RERUNS)
}

const CRASHES: &str =
    r#"The line is gone, for 5:old, 5:new, 5:front:20, 5:garbage:1, 6:old, 7:old, 7:garbage:255
use UNTAKEN
input a\n
run agent -n a -f x.conf
status 0
crash $
left -

The line is there, for 7:new, 8:old, 8:new, 8:garbage:255
use UNTAKEN
input a\n
run agent -n a -f x.conf
status 0
crash $
left a\n"#;

#[test]
fn a_crash_leaves_a_line_of_an_agent_or_not(rt: HostRuntime) -> Result<(), Fail> {
    pass(&rt, rt.alloc(), CRASHES)
}

const FOLDERS: &str = r#"A header in front of nothing.
use UNTAKEN
folder log 1 = CUT_FRAME
input a\n
run agent -n a -f x.conf
status 4
writes
said flume: d: bad log 1 at 16
file log 1 = CUT_FRAME

A frame with another end.
use UNTAKEN
folder log 1 = BAD_END
input a\n
run agent -n a -f x.conf
status 4
writes
said flume: d: bad log 1 at 16
file log 1 = BAD_END

Takes of an event that is not there.
use UNTAKEN
folder log 1 = BAD_TAKE
input a\n
run agent -n a -f x.conf
status 4
writes
said flume: d: bad log 1 at 17
file log 1 = BAD_TAKE

No header: nothing was ever stable in it.
use UNTAKEN
folder log 1 = GARBAGE
input a\n
run agent -n a -f x.conf
status 0
begins OK\n{"CHANNEL.c1":{"ChannelCapacity":"1000000","ChannelSize":"1","EventPutAttemptCount":"1","EventPutSuccessCount":"1","EventTakeAttemptCount":"0","EventTakeSuccessCount":"0"},
said
file log 1 = GARBAGE

A bad checkpoint.
use UNTAKEN
folder check 3 = BAD_CHECK
input a\n
run agent -n a -f x.conf
status 4
writes
said flume: d: bad checkpoint 3 at 1
file check 3 = BAD_CHECK

The last number of a log.
use UNTAKEN
folder log 4294967295 = -
input a\n
run agent -n a -f x.conf
status 4
writes
said flume: d: number at its end
file log 4294967295 = -"#;

#[test]
fn an_agent_refuses_a_folder_for_what_it_holds(rt: HostRuntime) -> Result<(), Fail> {
    pass(&rt, rt.alloc(), FOLDERS)
}
