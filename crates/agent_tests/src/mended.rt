// Channels that break in a run and are mended: answers, report, status, and what is left. Opening takes nine calls of the disk, and
// the first line four: a write, a sync, the write of the byte that commits it, and a sync. A reopening begins with the next call.
use crate::running::pass;
use std::test::Fail;

// The line at which the disk failed is in doubt, the next one is stored, and the run ends well.
const ONCE: &str =
    r#"The byte that commits the line was not written, for fails 9, fails 10, fails 11, fails-with-1 9, fails-with-1 10
use LINES
use ON_DISK
$
input a\nb\n
run agent -n a -f x.conf
status 0
said
disk-faults 1
begins FAILED: channel in doubt\nOK\n{"CHANNEL.c1":{"ChannelCapacity":"1000000","ChannelSize":"0",
rolled 5000-1=b\n

Where that byte is there, mending reads the line back, for fails 12, fails-with-1 11, fails-with-1 12
use LINES
use ON_DISK
$
input a\nb\n
run agent -n a -f x.conf
status 0
said
disk-faults 1
begins FAILED: channel in doubt\nOK\n{"CHANNEL.c1":{"ChannelCapacity":"1000000","ChannelSize":"0",
rolled 5000-1=a\nb\n"#;

#[test]
fn a_disk_that_failed_once_is_mended(rt: HostRuntime) -> Result<(), Fail> {
    pass(&rt, rt.alloc(), ONCE)
}

// Nine calls of the opening, four for each commit, of two lines and of one delivery or two, and readings of what is taken. Which
// calls are of a line and which are of the sink depends on when that looks at the channel.
const EACH_CALL: &str =
    r#"A run with a sink ends well and loses no line that was answered well, for 9, 10, 11, 12, 13, 14, 15, 16, 17, 18, 19, 20, 21, 22, 23, 24, 25, 26, 27, 28, 29, 30, 31, 32, 33, 34, 35, 36, 37, 38, 39, 40
use LINES
use ON_DISK
fails $
input x\ny\n
run agent -n a -f x.conf
status 0
said
answered-there

No run makes so many calls, for 41
use LINES
use ON_DISK
fails $
input x\ny\n
run agent -n a -f x.conf
status 0
said
answered-there
disk-faults 0"#;

#[test]
fn each_call_of_the_disk_fails_once(rt: HostRuntime) -> Result<(), Fail> {
    pass(&rt, rt.alloc(), EACH_CALL)
}

// A mend that was refused is tried again before the next line, and where that is refused too, none follows this line.
const BROKEN: &str = r#"The first line fails in its first sync.
use UNTAKEN
fails 10
input a\nb\n
run agent -n a -f x.conf
status 0
said
disk-faults 1
begins FAILED: channel in doubt\nOK\n{"CHANNEL.c1":{"ChannelCapacity":"1000000","ChannelSize":"1","EventPutAttemptCount":"2","EventPutSuccessCount":"1","EventTakeAttemptCount":"0","EventTakeSuccessCount":"0"},
left b\n

It fails in its second sync: what a reopening reads back is left, and is no success.
use UNTAKEN
fails 12
input a\nb\n
run agent -n a -f x.conf
status 0
said
disk-faults 1
begins FAILED: channel in doubt\nOK\n{"CHANNEL.c1":{"ChannelCapacity":"1000000","ChannelSize":"2","EventPutAttemptCount":"2","EventPutSuccessCount":"1","EventTakeAttemptCount":"0","EventTakeSuccessCount":"0"},
left a\nb\n

The mends behind the first line and before the second are refused.
use UNTAKEN
fails 10 11 12
input a\nb\nc\n
run agent -n a -f x.conf
status 0
said
disk-faults 1
begins FAILED: channel in doubt\nFAILED: channel refused\nOK\n{"CHANNEL.c1":{"ChannelCapacity":"1000000","ChannelSize":"1","EventPutAttemptCount":"2","EventPutSuccessCount":"1","EventTakeAttemptCount":"0","EventTakeSuccessCount":"0"},
left c\n

The mend behind the line is refused, and that at the end is not.
use UNTAKEN
fails 10 11
input a\n
run agent -n a -f x.conf
status 0
said
disk-faults 1
begins FAILED: channel in doubt\n{"CHANNEL.c1":{"ChannelCapacity":"1000000","ChannelSize":"0","EventPutAttemptCount":"1","EventPutSuccessCount":"0","EventTakeAttemptCount":"0","EventTakeSuccessCount":"0"},
left -

Both are refused: the channel has what it had, and a later run opens its folder.
use UNTAKEN
fails 10 11 12
input a\n
run agent -n a -f x.conf
status 3
said flume: fault outside
disk-faults 1
begins FAILED: channel in doubt\n{"CHANNEL.c1":{"ChannelCapacity":"1000000","ChannelSize":"0","EventPutAttemptCount":"1","EventPutSuccessCount":"0","EventTakeAttemptCount":"0","EventTakeSuccessCount":"0"},
left -

Both are refused behind the second sync.
use UNTAKEN
fails 12 13 14
input a\n
run agent -n a -f x.conf
status 3
said flume: fault outside
disk-faults 1
begins FAILED: channel in doubt\n{"CHANNEL.c1":{"ChannelCapacity":"1000000","ChannelSize":"0","EventPutAttemptCount":"1","EventPutSuccessCount":"0","EventTakeAttemptCount":"0","EventTakeSuccessCount":"0"},
left a\n"#;

#[test]
fn a_broken_channel_goes_on_once_it_is_mended(rt: HostRuntime) -> Result<(), Fail> {
    pass(&rt, rt.alloc(), BROKEN)
}

const REOPENING: &str =
    r#"Each call of a reopening fails, of as many as a run makes whose only line fails in its first sync, for 11, 12, 13, 14, 15, 16, 17, 18, 19, 20, 21, 22, 23, 24, 25, 26, 27, 28, 29, 30, 31
use UNTAKEN
fails 10
input a\n
run agent -n a -f x.conf
note
only-below-noted $
anew
use UNTAKEN
fails 10 $
input a\nb\n
run agent -n a -f x.conf
status 0
said
disk-faults 1
begins FAILED: channel in doubt\nOK\n{"CHANNEL.c1":{"ChannelCapacity":"1000000","ChannelSize":"1","EventPutAttemptCount":"2","EventPutSuccessCount":"1","EventTakeAttemptCount":"0","EventTakeSuccessCount":"0"},
left b\n

At least the folder is settled and searched, its log is read, and a new one is begun.
use UNTAKEN
fails 10
input a\n
run agent -n a -f x.conf
note
noted-in 19 32"#;

#[test]
fn each_call_of_a_reopening_fails_once(rt: HostRuntime) -> Result<(), Fail> {
    pass(&rt, rt.alloc(), REOPENING)
}

const TWICE: &str = r#"The first sync of the first line fails, and then that of the second.
use UNTAKEN
fails 10
input a\n
run agent -n a -f x.conf
note
anew
use UNTAKEN
fails 10
fails-behind-noted
input a\nb\nc\n
run agent -n a -f x.conf
status 0
said
disk-faults 1
begins FAILED: channel in doubt\nFAILED: channel in doubt\nOK\n{"CHANNEL.c1":{"ChannelCapacity":"1000000","ChannelSize":"1","EventPutAttemptCount":"3","EventPutSuccessCount":"1","EventTakeAttemptCount":"0","EventTakeSuccessCount":"0"},
left c\n"#;

#[test]
fn a_channel_that_breaks_again_is_mended_again(rt: HostRuntime) -> Result<(), Fail> {
    pass(&rt, rt.alloc(), TWICE)
}

const SESSION: &str =
    r#"The first line of two links fails in its first sync. The input ends once the second is answered.
a.sources = n
a.sources.n.type = netcat
a.sources.n.bind = localhost
a.sources.n.port = 44444
a.sources.n.threads = 1
a.sources.n.channels = c1
a.channels = c1 c2
a.channels.c1.type = file
a.channels.c1.dataDirs = d
a.channels.c1.checkpointOnClose = false
a.channels.c2.type = memory
a.sinks = k
a.sinks.k.type = null
a.sinks.k.channel = c2
fails 10
listen 44444
link x\n
link y\n sets 1
input-held 0 1
run agent -n a -f x.conf
status 0
said
disk-faults 1
links 44444 FAILED:\schannel\sin\sdoubt\n OK\n
left y\n"#;

#[test]
fn a_session_leaves_its_channel_mended(rt: HostRuntime) -> Result<(), Fail> {
    pass(&rt, rt.alloc(), SESSION)
}
