// Agents with a source of lines, example by example.
use crate::running::pass;
use std::test::Fail;

const THROUGH: &str = r#"A sink that keeps nothing.
use LINES
a.channels = c1
a.sources.r.channels = c1
a.channels.c1.type = memory
a.sinks.k.type = null
input a\n
run agent -n a -f x.conf
status 0
said
writes OK\n{"CHANNEL.c1":{"ChannelCapacity":"100","ChannelSize":"0","EventPutAttemptCount":"1","EventPutSuccessCount":"1","EventTakeAttemptCount":"<2>","EventTakeSuccessCount":"1"}}\n
rolled

A channel on a disk, and a rolled file.
use LINES
use ON_DISK
input x\ny\n
run agent -n a -f x.conf
status 0
said
writes OK\nOK\n{"CHANNEL.c1":{"ChannelCapacity":"1000000","ChannelSize":"0","EventPutAttemptCount":"2","EventPutSuccessCount":"2","EventTakeAttemptCount":"<3>","EventTakeSuccessCount":"2"}}\n
rolled 5000-1=x\ny\n

Both channels are required: the second, which has room for one event and no sink, is full at the second line, which the first keeps.
use LINES
a.channels = c2 c1
a.sources.r.channels = c1 c2
a.channels.c1.type = memory
a.channels.c2.type = memory
a.channels.c2.capacity = 1
input a\nb\n
run agent -n a -f x.conf
status 0
said
writes OK\nFAILED: channel refused\n{"CHANNEL.c1":{"ChannelCapacity":"100","ChannelSize":"0","EventPutAttemptCount":"2","EventPutSuccessCount":"2","EventTakeAttemptCount":"<3>","EventTakeSuccessCount":"2"},"CHANNEL.c2":{"ChannelCapacity":"1","ChannelSize":"1","EventPutAttemptCount":"2","EventPutSuccessCount":"1","EventTakeAttemptCount":"0","EventTakeSuccessCount":"0"}}\n
rolled 5000-1=a\nb\n

No mapping of this state: the default is required, and a full optional channel refuses nothing.
use LINES
use ROUTED
a.sources.r.interceptors.i.value = US
a.sources.r.selector.optional.US = c2
a.sources.r.selector.default = c1
input a\nb\n
run agent -n a -f x.conf
status 0
said
writes OK\nOK\n{"CHANNEL.c1":{"ChannelCapacity":"100","ChannelSize":"0","EventPutAttemptCount":"2","EventPutSuccessCount":"2","EventTakeAttemptCount":"<3>","EventTakeSuccessCount":"2"},"CHANNEL.c2":{"ChannelCapacity":"1","ChannelSize":"1","EventPutAttemptCount":"2","EventPutSuccessCount":"1","EventTakeAttemptCount":"0","EventTakeSuccessCount":"0"},"CHANNEL.c3":{"ChannelCapacity":"100","ChannelSize":"0","EventPutAttemptCount":"0","EventPutSuccessCount":"0","EventTakeAttemptCount":"0","EventTakeSuccessCount":"0"}}\n
rolled 5000-1=a\nb\n

The mapping of this state is required, and the default gets nothing.
use LINES
use ROUTED
a.sources.r.interceptors.i.value = CZ
a.sources.r.selector.mapping.CZ = c1
a.sources.r.selector.optional.CZ = c2
a.sources.r.selector.default = c3
input a\n
run agent -n a -f x.conf
status 0
said
writes OK\n{"CHANNEL.c1":{"ChannelCapacity":"100","ChannelSize":"0","EventPutAttemptCount":"1","EventPutSuccessCount":"1","EventTakeAttemptCount":"<2>","EventTakeSuccessCount":"1"},"CHANNEL.c2":{"ChannelCapacity":"1","ChannelSize":"1","EventPutAttemptCount":"1","EventPutSuccessCount":"1","EventTakeAttemptCount":"0","EventTakeSuccessCount":"0"},"CHANNEL.c3":{"ChannelCapacity":"100","ChannelSize":"0","EventPutAttemptCount":"0","EventPutSuccessCount":"0","EventTakeAttemptCount":"0","EventTakeSuccessCount":"0"}}\n
rolled 5000-1=a\n

The state is taken out of each line: the second has no mapping.
use LINES
use ROUTED
a.sources.r.interceptors.i.type = regex_extractor
a.sources.r.interceptors.i.regex = ^(..)
a.sources.r.interceptors.i.serializers = s
a.sources.r.interceptors.i.serializers.s.name = state
a.sources.r.selector.mapping.CZ = c1
a.sources.r.selector.optional.CZ = c2
a.sources.r.selector.default = c3
input CZ a\nUS b\n
run agent -n a -f x.conf
status 0
said
writes OK\nOK\n{"CHANNEL.c1":{"ChannelCapacity":"100","ChannelSize":"0","EventPutAttemptCount":"1","EventPutSuccessCount":"1","EventTakeAttemptCount":"<2>","EventTakeSuccessCount":"1"},"CHANNEL.c2":{"ChannelCapacity":"1","ChannelSize":"1","EventPutAttemptCount":"1","EventPutSuccessCount":"1","EventTakeAttemptCount":"0","EventTakeSuccessCount":"0"},"CHANNEL.c3":{"ChannelCapacity":"100","ChannelSize":"1","EventPutAttemptCount":"1","EventPutSuccessCount":"1","EventTakeAttemptCount":"0","EventTakeSuccessCount":"0"}}\n
rolled 5000-1=CZ\sa\n

An event that a filter drops is answered well, and no channel has it.
use LINES
use ONE
a.sources.r.interceptors = i
a.sources.r.interceptors.i.type = regex_filter
a.sources.r.interceptors.i.regex = a
a.sources.r.interceptors.i.excludeEvents = true
input a\nb\n
run agent -n a -f x.conf
status 0
said
writes OK\nOK\n{"CHANNEL.c1":{"ChannelCapacity":"100","ChannelSize":"0","EventPutAttemptCount":"1","EventPutSuccessCount":"1","EventTakeAttemptCount":"<2>","EventTakeSuccessCount":"1"}}\n
rolled 5000-1=b\n

The line before a line that is too long is delivered.
use LINES
use ONE
a.sources.r.max-line-length = 4
input abc\nabcd\nx\n
run agent -n a -f x.conf
status 7
said flume: line too long
writes OK\nFAILED: line too long\n{"CHANNEL.c1":{"ChannelCapacity":"100","ChannelSize":"0","EventPutAttemptCount":"1","EventPutSuccessCount":"1","EventTakeAttemptCount":"<2>","EventTakeSuccessCount":"1"}}\n
rolled 5000-1=abc\n

No answers are wished.
use LINES
use ONE
a.sources.r.ack-every-event = FALSE
input a\n
run agent -n a -f x.conf
status 0
said
writes {"CHANNEL.c1":{"ChannelCapacity":"100","ChannelSize":"0","EventPutAttemptCount":"1","EventPutSuccessCount":"1","EventTakeAttemptCount":"<2>","EventTakeSuccessCount":"1"}}\n
rolled 5000-1=a\n

A rest without a newline is no event, and a run takes one event at most.
use LINES
use ONE
a.sinks.k.sink.batchSize = 1
input a\n\nb
run agent -n a -f x.conf
status 0
said
writes OK\nOK\n{"CHANNEL.c1":{"ChannelCapacity":"100","ChannelSize":"0","EventPutAttemptCount":"2","EventPutSuccessCount":"2","EventTakeAttemptCount":"<2>","EventTakeSuccessCount":"2"}}\n
rolled 5000-1=a\n\n

Nothing is read, and no file is begun.
use LINES
use ONE
input 
run agent -n a -f x.conf
status 0
said
writes {"CHANNEL.c1":{"ChannelCapacity":"100","ChannelSize":"0","EventPutAttemptCount":"0","EventPutSuccessCount":"0","EventTakeAttemptCount":"<0>","EventTakeSuccessCount":"0"}}\n
rolled"#;

#[test]
fn lines_go_through_channels_to_sinks(rt: HostRuntime) -> Result<(), Fail> {
    pass(&rt, rt.alloc(), THROUGH)
}

const GONE: &str =
    r#"A delivered event is gone from the folder, and the next one has the number 2: a further line alone is left in it.
use LINES
use ON_DISK
input x\ny\n
run agent -n a -f x.conf
status 0
then
input c\n
run pipe d
status 0
writes OK\n
log-2 66 NUMBER_2"#;

#[test]
fn a_delivered_event_is_gone_from_the_folder(rt: HostRuntime) -> Result<(), Fail> {
    pass(&rt, rt.alloc(), GONE)
}

// Nothing is written, opened or rolled.
const REFUSED: &str = r#"No file is named.
use WORKED
input a\n
run agent -n a1
status 1
said usage: flume pipe DIR | agent -n NAME -f FILE | check -n NAME -f FILE | load N DIR
writes
file log 1 = none
rolled

The agent is named twice.
use WORKED
input a\n
run agent -n a1 -f x.conf -n a1
status 1
said usage: flume pipe DIR | agent -n NAME -f FILE | check -n NAME -f FILE | load N DIR
writes
file log 1 = none
rolled

The file has no such agent.
use WORKED
input a\n
run agent -f x.conf --name a2
status 2
said flume: no agent a2
writes
file log 1 = none
rolled

A type that nobody knows.
use WORKED
swap c2.type = file => c2.type = kafka
input a\n
run agent -n a1 -f x.conf -Dx=y
status 2
said flume: line 11: unknown type
writes
file log 1 = none
rolled

A sink that nobody handed in.
use WORKED
swap k1.type = file_roll => k1.type = plugin.none
input a\n
run agent -n a1 -f x.conf
status 2
said flume: line 13: unknown type
writes
file log 1 = none
rolled"#;

#[test]
fn a_faulty_configuration_runs_nothing(rt: HostRuntime) -> Result<(), Fail> {
    pass(&rt, rt.alloc(), REFUSED)
}

const TOO_MANY: &str = r#"A folder with more events than the capacity is refused, and is as it was.
use LINES
use ON_DISK
a.channels.c1.capacity = 1
folder log 1 = TWO_LINES
input a\n
run agent -n a -f x.conf
status 4
said flume: d: holds 2, more than 1
writes
file log 1 = TWO_LINES
file log 2 = none"#;

#[test]
fn a_folder_of_too_many_events_runs_nothing(rt: HostRuntime) -> Result<(), Fail> {
    pass(&rt, rt.alloc(), TOO_MANY)
}

const FAULTS: &str =
    r#"The first call of the disk fails, the first read of the input, or all that is written first: no line is accepted, for fails 0, input-fails 0, output-fails 0 1
use LINES
use ON_DISK
input a\n
$
run agent -n a -f x.conf
status 3
said flume: fault outside
begins-not OK"#;

#[test]
fn a_fault_outside_ends_the_run(rt: HostRuntime) -> Result<(), Fail> {
    pass(&rt, rt.alloc(), FAULTS)
}
