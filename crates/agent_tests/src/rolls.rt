// A folder of rolled files, each call of which fails in turn: no line that was answered is missing in the end.
use crate::running::pass;
use std::test::Fail;

// A file is begun, the line and its end are written, and the file is flushed; after a fault the next file is begun. At least two takes
// are tried for each delivery. The line of a link is answered once, and delivered after the fault while the input is held.
const ROLLED: &str = r#"The file is not begun.
use LISTENING
a.sources = n
a.channels.c1.type = file
a.channels.c1.dataDirs = d
input-held 0 1
flush-sets 1
listen 44444
hold 0
link quiet quiet quiet x\n
rolls-fail 0
run agent -n a -f x.conf
status 0
said
writes {"CHANNEL.c1":{"ChannelCapacity":"1000000","ChannelSize":"0","EventPutAttemptCount":"1","EventPutSuccessCount":"1","EventTakeAttemptCount":"<4>","EventTakeSuccessCount":"1"}}\n
roll-faults 1
listeners 1
links 44444 OK\n
rolled 5000-2=x\n

The line is not written.
use LISTENING
a.sources = n
a.channels.c1.type = file
a.channels.c1.dataDirs = d
input-held 0 1
flush-sets 1
listen 44444
hold 0
link quiet quiet quiet x\n
rolls-fail 1
run agent -n a -f x.conf
status 0
said
writes {"CHANNEL.c1":{"ChannelCapacity":"1000000","ChannelSize":"0","EventPutAttemptCount":"1","EventPutSuccessCount":"1","EventTakeAttemptCount":"<4>","EventTakeSuccessCount":"1"}}\n
roll-faults 1
listeners 1
links 44444 OK\n
rolled 5000-1= 5000-2=x\n

Its end is not written.
use LISTENING
a.sources = n
a.channels.c1.type = file
a.channels.c1.dataDirs = d
input-held 0 1
flush-sets 1
listen 44444
hold 0
link quiet quiet quiet x\n
rolls-fail 2
run agent -n a -f x.conf
status 0
said
writes {"CHANNEL.c1":{"ChannelCapacity":"1000000","ChannelSize":"0","EventPutAttemptCount":"1","EventPutSuccessCount":"1","EventTakeAttemptCount":"<4>","EventTakeSuccessCount":"1"}}\n
roll-faults 1
listeners 1
links 44444 OK\n
rolled 5000-1=x 5000-2=x\n

It is not flushed.
use LISTENING
a.sources = n
a.channels.c1.type = file
a.channels.c1.dataDirs = d
input-held 0 1
flush-sets 1
listen 44444
hold 0
link quiet quiet quiet x\n
rolls-fail 3
run agent -n a -f x.conf
status 0
said
writes {"CHANNEL.c1":{"ChannelCapacity":"1000000","ChannelSize":"0","EventPutAttemptCount":"1","EventPutSuccessCount":"1","EventTakeAttemptCount":"<4>","EventTakeSuccessCount":"1"}}\n
roll-faults 1
listeners 1
links 44444 OK\n
rolled 5000-1=x\n 5000-2=x\n

There is no further call before it is delivered.
use LISTENING
a.sources = n
a.channels.c1.type = file
a.channels.c1.dataDirs = d
input-held 0 1
flush-sets 1
listen 44444
hold 0
link quiet quiet quiet x\n
rolls-fail 4
run agent -n a -f x.conf
status 0
said
writes {"CHANNEL.c1":{"ChannelCapacity":"1000000","ChannelSize":"0","EventPutAttemptCount":"1","EventPutSuccessCount":"1","EventTakeAttemptCount":"<2>","EventTakeSuccessCount":"1"}}\n
roll-faults 0
listeners 1
links 44444 OK\n
rolled 5000-1=x\n"#;

#[test]
fn a_line_is_rolled_behind_a_fault(rt: HostRuntime) -> Result<(), Fail> {
    pass(&rt, rt.alloc(), ROLLED)
}

// Which lines a delivery has depends on when the sink looks at the channel. Each line is left or rolled, and where nothing failed all of
// them are rolled once.
const KEPT: &str =
    r#"A file is begun, four writes are made, and one flush or two, for 0, 1, 2, 3, 4, 5, 6, 7
use LINES
use ON_DISK
rolls-fail $
input x\ny\n
run agent -n a -f x.conf
status 0
said
left - y\n x\ny\n
where-left - OK\nOK\n{"CHANNEL.c1":{"ChannelCapacity":"1000000","ChannelSize":"0","EventPutAttemptCount":"2","EventPutSuccessCount":"2","EventTakeAttemptCount":"<3>","EventTakeSuccessCount":"2"}}\n
where-left y\n OK\nOK\n{"CHANNEL.c1":{"ChannelCapacity":"1000000","ChannelSize":"1","EventPutAttemptCount":"2","EventPutSuccessCount":"2","EventTakeAttemptCount":"<2>","EventTakeSuccessCount":"1"}}\n
where-left x\ny\n OK\nOK\n{"CHANNEL.c1":{"ChannelCapacity":"1000000","ChannelSize":"2","EventPutAttemptCount":"2","EventPutSuccessCount":"2","EventTakeAttemptCount":"<3>","EventTakeSuccessCount":"0"}}\n
there xy
roll-faults-below 2
if-sound left -
if-sound rolled 5000-1=x\ny\n

No run makes so many calls, for 7
use LINES
use ON_DISK
rolls-fail $
input x\ny\n
run agent -n a -f x.conf
status 0
said
left - y\n x\ny\n
where-left - OK\nOK\n{"CHANNEL.c1":{"ChannelCapacity":"1000000","ChannelSize":"0","EventPutAttemptCount":"2","EventPutSuccessCount":"2","EventTakeAttemptCount":"<3>","EventTakeSuccessCount":"2"}}\n
where-left y\n OK\nOK\n{"CHANNEL.c1":{"ChannelCapacity":"1000000","ChannelSize":"1","EventPutAttemptCount":"2","EventPutSuccessCount":"2","EventTakeAttemptCount":"<2>","EventTakeSuccessCount":"1"}}\n
where-left x\ny\n OK\nOK\n{"CHANNEL.c1":{"ChannelCapacity":"1000000","ChannelSize":"2","EventPutAttemptCount":"2","EventPutSuccessCount":"2","EventTakeAttemptCount":"<3>","EventTakeSuccessCount":"0"}}\n
there xy
if-sound left -
if-sound rolled 5000-1=x\ny\n
roll-faults 0"#;

#[test]
fn no_line_is_lost_where_rolled_files_fail(rt: HostRuntime) -> Result<(), Fail> {
    pass(&rt, rt.alloc(), KEPT)
}
