// Netcat sources of an agent.
use crate::running::pass;
use std::test::Fail;

// The first read of the input has begun before the link is given, and ends once a file was flushed: the line of the link, which waits in
// vain three times, is rolled and answered before the input ends, which ends the run.
const STOP: &str = r#"A source reads the input.
use LISTENING
a.sources = r n
a.sources.r.type = stdin
a.sources.r.channels = c1
input-held 0 1
flush-sets 1
listen 44444
hold 0
link quiet quiet quiet x\n
input
run agent -n a -f x.conf
status 0
said
writes {"CHANNEL.c1":{"ChannelCapacity":"100","ChannelSize":"0","EventPutAttemptCount":"1","EventPutSuccessCount":"1","EventTakeAttemptCount":"<2>","EventTakeSuccessCount":"1"}}\n
rolled 5000-1=x\n
listeners 1
links 44444 OK\n

Where no source reads the input, its bytes are dropped, and its end is the end of the run.
use LISTENING
a.sources = n
input-held 0 1
flush-sets 1
listen 44444
hold 0
link quiet quiet quiet x\n
input dropped\n
run agent -n a -f x.conf
status 0
said
writes {"CHANNEL.c1":{"ChannelCapacity":"100","ChannelSize":"0","EventPutAttemptCount":"1","EventPutSuccessCount":"1","EventTakeAttemptCount":"<2>","EventTakeSuccessCount":"1"}}\n
rolled 5000-1=x\n
listeners 1
links 44444 OK\n"#;

#[test]
fn gate_stop(rt: HostRuntime) -> Result<(), Fail> {
    pass(&rt, rt.alloc(), STOP)
}

// Two sessions of one source: the first read of the one waits until the other was answered, and the input ends once the first one was
// answered too. The lines are rolled in the order in which they came.
const SESSION: &str = r#"The channel of the sink alone.
use LISTENING
a.sources = n
a.sources.n.threads = 2
listen 44444
link wait:1 x\n sets 2
listen 44444
link y\n sets 1
input-held 0 2
run agent -n a -f x.conf
status 0
said
ends \n
listeners 2
links 44444 OK\n OK\n
rolled 5000-1=y\nx\n

A second one, which nobody takes from.
use LISTENING
a.sources = n
a.sources.n.threads = 2
a.channels = c1 c2
a.channels.c2.type = memory
a.sources.n.channels = c1 c2
listen 44444
link wait:1 x\n sets 2
listen 44444
link y\n sets 1
input-held 0 2
run agent -n a -f x.conf
status 0
said
ends "CHANNEL.c2":{"ChannelCapacity":"100","ChannelSize":"2","EventPutAttemptCount":"2","EventPutSuccessCount":"2","EventTakeAttemptCount":"0","EventTakeSuccessCount":"0"}}\n
listeners 2
links 44444 OK\n OK\n
rolled 5000-1=y\nx\n"#;

#[test]
fn gate_session(rt: HostRuntime) -> Result<(), Fail> {
    pass(&rt, rt.alloc(), SESSION)
}
