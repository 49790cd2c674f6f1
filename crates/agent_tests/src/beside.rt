// What needs a host of the tests' own: a channel whose sync waits while another one is put to, and an input that is too long.
use crate::running::pass;
use std::test::Fail;

const BESIDE: &str =
    r#"Lines of the input go into a channel in one folder, and those of links into a channel in another. The first sync of the line in `d` waits until the line of a link is answered, which is only given once that sync waits. An opening of an empty folder makes nine calls.
a.sources = r n
a.sources.r.type = stdin
a.sources.r.channels = c1
a.sources.n.type = netcat
a.sources.n.bind = localhost
a.sources.n.port = 44444
a.sources.n.threads = 1
a.sources.n.channels = c2
a.channels = c1 c2 c3
a.channels.c1.type = file
a.channels.c1.dataDirs = d
a.channels.c2.type = file
a.channels.c2.dataDirs = e
a.channels.c3.type = memory
a.sinks = k
a.sinks.k.type = null
a.sinks.k.channel = c3
gate 9
listen 44444
hold 0
link x\n sets 1
input a\n
run agent -n a -f x.conf
status 0
said
begins OK\n{"CHANNEL.c1":{"ChannelCapacity":"1000000","ChannelSize":"1","EventPutAttemptCount":"1","EventPutSuccessCount":"1","EventTakeAttemptCount":"0","EventTakeSuccessCount":"0"},"CHANNEL.c2":{"ChannelCapacity":"1000000","ChannelSize":"1","EventPutAttemptCount":"1","EventPutSuccessCount":"1","EventTakeAttemptCount":"0","EventTakeSuccessCount":"0"},
links 44444 OK\n
unset 2"#;

#[test]
fn a_channel_is_put_to_beside_the_sync_of_another(rt: HostRuntime) -> Result<(), Fail> {
    pass(&rt, rt.alloc(), BESIDE)
}

const TOO_LONG: &str =
    r#"An input that is no source and gives 2^40 bytes ends the run, with the report.
use LISTENING
a.sources = n
more 1099511627776
run agent -n a -f x.conf
status 6
said flume: input too long
writes {"CHANNEL.c1":{"ChannelCapacity":"100","ChannelSize":"0","EventPutAttemptCount":"0","EventPutSuccessCount":"0","EventTakeAttemptCount":"<0>","EventTakeSuccessCount":"0"}}\n"#;

#[test]
fn an_input_of_a_tebibyte_is_too_long(rt: HostRuntime) -> Result<(), Fail> {
    pass(&rt, rt.alloc(), TOO_LONG)
}
