// The channels that come back of a run of `agent`, with the workers that used them.
use crate::running::pass;
use std::test::Fail;

const NAMED: &str =
    r#"Lines go into two channels, of which only the first has a sink; nobody connects to the two listeners of the port.
a.sources = r p
a.sources.r.type = stdin
a.sources.r.channels = c1 c2
a.sources.p.type = netcat
a.sources.p.bind = localhost
a.sources.p.port = 44444
a.sources.p.threads = 2
a.sources.p.channels = c2
a.channels = c1 c2
a.channels.c1.type = memory
a.channels.c2.type = memory
a.sinks = k
a.sinks.k.channel = c1
a.sinks.k.type = null
listen 44444
listen 44444
input a\nb\n
run agent -n a -f x.conf
channels 2
numbered
worker c1 sinks.k 0
worker c1 sources.r 0
worker c2 sources.p 0
worker c2 sources.p 1
worker c2 sources.r 0"#;

#[test]
fn channels_name_their_workers(rt: HostRuntime) -> Result<(), Fail> {
    pass(&rt, rt.alloc(), NAMED)
}

const NONE: &str = r#"A configuration that is not whole.
a.sources = r
input a\nb\n
run agent -n a -f x.conf
channels 0"#;

#[test]
fn a_run_that_does_not_begin_hands_no_channel_back(rt: HostRuntime) -> Result<(), Fail> {
    pass(&rt, rt.alloc(), NONE)
}
