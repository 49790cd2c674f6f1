// `check -n NAME -f FILE`, example by example.
use crate::running::pass;
use std::test::Fail;

const COUNTED: &str = r#"The worked configuration.
use WORKED
run check -n a1 -f x.conf
status 0
writes a1: 1 sources, 2 channels, 2 sinks, 0 groups\n
said

A type that nobody knows.
use WORKED
swap c2.type = file => c2.type = kafka
run check -n a1 -f x.conf
status 2
writes
said flume: line 11: unknown type

No such agent.
use WORKED
run check -n a2 -f x.conf
status 2
writes
said flume: no agent a2

No file is named.
use WORKED
run check -n a1
status 1
writes
said usage: flume pipe DIR | agent -n NAME -f FILE | check -n NAME -f FILE | load N DIR"#;

#[test]
fn a_configuration_is_counted(rt: HostRuntime) -> Result<(), Fail> {
    pass(&rt, rt.alloc(), COUNTED)
}

const FAULTS: &str = r#"An escape that is cut off.
text a1.x = \\u12
run check -n a1 -f x.conf
status 2
writes
said flume: line 1: bad escape

A channel without a type.
text a1.channels = c\na1.sinks = k
run check -n a1 -f x.conf
status 2
writes
said flume: missing a1.channels.c.type

A name that stands twice.
text a1.sources = r r
run check -n a1 -f x.conf
status 2
writes
said flume: line 1: clash

An empty file.
text
run check -n a1 -f x.conf
status 2
writes
said flume: no agent a1

The line of the first type that nobody handed in.
text a1.sources=r\na1.sources.r.type=stdin\na1.sources.r.channels=c\na1.channels=c\na1.channels.c.type=memory\na1.sinks=k l\na1.sinks.l.channel=c\na1.sinks.k.channel=c\na1.sinks.l.type=plugin.x\na1.sinks.k.type=plugin.y
run check -n a1 -f x.conf
status 2
writes
said flume: line 9: unknown type

An interceptor that is handed in, before a sink.
text a1.sources=r\na1.sources.r.type=stdin\na1.sources.r.channels=c\na1.channels=c\na1.channels.c.type=memory\na1.sinks=k\na1.sources.r.interceptors=i\na1.sources.r.interceptors.i.type=plugin.x\na1.sinks.k.channel=c\na1.sinks.k.type=plugin.y
run check -n a1 -f x.conf
status 2
writes
said flume: line 8: unknown type

A pattern that is none.
text a1.sources=r\na1.sources.r.type=stdin\na1.sources.r.channels=c\na1.channels=c\na1.channels.c.type=memory\na1.sinks=k\na1.sinks.k.channel=c\na1.sinks.k.type=null\na1.sources.r.interceptors=i\na1.sources.r.interceptors.i.type=regex_filter\na1.sources.r.interceptors.i.regex=[
run check -n a1 -f x.conf
status 2
writes
said flume: line 11: bad pattern"#;

#[test]
fn faults_are_told(rt: HostRuntime) -> Result<(), Fail> {
    pass(&rt, rt.alloc(), FAULTS)
}

// Comments fill the file up.
const SIZES: &str = r#"The greatest size.
use WORKED
fill 1048576
run check -n a1 -f x.conf
status 0
writes a1: 1 sources, 2 channels, 2 sinks, 0 groups\n
said

A byte more.
use WORKED
fill 1048577
run check -n a1 -f x.conf
status 2
writes
said flume: configuration too large"#;

#[test]
fn a_file_has_a_greatest_size(rt: HostRuntime) -> Result<(), Fail> {
    pass(&rt, rt.alloc(), SIZES)
}

const OUTPUTS: &str = r#"The write fails.
use WORKED
output-fails 0
run check -n a1 -f x.conf
status 3
writes
said flume: fault outside

The flush fails.
use WORKED
output-fails 1
run check -n a1 -f x.conf
status 3
writes a1: 1 sources, 2 channels, 2 sinks, 0 groups\n
said flume: fault outside"#;

#[test]
fn an_output_that_fails_is_a_fault(rt: HostRuntime) -> Result<(), Fail> {
    pass(&rt, rt.alloc(), OUTPUTS)
}
