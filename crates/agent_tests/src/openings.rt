// What a call opens, of which each is refused once in turn: the call ends, and a second one on the same host does all of it.
use crate::running::pass;
use std::test::Fail;

const OPENINGS: &str =
    r#"The file, the host's name, the channel's folder, that of the rolled files, or the port fails, for 0, 1, 2, 3, 4
a.sources = r n
a.sources.r.type = stdin
a.sources.r.channels = c1
a.sources.r.interceptors = i
a.sources.r.interceptors.i.type = host
a.sources.r.interceptors.i.useIP = false
a.sources.n.type = netcat
a.sources.n.bind = localhost
a.sources.n.port = 44444
a.sources.n.threads = 1
a.sources.n.channels = c1
a.channels = c1
a.channels.c1.type = file
a.channels.c1.dataDirs = d
a.sinks = k
a.sinks.k.channel = c1
a.sinks.k.type = file_roll
a.sinks.k.sink.directory = out
a.sinks.k.sink.rollInterval = 0
input x\ny\n
opens-fail $
run agent -n a -f x.conf
status 3
writes
said flume: fault outside
last-opened $
run agent -n a -f x.conf
status 0
said
writes OK\nOK\n{"CHANNEL.c1":{"ChannelCapacity":"1000000","ChannelSize":"0","EventPutAttemptCount":"2","EventPutSuccessCount":"2","EventTakeAttemptCount":"<3>","EventTakeSuccessCount":"2"}}\n
rolled 5000-1=x\ny\n

The file of `check` fails, for 0
use WORKED
opens-fail $
run check -n a1 -f x.conf
status 3
writes
said flume: fault outside
last-opened $
run check -n a1 -f x.conf
status 0
said
writes a1: 1 sources, 2 channels, 2 sinks, 0 groups\n

The folder of `pipe` fails, for 0
input a\nb\n
opens-fail $
run pipe d
status 3
writes
said flume: fault outside
last-opened $
run pipe d
status 0
said
writes OK\nOK\n
file log 1 = TWO_LINES

The file, the host's name, the channel's folder, that of the rolled files, or the port finds no memory, for 0, 1, 2, 3, 4
a.sources = r n
a.sources.r.type = stdin
a.sources.r.channels = c1
a.sources.r.interceptors = i
a.sources.r.interceptors.i.type = host
a.sources.r.interceptors.i.useIP = false
a.sources.n.type = netcat
a.sources.n.bind = localhost
a.sources.n.port = 44444
a.sources.n.threads = 1
a.sources.n.channels = c1
a.channels = c1
a.channels.c1.type = file
a.channels.c1.dataDirs = d
a.sinks = k
a.sinks.k.channel = c1
a.sinks.k.type = file_roll
a.sinks.k.sink.directory = out
a.sinks.k.sink.rollInterval = 0
input x\ny\n
opens-lack $
run agent -n a -f x.conf
status 5
writes
said flume: no memory
last-opened $
run agent -n a -f x.conf
status 0
said
writes OK\nOK\n{"CHANNEL.c1":{"ChannelCapacity":"1000000","ChannelSize":"0","EventPutAttemptCount":"2","EventPutSuccessCount":"2","EventTakeAttemptCount":"<3>","EventTakeSuccessCount":"2"}}\n
rolled 5000-1=x\ny\n

The file of `check` finds no memory, for 0
use WORKED
opens-lack $
run check -n a1 -f x.conf
status 5
writes
said flume: no memory
last-opened $
run check -n a1 -f x.conf
status 0
said
writes a1: 1 sources, 2 channels, 2 sinks, 0 groups\n

The folder of `pipe` finds no memory, for 0
input a\nb\n
opens-lack $
run pipe d
status 5
writes
said flume: no memory
last-opened $
run pipe d
status 0
said
writes OK\nOK\n
file log 1 = TWO_LINES"#;

#[test]
fn each_opening_is_refused_once(rt: HostRuntime) -> Result<(), Fail> {
    pass(&rt, rt.alloc(), OPENINGS)
}
