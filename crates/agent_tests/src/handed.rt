// Interceptors and sinks that are handed in. `Passer` writes the first letter of each event down that it hands on, `Taker` that of each that
// it takes, and `Refuser` refuses all; each writes its own first letter down once it is dropped. At the line `lack` the `Passer` finds no
// memory. An object that nothing asks for is dropped at the end, interceptors before sinks, and of several the first first.
use crate::running::pass;
use std::test::Fail;

const HANDED_IN: &str =
    r#"A sink is handed each event, in order, and is dropped before what no sink asks for.
use LINES
use ONE
swap k.type = file_roll => k.type = plugin.Taker
input x\ny\n
run agent -n a -f x.conf
status 0
said
workers 2
worker c1 sinks.k 0
objects xyTPR
writes OK\nOK\n{"CHANNEL.c1":{"ChannelCapacity":"100","ChannelSize":"0","EventPutAttemptCount":"2","EventPutSuccessCount":"2","EventTakeAttemptCount":"<1>","EventTakeSuccessCount":"2"}}\n

One that refuses leaves its events in the channel.
use LINES
use ONE
swap k.type = file_roll => k.type = plugin.Refuser
input x\ny\n
run agent -n a -f x.conf
status 0
said
objects RPT
writes OK\nOK\n{"CHANNEL.c1":{"ChannelCapacity":"100","ChannelSize":"2","EventPutAttemptCount":"2","EventPutSuccessCount":"2","EventTakeAttemptCount":"<1>","EventTakeSuccessCount":"0"}}\n

What the program hands in takes all.
use LINES
use ONE
swap k.type = file_roll => k.type = plugin.tally
input x\ny\n
run agent -n a -f x.conf
status 0
said
objects PTR
writes OK\nOK\n{"CHANNEL.c1":{"ChannelCapacity":"100","ChannelSize":"0","EventPutAttemptCount":"2","EventPutSuccessCount":"2","EventTakeAttemptCount":"<1>","EventTakeSuccessCount":"2"}}\n

Members of a group are handed in: one refuses, and the other takes its batch.
use GROUPED
a.sinkgroups.g.processor.type = failover
a.sinkgroups.g.processor.priority.k1 = 5
a.sinkgroups.g.processor.priority.k2 = 10
swap k2.type = file_roll => k2.type = plugin.Refuser
swap k1.type = file_roll => k1.type = plugin.Taker
input x\ny\n
run agent -n a -f x.conf
status 0
said
workers 2
worker c1 sinkgroups.g 0
rolled-in o3
objects xyRTP
writes OK\nOK\n{"CHANNEL.c1":{"ChannelCapacity":"100","ChannelSize":"0","EventPutAttemptCount":"2","EventPutSuccessCount":"2","EventTakeAttemptCount":"<1>","EventTakeSuccessCount":"2"}}\n"#;

#[test]
fn sinks_are_handed_in(rt: HostRuntime) -> Result<(), Fail> {
    pass(&rt, rt.alloc(), HANDED_IN)
}

const STEPS: &str =
    r#"An interceptor is handed each event, in order, and is dropped before what nothing asks for.
use LINES
use ONE
a.sources.r.interceptors = i
a.sources.r.interceptors.i.type = plugin.Passer
input x\ny\n
run agent -n a -f x.conf
status 0
said
objects xyPTR
writes OK\nOK\n{"CHANNEL.c1":{"ChannelCapacity":"100","ChannelSize":"0","EventPutAttemptCount":"2","EventPutSuccessCount":"2","EventTakeAttemptCount":"<2>","EventTakeSuccessCount":"2"}}\n
rolled 5000-1=x\ny\n

What the program hands in keeps every other event. Each interceptor makes of an event what those before it made.
use LINES
use ONE
a.sources.r.interceptors = i j k
a.sources.r.interceptors.i.type = plugin.sample
a.sources.r.interceptors.j.type = regex_filter
a.sources.r.interceptors.j.regex = a
a.sources.r.interceptors.j.excludeEvents = true
a.sources.r.interceptors.k.type = plugin.Passer
input a\nb\nc\nd\n
run agent -n a -f x.conf
status 0
said
objects cPTR
writes OK\nOK\nOK\nOK\n{"CHANNEL.c1":{"ChannelCapacity":"100","ChannelSize":"0","EventPutAttemptCount":"1","EventPutSuccessCount":"1","EventTakeAttemptCount":"<2>","EventTakeSuccessCount":"1"}}\n
rolled 5000-1=c\n

Each source has its own. Nobody connects to the first.
use LINES
use ONE
swap a.sources = r => a.sources = n r
a.sources.n.type = netcat
a.sources.n.bind = localhost
a.sources.n.port = 44444
a.sources.n.channels = c1
a.sources.n.interceptors = i
a.sources.n.interceptors.i.type = plugin.sample
a.sources.r.interceptors = i
a.sources.r.interceptors.i.type = plugin.Passer
listen 44444
input x\ny\n
run agent -n a -f x.conf
status 0
said
workers 3
worker c1 sinks.k 0
worker c1 sources.n 0
worker c1 sources.r 0
listeners 1
objects xyPTR
writes OK\nOK\n{"CHANNEL.c1":{"ChannelCapacity":"100","ChannelSize":"0","EventPutAttemptCount":"2","EventPutSuccessCount":"2","EventTakeAttemptCount":"<2>","EventTakeSuccessCount":"2"}}\n
rolled 5000-1=x\ny\n

A source that listens has one worker and one listener, whatever its threads: so of three links, one after the other, the second one's line is dropped.
use LISTENING
a.sources = n
swap n.threads = 1 => n.threads = 3
a.sources.n.interceptors = i
a.sources.n.interceptors.i.type = plugin.sample
listen 44444
link x\n
link y\n
link z\n sets 1
input-held 0 1
run agent -n a -f x.conf
status 0
said
workers 2
worker c1 sinks.k 0
worker c1 sources.n 0
listeners 1
links 44444 OK\n OK\n OK\n
rolled 5000-1=x\nz\n

One that finds no memory ends the session of the input behind this answer: the line after it is not answered, and no channel has it.
use LINES
use ONE
a.sources.r.interceptors = i
a.sources.r.interceptors.i.type = plugin.Passer
input x\nlack\ny\n
run agent -n a -f x.conf
status 5
said flume: no memory
objects xPTR
writes OK\nFAILED: no memory\n{"CHANNEL.c1":{"ChannelCapacity":"100","ChannelSize":"0","EventPutAttemptCount":"1","EventPutSuccessCount":"1","EventTakeAttemptCount":"<2>","EventTakeSuccessCount":"1"}}\n
rolled 5000-1=x\n

Of a source that listens it ends the session of one link alone: the next link's line is taken, and the run ends well.
use LISTENING
a.sources = n
a.sources.n.interceptors = i
a.sources.n.interceptors.i.type = plugin.Passer
listen 44444
link x\nlack\ny\n
link z\n sets 1
input-held 0 1
run agent -n a -f x.conf
status 0
said
objects xzPTR
links 44444 OK\nFAILED:\sno\smemory\n OK\n
rolled 5000-1=x\nz\n"#;

#[test]
fn interceptors_are_handed_in(rt: HostRuntime) -> Result<(), Fail> {
    pass(&rt, rt.alloc(), STEPS)
}

const ASKED_FOR: &str = r#"A plan that asks for an object is counted, and the object is dropped.
use LINES
use ONE
swap k.type = file_roll => k.type = plugin.Refuser
run check -n a -f x.conf
status 0
said
objects RPT
writes a: 1 sources, 1 channels, 1 sinks, 0 groups\n

So is a plan with an interceptor.
use LINES
use ONE
a.sources.r.interceptors = i
a.sources.r.interceptors.i.type = plugin.Passer
run check -n a -f x.conf
status 0
said
objects PTR
writes a: 1 sources, 1 channels, 1 sinks, 0 groups\n

An interceptor finds none of its name, for check, agent
use LINES
use ONE
a.sources.r.interceptors = i j
a.sources.r.interceptors.i.type = plugin.Passer
a.sources.r.interceptors.j.type = plugin.none
input x\n
run $ -n a -f x.conf
status 2
said flume: line 13: unknown type
objects PTR
writes
rolled

A sink is no interceptor, for check, agent
use LINES
use ONE
a.sources.r.interceptors = i
a.sources.r.interceptors.i.type = plugin.Taker
run $ -n a -f x.conf
status 2
said flume: line 12: unknown type
objects PTR
writes

A second sink finds none of its name, for check, agent
use LINES
use ONE
swap a.sinks = k => a.sinks = k l
swap k.type = file_roll => k.type = plugin.Taker
a.sinks.l.channel = c1
a.sinks.l.type = plugin.none
run $ -n a -f x.conf
status 2
said flume: line 12: unknown type
objects TPR
writes

Where the channel's folder or that of the other sink is not opened, the objects are dropped, for 1, 2
use LINES
use ON_DISK
swap a.sinks = k => a.sinks = k l
swap k.type = file_roll => k.type = plugin.Refuser
a.sinks.l.channel = c1
a.sinks.l.type = file_roll
a.sinks.l.sink.directory = out
opens-fail $
run agent -n a -f x.conf
status 3
said flume: fault outside
objects RPT
writes"#;

#[test]
fn plans_ask_for_objects(rt: HostRuntime) -> Result<(), Fail> {
    pass(&rt, rt.alloc(), ASKED_FOR)
}
