// The plans of whole configurations, and their faults, case by case: a name after `#`, lines, and after `>` what is told of them.
// A line that begins with `//` is a comment.
use crate::steps::{has_selector, has_steps};
use flume_config::{
    ChannelKind, ChannelPlan, GroupPlan, SinkKind, SinkPlan, SourceKind, SourcePlan, plan_of,
};
use prop_text::read_properties;
use std::alloc::Global;
use std::test::Fail;
use test_fixtures::WORKED;

fn source_text(out: &mut String, source: &SourcePlan) -> Result<(), Fail> {
    let name = source.name.as_str();
    let line = source.line;
    let channels = source.channels.as_slice();
    match &source.kind {
        SourceKind::Netcat {
            bind,
            port,
            max_line,
            ack,
            threads,
        } => write!(
            out,
            "{name}@{line} netcat {bind}:{port} {max_line} {ack} {threads} {channels:?};"
        )?,
        SourceKind::Avro {
            bind,
            port,
            threads,
        } => {
            write!(
                out,
                "{name}@{line} avro {bind}:{port} {threads} {channels:?};"
            )?
        }
        SourceKind::Stdin { max_line, ack } => {
            write!(out, "{name}@{line} stdin {max_line} {ack} {channels:?};")?
        }
    }
    Ok(())
}

fn channel_text(out: &mut String, channel: &ChannelPlan) -> Result<(), Fail> {
    let name = channel.name.as_str();
    let line = channel.line;
    let capacity = channel.capacity;
    let transaction = channel.txn_capacity;
    match &channel.kind {
        ChannelKind::Memory => write!(out, "{name}@{line} memory {capacity} {transaction};")?,
        ChannelKind::File {
            folder,
            max_file,
            interval,
            on_close,
        } => write!(
            out,
            "{name}@{line} file {folder} {max_file} {interval} {on_close} {capacity} {transaction};"
        )?,
    }
    Ok(())
}

fn sink_text(out: &mut String, sink: &SinkPlan) -> Result<(), Fail> {
    let name = sink.name.as_str();
    let line = sink.line;
    let channel = sink.channel;
    let batch = sink.batch;
    match &sink.kind {
        SinkKind::Null => write!(out, "{name}@{line} null {channel} {batch};")?,
        SinkKind::Roll { folder, interval } => {
            write!(
                out,
                "{name}@{line} roll {folder} {interval} {channel} {batch};"
            )?
        }
        SinkKind::Avro { host, port } => {
            write!(out, "{name}@{line} avro {host}:{port} {channel} {batch};")?
        }
        SinkKind::Plugin { name: object } => {
            write!(out, "{name}@{line} plugin {object} {channel} {batch};")?
        }
    }
    Ok(())
}

fn group_text(out: &mut String, group: &GroupPlan) -> Result<(), Fail> {
    let name = group.name.as_str();
    let sinks = group.sinks.as_slice();
    let priorities = group.priorities.as_slice();
    let processor = group.processor;
    let penalty = group.penalty;
    let backoff = group.backoff;
    write!(
        out,
        "{name} {processor:?} {sinks:?} {priorities:?} {penalty} {backoff};"
    )?;
    Ok(())
}

/// The line that a user reads of an agent, or its plan.
fn told(alloc: Global, text: &str, agent: &str) -> Result<String, Fail> {
    let properties = read_properties(alloc, text.as_bytes())?;
    let mut out = String::new(alloc);
    match plan_of(alloc, &properties, agent) {
        Err(refused) => write!(out, "{refused}")?,
        Ok(plan) => {
            for source in &plan.sources {
                source_text(&mut out, source)?;
            }
            for channel in &plan.channels {
                channel_text(&mut out, channel)?;
            }
            for sink in &plan.sinks {
                sink_text(&mut out, sink)?;
            }
            for group in &plan.groups {
                group_text(&mut out, group)?;
            }
        }
    }
    Ok(out)
}

const WORKED_PLAN: &str = "r1@5 netcat localhost:44444 512 true 4 [0, 1];\
    c1@10 memory 200 100;c2@11 file data 2146435071 30000 true 1000000 10000;\
    k1@13 roll out 30 0 100;k2@16 avro localhost:4545 1 100;";

#[test]
fn the_worked_example(rt: HostRuntime) -> Result<(), Fail> {
    let alloc = rt.alloc();
    let unknown = WORKED.replace(alloc, "c2.type = file", "c2.type = kafka")?;
    assert!(rt; told(alloc, WORKED, "a1")?.as_str() == WORKED_PLAN);
    assert!(rt; told(alloc, WORKED, "a2")?.as_str() == "no agent");
    assert!(rt; told(alloc, unknown.as_str(), "a1")?.as_str() == "line 11: unknown type");
    Ok(())
}

const BASE: &str = "a1.sources=r
a1.channels=c
a1.sinks=k
a1.sources.r.type=stdin
a1.sources.r.channels=c
a1.channels.c.type=memory
a1.sinks.k.type=null
a1.sinks.k.channel=c
";

// What is told of the lines above and those after them.
fn told_after(alloc: Global, lines: &str) -> Result<String, Fail> {
    let mut text = String::from_str(alloc, BASE)?;
    text.push_str(lines)?;
    told(alloc, text.as_str(), "a1")
}

// Lines from the ninth on after the lines above, and the plan or the fault that they make.
const COMPONENTS: &str = "# types in capitals and a leading zero
a1.sources.r.type=STDIN
a1.channels.c.capacity=0300
> r@9 stdin 512 true [0];c@6 memory 300 100;k@7 null 0 100;
// each fault
# unknown type of a source
a1.sources.r.type=kafka
> line 9: unknown type
# plug-in in capitals
a1.sinks.k.type=Plugin.x
> line 9: unknown type
# unknown channel of a source
a1.sources.r.channels=c d
> line 9: unknown name
# unknown channel of a sink
a1.sinks.k.channel=d
> line 9: unknown name
# capacity above its limit
a1.channels.c.capacity=10000001
> line 9: bad number
# capacity with a sign
a1.channels.c.capacity=+1
> line 9: bad number
# acknowledgement neither true nor false
a1.sources.r.ack-every-event=yes
> line 9: bad number
# two folders
a1.channels.c.type=file
a1.channels.c.dataDirs=d,
> line 10: unsupported
# two checkpoints
a1.channels.c.type=file
a1.channels.c.dataDirs=d
a1.channels.c.useDualCheckpoints=TRUE
> line 11: unsupported
# port above its limit before compression
a1.sinks.k.type=avro
a1.sinks.k.hostname=h
a1.sinks.k.port=65536
a1.sinks.k.compression-type=deflate
> line 11: bad number
# compression of an avro sink
a1.sinks.k.type=avro
a1.sinks.k.hostname=h
a1.sinks.k.port=65535
a1.sinks.k.compression-type=deflate
> line 12: unsupported
# another serializer
a1.sinks.k.type=file_roll
a1.sinks.k.sink.directory=o
a1.sinks.k.sink.serializer=text
> line 11: unsupported
# compression of an avro source
a1.sources.r.type=avro
a1.sources.r.bind=h
a1.sources.r.port=1
a1.sources.r.compression-type=zlib
> line 12: unsupported
# two checkpoints neither true nor false
a1.channels.c.type=file
a1.channels.c.dataDirs=d
a1.channels.c.useDualCheckpoints=no
> line 11: bad number
# channel listed twice
a1.channels=c c
> line 9: clash
# sink listed twice
a1.sinks=k k
> line 9: clash
# two sources of standard input
a1.sources=r s
a1.sources.s.type=stdin
a1.sources.s.channels=c
> line 10: clash
# two listeners at one port
a1.sources=r s
a1.sources.r.type=netcat
a1.sources.r.bind=h
a1.sources.r.port=80
a1.sources.s.type=avro
a1.sources.s.bind=h
a1.sources.s.port=080
a1.sources.s.channels=c
> line 15: clash
# plug-in of two sinks
a1.sinks=k l
a1.sinks.k.type=plugin.x
a1.sinks.l.type=plugin.x
a1.sinks.l.channel=c
> line 11: clash
# folder of two channels
a1.channels=c d
a1.channels.d.type=file
a1.channels.d.dataDirs=x
a1.channels.c.type=File
a1.channels.c.dataDirs=x
> line 13: clash
// groups
# group of one sink
a1.sinkgroups=g
a1.sinkgroups.g.sinks=k
> r@4 stdin 512 true [0];c@6 memory 100 100;k@7 null 0 100;g Single [0] [0] 30000 false;
# default group of two sinks
a1.sinks=k l
a1.sinks.l.type=null
a1.sinks.l.channel=c
a1.sinkgroups=g
a1.sinkgroups.g.sinks=k l
> line 13: unsupported
# group over two channels
a1.channels=c d
a1.channels.d.type=memory
a1.sinks=k l
a1.sinks.l.type=null
a1.sinks.l.channel=d
a1.sinkgroups=g
a1.sinkgroups.g.sinks=k l
a1.sinkgroups.g.processor.type=failover
> line 13: unsupported
# sink of two groups
a1.sinkgroups=g h
a1.sinkgroups.g.sinks=k
a1.sinkgroups.h.sinks=k
> line 11: clash
# selector of a group in capitals
a1.sinkgroups=g
a1.sinkgroups.g.sinks=k
a1.sinkgroups.g.processor.type=load_balance
a1.sinkgroups.g.processor.selector=RANDOM
> line 12: unsupported
# unknown type of a group
a1.sinkgroups=g
a1.sinkgroups.g.sinks=k
a1.sinkgroups.g.processor.type=other
> line 11: unknown type
# unknown sink of a group
a1.sinkgroups=g
a1.sinkgroups.g.sinks=x
> line 10: unknown name
// the first sink of a group is the one that stands first, also where it stands twice
# group that names its first sink twice
a1.channels=c d
a1.channels.d.type=memory
a1.sinks=k l
a1.sinks.l.type=null
a1.sinks.l.channel=d
a1.sinkgroups=g
a1.sinkgroups.g.sinks=k l k
a1.sinkgroups.g.processor.type=failover
> line 13: unsupported
# load balancing by default
a1.sinkgroups=g
a1.sinkgroups.g.sinks=k
a1.sinkgroups.g.processor.type=load_balance
> r@4 stdin 512 true [0];c@6 memory 100 100;k@7 null 0 100;g RoundRobin [0] [0] 30000 false;
# load balancing with each key
a1.sinkgroups=g
a1.sinkgroups.g.sinks=k
a1.sinkgroups.g.processor.type=load_balance
a1.sinkgroups.g.processor.selector=random
a1.sinkgroups.g.processor.backoff=true
a1.sinkgroups.g.processor.selector.maxTimeOut=7
> r@4 stdin 512 true [0];c@6 memory 100 100;k@7 null 0 100;g Random [0] [0] 7 true;
// the least line, the first of two on one line, the least key, and a fault before a key
# first of two lines
a1.channels.c.capacity=x
a1.sinks.k.channel=d
> line 9: bad number
# unknown name before a clash on its line
a1.sources.r.channels=c d d
> line 9: unknown name
# least missing key
a1.sources.r.type=netcat
> missing a1.sources.r.bind
# fault before a missing key
a1.sources.r.type=netcat
a1.channels.c.capacity=x
> line 10: bad number
# plug-in without a name
a1.sinks=l k
a1.sinks.l.type=PLUGIN
> line 10: unknown type
# failover with each key
a1.sinks=l k
a1.sinks.l.type=plugin.x
a1.sinks.l.channel=c
a1.sinkgroups=g
a1.sinkgroups.g.sinks=k l
a1.sinkgroups.g.processor.type=failover
a1.sinkgroups.g.processor.priority.l=7
a1.sinkgroups.g.processor.maxpenalty=9
> r@4 stdin 512 true [0];c@6 memory 100 100;l@10 plugin x 0 100;k@7 null 0 100;g Failover [1, 0] [0, 7] 9 false;
";

// The limits of each number, the keys that a type reads, and types in other cases.
const LIMITS: &str = "# greatest numbers of a netcat source
a1.sources.r.type=NetCat
a1.sources.r.bind=h
a1.sources.r.port=65535
a1.sources.r.max-line-length=1048568
a1.sources.r.ack-every-event=FALSE
a1.sources.r.threads=64
> r@9 netcat h:65535 1048568 false 64 [0];c@6 memory 100 100;k@7 null 0 100;
# port 0
a1.sources.r.type=NetCat
a1.sources.r.bind=h
a1.sources.r.port=0
> line 11: bad number
# line above its limit
a1.sources.r.type=NetCat
a1.sources.r.bind=h
a1.sources.r.port=1
a1.sources.r.max-line-length=1048569
> line 12: bad number
# line of no bytes
a1.sources.r.type=NetCat
a1.sources.r.bind=h
a1.sources.r.port=1
a1.sources.r.max-line-length=0
> line 12: bad number
# threads above their limit
a1.sources.r.type=NetCat
a1.sources.r.bind=h
a1.sources.r.port=1
a1.sources.r.threads=65
> line 12: bad number
# no thread
a1.sources.r.type=NetCat
a1.sources.r.bind=h
a1.sources.r.port=1
a1.sources.r.threads=0
> line 12: bad number
# greatest capacities
a1.channels.c.capacity=10000000
a1.channels.c.transactionCapacity=100000
> r@4 stdin 512 true [0];c@6 memory 10000000 100000;k@7 null 0 100;
# transaction capacity above its limit
a1.channels.c.transactionCapacity=100001
> line 9: bad number
# capacity 0
a1.channels.c.capacity=0
> line 9: bad number
# least numbers of a file channel
a1.channels.c.type=FILE
a1.channels.c.dataDirs=d
a1.channels.c.checkpointInterval=1000
a1.channels.c.maxFileSize=4096
a1.channels.c.checkpointOnClose=False
> r@4 stdin 512 true [0];c@9 file d 4096 1000 false 1000000 10000;k@7 null 0 100;
# greatest numbers of a file channel
a1.channels.c.type=FILE
a1.channels.c.dataDirs=d
a1.channels.c.checkpointInterval=86400000
a1.channels.c.maxFileSize=2146435071
> r@4 stdin 512 true [0];c@9 file d 2146435071 86400000 true 1000000 10000;k@7 null 0 100;
# interval below its limit
a1.channels.c.type=FILE
a1.channels.c.dataDirs=d
a1.channels.c.checkpointInterval=999
> line 11: bad number
# interval above its limit
a1.channels.c.type=FILE
a1.channels.c.dataDirs=d
a1.channels.c.checkpointInterval=86400001
> line 11: bad number
# file size below its limit
a1.channels.c.type=FILE
a1.channels.c.dataDirs=d
a1.channels.c.maxFileSize=4095
> line 11: bad number
# file size above its limit
a1.channels.c.type=FILE
a1.channels.c.dataDirs=d
a1.channels.c.maxFileSize=2146435072
> line 11: bad number
# greatest batch of an avro sink
a1.sinks.k.type=AVRO
a1.sinks.k.hostname=h
a1.sinks.k.port=1
a1.sinks.k.batch-size=10000
> r@4 stdin 512 true [0];c@6 memory 100 100;k@9 avro h:1 0 10000;
# batch of an avro sink above its limit
a1.sinks.k.type=AVRO
a1.sinks.k.hostname=h
a1.sinks.k.port=1
a1.sinks.k.batch-size=10001
> line 12: bad number
# least numbers of a rolled file
a1.sinks.k.type=File_Roll
a1.sinks.k.sink.directory=o
a1.sinks.k.sink.rollInterval=0
a1.sinks.k.sink.batchSize=1
> r@4 stdin 512 true [0];c@6 memory 100 100;k@9 roll o 0 0 1;
# greatest interval of a rolled file
a1.sinks.k.type=File_Roll
a1.sinks.k.sink.directory=o
a1.sinks.k.sink.rollInterval=4294967295
> r@4 stdin 512 true [0];c@6 memory 100 100;k@9 roll o 4294967295 0 100;
# interval of a rolled file above its limit
a1.sinks.k.type=File_Roll
a1.sinks.k.sink.directory=o
a1.sinks.k.sink.rollInterval=4294967296
> line 11: bad number
# batch 0 of a rolled file
a1.sinks.k.type=File_Roll
a1.sinks.k.sink.directory=o
a1.sinks.k.sink.batchSize=0
> line 11: bad number
# batch of a null sink above its limit
a1.sinks.k.type=NULL
a1.sinks.k.batchSize=10001
> line 10: bad number
# greatest numbers of a failover group
a1.sinkgroups=g
a1.sinkgroups.g.sinks=k
a1.sinkgroups.g.processor.type=FailOver
a1.sinkgroups.g.processor.priority.k=4294967295
a1.sinkgroups.g.processor.maxpenalty=18446744073709551615
> r@4 stdin 512 true [0];c@6 memory 100 100;k@7 null 0 100;g Failover [0] [4294967295] 18446744073709551615 false;
# priority above its limit
a1.sinkgroups=g
a1.sinkgroups.g.sinks=k
a1.sinkgroups.g.processor.type=FailOver
a1.sinkgroups.g.processor.priority.k=4294967296
> line 12: bad number
# penalty above its limit
a1.sinkgroups=g
a1.sinkgroups.g.sinks=k
a1.sinkgroups.g.processor.type=FailOver
a1.sinkgroups.g.processor.maxpenalty=18446744073709551616
> line 12: bad number
# priority of a sink outside the group
a1.sinkgroups=g
a1.sinkgroups.g.sinks=k
a1.sinkgroups.g.processor.type=FailOver
a1.sinkgroups.g.processor.priority.x=-1
> r@4 stdin 512 true [0];c@6 memory 100 100;k@7 null 0 100;g Failover [0] [0] 30000 false;
# time out above its limit
a1.sinkgroups=g
a1.sinkgroups.g.sinks=k
a1.sinkgroups.g.processor.type=Load_Balance
a1.sinkgroups.g.processor.selector.maxTimeOut=18446744073709551616
> line 12: bad number
# penalty of another type
a1.sinkgroups=g
a1.sinkgroups.g.sinks=k
a1.sinkgroups.g.processor.type=Load_Balance
a1.sinkgroups.g.processor.maxpenalty=x
> r@4 stdin 512 true [0];c@6 memory 100 100;k@7 null 0 100;g RoundRobin [0] [0] 30000 false;
# backoff that is a number
a1.sinkgroups=g
a1.sinkgroups.g.sinks=k
a1.sinkgroups.g.processor.type=Load_Balance
a1.sinkgroups.g.processor.backoff=1
> line 12: bad number
";

// Interceptors that are listed twice, and objects that are handed in, each once.
const OBJECTS: &str = "# interceptor listed twice
a1.sources.r.interceptors=i i
a1.sources.r.interceptors.i.type=host
> line 9: clash
# object of two interceptors
a1.sources.r.interceptors=i j
a1.sources.r.interceptors.i.type=plugin.x
a1.sources.r.interceptors.j.type=plugin.x
> line 11: clash
# object of an interceptor and of a sink
a1.sources.r.interceptors=i
a1.sources.r.interceptors.i.type=plugin.x
a1.sinks.k.type=plugin.x
> r@4 stdin 512 true [0];c@6 memory 100 100;k@11 plugin x 0 100;
";

/// What is told of a case's lines.
#[derive(Clone, Copy)]
pub enum Part {
    // the plan of the lines above and those of the case, or the fault
    Plan,
    // the interceptors of the one source, or the fault
    Steps,
    // the selector of the one source, after a `static` interceptor, or the fault
    Selector,
}

fn is_told(alloc: Global, part: Part, lines: &str, want: &str) -> Result<bool, Fail> {
    match part {
        Part::Plan => Ok(told_after(alloc, lines)?.as_str() == want),
        Part::Steps => has_steps(alloc, lines, want),
        Part::Selector => has_selector(alloc, lines, want),
    }
}

// Adds a line to those of a case.
fn add_line(lines: &mut String, line: &str) -> Result<(), Fail> {
    if !lines.is_empty() {
        lines.push('\n')?;
    }
    Ok(lines.push_str(line)?)
}

/// Looks at each case of a table, and counts them. A case that is wrong is named.
pub fn count_cases(alloc: Global, part: Part, table: &str) -> Result<usize, Fail> {
    let mut count = 0usize;
    let mut name = String::new(alloc);
    let mut lines = String::new(alloc);
    for line in table.lines() {
        if let Some(title) = line.strip_prefix("# ") {
            name.clear();
            name.push_str(title)?;
            lines.clear();
        } else if let Some(want) = line.strip_prefix("> ") {
            if !is_told(alloc, part, lines.as_str(), want)? {
                return Err(Fail::new(format_args!("{}", name.as_str())));
            }
            count = count.saturating_add(1);
        } else if !line.starts_with("//") {
            add_line(&mut lines, line)?;
        }
    }
    Ok(count)
}

#[test]
fn plans_and_faults(rt: HostRuntime) -> Result<(), Fail> {
    assert!(rt; count_cases(rt.alloc(), Part::Plan, COMPONENTS)? == 37);
    assert!(rt; count_cases(rt.alloc(), Part::Plan, LIMITS)? == 29);
    assert!(rt; count_cases(rt.alloc(), Part::Plan, OBJECTS)? == 3);
    Ok(())
}
