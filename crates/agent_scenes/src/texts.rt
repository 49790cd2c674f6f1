// Configurations that several scenarios use, by their names.
use test_fixtures::WORKED;

// A source `r` of lines, and one sink `k` of a channel `c1` that rolls no file anew.
const LINES: &str = "a.sources = r
a.sources.r.type = stdin
a.sinks = k
a.sinks.k.channel = c1
a.sinks.k.type = file_roll
a.sinks.k.sink.directory = out
a.sinks.k.sink.rollInterval = 0
";

// One channel in memory.
const ONE: &str = "a.channels = c1
a.sources.r.channels = c1
a.channels.c1.type = memory
";

// One channel on a disk, which is not kept at the end.
const ON_DISK: &str = "a.channels = c1
a.sources.r.channels = c1
a.channels.c1.type = file
a.channels.c1.dataDirs = d
a.channels.c1.checkpointOnClose = false
";

// Three channels in memory, of which the second has room for one event, and the state decides which one gets a line.
const ROUTED: &str = "a.channels = c1 c2 c3
a.sources.r.channels = c1 c2 c3
a.channels.c1.type = memory
a.channels.c2.type = memory
a.channels.c2.capacity = 1
a.channels.c3.type = memory
a.sources.r.interceptors = i
a.sources.r.interceptors.i.type = static
a.sources.r.interceptors.i.key = state
a.sources.r.selector.type = multiplexing
a.sources.r.selector.header = state
";

// Lines go into a channel on a disk, which nobody takes from: so only their worker mends it, and the caller at the
// end, when it is not kept. The sink that
// each agent has is of another channel.
const UNTAKEN: &str = "a.sources = r
a.sources.r.type = stdin
a.sources.r.channels = c1
a.channels = c1 c2
a.channels.c1.type = file
a.channels.c1.dataDirs = d
a.channels.c1.checkpointOnClose = false
a.channels.c2.type = memory
a.sinks = k
a.sinks.k.type = null
a.sinks.k.channel = c2
";

// A netcat source with one worker, and a sink that rolls no file anew. The list of sources is to come.
const LISTENING: &str = "a.channels = c1
a.channels.c1.type = memory
a.sinks = k
a.sinks.k.channel = c1
a.sinks.k.type = file_roll
a.sinks.k.sink.directory = out
a.sinks.k.sink.rollInterval = 0
a.sources.n.type = netcat
a.sources.n.bind = localhost
a.sources.n.port = 44444
a.sources.n.threads = 1
a.sources.n.channels = c1
";

// A sink of Avro that hands on one event at a time.
const SENDING: &str = "a.channels = c1
a.channels.c1.type = memory
a.sinks = k
a.sinks.k.channel = c1
a.sinks.k.type = avro
a.sinks.k.hostname = far
a.sinks.k.port = 4545
a.sinks.k.batch-size = 1
";

// Standard input is its source.
const STDIN: &str = "a.sources = r
a.sources.r.type = stdin
a.sources.r.channels = c1
";

// An Avro source with one worker.
const CALLED: &str = "a.sources = n
a.sources.n.type = avro
a.sources.n.bind = localhost
a.sources.n.port = 4545
a.sources.n.threads = 1
a.sources.n.channels = c1
a.channels = c1
a.sinks = k
a.sinks.k.channel = c1
";

// Its channel is in memory, and its sink keeps nothing.
const IN_MEMORY: &str = "a.channels.c1.type = memory
a.sinks.k.type = null
";

// Its channel is on a disk, and its sink rolls no file anew.
const CALLED_ON_DISK: &str = "a.channels.c1.type = file
a.channels.c1.dataDirs = d
a.channels.c1.checkpointOnClose = false
a.sinks.k.type = file_roll
a.sinks.k.sink.directory = out
a.sinks.k.sink.rollInterval = 0
";

// Three sinks of rolled files, each in a folder of its own; the second one takes at most one event at a time.
const GROUPED: &str = "a.channels = c1
a.channels.c1.type = memory
a.sources = r
a.sources.r.type = stdin
a.sources.r.channels = c1
a.sinks = k1 k2 k3
a.sinks.k1.channel = c1
a.sinks.k1.type = file_roll
a.sinks.k1.sink.directory = o1
a.sinks.k2.channel = c1
a.sinks.k2.type = file_roll
a.sinks.k2.sink.directory = o2
a.sinks.k2.sink.batchSize = 1
a.sinks.k3.channel = c1
a.sinks.k3.type = file_roll
a.sinks.k3.sink.directory = o3
a.sinkgroups = g
a.sinkgroups.g.sinks = k1 k2 k3
";

/// Each by its name.
pub const TEXTS: [(&str, &str); 13] = [
    ("LINES", LINES),
    ("ONE", ONE),
    ("ON_DISK", ON_DISK),
    ("ROUTED", ROUTED),
    ("UNTAKEN", UNTAKEN),
    ("LISTENING", LISTENING),
    ("GROUPED", GROUPED),
    ("SENDING", SENDING),
    ("STDIN", STDIN),
    ("CALLED", CALLED),
    ("IN_MEMORY", IN_MEMORY),
    ("CALLED_ON_DISK", CALLED_ON_DISK),
    ("WORKED", WORKED),
];
