// A worked configuration, and the words of a command line.
use std::alloc::{AllocError, Global};

/// The worked example of a configuration file: a source, two channels and two sinks of the agent `a1`.
pub const WORKED: &str = "# example
a1.sources = r1
a1.channels = c1 c2
a1.sinks = k1 k2
a1.sources.r1.type = netcat
a1.sources.r1.bind = localhost
a1.sources.r1.port = 44444
a1.sources.r1.channels = c1 \\
    c2
a1.channels.c1.type = memory
a1.channels.c2.type = file
a1.channels.c2.dataDirs = data
a1.sinks.k1.type = file_roll
a1.sinks.k1.sink.directory = out
a1.sinks.k1.channel = c1
a1.sinks.k2.type = avro
a1.sinks.k2.hostname = localhost
a1.sinks.k2.port = 4545
a1.sinks.k2.channel = c2
a1.channels.c1.capacity = 1000
a1.channels.c1.capacity = 200
";

/// The words of a command line.
pub fn owned(alloc: Global, words: &[&str]) -> Result<Vec<String>, AllocError> {
    let mut all = Vec::new(alloc);
    for word in words {
        all.push(String::from_str(alloc, word)?)?;
    }
    Ok(all)
}
