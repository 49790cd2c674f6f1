//! The plan of an agent.

use interceptors::Step;
use regex_steps::RegexKeys;
use selectors::Selector;

/// What an agent is made of, in the order of its lists.
#[derive(Drop)]
pub struct Plan {
    pub sources: Vec<SourcePlan>,
    pub channels: Vec<ChannelPlan>,
    pub sinks: Vec<SinkPlan>,
    pub groups: Vec<GroupPlan>,
}

/// A source, the line of its type, the places of its channels in the plan, from 0, its interceptors in their order, and its
/// selector, which names its channels by their places among them.
#[derive(Drop)]
pub struct SourcePlan {
    pub name: String,
    pub line: u32,
    pub kind: SourceKind,
    pub channels: Vec<u32>,
    pub steps: Vec<StepPlan>,
    pub selector: Selector,
}

/// An interceptor.
#[derive(Debug, Drop)]
pub enum StepPlan {
    /// One that sets or removes headers.
    Step(Step),
    /// One that looks for a pattern, and the line of the pattern, or of its type where it has the default pattern.
    Regex { keys: RegexKeys, line: u32 },
    /// One that was handed in, and the line of its type.
    Plugin { name: String, line: u32 },
}

/// The keys of a source's type. A longest line is in bytes, with its newline.
#[derive(Drop)]
pub enum SourceKind {
    Netcat {
        bind: String,
        port: u16,
        max_line: u32,
        ack: bool,
        threads: u32,
    },
    Avro {
        bind: String,
        port: u16,
        threads: u32,
    },
    Stdin {
        max_line: u32,
        ack: bool,
    },
}

/// A channel and the line of its type. Capacities are in events.
#[derive(Drop)]
pub struct ChannelPlan {
    pub name: String,
    pub line: u32,
    pub kind: ChannelKind,
    pub capacity: u32,
    pub txn_capacity: u32,
}

/// The keys of a channel's type. A file's greatest length is in bytes, the checkpoint interval in milliseconds.
#[derive(Drop)]
pub enum ChannelKind {
    Memory,
    File {
        folder: String,
        max_file: u64,
        interval: u32,
        on_close: bool,
    },
}

/// A sink, the line of its type, the place of its channel in the plan, and how many events it takes at a time.
#[derive(Drop)]
pub struct SinkPlan {
    pub name: String,
    pub line: u32,
    pub kind: SinkKind,
    pub channel: u32,
    pub batch: u32,
}

/// The keys of a sink's type. The interval is in seconds, and 0 is never.
#[derive(Drop)]
pub enum SinkKind {
    Null,
    Roll { folder: String, interval: u32 },
    Avro { host: String, port: u16 },
    Plugin { name: String },
}

/// A group, the places of its sinks in the plan, and their priorities. The penalty is in milliseconds.
#[derive(Drop)]
pub struct GroupPlan {
    pub name: String,
    pub sinks: Vec<u32>,
    pub processor: Processor,
    pub priorities: Vec<u32>,
    pub penalty: u64,
    pub backoff: bool,
}

/// How a group chooses among its sinks.
#[derive(Clone, Copy, Debug)]
pub enum Processor {
    Single,
    Failover,
    RoundRobin,
    Random,
}
