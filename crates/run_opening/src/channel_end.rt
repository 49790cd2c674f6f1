// A channel of a run after it, and the workers that used it.
use shared_channel::Pass;

/// A worker of a run that used a channel.
#[derive(Drop)]
pub struct Worker {
    /// Its component: `sources.` or `sinks.` and the name.
    pub component: String,
    /// Its place among the session workers of its source, from 0. 0 for each other worker.
    pub place: u32,
    /// The number of its pass, which each of its calls carries in the channel's history.
    pub number: u64,
}

/// A channel of a run after it.
#[derive(Drop)]
pub struct ChannelEnd {
    /// Its name.
    pub name: String,
    /// A pass that has seen all calls of the channel in the run.
    pub pass: Pass,
    /// The workers that used it, by their numbers from 1 on. A call without a worker, under the number 0, is the caller's. `pipe`
    /// has none.
    pub workers: Vec<Worker>,
}
