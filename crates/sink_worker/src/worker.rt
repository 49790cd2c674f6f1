// The worker of a sink.
ghost use Rattle.std.specs.Prelude.{◌≤◌};

use std::alloc::Global;

/// A sink, the port of its channel, and the place of that among the agent's channels.
#[derive(Drop)]
pub struct SinkWorker<F, S, C> {
    /// Where a run's memory comes from.
    pub alloc: Global,
    /// The port of the channel that events are taken from.
    pub port: F,
    /// The place of that channel among the agent's channels.
    pub channel: u32,
    /// What the events are delivered to.
    pub sink: S,
    /// The most events that one run takes.
    pub batch: u32,
    /// Gives the moment of each run, and makes the pauses.
    pub clock: C,
    ghost some: { 1 ≤ batch },
}
