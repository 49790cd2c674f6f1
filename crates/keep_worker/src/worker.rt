// The worker of a channel on a disk.

/// The port of a channel on a disk, and the place of that among the agent's channels.
#[derive(Drop)]
pub struct KeepWorker<F, C> {
    /// The port of the channel that is kept.
    pub port: F,
    /// The place of that channel among the agent's channels.
    pub channel: u32,
    /// How long to pause before each checkpoint, in milliseconds.
    pub interval: u32,
    /// Makes the pauses.
    pub clock: C,
}
