// A channel of a run.
use channel_face::Channel;
use shared_channel::Pass;
use two_channels::EitherShared;

/// A channel of a run that was opened and shared, and its passes, of which none has made a call.
#[derive(Drop)]
pub struct OpenedChannel<A: Channel, B: Channel> {
    /// The channel.
    pub share: EitherShared<A, B>,
    /// Its pass with the number 0, which stays with the caller.
    pub home: Pass,
    /// Its other passes, one for each worker that uses it, in order of their numbers.
    pub others: Vec<Pass>,
}
