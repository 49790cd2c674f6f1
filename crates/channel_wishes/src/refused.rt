// Why the channels of a run were not opened.
use channel_face::OpenCause;

/// Which of the channels that a run wants was refused, and why.
#[derive(Drop)]
pub struct ChannelRefused {
    /// Its place among those that are wanted, from 0.
    pub place: usize,
    /// Why it was refused.
    pub cause: OpenCause,
}
