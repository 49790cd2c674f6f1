// What a run ended with, and its channels by name.
ghost use Rattle.std.specs.Prelude.{◌≡◌, []};

use run_opening::ChannelEnd;
use std::alloc::Global;

/// What a run ended with.
#[derive(Drop)]
pub struct Outcome {
    /// The exit status.
    pub status: u8,
    /// The channels of a run of `agent` that began, in their order; or the one of the folder of `pipe`, once it was opened and
    /// shared. None for each other command.
    pub channels: Vec<ChannelEnd>,
}

impl Outcome {
    /// An end without a channel.
    pub(crate) fn ended(alloc: Global, status: u8) -> Outcome
        ensures status { result.status ≡ status }
        ensures channels { result.channels.items ≡ [] }
    {
        Outcome {
            status,
            channels: Vec::new(alloc),
        }
    }
}
