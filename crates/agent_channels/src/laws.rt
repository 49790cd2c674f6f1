// A law of channels that a run opened.
ghost use Rattle.channel_wishes.specs.Opened.{ClosedFit, LeftFits};

use channel_face::Channel;

/// The channels that a run opened can be given back with [`close_channels`](crate::close_channels) once they are closed: a channel
/// is on a disk exactly where the shared one was, and so where that was wanted, as long as the host knows of the folders.
pub fn closed_channels_fit<A: Channel, B: Channel>()
    ensures left { LeftFits A.stands A.tells B.stands B.tells }
    ensures fit { ClosedFit A B }
{}
