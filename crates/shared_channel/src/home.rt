// A channel as the lock guards it.
use channel_face::Channel;
use channel_lock::Guarded;

/// A channel at home. What it stands for leaves room for a rollback of each open transaction.
#[derive(Drop)]
pub struct Home<C: Channel> {
    pub channel: C,
}

impl<C: Channel> Guarded for Home<C> {
    ghost use Rattle.shared_channel.specs.Counting.{Keeps};

    ghost stands = { λ h. Keeps C.stands h.channel };
}
