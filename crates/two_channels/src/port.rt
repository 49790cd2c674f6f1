// A port of a channel of either kind.
ghost use Rattle.std.specs.Prelude.{◌≡◌};
ghost use Rattle.two_channels.specs.Ports.{pass_of};

use channel_face::Channel;
use shared_channel::{Carries, Pass, Port};
use std::sync::Wait;

/// A port of a shared channel that is on a disk, or of one that is not.
#[derive(Drop)]
pub enum EitherPort<'a, R, A: Channel, B: Channel> {
    /// Of one on a disk.
    Disk(Port<'a, R, A>),
    /// Of one in memory.
    Memory(Port<'a, R, B>),
}

impl<'a, R: Wait, A: Channel, B: Channel> Carries for EitherPort<'a, R, A, B> {
    ghost use Rattle.two_channels.specs.Ports.{pass_of};

    ghost pass = { λ p. pass_of p };

    fn into_pass(self) -> Pass {
        match self {
            EitherPort::Disk(port) => port.give_back(),
            EitherPort::Memory(port) => port.give_back(),
        }
    }
}
