// Keeping a channel of either kind in order.
use crate::port::EitherPort;
use channel_face::{
    Channel, CheckRefused, Durable, KeepFace, MendFace, OpenCause, PruneRefused, Reopen,
};
use flume_host::Steps;
use std::sync::Wait;
use std::sync::ledger::Ledger;

impl<'a, R: Wait, A: Reopen, B: Channel> MendFace for EitherPort<'a, R, A, B> {
    ghost use Rattle.two_channels.specs.Ports.{IsOnDisk};

    ghost on_disk = { λ p. IsOnDisk p };

    fn mend<L: Ledger>(&mut self, steps: &mut Steps<L>) -> Result<bool, OpenCause> {
        match self {
            EitherPort::Disk(port) => MendFace::mend(port, steps),
            EitherPort::Memory(_) => Ok(false),
        }
    }

    fn size(&mut self) -> u64 {
        match self {
            EitherPort::Disk(port) => port.events_left(),
            EitherPort::Memory(port) => port.events_left(),
        }
    }
}

impl<'a, R: Wait, A: Durable, B: Channel> KeepFace for EitherPort<'a, R, A, B> {
    ghost use Rattle.shared_channel.specs.Calls.{SawOf};
    ghost use Rattle.two_channels.specs.Ports.{SawOnDisk};

    ghost saw_laid = { λ p. SawOnDisk (SawOf A.stands A.tells A.is_laid) p };

    ghost saw_pruned = { λ p. SawOnDisk (SawOf A.stands A.tells (λ c s. A.is_pruned c)) p };

    fn checkpoint(&mut self) -> Result<(), CheckRefused> {
        match self {
            EitherPort::Disk(port) => port.checkpoint(),
            EitherPort::Memory(_) => unreachable!(),
        }
    }

    fn prune(&mut self) -> Result<u64, PruneRefused> {
        match self {
            EitherPort::Disk(port) => port.prune(),
            EitherPort::Memory(_) => unreachable!(),
        }
    }
}
