// A port of a channel of either kind, as a source and a sink see it.
use crate::port::EitherPort;
use channel_face::{Channel, Face, FaceRefused, PutFace, TakeFace, TakeTxn};
use event_core::{Batch, Event};
use std::sync::Wait;

impl<'a, R: Wait, A: Channel, B: Channel> Face for EitherPort<'a, R, A, B> {
    ghost use Rattle.two_channels.specs.Ports.{LaterPort, SawIn, later_port_none, later_port_then, own_of, seen_of};

    ghost own = { λ p. own_of p };

    ghost saw = { λ p. SawIn A.stands B.stands p };

    ghost seen = { λ p. seen_of p };

    ghost kept = { λ p q. LaterPort p q };

    ghost kept_none = { λ p. later_port_none p };

    ghost kept_then = { λ p q r. later_port_then p q r };
}

impl<'a, R: Wait, A: Channel, B: Channel> PutFace for EitherPort<'a, R, A, B> {
    fn put_batch(&mut self, batch: &Batch, picked: &[u32]) -> Result<u64, FaceRefused> {
        match self {
            EitherPort::Disk(port) => port.put_batch(batch, picked),
            EitherPort::Memory(port) => port.put_batch(batch, picked),
        }
    }
}

impl<'a, R: Wait, A: Channel, B: Channel> TakeFace for EitherPort<'a, R, A, B> {
    fn begin(&mut self) -> Result<TakeTxn, FaceRefused> {
        match self {
            EitherPort::Disk(port) => port.begin(),
            EitherPort::Memory(port) => port.begin(),
        }
    }

    fn take(&mut self, txn: &mut TakeTxn) -> Result<Option<Event>, FaceRefused> {
        match self {
            EitherPort::Disk(port) => port.take(txn),
            EitherPort::Memory(port) => port.take(txn),
        }
    }

    fn commit(&mut self, txn: TakeTxn) -> Result<(), FaceRefused> {
        match self {
            EitherPort::Disk(port) => port.commit(txn),
            EitherPort::Memory(port) => port.commit(txn),
        }
    }

    fn rollback(&mut self, txn: TakeTxn) {
        match self {
            EitherPort::Disk(port) => port.rollback(txn),
            EitherPort::Memory(port) => port.rollback(txn),
        }
    }
}
