// The plain channel as a channel.
ghost use Rattle.txn_core.specs.Shadow.{StandsWith};

use crate::Machine;
use channel_face::{
    BeginRefused, Channel, Counts, FlushRefused, Put, PutRefused, PutTxn, Settled, StageRefused,
    TakeRefused, TakeTxn, Taken, Ticket,
};
use event_core::Event;

impl Channel for Machine {
    ghost use Rattle.std.specs.Prelude.{true};
    ghost use Rattle.txn_core.specs.Shadow.{StandsWith};

    ghost stands = { StandsWith };

    ghost tells = { λ _. true };

    ghost moment = { λ _. 0 };

    ghost faults = { λ _. 0 };

    fn begin_put(&mut self) -> Result<PutTxn, BeginRefused> {
        Machine::begin_put(self)
    }

    fn begin_take(&mut self) -> Result<TakeTxn, BeginRefused> {
        Machine::begin_take(self)
    }

    fn put(&mut self, txn: &mut PutTxn, event: &Event) -> Result<Put, PutRefused> {
        Machine::put(self, txn, event)
    }

    fn take(&mut self, txn: &mut TakeTxn) -> Result<Taken, TakeRefused> {
        Machine::take(self, txn)
    }

    fn stage_put(&mut self, txn: PutTxn) -> Result<Ticket, StageRefused<PutTxn>> {
        Machine::stage_put(self, txn)
    }

    fn stage_take(&mut self, txn: TakeTxn) -> Result<Ticket, StageRefused<TakeTxn>> {
        Machine::stage_take(self, txn)
    }

    fn flush(&mut self) -> Result<(), FlushRefused> {
        Machine::flush(self)
    }

    fn rollback_put(&mut self, txn: PutTxn) -> bool {
        Machine::rollback_put(self, txn)
    }

    fn rollback_take(&mut self, txn: TakeTxn) -> bool {
        Machine::rollback_take(self, txn)
    }

    fn settled(&self, ticket: &Ticket) -> Settled {
        Machine::settled(self, ticket)
    }

    fn size(&self) -> u64 {
        Machine::size(self)
    }

    fn capacity(&self) -> u64 {
        Machine::capacity(self)
    }

    fn counts(&self) -> Counts {
        Machine::counts(self)
    }

    fn is_broken(&self) -> bool {
        Machine::is_broken(self)
    }

    ghost is_run = { λ c start h stands. stands.0.0.0 };

    ghost tells_as_opened = { λ c start h stands. stands.0.0.2 };
}
