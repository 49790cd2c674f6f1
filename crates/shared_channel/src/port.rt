// A pass beside its channel and its runtime, and the whole transactions that it makes. Staging and settling take the lock once
// each, so that one flush may settle what several callers staged.
ghost use Rattle.std.specs.Prelude.{◌≡◌, ◌<◌, ◌≤◌, All, length};
ghost use Rattle.channel_face.specs.Faces.{Gains, picked_events, IsPutBatch, IsTakeBegun, IsTake, IsTakeCommit, IsTakeRolledBack, in_doubt_unless, ArePutUpTo, IsPutStage};
ghost use Rattle.shared_channel.specs.Durables.{Mends};
ghost use Rattle.shared_channel.specs.Ports.{AreOwned, Later, Saw, SawAll, WentBy, Settles};

use crate::pass::Pass;
use crate::shared::Shared;
use channel_face::{
    Channel, Face, FaceRefused, OpenCause, PutFace, PutRefused, PutTxn, Reopen, StageRefused,
    TakeFace, TakeTxn, Ticket,
};
use event_core::{Batch, Event};
use flume_host::Steps;
use std::sync::Wait;
use std::sync::ledger::Ledger;

/// What a source or a sink has of a shared channel. A call of a transaction takes the lock once, and a staged transaction
/// is settled under the lock once more, where a flush of another caller may have settled it already; no clause counts the locks.
#[derive(Drop)]
pub struct Port<'a, R, C: Channel> {
    pub(crate) rt: &'a R,
    pub(crate) shared: &'a Shared<C>,
    pub(crate) pass: Pass,
    ghost same: { pass.table_id ≡ shared.now.turn.table.shared.table_id },
}

impl<'a, R: Wait, C: Channel> Port<'a, R, C> {
    /// A port with this pass.
    pub fn new(rt: &'a R, shared: &'a Shared<C>, pass: Pass) -> Port<'a, R, C>
        requires { pass.table_id ≡ shared.now.turn.table.shared.table_id }
        ensures { result.pass ≡ pass }
    {
        Port { rt, shared, pass }
    }

    /// The pass.
    pub fn give_back(self) -> Pass
        ensures { result ≡ self.entry.pass }
    {
        let Port {
            rt: _,
            shared: _,
            pass,
        } = self;
        pass
    }
}

impl<'a, R: Wait, C: Reopen> Port<'a, R, C> {
    /// Reopens the channel exactly where it is broken, as [`Shared::mend`].
    pub fn mend<L: Ledger>(&mut self, steps: &mut Steps<L>) -> Result<bool, OpenCause>
        ensures same { (self.new.pass.table_id ≡ self.old.pass.table_id) ×
            (self.new.pass.number ≡ self.old.pass.number) }
        ensures call { Mends C.stands C.tells C.moment self.old.pass.view self.old.pass.number
            result self.new.pass.view }
        ensures kept { Later self.old.pass self.new.pass }
        ensures all { SawAll C.stands C.tells self.new.pass.view }
    {
        self.shared.mend(self.rt, &mut self.pass, steps)
    }
}

impl<'a, R: Wait, C: Channel> Face for Port<'a, R, C> {
    ghost use Rattle.std.specs.Prelude.{length};
    ghost use Rattle.shared_channel.specs.Ports.{AreOwned, Later, Saw, later_none, later_then};

    ghost own = { λ p. AreOwned p.pass.view };

    ghost saw = { λ p. Saw C.stands p.pass.view };

    ghost seen = { λ p. length p.pass.view.seen };

    ghost kept = { λ p q. Later p.pass q.pass };

    ghost kept_none = { λ p. later_none p.pass };

    ghost kept_then = { λ p q r. later_then p.pass q.pass r.pass };
}

impl<'a, R: Wait, C: Channel> PutFace for Port<'a, R, C> {
    fn put_batch(&mut self, batch: &Batch, picked: &[u32]) -> Result<u64, FaceRefused>
        requires { All (λ place. place < length batch.now) picked.now }
        ensures seen { length self.old.pass.view.seen ≤ length self.new.pass.view.seen }
        ensures calls { Gains (AreOwned self.old.pass.view) (AreOwned self.new.pass.view)
            (IsPutBatch (Saw C.stands self.new.pass.view) (length self.new.pass.view.seen)
            (picked_events batch.now picked.now) result) }
        ensures kept { Later self.old.pass self.new.pass }
        ensures all { SawAll C.stands C.tells self.new.pass.view }
    {
        self.shared
            .put_batch(self.rt, &mut self.pass, batch, picked)
    }
}

impl<'a, R: Wait, C: Channel> TakeFace for Port<'a, R, C> {
    fn begin(&mut self) -> Result<TakeTxn, FaceRefused>
        ensures seen { length self.old.pass.view.seen ≤ length self.new.pass.view.seen }
        ensures calls { Gains (AreOwned self.old.pass.view) (AreOwned self.new.pass.view)
            (λ earlier. IsTakeBegun (length self.new.pass.view.seen) result) }
        ensures kept { Later self.old.pass self.new.pass }
        ensures all { SawAll C.stands C.tells self.new.pass.view }
    {
        match self.shared.begin_take(self.rt, &mut self.pass) {
            Ok(txn) => Ok(txn),
            Err(refused) => Err(FaceRefused::Begin(refused)),
        }
    }

    fn take(&mut self, txn: &mut TakeTxn) -> Result<Option<Event>, FaceRefused>
        ensures seen { length self.old.pass.view.seen ≤ length self.new.pass.view.seen }
        ensures calls { Gains (AreOwned self.old.pass.view) (AreOwned self.new.pass.view)
            (λ earlier. IsTake (length self.new.pass.view.seen) txn.old result) }
        ensures token { txn.new ≡ txn.old }
        ensures kept { Later self.old.pass self.new.pass }
        ensures all { SawAll C.stands C.tells self.new.pass.view }
    {
        match self.shared.take(self.rt, &mut self.pass, txn) {
            Ok(taken) => Ok(taken.event),
            Err(refused) => Err(FaceRefused::Take(refused)),
        }
    }

    fn commit(&mut self, txn: TakeTxn) -> Result<(), FaceRefused>
        ensures seen { length self.old.pass.view.seen ≤ length self.new.pass.view.seen }
        ensures calls { Gains (AreOwned self.old.pass.view) (AreOwned self.new.pass.view)
            (IsTakeCommit (Saw C.stands self.new.pass.view)
            (length self.new.pass.view.seen) txn result) }
        ensures kept { Later self.old.pass self.new.pass }
        ensures all { SawAll C.stands C.tells self.new.pass.view }
    {
        self.shared.finish_takes(self.rt, &mut self.pass, txn)
    }

    fn rollback(&mut self, txn: TakeTxn)
        ensures seen { length self.old.pass.view.seen ≤ length self.new.pass.view.seen }
        ensures calls { Gains (AreOwned self.old.pass.view) (AreOwned self.new.pass.view)
            (IsTakeRolledBack (Saw C.stands self.new.pass.view) txn) }
        ensures kept { Later self.old.pass self.new.pass }
        ensures all { SawAll C.stands C.tells self.new.pass.view }
    {
        self.shared.rollback_take(self.rt, &mut self.pass, txn);
    }
}

// Rises with the frames of a life, and with the lives while a life has fewer than 2^32 frames. No clause rests on it.
fn mark_of(ticket: &Ticket) -> u64 {
    ticket
        .life
        .saturating_mul(4_294_967_296)
        .saturating_add(ticket.frame)
}

// What a whole transaction answers that was staged.
fn in_doubt_unless<T: Drop>(sure: bool, value: T) -> Result<T, FaceRefused>
    ensures { result ≡ in_doubt_unless sure value }
{
    if sure {
        Ok(value)
    } else {
        Err(FaceRefused::InDoubt)
    }
}

impl<C: Channel> Shared<C> {
    // Under one lock: flushes where the ticket is `No`, and answers whether it then is settled. One of those who have staged leads,
    // and lets others in first, so that they may have staged by then; the others sleep until it has flushed.
    fn settle<R: Wait>(&self, rt: &R, pass: &mut Pass, ticket: &Ticket) -> bool
        requires table { pass.old.table_id ≡ self.now.turn.table.shared.table_id }
        ensures same { (pass.new.table_id ≡ pass.old.table_id) ×
            (pass.new.number ≡ pass.old.number) }
        ensures settles { Settles C.stands pass.old.number pass.old.view pass.new.view ticket.now
            result }
        ensures all { SawAll C.stands C.tells pass.new.view }
    {
        let mark = mark_of(ticket);
        let leads = self.flushing.leads(rt, mark);
        if leads {
            self.flushing.await_company(rt);
            self.turn.give_way();
        }
        let mut holder = self.hold(rt, &mut pass.badge, pass.number);
        let sure = self.make_settled(&mut holder, ticket);
        pass.calls = self.release(holder, &mut pass.badge);
        if leads {
            self.flushing.done(mark, self.turn.waiting());
        }
        sure
    }

    // Stages the puts and settles them.
    fn finish_puts<R: Wait>(&self, rt: &R, pass: &mut Pass, txn: PutTxn) -> Result<u64, FaceRefused>
        requires table { pass.old.table_id ≡ self.now.turn.table.shared.table_id }
        ensures same { (pass.new.table_id ≡ pass.old.table_id) ×
            (pass.new.number ≡ pass.old.number) }
        ensures calls { WentBy pass.old.number pass.old.view pass.new.view
            (IsPutStage (Saw C.stands pass.new.view) (length pass.new.view.seen) txn result) }
        ensures all { SawAll C.stands C.tells pass.new.view }
    {
        match self.stage_put(rt, pass, txn) {
            Ok(ticket) => {
                let sure = self.settle(rt, pass, &ticket);
                in_doubt_unless(sure, ticket.first)
            }
            Err(refused) => {
                let StageRefused { txn, cause } = refused;
                self.rollback_put(rt, pass, txn);
                Err(FaceRefused::Stage(cause))
            }
        }
    }

    // Puts the events at these places, up to the first refusal.
    fn put_picked<R: Wait>(
        &self,
        rt: &R,
        pass: &mut Pass,
        txn: &mut PutTxn,
        batch: &Batch,
        picked: &[u32],
    ) -> Result<(), PutRefused>
        requires table { pass.old.table_id ≡ self.now.turn.table.shared.table_id }
        requires places { All (λ place. place < length batch.now) picked.now }
        ensures same { (pass.new.table_id ≡ pass.old.table_id) ×
            (pass.new.number ≡ pass.old.number) }
        ensures puts { WentBy pass.old.number pass.old.view pass.new.view
            (λ earlier. ArePutUpTo (length pass.new.view.seen) txn.old
            (picked_events batch.now picked.now) result) }
        ensures token { txn.new ≡ txn.old }
    {
        for place in picked {
            if let Err(refused) = self.put(rt, pass, txn, batch.get(*place as usize)) {
                return Err(refused);
            }
        }
        Ok(())
    }

    // Puts the events at these places, in order, as one transaction, and answers the number of its first event.
    pub(crate) fn put_batch<R: Wait>(
        &self,
        rt: &R,
        pass: &mut Pass,
        batch: &Batch,
        picked: &[u32],
    ) -> Result<u64, FaceRefused>
        requires table { pass.old.table_id ≡ self.now.turn.table.shared.table_id }
        requires places { All (λ place. place < length batch.now) picked.now }
        ensures same { (pass.new.table_id ≡ pass.old.table_id) ×
            (pass.new.number ≡ pass.old.number) }
        ensures calls { WentBy pass.old.number pass.old.view pass.new.view
            (IsPutBatch (Saw C.stands pass.new.view) (length pass.new.view.seen)
            (picked_events batch.now picked.now) result) }
        ensures all { SawAll C.stands C.tells pass.new.view }
    {
        let mut txn = match self.begin_put(rt, pass) {
            Ok(txn) => txn,
            Err(refused) => return Err(FaceRefused::Begin(refused)),
        };
        match self.put_picked(rt, pass, &mut txn, batch, picked) {
            Ok(()) => self.finish_puts(rt, pass, txn),
            Err(refused) => {
                self.rollback_put(rt, pass, txn);
                Err(FaceRefused::Put(refused))
            }
        }
    }

    // Stages the takes and settles them.
    pub(crate) fn finish_takes<R: Wait>(
        &self,
        rt: &R,
        pass: &mut Pass,
        txn: TakeTxn,
    ) -> Result<(), FaceRefused>
        requires table { pass.old.table_id ≡ self.now.turn.table.shared.table_id }
        ensures same { (pass.new.table_id ≡ pass.old.table_id) ×
            (pass.new.number ≡ pass.old.number) }
        ensures calls { WentBy pass.old.number pass.old.view pass.new.view
            (IsTakeCommit (Saw C.stands pass.new.view) (length pass.new.view.seen) txn result) }
        ensures all { SawAll C.stands C.tells pass.new.view }
    {
        match self.stage_take(rt, pass, txn) {
            Ok(ticket) => {
                let sure = self.settle(rt, pass, &ticket);
                in_doubt_unless(sure, ())
            }
            Err(refused) => {
                let StageRefused { txn, cause } = refused;
                self.rollback_take(rt, pass, txn);
                Err(FaceRefused::Stage(cause))
            }
        }
    }
}
