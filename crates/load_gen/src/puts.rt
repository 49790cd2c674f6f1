// Batches of events are put, each in a transaction of its own.
ghost use Rattle.std.specs.Prelude.{◌≡◌, ◌+◌, ◌-◌, ◌≤◌, ◌*◌, OnOk, length, min};
ghost use Rattle.channel_face.specs.Machine.{StagePut};
ghost use Rattle.shared_channel.specs.Calls.{state_seen};
ghost use Rattle.load_gen.specs.Calls.{Makes};
ghost use Rattle.load_gen.specs.Events.{events_from};
ghost use Rattle.load_gen.specs.Parts.{ArePutUpTo, Does, IsCommit};
ghost use Rattle.load_gen.specs.Runs.{IsPut};

use crate::events::Events;
use crate::refused::LoadRefused;
use channel_face::{Channel, CommitRefused, FaceRefused, PutTxn, StageRefused};
use shared_channel::{Pass, Shared};
use std::sync::Wait;

// The most events of a batch.
const BATCH: u32 = 100;

// Puts the next events, so many of them, up to the first that fails.
fn put_events<R: Wait, C: Channel>(
    rt: &R,
    shared: &Shared<C>,
    pass: &mut Pass,
    txn: &mut PutTxn,
    events: &mut Events,
    count: u32,
) -> Result<(), LoadRefused>
    requires table { pass.old.table_id ≡ shared.now.turn.table.shared.table_id }
    requires room { events.old.next + count ≤ events.old.n }
    ensures same { (pass.new.table_id ≡ pass.old.table_id) × (pass.new.number ≡ pass.old.number) }
    ensures token { txn.new ≡ txn.old }
    ensures n { events.new.n ≡ events.old.n }
    ensures next { OnOk result (events.new.next ≡ events.old.next + count) }
    ensures puts { Makes pass.old.number pass.old.view pass.new.view
        (ArePutUpTo (length pass.new.view.seen) txn.old
        (events_from events.old.n events.old.next count) result) }
{
    for _ in 0..count {
        let Ok(event) = events.make() else {
            return Err(LoadRefused::NoMemory);
        };
        if let Err(refused) = shared.put(rt, pass, txn, &event) {
            return Err(LoadRefused::Face(FaceRefused::Put(refused)));
        }
    }
    Ok(())
}

// Commits a transaction of puts, or rolls it back where it isn't staged.
fn commit_puts<R: Wait, C: Channel>(
    rt: &R,
    shared: &Shared<C>,
    pass: &mut Pass,
    txn: PutTxn,
) -> Result<(), LoadRefused>
    requires { pass.old.table_id ≡ shared.now.turn.table.shared.table_id }
    ensures same { (pass.new.table_id ≡ pass.old.table_id) × (pass.new.number ≡ pass.old.number) }
    ensures calls { Makes pass.old.number pass.old.view pass.new.view
        (Does (IsCommit (StagePut txn)) (length pass.new.view.seen) (state_seen pass.new.view)
        result) }
{
    match shared.commit_put(rt, pass, txn) {
        Ok(_) => Ok(()),
        Err(CommitRefused::InDoubt) => Err(LoadRefused::Face(FaceRefused::InDoubt)),
        Err(CommitRefused::Stage(StageRefused { txn, cause })) => {
            shared.rollback_put(rt, pass, txn);
            Err(LoadRefused::Face(FaceRefused::Stage(cause)))
        }
    }
}

/// Puts the next batch: 100 events, or those that are left where they are fewer.
pub(crate) fn put_batch<R: Wait, C: Channel>(
    rt: &R,
    shared: &Shared<C>,
    pass: &mut Pass,
    events: &mut Events,
) -> Result<(), LoadRefused>
    requires { pass.old.table_id ≡ shared.now.turn.table.shared.table_id }
    ensures same { (pass.new.table_id ≡ pass.old.table_id) × (pass.new.number ≡ pass.old.number) }
    ensures n { events.new.n ≡ events.old.n }
    ensures next { OnOk result (events.new.next ≡ events.old.next
        + min 100 (events.old.n - events.old.next)) }
    ensures calls { Makes pass.old.number pass.old.view pass.new.view
        (Does (IsPut (events_from events.old.n events.old.next
        (min 100 (events.old.n - events.old.next)))) (length pass.new.view.seen)
        (state_seen pass.new.view) result) }
{
    let mut txn = match shared.begin_put(rt, pass) {
        Ok(txn) => txn,
        Err(refused) => return Err(LoadRefused::Face(FaceRefused::Begin(refused))),
    };
    let count = events.left().min(BATCH);
    match put_events(rt, shared, pass, &mut txn, events, count) {
        Ok(()) => commit_puts(rt, shared, pass, txn),
        Err(refused) => {
            shared.rollback_put(rt, pass, txn);
            Err(refused)
        }
    }
}
