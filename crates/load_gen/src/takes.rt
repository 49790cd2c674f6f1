// After each batch a transaction takes some events.
ghost use Rattle.std.specs.Prelude.{◌≡◌, ◌+◌, ◌<◌, ◌≤◌, ◌-◌, ◌^◌, length, OnOk, not, true};
ghost use Rattle.channel_face.specs.Machine.{StageTake};
ghost use Rattle.shared_channel.specs.Calls.{state_seen};
ghost use Rattle.load_gen.specs.Calls.{Makes};
ghost use Rattle.load_gen.specs.Counted.{AreTakenUpTo, TakesSome};
ghost use Rattle.load_gen.specs.Parts.{Does, IsBackCall, IsCommit};
ghost use Rattle.load_gen.specs.Runs.{EndsTakes};

use crate::refused::LoadRefused;
use crate::tally::Tally;
use channel_face::{Channel, CommitRefused, FaceRefused, StageRefused, TakeRefused, TakeTxn};
use shared_channel::{Pass, Shared};
use std::sync::Wait;

// The most events that a transaction takes.
const MOST: u32 = 50;

// Takes events up to the most, or until none is left. Those that will be committed go into the digest.
fn take_events<R: Wait, C: Channel>(
    rt: &R,
    shared: &Shared<C>,
    pass: &mut Pass,
    txn: &mut TakeTxn,
    tally: &mut Tally,
    kept: bool,
) -> Result<u32, TakeRefused>
    requires { pass.old.table_id ≡ shared.now.turn.table.shared.table_id }
    ensures same { (pass.new.table_id ≡ pass.old.table_id) × (pass.new.number ≡ pass.old.number) }
    ensures token { txn.new ≡ txn.old }
    ensures takes { Makes pass.old.number pass.old.view pass.new.view
        (AreTakenUpTo (length pass.new.view.seen) txn.old kept tally.old tally.new result) }
{
    let mut count = 0;
    while count < MOST {
        match shared.take(rt, pass, txn) {
            Ok(taken) => match taken.event {
                Some(event) => {
                    if kept {
                        tally.add_line(event.body());
                    }
                    count += 1;
                }
                None => return Ok(count),
            },
            Err(refused) => return Err(refused),
        }
    }
    Ok(count)
}

// Commits a transaction of takes, or rolls it back where it isn't staged.
fn commit_takes<R: Wait, C: Channel>(
    rt: &R,
    shared: &Shared<C>,
    pass: &mut Pass,
    txn: TakeTxn,
) -> Result<(), LoadRefused>
    requires { pass.old.table_id ≡ shared.now.turn.table.shared.table_id }
    ensures same { (pass.new.table_id ≡ pass.old.table_id) × (pass.new.number ≡ pass.old.number) }
    ensures calls { Makes pass.old.number pass.old.view pass.new.view
        (Does (IsCommit (StageTake txn)) (length pass.new.view.seen) (state_seen pass.new.view)
        result) }
{
    match shared.commit_take(rt, pass, txn) {
        Ok(_) => Ok(()),
        Err(CommitRefused::InDoubt) => Err(LoadRefused::Face(FaceRefused::InDoubt)),
        Err(CommitRefused::Stage(StageRefused { txn, cause })) => {
            shared.rollback_take(rt, pass, txn);
            Err(LoadRefused::Face(FaceRefused::Stage(cause)))
        }
    }
}

// Rolls a transaction of takes back. Where its token is stale, since another caller reopened the channel, the run is over.
fn roll_back<R: Wait, C: Channel>(
    rt: &R,
    shared: &Shared<C>,
    pass: &mut Pass,
    txn: TakeTxn,
) -> Result<(), LoadRefused>
    requires { pass.old.table_id ≡ shared.now.turn.table.shared.table_id }
    ensures same { (pass.new.table_id ≡ pass.old.table_id) × (pass.new.number ≡ pass.old.number) }
    ensures calls { Makes pass.old.number pass.old.view pass.new.view
        (Does (IsBackCall txn) (length pass.new.view.seen) (state_seen pass.new.view) result) }
{
    if shared.rollback_take(rt, pass, txn) {
        Ok(())
    } else {
        Err(LoadRefused::Face(FaceRefused::Take(TakeRefused::Stale)))
    }
}

// Ends a transaction of takes: it is committed where its events are kept, and else rolled back.
fn end_takes<R: Wait, C: Channel>(
    rt: &R,
    shared: &Shared<C>,
    pass: &mut Pass,
    txn: TakeTxn,
    kept: bool,
) -> Result<(), LoadRefused>
    requires { pass.old.table_id ≡ shared.now.turn.table.shared.table_id }
    ensures same { (pass.new.table_id ≡ pass.old.table_id) × (pass.new.number ≡ pass.old.number) }
    ensures calls { Makes pass.old.number pass.old.view pass.new.view
        (Does (EndsTakes (not kept) txn) (length pass.new.view.seen) (state_seen pass.new.view)
        result) }
{
    if kept {
        commit_takes(rt, shared, pass, txn)
    } else {
        roll_back(rt, shared, pass, txn)
    }
}

/// Takes up to 50 events after a batch, and commits them or rolls them back.
pub(crate) fn take_some<R: Wait, C: Channel>(
    rt: &R,
    shared: &Shared<C>,
    pass: &mut Pass,
    tally: &mut Tally,
) -> Result<(), LoadRefused>
    requires table { pass.old.table_id ≡ shared.now.turn.table.shared.table_id }
    requires few { tally.old.batches < 2 ^ 32 - 1 }
    ensures same { (pass.new.table_id ≡ pass.old.table_id) × (pass.new.number ≡ pass.old.number) }
    ensures calls { Makes pass.old.number pass.old.view pass.new.view
        (TakesSome (length pass.new.view.seen) (state_seen pass.new.view) tally.old tally.new
        result) }
{
    let mut txn = match shared.begin_take(rt, pass) {
        Ok(txn) => txn,
        Err(refused) => return Err(LoadRefused::Face(FaceRefused::Begin(refused))),
    };
    let kept = tally.keeps_next();
    match take_events(rt, shared, pass, &mut txn, tally, kept) {
        Ok(count) => match end_takes(rt, shared, pass, txn, kept) {
            Ok(()) => {
                tally.add_batch(kept, count);
                Ok(())
            }
            Err(refused) => Err(refused),
        },
        Err(refused) => {
            shared.rollback_take(rt, pass, txn);
            Err(LoadRefused::Face(FaceRefused::Take(refused)))
        }
    }
}
