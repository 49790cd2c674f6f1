// A whole transaction of puts, made on a copy of the channel's machine.
ghost use Rattle.std.specs.Prelude.{◌≡◌, IfOk};
ghost use Rattle.hop_core.specs.Puts.{AreAdded, ArePutAndStaged, ArePut, IsStaged};

use crate::refusals::{is_begin_refusal, is_put_refusal};
use channel_face::{PutTxn, StageRefused};
use event_core::{Batch, NoMemory};
use txn_core::Machine;

// Puts each event, up to the first that is refused. The answer is whether none was.
fn put_each(machine: &mut Machine, txn: &mut PutTxn, events: &Batch) -> Result<bool, NoMemory>
    ensures puts { IfOk result (λ all. AreAdded machine.old txn.old events.now all machine.new) }
    ensures rules { machine.new.counted.state.rules ≡ machine.old.counted.state.rules }
    ensures same { txn.new ≡ txn.old }
{
    for at in 0..events.len() {
        match machine.put(txn, events.get(at)) {
            Ok(_) => {}
            Err(refused) => {
                return if is_put_refusal(refused) {
                    Ok(false)
                } else {
                    Err(NoMemory)
                };
            }
        }
    }
    Ok(true)
}

// Stages the transaction, and answers whether it was not refused.
fn stage(machine: &mut Machine, txn: PutTxn) -> bool
    ensures staged { IsStaged machine.old txn result machine.new }
    ensures rules { machine.new.counted.state.rules ≡ machine.old.counted.state.rules }
{
    match machine.stage_put(txn) {
        Ok(_) => true,
        Err(StageRefused { txn, cause: _ }) => {
            let _gone = txn.into_numbers();
            false
        }
    }
}

// Puts each event and stages the transaction, up to the first refusal. The answer is whether none was refused.
fn put_and_stage(machine: &mut Machine, mut txn: PutTxn, events: &Batch) -> Result<bool, NoMemory>
    ensures puts { IfOk result (λ all. ArePutAndStaged machine.old txn events.now all machine.new) }
    ensures rules { machine.new.counted.state.rules ≡ machine.old.counted.state.rules }
{
    match put_each(machine, &mut txn, events) {
        Ok(true) => Ok(stage(machine, txn)),
        Ok(false) => {
            let _gone = txn.into_numbers();
            Ok(false)
        }
        Err(refused) => {
            let _gone = txn.into_numbers();
            Err(refused)
        }
    }
}

/// Puts and stages the events in one transaction, up to the first refusal. The answer is whether none was refused.
pub(crate) fn put_transaction(machine: &mut Machine, events: &Batch) -> Result<bool, NoMemory>
    ensures puts { IfOk result (λ all. ArePut machine.old events.now all machine.new) }
    ensures rules { machine.new.counted.state.rules ≡ machine.old.counted.state.rules }
{
    match machine.begin_put() {
        Ok(txn) => put_and_stage(machine, txn, events),
        Err(refused) => {
            if is_begin_refusal(refused) {
                Ok(false)
            } else {
                Err(NoMemory)
            }
        }
    }
}
