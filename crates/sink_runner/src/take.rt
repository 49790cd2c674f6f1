// Takes the events of a turn.
ghost use Rattle.channel_face.specs.Faces.{Gains};
ghost use Rattle.sink_runner.specs.Turns.{IsTaking, IsSinkFailure};
ghost use Rattle.std.specs.Prelude.{◌≡◌, ◌≤◌, [], length, IfErr};

use crate::Turn;
use crate::turn::turn_refused;
use channel_face::{TakeFace, TakeTxn};
use event_core::Batch;

/// The bytes of events at which a turn takes no further one.
pub const MAX_TURN_SIZE: u64 = 16_777_216;

/// Takes events of an open transaction, up to `most` of them, until none is left or [`MAX_TURN_SIZE`] bytes are reached. At
/// `Err` the turn ends so.
pub fn take_events<T: TakeFace>(
    from: &mut T,
    txn: &mut TakeTxn,
    most: u32,
    taken: &mut Batch,
) -> Result<(), Turn>
    requires { taken.old ≡ [] }
    ensures calls { Gains (T.own from.old) (T.own from.new)
        (λ earlier. IsTaking (T.seen from.new) txn.old most taken.new result) }
    ensures seen { T.seen from.old ≤ T.seen from.new }
    ensures kept { T.kept from.old from.new }
    ensures same { txn.new ≡ txn.old }
    ensures few { length taken.new ≤ most }
    ensures over { IfErr result (λ turn. IsSinkFailure turn → ⊥) }
{
    let mut size: u64 = 0;
    while taken.len() < most as usize && size < MAX_TURN_SIZE {
        match from.take(txn) {
            Ok(Some(event)) => {
                size += event.size();
                let Ok(()) = taken.push(event) else {
                    return Err(Turn::NoMemory);
                };
            }
            Ok(None) => return Ok(()),
            Err(refused) => return Err(turn_refused(refused)),
        }
    }
    Ok(())
}
