// After each fiftieth batch the channel is kept.
ghost use Rattle.std.specs.Prelude.{◌≡◌, length};
ghost use Rattle.shared_channel.specs.Calls.{state_seen};
ghost use Rattle.load_gen.specs.Calls.{Makes};
ghost use Rattle.load_gen.specs.Parts.{Does};
ghost use Rattle.load_gen.specs.Runs.{IsUpkeep, is_fiftieth};

use crate::refused::LoadRefused;
use channel_face::Durable;
use shared_channel::{Pass, Shared};
use std::sync::Wait;

/// After a fiftieth batch lays a checkpoint, and then removes the files that this one does not need. After any other batch does nothing.
pub(crate) fn keep_channel<R: Wait, C: Durable>(
    rt: &R,
    shared: &Shared<C>,
    pass: &mut Pass,
    batches: u32,
) -> Result<(), LoadRefused>
    requires { pass.old.table_id ≡ shared.now.turn.table.shared.table_id }
    ensures same { (pass.new.table_id ≡ pass.old.table_id) × (pass.new.number ≡ pass.old.number) }
    ensures calls { Makes pass.old.number pass.old.view pass.new.view
        (Does (IsUpkeep (is_fiftieth batches)) (length pass.new.view.seen)
        (state_seen pass.new.view) result) }
{
    if batches % 50 != 0 {
        return Ok(());
    }
    if let Err(refused) = shared.checkpoint(rt, pass) {
        return Err(LoadRefused::Check(refused));
    }
    match shared.prune(rt, pass) {
        Ok(_) => Ok(()),
        Err(refused) => Err(LoadRefused::Prune(refused)),
    }
}
