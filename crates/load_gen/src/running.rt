// A run of the generator.
ghost use Rattle.std.specs.Prelude.{◌≡◌, length};
ghost use Rattle.shared_channel.specs.Calls.{state_seen};
ghost use Rattle.load_gen.specs.Calls.{Makes};
ghost use Rattle.load_gen.specs.Runs.{Generates};

use crate::events::Events;
use crate::keeping::keep_channel;
use crate::puts::put_batch;
use crate::refused::LoadRefused;
use crate::takes::take_some;
use crate::tally::Tally;
use channel_face::Durable;
use shared_channel::{Pass, Shared};
use std::alloc::Global;
use std::sync::Wait;

/// Puts `n` events that it makes, in batches of 100, and takes some out again after each batch: up to 50, in a transaction that is
/// rolled back where 7 divides the batch's number, counted from 1, and committed otherwise. After each 50th batch it then lays a
/// checkpoint and removes the files that this one does not need. It answers what it did, as lines of a name and a number: events,
/// batches, committed takes, the events that these took, the events left in the channel, and the MD5 (RFC 1321) of the taken ones'
/// bodies, in order, each followed by a newline.
///
/// Event i, from 0 on, has no headers, and its body is `event`, i and x(i) in 16 hexadecimal digits, with a space between them:
/// x(0) is `n`, and x(i + 1) is x(i) * 6364136223846793005 + 1442695040888963407, modulo 2^64.
///
/// # Errors
///
/// It ends at the first call that is refused, and rolls its transaction back: [`LoadRefused::Face`] has the reply. `Take` with `Stale`
/// comes too where a rollback finds its token stale, since another caller reopened the channel. [`LoadRefused::Check`] and
/// [`LoadRefused::Prune`] have that of a checkpoint or of a removal, after which nothing is rolled back.
/// [`LoadRefused::NoMemory`] where there was no memory for an event's text or the summary.
pub fn generate<R: Wait, C: Durable>(
    rt: &R,
    alloc: Global,
    shared: &Shared<C>,
    pass: &mut Pass,
    n: u32,
) -> Result<String, LoadRefused>
    requires { pass.old.table_id ≡ shared.now.turn.table.shared.table_id }
    ensures same { (pass.new.table_id ≡ pass.old.table_id) × (pass.new.number ≡ pass.old.number) }
    ensures calls { Makes pass.old.number pass.old.view pass.new.view
        (Generates n (length pass.new.view.seen) (state_seen pass.new.view) result) }
{
    let mut events = Events::new(alloc, n);
    let mut tally = Tally::new();
    while events.left() > 0 {
        if let Err(refused) = put_batch(rt, shared, pass, &mut events) {
            return Err(refused);
        }
        if let Err(refused) = take_some(rt, shared, pass, &mut tally) {
            return Err(refused);
        }
        if let Err(refused) = keep_channel(rt, shared, pass, tally.batches) {
            return Err(refused);
        }
    }
    let left = shared.size(rt, pass);
    match tally.summary(alloc, n, left) {
        Ok(text) => Ok(text),
        Err(_) => Err(LoadRefused::NoMemory),
    }
}
