// The channels that an event has to reach.
ghost use Rattle.std.specs.Prelude.{◌≡◌, filter, map, IfOk};
ghost use Rattle.event_core.specs.Journal as Face;
ghost use Rattle.world_laws.specs.World.{required_of};

use crate::lists::is_among;
use crate::same::is_same_event;
use event_core::{Batch, Event, NoMemory};
use std::alloc::Global;

// Whether the event has to reach the channel, by the first pair with an equal event.
fn is_required(required: &[(Event, Vec<u32>)], event: &Event, channel: u64) -> bool
    ensures { let pairs = map (λ pair. (pair.0, pair.1.items)) required.now in
        result ≡ Face.is_among (required_of pairs event.now) channel }
{
    for place in 0..required.len() {
        if is_same_event(&required[place].0, event) {
            return is_among(&required[place].1, channel);
        }
    }
    false
}

/// Those of the events that have to reach the channel.
#[tactic(auto, using(crate::proofs::Shares::one_passes, crate::proofs::Shares::one_fails))]
pub(crate) fn share(
    alloc: Global,
    required: &[(Event, Vec<u32>)],
    made: &Batch,
    channel: u64,
) -> Result<Batch, NoMemory>
    ensures { let pairs = map (λ pair. (pair.0, pair.1.items)) required.now in
        IfOk result (λ batch.
        batch ≡ filter (λ e. Face.is_among (required_of pairs e) channel) made.now) }
{
    let mut batch = Batch::new(alloc);
    for at in 0..made.len() {
        if !is_required(required, made.get(at), channel) {
            continue;
        }
        let event = made.get(at).copy()?;
        if batch.push(event).is_err() {
            return Err(NoMemory);
        }
    }
    Ok(batch)
}
