// Channels without a disk that have made no call, shared.
ghost use Rattle.std.specs.Prelude.{◌≡◌, [], All, IfSome};
ghost use Rattle.channel_face.specs.History.{Opening};
ghost use Rattle.txn_core.specs.Counted.{StandsAs};
ghost use Rattle.txn_core.specs.Shadow.{StandsWith};

use crate::sharing::{LIMITS, Opened};
use channel_face::{Kind, Limits};
use memory_channel::MemoryChannel;
use shared_channel::Shared;
use std::alloc::Global;
use txn_core::Machine;

fn share_machine(alloc: Global, channel: Machine, limits: Limits, passes: u32) -> Opened<Machine>
    ghost start: { Opening }
    requires { StandsWith channel start [] }
    ensures { IfSome result (λ r. All (λ p. p.table_id ≡ r.0.turn.table.shared.table_id)
        r.1.items) }
{
    let _ = limits;
    match Shared::new(alloc, channel, passes) {
        Ok(opened) => Some(opened),
        Err(_) => None,
    }
}

/// A plain channel, with the cases of one on a disk.
pub fn plain(alloc: Global, passes: u32) -> Opened<Machine>
    ensures { IfSome result (λ r. All (λ p. p.table_id ≡ r.0.turn.table.shared.table_id)
        r.1.items) }
{
    match Machine::new(alloc, LIMITS, Kind::File) {
        Ok(channel) => share_machine(alloc, channel, LIMITS, passes),
        Err(_) => None,
    }
}

fn share_in_memory(
    alloc: Global,
    channel: MemoryChannel,
    limits: Limits,
    passes: u32,
) -> Opened<MemoryChannel>
    ghost start: { Opening }
    requires { StandsAs channel start [] }
    ensures { IfSome result (λ r. All (λ p. p.table_id ≡ r.0.turn.table.shared.table_id)
        r.1.items) }
{
    let _ = limits;
    match Shared::new(alloc, channel, passes) {
        Ok(opened) => Some(opened),
        Err(_) => None,
    }
}

/// A channel in memory.
pub fn in_memory(alloc: Global, passes: u32) -> Opened<MemoryChannel>
    ensures { IfSome result (λ r. All (λ p. p.table_id ≡ r.0.turn.table.shared.table_id)
        r.1.items) }
{
    match MemoryChannel::new(alloc, LIMITS) {
        Ok(channel) => share_in_memory(alloc, channel, LIMITS, passes),
        Err(_) => None,
    }
}
