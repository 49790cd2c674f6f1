// What channels a run wants, each with a pass for each worker that uses it.
ghost use Rattle.std.specs.Prelude.{◌≡◌, ◌<◌, ◌++◌, IfOk, OnOk, flat_map};
ghost use Rattle.run_tracks.specs.Deals.{count_of};
ghost use Rattle.run_opening.specs.Prepared.{uses_of};
ghost use Rattle.run_opening.specs.Staff.{seat_channels};
ghost use Rattle.run_opening.specs.Wishes.{AreWishes, IsFileOf, IsPlaceOf, IsWish};

use crate::seats::{KeepSeat, Seat};
use agent_plan::{ChannelKind, ChannelPlan};
use channel_face::Limits;
use channel_wishes::{ChannelPlace, ChannelWish};
use grouped_sinks::SinkRow;
use std::alloc::{AllocError, Global};

// Adds the channels of these workers.
fn add_uses<K, C>(uses: &mut Vec<u32>, seats: &[Seat<K, C>]) -> Result<(), AllocError>
    ensures { OnOk result (uses.new.items ≡ uses.old.items ++ flat_map seat_channels seats.now) }
{
    for seat in seats {
        uses.extend_from_slice(seat.draft.channels.as_slice())?;
    }
    Ok(())
}

/// The channels that workers use, each as often as it is used: those that are kept, those of the sinks, of the listeners and of the
/// lines.
pub(crate) fn uses_of<K, C>(
    alloc: Global,
    keepers: &[KeepSeat<C>],
    sinks: &[SinkRow],
    listeners: &[Seat<K, C>],
    lines: &[Seat<K, C>],
) -> Result<Vec<u32>, AllocError>
    ensures { IfOk result (λ uses. uses.items ≡ uses_of keepers.now sinks.now listeners.now
        lines.now) }
{
    let mut uses = Vec::new(alloc);
    for keeper in keepers {
        uses.push(keeper.channel)?;
    }
    for sink in sinks {
        uses.push(sink.channel)?;
    }
    add_uses(&mut uses, listeners)?;
    add_uses(&mut uses, lines)?;
    Ok(uses)
}

// How often a channel is used. Without numbers for so many passes there is no memory for them.
fn users_of(uses: &[u32], place: usize) -> Result<u32, AllocError>
    ensures { IfOk result (λ users. (users ≡ count_of place uses.now) × (users < 4_294_967_295)) }
{
    let mut users: u32 = 0;
    for used in uses {
        if *used as usize == place {
            users += 1;
        }
        if users == u32::MAX {
            return Err(AllocError);
        }
    }
    Ok(users)
}

// Where a channel keeps its events.
fn place_of(kind: &ChannelKind) -> Result<ChannelPlace, AllocError>
    ensures { IfOk result (IsPlaceOf kind.now) }
{
    match kind {
        ChannelKind::Memory => Ok(ChannelPlace::Memory),
        ChannelKind::File {
            folder,
            max_file: _,
            interval: _,
            on_close: _,
        } => Ok(ChannelPlace::Folder(folder.clone()?)),
    }
}

// From what length on a channel's file is followed by another. A channel in memory has none.
fn max_file_of(kind: &ChannelKind) -> u64
    ensures { IsFileOf kind.now result }
{
    match kind {
        ChannelKind::Memory => 0,
        ChannelKind::File {
            folder: _,
            max_file,
            interval: _,
            on_close: _,
        } => *max_file,
    }
}

// The wish for the channel at a place.
fn wish_of(plan: &ChannelPlan, users: u32) -> Result<ChannelWish, AllocError>
    ensures { IfOk result (IsWish plan.now users) }
{
    let place = place_of(&plan.kind)?;
    Ok(ChannelWish {
        place,
        limits: Limits {
            capacity: plan.capacity,
            txn_capacity: plan.txn_capacity,
            max_file: max_file_of(&plan.kind),
        },
        users,
    })
}

/// The channels that a run wants: those of the plan, in order, each with as many users as it is used.
pub(crate) fn wishes_of(
    alloc: Global,
    plans: &[ChannelPlan],
    uses: &[u32],
) -> Result<Vec<ChannelWish>, AllocError>
    ensures { IfOk result (λ wishes. AreWishes uses.now plans.now wishes.items) }
{
    let mut wishes = Vec::new(alloc);
    for (place, plan) in plans.iter().enumerate() {
        let users = users_of(uses, place)?;
        wishes.push(wish_of(plan, users)?)?;
    }
    Ok(wishes)
}
