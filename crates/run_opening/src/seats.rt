// What the workers of channels and of sources are made of, with room for the passes of those.
ghost use Rattle.std.specs.Prelude.{◌≡◌, All, IfOk, map};
ghost use Rattle.run_opening.specs.Keepers.{closes, interval_of, keep_of, keeps_of};
ghost use Rattle.run_opening.specs.Staff.{IsRoomy};

use agent_drafts::SourceDraft;
use agent_plan::{ChannelKind, ChannelPlan};
use flume_host::Host;
use shared_channel::Pass;
use std::alloc::{AllocError, Global};

/// The draft of a source's worker, and room for the passes of its channels.
#[derive(Drop)]
pub struct Seat<K, C> {
    /// All that the worker needs of its source.
    pub draft: SourceDraft<K>,
    /// The room.
    pub ports: Vec<Pass>,
    /// Its clock.
    pub clock: C,
}

/// What the worker of a channel on a disk is made of.
#[derive(Drop)]
pub struct KeepSeat<C> {
    /// The place of the channel in the plan, from 0.
    pub channel: u32,
    /// How long it pauses before each checkpoint, in milliseconds.
    pub interval: u32,
    /// Its clock.
    pub clock: C,
}

// The interval of a channel's checkpoints, if it is on a disk.
fn interval_of(kind: &ChannelKind) -> Option<u32>
    ensures { result ≡ interval_of kind.now }
{
    match kind {
        ChannelKind::Memory => None,
        ChannelKind::File {
            folder: _,
            max_file: _,
            interval,
            on_close: _,
        } => Some(*interval),
    }
}

/// What the workers of a plan's channels on disks are made of, in order.
pub(crate) fn keep_seats_of<H: Host>(
    alloc: Global,
    host: &mut H,
    plans: &[ChannelPlan],
) -> Result<Vec<KeepSeat<H::Clock>>, AllocError>
    ensures seats { IfOk result (λ seats. map keep_of seats.items ≡ keeps_of plans.now) }
    ensures state { H.state host.new ≡ H.state host.old }
    ensures folders { H.folders host.new ≡ H.folders host.old }
{
    let Some((plan, front)) = plans.split_last() else {
        return Ok(Vec::new(alloc));
    };
    let mut seats = keep_seats_of(alloc, host, front)?;
    let Ok(channel) = u32::try_from(front.len()) else {
        return Err(AllocError);
    };
    if let Some(interval) = interval_of(&plan.kind) {
        let clock = host.clock();
        seats.push(KeepSeat {
            channel,
            interval,
            clock,
        })?;
    }
    Ok(seats)
}

// Whether a channel is kept once more at the end of a run.
fn closes(kind: &ChannelKind) -> bool
    ensures { result ≡ closes kind.now }
{
    match kind {
        ChannelKind::Memory => false,
        ChannelKind::File {
            folder: _,
            max_file: _,
            interval: _,
            on_close,
        } => *on_close,
    }
}

/// Of each channel of a plan, in order, whether it is kept once more at the end of a run.
pub(crate) fn closes_of(alloc: Global, plans: &[ChannelPlan]) -> Result<Vec<bool>, AllocError>
    ensures { IfOk result (λ all. all.items ≡ map (λ plan. closes plan.kind) plans.now) }
{
    let mut all = Vec::new(alloc);
    for plan in plans {
        all.push(closes(&plan.kind))?;
    }
    Ok(all)
}

/// Makes room for the passes of each of these workers, and asks for its clock.
pub(crate) fn seats_of<H: Host, K: Drop>(
    alloc: Global,
    host: &mut H,
    drafts: Vec<SourceDraft<K>>,
) -> Result<Vec<Seat<K, H::Clock>>, AllocError>
    ensures drafts { IfOk result (λ seats. map (λ seat. seat.draft) seats.items ≡ drafts.items) }
    ensures room { IfOk result (λ seats. All IsRoomy seats.items) }
    ensures state { H.state host.new ≡ H.state host.old }
    ensures folders { H.folders host.new ≡ H.folders host.old }
{
    let mut others = drafts;
    let Some(draft) = others.pop() else {
        return Ok(Vec::new(alloc));
    };
    let mut seats = seats_of(alloc, host, others)?;
    let ports = Vec::with_capacity(alloc, draft.channels.len())?;
    let clock = host.clock();
    seats.push(Seat {
        draft,
        ports,
        clock,
    })?;
    Ok(seats)
}
