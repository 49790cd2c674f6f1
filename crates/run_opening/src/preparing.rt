// What a run of an agent is made of, before anything of it is opened.
ghost use Rattle.std.specs.Prelude.{◌≡◌, IfErr, IfOk, OnOk, length};
ghost use Rattle.plan_objects.specs.Asks.{step_asks};
ghost use Rattle.run_opening.specs.Prepared.{IsDrafted, IsPlanned, IsPrepared, IsUnprepared, error_of};

use crate::labels::{ChannelLabel, labels_of};
use crate::seats::{KeepSeat, Seat, closes_of, keep_seats_of, seats_of};
use crate::wishes::{uses_of, wishes_of};
use agent_drafts::{Drafts, draft_sources, drafts_can_serve};
use agent_outside::{listening_places, names_of};
use agent_plan::Plan;
use agent_words::RunError;
use channel_wishes::ChannelWish;
use flume_host::{Host, NameRefused};
use grouped_sinks::SinkRow;
use std::alloc::{AllocError, Global};

/// What a run of an agent is made of.
#[derive(Drop)]
pub struct Prepared<K, C> {
    /// The channels that it wants.
    pub wishes: Vec<ChannelWish>,
    /// The workers of its channels on disks.
    pub keepers: Vec<KeepSeat<C>>,
    /// Of each channel, whether it is kept once more at the end.
    pub closes: Vec<bool>,
    /// The workers of its listeners.
    pub listeners: Vec<Seat<K, C>>,
    /// The workers of the lines of standard input.
    pub lines: Vec<Seat<K, C>>,
    /// The place of the source of each listener.
    pub places: Vec<usize>,
    /// The clocks of its rows of sinks.
    pub clocks: Vec<C>,
    /// Its channels by name, with the workers that use each.
    pub labels: Vec<ChannelLabel>,
}

/// Why something that is handed out by its name was not.
pub fn name_error(refused: NameRefused) -> RunError
    ensures { result ≡ error_of refused }
{
    match refused {
        NameRefused::Failed => RunError::Fault,
        NameRefused::NoMemory => RunError::NoMemory,
    }
}

// So many clocks.
fn clocks_of<H: Host>(alloc: Global, host: &mut H, many: usize) -> Result<Vec<H::Clock>, AllocError>
    ensures many { IfOk result (λ clocks. length clocks.items ≡ many) }
    ensures state { H.state host.new ≡ H.state host.old }
    ensures folders { H.folders host.new ≡ H.folders host.old }
{
    let mut clocks = Vec::with_capacity(alloc, many)?;
    while clocks.len() < many {
        clocks.push_reserved(host.clock());
    }
    Ok(clocks)
}

/// Makes all that a run of this plan, with these rows of sinks, needs before anything is opened. Its interceptors that were handed in are
/// these. The host is asked for its names where interceptors are told them.
pub fn prepare<H: Host, K: Drop>(
    alloc: Global,
    host: &mut H,
    plan: &Plan,
    rows: &[SinkRow],
    steps: Vec<K>,
) -> Result<Prepared<K, H::Clock>, RunError>
    requires planned { IsPlanned plan.now }
    requires steps { length steps.items ≡ length (step_asks plan.now.sources.items) }
    ensures prepared { IfOk result (IsPrepared plan.now rows.now) }
    ensures drafted { IfOk result
        (IsDrafted steps.items (H.state host.old).name (H.state host.old).address plan.now) }
    ensures same { OnOk result (H.state host.new ≡ H.state host.old) }
    ensures refused { IfErr result
        (λ error. IsUnprepared error (H.state host.old) (H.state host.new)) }
    ensures folders { H.folders host.new ≡ H.folders host.old }
{
    let names = match names_of(alloc, host, plan.sources.as_slice()) {
        Ok(names) => names,
        Err(refused) => return Err(name_error(refused)),
    };
    let drafts = draft_sources(alloc, plan, names.as_slice(), steps)?;
    let Drafts { listeners, lines } = drafts;
    let listeners = seats_of(alloc, host, listeners)?;
    let lines = seats_of(alloc, host, lines)?;
    let keepers = keep_seats_of(alloc, host, plan.channels.as_slice())?;
    let closes = closes_of(alloc, plan.channels.as_slice())?;
    let uses = uses_of(
        alloc,
        keepers.as_slice(),
        rows,
        listeners.as_slice(),
        lines.as_slice(),
    )?;
    let wishes = wishes_of(alloc, plan.channels.as_slice(), uses.as_slice())?;
    let places = listening_places(alloc, plan.sources.as_slice())?;
    let labels = labels_of(
        alloc,
        plan,
        keepers.as_slice(),
        rows,
        listeners.as_slice(),
        lines.as_slice(),
    )?;
    let clocks = clocks_of(alloc, host, rows.len())?;
    drafts_can_serve::<K>();
    Ok(Prepared {
        wishes,
        keepers,
        closes,
        listeners,
        lines,
        places,
        clocks,
        labels,
    })
}
