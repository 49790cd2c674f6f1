// Room for what a run of an agent has, made before its channels are opened: so nothing of it needs memory afterwards.
ghost use Rattle.std.specs.Prelude.{IfOk};
ghost use Rattle.run_opening.specs.Lists.{HasSettleRoom, HaveChannelLists, HaveWorkerLists, IsEmptyFor, NamesOf};

use crate::channel_end::ChannelEnd;
use agent_outside::SourceListener;
use agent_plan::ChannelPlan;
use channel_face::{Channel, Counts};
use run_settling::Settled;
use run_staff::{LineEnded, Returned, Workers};
use shared_channel::Pass;
use std::alloc::{AllocError, Global};
use two_channels::EitherShared;

/// What a run has of each channel, in order.
#[derive(Drop)]
pub struct ChannelLists<A: Channel, B: Channel> {
    /// The channels, shared among workers.
    pub shares: Vec<EitherShared<A, B>>,
    /// The passes that stay with the caller.
    pub homes: Vec<Pass>,
    /// The passes that are dealt to workers.
    pub hands: Vec<Vec<Pass>>,
    /// The passes of the channels once they are closed.
    pub passes: Vec<Pass>,
    /// The channels with their passes and workers, after the run.
    pub ends: Vec<ChannelEnd>,
}

// The channels' names, and no count.
fn blank_report(alloc: Global, plans: &[ChannelPlan]) -> Result<Vec<(String, Counts)>, AllocError>
    ensures { IfOk result (λ report. NamesOf plans.now report.items) }
{
    let mut report = Vec::new(alloc);
    for plan in plans {
        let counts = Counts {
            capacity: 0,
            size: 0,
            put_attempts: 0,
            put_successes: 0,
            take_attempts: 0,
            take_successes: 0,
        };
        report.push((plan.name.clone()?, counts))?;
    }
    Ok(report)
}

/// Makes room for what a run has of so many channels.
pub(crate) fn channel_lists<A: Channel + Drop, B: Channel + Drop>(
    alloc: Global,
    many: usize,
) -> Result<ChannelLists<A, B>, AllocError>
    ensures { IfOk result (HaveChannelLists many) }
{
    let shares = Vec::with_capacity(alloc, many)?;
    let homes = Vec::with_capacity(alloc, many)?;
    let hands = Vec::with_capacity(alloc, many)?;
    let passes = Vec::with_capacity(alloc, many)?;
    let ends = Vec::with_capacity(alloc, many)?;
    Ok(ChannelLists {
        shares,
        homes,
        hands,
        passes,
        ends,
    })
}

/// Makes room for what the settling of these channels leaves, and of so many sinks.
pub(crate) fn settle_room<S: Drop, A: Channel + Drop, B: Channel + Drop>(
    alloc: Global,
    plans: &[ChannelPlan],
    sinks: usize,
) -> Result<Settled<S, A, B>, AllocError>
    ensures { IfOk result (HasSettleRoom plans.now sinks) }
{
    let ends = Vec::with_capacity(alloc, sinks)?;
    let sinks = Vec::with_capacity(alloc, sinks)?;
    let mends = vec![in alloc; Ok(false); plans.len()]?;
    let report = blank_report(alloc, plans)?;
    let closed = Vec::with_capacity(alloc, plans.len())?;
    Ok(Settled {
        ends,
        sinks,
        mends,
        report,
        closed,
    })
}

// Room for the workers of a run.
fn worker_room<S: Drop, N: Drop, I: Drop, O: Drop, C: Drop, K: Drop>(
    alloc: Global,
    keepers: usize,
    sinks: usize,
    listeners: usize,
    lines: usize,
) -> Result<Workers<Pass, S, N, I, O, C, K>, AllocError>
    ensures keepers { IfOk result (λ w. IsEmptyFor keepers w.keepers) }
    ensures sinks { IfOk result (λ w. IsEmptyFor sinks w.sinks) }
    ensures listeners { IfOk result (λ w. IsEmptyFor listeners w.listeners) }
    ensures lines { IfOk result (λ w. IsEmptyFor lines w.lines) }
    ensures drains { IfOk result (λ w. IsEmptyFor 1 w.drains) }
{
    let keepers = Vec::with_capacity(alloc, keepers)?;
    let sinks = Vec::with_capacity(alloc, sinks)?;
    let listeners = Vec::with_capacity(alloc, listeners)?;
    let drains = Vec::with_capacity(alloc, 1)?;
    let lines = Vec::with_capacity(alloc, lines)?;
    Ok(Workers {
        keepers,
        sinks,
        listeners,
        drains,
        lines,
    })
}

// Room for what comes back of them.
fn returned_room<S: Drop, N: Drop, I: Drop, O: Drop, C: Drop>(
    alloc: Global,
    sinks: usize,
    listeners: usize,
    lines: usize,
) -> Result<Returned<S, N, I, O, C>, AllocError>
    ensures sinks { IfOk result (λ w. IsEmptyFor sinks w.sinks) }
    ensures listeners { IfOk result (λ w. IsEmptyFor listeners w.listeners) }
    ensures lines { IfOk result (λ w. IsEmptyFor lines w.lines) }
{
    let sinks = Vec::with_capacity(alloc, sinks)?;
    let listeners = Vec::with_capacity(alloc, listeners)?;
    let lines = Vec::with_capacity(alloc, lines)?;
    Ok(Returned {
        sinks,
        listeners,
        drains: Vec::new(alloc),
        lines,
    })
}

/// What a run has of its workers.
#[derive(Drop)]
pub struct WorkerLists<S, N, I, O, C, K> {
    /// The workers, once they are made.
    pub jobs: Workers<Pass, S, N, I, O, C, K>,
    /// What comes back of them.
    pub returned: Returned<S, N, I, O, C>,
    /// The inputs and outputs of the workers of lines, before they are made.
    pub talks: Vec<LineEnded<I, O>>,
    /// The listeners with their sources, before they are given back.
    pub named: Vec<SourceListener<N>>,
}

/// Makes room for what a run has of so many kept channels, sinks, listeners and workers of lines.
pub(crate) fn worker_lists<S: Drop, N: Drop, I: Drop, O: Drop, C: Drop, K: Drop>(
    alloc: Global,
    keepers: usize,
    sinks: usize,
    listeners: usize,
    lines: usize,
) -> Result<WorkerLists<S, N, I, O, C, K>, AllocError>
    ensures { IfOk result (HaveWorkerLists keepers sinks listeners lines) }
{
    let jobs = worker_room(alloc, keepers, sinks, listeners, lines)?;
    let returned = returned_room(alloc, sinks, listeners, lines)?;
    let talks = Vec::with_capacity(alloc, lines)?;
    let named = Vec::with_capacity(alloc, listeners)?;
    Ok(WorkerLists {
        jobs,
        returned,
        talks,
        named,
    })
}
