// What a run of an agent has from its opening to the join of its workers.
ghost use Rattle.std.specs.Prelude.{◌≡◌, IfOk, length, map};
ghost use Rattle.run_opening.specs.Lists.{HasRoomFor, IsEmptyFor};
ghost use Rattle.run_opening.specs.Opening.{CanBeManned, IsManned};
ghost use Rattle.run_opening.specs.Staff.{own_talk};
ghost use Rattle.run_opening.specs.Streams.{AreTaken, IsButTaken};

use crate::assemble::{Crew, Parts, crew_of};
use crate::channel_end::ChannelEnd;
use crate::labels::ChannelLabel;
use crate::lists::{ChannelLists, WorkerLists, channel_lists, settle_room, worker_lists};
use crate::outside::Outside;
use crate::preparing::Prepared;
use crate::streams::take_talks;
use agent_outside::SourceListener;
use agent_plan::Plan;
use channel_face::Channel;
use channel_wishes::{ChannelWish, OpenedChannel};
use crew::DrainWorker;
use flume_host::Host;
use grouped_sinks::SinkRow;
use run_settling::Settled;
use run_staff::{LineEnded, Returned, Workers};
use shared_channel::Pass;
use std::alloc::{AllocError, Global};

/// Room for all that a run has.
#[derive(Drop)]
pub struct Room<S, A: Channel, B: Channel, N, I, O, C, K> {
    /// The listeners, before they have workers.
    pub listeners: Vec<N>,
    /// What drives the rows of sinks, before they have workers.
    pub runners: Vec<S>,
    /// What it has of each channel.
    pub channels: ChannelLists<A, B>,
    /// What it has of its workers.
    pub workers: WorkerLists<S, N, I, O, C, K>,
    /// What the settling leaves.
    pub settled: Settled<S, A, B>,
}

/// Makes room for all that a run of this plan has, with so many kept channels, rows of sinks, listeners and workers of lines.
pub fn room_of<
    S: Drop,
    A: Channel + Drop,
    B: Channel + Drop,
    N: Drop,
    I: Drop,
    O: Drop,
    C: Drop,
    K: Drop,
>(
    alloc: Global,
    plan: &Plan,
    keepers: usize,
    rows: usize,
    listeners: usize,
    lines: usize,
) -> Result<Room<S, A, B, N, I, O, C, K>, AllocError>
    ensures { IfOk result (HasRoomFor plan.now keepers rows listeners lines) }
{
    let bare = Vec::with_capacity(alloc, listeners)?;
    let runners = Vec::with_capacity(alloc, rows)?;
    let channels = channel_lists(alloc, plan.channels.len())?;
    let workers = worker_lists(alloc, keepers, rows, listeners, lines)?;
    let settled = settle_room(alloc, plan.channels.as_slice(), rows)?;
    Ok(Room {
        listeners: bare,
        runners,
        channels,
        workers,
        settled,
    })
}

/// What a run has once all is opened.
#[derive(Drop)]
pub struct Opening<A: Channel, B: Channel, S, N, I, O, C, K> {
    /// Its channels.
    pub opened: Vec<OpenedChannel<A, B>>,
    /// Its sinks and listeners.
    pub outside: Outside<S, N>,
    /// What was prepared.
    pub prepared: Prepared<K, C>,
    /// Room for what it has of each channel.
    pub channels: ChannelLists<A, B>,
    /// Room for what it has of its workers.
    pub workers: WorkerLists<S, N, I, O, C, K>,
    /// Room for what the settling leaves.
    pub settled: Settled<S, A, B>,
}

/// What a run has once its workers are made.
#[derive(Drop)]
pub struct Manned<A: Channel, B: Channel, S, N, I, O, C, K> {
    /// Its channels, and the workers over them.
    pub crew: Crew<A, B, S, N, I, O, C, K>,
    /// What channels were wanted.
    pub wishes: Vec<ChannelWish>,
    /// The places of the sources of its listeners.
    pub places: Vec<usize>,
    /// The channels by name, with the workers that use each.
    pub labels: Vec<ChannelLabel>,
    /// Of each channel, whether it is kept once more at the end.
    pub closes: Vec<bool>,
    /// Room for the passes of the channels once they are closed.
    pub passes: Vec<Pass>,
    /// Room for the channels with their passes and workers, after the run.
    pub ends: Vec<ChannelEnd>,
    /// Room for what comes back of the workers.
    pub returned: Returned<S, N, I, O, C>,
    /// Room for the listeners with the places of their sources.
    pub named: Vec<SourceListener<N>>,
    /// Room for what the settling leaves.
    pub settled: Settled<S, A, B>,
}

// Takes standard input, and output where it is answered on, for the workers that read it.
fn take_streams<H: Host>(
    host: &mut H,
    lines: usize,
    talks: &mut Vec<LineEnded<H::Source, H::Sink>>,
    drains: &mut Vec<DrainWorker<H::Source>>,
)
    requires talks { IsEmptyFor lines talks.old }
    requires drains { IsEmptyFor 1 drains.old }
    ensures talks { length talks.new.items ≡ lines }
    ensures taken { AreTaken H.Source.left H.Source.faults H.Sink.took H.Sink.handed H.Sink.faults
        talks.new.items drains.new.items (H.state host.old) (H.state host.new) }
    ensures folders { H.folders host.new ≡ H.folders host.old }
    ensures rest { IsButTaken (H.state host.old) (H.state host.new) }
{
    take_talks(host, lines, talks);
    if lines == 0 {
        drains.push_reserved(DrainWorker {
            input: host.take_input(),
            end: None,
        });
    }
}

/// Makes the workers of a run over its channels, and takes standard input and output for them.
pub fn man<H: Host, A: Channel + Drop, B: Channel + Drop, S: Drop, K: Drop>(
    alloc: Global,
    host: &mut H,
    plans: &[SinkRow],
    opening: Opening<A, B, S, H::Listener, H::Source, H::Sink, H::Clock, K>,
) -> Manned<A, B, S, H::Listener, H::Source, H::Sink, H::Clock, K>
    requires can { CanBeManned plans.now opening }
    ensures manned { IsManned plans.now opening result }
    ensures taken { AreTaken H.Source.left H.Source.faults H.Sink.took H.Sink.handed H.Sink.faults
        (map (λ job. own_talk job) result.crew.jobs.lines.items) result.crew.jobs.drains.items
        (H.state host.old) (H.state host.new) }
    ensures folders { H.folders host.new ≡ H.folders host.old }
    ensures rest { IsButTaken (H.state host.old) (H.state host.new) }
{
    let Opening {
        opened,
        outside,
        prepared,
        channels,
        workers,
        settled,
    } = opening;
    let ChannelLists {
        shares,
        homes,
        hands,
        passes,
        ends,
    } = channels;
    let WorkerLists {
        jobs,
        returned,
        talks,
        named,
    } = workers;
    let Prepared {
        wishes,
        keepers,
        closes,
        listeners,
        lines,
        places,
        clocks,
        labels,
    } = prepared;
    let Workers {
        keepers: keep_jobs,
        sinks: sink_jobs,
        listeners: listen_jobs,
        mut drains,
        lines: line_jobs,
    } = jobs;
    let mut talks = talks;
    take_streams(host, lines.len(), &mut talks, &mut drains);
    let parts = Parts {
        keepers,
        outside,
        listeners,
        lines,
        clocks,
        talks,
        room: Workers {
            keepers: keep_jobs,
            sinks: sink_jobs,
            listeners: listen_jobs,
            drains,
            lines: line_jobs,
        },
    };
    let crew = crew_of(
        alloc,
        plans,
        wishes.as_slice(),
        opened,
        parts,
        shares,
        homes,
        hands,
    );
    Manned {
        crew,
        wishes,
        closes,
        places,
        labels,
        passes,
        ends,
        returned,
        named,
        settled,
    }
}
