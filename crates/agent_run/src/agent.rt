// The run of an agent.
ghost use Rattle.std.specs.Prelude.{◌≡◌, ◌+◌, ◌++◌, ◌≤◌, [], IfErr, IfOk, Some, length, map, reverse};
ghost use Rattle.two_channels.specs.Shares.{pass_of};
ghost use Rattle.std.specs.Vec.{vec_capacity};
ghost use Rattle.channel_wishes.specs.Places.{AreOfWishes, AreOut};
ghost use Rattle.channel_wishes.specs.Opened.{WereOpened};
ghost use Rattle.agent_end.specs.Statuses.{run_status};
ghost use Rattle.agent_outside.specs.Sinks.{AreOpened};
ghost use Rattle.agent_words.specs.Statuses.{status_of};
ghost use Rattle.plan_objects.specs.Asks.{HaveObjects, lacking, step_asks};
ghost use Rattle.run_opening.specs.Lists.{HasRoomFor, HasSettleRoom};
ghost use Rattle.run_opening.specs.Opening.{CanBeManned};
ghost use Rattle.agent_run.specs.Named.{AgentEnds};
ghost use Rattle.run_opening.specs.Prepared.{IsPlanned, IsPrepared};
ghost use Rattle.agent_outside.specs.Listening.{IsFresh};
ghost use Rattle.run_opening.specs.Outside.{HasRunners, IsOutside};
ghost use Rattle.grouped_sinks.specs.Frames.{IsFrameOf};
ghost use Rattle.grouped_sinks.specs.Rows.{AreRows, IsOrder, Zips, places_of};
ghost use Rattle.agent_run.specs.NotBegun.{IsRefusedOutside, IsRunRefused};
ghost use Rattle.agent_run.specs.Run.{CanListenAt, IsGivenBack, MayReturn, StandInRows};
ghost use Rattle.agent_run.specs.Through.{AgentEndsAs, EndsAs, OpenedAndRan, WithObjects};
ghost use Rattle.agent_run.specs.Errors.{IsBrokenCause, IsBrokenError, IsCauseError, IsRunStatus, IsSaid};

use crate::joined::{Joined, run_crew, settle_run};
use crate::rests::channels_rest;
use crate::through::{Goes, OpeningOf, RunOf, RunnerOf, Runs, SinkOf, Steps};
use crate::told::{run_is_told, steps_are_told};
use agent_channels::{close_channels, closed_channels_fit, give_all_unused, open_channels};
use agent_commands::{Planned, plan_agent};
use agent_end::RunEnds;
use agent_outside::give_back_sinks;
use agent_plan::{ChannelKind, ChannelPlan, Plan, SinkPlan};
use agent_words::RunError;
use avro_ends::{AvroSink, HasDialer};
use channel_face::OpenCause;
use channel_wishes::{ChannelRefused, ChannelWish, OpenedChannel};
use file_channel::FileChannel;
use flume_host::Host;
use grouped_sinks::{
    Frame, SinkRow, frames_of, rows_are_apart, rows_of, runners_split, ungroup_sinks,
};
use memory_channel::MemoryChannel;
use plan_laws::{
    groups_name_what_is_there, numbers_are_limited, sinks_name_what_is_there, sinks_stand_once,
};
use plan_objects::{HandedIn, Objects};
use plug_in::{EventSink, Interceptor};
use run_opening::{
    ChannelEnd, Crew, Grouped, Manned, Opening, Prepared, Room, StreamsEnded, add_ends,
    group_outside, man, name_error, open_outside, prepare, report_on, room_of,
};
use run_settling::Settled;
use shared_channel::Pass;
use std::alloc::{AllocError, Global};
use std::sync::Wait;
use std::thread::Threads;

// Why a channel of a plan was not opened.
fn cause_error(alloc: Global, plan: &ChannelPlan, cause: OpenCause) -> RunError
    ensures { IsCauseError plan.now.kind cause result }
{
    match &plan.kind {
        ChannelKind::Memory => RunError::NoMemory,
        ChannelKind::File {
            folder,
            max_file: _,
            interval: _,
            on_close: _,
        } => match folder.clone() {
            Ok(folder) => RunError::unopened(folder, plan.capacity, cause),
            Err(AllocError) => RunError::NoMemory,
        },
    }
}

/// What a run came to.
#[derive(Drop)]
pub(crate) struct Ran {
    /// What its parts came to.
    pub ends: RunEnds,
    /// Its channels.
    pub channels: Vec<ChannelEnd>,
}

// Runs what was opened, to its end.
fn run_opened<
    'a,
    R: Threads + Wait + Sync + 'a,
    H: Host + 'a,
    K: Interceptor + Send + Drop,
    B: EventSink + Send,
>(
    rt: &'a R,
    alloc: Global,
    host: &mut H,
    plan: &Plan,
    rows: &[SinkRow],
    vacant: Vec<SinkOf<H, B>>,
    opening: OpeningOf<H, K, B>,
) -> Ran
    requires can { CanBeManned rows.now opening }
    requires order { IsOrder (length plan.now.sinks.items) (places_of rows.now) }
    requires vacant { length vacant.items ≡ length plan.now.sinks.items }
    requires listen { CanListenAt H.Listener.endpoint plan.now.sources.items
        opening.prepared.places.items opening.outside.listeners.items
        (H.state host.old).listeners }
    requires sinks { AreOpened (H.folders host.old) plan.now.sinks.items
        (length plan.now.sinks.items) }
    requires dials { StandInRows ⟦<AvroSink<H::Dialer> as HasDialer>⟧.dial (H.folders host.old)
        plan.now.sinks.items rows.now opening.outside.sinks.items (H.state host.old).dialers }
    requires disks { AreOut (H.folders host.old) opening.prepared.wishes.items }
    requires settle { HasSettleRoom plan.now.channels.items (length rows.now) opening.settled }
    requires many { length opening.prepared.wishes.items ≡ length plan.now.channels.items }
    ensures { ⟦<RunOf<'a, R, H, K, B> as Goes<OpeningOf<H, K, B>>>⟧.goes plan.now rows.now opening
        result.ends result.channels.items
        (record { state = H.state host.old; folders = H.folders host.old })
        (record { state = H.state host.new; folders = H.folders host.new }) }
{
    let Manned {
        crew,
        wishes,
        closes,
        places,
        labels,
        mut passes,
        ends: mut channels,
        returned,
        named,
        settled,
    } = man(alloc, host, rows, opening);
    let Crew {
        shares,
        mut homes,
        jobs,
    } = crew;
    let Joined { sinks, streams } = run_crew::<R, H, K, B>(
        rt,
        alloc,
        host,
        plan.sources.as_slice(),
        places.as_slice(),
        shares.as_slice(),
        homes.as_mut_slice(),
        jobs,
        returned,
        named,
    );
    let settled = settle_run::<R, H, K, B>(rt, shares, homes, sinks, closes.as_slice(), settled);
    closed_channels_fit::<FileChannel<H::Disk>, MemoryChannel>();
    run_is_told::<'a, R, H, K, B>();
    runners_split::<SinkOf<H, B>, H::Random>();
    let ends = give_rest(
        alloc,
        host,
        plan.sinks.as_slice(),
        rows,
        vacant,
        wishes,
        &mut passes,
        settled,
        streams,
    );
    add_ends(labels, passes, &mut channels);
    Ran { ends, channels }
}

// Gives the sinks and the channels back after a run, and writes the report.
fn give_rest<H: Host, B: EventSink>(
    alloc: Global,
    host: &mut H,
    plans: &[SinkPlan],
    rows: &[SinkRow],
    places: Vec<SinkOf<H, B>>,
    wishes: Vec<ChannelWish>,
    passes: &mut Vec<Pass>,
    settled: Settled<RunnerOf<H, B>, FileChannel<H::Disk>, MemoryChannel>,
    streams: StreamsEnded,
) -> RunEnds
    requires sinks { AreOpened (H.folders host.old) plans.now (length plans.now) }
    requires order { IsOrder (length plans.now) (places_of rows.now) }
    requires places { length places.items ≡ length plans.now }
    requires dials { MayReturn ⟦<AvroSink<H::Dialer> as HasDialer>⟧.dial
        plans.now rows.now settled.sinks.items (H.state host.old).dialers }
    requires of { AreOfWishes (H.folders host.old) wishes.items settled.closed.items }
    requires room { length passes.old.items + length settled.closed.items
        ≤ vec_capacity passes.old }
    ensures passes { passes.new.items
        ≡ passes.old.items ++ map (λ c. pass_of c) settled.closed.items }
    ensures input { result.input ≡ streams.input }
    ensures drains { result.drains ≡ settled.ends }
    ensures mends { result.mends ≡ settled.mends }
    ensures back { IsGivenBack H.Roll.rolled
        ⟦<AvroSink<H::Dialer> as HasDialer>⟧.dial H.Disk.told H.Disk.faults plans.now rows.now
        wishes.items settled
        streams.output_failed result.report
        (record { state = H.state host.old; folders = H.folders host.old })
        (record { state = H.state host.new; folders = H.folders host.new }) }
{
    let Settled {
        ends,
        sinks: runners,
        mends,
        report,
        closed,
    } = settled;
    channels_rest(closed.as_slice());
    let mut sinks = places;
    ungroup_sinks(rows, runners, sinks.as_mut_slice());
    give_back_sinks(host, plans, sinks);
    close_channels(host, wishes.as_slice(), closed, passes);
    let report = report_on(alloc, host, streams.output_failed, report.as_slice());
    RunEnds {
        input: streams.input,
        drains: ends,
        mends,
        report,
    }
}

// Opens what a run needs outside its channels, and runs. Where that is refused, the channels are given back.
fn run_channels<
    'a,
    R: Threads + Wait + Sync + 'a,
    H: Host + 'a,
    K: Interceptor + Send + Drop,
    B: EventSink + Send,
>(
    rt: &'a R,
    alloc: Global,
    host: &mut H,
    plan: &Plan,
    rows: &[SinkRow],
    objects: Vec<Option<B>>,
    frames: Vec<Frame<SinkOf<H, B>, H::Random>>,
    opened: Vec<OpenedChannel<FileChannel<H::Disk>, MemoryChannel>>,
    prepared: Prepared<K, H::Clock>,
    room: Room<
        RunnerOf<H, B>,
        FileChannel<H::Disk>,
        MemoryChannel,
        H::Listener,
        H::Source,
        H::Sink,
        H::Clock,
        K,
    >,
) -> Result<Ran, RunError>
    requires prepared { IsPrepared plan.now rows.now prepared }
    requires planned { IsPlanned plan.now }
    requires rows { AreRows plan.now.sinks.items plan.now.groups.items rows.now }
    requires frames { Zips (IsFrameOf plan.now.groups.items) rows.now frames.items }
    requires have { HaveObjects plan.now.sinks.items (reverse objects.items) }
    requires opened { WereOpened prepared.wishes.items opened.items }
    requires out { AreOut (H.folders host.old) prepared.wishes.items }
    requires room { HasRoomFor plan.now (length prepared.keepers.items) (length rows.now)
        (length prepared.listeners.items) (length prepared.lines.items) room }
    ensures refused { IfErr result (λ error. IsRefusedOutside plan.now prepared.places.items
        prepared.wishes.items opened.items error
        (record { state = H.state host.old; folders = H.folders host.old })
        (record { state = H.state host.new; folders = H.folders host.new })) }
    ensures ran { IfOk result (λ run. OpenedAndRan plan.now.channels.items opened.items prepared
        (λ old new outside. HasRunners (λ sinks. IsOutside H.Roll.rolled H.Roll.faults
        ⟦<AvroSink<H::Dialer> as HasDialer>⟧.dial
        (IsFresh H.Listener.told H.Listener.endpoint H.Listener.waits H.Listener.faults)
        plan.now (reverse objects.items) prepared.places.items old new sinks
        outside.listeners.items)
        plan.now.groups.items rows.now outside.sinks.items)
        (⟦<RunOf<'a, R, H, K, B> as Goes<OpeningOf<H, K, B>>>⟧.goes plan.now rows.now)
        run.ends run.channels.items
        (record { state = H.state host.old; folders = H.folders host.old })
        (record { state = H.state host.new; folders = H.folders host.new })) }
{
    let Room {
        listeners,
        runners,
        channels,
        workers,
        settled,
    } = room;
    let places = prepared.places.as_slice();
    match open_outside(alloc, host, plan, objects, places, listeners) {
        Ok(outside) => {
            sinks_name_what_is_there();
            groups_name_what_is_there();
            sinks_stand_once();
            numbers_are_limited();
            rows_are_apart();
            let groups = plan.groups.as_slice();
            let Grouped { outside, places } = group_outside(
                alloc, groups, rows, frames, outside, runners,
            );
            let opening = Opening {
                opened,
                outside,
                prepared,
                channels,
                workers,
                settled,
            };
            Ok(run_opened(rt, alloc, host, plan, rows, places, opening))
        }
        Err(refused) => {
            let mut opened = opened;
            give_all_unused(rt, host, prepared.wishes.as_slice(), &mut opened);
            Err(name_error(refused))
        }
    }
}

/// Runs the agent of a plan, whose interceptors and sinks take these objects, to its end. It is refused where a name was not told, or a channel, a folder
/// or a listener was not opened; then what was opened came back unused.
pub(crate) fn run_plan<
    'a,
    R: Threads + Wait + Sync + 'a,
    H: Host + 'a,
    K: Interceptor + Send + Drop,
    B: EventSink + Send,
>(
    rt: &'a R,
    alloc: Global,
    host: &mut H,
    plan: &Plan,
    objects: Objects<K, B>,
) -> Result<Ran, RunError>
    requires planned { IsPlanned plan.now }
    requires steps { length objects.steps.items ≡ length (step_asks plan.now.sources.items) }
    requires have { HaveObjects plan.now.sinks.items (reverse objects.sinks.items) }
    ensures refused { IfErr result (λ error. IsRunRefused plan.now (status_of error)
        (record { state = H.state host.old; folders = H.folders host.old })
        (record { state = H.state host.new; folders = H.folders host.new })) }
    ensures ran { IfOk result (λ run. ⟦<RunOf<'a, R, H, K, B> as Steps<K, B>>⟧.steps
        objects.steps.items (reverse objects.sinks.items) plan.now run.ends run.channels.items
        (record { state = H.state host.old; folders = H.folders host.old })
        (record { state = H.state host.new; folders = H.folders host.new })) }
{
    let Objects { steps, sinks } = objects;
    groups_name_what_is_there();
    let rows = rows_of(alloc, plan)?;
    let rows = rows.as_slice();
    let frames = frames_of(alloc, host, plan.groups.as_slice(), rows)?;
    let prepared = prepare::<H, K>(alloc, host, plan, rows, steps)?;
    let listeners = prepared.listeners.len();
    let keepers = prepared.keepers.len();
    let room = room_of(
        alloc,
        plan,
        keepers,
        rows.len(),
        listeners,
        prepared.lines.len(),
    )?;
    match open_channels(rt, alloc, host, prepared.wishes.as_slice()) {
        Ok(opened) => run_channels(
            rt, alloc, host, plan, rows, sinks, frames, opened, prepared, room,
        ),
        Err(ChannelRefused { place, cause }) => {
            Err(cause_error(alloc, &plan.channels[place], cause))
        }
    }
}

/// How a run ended.
#[derive(Drop)]
pub(crate) struct Ended {
    /// The exit status.
    pub status: u8,
    /// Why it is not 0.
    pub error: Option<RunError>,
    /// The channels of a run that began.
    pub channels: Vec<ChannelEnd>,
}

impl Ended {
    // The end of a run that was refused.
    fn refused(alloc: Global, error: RunError) -> Ended
        ensures status { result.status ≡ status_of error }
        ensures error { result.error ≡ Some error }
        ensures none { result.channels.items ≡ [] }
    {
        let status = error.status();
        Ended {
            status,
            error: Some(error),
            channels: Vec::new(alloc),
        }
    }

    // The end of a run whose parts came to this. The status is theirs also where there is no memory for the name of a folder.
    fn of(alloc: Global, plans: &[ChannelPlan], run: Ran) -> Ended
        ensures status { result.status ≡ run_status run.ends }
        ensures error { IsSaid plans.now run.ends.mends.items (run_status run.ends) result.error }
        ensures channels { result.channels ≡ run.channels }
    {
        let Ran { ends, channels } = run;
        let status = ends.status();
        Ended {
            status,
            error: end_error(alloc, plans, ends.mends.as_slice(), status),
            channels,
        }
    }
}

// Why a run with this status did not end well, if it did not.
fn end_error(
    alloc: Global,
    plans: &[ChannelPlan],
    mends: &[Result<bool, OpenCause>],
    status: u8,
) -> Option<RunError>
    requires status { IsRunStatus status }
    ensures { IsSaid plans.now mends.now status result }
{
    match status {
        0 => None,
        3 => Some(RunError::Fault),
        4 => Some(broken_error(alloc, plans, mends)),
        6 => Some(RunError::InputTooLong),
        7 => Some(RunError::LineTooLong),
        _ => Some(RunError::NoMemory),
    }
}

// Why a mend was answered that the channel can't be opened any more, if it was.
fn broken_cause(mended: Result<bool, OpenCause>) -> Option<OpenCause>
    ensures { IsBrokenCause mended result }
{
    match mended {
        Ok(_) | Err(OpenCause::DiskFault | OpenCause::NoMemory) => None,
        Err(cause) => Some(cause),
    }
}

// Why the first channel that can't be opened any more can't be.
fn broken_error(alloc: Global, plans: &[ChannelPlan], mends: &[Result<bool, OpenCause>]) -> RunError
    ensures { IsBrokenError plans.now mends.now result }
{
    let Some((plan, other_plans)) = plans.split_first() else {
        return RunError::NoMemory;
    };
    let Some((mended, others)) = mends.split_first() else {
        return RunError::NoMemory;
    };
    match broken_cause(*mended) {
        Some(cause) => cause_error(alloc, plan, cause),
        None => broken_error(alloc, other_plans, others),
    }
}

// Runs the agent of a plan, whose interceptors and sinks take these objects, and answers how that ended.
fn end_plan<
    'a,
    R: Threads + Wait + Sync + 'a,
    H: Host + 'a,
    K: Interceptor + Send + Drop,
    B: EventSink + Send,
>(rt: &'a R, alloc: Global, host: &mut H, plan: &Plan, objects: Objects<K, B>) -> Ended
    requires planned { IsPlanned plan.now }
    requires steps { length objects.steps.items ≡ length (step_asks plan.now.sources.items) }
    requires have { HaveObjects plan.now.sinks.items (reverse objects.sinks.items) }
    ensures ends { IsRunStatus result.status }
    ensures ran { EndsAs (⟦<RunOf<'a, R, H, K, B> as Runs<K, B>>⟧.ran objects.steps.items
        (reverse objects.sinks.items))
        plan.now result.status result.channels.items
        (record { state = H.state host.old; folders = H.folders host.old })
        (record { state = H.state host.new; folders = H.folders host.new }) }
{
    steps_are_told::<'a, R, H, K, B>();
    match run_plan::<R, H, K, B>(rt, alloc, host, plan, objects) {
        Ok(done) => Ended::of(alloc, plan.channels.as_slice(), done),
        Err(error) => Ended::refused(alloc, error),
    }
}

/// `agent -n NAME -f FILE`: runs the agent `NAME` of the configuration file `FILE`, whose interceptors and sinks take the objects that they
/// ask for out of what is handed in, and answers the exit status, and why it is not 0.
pub(crate) fn run_named<
    'a,
    R: Threads + Wait + Sync + 'a,
    H: Host + 'a,
    K: Interceptor + Send + Drop,
    B: EventSink + Send,
>(
    rt: &'a R,
    alloc: Global,
    agent: &str,
    file: &str,
    handed: &mut HandedIn<K, B>,
    host: &mut H,
) -> Ended
    ensures ends { AgentEnds (lacking handed.old)
        ((H.state host.old).files file.now) agent.now result.status }
    ensures ran { AgentEndsAs (lacking handed.old)
        (WithObjects ⟦<RunOf<'a, R, H, K, B> as Runs<K, B>>⟧.ran handed.old)
        ((H.state host.old).files file.now) agent.now result.status result.channels.items
        (record { state = H.state host.old; folders = H.folders host.old })
        (record { state = H.state host.new; folders = H.folders host.new }) }
{
    match plan_agent(alloc, agent, file, handed, host) {
        Ok(Planned { plan, objects }) => end_plan::<R, H, K, B>(rt, alloc, host, &plan, objects),
        Err(error) => Ended::refused(alloc, error),
    }
}
