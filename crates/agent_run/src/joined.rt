// The workers of a run, up to their join, and how its channels are settled then.
ghost use Rattle.std.specs.Prelude.{◌≡◌, All, length, map};
ghost use Rattle.agent_outside.specs.Ends.{AreOut, ListensAt, end_at};
ghost use Rattle.run_tracks.specs.Dealt.{AreDealt};
ghost use Rattle.run_tracks.specs.Homes.{AreHomes, EachTook};
ghost use Rattle.run_tracks.specs.Places.{Zips};
ghost use Rattle.sink_worker.specs.Rounds.{told};
ghost use Rattle.source_worker.specs.Workers.{heard_of};
ghost use Rattle.line_worker.specs.Workers.{talk_of};
ghost use Rattle.channel_lock.specs.Turns.{HasAll};
ghost use Rattle.two_channels.specs.Shares.{table_of};
ghost use Rattle.run_settling.specs.Draining.{HasOwn, HasRoom, IsSinkHome};
ghost use Rattle.agent_run.specs.Joined.{HaveReturned, IsButStreams, IsSameEnd};
ghost use Rattle.run_opening.specs.Lists.{IsEmptyFor};
ghost use Rattle.run_opening.specs.Outside.{AreFrom};
ghost use Rattle.run_staff.specs.Jobs.{AreNew, AreOnDisks, AreWorkers, CanRun, HaveRoom, owners_of};
ghost use Rattle.run_working.specs.Runs.{runs};

use crate::through::{
    JoinedOf, Joins, ReturnedOf, RunOf, SettledOf, Settles, ShareOf, SinkHomeOf, WorkersOf,
};
use agent_outside::SourceListener;
use agent_plan::SourcePlan;
use channel_face::{Channel, Durable};
use crew::{DrainWorker, Work};
use flume_host::{Clock, Host, Listener, Sink, Source};
use keep_worker::KeepWorker;
use line_worker::LineWorker;
use plug_in::{EventSink, Interceptor};
use run_opening::{StreamsEnded, give_listeners, keep_streams};
use run_settling::{AtHome, settle};
use run_staff::{Returned, Workers};
use run_working::run_workers;
use shared_channel::Pass;
use sink_worker::SinkWorker;
use source_worker::ListenWorker;
use std::alloc::Global;
use std::sync::Wait;
use std::thread::Threads;
use two_channels::{EitherPort, EitherShared};

/// The sinks of a run after it, and what ended the reading of standard input.
#[derive(Drop)]
pub(crate) struct Joined<S, C> {
    /// The sinks, each with the number of its pass.
    pub sinks: Vec<SinkWorker<AtHome, S, C>>,
    /// What ended the reading of standard input.
    pub streams: StreamsEnded,
}

// Runs the workers. Where there is no memory for it, all come back as they were. Each listener that comes back is of the address
// and port of its worker's, and as many sinks come back as there were.
fn run_jobs<
    'a,
    R: Threads + Wait + Sync + 'a,
    A: Durable + Drop + Send + 'a,
    B: Channel + Drop + Send + 'a,
    S: EventSink + Send,
    N: Listener + Send + Drop,
    I: Source + Send + Drop,
    O: Sink + Send + Drop,
    C: Clock + Send + Drop,
    K: Interceptor + Send,
>(
    rt: &'a R,
    alloc: Global,
    shares: &'a [EitherShared<A, B>],
    homes: &mut [Pass],
    jobs: Workers<Pass, S, N, I, O, C, K>,
    returned: Returned<S, N, I, O, C>,
) -> Returned<S, N, I, O, C>
    requires homes { AreHomes table_of shares.now homes.old }
    requires jobs { AreWorkers table_of shares.now (λ pass. pass) jobs }
    requires fit { CanRun jobs }
    requires disks { AreOnDisks shares.now jobs }
    requires new { AreNew jobs }
    requires room { HaveRoom jobs returned }
    ensures homes { AreHomes table_of shares.now homes.new }
    ensures kept { EachTook homes.old homes.new }
    ensures all { AreDealt homes.old (owners_of jobs) → All (λ p. HasAll p.view) homes.new }
    ensures home { All (IsSinkHome homes.new) result.sinks.items }
    ensures many { length result.sinks.items ≡ length jobs.sinks.items }
    ensures back { HaveReturned
        (runs ⟦<KeepWorker<EitherPort<'a, R, A, B>, C> as Work>⟧.ran
        ⟦<SinkWorker<EitherPort<'a, R, A, B>, S, C> as Work>⟧.ran
        ⟦<ListenWorker<EitherPort<'a, R, A, B>, N, C, K> as Work>⟧.ran
        ⟦<DrainWorker<I> as Work>⟧.ran
        ⟦<LineWorker<EitherPort<'a, R, A, B>, I, O, C, K> as Work>⟧.ran)
        (told S.delivers S.faults) K.intercepts C.moments (heard_of N.told N.faults N.waits)
        (talk_of I.left I.faults O.took O.handed O.faults) shares.now homes.new jobs result }
    ensures ends { Zips (IsSameEnd N.endpoint) jobs.listeners.items result.listeners.items }
{
    let mut back = returned;
    let _ = run_workers(rt, alloc, shares, homes, jobs, &mut back);
    back
}

/// Runs the workers, and gives back what they had of the streams and the listeners: those of the sources at these places. The lists
/// have room. Where there is no memory for the run, all come back as they were.
pub(crate) fn run_crew<
    'a,
    R: Threads + Wait + Sync + 'a,
    H: Host + 'a,
    K: Interceptor + Send + Drop,
    B: EventSink + Send,
>(
    rt: &'a R,
    alloc: Global,
    host: &mut H,
    sources: &[SourcePlan],
    places: &[usize],
    shares: &'a [ShareOf<H>],
    homes: &mut [Pass],
    jobs: WorkersOf<H, K, B>,
    returned: ReturnedOf<H, B>,
    named: Vec<SourceListener<H::Listener>>,
) -> JoinedOf<H, B>
    requires homes { AreHomes table_of shares.now homes.old }
    requires jobs { AreWorkers table_of shares.now (λ pass. pass) jobs }
    requires fit { CanRun jobs }
    requires disks { AreOnDisks shares.now jobs }
    requires new { AreNew jobs }
    requires room { HaveRoom jobs returned }
    requires from { AreFrom H.Listener.endpoint sources.now places.now
        (map (λ job. job.listener) jobs.listeners.items) }
    requires listen { All (ListensAt sources.now) places.now }
    requires out { AreOut (map (end_at sources.now) places.now) (H.state host.old).listeners }
    requires named { IsEmptyFor (length places.now) named }
    ensures homes { AreHomes table_of shares.now homes.new }
    ensures kept { EachTook homes.old homes.new }
    ensures all { AreDealt homes.old (owners_of jobs) → All (λ p. HasAll p.view) homes.new }
    ensures home { All (IsSinkHome homes.new) result.sinks.items }
    ensures many { length result.sinks.items ≡ length jobs.sinks.items }
    ensures joined { ⟦<RunOf<'a, R, H, K, B> as Joins<ShareOf<H>, WorkersOf<H, K, B>, JoinedOf<H, B>>>⟧.joins
        sources.now places.now shares.now homes.new jobs result (H.state host.old) (H.state host.new) }
    ensures rest { IsButStreams (H.state host.old) (H.state host.new) }
    ensures folders { H.folders host.new ≡ H.folders host.old }
{
    let Returned {
        sinks,
        listeners,
        drains,
        lines,
    } = run_jobs(rt, alloc, shares, homes, jobs, returned);
    let streams = keep_streams(host, drains, lines);
    give_listeners(host, sources, places, listeners, named);
    Joined { sinks, streams }
}

/// After the join of the workers each sink empties its channel; then each channel of which it is said so is kept; then each is mended,
/// counted and closed. The lists of `room` have room.
pub(crate) fn settle_run<
    'a,
    R: Threads + Wait + Sync + 'a,
    H: Host + 'a,
    K: Interceptor + Send + Drop,
    B: EventSink + Send,
>(
    rt: &'a R,
    shares: Vec<ShareOf<H>>,
    homes: Vec<Pass>,
    sinks: Vec<SinkHomeOf<H, B>>,
    keeps: &[bool],
    room: SettledOf<H, B>,
) -> SettledOf<H, B>
    requires homes { AreHomes table_of shares.items homes.items }
    requires all { All (λ p. HasAll p.view) homes.items }
    requires own { All HasOwn homes.items }
    requires sinks { All (IsSinkHome homes.items) sinks.items }
    requires ends { HasRoom sinks.items room.ends }
    requires back { HasRoom sinks.items room.sinks }
    requires mends { length room.mends.items ≡ length homes.items }
    requires report { length room.report.items ≡ length homes.items }
    requires keeps { length keeps.now ≡ length homes.items }
    requires closed { HasRoom homes.items room.closed }
    ensures settled { ⟦<RunOf<'a, R, H, K, B> as Settles<ShareOf<H>, SinkHomeOf<H, B>, SettledOf<H, B>>>⟧.settles
        shares.items homes.items sinks.items keeps.now room.report.items result }
{
    settle(rt, shares, homes, sinks, keeps, room)
}
