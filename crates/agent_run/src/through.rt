// What a run of an agent does, in one relation.
ghost use Rattle.agent_outside.specs.Listening.{IsFresh};
ghost use Rattle.run_tracks.specs.Closes.{IsClosed};
ghost use Rattle.run_tracks.specs.Stops.{IsKept, IsMended};
ghost use Rattle.sink_worker.specs.Rounds.{told};
ghost use Rattle.source_worker.specs.Workers.{heard_of};
ghost use Rattle.line_worker.specs.Workers.{talk_of};
ghost use Rattle.channel_wishes.specs.Openings.{HostTold};
ghost use Rattle.agent_plan.specs.declared.plan.Plan.{Plan};
ghost use Rattle.agent_end.specs.declared.ends.RunEnds.{RunEnds};
ghost use Rattle.run_opening.specs.declared.channel_end.ChannelEnd.{ChannelEnd};
ghost use Rattle.grouped_sinks.specs.declared.row.SinkRow.{SinkRow};
ghost use Rattle.agent_plan.specs.declared.plan.SourcePlan.{SourcePlan};
ghost use Rattle.channel_face.specs.declared.replies.Counts.{Counts};
ghost use Rattle.flume_host.specs.HostState.{HostState};
ghost use Rattle.shared_channel.specs.Passes.{Known};
ghost use Rattle.std.specs.declared.alloc.Global.{Global};
ghost use Rattle.std.specs.Prelude.{ℕ, Bool, List, Option, String};

use crate::joined::Joined;
use agent_sinks::AgentSink;
use avro_ends::{AvroSink, HasDialer};
use channel_face::{Channel, Durable};
use crew::{DrainWorker, Work};
use file_channel::FileChannel;
use flume_host::Host;
use grouped_sinks::Runner;
use keep_worker::KeepWorker;
use line_worker::LineWorker;
use memory_channel::MemoryChannel;
use plug_in::{EventSink, Interceptor};
use run_opening::Opening;
use run_settling::{AtHome, Settled};
use run_staff::{Returned, Workers};
use shared_channel::Pass;
use sink_worker::SinkWorker;
use source_worker::ListenWorker;
use std::marker::PhantomData;
use std::sync::Wait;
use std::thread::Threads;
use two_channels::{EitherPort, EitherShared};

/// What a run does: which plans came to which ends and channels, from what the host told before to what it told after it.
pub trait Runs<K, B> {
    /// A run of this plan, whose interceptors and sinks took these objects, came to these ends and channels: its steps, and what they come to.
    ghost ran: { List K → List (Option B) → Plan → RunEnds → List ChannelEnd
        → HostTold → HostTold → Type 0 };
}

/// The steps of a run, one after the other.
pub trait Steps<K, B> {
    /// A run of this plan, whose interceptors and sinks took these objects, made its steps, to these ends and channels.
    ghost steps: { List K → List (Option B) → Plan → RunEnds → List ChannelEnd
        → HostTold → HostTold → Type 0 };
}

/// What holds of the workers of each run, whatever it came to.
pub(crate) trait Tells {
    /// What came back of the workers is told of in full once the run's channels are closed.
    ghost in_full: { Type 0 };

    /// What is told of a worker of lines stays told.
    ghost lines: { Type 0 };

    /// Where the status is 0 the workers ran, and the dialogue of a worker of lines came to the end of standard input.
    ghost well: { Type 0 };
}

/// How the workers of a run come back: `W` they were, of channels that are shared as `S`, and `J` is what came of them.
pub(crate) trait Joins<S, W, J> {
    /// The workers of sources at these places, over these channels, came back to these passes at home, from one state of the host to the next.
    ghost joins: { List SourcePlan → List ℕ → List S → List Known → W → J
        → HostState → HostState → Type 0 };
}

/// How a run ends once its workers came back: `S` are its channels, `W` its sinks, and `E` is what they came to.
pub(crate) trait Settles<S, W, E> {
    /// These channels, passes at home and sinks were settled, those channels kept of which it is said, with these names for the report.
    ghost settles: { List S → List Known → List W → List Bool → List (String Global × Counts)
        → E → Type 0 };
}

/// How a run goes on once all of it is opened, `P`.
pub(crate) trait Goes<P> {
    /// The run of this plan, with these rows of sinks, went on from what was opened to these ends and channels.
    ghost goes: { Plan → List SinkRow → P → RunEnds → List ChannelEnd → HostTold → HostTold → Type
        0 };
}

/// Runs over a runtime and a host, with interceptors and sinks of these types that were handed in. There is none of it: it names what their
/// contracts say.
pub struct RunOf<'a, R, H, K, B> {
    runtime: PhantomData<&'a R>,
    host: PhantomData<H>,
    steps: PhantomData<K>,
    sinks: PhantomData<B>,
}

/// The sinks of a run.
pub(crate) type SinkOf<H, B> = AgentSink<<H as Host>::Roll, AvroSink<<H as Host>::Dialer>, B>;

/// What drives the rows of a run's sinks.
pub type RunnerOf<H, B> = Runner<SinkOf<H, B>, <H as Host>::Random>;

/// The ports of a run's channels.
pub(crate) type PortOf<'a, R, H> = EitherPort<'a, R, FileChannel<<H as Host>::Disk>, MemoryChannel>;

/// What a run has once all is opened.
pub(crate) type OpeningOf<H, K, B> = Opening<
    FileChannel<<H as Host>::Disk>,
    MemoryChannel,
    RunnerOf<H, B>,
    <H as Host>::Listener,
    <H as Host>::Source,
    <H as Host>::Sink,
    <H as Host>::Clock,
    K,
>;

/// What the ports of a run's channels share.
pub(crate) type ShareOf<H> = EitherShared<FileChannel<<H as Host>::Disk>, MemoryChannel>;

/// The workers of a run before it.
pub(crate) type WorkersOf<H, K, B> = Workers<
    Pass,
    RunnerOf<H, B>,
    <H as Host>::Listener,
    <H as Host>::Source,
    <H as Host>::Sink,
    <H as Host>::Clock,
    K,
>;

/// What its workers bring back.
pub(crate) type ReturnedOf<H, B> = Returned<
    RunnerOf<H, B>,
    <H as Host>::Listener,
    <H as Host>::Source,
    <H as Host>::Sink,
    <H as Host>::Clock,
>;

/// What comes of its workers.
pub(crate) type JoinedOf<H, B> = Joined<RunnerOf<H, B>, <H as Host>::Clock>;

/// A sink of a run that came home.
pub(crate) type SinkHomeOf<H, B> = SinkWorker<AtHome, RunnerOf<H, B>, <H as Host>::Clock>;

/// What the sinks and channels of a run come to.
pub(crate) type SettledOf<H, B> = Settled<
    RunnerOf<H, B>,
    FileChannel<<H as Host>::Disk>,
    MemoryChannel,
>;

impl<
    'a,
    R: Threads + Wait + Sync + 'a,
    H: Host + 'a,
    K: Interceptor + Send + Drop,
    B: EventSink + Send,
> Joins<ShareOf<H>, WorkersOf<H, K, B>, JoinedOf<H, B>> for RunOf<'a, R, H, K, B> {
    ghost use Rattle.agent_run.specs.Joined.{HaveReturned, IsJoined};
    ghost use Rattle.run_opening.specs.Outside.{AreBack};
    ghost use Rattle.run_opening.specs.Streams.{DrainKept, TalkKept};
    ghost use Rattle.run_working.specs.Runs.{runs};

    ghost joins = { λ sources places shares homes jobs. IsJoined (λ returned. HaveReturned
        (runs ⟦<KeepWorker<PortOf<'a, R, H>, H::Clock> as Work>⟧.ran
        ⟦<SinkWorker<PortOf<'a, R, H>, RunnerOf<H, B>, H::Clock> as Work>⟧.ran
        ⟦<ListenWorker<PortOf<'a, R, H>, H::Listener, H::Clock, K> as Work>⟧.ran
        ⟦<DrainWorker<H::Source> as Work>⟧.ran
        ⟦<LineWorker<PortOf<'a, R, H>, H::Source, H::Sink, H::Clock, K> as Work>⟧.ran)
        (told ⟦<RunnerOf<H, B> as EventSink>⟧.delivers ⟦<RunnerOf<H, B> as EventSink>⟧.faults)
        K.intercepts H.Clock.moments
        (heard_of H.Listener.told H.Listener.faults H.Listener.waits)
        (talk_of H.Source.left H.Source.faults H.Sink.took H.Sink.handed H.Sink.faults)
        shares homes jobs returned)
        (DrainKept H.Source.left H.Source.faults)
        (TalkKept H.Source.left H.Source.faults H.Sink.took H.Sink.handed H.Sink.faults)
        (AreBack H.Listener.told H.Listener.waits H.Listener.faults sources places) };
}

impl<
    'a,
    R: Threads + Wait + Sync + 'a,
    H: Host + 'a,
    K: Interceptor + Send + Drop,
    B: EventSink + Send,
> Settles<ShareOf<H>, SinkHomeOf<H, B>, SettledOf<H, B>> for RunOf<'a, R, H, K, B> {
    ghost use Rattle.run_settling.specs.Draining.{IsDrainedAt};
    ghost use Rattle.run_settling.specs.Settling.{AreSettled};

    ghost settles = { AreSettled (IsDrainedAt
        (told ⟦<RunnerOf<H, B> as EventSink>⟧.delivers ⟦<RunnerOf<H, B> as EventSink>⟧.faults)
        H.Clock.moments)
        (IsKept ⟦<FileChannel<H::Disk> as Channel>⟧.stands
        ⟦<FileChannel<H::Disk> as Channel>⟧.tells ⟦<FileChannel<H::Disk> as Channel>⟧.moment
        ⟦<FileChannel<H::Disk> as Durable>⟧.is_laid ⟦<FileChannel<H::Disk> as Durable>⟧.is_pruned)
        (IsMended ⟦<FileChannel<H::Disk> as Channel>⟧.stands
        ⟦<FileChannel<H::Disk> as Channel>⟧.tells ⟦<FileChannel<H::Disk> as Channel>⟧.moment)
        (IsClosed ⟦<FileChannel<H::Disk> as Channel>⟧.stands
        ⟦<FileChannel<H::Disk> as Channel>⟧.tells
        ⟦<MemoryChannel as Channel>⟧.stands ⟦<MemoryChannel as Channel>⟧.tells) };
}

impl<
    'a,
    R: Threads + Wait + Sync + 'a,
    H: Host + 'a,
    K: Interceptor + Send + Drop,
    B: EventSink + Send,
> Goes<OpeningOf<H, K, B>> for RunOf<'a, R, H, K, B> {
    ghost use Rattle.agent_run.specs.Run.{IsGivenBack};
    ghost use Rattle.run_opening.specs.Staff.{own_talk};
    ghost use Rattle.run_opening.specs.Streams.{AreTaken};
    ghost use Rattle.agent_run.specs.Through.{RanThrough};
    ghost use Rattle.std.specs.Prelude.{map};

    ghost goes = { λ plan rows opening. RanThrough rows opening
        (λ manned. AreTaken H.Source.left H.Source.faults H.Sink.took H.Sink.handed H.Sink.faults
        (map (λ job. own_talk job) manned.crew.jobs.lines.items) manned.crew.jobs.drains.items)
        (λ manned homes. ⟦<RunOf<'a, R, H, K, B> as Joins<ShareOf<H>, WorkersOf<H, K, B>, JoinedOf<H, B>>>⟧.joins
        plan.sources.items manned.places.items manned.crew.shares.items homes manned.crew.jobs)
        ⟦<RunOf<'a, R, H, K, B> as Settles<ShareOf<H>, SinkHomeOf<H, B>, SettledOf<H, B>>>⟧.settles
        (IsGivenBack H.Roll.rolled
        ⟦<AvroSink<H::Dialer> as HasDialer>⟧.dial H.Disk.told H.Disk.faults plan.sinks.items
        rows) };
}

impl<
    'a,
    R: Threads + Wait + Sync + 'a,
    H: Host + 'a,
    K: Interceptor + Send + Drop,
    B: EventSink + Send,
> Steps<K, B> for RunOf<'a, R, H, K, B> {
    ghost use Rattle.run_opening.specs.Outside.{HasRunners, IsOutside};
    ghost use Rattle.run_opening.specs.Prepared.{IsDrafted};
    ghost use Rattle.agent_run.specs.Through.{PlanRan};

    ghost steps = { λ given objects plan ends channels a b.
        PlanRan plan (IsDrafted given a.state.name a.state.address plan)
        (λ rows prepared old new outside. HasRunners (λ sinks. IsOutside H.Roll.rolled H.Roll.faults
        ⟦<AvroSink<H::Dialer> as HasDialer>⟧.dial
        (IsFresh H.Listener.told H.Listener.endpoint H.Listener.waits H.Listener.faults)
        plan objects prepared.places.items old new sinks outside.listeners.items)
        plan.groups.items rows outside.sinks.items)
        (⟦<RunOf<'a, R, H, K, B> as Goes<OpeningOf<H, K, B>>>⟧.goes plan)
        ends channels a b };
}

impl<
    'a,
    R: Threads + Wait + Sync + 'a,
    H: Host + 'a,
    K: Interceptor + Send + Drop,
    B: EventSink + Send,
> Runs<K, B> for RunOf<'a, R, H, K, B> {
    ghost use Rattle.run_opening.specs.Outside.{AreBack, HasRunners, IsOutside};
    ghost use Rattle.run_opening.specs.Prepared.{IsDrafted};
    ghost use Rattle.agent_run.specs.Run.{IsGivenBack};
    ghost use Rattle.agent_run.specs.RunDid.{RunDid};
    ghost use Rattle.run_working.specs.Runs.{runs};

    ghost ran = { λ given objects plan ends channels a b. RunDid
        (runs ⟦<KeepWorker<PortOf<'a, R, H>, H::Clock> as Work>⟧.ran
        ⟦<SinkWorker<PortOf<'a, R, H>, RunnerOf<H, B>, H::Clock> as Work>⟧.ran
        ⟦<ListenWorker<PortOf<'a, R, H>, H::Listener, H::Clock, K> as Work>⟧.ran
        ⟦<DrainWorker<H::Source> as Work>⟧.ran
        ⟦<LineWorker<PortOf<'a, R, H>, H::Source, H::Sink, H::Clock, K> as Work>⟧.ran)
        (told ⟦<RunnerOf<H, B> as EventSink>⟧.delivers ⟦<RunnerOf<H, B> as EventSink>⟧.faults)
        K.intercepts H.Clock.moments
        (heard_of H.Listener.told H.Listener.faults H.Listener.waits)
        H.Source.left H.Source.faults H.Sink.took H.Sink.handed H.Sink.faults
        ⟦<FileChannel<H::Disk> as Channel>⟧.stands ⟦<FileChannel<H::Disk> as Channel>⟧.tells
        ⟦<FileChannel<H::Disk> as Channel>⟧.moment
        ⟦<FileChannel<H::Disk> as Durable>⟧.is_laid ⟦<FileChannel<H::Disk> as Durable>⟧.is_pruned
        ⟦<MemoryChannel as Channel>⟧.stands ⟦<MemoryChannel as Channel>⟧.tells
        plan (IsDrafted given a.state.name a.state.address plan)
        (λ rows prepared old new outside. HasRunners (λ sinks. IsOutside H.Roll.rolled H.Roll.faults
        ⟦<AvroSink<H::Dialer> as HasDialer>⟧.dial
        (IsFresh H.Listener.told H.Listener.endpoint H.Listener.waits H.Listener.faults)
        plan objects prepared.places.items old new sinks outside.listeners.items)
        plan.groups.items rows outside.sinks.items)
        (λ manned. AreBack H.Listener.told H.Listener.waits H.Listener.faults
        plan.sources.items manned.places.items)
        (λ rows. IsGivenBack H.Roll.rolled
        ⟦<AvroSink<H::Dialer> as HasDialer>⟧.dial H.Disk.told H.Disk.faults plan.sinks.items rows)
        B.delivers objects ends channels a b };
}

impl<
    'a,
    R: Threads + Wait + Sync + 'a,
    H: Host + 'a,
    K: Interceptor + Send + Drop,
    B: EventSink + Send,
> Tells for RunOf<'a, R, H, K, B> {
    ghost use Rattle.agent_run.specs.Dialogue.{EndsWell};
    ghost use Rattle.agent_run.specs.Finals.{RunsAreTold};
    ghost use Rattle.run_working.specs.Runs.{runs};
    ghost use Rattle.run_working.specs.Wholes.{LinesStayTold};

    ghost in_full = { RunsAreTold
        (runs ⟦<KeepWorker<PortOf<'a, R, H>, H::Clock> as Work>⟧.ran
        ⟦<SinkWorker<PortOf<'a, R, H>, RunnerOf<H, B>, H::Clock> as Work>⟧.ran
        ⟦<ListenWorker<PortOf<'a, R, H>, H::Listener, H::Clock, K> as Work>⟧.ran
        ⟦<DrainWorker<H::Source> as Work>⟧.ran
        ⟦<LineWorker<PortOf<'a, R, H>, H::Source, H::Sink, H::Clock, K> as Work>⟧.ran)
        (told ⟦<RunnerOf<H, B> as EventSink>⟧.delivers ⟦<RunnerOf<H, B> as EventSink>⟧.faults)
        K.intercepts H.Clock.moments
        (heard_of H.Listener.told H.Listener.faults H.Listener.waits)
        (talk_of H.Source.left H.Source.faults H.Sink.took H.Sink.handed H.Sink.faults)
        ⟦<FileChannel<H::Disk> as Channel>⟧.stands ⟦<FileChannel<H::Disk> as Channel>⟧.tells
        ⟦<FileChannel<H::Disk> as Channel>⟧.moment
        ⟦<FileChannel<H::Disk> as Durable>⟧.is_laid ⟦<FileChannel<H::Disk> as Durable>⟧.is_pruned
        ⟦<MemoryChannel as Channel>⟧.stands ⟦<MemoryChannel as Channel>⟧.tells };

    ghost lines = { LinesStayTold
        (runs ⟦<KeepWorker<PortOf<'a, R, H>, H::Clock> as Work>⟧.ran
        ⟦<SinkWorker<PortOf<'a, R, H>, RunnerOf<H, B>, H::Clock> as Work>⟧.ran
        ⟦<ListenWorker<PortOf<'a, R, H>, H::Listener, H::Clock, K> as Work>⟧.ran
        ⟦<DrainWorker<H::Source> as Work>⟧.ran
        ⟦<LineWorker<PortOf<'a, R, H>, H::Source, H::Sink, H::Clock, K> as Work>⟧.ran)
        K.intercepts H.Clock.moments
        (talk_of H.Source.left H.Source.faults H.Sink.took H.Sink.handed H.Sink.faults) };

    ghost well = { EndsWell
        (runs ⟦<KeepWorker<PortOf<'a, R, H>, H::Clock> as Work>⟧.ran
        ⟦<SinkWorker<PortOf<'a, R, H>, RunnerOf<H, B>, H::Clock> as Work>⟧.ran
        ⟦<ListenWorker<PortOf<'a, R, H>, H::Listener, H::Clock, K> as Work>⟧.ran
        ⟦<DrainWorker<H::Source> as Work>⟧.ran
        ⟦<LineWorker<PortOf<'a, R, H>, H::Source, H::Sink, H::Clock, K> as Work>⟧.ran)
        (told ⟦<RunnerOf<H, B> as EventSink>⟧.delivers ⟦<RunnerOf<H, B> as EventSink>⟧.faults)
        K.intercepts H.Clock.moments
        (heard_of H.Listener.told H.Listener.faults H.Listener.waits)
        H.Source.left H.Source.faults H.Sink.took H.Sink.handed H.Sink.faults };
}
