// Laws of what a run answers where nothing failed. These functions do nothing: each states a law.
ghost use Rattle.std.specs.Prelude.{List, Option};
ghost use Rattle.channel_wishes.specs.Openings.{HostTold};
ghost use Rattle.agent_end.specs.declared.ends.RunEnds.{RunEnds};
ghost use Rattle.agent_plan.specs.declared.plan.Plan.{Plan};
ghost use Rattle.line_worker.specs.Workers.{talk_of};
ghost use Rattle.sink_worker.specs.Rounds.{told};
ghost use Rattle.source_worker.specs.Workers.{heard_of};
ghost use Rattle.run_opening.specs.Prepared.{IsPlanned};
ghost use Rattle.sound_runs.specs.SoundRun.{DialoguesAreSound, IsSoundRun, IsUndisturbedRun, IsWellRun, ListenersAreSound, NothingFailed};
ghost use Rattle.run_opening.specs.declared.channel_end.ChannelEnd.{ChannelEnd};

use agent_run::{RunOf, RunnerOf, Runs};
use channel_face::{Channel, Durable};
use file_channel::FileChannel;
use flume_host::{Clock, Disk, Host, Listener, Sink, Source};
use memory_channel::MemoryChannel;
use plug_in::{EventSink, Interceptor};
use sound_lines::lines_are_sound;
use std::sync::Wait;
use std::thread::Threads;

/// Where nothing failed in the channels of a source, each line that standard input brought was answered `OK`, unless there was no memory
/// for it, an interceptor made its event larger than an event may be, or a channel that it has to reach refused it for a limit: it was
/// full, had as many transactions open as may be, had a number at its end, or keeps no event so large. Which of them it was stands in
/// the channel's own history.
pub fn dialogues_are_sound<A: Channel, B: Channel, I: Source, O: Sink, C: Clock, K: Interceptor>()
    ensures { DialoguesAreSound A B I O K.intercepts C.moments }
{
    lines_are_sound::<K>();
}

/// So it is with each line that the links of a netcat source brought, in each of its sessions.
pub fn listeners_are_sound<A: Channel, B: Channel, N: Listener, C: Clock, K: Interceptor>()
    ensures { ListenersAreSound A B K.intercepts C.moments (heard_of N.told N.faults N.waits) }
{}

/// Where the disks of a run's channels had counted no fault when they came back, nothing failed in any of these channels: none was ever
/// broken, each call was answered as the machine answers it, and none of the run's workers touched another's transaction to put.
pub fn nothing_failed<
    D: Disk + Drop,
    M: Channel,
    S: EventSink,
    N: Listener,
    I: Source,
    O: Sink,
    C: Clock,
    K: Interceptor,
>()
    ensures { NothingFailed (told S.delivers S.faults) K.intercepts C.moments
        (heard_of N.told N.faults N.waits) (talk_of I.left I.faults O.took O.handed O.faults) D.told
        D.faults
        ⟦<FileChannel<D> as Channel>⟧.tells ⟦<FileChannel<D> as Channel>⟧.moment
        ⟦<FileChannel<D> as Durable>⟧.is_laid ⟦<FileChannel<D> as Durable>⟧.is_pruned M.stands
        M.tells }
{}

/// Of a run as [`run_agent`](agent_run::run_agent) tells of it: where the host's count of the faults of disks did not rise, nothing
/// failed in any of its channels. Where the host's other count did not rise either, and standard input can be read, the status is 0 or
/// out of memory. Where it ended with the status 0 too, each line that standard input brought was answered `OK`, but for the causes
/// of [`dialogues_are_sound`].
pub fn runs_are_sound<
    'a,
    R: Threads + Wait + Sync + 'a,
    H: Host + 'a,
    K: Interceptor + Send + Drop,
    B: EventSink + Send,
>()
    ensures undisturbed { (given : List K) (objects : List (Option B)) (plan : Plan)
        (ends : RunEnds) (channels : List ChannelEnd) (a b : HostTold) → IsPlanned plan
        → (did : ⟦<RunOf<'a, R, H, K, B> as Runs<K, B>>⟧.ran given objects plan ends channels a b) →
        IsUndisturbedRun did }
    ensures well { (given : List K) (objects : List (Option B)) (plan : Plan)
        (ends : RunEnds) (channels : List ChannelEnd) (a b : HostTold) → IsPlanned plan
        → (did : ⟦<RunOf<'a, R, H, K, B> as Runs<K, B>>⟧.ran given objects plan ends channels a b) →
        IsWellRun did }
    ensures sound { (given : List K) (objects : List (Option B)) (plan : Plan)
        (ends : RunEnds) (channels : List ChannelEnd) (a b : HostTold) → IsPlanned plan
        → (did : ⟦<RunOf<'a, R, H, K, B> as Runs<K, B>>⟧.ran given objects plan ends channels a b) →
        IsSoundRun did }
{
    dialogues_are_sound::<FileChannel<H::Disk>, MemoryChannel, H::Source, H::Sink, H::Clock, K>();
    nothing_failed::<
        H::Disk,
        MemoryChannel,
        RunnerOf<H, B>,
        H::Listener,
        H::Source,
        H::Sink,
        H::Clock,
        K,
    >();
}
