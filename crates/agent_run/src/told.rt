// What the steps of a run come to.
ghost use Rattle.std.specs.Prelude.{List, Option};
ghost use Rattle.channel_wishes.specs.Openings.{HostTold};
ghost use Rattle.agent_end.specs.declared.ends.RunEnds.{RunEnds};
ghost use Rattle.agent_plan.specs.declared.plan.Plan.{Plan};
ghost use Rattle.agent_run.specs.FoldersTold.{FoldersAreApart};
ghost use Rattle.run_opening.specs.Prepared.{IsPlanned};
ghost use Rattle.run_opening.specs.declared.channel_end.ChannelEnd.{ChannelEnd};

use crate::laws::{lines_stay_told, runs_are_told, workers_ran};
use crate::through::{RunOf, RunnerOf, Runs, SinkOf, Steps, Tells};
use avro_requests::requests_are_on_links;
use file_channel::FileChannel;
use flume_host::{Dialer, Host};
use grouped_sinks::{rows_are_apart, runners_split};
use memory_channel::MemoryChannel;
use netcat_source::one_cut;
use plan_laws::{groups_name_what_is_there, sinks_stand_once};
use plug_in::{EventSink, Interceptor};
use roll_sink::delivered_batches_are_in_files;
use std::sync::Wait;
use std::thread::Threads;

/// What the workers of a run called is told of in full when its channels are closed, that of a worker of lines stays told, and where the
/// status is 0 they ran to the end of standard input.
pub(crate) fn run_is_told<
    'a,
    R: Threads + Wait + Sync + 'a,
    H: Host + 'a,
    K: Interceptor + Send + Drop,
    B: EventSink + Send,
>()
    ensures in_full { ⟦<RunOf<'a, R, H, K, B> as Tells>⟧.in_full }
    ensures lines { ⟦<RunOf<'a, R, H, K, B> as Tells>⟧.lines }
    ensures well { ⟦<RunOf<'a, R, H, K, B> as Tells>⟧.well }
{
    runs_are_told::<
        'a,
        R,
        FileChannel<H::Disk>,
        MemoryChannel,
        RunnerOf<H, B>,
        H::Listener,
        H::Source,
        H::Sink,
        H::Clock,
        K,
    >();
    lines_stay_told::<
        'a,
        R,
        FileChannel<H::Disk>,
        MemoryChannel,
        RunnerOf<H, B>,
        H::Listener,
        H::Source,
        H::Sink,
        H::Clock,
        K,
    >();
    workers_ran::<
        'a,
        R,
        FileChannel<H::Disk>,
        MemoryChannel,
        RunnerOf<H, B>,
        H::Listener,
        H::Source,
        H::Sink,
        H::Clock,
        K,
    >();
}

/// What the steps of a run come to: in all calls of its channels those of each worker are told of, each batch that the calls of a row of
/// sinks commit was taken by one of these, the folders of rolled files and the links of Avro sinks have what their sinks took, sinks that
/// were handed in were handed what they took, and the status has its causes. At status 0 it is told what the channels' folders hold, what
/// the report says, which rows emptied their channels, and what was said on standard input and output.
pub fn steps_are_told<
    'a,
    R: Threads + Wait + Sync + 'a,
    H: Host + 'a,
    K: Interceptor + Send + Drop,
    B: EventSink + Send,
>()
    ensures { (given : List K) (objects : List (Option B)) (plan : Plan)
        (ends : RunEnds) (channels : List ChannelEnd) (a b : HostTold) → IsPlanned plan
        → ⟦<RunOf<'a, R, H, K, B> as Steps<K, B>>⟧.steps given objects plan ends channels a b
        → ⟦<RunOf<'a, R, H, K, B> as Runs<K, B>>⟧.ran given objects plan ends channels a b }
{
    run_is_told::<'a, R, H, K, B>();
    groups_name_what_is_there();
    sinks_stand_once();
    rows_are_apart();
    runners_split::<SinkOf<H, B>, H::Random>();
    delivered_batches_are_in_files();
    requests_are_on_links::<H::Dialer, <<H as Host>::Dialer as Dialer>::Link>();
    one_cut();
}

/// No two channels of a plan are in one folder.
pub fn folders_are_apart()
    ensures { (plan : Plan) → IsPlanned plan → FoldersAreApart plan.channels.items }
{}
