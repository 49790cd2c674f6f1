// The top call.
ghost use Rattle.std.specs.Prelude.{◌≡◌, ◌≤◌, ◌⊎◌, List, [], ℕ, string_bytes};
ghost use Rattle.std.specs.Vec.{vec_capacity};
ghost use Rattle.flume_host.specs.HostState.{ButDisk};
ghost use Rattle.agent_words.specs.Commands.{IsAgent, IsCheck, IsLoad, IsPipe};
ghost use Rattle.agent_words.specs.Statuses.{status_of};
ghost use Rattle.agent_words.specs.Words.{texts};
ghost use Rattle.agent_run.specs.Named.{AgentEnds};
ghost use Rattle.agent_run.specs.Through.{AgentEndsAs, WithObjects};
ghost use Rattle.plan_objects.specs.Asks.{lacking};
ghost use Rattle.agent_run.specs.Words.{IsNoCommand};
ghost use Rattle.agent_commands.specs.Checked.{Checked, IsCheckStatus};
ghost use Rattle.agent_commands.specs.Loads.{IsLoadStatus};
ghost use Rattle.agent_commands.specs.Piped.{IsPipeStatus};
ghost use Rattle.agent_run.specs.LoadRan.{LoadRan};
ghost use Rattle.agent_run.specs.PipeRan.{IsChannelOf, PipeRan};

use crate::agent::{Ended, run_named};
use crate::outcome::Outcome;
use crate::through::{RunOf, Runs};
use agent_commands::{LoadEnded, PipeEnded, run_check, run_load, run_pipe, say_error};
use agent_words::{Command, RunError, read_words};
use flume_host::Host;
use plan_objects::HandedIn;
use plug_in::{EventSink, Interceptor};
use run_opening::ChannelEnd;
use shared_channel::Pass;
use std::alloc::Global;
use std::sync::Wait;
use std::thread::Threads;

// Says why a run did not end well, if it did not.
fn say_end<H: Host>(alloc: Global, host: &mut H, error: Option<RunError>)
    ensures state { H.state host.new ≡ H.state host.old }
    ensures folders { H.folders host.new ≡ H.folders host.old }
{
    if let Some(error) = error {
        say_error(alloc, host, &error);
    }
}

// `agent -n NAME -f FILE`, and what is said of its end.
fn run_configured<
    'a,
    R: Threads + Wait + Sync + 'a,
    H: Host + 'a,
    K: Interceptor + Send + Drop,
    B: EventSink + Send,
>(
    rt: &'a R,
    alloc: Global,
    agent: &str,
    file: &str,
    handed: &mut HandedIn<K, B>,
    host: &mut H,
) -> Outcome
    ensures ends { AgentEnds (lacking handed.old)
        ((H.state host.old).files file.now) agent.now result.status }
    ensures ran { AgentEndsAs (lacking handed.old)
        (WithObjects ⟦<RunOf<'a, R, H, K, B> as Runs<K, B>>⟧.ran handed.old)
        ((H.state host.old).files file.now) agent.now result.status result.channels.items
        (record { state = H.state host.old; folders = H.folders host.old })
        (record { state = H.state host.new; folders = H.folders host.new }) }
{
    let Ended {
        status,
        error,
        channels,
    } = run_named::<R, H, K, B>(rt, alloc, agent, file, handed, host);
    say_end(alloc, host, error);
    Outcome { status, channels }
}

// Says why nothing was done.
fn refuse<H: Host>(alloc: Global, host: &mut H, error: &RunError) -> Outcome
    ensures status { result.status ≡ status_of error.now }
    ensures state { H.state host.new ≡ H.state host.old }
    ensures folders { H.folders host.new ≡ H.folders host.old }
    ensures channels { result.channels.items ≡ [] }
{
    say_error(alloc, host, error);
    Outcome::ended(alloc, error.status())
}

// The list of the channel of `pipe`, where one was shared: it has the folder's name, and no worker.
fn listed(
    alloc: Global,
    dir: String,
    pass: Option<Pass>,
    channels: Vec<ChannelEnd>,
) -> Vec<ChannelEnd>
    requires none { channels.items ≡ [] }
    requires room { 1 ≤ vec_capacity channels }
    ensures { IsChannelOf (string_bytes dir) pass result.items }
{
    let mut list = channels;
    let Some(pass) = pass else {
        return list;
    };
    list.push_reserved(ChannelEnd {
        name: dir,
        pass,
        workers: Vec::new(alloc),
    });
    list
}

// `pipe DIR`. The list of its one channel is reserved before that is opened, and its name is that of the folder: so it is in the
// outcome once it was shared, whatever the status.
fn run_piped<R: Wait, H: Host>(rt: &R, alloc: Global, dir: String, host: &mut H) -> Outcome
    ensures piped { PipeRan (string_bytes dir) result.status result.channels.items
        (record { state = H.state host.old; folders = H.folders host.old })
        (record { state = H.state host.new; folders = H.folders host.new }) }
    ensures status { IsPipeStatus result.status }
    ensures others { ButDisk (string_bytes dir) (H.folders host.old) (H.folders host.new) }
{
    let Ok(channels) = Vec::with_capacity(alloc, 1) else {
        return refuse(alloc, host, &RunError::NoMemory);
    };
    let PipeEnded { status, pass } = run_pipe(rt, alloc, dir.as_str(), host);
    Outcome {
        status,
        channels: listed(alloc, dir, pass, channels),
    }
}

// `load N DIR`. Its one channel comes back as that of `pipe` does.
fn run_loaded<R: Wait, H: Host>(rt: &R, alloc: Global, n: u32, dir: String, host: &mut H) -> Outcome
    ensures loaded { LoadRan n (string_bytes dir) result.status result.channels.items
        (record { state = H.state host.old; folders = H.folders host.old })
        (record { state = H.state host.new; folders = H.folders host.new }) }
    ensures status { IsLoadStatus result.status }
    ensures others { ButDisk (string_bytes dir) (H.folders host.old) (H.folders host.new) }
{
    let Ok(channels) = Vec::with_capacity(alloc, 1) else {
        return refuse(alloc, host, &RunError::NoMemory);
    };
    let LoadEnded { status, pass } = run_load(rt, alloc, n, dir.as_str(), host);
    Outcome {
        status,
        channels: listed(alloc, dir, pass, channels),
    }
}

/// All that the program does: takes the words after its name, and answers the exit status.
///
/// `pipe DIR` makes each line of standard input one transaction of the file channel in the folder `DIR`, which it opens, and
/// answers `OK` for it once it is on the disk. `check -n NAME -f FILE` reads the configuration file `FILE`, plans the agent `NAME` in it
/// and prints how many components it has. `load N DIR` runs the generator of N events on the folder `DIR`, and prints its summary.
/// `agent -n NAME -f FILE` runs that agent: its sources, channels and sinks, each worker in a thread of its own, until standard input has
/// ended. Each other status than 0 has its line on standard error. The agent's interceptors and sinks take the objects that they ask for out
/// of what is handed in. One that was taken is dropped after its last call, and the others at the end.
pub fn run_agent<
    'a,
    R: Threads + Wait + Sync + 'a,
    H: Host + 'a,
    K: Interceptor + Send + Drop,
    B: EventSink + Send,
>(rt: &'a R, alloc: Global, words: &[String], host: &mut H, plugins: HandedIn<K, B>) -> Outcome
    // The words are a command that runs, or the status is 1 and nothing was touched; out of memory may come before.
    ensures usage { result.status ≡ 1 → IsNoCommand (texts words.now) }
    ensures no_command { IsNoCommand (texts words.now) → (result.status ≡ 1) ⊎ (result.status ≡ 5) }
    ensures nothing { IsNoCommand (texts words.now) → H.state host.new ≡ H.state host.old }
    ensures nothing_opened { IsNoCommand (texts words.now) → H.folders host.new ≡ H.folders
        host.old }

    // What `pipe` read, wrote and stored, and when each status comes; and the folder's channel, once it was opened and shared, with
    // the lines' put transactions in the history of its pass.
    ensures piped { (dir : List ℕ) → IsPipe (texts words.now) dir
        → PipeRan dir result.status result.channels.items
        (record { state = H.state host.old; folders = H.folders host.old })
        (record { state = H.state host.new; folders = H.folders host.new }) }
    ensures pipe_statuses { (dir : List ℕ) → IsPipe (texts words.now) dir → IsPipeStatus
        result.status }
    ensures others { (dir : List ℕ) → IsPipe (texts words.now) dir → ButDisk dir
        (H.folders host.old) (H.folders host.new) }

    // What `check` found in the file and wrote, and when each status comes.
    ensures checked { (agent file : List ℕ) → IsCheck (texts words.now) agent file
        → Checked (lacking plugins)
        ((H.state host.old).files file) agent (H.state host.old) (H.state host.new) result.status }
    ensures check_statuses { (agent file : List ℕ) → IsCheck (texts words.now) agent file →
        IsCheckStatus result.status }
    ensures unopened { (agent file : List ℕ) → IsCheck (texts words.now) agent file → H.folders
        host.new ≡ H.folders host.old }

    // What `load` called, wrote and left of its folder, and when each status comes; and the folder's channel, once it was opened and shared,
    // with the generator's calls as the history of its pass.
    ensures loaded { (n : ℕ) (dir : List ℕ) → IsLoad (texts words.now) n dir
        → LoadRan n dir result.status result.channels.items
        (record { state = H.state host.old; folders = H.folders host.old })
        (record { state = H.state host.new; folders = H.folders host.new }) }
    ensures load_statuses { (n : ℕ) (dir : List ℕ) → IsLoad (texts words.now) n dir → IsLoadStatus
        result.status }
    ensures load_others { (n : ℕ) (dir : List ℕ) → IsLoad (texts words.now) n dir → ButDisk dir
        (H.folders host.old) (H.folders host.new) }

    // What the configuration file of `agent` holds where the status is 2, and which statuses come.
    ensures agent { (name file : List ℕ) → IsAgent (texts words.now) name file
        → AgentEnds (lacking plugins)
        ((H.state host.old).files file) name result.status }

    // What `agent` did, where its run began, and what that comes to: which objects its interceptors and sinks took of those that were handed in; why the
    // status is 3, 4, 6 or 7, and when it is none of these; what each sink took and delivered; at status 0 what is in each folder, what
    // the report says, and what each session and standard input brought in. Where it did not begin, which step refused and why, and what
    // became of the host.
    ensures agent_ran { (name file : List ℕ) → IsAgent (texts words.now) name file
        → AgentEndsAs (lacking plugins)
        (WithObjects ⟦<RunOf<'a, R, H, K, B> as Runs<K, B>>⟧.ran plugins)
        ((H.state host.old).files file) name
        result.status result.channels.items
        (record { state = H.state host.old; folders = H.folders host.old })
        (record { state = H.state host.new; folders = H.folders host.new }) }

    // But by `pipe`, `load` and `agent` no channel comes back.
    ensures channels { ((dir : List ℕ) → ¬ IsPipe (texts words.now) dir)
        → ((n : ℕ) (dir : List ℕ) → ¬ IsLoad (texts words.now) n dir)
        → ((name file : List ℕ) → ¬ IsAgent (texts words.now) name file)
        → result.channels.items ≡ [] }

    // But by `agent` no folder of rolled files was opened, and each is as before.
    ensures rolls { ((name file : List ℕ) → ¬ IsAgent (texts words.now) name file)
        → ((H.folders host.new).rolls ≡ (H.folders host.old).rolls) ×
        ((H.folders host.new).roll_opened ≡ (H.folders host.old).roll_opened) }
{
    let mut handed = plugins;
    match read_words(alloc, words) {
        Ok(Some(Command::Pipe { dir })) => run_piped(rt, alloc, dir, host),
        Ok(Some(Command::Check { name, file })) => {
            let status = run_check(alloc, name.as_str(), file.as_str(), &mut handed, host);
            Outcome::ended(alloc, status)
        }
        Ok(Some(Command::Agent { name, file })) => {
            run_configured(rt, alloc, name.as_str(), file.as_str(), &mut handed, host)
        }
        Ok(Some(Command::Load { n, dir })) => run_loaded(rt, alloc, n, dir, host),
        Ok(None) => refuse(alloc, host, &RunError::Usage),
        Err(_) => refuse(alloc, host, &RunError::NoMemory),
    }
}
