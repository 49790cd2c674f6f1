// `load N DIR`: the generator runs on the file channel of a folder.
ghost use Rattle.std.specs.Prelude.{◌≡◌, ◌+◌, ◌≤◌, [], Err, IfOk, None, length};
ghost use Rattle.flume_host.specs.Causes.{RisesWhere};
ghost use Rattle.flume_host.specs.HostState.{ButDisk};
ghost use Rattle.agent_words.specs.Statuses.{status_of};
ghost use Rattle.file_channel.specs.Stands.{opened_as};
ghost use Rattle.agent_commands.specs.Loads.{IsLoadStatus, Loaded, Ran, RanOn, as_cause, face_status, load_status, refused_status, unloaded_status};
ghost use Rattle.agent_commands.specs.Puts.{BeginsOver, IsFirstPass};
ghost use Rattle.agent_commands.specs.Trails.{StandsTraced};

use crate::check::print;
use crate::errors::say_error;
use crate::pipe::share;
use crate::traced::{TracedChannel, default_limits};
use agent_words::RunError;
use channel_face::{
    BeginRefused, Channel, CheckRefused, FaceRefused, OpenCause, PruneRefused, PutRefused,
    StageCause, TakeRefused,
};
use file_channel::OpenRefused;
use flume_host::{Disk, Host, NameRefused};
use load_gen::{LoadRefused, generate};
use shared_channel::{Closed, Pass, Shared};
use std::alloc::{AllocError, Global};
use std::snapshot::Snapshot;
use std::sync::Wait;

/// Why a run of `load` has no summary.
#[derive(Clone, Copy, Debug, PartialEq, Eq)]
pub enum LoadCause {
    /// The folder was not opened, or its channel not shared.
    Unopened(OpenCause),
    /// With all events of the run it would hold so many, which is more than its capacity.
    TooMany {
        /// The events that are left in it, and those of the run.
        count: u64,
    },
    /// The generator was refused.
    Refused(LoadRefused),
}

/// What a run of `load` did on its folder.
#[derive(Drop)]
pub(crate) struct LoadRun {
    /// The summary, or why there is none.
    pub(crate) answer: Result<String, LoadCause>,
    /// The pass of the channel, if it was shared. It has seen all calls.
    pub(crate) pass: Option<Pass>,
}

impl LoadRun {
    // An end before the generator began.
    fn ended(cause: LoadCause) -> LoadRun
        ensures { (result.answer ≡ Err cause) × (result.pass ≡ None) }
    {
        LoadRun {
            answer: Err(cause),
            pass: None,
        }
    }
}

// A run on a disk, which comes back.
#[derive(Drop)]
struct DiskLoad<D> {
    run: LoadRun,
    disk: D,
}

// What the generator answered, as what the run came to.
fn as_cause(answer: Result<String, LoadRefused>) -> Result<String, LoadCause>
    ensures { result ≡ as_cause answer }
{
    match answer {
        Ok(text) => Ok(text),
        Err(refused) => Err(LoadCause::Refused(refused)),
    }
}

// The generator runs through the only pass of a channel, which is then closed.
fn load_pass<R: Wait, D: Disk + Drop>(
    rt: &R,
    alloc: Global,
    n: u32,
    shared: Shared<TracedChannel<D>>,
    pass: Pass,
    before: Snapshot<D>,
) -> DiskLoad<D>
    requires table { pass.table_id ≡ shared.turn.table.shared.table_id }
    requires first { IsFirstPass shared.turn.table.shared.table_id pass (D.told before.value)
        (D.faults before.value) }
    requires room { length pass.view.base.base.items + n ≤ 1_000_000 }
    ensures ran { RanOn n (D.told before.value) (D.told result.disk) result.run.pass
        result.run.answer }
    ensures faults { RisesWhere (load_status result.run.answer ≡ 3) (D.faults before.value)
        (D.faults result.disk) }
{
    let _ = before;
    let mut pass = pass;
    let answer = generate(rt, alloc, &shared, &mut pass, n);
    let Closed { channel, pass } = shared.close(rt, pass);
    let disk = channel.close();
    DiskLoad {
        run: LoadRun {
            answer: as_cause(answer),
            pass: Some(pass),
        },
        disk,
    }
}

// `load` through a channel that was opened on a disk that was so before. It is refused where it would hold too many events.
fn load_through<R: Wait, D: Disk + Drop>(
    rt: &R,
    alloc: Global,
    n: u32,
    channel: TracedChannel<D>,
    before: Snapshot<D>,
) -> DiskLoad<D>
    requires stands { StandsTraced (D.told channel.channel.0)
        (D.faults channel.channel.0) channel.channel.1
        (opened_as (D.told before.value) (D.faults before.value)
        (D.told channel.channel.0) channel.channel.1) [] }
    requires begins { BeginsOver (D.told before.value)
        (opened_as (D.told before.value) (D.faults before.value)
        (D.told channel.channel.0) channel.channel.1) }
    ensures ran { RanOn n (D.told before.value) (D.told result.disk) result.run.pass
        result.run.answer }
    ensures faults { RisesWhere (load_status result.run.answer ≡ 3) (D.faults before.value)
        (D.faults result.disk) }
{
    let count = channel.size().saturating_add(u64::from(n));
    if count > u64::from(default_limits().capacity) {
        return DiskLoad {
            run: LoadRun::ended(LoadCause::TooMany { count }),
            disk: channel.close(),
        };
    }
    match share(alloc, channel, &before) {
        Ok((shared, pass)) => load_pass(rt, alloc, n, shared, pass, before),
        Err(channel) => DiskLoad {
            run: LoadRun::ended(LoadCause::Unopened(OpenCause::NoMemory)),
            disk: channel.close(),
        },
    }
}

// `load` on the disk of a folder.
fn load_on<R: Wait, D: Disk + Drop>(rt: &R, alloc: Global, n: u32, disk: D) -> DiskLoad<D>
    ensures ran { RanOn n (D.told disk) (D.told result.disk) result.run.pass result.run.answer }
    ensures faults { RisesWhere (load_status result.run.answer ≡ 3) (D.faults disk)
        (D.faults result.disk) }
{
    let before = Snapshot::of(&disk);
    match TracedChannel::open(alloc, disk) {
        Ok(channel) => load_through(rt, alloc, n, channel, before),
        Err(OpenRefused { disk, cause }) => DiskLoad {
            run: LoadRun::ended(LoadCause::Unopened(cause)),
            disk,
        },
    }
}

/// The generator of so many events runs on the file channel of a folder, with default limits, through the only pass of the channel.
pub(crate) fn load<R: Wait, H: Host>(
    rt: &R,
    alloc: Global,
    n: u32,
    dir: &str,
    host: &mut H,
) -> LoadRun
    ensures ran { Ran n (H.state host.old) (H.state host.new)
        ((H.folders host.old).disks dir.now) ((H.folders host.new).disks dir.now)
        result.pass result.answer }
    ensures others { ButDisk dir.now (H.folders host.old) (H.folders host.new) }
{
    match host.open_disk(dir) {
        Ok(disk) => {
            let DiskLoad { run, disk } = load_on(rt, alloc, n, disk);
            host.keep_disk(dir, disk);
            run
        }
        Err(NameRefused::Failed) => { LoadRun::ended(LoadCause::Unopened(OpenCause::DiskFault)) }
        Err(NameRefused::NoMemory) => LoadRun::ended(LoadCause::Unopened(OpenCause::NoMemory)),
    }
}

/// What a run of `load` ended with.
#[derive(Drop)]
pub struct LoadEnded {
    /// The exit status.
    pub status: u8,
    /// The pass of the folder's channel, if it was opened and shared. It has seen all calls.
    pub pass: Option<Pass>,
}

// What is said of a generator that the channel of this folder refused in a transaction. A channel that has room and that nobody
// else calls refuses it for no other cause than a fault, a number at its end, a damaged event or out of memory.
fn refused_by(dir: String, refused: FaceRefused) -> RunError
    ensures { status_of result ≡ face_status refused }
{
    match refused {
        FaceRefused::Begin(BeginRefused::Spent { .. })
        | FaceRefused::Put(PutRefused::Spent { .. })
        | FaceRefused::Take(TakeRefused::Spent { .. })
        | FaceRefused::Stage(StageCause::Spent { .. }) => RunError::Spent { dir },
        FaceRefused::Take(TakeRefused::Damaged { .. }) => RunError::Damaged { dir },
        FaceRefused::Begin(BeginRefused::NoMemory)
        | FaceRefused::Put(PutRefused::NoMemory)
        | FaceRefused::Take(TakeRefused::NoMemory) => RunError::NoMemory,
        _ => RunError::Fault,
    }
}

// What is said of a generator that the channel of this folder refused. A channel that was not broken does not break but by a fault.
fn load_refused(dir: String, refused: LoadRefused) -> RunError
    ensures { status_of result ≡ refused_status refused }
{
    match refused {
        LoadRefused::Face(refused) => refused_by(dir, refused),
        LoadRefused::Check(CheckRefused::Spent { .. })
        | LoadRefused::Prune(PruneRefused::Spent { .. }) => RunError::Spent { dir },
        LoadRefused::Check(_) | LoadRefused::Prune(_) => RunError::Fault,
        LoadRefused::NoMemory => RunError::NoMemory,
    }
}

// Why a run of `load` has no summary.
fn load_error(alloc: Global, dir: &str, cause: LoadCause) -> Result<RunError, AllocError>
    ensures { IfOk result (λ error. status_of error ≡ unloaded_status cause) }
{
    let dir = String::from_str(alloc, dir)?;
    let capacity = default_limits().capacity;
    Ok(match cause {
        LoadCause::Unopened(cause) => RunError::unopened(dir, capacity, cause),
        LoadCause::TooMany { count } => RunError::OverCapacity {
            dir,
            count,
            capacity,
        },
        LoadCause::Refused(refused) => load_refused(dir, refused),
    })
}

// The exit status of a run of `load` whose generator was refused so in a transaction.
fn face_status(refused: FaceRefused) -> u8
    ensures { result ≡ face_status refused }
{
    match refused {
        FaceRefused::Begin(BeginRefused::Spent { .. })
        | FaceRefused::Put(PutRefused::Spent { .. })
        | FaceRefused::Take(TakeRefused::Spent { .. } | TakeRefused::Damaged { .. })
        | FaceRefused::Stage(StageCause::Spent { .. }) => 4,
        FaceRefused::Begin(BeginRefused::NoMemory)
        | FaceRefused::Put(PutRefused::NoMemory)
        | FaceRefused::Take(TakeRefused::NoMemory) => 5,
        _ => 3,
    }
}

// The exit status of a run of `load` whose generator was refused so.
fn refused_status(refused: LoadRefused) -> u8
    ensures { result ≡ refused_status refused }
{
    match refused {
        LoadRefused::Face(refused) => face_status(refused),
        LoadRefused::Check(CheckRefused::Spent { .. })
        | LoadRefused::Prune(PruneRefused::Spent { .. }) => 4,
        LoadRefused::Check(_) | LoadRefused::Prune(_) => 3,
        LoadRefused::NoMemory => 5,
    }
}

// The exit status of a run of `load` without a summary.
fn unloaded_status(cause: LoadCause) -> u8
    ensures { result ≡ unloaded_status cause }
{
    match cause {
        LoadCause::Unopened(OpenCause::DiskFault) => 3,
        LoadCause::Unopened(OpenCause::NoMemory) => 5,
        LoadCause::Unopened(_) | LoadCause::TooMany { .. } => 4,
        LoadCause::Refused(refused) => refused_status(refused),
    }
}

// Says why a run of `load` has no summary.
fn say_unloaded<H: Host>(alloc: Global, dir: &str, host: &mut H, cause: LoadCause)
    ensures state { H.state host.new ≡ H.state host.old }
    ensures folders { H.folders host.new ≡ H.folders host.old }
{
    match load_error(alloc, dir, cause) {
        Ok(error) => say_error(alloc, host, &error),
        Err(_) => host.say("flume: no memory"),
    }
}

/// `load N DIR`: the generator of `n` events runs on the folder, and its summary is written to standard output; or there is a line on
/// standard error that tells why not.
pub fn run_load<R: Wait, H: Host>(
    rt: &R,
    alloc: Global,
    n: u32,
    dir: &str,
    host: &mut H,
) -> LoadEnded
    ensures loaded { Loaded n (H.state host.old) (H.state host.new)
        ((H.folders host.old).disks dir.now) ((H.folders host.new).disks dir.now)
        result.status result.pass }
    ensures status { IsLoadStatus result.status }
    ensures others { ButDisk dir.now (H.folders host.old) (H.folders host.new) }
{
    let LoadRun { answer, pass } = load(rt, alloc, n, dir, host);
    match answer {
        Ok(text) => match print(host, text.as_str()) {
            Ok(()) => LoadEnded { status: 0, pass },
            Err(_) => {
                say_error(alloc, host, &RunError::Fault);
                LoadEnded { status: 3, pass }
            }
        },
        Err(cause) => {
            say_unloaded(alloc, dir, host, cause);
            LoadEnded {
                status: unloaded_status(cause),
                pass,
            }
        }
    }
}
