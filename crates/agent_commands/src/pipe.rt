// `pipe DIR`: standard input is one session into the file channel of a folder.
ghost use Rattle.std.specs.Prelude.{◌≡◌, ◌≢◌, ◌≤◌, ◌∷◌, [], IfErr, IfOk, MatchOption, None, length, true, ◌<◌};
ghost use Rattle.flume_host.specs.HostState.{ButDisk};
ghost use Rattle.agent_words.specs.Statuses.{status_of};
ghost use Rattle.channel_face.specs.History.{Opening};
ghost use Rattle.file_channel.specs.Stands.{opened_as};
ghost use Rattle.line_session.specs.Sessions.{Served, ends_of};
ghost use Rattle.agent_commands.specs.Handled.{ends_run};
ghost use Rattle.agent_commands.specs.Piped.{HostCause, Piped, IsPipeStatus, pipe_status};
ghost use Rattle.agent_commands.specs.Puts.{BeginsOver, IsFirstPass, PutsLine, begin_verdict, put_verdict, verdict_of};
ghost use Rattle.agent_commands.specs.Trails.{StandsTraced, traced_by};

use crate::errors::say_error;
use crate::traced::{TracedChannel, default_limits};
use agent_words::RunError;
use channel_face::{BeginRefused, Channel, FaceRefused, OpenCause, PutFace, PutRefused};
use file_channel::OpenRefused;
use flume_host::{Disk, Host, NameRefused};
use line_session::{LineStore, SessionEnd, serve_lines};
use netcat_source::{LineRules, LineVerdict, batch_of};
use shared_channel::{Closed, Pass, Port, Shared, Unshared};
use std::alloc::{AllocError, Global};
use std::snapshot::Snapshot;
use std::sync::Wait;

/// What a run of `pipe` ended with.
#[derive(Clone, Copy, Debug, PartialEq, Eq)]
pub enum PipeEnd {
    /// The session on standard input and output ended.
    Served(SessionEnd),
    /// The folder was not opened, or its channel not shared, and no line was read.
    Unopened(OpenCause),
}

/// A run of `pipe`.
#[derive(Drop)]
pub struct PipeRun {
    /// What ended it.
    pub end: PipeEnd,
    /// The pass of the channel, if it was shared. It has seen all calls.
    pub pass: Option<Pass>,
}

impl PipeRun {
    // An end before any line.
    fn unopened(cause: OpenCause) -> PipeRun
        ensures { result ≡ record { end = PipeEnd.Unopened cause; pass = None } }
    {
        PipeRun {
            end: PipeEnd::Unopened(cause),
            pass: None,
        }
    }
}

// A run on a disk, which comes back.
#[derive(Drop)]
struct DiskRun<D> {
    run: PipeRun,
    disk: D,
}

// Each line is answered, and `max-line-length` is the default.
const RULES: LineRules = LineRules {
    max: 512,
    ack: true,
};

// One session on standard input and output.
fn serve<'a, R: Wait, H: Host>(
    alloc: Global,
    host: &mut H,
    lines: &mut PassLines<'a, R, TracedChannel<H::Disk>>,
) -> SessionEnd
    ensures served { Served 512 true ends_run (PutsLine (traced_by H.Disk.told H.Disk.faults))
        (ends_of (H.state host.old).input lines.old.port.pass (H.state host.old).output)
        (ends_of (H.state host.new).input lines.new.port.pass (H.state host.new).output) result }
    ensures cause { HostCause result (H.state host.old).faults (H.state host.new).faults }
    ensures later { (H.state host.old).faults ≤ (H.state host.new).faults }
    ensures handed { result ≢ SessionEnd.WriteFault
        → (H.state host.new).handed ≡ (H.state host.new).output }
    ensures disks { (H.state host.new).disk_faults ≡ (H.state host.old).disk_faults }
    ensures folders { H.folders host.new ≡ H.folders host.old }
{
    let mut source = host.take_input();
    let mut sink = host.take_output();
    let end = serve_lines(alloc, &mut source, lines, &mut sink, &RULES);
    host.keep_input(source);
    host.keep_output(sink);
    end
}

// The same through a pass.
fn serve_pass<R: Wait, H: Host>(
    rt: &R,
    alloc: Global,
    host: &mut H,
    shared: &Shared<TracedChannel<H::Disk>>,
    pass: Pass,
) -> (SessionEnd, Pass)
    requires { pass.table_id ≡ shared.now.turn.table.shared.table_id }
    ensures served { Served 512 true ends_run (PutsLine (traced_by H.Disk.told H.Disk.faults))
        (ends_of (H.state host.old).input pass (H.state host.old).output)
        (ends_of (H.state host.new).input result.1 (H.state host.new).output) result.0 }
    ensures same { result.1.table_id ≡ pass.table_id }
    ensures cause { HostCause result.0 (H.state host.old).faults (H.state host.new).faults }
    ensures later { (H.state host.old).faults ≤ (H.state host.new).faults }
    ensures handed { result.0 ≢ SessionEnd.WriteFault
        → (H.state host.new).handed ≡ (H.state host.new).output }
    ensures disks { (H.state host.new).disk_faults ≡ (H.state host.old).disk_faults }
    ensures folders { H.folders host.new ≡ H.folders host.old }
{
    let mut lines = PassLines {
        alloc,
        port: Port::new(rt, shared, pass),
    };
    let end = serve(alloc, host, &mut lines);
    let PassLines { alloc: _, port } = lines;
    (end, port.give_back())
}

// Serves one session through the only pass of a channel, and closes it.
fn pipe_pass<R: Wait, H: Host>(
    rt: &R,
    alloc: Global,
    host: &mut H,
    shared: Shared<TracedChannel<H::Disk>>,
    pass: Pass,
    before: Snapshot<H::Disk>,
) -> DiskRun<H::Disk>
    requires table { pass.table_id ≡ shared.turn.table.shared.table_id }
    requires first { IsFirstPass shared.turn.table.shared.table_id pass (H.Disk.told before.value)
        (H.Disk.faults before.value) }
    ensures piped { Piped (H.state host.old) (H.state host.new) (H.Disk.told before.value)
        (H.Disk.told result.disk) (H.Disk.faults before.value) (H.Disk.faults result.disk)
        (pipe_status result.run.end) result.run.pass }
    ensures status { IsPipeStatus (pipe_status result.run.end) }
    ensures folders { H.folders host.new ≡ H.folders host.old }
    ensures disks { (H.state host.new).disk_faults ≡ (H.state host.old).disk_faults }
    ensures later { (H.state host.old).faults ≤ (H.state host.new).faults }
    ensures disk_later { H.Disk.faults before.value ≤ H.Disk.faults result.disk }
{
    let _ = before;
    let (end, pass) = serve_pass(rt, alloc, host, &shared, pass);
    let Closed { channel, pass } = shared.close(rt, pass);
    let disk = channel.close();
    let run = PipeRun {
        end: PipeEnd::Served(end),
        pass: Some(pass),
    };
    DiskRun { run, disk }
}

// The only pass of a channel.
fn only(passes: Vec<Pass>) -> Pass
    requires { length passes.items ≡ 1 }
    ensures { passes.items ≡ result ∷ [] }
{
    let mut list = passes;
    let Some(pass) = list.pop() else {
        unreachable!()
    };
    pass
}

// Shares a channel that was opened on a disk that was so before, with one pass. Where memory runs out, the channel comes back.
pub(crate) fn share<D: Disk + Drop>(
    alloc: Global,
    channel: TracedChannel<D>,
    before: &Snapshot<D>,
) -> Result<(Shared<TracedChannel<D>>, Pass), TracedChannel<D>>
    ghost start: { Opening }
    requires stands { StandsTraced (D.told channel.channel.0) (D.faults channel.channel.0)
        channel.channel.1 start [] }
    requires begins { BeginsOver (D.told before.now.value) start }
    requires faults { start.faults ≡ D.faults before.now.value }
    ensures table { IfOk result (λ r. r.1.table_id ≡ r.0.turn.table.shared.table_id) }
    ensures first { IfOk result
        (λ r. IsFirstPass r.0.turn.table.shared.table_id r.1 (D.told before.now.value)
        (D.faults before.now.value)) }
    ensures base { IfOk result (λ r. r.1.view.base ≡ start) }
    ensures back { IfErr result (λ c. c ≡ channel) }
{
    let _ = before;
    match Shared::new(alloc, channel, 1) {
        Ok((shared, passes)) => Ok((shared, only(passes))),
        Err(Unshared { channel }) => Err(channel),
    }
}

// `pipe` through a channel that was opened on a disk that was so before.
fn pipe_through<R: Wait, H: Host>(
    rt: &R,
    alloc: Global,
    host: &mut H,
    channel: TracedChannel<H::Disk>,
    before: Snapshot<H::Disk>,
) -> DiskRun<H::Disk>
    requires stands { StandsTraced (H.Disk.told channel.channel.0)
        (H.Disk.faults channel.channel.0) channel.channel.1
        (opened_as (H.Disk.told before.value) (H.Disk.faults before.value)
        (H.Disk.told channel.channel.0) channel.channel.1) [] }
    requires begins { BeginsOver (H.Disk.told before.value)
        (opened_as (H.Disk.told before.value) (H.Disk.faults before.value)
        (H.Disk.told channel.channel.0) channel.channel.1) }
    ensures piped { Piped (H.state host.old) (H.state host.new) (H.Disk.told before.value)
        (H.Disk.told result.disk) (H.Disk.faults before.value) (H.Disk.faults result.disk)
        (pipe_status result.run.end) result.run.pass }
    ensures status { IsPipeStatus (pipe_status result.run.end) }
    ensures folders { H.folders host.new ≡ H.folders host.old }
    ensures disks { (H.state host.new).disk_faults ≡ (H.state host.old).disk_faults }
    ensures later { (H.state host.old).faults ≤ (H.state host.new).faults }
    ensures disk_later { H.Disk.faults before.value ≤ H.Disk.faults result.disk }
{
    match share(alloc, channel, &before) {
        Ok((shared, pass)) => pipe_pass(rt, alloc, host, shared, pass, before),
        Err(channel) => DiskRun {
            run: PipeRun::unopened(OpenCause::NoMemory),
            disk: channel.close(),
        },
    }
}

// `pipe` on the disk of a folder.
fn pipe_on<R: Wait, H: Host>(rt: &R, alloc: Global, host: &mut H, disk: H::Disk) -> DiskRun<H::Disk>
    ensures piped { Piped (H.state host.old) (H.state host.new) (H.Disk.told disk)
        (H.Disk.told result.disk) (H.Disk.faults disk) (H.Disk.faults result.disk)
        (pipe_status result.run.end) result.run.pass }
    ensures status { IsPipeStatus (pipe_status result.run.end) }
    ensures folders { H.folders host.new ≡ H.folders host.old }
    ensures disks { (H.state host.new).disk_faults ≡ (H.state host.old).disk_faults }
    ensures later { (H.state host.old).faults ≤ (H.state host.new).faults }
    ensures disk_later { H.Disk.faults disk ≤ H.Disk.faults result.disk }
{
    let before = Snapshot::of(&disk);
    match TracedChannel::open(alloc, disk) {
        Ok(channel) => pipe_through(rt, alloc, host, channel, before),
        Err(OpenRefused { disk, cause }) => DiskRun {
            run: PipeRun::unopened(cause),
            disk,
        },
    }
}

/// `pipe DIR`: the lines of standard input go into the file channel of the folder, one transaction each, through the only pass
/// of the channel, which comes back once it was shared.
pub fn pipe<R: Wait, H: Host>(rt: &R, alloc: Global, dir: &str, host: &mut H) -> PipeRun
    ensures piped { Piped (H.state host.old) (H.state host.new)
        ((H.folders host.old).disks dir.now) ((H.folders host.new).disks dir.now)
        (H.state host.old).disk_faults (H.state host.new).disk_faults
        (pipe_status result.end) result.pass }
    ensures status { IsPipeStatus (pipe_status result.end) }
    ensures others { ButDisk dir.now (H.folders host.old) (H.folders host.new) }
{
    match host.open_disk(dir) {
        Ok(disk) => {
            let DiskRun { run, disk } = pipe_on(rt, alloc, host, disk);
            host.keep_disk(dir, disk);
            run
        }
        Err(NameRefused::Failed) => PipeRun::unopened(OpenCause::DiskFault),
        Err(NameRefused::NoMemory) => PipeRun::unopened(OpenCause::NoMemory),
    }
}

// What is said of an event whose transaction was not begun.
fn begin_verdict(refused: BeginRefused) -> LineVerdict
    ensures { result ≡ begin_verdict refused }
{
    match refused {
        BeginRefused::Broken | BeginRefused::TooManyOpen { .. } | BeginRefused::Spent { .. } => {
            LineVerdict::Refused
        }
        BeginRefused::NoMemory => LineVerdict::NoMemory,
    }
}

// What is said of an event that was not put. After a fault of the disk the channel is broken, so it counts as in doubt.
fn put_verdict(refused: PutRefused) -> LineVerdict
    ensures { result ≡ put_verdict refused }
{
    match refused {
        PutRefused::Stale
        | PutRefused::Broken
        | PutRefused::Spent { .. }
        | PutRefused::TxnFull { .. }
        | PutRefused::TooLarge { .. }
        | PutRefused::Full { .. } => LineVerdict::Refused,
        PutRefused::DiskFault => LineVerdict::InDoubt,
        PutRefused::NoMemory => LineVerdict::NoMemory,
    }
}

// What is said of a line, by what its transaction was answered.
fn verdict_of(answer: Result<u64, FaceRefused>) -> LineVerdict
    ensures { result ≡ verdict_of answer }
{
    match answer {
        Ok(_) => LineVerdict::Accepted,
        Err(FaceRefused::Begin(refused)) => begin_verdict(refused),
        Err(FaceRefused::Put(refused)) => put_verdict(refused),
        Err(FaceRefused::Take(_) | FaceRefused::Stage(_)) => LineVerdict::Refused,
        Err(FaceRefused::InDoubt) => LineVerdict::InDoubt,
    }
}

/// The lines of a session go through a port into its channel, each as one event and in a transaction of its own. A line in doubt
/// ends the session, and so does one for which there was no memory.
#[derive(Drop)]
pub struct PassLines<'a, R, C: Channel> {
    /// Where memory comes from.
    pub alloc: Global,
    /// Takes the lines.
    pub port: Port<'a, R, C>,
}

impl<'a, R: Wait, C: Channel> LineStore for PassLines<'a, R, C> {
    ghost use Rattle.agent_commands.specs.Handled.{ends_run};
    ghost use Rattle.agent_commands.specs.Puts.{PutsLine};

    ghost takes = { λ old line said new. PutsLine C.stands old.port.pass line said new.port.pass };

    ghost ready = { λ lines. Unit {0} };

    ghost stops = { ends_run };

    fn take_line(&mut self, line: &[u8]) -> LineVerdict {
        let Ok(batch) = batch_of(self.alloc, line) else {
            return LineVerdict::NoMemory;
        };
        verdict_of(self.port.put_batch(&batch, &[0]))
    }

    fn is_last(&self, verdict: LineVerdict) -> bool {
        match verdict {
            LineVerdict::Accepted | LineVerdict::Refused => false,
            LineVerdict::InDoubt | LineVerdict::NoMemory => true,
        }
    }
}

/// What a run of `pipe` ended with.
#[derive(Drop)]
pub struct PipeEnded {
    /// The exit status.
    pub status: u8,
    /// The pass of the folder's channel, if it was opened and shared. It has seen all calls.
    pub pass: Option<Pass>,
}

// Why a run of `pipe` did not end well, if it did not.
fn pipe_error(alloc: Global, dir: &str, end: PipeEnd) -> Result<Option<RunError>, AllocError>
    ensures { IfOk result (λ error. MatchOption error (pipe_status end ≡ 0)
        (λ e. status_of e ≡ pipe_status end)) }
{
    let error = match end {
        PipeEnd::Served(SessionEnd::End) => return Ok(None),
        PipeEnd::Served(SessionEnd::TooLongLine) => RunError::LineTooLong,
        PipeEnd::Served(SessionEnd::Full) => RunError::InputTooLong,
        PipeEnd::Served(SessionEnd::NoMemory | SessionEnd::Line(LineVerdict::NoMemory)) => {
            RunError::NoMemory
        }
        PipeEnd::Served(SessionEnd::Line(_) | SessionEnd::ReadFault | SessionEnd::WriteFault) =>
            RunError::Fault,
        PipeEnd::Unopened(cause) => {
            RunError::unopened(
                String::from_str(alloc, dir)?,
                default_limits().capacity,
                cause,
            )
        }
    };
    Ok(Some(error))
}

// The exit status of a run of `pipe`.
fn pipe_status(end: PipeEnd) -> u8
    ensures { result ≡ pipe_status end }
{
    match end {
        PipeEnd::Served(SessionEnd::End) => 0,
        PipeEnd::Served(SessionEnd::TooLongLine) => 7,
        PipeEnd::Served(SessionEnd::Full) => 6,
        PipeEnd::Served(SessionEnd::NoMemory | SessionEnd::Line(LineVerdict::NoMemory)) => 5,
        PipeEnd::Served(SessionEnd::Line(_) | SessionEnd::ReadFault | SessionEnd::WriteFault) => 3,
        PipeEnd::Unopened(OpenCause::DiskFault) => 3,
        PipeEnd::Unopened(OpenCause::NoMemory) => 5,
        PipeEnd::Unopened(_) => 4,
    }
}

// Says why a run of `pipe` ended.
fn say_end<H: Host>(alloc: Global, dir: &str, host: &mut H, end: PipeEnd)
    ensures state { H.state host.new ≡ H.state host.old }
    ensures folders { H.folders host.new ≡ H.folders host.old }
{
    match pipe_error(alloc, dir, end) {
        Ok(None) => {}
        Ok(Some(error)) => say_error(alloc, host, &error),
        Err(_) => host.say("flume: no memory"),
    }
}

/// `pipe DIR`, and the line on standard error that tells why it ended, unless all went well.
pub fn run_pipe<R: Wait, H: Host>(rt: &R, alloc: Global, dir: &str, host: &mut H) -> PipeEnded
    ensures piped { Piped (H.state host.old) (H.state host.new)
        ((H.folders host.old).disks dir.now) ((H.folders host.new).disks dir.now)
        (H.state host.old).disk_faults (H.state host.new).disk_faults result.status result.pass }
    ensures status { IsPipeStatus result.status }
    ensures others { ButDisk dir.now (H.folders host.old) (H.folders host.new) }
{
    let PipeRun { end, pass } = pipe(rt, alloc, dir, host);
    say_end(alloc, dir, host, end);
    PipeEnded {
        status: pipe_status(end),
        pass,
    }
}
