// A folder is opened: it is settled and replayed from its newest checkpoint on, and a log file is begun after those that are there.
ghost use Rattle.std.specs.Prelude.{[], ◌⊎◌, ◌≡◌, ◌<◌, ◌≤◌, ◌+◌, ◌-◌, ◌^◌, Err, IfErr, IfOk, IfSome, IsErrOf, OnErr, OnOk, false, length};
ghost use Rattle.flume_host.specs.Causes.{HasCause, Rose};
ghost use Rattle.flume_host.specs.Told.{Changes, LeavesOnly, Settle, Tells, WhereTold, done};
ghost use Rattle.flume_host.specs.declared.names.FileName.TheVariants.{Log};
ghost use Rattle.event_core.specs.Journal.{IsBase};
ghost use Rattle.channel_face.specs.History.{Opening, opening, reopen_reply};
ghost use Rattle.channel_face.specs.Machine as Face;
ghost use Rattle.channel_face.specs.Machine.{Reopen, Reopened};
ghost use Rattle.channel_face.specs.declared.replies.Counter.{Counter};
ghost use Rattle.channel_face.specs.declared.replies.Kind.TheVariants.{File};
ghost use Rattle.channel_face.specs.declared.replies.OpenCause.{OpenCause};
ghost use Rattle.channel_log.specs.Window.{nothing_kept};
ghost use Rattle.channel_log.specs.Writer.{IsBlank, IsUnused};
ghost use Rattle.channel_log.specs.Writer as writers;
ghost use Rattle.channel_places.specs.Looks.{Known, LookLeft, Looks};
ghost use Rattle.channel_writing.specs.Folders.{FailsToSettle, GainsLog, IsAsBefore, IsBegun, IsNextFile, IsOfFile, IsRefused, Opens, OpensFrom, OpensOver, Refuses, log_name};
ghost use Rattle.channel_writing.specs.Written.{MayRecover};
ghost use Rattle.ring_replay.specs.Folder.{IsReady};
ghost use Rattle.file_channel.specs.Laid.{AreChecks, IsNeeded, IsNewestNamed, IsNextCheck, KeepsChecks};
ghost use Rattle.file_channel.specs.Opened.{AreShort, CountsSteps, FailsToBegin, IsBegunAs, MayRemove, OpensWith, ReplaysTo};
ghost use Rattle.file_channel.specs.Stepped.{ShowsOf, StepsOn};

use crate::channel::OpenRefused;
use crate::checks::{Checks, next_check};
use crate::logged::LoggedPlaces;
use channel_face::{Counter, Limits, OpenCause};
use channel_log::{LAST_FILE, LogBeginRefused, LogWriter};
use channel_places::Held;
use channel_writing::{Writing, last_log, of_opening};
use checkpoint_opening::{NewestCheck, Opened, open_newest};
use event_core::NoMemory;
use flume_host::{Disk, Failed, FileName, Steps};
use ring_replay::Replayed;
use std::alloc::Global;
use std::sync::ledger::Ledger;

/// The birth of a log file that an opening begins.
const BEGUN: u16 = 1;

// What a folder leaves, its newest checkpoint, and the numbers of the log file and of the checkpoint after those that are there.
#[derive(Drop)]
struct Found {
    newest: Option<NewestCheck>,
    replayed: Replayed,
    log: u32,
    check: u64,
}

// The log file of this number.
fn log_name(number: Option<u32>) -> Option<FileName>
    ensures { result ≡ log_name number }
{
    match number {
        Some(number) => Some(FileName::Log(number)),
        None => None,
    }
}

// Measures each log file.
fn measure_logs<D: Disk>(disk: &mut D) -> Result<(), Failed>
    ensures short { OnOk result (WhereTold (D.told disk.old) (λ t. AreShort t.reads)) }
    ensures same { D.told disk.new ≡ D.told disk.old }
    ensures cause { HasCause (D.faults disk.old) (D.faults disk.new) result }
{
    let mut last = None;
    loop {
        match disk.next_name(log_name(last)) {
            Ok(Some(FileName::Log(number))) => match disk.len(FileName::Log(number)) {
                Ok(_) => last = Some(number),
                Err(failed) => return Err(failed),
            },
            Ok(Some(FileName::Check(_))) => return Ok(()),
            Ok(None) => return Ok(()),
            Err(failed) => return Err(failed),
        }
    }
}

// What a folder leaves, by the places of its events, and the numbers of the next files.
fn read_folder<D: Disk, L: Ledger>(
    alloc: Global,
    disk: &mut D,
    capacity: u32,
    steps: &mut Steps<L>,
) -> Result<Found, OpenCause>
    ensures replays { IfOk result
        (λ found. WhereTold (D.told disk.old)
        (λ t. ReplaysTo t.reads found.newest found.replayed)) }
    ensures next { IfOk result
        (λ found. WhereTold (D.told disk.old) (λ t. IsNextFile t.reads found.log)) }
    ensures check { IfOk result
        (λ found. WhereTold (D.told disk.old) (λ t. IsNextCheck t.reads found.check)) }
    ensures ready { IfOk result (λ found. IsReady capacity found.replayed) }
    ensures refused { IfErr result
        (λ cause. WhereTold (D.told disk.old) (λ t. Refuses t.reads capacity cause)) }
    ensures counter { IfErr result IsOfFile }
    ensures ticks { WhereTold (D.told disk.old) (λ t. CountsSteps t.reads steps.old steps.new) }
    ensures same { D.told disk.new ≡ D.told disk.old }
    ensures fault { IsErrOf result OpenCause.DiskFault
        → Rose (D.faults disk.old) (D.faults disk.new) }
    ensures later { D.faults disk.old ≤ D.faults disk.new }
    ensures well { (IsErrOf result OpenCause.DiskFault → ⊥)
        → D.faults disk.new ≡ D.faults disk.old }
{
    let Opened {
        check: newest,
        replayed,
    } = match open_newest(alloc, disk, capacity, steps) {
        Ok(opened) => opened,
        Err(refused) => return Err(of_opening(refused)),
    };
    match measure_logs(disk) {
        Ok(()) => {}
        Err(_) => return Err(OpenCause::DiskFault),
    }
    let check = match next_check(disk) {
        Ok(check) => check,
        Err(_) => return Err(OpenCause::DiskFault),
    };
    match last_log(disk) {
        Ok(None) => Ok(Found {
            newest,
            replayed,
            log: 1,
            check,
        }),
        Ok(Some(last)) => {
            if last == LAST_FILE {
                return Err(OpenCause::Spent {
                    counter: Counter::File,
                });
            }
            Ok(Found {
                newest,
                replayed,
                log: last + 1,
                check,
            })
        }
        Err(_) => Err(OpenCause::DiskFault),
    }
}

// What a channel keeps of the events that a replay left.
fn held_of(alloc: Global, replayed: Replayed, limits: Limits) -> Result<Held, NoMemory>
    requires { IsReady limits.capacity replayed }
    ensures looks { IfOk result (λ held. (settled known : Known) (o : Opening)
        → o.base.first ≡ replayed.next.number → o.txn ≡ replayed.next.txn
        → o.rules ≡ record { kind = File; limits = limits }
        → LookLeft settled [] replayed.ring.live o.base.items → IsBase o.base
        → Looks settled known held (opening o)) }
    ensures opened { IfOk result (λ held. held.opened ≡ []) }
{
    let Replayed { ring, next } = replayed;
    Held::open(alloc, ring, limits, next.number, next.txn)
}

// Settles a folder, and reads what it leaves.
fn settle_folder<D: Disk, L: Ledger>(
    alloc: Global,
    disk: &mut D,
    capacity: u32,
    steps: &mut Steps<L>,
) -> Result<Found, OpenCause>
    ensures settles { OnOk result
        (Tells (D.told disk.old) (D.told disk.new) (λ t u. u ≡ done Settle t)) }
    ensures replays { IfOk result
        (λ found. WhereTold (D.told disk.old)
        (λ t. ReplaysTo t.reads found.newest found.replayed)) }
    ensures next { IfOk result
        (λ found. WhereTold (D.told disk.new) (λ t. IsNextFile t.reads found.log)) }
    ensures check { IfOk result
        (λ found. WhereTold (D.told disk.old) (λ t. IsNextCheck t.reads found.check)) }
    ensures unused { IfOk result (λ found. AreChecks (D.told disk.new)
        (record { next = found.check; laid = found.newest })) }
    ensures ready { IfOk result (λ found. IsReady capacity found.replayed) }
    ensures refused { IfErr result
        (IsRefused (D.told disk.old) (D.told disk.new) (D.faults disk.old) (D.faults disk.new)
        capacity) }
    ensures settled_or { IfErr result
        (λ cause. ((cause ≡ OpenCause.DiskFault)
        × FailsToSettle (D.told disk.old) (D.told disk.new))
        ⊎ Tells (D.told disk.old) (D.told disk.new) OpensFrom) }
    ensures keeps { KeepsChecks (D.told disk.old) (D.told disk.new) }
    ensures ticks { WhereTold (D.told disk.old) (λ t. CountsSteps t.reads steps.old steps.new) }
    ensures well { OnOk result (D.faults disk.new ≡ D.faults disk.old) }
{
    match disk.settle() {
        Ok(()) => {}
        Err(_) => return Err(OpenCause::DiskFault),
    }
    match read_folder(alloc, disk, capacity, steps) {
        Ok(found) => Ok(found),
        Err(cause) => Err(cause),
    }
}

// Removes a log file that could not be begun, where it is there: so the folder of a disk that is full gains no file with each mend.
// The file counts as empty, so nothing rests on what is answered here.
fn remove_unbegun<D: Disk>(disk: &mut D, number: u32)
    ensures removes { Tells (D.told disk.old) (D.told disk.new) (MayRemove number) }
    ensures later { D.faults disk.old ≤ D.faults disk.new }
{
    match disk.next_name(log_name(number.checked_sub(1))) {
        Ok(Some(FileName::Log(found))) if found == number => {
            let _ = disk.remove(FileName::Log(number));
        }
        _ => {}
    }
}

// Begins a log file that has no frame yet. Where the disk fails it is removed again, if that can be.
fn begin_log<D: Disk>(
    alloc: Global,
    disk: &mut D,
    number: u32,
    max_file: u64,
) -> Result<LogWriter, OpenCause>
    requires { IsUnused (D.told disk.old) number }
    ensures writer { IfOk result (λ w. w ≡ record {
      file = number;
      gate = 16;
      max_file = max_file;
      started = false;
      bytes = [];
      count = 0;
      kept = nothing_kept;
    }) }
    ensures any_moment { Tells (D.told disk.old) (D.told disk.new)
        (Changes (Log number) IsBlank 1) }
    ensures begun { OnOk result (writers.IsReady (D.told disk.new) 1 number 16 []) }
    ensures causes { IfErr result
        (λ cause. FailsToBegin cause (D.told disk.old) (D.told disk.new)) }
    ensures fault { IsErrOf result OpenCause.DiskFault
        → Rose (D.faults disk.old) (D.faults disk.new) }
    ensures later { D.faults disk.old ≤ D.faults disk.new }
    ensures well { (IsErrOf result OpenCause.DiskFault → ⊥)
        → D.faults disk.new ≡ D.faults disk.old }
{
    match LogWriter::begin(alloc, disk, number, BEGUN, max_file) {
        Ok(log) => Ok(log),
        Err(LogBeginRefused::DiskFault) => {
            remove_unbegun(disk, number);
            Err(OpenCause::DiskFault)
        }
        Err(LogBeginRefused::NoMemory) => Err(OpenCause::NoMemory),
    }
}

// Settles a folder and reads it, makes what a channel keeps, and begins a log file after those that are there. So out of memory for
// what it keeps comes before that file is made.
fn open_log<D: Disk, L: Ledger>(
    alloc: Global,
    disk: &mut D,
    limits: Limits,
    steps: &mut Steps<L>,
) -> Result<(Held, LogWriter, Checks), OpenCause>
    ensures opens { IfOk result
        (λ found. OpensWith (D.told disk.old) (D.told disk.new) limits
        (record { places = found.0; log = found.1; busy = 0 })) }
    ensures check { IfOk result
        (λ found. WhereTold (D.told disk.old) (λ t. IsNextCheck t.reads found.2.next)) }
    ensures newest { IfOk result
        (λ found. WhereTold (D.told disk.old) (λ t. IsNewestNamed t.reads found.2.laid)) }
    ensures unused { IfOk result (λ found. AreChecks (D.told disk.new) found.2) }
    ensures waits { IfOk result (λ found. length found.1.bytes ≡ 0) }
    ensures gains { OnOk result
        (Tells (D.told disk.old) (D.told disk.new) (λ t u. GainsLog t.reads IsBegun u.reads)) }
    ensures any_moment { OnOk result (Tells (D.told disk.old) (D.told disk.new) OpensOver) }
    ensures settled { OnOk result (Tells (D.told disk.old) (D.told disk.new) OpensFrom) }
    ensures well { OnOk result (D.faults disk.new ≡ D.faults disk.old) }
    ensures refused { IfErr result
        (IsRefused (D.told disk.old) (D.told disk.new) (D.faults disk.old) (D.faults disk.new)
        limits.capacity) }
    ensures settled_or { IfErr result
        (λ cause. ((cause ≡ OpenCause.DiskFault)
        × FailsToSettle (D.told disk.old) (D.told disk.new))
        ⊎ Tells (D.told disk.old) (D.told disk.new) OpensFrom) }
    ensures ticks { WhereTold (D.told disk.old) (λ t. CountsSteps t.reads steps.old steps.new) }
{
    let Found {
        newest,
        replayed,
        log,
        check,
    } = match settle_folder(alloc, disk, limits.capacity, steps) {
        Ok(found) => found,
        Err(cause) => return Err(cause),
    };
    let held = match held_of(alloc, replayed, limits) {
        Ok(held) => held,
        Err(_) => return Err(OpenCause::NoMemory),
    };
    let checks = match Checks::from(alloc, check, newest) {
        Ok(checks) => checks,
        Err(_) => return Err(OpenCause::NoMemory),
    };
    match begin_log(alloc, disk, log, limits.max_file) {
        Ok(log) => Ok((held, log, checks)),
        Err(cause) => Err(cause),
    }
}

// Settles a folder and reads it, and begins a log file after those that are there.
fn reopen_log<D: Disk, L: Ledger>(
    alloc: Global,
    disk: &mut D,
    capacity: u32,
    max_file: u64,
    steps: &mut Steps<L>,
) -> Result<(Replayed, LogWriter, Option<NewestCheck>), OpenCause>
    ensures begun { IfOk result
        (λ found. IsBegunAs (D.told disk.old) (D.told disk.new) capacity max_file found.0 found.1) }
    ensures ready { IfOk result (λ found. IsReady capacity found.0) }
    ensures waits { IfOk result (λ found. length found.1.bytes ≡ 0) }
    ensures newest { IfOk result
        (λ found. WhereTold (D.told disk.old) (λ t. IsNewestNamed t.reads found.2)) }
    ensures needed { IfOk result (λ found. IfSome found.2 (IsNeeded (D.told disk.new))) }
    ensures gains { OnOk result
        (Tells (D.told disk.old) (D.told disk.new) (λ t u. GainsLog t.reads IsBegun u.reads)) }
    ensures stays { OnOk result
        (Tells (D.told disk.old) (D.told disk.new) (λ t u. IsAsBefore t.reads u.reads)) }
    ensures any_moment { OnOk result (Tells (D.told disk.old) (D.told disk.new) OpensOver) }
    ensures well { OnOk result (D.faults disk.new ≡ D.faults disk.old) }
    ensures refused { IfErr result
        (IsRefused (D.told disk.old) (D.told disk.new) (D.faults disk.old) (D.faults disk.new)
        capacity) }
    ensures keeps { KeepsChecks (D.told disk.old) (D.told disk.new) }
    ensures ticks { WhereTold (D.told disk.old) (λ t. CountsSteps t.reads steps.old steps.new) }
{
    let Found {
        newest,
        replayed,
        log,
        check: _,
    } = match settle_folder(alloc, disk, capacity, steps) {
        Ok(found) => found,
        Err(cause) => return Err(cause),
    };
    match begin_log(alloc, disk, log, max_file) {
        Ok(log) => Ok((replayed, log, newest)),
        Err(cause) => Err(cause),
    }
}

impl<D: Disk + Drop> LoggedPlaces<D> {
    /// Opens the folder of a disk: it is settled and replayed, and a log file is begun after those that are there. Its next checkpoint
    /// comes after those that are there.
    pub(crate) fn open<L: Ledger>(
        alloc: Global,
        disk: D,
        limits: Limits,
        steps: &mut Steps<L>,
    ) -> Result<(LoggedPlaces<D>, Checks), OpenRefused<D>>
        ensures opens { IfOk result (λ c. OpensWith (D.told disk) (D.told c.0.0) limits c.0.1) }
        ensures check { IfOk result
            (λ c. WhereTold (D.told disk) (λ t. IsNextCheck t.reads c.1.next)) }
        ensures newest { IfOk result
            (λ c. WhereTold (D.told disk) (λ t. IsNewestNamed t.reads c.1.laid)) }
        ensures unused { IfOk result (λ c. AreChecks (D.told c.0.0) c.1) }
        ensures waits { IfOk result (λ c. length c.0.1.log.bytes ≡ 0) }
        ensures gains { IfOk result
            (λ c. Tells (D.told disk) (D.told c.0.0) (λ t u. GainsLog t.reads IsBegun u.reads)) }
        ensures any_moment { IfOk result (λ c. Tells (D.told disk) (D.told c.0.0) OpensOver) }
        ensures settled { IfOk result (λ c. Tells (D.told disk) (D.told c.0.0) OpensFrom) }
        ensures well { IfOk result (λ c. D.faults c.0.0 ≡ D.faults disk) }
        ensures refused { IfErr result
            (λ refused. IsRefused (D.told disk) (D.told refused.disk) (D.faults disk)
            (D.faults refused.disk) limits.capacity refused.cause) }
        ensures settled_or { IfErr result
            (λ refused. ((refused.cause ≡ OpenCause.DiskFault)
            × FailsToSettle (D.told disk) (D.told refused.disk))
            ⊎ Tells (D.told disk) (D.told refused.disk) OpensFrom) }
        ensures ticks { WhereTold (D.told disk) (λ t. CountsSteps t.reads steps.old steps.new) }
    {
        let mut disk = disk;
        match open_log(alloc, &mut disk, limits, steps) {
            Ok((held, log, checks)) => {
                let writing = Writing {
                    alloc,
                    disk,
                    log,
                    busy: 0,
                };
                Ok((LoggedPlaces { held, writing }, checks))
            }
            Err(cause) => Err(OpenRefused { disk, cause }),
        }
    }

    /// Opens the folder anew, as [`LoggedPlaces::open`] does. What was settled is left, and with it what was staged or nothing of
    /// that. After a refusal the channel is broken and has what it had.
    pub(crate) fn reopen<L: Ledger>(
        &mut self,
        checks: &mut Checks,
        steps: &mut Steps<L>,
    ) -> Result<(), OpenCause>
        requires { AreChecks (D.told self.old.0) checks.old }
        ensures step { (kept : Reopened)
            × StepsOn (D.told self.old.0) (D.told self.new.0) self.old.1 self.new.1
            (Reopen (reopen_reply result kept)) }
        ensures spent { ShowsOf (D.told self.old.0) self.old.1
            (λ s. 2 ^ 64 - 1 ≤ s.life → (result ≡ Err (OpenCause.Spent Counter.Life))
            × (self.new.0 ≡ self.old.0)) }
        ensures opens { OnOk result (ShowsOf (D.told self.new.0) self.new.1
            (λ s. WhereTold (D.told self.old.0)
            (λ t. Opens t.reads s.rules.limits.capacity (Face.base_of s) s.txn))) }
        ensures gains { OnOk result
            (Tells (D.told self.old.0) (D.told self.new.0)
            (λ t u. GainsLog t.reads IsBegun u.reads)) }
        ensures any_moment { ShowsOf (D.told self.old.0) self.old.1
            (λ s. Tells (D.told self.old.0) (D.told self.new.0)
            (λ t u. LeavesOnly t u (MayRecover s))) }
        ensures fault { IsErrOf result OpenCause.DiskFault
            → Rose (D.faults self.old.0) (D.faults self.new.0) }
        ensures later { D.faults self.old.0 ≤ D.faults self.new.0 }
        ensures well { OnOk result (D.faults self.new.0 ≡ D.faults self.old.0) }
        ensures refused { ShowsOf (D.told self.old.0) self.old.1 (λ s. IfErr result
            (λ cause. ((cause ≡ OpenCause.Spent Counter.Life) × (self.new.0 ≡ self.old.0))
            ⊎ IsRefused (D.told self.old.0) (D.told self.new.0) (D.faults self.old.0)
            (D.faults self.new.0) s.rules.limits.capacity cause)) }
        ensures checks { AreChecks (D.told self.new.0) checks.new }
        ensures next { checks.new.next ≡ checks.old.next }
        ensures newest { OnOk result (WhereTold (D.told self.old.0)
            (λ t. IsNewestNamed t.reads checks.new.laid)) }
        ensures kept { OnErr result (checks.new.laid ≡ checks.old.laid) }
        ensures ticks { WhereTold (D.told self.old.0)
            (λ t. CountsSteps t.reads steps.old steps.new) }
    {
        if self.held.life() == u64::MAX {
            self.held.set_broken();
            return Err(OpenCause::Spent {
                counter: Counter::Life,
            });
        }
        let Ok(ends) = self.held.next_ends() else {
            self.held.set_broken();
            return Err(OpenCause::NoMemory);
        };
        let capacity = self.held.capacity();
        let max_file = self.held.max_file();
        match reopen_log(
            self.writing.alloc,
            &mut self.writing.disk,
            capacity,
            max_file,
            steps,
        ) {
            Ok((replayed, log, newest)) => {
                let Replayed { ring, next } = replayed;
                checks.laid = newest;
                self.writing.log = log;
                self.writing.busy = 0;
                self.held.renew(ends, ring, next.number, next.txn);
                Ok(())
            }
            Err(cause) => {
                self.held.set_broken();
                Err(cause)
            }
        }
    }
}
