// A channel on a disk. In memory it keeps pointers to its events.
ghost use Rattle.std.specs.Prelude.{[], ◌⊎◌, ◌↔◌, ◌≡◌, ◌≤◌, ◌+◌, ◌-◌, ◌^◌, Bool, Err, IsSome, OnErr, OnOk, IfOk, IfErr, IsErrOf, false, true, if◌then◌else◌};
ghost use Rattle.flume_host.specs.Causes.{Rose};
ghost use Rattle.flume_host.specs.Told.{LeavesOnly, Tells, WhereTold, moment_of};
ghost use Rattle.event_core.specs.Content.{size};
ghost use Rattle.channel_face.specs.Calls.{cause_of};
ghost use Rattle.channel_face.specs.History.{AddsOne, Shows, reopen_reply};
ghost use Rattle.channel_face.specs.Machine as Face;
ghost use Rattle.channel_face.specs.Machine.{BeginPut, BeginTake, Flush, Reopen, Reopened, RollbackPut, RollbackTake, StagePut, StageTake, base_of, puts_of, size_of_list, takes_of};
ghost use Rattle.channel_face.specs.declared.replies.FlushRefused.{FlushRefused};
ghost use Rattle.channel_face.specs.declared.replies.Counter.{Counter};
ghost use Rattle.channel_face.specs.declared.replies.Counter.TheVariants.{File};
ghost use Rattle.channel_face.specs.declared.replies.Kind.{Kind};
ghost use Rattle.channel_face.specs.declared.replies.OpenCause.{OpenCause};
ghost use Rattle.channel_face.specs.declared.replies.PutRefused.{PutRefused};
ghost use Rattle.channel_face.specs.declared.replies.TakeRefused.{TakeRefused};
ghost use Rattle.channel_writing.specs.Folders.{FailsToSettle, GainsLog, IsBegun, IsRefused, Opens, OpensFrom, OpensOver};
ghost use Rattle.channel_writing.specs.Stands.{is_fault};
ghost use Rattle.channel_writing.specs.Written.{MayRecover};
ghost use Rattle.channel_writing.specs.Touches.{FillsFiles, Flushed, HadNoRoom, HasNoRoom, IsSpentLog, Rests, flushes, room_of};
ghost use Rattle.file_channel.specs.Laid.{IsNewestNamed, IsNextCheck};
ghost use Rattle.file_channel.specs.Opened.{CountsSteps};
ghost use Rattle.file_channel.specs.Stands.{IsStanding, StandsOver, flush_settles, opened_as, put_spills, take_spills};

use crate::checks::Checks;
use crate::logged::LoggedPlaces;
use channel_face::{
    BeginRefused, Channel, Counts, FlushRefused, Limits, OpenCause, Put, PutRefused, PutTxn,
    Settled, StageRefused, TakeRefused, TakeTxn, Taken, Ticket,
};
use event_core::Event;
use flume_host::{Disk, Steps};
use std::alloc::Global;
use std::marker::Model;
use std::sync::ledger::Ledger;
use txn_core::{Call, Reply, note};

/// A channel that was not opened, with its disk.
pub struct OpenRefused<D> {
    pub disk: D,
    pub cause: OpenCause,
}

/// A channel in a folder of a disk that keeps pointers to its events in memory (Flume User Guide, "File Channel"). Each change has
/// its record in a log file, an event is read there when it is taken, and what a flush settled a crash leaves there.
#[derive(Drop)]
pub struct FileChannel<D: Disk + Drop> {
    pub(crate) logged: LoggedPlaces<D>,
    pub(crate) counts: Counts,
    pub(crate) checks: Checks,
}

impl<D: Disk + Drop> Model for FileChannel<D> {
    ghost use Rattle.std.specs.Prelude.{length};
    ghost use Rattle.txn_core.specs.Counted.{tally_of};
    ghost use Rattle.file_channel.specs.Laid.{AreChecks};
    ghost use Rattle.file_channel.specs.Stands.{FileState, IsStanding};

    // The disk, and what the channel has beside it.
    ghost Value = { D × FileState };

    ghost view = { λ c. (
      c.logged.0,
      record {
        logged = c.logged.1;
        tally = tally_of c.counts;
        waiting = length c.logged.1.log.bytes;
        checks = c.checks;
      },
    ) };

    // It stands for an opening and calls, the number of its next checkpoint is free, and the newest is needed.
    ghost invariant = { λ c. IsStanding (D.told c.logged.0) (D.faults c.logged.0) (record {
      logged = c.logged.1;
      tally = tally_of c.counts;
      waiting = length c.logged.1.log.bytes;
      checks = c.checks;
    }) × AreChecks (D.told c.logged.0) c.checks };
}

// What is counted of a call that settled so many events of puts and of takes, if it flushed.
pub(crate) fn reply_of(done: bool, flushed: bool, staged: (u64, u64)) -> Reply
    ensures puts { result.settled_puts ≡ (if flushed then staged.0 else 0) }
    ensures takes { result.settled_takes ≡ (if flushed then staged.1 else 0) }
{
    if !flushed {
        return Reply::quiet(done);
    }
    Reply {
        done,
        settled_puts: staged.0,
        settled_takes: staged.1,
    }
}

// What is counted of a put.
fn put_reply(done: &Result<Put, PutRefused>, staged: (u64, u64)) -> Reply
    ensures puts { result.settled_puts ≡ (if put_spills done.now then staged.0 else 0) }
    ensures takes { result.settled_takes ≡ (if put_spills done.now then staged.1 else 0) }
{
    match done {
        Ok(put) => reply_of(true, put.spilled, staged),
        Err(_) => Reply::quiet(false),
    }
}

// What is counted of a take.
fn take_reply(done: &Result<Taken, TakeRefused>, staged: (u64, u64)) -> Reply
    ensures puts { result.settled_puts ≡ (if take_spills done.now then staged.0 else 0) }
    ensures takes { result.settled_takes ≡ (if take_spills done.now then staged.1 else 0) }
{
    match done {
        Ok(taken) => reply_of(true, taken.spilled, staged),
        Err(_) => Reply::quiet(false),
    }
}

// What is counted of a flush.
fn flush_reply(done: &Result<(), FlushRefused>, staged: (u64, u64)) -> Reply
    ensures puts { result.settled_puts ≡ (if flush_settles done.now then staged.0 else 0) }
    ensures takes { result.settled_takes ≡ (if flush_settles done.now then staged.1 else 0) }
{
    match done {
        Ok(()) => reply_of(true, true, staged),
        Err(_) => Reply::quiet(false),
    }
}

/// Opens the channel of a folder: it is settled and replayed from its newest checkpoint on, and a log file is begun after those
/// that are there; no other file is written. `steps` counts the records that are read. 1. `DiskFault`. 2. `BadCheck`, at the
/// first fault of the newest checkpoint. 3. `BadLog`, at the first fault of the log after its place. 4. `OverCapacity`, where
/// more events are left than the limits allow. 5. `Spent` of `Counter::File`, where log file 4,294,967,295 is there. 6. `NoMemory`. After a refusal
/// the files are as they were, and after `DiskFault` one log file more of at most 17 bytes may be there.
pub fn open_channel<D: Disk + Drop, L: Ledger>(
    alloc: Global,
    disk: D,
    limits: Limits,
    steps: &mut Steps<L>,
) -> Result<FileChannel<D>, OpenRefused<D>>
    // It stands for no calls: since the folder was settled, whatever a crash leaves recovers to what the folder opened to.
    ensures stands { IfOk result
        (λ c. StandsOver (D.told c.0) (D.faults c.0) c.1
        (opened_as (D.told disk) (D.faults disk) (D.told c.0) c.1) []) }
    ensures rules { IfOk result
        (λ c. (opened_as (D.told disk) (D.faults disk)
        (D.told c.0) c.1).rules ≡ record { kind = Kind.File; limits = limits }) }
    ensures opens { IfOk result
        (λ c. WhereTold (D.told disk)
        (λ t. Opens t.reads limits.capacity
        (opened_as (D.told disk) (D.faults disk) (D.told c.0) c.1).base
        (opened_as (D.told disk) (D.faults disk) (D.told c.0) c.1).txn)) }
    // Its next checkpoint has the number after those that are there.
    ensures next { IfOk result
        (λ c. WhereTold (D.told disk) (λ t. IsNextCheck t.reads c.1.checks.next)) }
    // It knows the newest of those, and the least log file that this one names.
    ensures laid { IfOk result
        (λ c. WhereTold (D.told disk) (λ t. IsNewestNamed t.reads c.1.checks.laid)) }
    ensures gains { IfOk result
        (λ c. Tells (D.told disk) (D.told c.0) (λ t u. GainsLog t.reads IsBegun u.reads)) }
    ensures refused { IfErr result
        (λ refused. IsRefused (D.told disk) (D.told refused.disk) (D.faults disk)
        (D.faults refused.disk) limits.capacity refused.cause) }
    ensures well { IfOk result (λ c. D.faults c.0 ≡ D.faults disk) }
    ensures any_moment { IfOk result (λ c. Tells (D.told disk) (D.told c.0) OpensOver) }
    ensures settled { IfOk result (λ c. Tells (D.told disk) (D.told c.0) OpensFrom) }
    ensures settled_or { IfErr result
        (λ refused. ((refused.cause ≡ OpenCause.DiskFault)
        × FailsToSettle (D.told disk) (D.told refused.disk))
        ⊎ Tells (D.told disk) (D.told refused.disk) OpensFrom) }
    ensures ticks { WhereTold (D.told disk) (λ t. CountsSteps t.reads steps.old steps.new) }
{
    match LoggedPlaces::open(alloc, disk, limits, steps) {
        Ok((logged, checks)) => Ok(FileChannel {
            logged,
            counts: Counts {
                put_attempts: 0,
                put_successes: 0,
                take_attempts: 0,
                take_successes: 0,
                size: 0,
                capacity: 0,
            },
            checks,
        }),
        Err(refused) => Err(refused),
    }
}

impl<D: Disk + Drop> FileChannel<D> {
    /// Opens the folder anew, with the causes of [`open_channel`]; before them comes `Spent` of `Counter::Life`, exactly where
    /// the life is 2^64 - 1. On Ok the life is one more and earlier tokens are stale. What was settled is left, and with it
    /// all that was staged or nothing of that. After a refusal the channel is broken, and has what it had.
    pub fn reopen<L: Ledger>(&mut self, steps: &mut Steps<L>) -> Result<(), OpenCause>
        ensures step { (kept : Reopened)
            × AddsOne (StandsOver (D.told self.old.0) (D.faults self.old.0) self.old.1)
            (StandsOver (D.told self.new.0) (D.faults self.new.0) self.new.1)
            (Reopen (reopen_reply result kept)) (moment_of (D.told self.new.0)) }
        ensures opens { Shows (StandsOver (D.told self.new.0) (D.faults self.new.0) self.new.1)
            (λ s. OnOk result (WhereTold (D.told self.old.0)
            (λ t. Opens t.reads s.rules.limits.capacity (base_of s) s.txn))) }
        ensures gains { OnOk result
            (Tells (D.told self.old.0) (D.told self.new.0)
            (λ t u. GainsLog t.reads IsBegun u.reads)) }
        ensures any_moment { Shows (StandsOver (D.told self.old.0) (D.faults self.old.0) self.old.1)
            (λ s. Tells (D.told self.old.0) (D.told self.new.0)
            (λ t u. LeavesOnly t u (MayRecover s))) }
        ensures fault { IsErrOf result OpenCause.DiskFault
            → Rose (D.faults self.old.0) (D.faults self.new.0) }
        ensures later { D.faults self.old.0 ≤ D.faults self.new.0 }
        ensures well { OnOk result (D.faults self.new.0 ≡ D.faults self.old.0) }
        ensures spent { Shows (StandsOver (D.told self.old.0) (D.faults self.old.0) self.old.1)
            (λ s. 2 ^ 64 - 1 ≤ s.life → (result ≡ Err (OpenCause.Spent Counter.Life))
            × (D.told self.new.0 ≡ D.told self.old.0)
            × (D.faults self.new.0 ≡ D.faults self.old.0)) }
        ensures refused { Shows (StandsOver (D.told self.old.0) (D.faults self.old.0) self.old.1)
            (λ s. IfErr result (λ cause. ((cause ≡ OpenCause.Spent Counter.Life)
            × (D.told self.new.0 ≡ D.told self.old.0) × (D.faults self.new.0 ≡ D.faults self.old.0))
            ⊎ IsRefused (D.told self.old.0) (D.told self.new.0) (D.faults self.old.0)
            (D.faults self.new.0) s.rules.limits.capacity cause)) }
        ensures ticks { WhereTold (D.told self.old.0)
            (λ t. CountsSteps t.reads steps.old steps.new) }
        ensures next { self.new.1.checks.next ≡ self.old.1.checks.next }
        ensures laid { OnOk result (WhereTold (D.told self.old.0)
            (λ t. IsNewestNamed t.reads self.new.1.checks.laid)) }
        ensures refused_laid { OnErr result (self.new.1.checks.laid ≡ self.old.1.checks.laid) }
    {
        let result = self.logged.reopen(&mut self.checks, steps);
        let reply = Reply::quiet(result.is_ok());
        note(&mut self.counts, Call::Reopen, reply);
        result
    }

    /// Between two calls, whatever a crash leaves recovers to just what is settled, unless the channel is broken.
    pub fn rests(&self)
        ensures { Shows (StandsOver (D.told self.now.0) (D.faults self.now.0) self.now.1)
            (Rests (D.told self.now.0)) }
    {
        let _ = &self.logged;
    }

    /// There are an opening and calls for which the channel stands. So what a clause says of each of them is said of some, also
    /// of a channel that is lent without its history.
    pub fn stands(&self)
        ensures { IsStanding (D.told self.now.0) (D.faults self.now.0) self.now.1 }
    {
        let _ = &self.logged;
    }

    /// Hands the disk back. It touches no device. Whatever a crash now leaves recovers to just what is settled, unless the channel was broken.
    pub fn close(self) -> D
        ensures disk { result ≡ self.0 }
        ensures settled { Shows (StandsOver (D.told self.0) (D.faults self.0) self.1)
            (Rests (D.told result)) }
    {
        let FileChannel {
            logged,
            counts: _,
            checks: _,
        } = self;
        logged.close()
    }
}

impl<D: Disk + Drop> Channel for FileChannel<D> {
    ghost use Rattle.flume_host.specs.Told.{moment_of};
    ghost use Rattle.channel_face.specs.Machine.{is_some_of};
    ghost use Rattle.file_channel.specs.Stands.{StandsOver};

    ghost stands = { λ c. StandsOver (D.told c.0) (D.faults c.0) c.1 };

    ghost tells = { λ c. is_some_of (D.told c.0) };

    ghost moment = { λ c. moment_of (D.told c.0) };

    ghost faults = { λ c. D.faults c.0 };

    /// It touches no device.
    fn begin_put(&mut self) -> Result<PutTxn, BeginRefused>
        ensures step { AddsOne (StandsOver (D.told self.old.0) (D.faults self.old.0) self.old.1)
            (StandsOver (D.told self.new.0) (D.faults self.new.0) self.new.1) (BeginPut result)
            (moment_of (D.told self.new.0)) }
        ensures told { D.told self.new.0 ≡ D.told self.old.0 }
        ensures faults { D.faults self.new.0 ≡ D.faults self.old.0 }
        ensures checks { self.new.1.checks ≡ self.old.1.checks }
    {
        let result = self.logged.begin_put();
        let reply = Reply::quiet(result.is_ok());
        note(&mut self.counts, Call::BeginPut, reply);
        result
    }

    /// It touches no device.
    fn begin_take(&mut self) -> Result<TakeTxn, BeginRefused>
        ensures step { AddsOne (StandsOver (D.told self.old.0) (D.faults self.old.0) self.old.1)
            (StandsOver (D.told self.new.0) (D.faults self.new.0) self.new.1) (BeginTake result)
            (moment_of (D.told self.new.0)) }
        ensures told { D.told self.new.0 ≡ D.told self.old.0 }
        ensures faults { D.faults self.new.0 ≡ D.faults self.old.0 }
        ensures checks { self.new.1.checks ≡ self.old.1.checks }
    {
        let result = self.logged.begin_take();
        let reply = Reply::quiet(result.is_ok());
        note(&mut self.counts, Call::BeginTake, reply);
        result
    }

    /// Where the frame has no room for the event's record, it flushes first, as [`Channel::flush`] does. A crash at any moment of
    /// the call leaves what is settled, or that with what is staged.
    fn put(&mut self, txn: &mut PutTxn, event: &Event) -> Result<Put, PutRefused>
        ensures step { AddsOne (StandsOver (D.told self.old.0) (D.faults self.old.0) self.old.1)
            (StandsOver (D.told self.new.0) (D.faults self.new.0) self.new.1)
            (Face.Put txn.old event.now result) (moment_of (D.told self.new.0)) }
        ensures same { txn.new ≡ txn.old }
        ensures spent { Shows (StandsOver (D.told self.old.0) (D.faults self.old.0) self.old.1)
            (λ s. s.broken ≡ false → IsSome (puts_of s txn.old)
            → WhereTold (D.told self.old.0) (λ t. (result ≡ Err (PutRefused.Spent File))
            ↔ IsSpentLog t s.rules.limits.max_file)) }
        ensures memory { result ≡ Err PutRefused.NoMemory → ⊥ }
        ensures quiet { flushes (Face.Put txn.old event.now result) ≡ false
            → D.told self.new.0 ≡ D.told self.old.0 }
        ensures any_moment { Shows (StandsOver (D.told self.old.0) (D.faults self.old.0) self.old.1)
            (λ s. flushes (Face.Put txn.old event.now result) ≡ true
            → Tells (D.told self.old.0) (D.told self.new.0) (Flushed s)) }
        ensures fills { Shows (StandsOver (D.told self.old.0) (D.faults self.old.0) self.old.1)
            (λ s. flushes (Face.Put txn.old event.now result) ≡ true
            → Tells (D.told self.old.0) (D.told self.new.0)
            (FillsFiles s.rules.limits.max_file self.old.1.waiting)) }
        ensures room { Shows (StandsOver (D.told self.old.0) (D.faults self.old.0) self.old.1)
            (λ s. IfOk result (λ done. (done.spilled ≡ true)
            ↔ HasNoRoom self.old.1.waiting
            (room_of s (size event.now + 13) (size_of_list (puts_of s txn.old))))) }
        ensures full { Shows (StandsOver (D.told self.old.0) (D.faults self.old.0) self.old.1)
            (λ s. IfOk result (λ done. done.spilled ≡ true
            → Tells (D.told self.old.0) (D.told self.new.0)
            (HadNoRoom (room_of s (size event.now + 13) (size_of_list (puts_of s txn.old)))))) }
        ensures later { D.faults self.old.0 ≤ D.faults self.new.0 }
        ensures well { is_fault (Face.Put txn.old event.now result) ≡ false
            → D.faults self.new.0 ≡ D.faults self.old.0 }
        ensures fault { IsErrOf result PutRefused.DiskFault
            → Rose (D.faults self.old.0) (D.faults self.new.0) }
        ensures no_room { Shows (StandsOver (D.told self.old.0) (D.faults self.old.0) self.old.1)
            (λ s. IsErrOf result PutRefused.DiskFault
            → HasNoRoom self.old.1.waiting
            (room_of s (size event.now + 13) (size_of_list (puts_of s txn.old)))) }
        ensures checks { self.new.1.checks ≡ self.old.1.checks }
    {
        let staged = self.logged.staged();
        let result = self.logged.put(txn, event);
        let reply = put_reply(&result, staged);
        note(&mut self.counts, Call::Put, reply);
        result
    }

    /// Where the frame has no room for the record, it flushes first, as a put does.
    fn take(&mut self, txn: &mut TakeTxn) -> Result<Taken, TakeRefused>
        ensures step { AddsOne (StandsOver (D.told self.old.0) (D.faults self.old.0) self.old.1)
            (StandsOver (D.told self.new.0) (D.faults self.new.0) self.new.1)
            (Face.Take txn.old result) (moment_of (D.told self.new.0)) }
        ensures same { txn.new ≡ txn.old }
        ensures spent { Shows (StandsOver (D.told self.old.0) (D.faults self.old.0) self.old.1)
            (λ s. s.broken ≡ false → IsSome (takes_of s txn.old)
            → WhereTold (D.told self.old.0) (λ t. (result ≡ Err (TakeRefused.Spent File))
            ↔ IsSpentLog t s.rules.limits.max_file)) }
        ensures quiet { flushes (Face.Take txn.old result) ≡ false
            → D.told self.new.0 ≡ D.told self.old.0 }
        ensures any_moment { Shows (StandsOver (D.told self.old.0) (D.faults self.old.0) self.old.1)
            (λ s. flushes (Face.Take txn.old result) ≡ true
            → Tells (D.told self.old.0) (D.told self.new.0) (Flushed s)) }
        ensures fills { Shows (StandsOver (D.told self.old.0) (D.faults self.old.0) self.old.1)
            (λ s. flushes (Face.Take txn.old result) ≡ true
            → Tells (D.told self.old.0) (D.told self.new.0)
            (FillsFiles s.rules.limits.max_file self.old.1.waiting)) }
        ensures room { Shows (StandsOver (D.told self.old.0) (D.faults self.old.0) self.old.1)
            (λ s. IfOk result (λ taken. (taken.spilled ≡ true) ↔ IsSome taken.event
            × HasNoRoom self.old.1.waiting (room_of s 17 (size_of_list (takes_of s txn.old))))) }
        ensures full { Shows (StandsOver (D.told self.old.0) (D.faults self.old.0) self.old.1)
            (λ s. IfOk result (λ taken. taken.spilled ≡ true
            → Tells (D.told self.old.0) (D.told self.new.0)
            (HadNoRoom (room_of s 17 (size_of_list (takes_of s txn.old)))))) }
        ensures later { D.faults self.old.0 ≤ D.faults self.new.0 }
        ensures well { is_fault (Face.Take txn.old result) ≡ false
            → D.faults self.new.0 ≡ D.faults self.old.0 }
        ensures read { IsErrOf result TakeRefused.ReadFault
            → Rose (D.faults self.old.0) (D.faults self.new.0) }
        ensures fault { IsErrOf result TakeRefused.DiskFault
            → Rose (D.faults self.old.0) (D.faults self.new.0) }
        ensures no_room { Shows (StandsOver (D.told self.old.0) (D.faults self.old.0) self.old.1)
            (λ s. IsErrOf result TakeRefused.DiskFault
            → HasNoRoom self.old.1.waiting (room_of s 17 (size_of_list (takes_of s txn.old)))) }
        ensures checks { self.new.1.checks ≡ self.old.1.checks }
    {
        let staged = self.logged.staged();
        let result = self.logged.take(txn);
        let reply = take_reply(&result, staged);
        note(&mut self.counts, Call::Take, reply);
        result
    }

    /// It touches no device.
    fn stage_put(&mut self, txn: PutTxn) -> Result<Ticket, StageRefused<PutTxn>>
        ensures step { AddsOne (StandsOver (D.told self.old.0) (D.faults self.old.0) self.old.1)
            (StandsOver (D.told self.new.0) (D.faults self.new.0) self.new.1)
            (StagePut txn (cause_of result)) (moment_of (D.told self.new.0)) }
        ensures back { IfErr result (λ refused. refused.txn ≡ txn) }
        ensures told { D.told self.new.0 ≡ D.told self.old.0 }
        ensures faults { D.faults self.new.0 ≡ D.faults self.old.0 }
        ensures checks { self.new.1.checks ≡ self.old.1.checks }
    {
        let result = self.logged.stage_put(txn);
        let reply = Reply::quiet(result.is_ok());
        note(&mut self.counts, Call::StagePut, reply);
        result
    }

    /// It touches no device.
    fn stage_take(&mut self, txn: TakeTxn) -> Result<Ticket, StageRefused<TakeTxn>>
        ensures step { AddsOne (StandsOver (D.told self.old.0) (D.faults self.old.0) self.old.1)
            (StandsOver (D.told self.new.0) (D.faults self.new.0) self.new.1)
            (StageTake txn (cause_of result)) (moment_of (D.told self.new.0)) }
        ensures back { IfErr result (λ refused. refused.txn ≡ txn) }
        ensures told { D.told self.new.0 ≡ D.told self.old.0 }
        ensures faults { D.faults self.new.0 ≡ D.faults self.old.0 }
        ensures checks { self.new.1.checks ≡ self.old.1.checks }
    {
        let result = self.logged.stage_take(txn);
        let reply = Reply::quiet(result.is_ok());
        note(&mut self.counts, Call::StageTake, reply);
        result
    }

    /// At most two syncs, or three where the log file has a frame and would pass its greatest length, so that the next one is
    /// begun. A crash at any moment of the call leaves what is settled, or that with what is staged. A broken channel's flush
    /// touches no device.
    fn flush(&mut self) -> Result<(), FlushRefused>
        ensures step { AddsOne (StandsOver (D.told self.old.0) (D.faults self.old.0) self.old.1)
            (StandsOver (D.told self.new.0) (D.faults self.new.0) self.new.1) (Flush result)
            (moment_of (D.told self.new.0)) }
        ensures nothing { self.old.1.waiting ≡ 0 → (D.told self.new.0 ≡ D.told self.old.0)
            × (D.faults self.new.0 ≡ D.faults self.old.0) }
        ensures quiet { flushes (Flush result) ≡ false → D.told self.new.0 ≡ D.told self.old.0 }
        ensures any_moment { Shows (StandsOver (D.told self.old.0) (D.faults self.old.0) self.old.1)
            (λ s. flushes (Flush result) ≡ true
            → Tells (D.told self.old.0) (D.told self.new.0) (Flushed s)) }
        ensures fills { Shows (StandsOver (D.told self.old.0) (D.faults self.old.0) self.old.1)
            (λ s. flushes (Flush result) ≡ true
            → Tells (D.told self.old.0) (D.told self.new.0)
            (FillsFiles s.rules.limits.max_file self.old.1.waiting)) }
        ensures later { D.faults self.old.0 ≤ D.faults self.new.0 }
        ensures well { is_fault (Flush result) ≡ false → D.faults self.new.0 ≡ D.faults self.old.0 }
        ensures fault { IsErrOf result FlushRefused.DiskFault
            → Rose (D.faults self.old.0) (D.faults self.new.0) }
        ensures checks { self.new.1.checks ≡ self.old.1.checks }
    {
        let staged = self.logged.staged();
        let result = self.logged.flush();
        let reply = flush_reply(&result, staged);
        note(&mut self.counts, Call::Flush, reply);
        result
    }

    /// It touches no device.
    fn rollback_put(&mut self, txn: PutTxn) -> bool
        ensures step { AddsOne (StandsOver (D.told self.old.0) (D.faults self.old.0) self.old.1)
            (StandsOver (D.told self.new.0) (D.faults self.new.0) self.new.1)
            (RollbackPut txn result) (moment_of (D.told self.new.0)) }
        ensures told { D.told self.new.0 ≡ D.told self.old.0 }
        ensures faults { D.faults self.new.0 ≡ D.faults self.old.0 }
        ensures checks { self.new.1.checks ≡ self.old.1.checks }
    {
        let ended = self.logged.rollback_put(txn);
        let reply = Reply::quiet(ended);
        note(&mut self.counts, Call::RollbackPut, reply);
        ended
    }

    /// It touches no device.
    fn rollback_take(&mut self, txn: TakeTxn) -> bool
        ensures step { AddsOne (StandsOver (D.told self.old.0) (D.faults self.old.0) self.old.1)
            (StandsOver (D.told self.new.0) (D.faults self.new.0) self.new.1)
            (RollbackTake txn result) (moment_of (D.told self.new.0)) }
        ensures told { D.told self.new.0 ≡ D.told self.old.0 }
        ensures faults { D.faults self.new.0 ≡ D.faults self.old.0 }
        ensures checks { self.new.1.checks ≡ self.old.1.checks }
    {
        let ended = self.logged.rollback_take(txn);
        let reply = Reply::quiet(ended);
        note(&mut self.counts, Call::RollbackTake, reply);
        ended
    }

    fn settled(&self, ticket: &Ticket) -> Settled {
        self.logged.settled(ticket)
    }

    fn size(&self) -> u64 {
        self.logged.size()
    }

    fn capacity(&self) -> u64 {
        self.logged.capacity()
    }

    fn counts(&self) -> Counts {
        Counts {
            size: self.logged.size(),
            capacity: self.logged.capacity(),
            ..self.counts
        }
    }

    fn is_broken(&self) -> bool {
        self.logged.is_broken()
    }

    ghost is_run = { λ c start h stands. stands.run };

    ghost tells_as_opened = { λ c start h stands. stands.tells };
}
