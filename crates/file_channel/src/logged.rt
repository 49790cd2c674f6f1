// The places of a channel's events, with the log that has their records.
ghost use Rattle.std.specs.Prelude.{◌≡◌, ◌<◌, ◌≤◌, ◌+◌, ◌↔◌, Err, IfErr, IfOk, IsErrOf, IsSome, IsTrue, length, false, true, ◌-◌, ◌==◌, [], ◌∷◌, ℕ, List, Some, None, IsOk, OnErr, OnOk};
ghost use Rattle.flume_host.specs.Causes.{Rose, HasCause};
ghost use Rattle.flume_host.specs.Told.{Tells, WhereTold, Changes, LeavesOnly};
ghost use Rattle.event_core.specs.Journal.{put_events, taken_numbers};
ghost use Rattle.event_core.specs.Content.{size, Content};
ghost use Rattle.channel_face.specs.Calls.{cause_of};
ghost use Rattle.channel_face.specs.Machine.{State, BeginPut, BeginTake, Flush, RollbackPut, RollbackTake, StagePut, StageTake, puts_of, size_of_list, takes_of, broken_state, free, settle, take_refusal};
ghost use Rattle.channel_face.specs.Counters.{capped};
ghost use Rattle.channel_face.specs.declared.replies.Kind.{Kind};
ghost use Rattle.channel_face.specs.declared.replies.Counter.{Counter};
ghost use Rattle.channel_face.specs.declared.replies.Counter.TheVariants.{File};
ghost use Rattle.channel_face.specs.declared.replies.FlushRefused.{FlushRefused};
ghost use Rattle.channel_face.specs.declared.replies.PutRefused.{PutRefused};
ghost use Rattle.channel_face.specs.declared.replies.TakeRefused.{TakeRefused};
ghost use Rattle.channel_writing.specs.Stands.{is_fault};
ghost use Rattle.channel_writing.specs.Touches.{FillsFiles, Flushed, HadNoRoom, HasNoRoom, IsSpentLog, flushes, room_of, ChangesAlone, WritesOn};
ghost use Rattle.file_channel.specs.Stepped.{ShowsOf, StepsOn, Steps};
ghost use Rattle.flume_host.specs.declared.names.FileName.TheVariants.{Log};
ghost use Rattle.channel_log.specs.Writer.{HasRoom, IsBlank};
ghost use Rattle.channel_face.specs.Token.{Token};
ghost use Rattle.channel_places.specs.Looks.{MayPut, MayTake};
ghost use Rattle.channel_writing.specs.Written.{MayRecover, RecoversSettled, kept};
ghost use Rattle.file_channel.specs.Placed.{Fits, IsStateOf};
ghost use Rattle.channel_face.specs.Machine as Face;
ghost use Rattle.record_form.specs.declared.record.Pointer as pointers;

use crate::reading::{of_read, read_event};
use channel_face::{
    BeginRefused, Counter, FlushRefused, Put, PutRefused, PutTxn, Settled, StageRefused,
    TakeRefused, TakeTxn, Taken, Ticket,
};
use channel_log::{LAST_FILE, LogWriter};
use channel_places::Held;
use channel_writing::Writing;
use event_core::Event;
use flume_host::{Disk, Failed};
use record_form::{MAX_PUT_SIZE, Pointer};
use std::marker::Model;

/// The places of a channel's events, and the log in which each of them has its record.
#[derive(Drop)]
pub struct LoggedPlaces<D: Disk + Drop> {
    pub(crate) held: Held,
    pub(crate) writing: Writing<D>,
}

impl<D: Disk + Drop> Model for LoggedPlaces<D> {
    ghost use Rattle.file_channel.specs.Placed.{HasState, Logged};

    // The disk, and what the channel has beside it.
    ghost Value = { D × Logged };

    ghost view = { λ c. (
      c.writing.disk,
      record { places = c.held; log = c.writing.log; busy = c.writing.busy },
    ) };

    ghost invariant = { λ c. HasState (D.told c.writing.disk)
        (record { places = c.held; log = c.writing.log; busy = c.writing.busy }) };
}

// Whether the log's file is the last that there can be, and has reached the length at which a file is left.
fn at_last_end(held: &Held, log: &LogWriter) -> bool
    ensures { IsTrue result ↔ (log.now.file ≡ 4_294_967_295)
        × (held.now.numbers.rules.limits.max_file ≤ log.now.gate + 1) }
{
    let max_file = held.max_file();
    log.file() == LAST_FILE && log.gate_at() >= max_file.saturating_sub(1)
}

// Whether a transaction that did so much is given up with a record. A broken channel writes none.
fn is_recorded(held: &Held, count: usize) -> bool
    ensures { IsTrue result ↔ (0 < count) × (held.now.numbers.broken ≡ false) }
{
    count > 0 && !held.is_broken()
}

impl<D: Disk + Drop> LoggedPlaces<D> {
    /// Begins a transaction of puts.
    pub fn begin_put(&mut self) -> Result<PutTxn, BeginRefused>
        ensures step { StepsOn (D.told self.old.0) (D.told self.new.0) self.old.1 self.new.1
            (BeginPut result) }
        ensures disk { self.new.0 ≡ self.old.0 }
    {
        self.held.begin_put()
    }

    /// Begins a transaction of takes.
    pub fn begin_take(&mut self) -> Result<TakeTxn, BeginRefused>
        ensures step { StepsOn (D.told self.old.0) (D.told self.new.0) self.old.1 self.new.1
            (BeginTake result) }
        ensures disk { self.new.0 ≡ self.old.0 }
    {
        self.held.begin_take()
    }

    /// Gives a transaction of puts up.
    pub fn rollback_put(&mut self, txn: PutTxn) -> bool
        ensures step { StepsOn (D.told self.old.0) (D.told self.new.0) self.old.1 self.new.1
            (RollbackPut txn result) }
        ensures disk { self.new.0 ≡ self.old.0 }
    {
        let number = txn.number();
        let count = self.held.size_of_puts(&txn);
        let ends = self.held.has_puts(&txn);
        let _numbers = txn.into_numbers();
        if !ends {
            return false;
        }
        self.held.drop_puts(number);
        if is_recorded(&self.held, count) {
            self.writing.add_rollback(number);
        }
        true
    }

    /// Gives a transaction of takes up: what it took is free again, in its place.
    pub fn rollback_take(&mut self, txn: TakeTxn) -> bool
        ensures step { StepsOn (D.told self.old.0) (D.told self.new.0) self.old.1 self.new.1
            (RollbackTake txn result) }
        ensures disk { self.new.0 ≡ self.old.0 }
    {
        let number = txn.number();
        let count = self.held.size_of_takes(&txn);
        let ends = self.held.has_takes(&txn);
        let _numbers = txn.into_numbers();
        if !ends {
            return false;
        }
        self.held.drop_takes(number);
        if is_recorded(&self.held, count) {
            self.writing.add_rollback(number);
        }
        true
    }

    /// Stages a transaction of puts.
    pub fn stage_put(&mut self, txn: PutTxn) -> Result<Ticket, StageRefused<PutTxn>>
        ensures step { StepsOn (D.told self.old.0) (D.told self.new.0) self.old.1 self.new.1
            (StagePut txn (cause_of result)) }
        ensures back { IfErr result (λ refused. refused.txn ≡ txn) }
        ensures disk { self.new.0 ≡ self.old.0 }
    {
        if let Some(cause) = self.held.stage_put_refusal(&txn) {
            return Err(StageRefused { txn, cause });
        }
        let ticket = self.held.put_ticket(&txn);
        let number = txn.number();
        let _numbers = txn.into_numbers();
        self.held.stage(number);
        if ticket.count == 0 {
            return Ok(ticket);
        }
        self.writing
            .add_commit_put(number, ticket.first, ticket.count);
        Ok(ticket)
    }

    /// Stages a transaction of takes.
    pub fn stage_take(&mut self, txn: TakeTxn) -> Result<Ticket, StageRefused<TakeTxn>>
        ensures step { StepsOn (D.told self.old.0) (D.told self.new.0) self.old.1 self.new.1
            (StageTake txn (cause_of result)) }
        ensures back { IfErr result (λ refused. refused.txn ≡ txn) }
        ensures disk { self.new.0 ≡ self.old.0 }
    {
        if let Some(cause) = self.held.stage_take_refusal(&txn) {
            return Err(StageRefused { txn, cause });
        }
        let ticket = self.held.take_ticket(&txn);
        let number = txn.number();
        let _numbers = txn.into_numbers();
        self.held.stage(number);
        if ticket.count == 0 {
            return Ok(ticket);
        }
        self.writing.add_commit_take(number, ticket.count);
        Ok(ticket)
    }

    /// Puts an event. Where the frame has no room for its record, it flushes first. A crash at any moment of the call leaves what
    /// is settled, or that with what is staged. It takes no memory.
    pub fn put_in_log(&mut self, txn: &PutTxn, event: &Event) -> Result<Put, PutRefused>
        ensures step { StepsOn (D.told self.old.0) (D.told self.new.0) self.old.1 self.new.1
            (Face.Put txn.now event.now result) }
        ensures never { (counter : Counter) → result ≡ Err (PutRefused.Spent counter) → ⊥ }
        ensures memory { result ≡ Err PutRefused.NoMemory → ⊥ }
        ensures quiet { flushes (Face.Put txn.now event.now result) ≡ false
            → self.new.0 ≡ self.old.0 }
        ensures any_moment { ShowsOf (D.told self.old.0) self.old.1
            (λ s. flushes (Face.Put txn.now event.now result) ≡ true
            → Tells (D.told self.old.0) (D.told self.new.0) (λ t u. Flushed s t u)) }
        ensures fills { ShowsOf (D.told self.old.0) self.old.1
            (λ s. flushes (Face.Put txn.now event.now result) ≡ true
            → Tells (D.told self.old.0) (D.told self.new.0)
            (FillsFiles s.rules.limits.max_file (length self.old.1.log.bytes))) }
        ensures room { ShowsOf (D.told self.old.0) self.old.1 (λ s. IfOk result
            (λ done. (done.spilled ≡ true) ↔ HasNoRoom (length self.old.1.log.bytes)
            (room_of s (size event.now + 13) (size_of_list (puts_of s txn.now))))) }
        ensures full { ShowsOf (D.told self.old.0) self.old.1 (λ s. IfOk result
            (λ done. done.spilled ≡ true → Tells (D.told self.old.0) (D.told self.new.0)
            (HadNoRoom (room_of s (size event.now + 13) (size_of_list (puts_of s txn.now)))))) }
        ensures later { D.faults self.old.0 ≤ D.faults self.new.0 }
        ensures well { is_fault (Face.Put txn.now event.now result) ≡ false
            → D.faults self.new.0 ≡ D.faults self.old.0 }
        ensures fault { IsErrOf result PutRefused.DiskFault
            → Rose (D.faults self.old.0) (D.faults self.new.0) }
        ensures no_room { ShowsOf (D.told self.old.0) self.old.1
            (λ s. IsErrOf result PutRefused.DiskFault
            → HasNoRoom (length self.old.1.log.bytes)
            (room_of s (size event.now + 13) (size_of_list (puts_of s txn.now)))) }
    {
        if let Some(refused) = self.held.put_refusal(txn, event.size()) {
            return Err(refused);
        }
        let first = self.held.size_of_puts(txn) == 0;
        if self.writing.has_room(event.size() + 13, first) {
            add_put(&mut self.held, &mut self.writing, txn, event, first);
            return Ok(Put { spilled: false });
        }
        match settle_staged(&mut self.held, &mut self.writing) {
            Ok(()) => {}
            Err(_) => return Err(PutRefused::DiskFault),
        }
        add_put(&mut self.held, &mut self.writing, txn, event, first);
        Ok(Put { spilled: true })
    }

    /// Takes the first event that no transaction took, and reads it at its pointer. Where the frame has no room for its record, it
    /// flushes first, as [`LoggedPlaces::put_in_log`]. It takes memory for the event alone.
    pub fn take_in_log(&mut self, txn: &TakeTxn) -> Result<Taken, TakeRefused>
        ensures step { StepsOn (D.told self.old.0) (D.told self.new.0) self.old.1 self.new.1
            (Face.Take txn.now result) }
        ensures never { (counter : Counter) → result ≡ Err (TakeRefused.Spent counter) → ⊥ }
        ensures quiet { flushes (Face.Take txn.now result) ≡ false
            → D.told self.new.0 ≡ D.told self.old.0 }
        ensures any_moment { ShowsOf (D.told self.old.0) self.old.1
            (λ s. flushes (Face.Take txn.now result) ≡ true
            → Tells (D.told self.old.0) (D.told self.new.0) (λ t u. Flushed s t u)) }
        ensures fills { ShowsOf (D.told self.old.0) self.old.1
            (λ s. flushes (Face.Take txn.now result) ≡ true
            → Tells (D.told self.old.0) (D.told self.new.0)
            (FillsFiles s.rules.limits.max_file (length self.old.1.log.bytes))) }
        ensures room { ShowsOf (D.told self.old.0) self.old.1 (λ s. IfOk result
            (λ taken. (taken.spilled ≡ true) ↔ IsSome taken.event
            × HasNoRoom (length self.old.1.log.bytes)
            (room_of s 17 (size_of_list (takes_of s txn.now))))) }
        ensures full { ShowsOf (D.told self.old.0) self.old.1 (λ s. IfOk result
            (λ taken. taken.spilled ≡ true → Tells (D.told self.old.0) (D.told self.new.0)
            (HadNoRoom (room_of s 17 (size_of_list (takes_of s txn.now)))))) }
        ensures later { D.faults self.old.0 ≤ D.faults self.new.0 }
        ensures well { is_fault (Face.Take txn.now result) ≡ false
            → D.faults self.new.0 ≡ D.faults self.old.0 }
        ensures read { IsErrOf result TakeRefused.ReadFault
            → Rose (D.faults self.old.0) (D.faults self.new.0) }
        ensures fault { IsErrOf result TakeRefused.DiskFault
            → Rose (D.faults self.old.0) (D.faults self.new.0) }
        ensures no_room { ShowsOf (D.told self.old.0) self.old.1
            (λ s. IsErrOf result TakeRefused.DiskFault
            → HasNoRoom (length self.old.1.log.bytes)
            (room_of s 17 (size_of_list (takes_of s txn.now)))) }
    {
        if let Some(refused) = self.held.take_refusal(txn) {
            return Err(refused);
        }
        let Some((number, pointer)) = self.held.first_free() else {
            return Ok(Taken {
                event: None,
                spilled: false,
            });
        };
        match read_event(&mut self.writing, &pointer) {
            Ok(event) => take_read(&mut self.held, &mut self.writing, txn, number, event),
            Err(refused) => Err(of_read(refused)),
        }
    }

    /// Settles all that is staged. A crash at any moment of the call leaves what is settled, or that with what is staged. It takes
    /// no memory.
    pub fn flush(&mut self) -> Result<(), FlushRefused>
        ensures step { StepsOn (D.told self.old.0) (D.told self.new.0) self.old.1 self.new.1
            (Flush result) }
        ensures nothing { length self.old.1.log.bytes ≡ 0
            → (D.told self.new.0 ≡ D.told self.old.0)
            × (D.faults self.new.0 ≡ D.faults self.old.0) }
        ensures quiet { flushes (Flush result) ≡ false → self.new.0 ≡ self.old.0 }
        ensures any_moment { ShowsOf (D.told self.old.0) self.old.1
            (λ s. flushes (Flush result) ≡ true
            → Tells (D.told self.old.0) (D.told self.new.0) (λ t u. Flushed s t u)) }
        ensures fills { ShowsOf (D.told self.old.0) self.old.1
            (λ s. flushes (Flush result) ≡ true
            → Tells (D.told self.old.0) (D.told self.new.0)
            (FillsFiles s.rules.limits.max_file (length self.old.1.log.bytes))) }
        ensures later { D.faults self.old.0 ≤ D.faults self.new.0 }
        ensures well { is_fault (Flush result) ≡ false
            → D.faults self.new.0 ≡ D.faults self.old.0 }
        ensures fault { IsErrOf result FlushRefused.DiskFault
            → Rose (D.faults self.old.0) (D.faults self.new.0) }
    {
        if self.held.is_broken() {
            return Err(FlushRefused::Broken);
        }
        match settle_staged(&mut self.held, &mut self.writing) {
            Ok(()) => {}
            Err(_) => return Err(FlushRefused::DiskFault),
        }
        Ok(())
    }

    /// Puts an event, as [`LoggedPlaces::put_in_log`], unless no log file is left.
    pub fn put(&mut self, txn: &PutTxn, event: &Event) -> Result<Put, PutRefused>
        ensures step { StepsOn (D.told self.old.0) (D.told self.new.0) self.old.1 self.new.1
            (Face.Put txn.now event.now result) }
        ensures spent { ShowsOf (D.told self.old.0) self.old.1 (λ s. s.broken ≡ false
            → IsSome (puts_of s txn.now) → WhereTold (D.told self.old.0)
            (λ t. (result ≡ Err (PutRefused.Spent File)) ↔ IsSpentLog t s.rules.limits.max_file)) }
        ensures memory { result ≡ Err PutRefused.NoMemory → ⊥ }
        ensures quiet { flushes (Face.Put txn.now event.now result) ≡ false
            → D.told self.new.0 ≡ D.told self.old.0 }
        ensures any_moment { ShowsOf (D.told self.old.0) self.old.1
            (λ s. flushes (Face.Put txn.now event.now result) ≡ true
            → Tells (D.told self.old.0) (D.told self.new.0) (λ t u. Flushed s t u)) }
        ensures fills { ShowsOf (D.told self.old.0) self.old.1
            (λ s. flushes (Face.Put txn.now event.now result) ≡ true
            → Tells (D.told self.old.0) (D.told self.new.0)
            (FillsFiles s.rules.limits.max_file (length self.old.1.log.bytes))) }
        ensures room { ShowsOf (D.told self.old.0) self.old.1 (λ s. IfOk result
            (λ done. (done.spilled ≡ true) ↔ HasNoRoom (length self.old.1.log.bytes)
            (room_of s (size event.now + 13) (size_of_list (puts_of s txn.now))))) }
        ensures full { ShowsOf (D.told self.old.0) self.old.1 (λ s. IfOk result
            (λ done. done.spilled ≡ true → Tells (D.told self.old.0) (D.told self.new.0)
            (HadNoRoom (room_of s (size event.now + 13) (size_of_list (puts_of s txn.now)))))) }
        ensures later { D.faults self.old.0 ≤ D.faults self.new.0 }
        ensures well { is_fault (Face.Put txn.now event.now result) ≡ false
            → D.faults self.new.0 ≡ D.faults self.old.0 }
        ensures fault { IsErrOf result PutRefused.DiskFault
            → Rose (D.faults self.old.0) (D.faults self.new.0) }
        ensures no_room { ShowsOf (D.told self.old.0) self.old.1
            (λ s. IsErrOf result PutRefused.DiskFault
            → HasNoRoom (length self.old.1.log.bytes)
            (room_of s (size event.now + 13) (size_of_list (puts_of s txn.now)))) }
    {
        if self.held.has_puts(txn) && self.is_spent() {
            return Err(PutRefused::Spent {
                counter: Counter::File,
            });
        }
        self.put_in_log(txn, event)
    }

    /// Takes an event, as [`LoggedPlaces::take_in_log`], unless no log file is left.
    pub fn take(&mut self, txn: &TakeTxn) -> Result<Taken, TakeRefused>
        ensures step { StepsOn (D.told self.old.0) (D.told self.new.0) self.old.1 self.new.1
            (Face.Take txn.now result) }
        ensures spent { ShowsOf (D.told self.old.0) self.old.1 (λ s. s.broken ≡ false
            → IsSome (takes_of s txn.now) → WhereTold (D.told self.old.0)
            (λ t. (result ≡ Err (TakeRefused.Spent File)) ↔ IsSpentLog t s.rules.limits.max_file)) }
        ensures quiet { flushes (Face.Take txn.now result) ≡ false
            → D.told self.new.0 ≡ D.told self.old.0 }
        ensures any_moment { ShowsOf (D.told self.old.0) self.old.1
            (λ s. flushes (Face.Take txn.now result) ≡ true
            → Tells (D.told self.old.0) (D.told self.new.0) (λ t u. Flushed s t u)) }
        ensures fills { ShowsOf (D.told self.old.0) self.old.1
            (λ s. flushes (Face.Take txn.now result) ≡ true
            → Tells (D.told self.old.0) (D.told self.new.0)
            (FillsFiles s.rules.limits.max_file (length self.old.1.log.bytes))) }
        ensures room { ShowsOf (D.told self.old.0) self.old.1 (λ s. IfOk result
            (λ taken. (taken.spilled ≡ true) ↔ IsSome taken.event
            × HasNoRoom (length self.old.1.log.bytes)
            (room_of s 17 (size_of_list (takes_of s txn.now))))) }
        ensures full { ShowsOf (D.told self.old.0) self.old.1 (λ s. IfOk result
            (λ taken. taken.spilled ≡ true → Tells (D.told self.old.0) (D.told self.new.0)
            (HadNoRoom (room_of s 17 (size_of_list (takes_of s txn.now)))))) }
        ensures later { D.faults self.old.0 ≤ D.faults self.new.0 }
        ensures well { is_fault (Face.Take txn.now result) ≡ false
            → D.faults self.new.0 ≡ D.faults self.old.0 }
        ensures read { IsErrOf result TakeRefused.ReadFault
            → Rose (D.faults self.old.0) (D.faults self.new.0) }
        ensures fault { IsErrOf result TakeRefused.DiskFault
            → Rose (D.faults self.old.0) (D.faults self.new.0) }
        ensures no_room { ShowsOf (D.told self.old.0) self.old.1
            (λ s. IsErrOf result TakeRefused.DiskFault
            → HasNoRoom (length self.old.1.log.bytes)
            (room_of s 17 (size_of_list (takes_of s txn.now)))) }
    {
        if self.held.has_takes(txn) && self.is_spent() {
            return Err(TakeRefused::Spent {
                counter: Counter::File,
            });
        }
        self.take_in_log(txn)
    }

    // Whether a put or a take finds no log file left: the last one has reached the length at which a file is left.
    fn is_spent(&self) -> bool
        ensures whole { ShowsOf (D.told self.now.0) self.now.1 (λ s. IsTrue result
            → (s.broken ≡ false) × (s.rules.kind ≡ Kind.File)) }
        ensures told { ShowsOf (D.told self.now.0) self.now.1 (λ s. s.broken ≡ false
            → WhereTold (D.told self.now.0) (λ t. IsTrue result
            ↔ IsSpentLog t s.rules.limits.max_file)) }
    {
        !self.held.is_broken() && at_last_end(&self.held, &self.writing.log)
    }

    /// Whether what the ticket stands for is settled.
    pub fn settled(&self, ticket: &Ticket) -> Settled
        ensures { ShowsOf (D.told self.now.0) self.now.1 (λ s. result ≡ Face.settled s ticket.now) }
    {
        self.held.settled(ticket)
    }

    /// How many events are left.
    pub fn size(&self) -> u64
        ensures { ShowsOf (D.told self.now.0) self.now.1 (λ s. result ≡ length s.items) }
    {
        self.held.size() as u64
    }

    /// The most events.
    pub fn capacity(&self) -> u64
        ensures { ShowsOf (D.told self.now.0) self.now.1 (λ s. result ≡ s.rules.limits.capacity) }
    {
        u64::from(self.held.capacity())
    }

    /// Whether the channel is broken.
    pub fn is_broken(&self) -> bool
        ensures { ShowsOf (D.told self.now.0) self.now.1 (λ s. result ≡ s.broken) }
    {
        self.held.is_broken()
    }

    /// How many puts and takes are staged, up to 2^64 - 1.
    pub fn staged(&self) -> (u64, u64)
        ensures puts { ShowsOf (D.told self.now.0) self.now.1
            (λ s. result.0 ≡ length (put_events s.staged)) }
        ensures takes { ShowsOf (D.told self.now.0) self.now.1
            (λ s. result.1 ≡ capped (length (taken_numbers s.staged))) }
    {
        (self.held.puts_staged(), self.held.takes_staged())
    }

    /// Hands the disk back.
    pub fn close(self) -> D
        ensures { result ≡ self.0 }
    {
        let LoggedPlaces { held: _, writing } = self;
        let Writing {
            alloc: _,
            disk,
            log: _,
            busy: _,
        } = writing;
        disk
    }
}

/// The length of the record of a take.
const TAKE_LENGTH: u64 = 17;

/// The offset of the first record of a log file.
const FIRST_RECORD: u64 = 17;

/// Adds a put to a transaction, with its record.
pub(crate) fn add_put<D: Disk + Drop>(
    held: &mut Held,
    writing: &mut Writing<D>,
    txn: &PutTxn,
    event: &Event,
    first: bool,
)
    requires may { (pointer : pointers.Pointer) → MayPut held.old txn.now pointer }
    requires limit { size event.now ≤ MAX_PUT_SIZE }
    requires room { HasRoom writing.old.log (size event.now + 13 + kept writing.old.busy first) }
    requires few { writing.old.busy ≤ 1024 }
    ensures fits { (s : State) (events : List Content)
        → Fits (D.told writing.old.disk)
        (record { places = held.old; log = writing.old.log; busy = writing.old.busy }) s
        → puts_of s txn.now ≡ Some events → first ≡ (length events == 0)
        → Fits (D.told writing.new.disk)
        (record { places = held.new; log = writing.new.log; busy = writing.new.busy })
        (Face.add_put s txn.now.number (Some events) event.now) }
    ensures waits { length writing.new.log.bytes
        ≡ length writing.old.log.bytes + (size event.now + 13) }
    ensures disk { writing.new.disk ≡ writing.old.disk }
{
    let pointer = Pointer {
        file: writing.log.file(),
        at: writing.log.next_at(),
        length: event.size() as u32,
    };
    writing.add_put(txn.number(), event, first);
    held.put(txn, pointer);
}

/// Adds the first free event to what a transaction takes, with its record.
pub(crate) fn add_take<D: Disk + Drop>(
    held: &mut Held,
    writing: &mut Writing<D>,
    txn: &TakeTxn,
    number: u64,
    first: bool,
)
    requires may { MayTake held.old txn.now }
    requires room { HasRoom writing.old.log (17 + kept writing.old.busy first) }
    requires few { writing.old.busy ≤ 1024 }
    ensures fits { (s : State) (numbers : List ℕ) (event : Content) (rest : List (ℕ × Content))
        → Fits (D.told writing.old.disk)
        (record { places = held.old; log = writing.old.log; busy = writing.old.busy }) s
        → takes_of s txn.now ≡ Some numbers → free s ≡ (number, event) ∷ rest
        → first ≡ (length numbers == 0)
        → Fits (D.told writing.new.disk)
        (record { places = held.new; log = writing.new.log; busy = writing.new.busy })
        (Face.add_take s txn.now.number (Some numbers) ((number, event) ∷ rest)) }
    ensures waits { length writing.new.log.bytes ≡ length writing.old.log.bytes + 17 }
    ensures disk { writing.new.disk ≡ writing.old.disk }
{
    writing.add_take(txn.number(), number, first);
    held.take(txn);
}

// Begins the next log file, in which what waits for a flush goes on, and moves the pointers of puts that wait.
fn go_on<D: Disk + Drop>(held: &mut Held, writing: &mut Writing<D>) -> Result<(), Failed>
    requires state { (s : State) × IsStateOf (D.told writing.old.disk)
        (record { places = held.old; log = writing.old.log; busy = writing.old.busy }) s
        × (s.broken ≡ false) }
    requires framed { 16 < writing.old.log.gate }
    requires follows { writing.old.log.file < 4_294_967_295 }
    ensures state { OnOk result ((s : State) → IsStateOf (D.told writing.old.disk)
        (record { places = held.old; log = writing.old.log; busy = writing.old.busy }) s
        → s.broken ≡ false → IsStateOf (D.told writing.new.disk)
        (record { places = held.new; log = writing.new.log; busy = writing.new.busy }) s) }
    ensures put { OnOk result ((token : Token) (pointer : pointers.Pointer)
        → MayPut held.old token pointer → MayPut held.new token pointer) }
    ensures take { OnOk result ((token : Token) → MayTake held.old token → MayTake held.new token) }
    ensures any_moment { (s : State) → IsStateOf (D.told writing.old.disk)
        (record { places = held.old; log = writing.old.log; busy = writing.old.busy }) s
        → s.broken ≡ false → Tells (D.told writing.old.disk) (D.told writing.new.disk)
        (λ t u. LeavesOnly t u (RecoversSettled s)) }
    ensures begins { Tells (D.told writing.old.disk) (D.told writing.new.disk)
        (Changes (Log (writing.old.log.file + 1)) IsBlank 1) }
    ensures moved { OnOk result (writing.new.log ≡ record writing.old.log {
      file = writing.old.log.file + 1;
      gate = 16;
      started = false;
    }) }
    ensures busy { writing.new.busy ≡ writing.old.busy }
    ensures refused { OnErr result ((writing.new.log ≡ writing.old.log) × (held.new ≡ held.old)) }
    ensures cause { HasCause (D.faults writing.old.disk) (D.faults writing.new.disk) result }
{
    let file = writing.log.file();
    let gate = writing.log.gate_at();
    match writing.roll() {
        Ok(()) => {
            held.moved(file, gate + 1, file + 1, FIRST_RECORD);
            Ok(())
        }
        Err(_) => Err(Failed),
    }
}

// Settles all that is staged, in the log's file as it is. Where that fails, the channel is broken.
fn settle_here<D: Disk + Drop>(held: &mut Held, writing: &mut Writing<D>) -> Result<(), Failed>
    requires { (s : State) × IsStateOf (D.told writing.old.disk)
        (record { places = held.old; log = writing.old.log; busy = writing.old.busy }) s
        × (s.broken ≡ false) }
    ensures fits { OnOk result ((s : State) → IsStateOf (D.told writing.old.disk)
        (record { places = held.old; log = writing.old.log; busy = writing.old.busy }) s
        → s.broken ≡ false → Fits (D.told writing.new.disk)
        (record { places = held.new; log = writing.new.log; busy = writing.new.busy }) (settle s)) }
    ensures put { OnOk result ((token : Token) (pointer : pointers.Pointer)
        → MayPut held.old token pointer → MayPut held.new token pointer) }
    ensures take { OnOk result ((token : Token) → MayTake held.old token → MayTake held.new token) }
    ensures failed { OnErr result ((s : State) → IsStateOf (D.told writing.old.disk)
        (record { places = held.old; log = writing.old.log; busy = writing.old.busy }) s
        → s.broken ≡ false → IsStateOf (D.told writing.new.disk)
        (record { places = held.new; log = writing.new.log; busy = writing.new.busy })
        (broken_state s)) }
    ensures any_moment { (s : State) → IsStateOf (D.told writing.old.disk)
        (record { places = held.old; log = writing.old.log; busy = writing.old.busy }) s
        → s.broken ≡ false → Tells (D.told writing.old.disk) (D.told writing.new.disk)
        (λ t u. LeavesOnly t u (MayRecover s)) }
    ensures writes { Tells (D.told writing.old.disk) (D.told writing.new.disk)
        (ChangesAlone writing.old.log.file 2) }
    ensures moved { OnOk result (1 ≤ writing.old.log.count
        → writing.new.log ≡ record writing.old.log {
          gate = writing.old.log.gate + length writing.old.log.bytes + 6;
          started = true;
          bytes = [];
          count = 0;
        }) }
    ensures empty { OnOk result (writing.new.log.bytes ≡ []) }
    ensures nothing { length writing.old.log.bytes ≡ 0 → IsOk result
        × (D.told writing.new.disk ≡ D.told writing.old.disk) }
    ensures busy { writing.new.busy ≡ writing.old.busy }
    ensures refused { OnErr result (writing.new.log ≡ writing.old.log) }
    ensures cause { HasCause (D.faults writing.old.disk) (D.faults writing.new.disk) result }
{
    match writing.flush() {
        Ok(()) => {
            held.settle();
            Ok(())
        }
        Err(_) => {
            held.set_broken();
            Err(Failed)
        }
    }
}

/// Settles all that is staged. Where the log's file would pass its greatest length, what waits goes on in a next one first. Where
/// the disk fails, the channel is broken.
pub(crate) fn settle_staged<D: Disk + Drop>(
    held: &mut Held,
    writing: &mut Writing<D>,
) -> Result<(), Failed>
    requires { (s : State) × IsStateOf (D.told writing.old.disk)
        (record { places = held.old; log = writing.old.log; busy = writing.old.busy }) s
        × (s.broken ≡ false) }
    ensures fits { OnOk result ((s : State) → IsStateOf (D.told writing.old.disk)
        (record { places = held.old; log = writing.old.log; busy = writing.old.busy }) s
        → s.broken ≡ false → Fits (D.told writing.new.disk)
        (record { places = held.new; log = writing.new.log; busy = writing.new.busy }) (settle s)) }
    ensures put { OnOk result ((token : Token) (pointer : pointers.Pointer)
        → MayPut held.old token pointer → MayPut held.new token pointer) }
    ensures take { OnOk result ((token : Token) → MayTake held.old token → MayTake held.new token) }
    ensures failed { OnErr result ((s : State) → IsStateOf (D.told writing.old.disk)
        (record { places = held.old; log = writing.old.log; busy = writing.old.busy }) s
        → s.broken ≡ false → IsStateOf (D.told writing.new.disk)
        (record { places = held.new; log = writing.new.log; busy = writing.new.busy })
        (broken_state s)) }
    ensures any_moment { (s : State) → IsStateOf (D.told writing.old.disk)
        (record { places = held.old; log = writing.old.log; busy = writing.old.busy }) s
        → s.broken ≡ false
        → Tells (D.told writing.old.disk) (D.told writing.new.disk) (λ t u. Flushed s t u) }
    ensures fills { (s : State) → IsStateOf (D.told writing.old.disk)
        (record { places = held.old; log = writing.old.log; busy = writing.old.busy }) s
        → s.broken ≡ false → Tells (D.told writing.old.disk) (D.told writing.new.disk)
        (FillsFiles s.rules.limits.max_file (length writing.old.log.bytes)) }
    ensures writes_on { OnOk result (1 ≤ writing.old.log.count
        → WritesOn writing.old.log writing.new.log) }
    ensures empty { OnOk result (writing.new.log.bytes ≡ []) }
    ensures nothing { length writing.old.log.bytes ≡ 0 → IsOk result
        × (D.told writing.new.disk ≡ D.told writing.old.disk) }
    ensures busy { writing.new.busy ≡ writing.old.busy }
    ensures refused { OnErr result (writing.new.log.bytes ≡ writing.old.log.bytes) }
    ensures cause { HasCause (D.faults writing.old.disk) (D.faults writing.new.disk) result }
{
    if !writing.log.must_roll() {
        return settle_here(held, writing);
    }
    match go_on(held, writing) {
        Ok(()) => settle_here(held, writing),
        Err(_) => {
            held.set_broken();
            Err(Failed)
        }
    }
}

/// Adds the first free event, which was read, to what a transaction takes. Where the frame has no room for the record, all that
/// is staged is settled first.
pub(crate) fn take_read<D: Disk + Drop>(
    held: &mut Held,
    writing: &mut Writing<D>,
    txn: &TakeTxn,
    number: u64,
    event: Event,
) -> Result<Taken, TakeRefused>
    requires may { MayTake held.old txn.now }
    requires state { (s : State) × (kept : Content) × (rest : List (ℕ × Content))
        × IsStateOf (D.told writing.old.disk)
        (record { places = held.old; log = writing.old.log; busy = writing.old.busy }) s
        × (take_refusal s (takes_of s txn.now) ≡ None) × (free s ≡ (number, kept) ∷ rest) }
    ensures step { (s : State) (kept : Content) (rest : List (ℕ × Content))
        → IsStateOf (D.told writing.old.disk)
        (record { places = held.old; log = writing.old.log; busy = writing.old.busy }) s
        → take_refusal s (takes_of s txn.now) ≡ None → free s ≡ (number, kept) ∷ rest
        → Face.Gives (Face.is_some_of (D.told writing.old.disk)) (Some kept) (Some event)
        → Steps (D.told writing.old.disk) (D.told writing.new.disk)
        (record { places = held.old; log = writing.old.log; busy = writing.old.busy })
        (record { places = held.new; log = writing.new.log; busy = writing.new.busy })
        (Face.Take txn.now result) s }
    ensures ok { IfOk result (λ taken. taken.event ≡ Some event) }
    ensures err { IfErr result (λ refused. refused ≡ TakeRefused.DiskFault) }
    ensures quiet { flushes (Face.Take txn.now result) ≡ false
        → writing.new.disk ≡ writing.old.disk }
    ensures any_moment { (s : State) → IsStateOf (D.told writing.old.disk)
        (record { places = held.old; log = writing.old.log; busy = writing.old.busy }) s
        → s.broken ≡ false → flushes (Face.Take txn.now result) ≡ true
        → Tells (D.told writing.old.disk) (D.told writing.new.disk) (λ t u. Flushed s t u) }
    ensures fills { (s : State) → IsStateOf (D.told writing.old.disk)
        (record { places = held.old; log = writing.old.log; busy = writing.old.busy }) s
        → s.broken ≡ false → flushes (Face.Take txn.now result) ≡ true
        → Tells (D.told writing.old.disk) (D.told writing.new.disk)
        (FillsFiles s.rules.limits.max_file (length writing.old.log.bytes)) }
    ensures room { (s : State) → IsStateOf (D.told writing.old.disk)
        (record { places = held.old; log = writing.old.log; busy = writing.old.busy }) s
        → s.broken ≡ false → IfOk result
        (λ taken. (taken.spilled ≡ true) ↔ IsSome taken.event
        × HasNoRoom (length writing.old.log.bytes)
        (room_of s 17 (size_of_list (takes_of s txn.now)))) }
    ensures full { (s : State) → IsStateOf (D.told writing.old.disk)
        (record { places = held.old; log = writing.old.log; busy = writing.old.busy }) s
        → s.broken ≡ false → IfOk result
        (λ taken. taken.spilled ≡ true → Tells (D.told writing.old.disk) (D.told writing.new.disk)
        (HadNoRoom (room_of s 17 (size_of_list (takes_of s txn.now))))) }
    ensures no_room { (s : State) → IsStateOf (D.told writing.old.disk)
        (record { places = held.old; log = writing.old.log; busy = writing.old.busy }) s
        → s.broken ≡ false → IsErrOf result TakeRefused.DiskFault
        → HasNoRoom (length writing.old.log.bytes)
        (room_of s 17 (size_of_list (takes_of s txn.now))) }
    ensures cause { HasCause (D.faults writing.old.disk) (D.faults writing.new.disk) result }
{
    let first = held.size_of_takes(txn) == 0;
    if writing.has_room(TAKE_LENGTH, first) {
        add_take(held, writing, txn, number, first);
        return Ok(Taken {
            event: Some(event),
            spilled: false,
        });
    }
    match settle_staged(held, writing) {
        Ok(()) => {}
        Err(_) => return Err(TakeRefused::DiskFault),
    }
    add_take(held, writing, txn, number, first);
    Ok(Taken {
        event: Some(event),
        spilled: true,
    })
}
