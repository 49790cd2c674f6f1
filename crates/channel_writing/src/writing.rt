// The log of a channel as it is written: each change of the channel's state has its record.
ghost use Rattle.std.specs.Prelude.{◌≡◌, ◌<◌, ◌≤◌, ◌+◌, ◌-◌, ◌*◌, ◌^◌, ◌++◌, ◌∷◌, [], ◌↔◌, ◌==◌, ℕ, List, length, Some, None, OnOk, OnErr, IsOk, IsTrue, if◌then◌else◌, false, true};
ghost use Rattle.flume_host.specs.Causes.{HasCause};
ghost use Rattle.flume_host.specs.Told.{Changes, LeavesOnly, Tells};
ghost use Rattle.flume_host.specs.declared.names.FileName.TheVariants.{Log};
ghost use Rattle.event_core.specs.Content.{Content, size};
ghost use Rattle.event_core.specs.Journal.{is_among, taken_numbers};
ghost use Rattle.event_core.specs.declared.journal.Entry.{Entry};
ghost use Rattle.channel_face.specs.Machine.{State, close, entry_of, free, next_number, settle, stage, with_entry};
ghost use Rattle.record_form.specs.declared.record.Rec as recs;
ghost use Rattle.record_form.specs.declared.record.Rec.TheVariants as records;
ghost use Rattle.channel_log.specs.Writer.{Appends, HasRoom, IsBlank, IsPending, IsReady, LacksOrHas};
ghost use Rattle.channel_replay.specs.StartLaws.{done_of};
ghost use Rattle.channel_writing.specs.Touches.{ChangesAlone};
ghost use Rattle.channel_writing.specs.Written.{IsLogged, MayRecover, RecoversSettled, kept};

use channel_log::{LogRollRefused, LogWriter};
use event_core::Event;
use flume_host::{Disk, Failed};
use record_form::{MAX_PUT_SIZE, Rec};
use std::alloc::Global;

/// The room that is kept for the record that ends a transaction.
const END_ROOM: u64 = 21;

/// A disk with the log that a channel writes on it.
#[derive(Drop)]
pub struct Writing<D: Disk + Drop> {
    pub alloc: Global,
    pub disk: D,
    pub log: LogWriter,
    /// How many open transactions have records in the log.
    pub busy: u64,
}

impl<D: Disk + Drop> Writing<D> {
    /// Whether the frame has room for a record of this length, the first one of its transaction or a later one.
    pub fn has_room(&self, length: u64, first: bool) -> bool
        requires { self.now.busy ≤ 1024 }
        ensures { IsTrue result ↔ HasRoom self.now.log (length + kept self.now.busy first) }
    {
        let more = if first { 1 } else { 0 };
        self.log.has_room(length, END_ROOM * (self.busy + more))
    }

    /// Adds the record of a put.
    pub fn add_put(&mut self, txn: u64, event: &Event, first: bool)
        requires limit { size event.now ≤ MAX_PUT_SIZE }
        requires room { HasRoom self.old.log (size event.now + 13 + kept self.old.busy first) }
        requires few { self.old.busy ≤ 1024 }
        ensures log { Appends self.old.log self.new.log (records.Put txn event.now) }
        ensures logged { (s : State) (events : List Content)
            → IsLogged (D.told self.old.disk) self.old.log self.old.busy s
            → entry_of txn s.opened ≡ Some (Entry.Puts events) → first ≡ (length events == 0)
            → IsLogged (D.told self.new.disk) self.new.log self.new.busy
            (record s {
              opened = with_entry txn
                  (Entry.Puts (events ++ event.now ∷ [])) s.opened;
            }) }
        ensures waits { length self.new.log.bytes
            ≡ length self.old.log.bytes + (size event.now + 13) }
        ensures disk { self.new.disk ≡ self.old.disk }
    {
        self.log.append_put(txn, event);
        if first {
            self.busy += 1;
        }
    }

    /// Adds the record of a take.
    pub fn add_take(&mut self, txn: u64, number: u64, first: bool)
        requires room { HasRoom self.old.log (17 + kept self.old.busy first) }
        requires few { self.old.busy ≤ 1024 }
        ensures log { Appends self.old.log self.new.log (records.Take txn number) }
        ensures logged { (s : State) (numbers : List ℕ) (event : Content)
            (rest : List (ℕ × Content))
            → IsLogged (D.told self.old.disk) self.old.log self.old.busy s
            → entry_of txn s.opened ≡ Some (Entry.Takes numbers) → free s ≡ (number, event) ∷ rest
            → first ≡ (length numbers == 0)
            → IsLogged (D.told self.new.disk) self.new.log self.new.busy
            (record s { opened = with_entry txn (Entry.Takes (numbers ++ number ∷ [])) s.opened }) }
        ensures waits { length self.new.log.bytes ≡ length self.old.log.bytes + 17 }
        ensures disk { self.new.disk ≡ self.old.disk }
    {
        self.log.append(&Rec::Take { txn, number });
        if first {
            self.busy += 1;
        }
    }

    /// Adds the record of a transaction that is given up, which did something.
    pub fn add_rollback(&mut self, txn: u64)
        requires { (s : State) × (entry : Entry)
            × IsLogged (D.told self.old.disk) self.old.log self.old.busy s
            × (entry_of txn s.opened ≡ Some entry) × (done_of (Some entry) ≡ Some entry) }
        ensures log { Appends self.old.log self.new.log (records.Rollback txn) }
        ensures logged { (s : State) (entry : Entry)
            → IsLogged (D.told self.old.disk) self.old.log self.old.busy s
            → entry_of txn s.opened ≡ Some entry → done_of (Some entry) ≡ Some entry
            → IsLogged (D.told self.new.disk) self.new.log self.new.busy (close txn s) }
        ensures waits { length self.new.log.bytes ≡ length self.old.log.bytes + 9 }
        ensures disk { self.new.disk ≡ self.old.disk }
    {
        self.log.append(&Rec::Rollback { txn });
        self.busy -= 1;
    }

    /// Adds the record of puts that are staged.
    pub fn add_commit_put(&mut self, txn: u64, first: u64, count: u32)
        requires some { 1 ≤ count }
        requires logged { (s : State) × (events : List Content)
            × IsLogged (D.told self.old.disk) self.old.log self.old.busy s
            × (entry_of txn s.opened ≡ Some (Entry.Puts events)) × (count ≡ length events) }
        ensures log { Appends self.old.log self.new.log (records.CommitPut txn first count) }
        ensures logged { (s : State) (events : List Content)
            → IsLogged (D.told self.old.disk) self.old.log self.old.busy s
            → entry_of txn s.opened ≡ Some (Entry.Puts events) → count ≡ length events
            → first ≡ next_number s → next_number s + length events ≤ 2 ^ 64 - 1
            → IsLogged (D.told self.new.disk) self.new.log self.new.busy
            (stage txn (Some (Entry.Puts events)) s) }
        ensures waits { length self.new.log.bytes ≡ length self.old.log.bytes + 21 }
        ensures disk { self.new.disk ≡ self.old.disk }
    {
        self.log.append(&Rec::CommitPut { txn, first, count });
        self.busy -= 1;
    }

    /// Adds the record of takes that are staged.
    pub fn add_commit_take(&mut self, txn: u64, count: u32)
        requires some { 1 ≤ count }
        requires logged { (s : State) × (numbers : List ℕ)
            × IsLogged (D.told self.old.disk) self.old.log self.old.busy s
            × (entry_of txn s.opened ≡ Some (Entry.Takes numbers)) × (count ≡ length numbers) }
        ensures log { Appends self.old.log self.new.log (records.CommitTake txn count) }
        ensures logged { (s : State) (numbers : List ℕ)
            → IsLogged (D.told self.old.disk) self.old.log self.old.busy s
            → entry_of txn s.opened ≡ Some (Entry.Takes numbers) → count ≡ length numbers
            → IsLogged (D.told self.new.disk) self.new.log self.new.busy
            (stage txn (Some (Entry.Takes numbers)) s) }
        ensures waits { length self.new.log.bytes ≡ length self.old.log.bytes + 13 }
        ensures disk { self.new.disk ≡ self.old.disk }
    {
        self.log.append(&Rec::CommitTake { txn, count });
        self.busy -= 1;
    }

    /// Begins the next file, in which the waiting records go on; the one before has a frame, and is not the last that there can be.
    /// A crash at any moment of the call leaves what is settled.
    pub fn roll(&mut self) -> Result<(), Failed>
        requires logged { (s : State)
            × IsLogged (D.told self.old.disk) self.old.log self.old.busy s × (s.broken ≡ false) }
        requires framed { 16 < self.old.log.gate }
        requires follows { self.old.log.file < 4_294_967_295 }
        ensures any_moment { (s : State)
            → IsLogged (D.told self.old.disk) self.old.log self.old.busy s → s.broken ≡ false
            → Tells (D.told self.old.disk) (D.told self.new.disk)
            (λ t u. LeavesOnly t u (RecoversSettled s)) }
        ensures logged { OnOk result ((s : State)
            → IsLogged (D.told self.old.disk) self.old.log self.old.busy s
            → IsLogged (D.told self.new.disk) self.new.log self.new.busy s) }
        ensures begins { Tells (D.told self.old.disk) (D.told self.new.disk)
            (Changes (Log (self.old.log.file + 1)) IsBlank 1) }
        ensures begun { OnOk result (IsReady (D.told self.new.disk) 2 self.new.log.file 16 []) }
        ensures moved { OnOk result (self.new.log ≡ record self.old.log {
          file = self.old.log.file + 1;
          gate = 16;
          started = false;
        }) }
        ensures busy { self.new.busy ≡ self.old.busy }
        ensures refused { OnErr result (self.new.log ≡ self.old.log) }
        ensures cause { HasCause (D.faults self.old.disk) (D.faults self.new.disk) result }
    {
        match self.log.roll(&mut self.disk) {
            Ok(()) => Ok(()),
            Err(LogRollRefused::DiskFault) => Err(Failed),
            Err(LogRollRefused::Spent) => unreachable!(),
        }
    }

    /// Writes the waiting records as a frame. A crash at any moment of the call leaves what is settled, or that with what is
    /// staged.
    pub fn flush(&mut self) -> Result<(), Failed>
        requires { (s : State) × IsLogged (D.told self.old.disk) self.old.log self.old.busy s
            × (s.broken ≡ false) }
        ensures any_moment { (s : State)
            → IsLogged (D.told self.old.disk) self.old.log self.old.busy s → s.broken ≡ false
            → Tells (D.told self.old.disk) (D.told self.new.disk)
            (λ t u. LeavesOnly t u (MayRecover s)) }
        ensures writes { (s : State) → IsLogged (D.told self.old.disk) self.old.log self.old.busy s
            → s.broken ≡ false → Tells (D.told self.old.disk) (D.told self.new.disk)
            (ChangesAlone self.old.log.file 2) }
        ensures logged { OnOk result ((s : State)
            → IsLogged (D.told self.old.disk) self.old.log self.old.busy s → s.broken ≡ false
            → ((n : ℕ) → next_number s ≤ n → is_among (taken_numbers s.staged) n ≡ false)
            → IsLogged (D.told self.new.disk) self.new.log self.new.busy (settle s)) }
        ensures changes { (birth : ℕ) (frames : List (List recs.Rec)) (waits : List recs.Rec)
            → IsReady (D.told self.old.disk) birth self.old.log.file self.old.log.gate frames
            → IsPending self.old.log waits → 1 ≤ length waits
            → Tells (D.told self.old.disk) (D.told self.new.disk)
            (Changes (Log self.old.log.file) (LacksOrHas birth self.old.log.file frames waits) 2) }
        ensures flushed { OnOk result ((birth : ℕ) (frames : List (List recs.Rec))
            (waits : List recs.Rec)
            → IsReady (D.told self.old.disk) birth self.old.log.file self.old.log.gate frames
            → IsPending self.old.log waits → 1 ≤ length waits
            → IsReady (D.told self.new.disk) birth self.old.log.file self.new.log.gate
            (frames ++ waits ∷ [])) }
        ensures same { OnOk result (self.old.log.count ≡ 0 → (self.new.log ≡ self.old.log)
            × (D.told self.new.disk ≡ D.told self.old.disk)) }
        ensures moved { OnOk result (1 ≤ self.old.log.count
            → self.new.log ≡ record self.old.log {
              gate = self.old.log.gate + length self.old.log.bytes + 6;
              started = true;
              bytes = [];
              count = 0;
            }) }
        ensures empty { OnOk result (self.new.log.bytes ≡ []) }
        ensures nothing { length self.old.log.bytes ≡ 0 → IsOk result
            × (D.told self.new.disk ≡ D.told self.old.disk) }
        ensures busy { self.new.busy ≡ self.old.busy }
        ensures refused { OnErr result (self.new.log ≡ self.old.log) }
        ensures cause { HasCause (D.faults self.old.disk) (D.faults self.new.disk) result }
    {
        match self.log.flush(&mut self.disk) {
            Ok(()) => Ok(()),
            Err(_) => Err(Failed),
        }
    }
}
