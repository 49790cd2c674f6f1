// The plain channel over lists, with the journal of what it settled.
ghost use Rattle.std.specs.Prelude.{◌≡◌, ◌<◌, ◌≤◌, ◌-◌, ◌^◌, ◌++◌, ℕ, List, length, [], Ok, Err, OnOk, OnErr, IfErr, IfOk, IsErrOf, false, true};
ghost use Rattle.channel_face.specs.Calls.{cause_of};
ghost use Rattle.channel_face.specs.Counters.{counts_with};
ghost use Rattle.channel_face.specs.History.{opening};
ghost use Rattle.channel_face.specs.Machine.{BeginPut, BeginTake, Put, Take, StagePut, StageTake, Flush, RollbackPut, RollbackTake, Reopen, Front, broken_state, settled};
ghost use Rattle.channel_face.specs.declared.replies.FlushRefused.TheVariants as FlushNo;
ghost use Rattle.channel_face.specs.declared.replies.Kind.{Kind};
ghost use Rattle.channel_face.specs.declared.replies.OpenCause.{OpenCause};
ghost use Rattle.channel_face.specs.declared.replies.PutRefused.{PutRefused};
ghost use Rattle.channel_face.specs.declared.replies.TakeRefused.{TakeRefused};
ghost use Rattle.txn_core.specs.Shadow.{Journaled, Journals};

use crate::calls::Call;
use crate::copied::copy_list;
use crate::copies::{
    OpenCopy, end_copy, make_room, place_of_copy, push_put_copy, push_take_copy, stage_copy,
};
use crate::counted::CountedLists;
use crate::opened::push_within;
use crate::settle::Item;
use channel_face::{
    BeginRefused, Counts, FlushRefused, Kind, Limits, PutRefused, PutTxn, Settled, StageRefused,
    TakeRefused, TakeTxn, Taken, Ticket,
};
use event_core::{Batch, Entry, Event, NoMemory, Numbers};
use std::alloc::Global;
use std::marker::Model;

/// The plain channel over lists, of a given kind. It has no device, keeps a copy of each event that it settled, and is for
/// models and comparisons.
#[derive(Drop)]
pub struct Machine {
    lists: CountedLists,
    copies: Vec<OpenCopy>,
    entries: Vec<Entry>,
    settled: usize,
    alloc: Global,
}

impl Model for Machine {
    ghost use Rattle.txn_core.specs.Shadow.{Journaled};
    ghost use Rattle.txn_core.specs.Machine.{journaled_of, IsShadowInside};

    ghost Value = { Journaled };

    ghost view = { journaled_of };

    ghost invariant = { IsShadowInside };
}

impl Machine {
    /// An empty channel.
    pub fn new(alloc: Global, limits: Limits, kind: Kind) -> Result<Machine, NoMemory>
        ensures state { IfOk result (λ m. (faults from : ℕ)
            → m.counted.state ≡ opening (record {
              rules = record { kind = kind; limits = limits };
              base = record { items = []; first = 0 };
              txn = 1;
              faults = faults;
              from = from;
              tells = true;
            })) }
        ensures tally { IfOk result (λ m. m.counted.tally
            ≡ record {
              put_attempts = 0;
              put_successes = 0;
              take_attempts = 0;
              take_successes = 0;
            }) }
        ensures journal { IfOk result (λ m. m.journal ≡ []) }
    {
        let mut items = Vec::new(alloc);
        items.reserve(1)?;
        Ok(Machine {
            lists: CountedLists::begin(alloc, kind, limits, items, 0, 1),
            copies: Vec::new(alloc),
            entries: Vec::new(alloc),
            settled: 0,
            alloc,
        })
    }

    /// The same channel once more. A token of the one is good for the other.
    pub fn copy(&self) -> Result<Machine, NoMemory>
        ensures { IfOk result (λ m. m ≡ self.now) }
    {
        let room = self.entries.len() + self.copies.len();
        Ok(Machine {
            lists: self.lists.copy()?,
            copies: copy_list(self.alloc, &self.copies, self.copies.len())?,
            entries: copy_list(self.alloc, &self.entries, room)?,
            settled: self.settled,
            alloc: self.alloc,
        })
    }

    /// The entries that were settled, in order.
    pub fn journal(&self) -> &[Entry]
        ensures { result.now ≡ self.now.journal }
    {
        &self.entries[..self.settled]
    }

    /// The entries that were settled, and those that are staged, in order.
    pub fn commits(&self) -> &[Entry]
        ensures { result.now ≡ self.now.journal ++ self.now.counted.state.staged }
    {
        &self.entries
    }

    /// Begins a transaction of puts.
    pub fn begin_put(&mut self) -> Result<PutTxn, BeginRefused>
        ensures { Journals self.old (BeginPut result) self.new }
    {
        if make_room(&mut self.copies, &mut self.entries).is_err() {
            return Err(self.lists.refuse_begin(Call::BeginPut));
        }
        match self.lists.begin_put() {
            Ok(txn) => {
                let entry = Entry::Puts(Batch::new(self.alloc));
                push_within(&mut self.copies, (txn.number(), entry));
                Ok(txn)
            }
            Err(refused) => Err(refused),
        }
    }

    /// Begins a transaction of takes.
    pub fn begin_take(&mut self) -> Result<TakeTxn, BeginRefused>
        ensures { Journals self.old (BeginTake result) self.new }
    {
        if make_room(&mut self.copies, &mut self.entries).is_err() {
            return Err(self.lists.refuse_begin(Call::BeginTake));
        }
        match self.lists.begin_take() {
            Ok(txn) => {
                let entry = Entry::Takes(Numbers::new(self.alloc));
                push_within(&mut self.copies, (txn.number(), entry));
                Ok(txn)
            }
            Err(refused) => Err(refused),
        }
    }

    /// Puts an event. It never spills.
    pub fn put(&mut self, txn: &mut PutTxn, event: &Event) -> Result<channel_face::Put, PutRefused>
        ensures step { Journals self.old (Put txn.old event.now result) self.new }
        ensures spills { IfOk result (λ done. done.spilled ≡ false) }
        ensures fault { ¬ IsErrOf result PutRefused.DiskFault }
        ensures same { txn.new ≡ txn.old }
    {
        let Ok(copy) = event.copy() else {
            self.lists.out_of_memory();
            return Err(PutRefused::NoMemory);
        };
        match self.lists.put(txn, event) {
            Ok(done) => {
                let Some(place) = place_of_copy(&self.copies, txn.number()) else {
                    return Ok(done);
                };
                if push_put_copy(&mut self.copies, place, copy).is_err() {
                    self.lists.undo_put(place);
                    return Err(PutRefused::NoMemory);
                }
                Ok(done)
            }
            Err(refused) => Err(refused),
        }
    }

    /// Takes the first event that no transaction took. It never spills.
    pub fn take(&mut self, txn: &mut TakeTxn) -> Result<Taken, TakeRefused>
        ensures step { Journals self.old (Take txn.old result) self.new }
        ensures spills { IfOk result (λ taken. taken.spilled ≡ false) }
        ensures read { ¬ IsErrOf result TakeRefused.ReadFault }
        ensures fault { ¬ IsErrOf result TakeRefused.DiskFault }
        ensures same { txn.new ≡ txn.old }
    {
        let number = self.lists.free_number();
        match self.lists.take(txn) {
            Ok(taken) => {
                let Some(number) = number else {
                    return Ok(taken);
                };
                let Some(place) = place_of_copy(&self.copies, txn.number()) else {
                    return Ok(taken);
                };
                if push_take_copy(&mut self.copies, place, number).is_err() {
                    self.lists.undo_take(place);
                    return Err(TakeRefused::NoMemory);
                }
                Ok(taken)
            }
            Err(refused) => Err(refused),
        }
    }

    /// Stages a transaction of puts.
    pub fn stage_put(&mut self, txn: PutTxn) -> Result<Ticket, StageRefused<PutTxn>>
        ensures step { Journals self.old (StagePut txn (cause_of result)) self.new }
        ensures back { IfErr result (λ refused. refused.txn ≡ txn) }
    {
        let number = txn.number();
        match self.lists.stage_put(txn) {
            Ok(ticket) => {
                stage_copy(&mut self.copies, &mut self.entries, number);
                Ok(ticket)
            }
            Err(refused) => Err(refused),
        }
    }

    /// Stages a transaction of takes.
    pub fn stage_take(&mut self, txn: TakeTxn) -> Result<Ticket, StageRefused<TakeTxn>>
        ensures step { Journals self.old (StageTake txn (cause_of result)) self.new }
        ensures back { IfErr result (λ refused. refused.txn ≡ txn) }
    {
        let number = txn.number();
        match self.lists.stage_take(txn) {
            Ok(ticket) => {
                stage_copy(&mut self.copies, &mut self.entries, number);
                Ok(ticket)
            }
            Err(refused) => Err(refused),
        }
    }

    /// Settles what is staged. `Broken` is its only refusal.
    pub fn flush(&mut self) -> Result<(), FlushRefused>
        ensures step { Journals self.old (Flush result) self.new }
        ensures refused { IfErr result (λ refused. refused ≡ FlushRefused.Broken) }
    {
        match self.lists.flush() {
            Ok(()) => {
                self.settled = self.entries.len();
                Ok(())
            }
            Err(refused) => Err(refused),
        }
    }

    /// Gives a transaction of puts up.
    pub fn rollback_put(&mut self, txn: PutTxn) -> bool
        ensures { Journals self.old (RollbackPut txn result) self.new }
    {
        let number = txn.number();
        if self.lists.rollback_put(txn) {
            let _gone = end_copy(&mut self.copies, number);
            return true;
        }
        false
    }

    /// Gives a transaction of takes up.
    pub fn rollback_take(&mut self, txn: TakeTxn) -> bool
        ensures { Journals self.old (RollbackTake txn result) self.new }
    {
        let number = txn.number();
        if self.lists.rollback_take(txn) {
            let _gone = end_copy(&mut self.copies, number);
            return true;
        }
        false
    }

    /// Whether what the ticket stands for is settled.
    pub fn settled(&self, ticket: &Ticket) -> Settled
        ensures { result ≡ settled self.now.counted.state ticket.now }
    {
        self.lists.settled(ticket)
    }

    /// The events that are left, with their numbers.
    pub fn left(&self) -> &[Item]
        ensures { result.now ≡ self.now.counted.state.items }
    {
        self.lists.left()
    }

    /// How many events are left.
    pub fn size(&self) -> u64
        ensures { result ≡ length self.now.counted.state.items }
    {
        self.lists.size()
    }

    /// The most events.
    pub fn capacity(&self) -> u64
        ensures { result ≡ self.now.counted.state.rules.limits.capacity }
    {
        self.lists.capacity()
    }

    /// What was counted, with the size and the capacity.
    pub fn counts(&self) -> Counts
        ensures { result ≡ counts_with self.now.counted.tally self.now.counted.state }
    {
        self.lists.counts()
    }

    /// The life: 1 once it was made, and one more with each reopening.
    pub fn life(&self) -> u64
        ensures { result ≡ self.now.counted.state.life }
    {
        self.lists.life()
    }

    /// Whether the channel is broken.
    pub fn is_broken(&self) -> bool
        ensures { result ≡ self.now.counted.state.broken }
    {
        self.lists.is_broken()
    }

    /// The channel breaks, and nothing else changes. A channel in a file that was not broken does so as by a flush of which the
    /// disk failed.
    pub fn fail(&mut self)
        ensures broken { self.new ≡ record self.old
            { counted = record self.old.counted { state = broken_state self.old.counted.state } } }
        ensures call { self.old.counted.state.rules.kind ≡ Kind.File
            → self.old.counted.state.broken ≡ false
            → Journals self.old (Flush (Err FlushNo.DiskFault)) self.new }
    {
        self.lists.fail();
    }

    /// A reopening that keeps so many of the staged entries, and the number of the next transaction. Once it was out of memory, the
    /// channel is broken.
    pub fn restart(&mut self, kept: u32) -> Result<(), NoMemory>
        requires kind { self.old.counted.state.rules.kind ≡ Kind.File }
        requires kept { kept ≤ length self.old.counted.state.staged }
        requires life { self.old.counted.state.life < 2 ^ 64 - 1 }
        ensures ok { OnOk result (Journals self.old
            (Reopen (Ok (record { kept = Front kept; txn = self.old.counted.state.txn })))
            self.new) }
        ensures err { OnErr result (Journals self.old (Reopen (Err OpenCause.NoMemory)) self.new) }
    {
        let kept = kept as usize;
        self.lists.restart(kept)?;
        self.copies.clear();
        self.entries.truncate(self.settled + kept);
        self.settled += kept;
        Ok(())
    }
}
