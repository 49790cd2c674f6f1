// The lists of a channel, with what is counted of its calls.
ghost use Rattle.std.specs.Prelude.{◌≡◌, ◌<◌, ◌≤◌, ◌-◌, ◌^◌, ◌++◌, ◌∷◌, [], ℕ, List, length, Ok, Err, OnOk, OnErr, IfErr, IfOk, IsErrOf, true, false};
ghost use Rattle.event_core.specs.Content.{Content};
ghost use Rattle.event_core.specs.declared.journal.Entry.{Entry};
ghost use Rattle.channel_face.specs.Calls.{cause_of};
ghost use Rattle.channel_face.specs.Counters.{Tally, counts_with};
ghost use Rattle.channel_face.specs.History.{opening};
ghost use Rattle.channel_face.specs.Machine.{BeginPut, BeginTake, Put, Take, StagePut, StageTake, Flush, RollbackPut, RollbackTake, Reopen, Front, broken_state, free, settled, with_entry};
ghost use Rattle.channel_face.specs.Token.{Token};
ghost use Rattle.channel_face.specs.declared.replies.FlushRefused.TheVariants as FlushNo;
ghost use Rattle.channel_face.specs.declared.replies.Kind.{Kind};
ghost use Rattle.channel_face.specs.declared.replies.OpenCause.{OpenCause};
ghost use Rattle.channel_face.specs.declared.replies.PutRefused.{PutRefused};
ghost use Rattle.channel_face.specs.declared.replies.PutRefused.TheVariants as PutNo;
ghost use Rattle.channel_face.specs.declared.replies.TakeRefused.{TakeRefused};
ghost use Rattle.txn_core.specs.Counted.{Counted, Makes};
ghost use Rattle.txn_core.specs.Places.{IsAt};
ghost use Rattle.txn_core.specs.Sound.{first_number};
ghost use Rattle.txn_core.specs.declared.calls.Call.{Call};

use crate::calls::{Call, Reply, note};
use crate::lists::ChannelLists;
use crate::settle::Item;
use channel_face::{
    BeginRefused, Counts, FlushRefused, Kind, Limits, PutRefused, PutTxn, Settled, StageRefused,
    TakeRefused, TakeTxn, Taken, Ticket,
};
use event_core::{Event, NoMemory};
use std::alloc::Global;
use std::marker::Model;

/// The lists of a channel, with what is counted of its calls.
#[derive(Drop)]
pub struct CountedLists {
    lists: ChannelLists,
    counts: Counts,
}

impl Model for CountedLists {
    ghost use Rattle.txn_core.specs.Counted.{Counted, tally_of};

    ghost Value = { Counted };

    ghost view = { λ c. record { state = c.lists; tally = tally_of c.counts } };
}

impl CountedLists {
    /// A new channel, with these events left and these next numbers, of which nothing is counted.
    pub fn begin(
        alloc: Global,
        kind: Kind,
        limits: Limits,
        items: Vec<Item>,
        first: u64,
        txn: u64,
    ) -> CountedLists
        requires txn { 1 ≤ txn }
        requires capacity { length items.items ≤ limits.capacity }
        ensures state { (faults from : ℕ) → result.state
            ≡ opening (record {
              rules = record { kind = kind; limits = limits };
              base = record { items = items.items; first = first };
              txn = txn;
              faults = faults;
              from = from;
              tells = true;
            }) }
        ensures tally { result.tally ≡ record
            { put_attempts = 0; put_successes = 0; take_attempts = 0; take_successes = 0 } }
    {
        CountedLists {
            lists: ChannelLists::begin(alloc, kind, limits, items, first, txn),
            counts: Counts {
                put_attempts: 0,
                put_successes: 0,
                take_attempts: 0,
                take_successes: 0,
                size: 0,
                capacity: 0,
            },
        }
    }

    /// The same lists once more, with what was counted.
    pub fn copy(&self) -> Result<CountedLists, NoMemory>
        ensures { IfOk result (λ lists. lists ≡ self.now) }
    {
        Ok(CountedLists {
            lists: self.lists.copy()?,
            counts: self.counts,
        })
    }

    /// Begins a transaction of puts.
    pub fn begin_put(&mut self) -> Result<PutTxn, BeginRefused>
        ensures { Makes self.old (BeginPut result) self.new }
    {
        let result = self.lists.begin_put();
        note(
            &mut self.counts,
            Call::BeginPut,
            Reply::quiet(result.is_ok()),
        );
        result
    }

    /// Begins a transaction of takes.
    pub fn begin_take(&mut self) -> Result<TakeTxn, BeginRefused>
        ensures { Makes self.old (BeginTake result) self.new }
    {
        let result = self.lists.begin_take();
        note(
            &mut self.counts,
            Call::BeginTake,
            Reply::quiet(result.is_ok()),
        );
        result
    }

    /// Puts an event. It never spills.
    pub fn put(&mut self, txn: &mut PutTxn, event: &Event) -> Result<channel_face::Put, PutRefused>
        ensures step { Makes self.old (Put txn.old event.now result) self.new }
        ensures spills { IfOk result (λ done. done.spilled ≡ false) }
        ensures fault { ¬ IsErrOf result PutRefused.DiskFault }
        ensures same { txn.new ≡ txn.old }
    {
        let result = self.lists.put(txn, event);
        note(&mut self.counts, Call::Put, Reply::quiet(result.is_ok()));
        result
    }

    /// Takes the first event that no transaction took. It never spills.
    pub fn take(&mut self, txn: &mut TakeTxn) -> Result<Taken, TakeRefused>
        ensures step { Makes self.old (Take txn.old result) self.new }
        ensures spills { IfOk result (λ taken. taken.spilled ≡ false) }
        ensures read { ¬ IsErrOf result TakeRefused.ReadFault }
        ensures fault { ¬ IsErrOf result TakeRefused.DiskFault }
        ensures same { txn.new ≡ txn.old }
    {
        let result = self.lists.take(txn);
        note(&mut self.counts, Call::Take, Reply::quiet(result.is_ok()));
        result
    }

    /// Stages a transaction of puts.
    pub fn stage_put(&mut self, txn: PutTxn) -> Result<Ticket, StageRefused<PutTxn>>
        ensures step { Makes self.old (StagePut txn (cause_of result)) self.new }
        ensures back { IfErr result (λ refused. refused.txn ≡ txn) }
    {
        let result = self.lists.stage_put(txn);
        note(
            &mut self.counts,
            Call::StagePut,
            Reply::quiet(result.is_ok()),
        );
        result
    }

    /// Stages a transaction of takes.
    pub fn stage_take(&mut self, txn: TakeTxn) -> Result<Ticket, StageRefused<TakeTxn>>
        ensures step { Makes self.old (StageTake txn (cause_of result)) self.new }
        ensures back { IfErr result (λ refused. refused.txn ≡ txn) }
    {
        let result = self.lists.stage_take(txn);
        note(
            &mut self.counts,
            Call::StageTake,
            Reply::quiet(result.is_ok()),
        );
        result
    }

    /// Settles what is staged. `Broken` is its only refusal.
    pub fn flush(&mut self) -> Result<(), FlushRefused>
        ensures step { Makes self.old (Flush result) self.new }
        ensures refused { IfErr result (λ refused. refused ≡ FlushRefused.Broken) }
    {
        let (puts, takes) = (self.lists.staged_puts(), self.lists.staged_takes());
        match self.lists.flush() {
            Ok(()) => {
                let reply = Reply {
                    done: true,
                    settled_puts: puts,
                    settled_takes: takes,
                };
                note(&mut self.counts, Call::Flush, reply);
                Ok(())
            }
            Err(refused) => {
                note(&mut self.counts, Call::Flush, Reply::quiet(false));
                Err(refused)
            }
        }
    }

    /// Gives a transaction of puts up.
    pub fn rollback_put(&mut self, txn: PutTxn) -> bool
        ensures { Makes self.old (RollbackPut txn result) self.new }
    {
        let ended = self.lists.rollback_put(txn);
        note(&mut self.counts, Call::RollbackPut, Reply::quiet(ended));
        ended
    }

    /// Gives a transaction of takes up.
    pub fn rollback_take(&mut self, txn: TakeTxn) -> bool
        ensures { Makes self.old (RollbackTake txn result) self.new }
    {
        let ended = self.lists.rollback_take(txn);
        note(&mut self.counts, Call::RollbackTake, Reply::quiet(ended));
        ended
    }

    /// Whether what the ticket stands for is settled.
    pub fn settled(&self, ticket: &Ticket) -> Settled
        ensures { result ≡ settled self.now.state ticket.now }
    {
        self.lists.settled(ticket)
    }

    /// The events that are left, with their numbers.
    pub fn left(&self) -> &[Item]
        ensures { result.now ≡ self.now.state.items }
    {
        self.lists.left()
    }

    /// How many events are left.
    pub fn size(&self) -> u64
        ensures { result ≡ length self.now.state.items }
    {
        self.lists.size()
    }

    /// The most events.
    pub fn capacity(&self) -> u64
        ensures { result ≡ self.now.state.rules.limits.capacity }
    {
        self.lists.capacity()
    }

    /// What was counted, with the size and the capacity.
    pub fn counts(&self) -> Counts
        ensures { result ≡ counts_with self.now.tally self.now.state }
    {
        Counts {
            size: self.lists.size(),
            capacity: self.lists.capacity(),
            ..self.counts
        }
    }

    /// The life: 1 once it was made, and one more with each reopening.
    pub fn life(&self) -> u64
        ensures { result ≡ self.now.state.life }
    {
        self.lists.life()
    }

    /// Whether the channel is broken.
    pub fn is_broken(&self) -> bool
        ensures { result ≡ self.now.state.broken }
    {
        self.lists.is_broken()
    }

    /// The channel breaks, as by a flush of which the disk failed.
    pub fn fail(&mut self)
        ensures broken { self.new ≡ record self.old { state = broken_state self.old.state } }
        ensures call { self.old.state.rules.kind ≡ Kind.File → self.old.state.broken ≡ false
            → Makes self.old (Flush (Err FlushNo.DiskFault)) self.new }
    {
        self.lists.fail();
        note(&mut self.counts, Call::Flush, Reply::quiet(false));
    }

    /// A reopen that keeps so many of the staged entries. Once it was out of memory, the channel is broken.
    pub fn restart(&mut self, kept: usize) -> Result<(), NoMemory>
        requires kind { self.old.state.rules.kind ≡ Kind.File }
        requires kept { kept ≤ length self.old.state.staged }
        requires life { self.old.state.life < 2 ^ 64 - 1 }
        ensures ok { OnOk result (Makes self.old
            (Reopen (Ok (record { kept = Front kept; txn = self.old.state.txn }))) self.new) }
        ensures err { OnErr result (Makes self.old (Reopen (Err OpenCause.NoMemory)) self.new) }
    {
        let result = self.lists.restart(kept);
        note(&mut self.counts, Call::Reopen, Reply::quiet(result.is_ok()));
        result
    }

    /// Takes the last put of the transaction at this place back. Its call stays counted.
    pub fn undo_put(&mut self, place: usize)
        requires { (before : List (ℕ × Entry)) × (number : ℕ) × (events : List Content)
            × (event : Content) × IsAt before number place (Entry.Puts events)
            × (self.old.state.opened ≡ with_entry number
            (Entry.Puts (events ++ event ∷ [])) before) }
        ensures state { (before : List (ℕ × Entry)) (number : ℕ) (events : List Content)
            (event : Content) → IsAt before number place (Entry.Puts events)
            → self.old.state.opened ≡ with_entry number (Entry.Puts (events ++ event ∷ [])) before →
            self.new.state ≡ record self.old.state { opened = before } }
        ensures tally { self.new.tally ≡ self.old.tally }
    {
        self.lists.undo_put(place);
    }

    /// Takes the last take of the transaction at this place back. Its call stays counted.
    pub fn undo_take(&mut self, place: usize)
        requires { (before : List (ℕ × Entry)) × (number : ℕ) × (numbers : List ℕ) × (taken : ℕ)
            × IsAt before number place (Entry.Takes numbers)
            × (self.old.state.opened ≡ with_entry number
            (Entry.Takes (numbers ++ taken ∷ [])) before) }
        ensures state { (before : List (ℕ × Entry)) (number : ℕ) (numbers : List ℕ) (taken : ℕ)
            → IsAt before number place (Entry.Takes numbers)
            → self.old.state.opened ≡ with_entry number (Entry.Takes (numbers ++ taken ∷ [])) before
            → self.new.state ≡ record self.old.state { opened = before } }
        ensures tally { self.new.tally ≡ self.old.tally }
    {
        self.lists.undo_take(place);
    }

    /// The number of the first event that no transaction took.
    pub fn free_number(&self) -> Option<u64>
        ensures { result ≡ first_number (free self.now.state) }
    {
        self.lists.free_number()
    }

    /// Counts a put that is refused when out of memory before it comes to the lists.
    pub fn out_of_memory(&mut self)
        ensures put { (token : Token) (event : Content)
            → Makes self.old (Put token event (Err PutNo.NoMemory)) self.new }
        ensures state { self.new.state ≡ self.old.state }
    {
        note(&mut self.counts, Call::Put, Reply::quiet(false));
    }

    /// Counts a begin that is out of memory before it comes to the lists. It is refused for that only where nothing else
    /// refuses it.
    pub fn refuse_begin(&mut self, call: Call) -> BeginRefused
        ensures begin_put { call ≡ Call.BeginPut → Makes self.old (BeginPut (Err result)) self.new }
        ensures begin_take { call ≡ Call.BeginTake
            → Makes self.old (BeginTake (Err result)) self.new }
        ensures state { self.new.state ≡ self.old.state }
    {
        note(&mut self.counts, call, Reply::quiet(false));
        match self.lists.begin_refusal() {
            Some(refused) => refused,
            None => BeginRefused::NoMemory,
        }
    }
}
