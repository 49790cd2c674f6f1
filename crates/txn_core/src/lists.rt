// The lists of a channel, and each of its calls on them.
ghost use Rattle.std.specs.Prelude.{◌≡◌, ◌<◌, ◌≤◌, ◌+◌, ◌-◌, ◌^◌, ◌++◌, ◌∷◌, [], Ok, Err, ℕ, List, length, slice_set, Option, Some, None, IfSome, IfNone, IfOk, IfErr, IsErrOf, OnOk, OnErr, true, false};
ghost use Rattle.event_core.specs.Content.{Content};
ghost use Rattle.event_core.specs.Journal.{put_events, taken_numbers};
ghost use Rattle.event_core.specs.declared.journal.Entry.{Entry};
ghost use Rattle.channel_face.specs.Calls.{cause_of};
ghost use Rattle.channel_face.specs.Counters.{capped};
ghost use Rattle.channel_face.specs.History.{Moves, opening};
ghost use Rattle.channel_face.specs.Machine as Face;
ghost use Rattle.channel_face.specs.Machine.{State, BeginPut, BeginTake, StagePut, StageTake, Flush, RollbackPut, RollbackTake, Reopen, Front, Read, after_reopen, begin_refusal, put_refusal, take_refusal, stage_put_refusal, puts_of, takes_of, free, with_entry, close, stage, ticket};
ghost use Rattle.channel_face.specs.declared.replies.FlushRefused.{FlushRefused};
ghost use Rattle.channel_face.specs.declared.replies.Kind.{Kind};
ghost use Rattle.channel_face.specs.declared.replies.OpenCause.{OpenCause};
ghost use Rattle.channel_face.specs.declared.replies.PutRefused.{PutRefused};
ghost use Rattle.channel_face.specs.declared.replies.TakeRefused.{TakeRefused};
ghost use Rattle.txn_core.specs.Places.{IsAt};
ghost use Rattle.txn_core.specs.Sound.{MayStage, first_number, first_of, size_of_entry};

use crate::copied::copy_list;
use crate::opened::{
    Open, one_if_staged, place_of, pop_at, push_put_at, push_take_at, push_within, puts_at,
    remove_at, takes_at,
};
use crate::settle::{Item, first_free, free_place, settle, staged_takes};
use channel_face::{
    BeginRefused, Counter, FlushRefused, Kind, Limits, Put, PutRefused, PutTxn, Settled,
    StageCause, StageRefused, TakeRefused, TakeTxn, Taken, Ticket,
};
use event_core::{Event, MAX_KEPT_SIZE, MOST_OPEN, NoMemory};
use std::alloc::Global;
use std::marker::Model;

/// The lists of a channel: the events that are left, the open transactions, and what is staged. Every call of a channel but
/// those that need a disk is here, as a step of the channel's machine.
#[derive(Drop)]
pub struct ChannelLists {
    kind: Kind,
    limits: Limits,
    items: Vec<Item>,
    first: u64,
    txn: u64,
    opened: Vec<Open>,
    staged: Vec<Open>,
    broken: bool,
    life: u64,
    frame: u64,
    ends: Vec<u64>,
    open_puts: usize,
    staged_puts: usize,
    // a transaction took each item before this place
    free_from: usize,
    alloc: Global,
}

impl Model for ChannelLists {
    ghost use Rattle.channel_face.specs.Machine.{State};
    ghost use Rattle.txn_core.specs.View.{state_of, IsSoundInside};

    ghost Value = { State };

    ghost view = { state_of };

    ghost invariant = { IsSoundInside };
}

impl ChannelLists {
    /// A new channel, with these events left and these next numbers.
    pub fn begin(
        alloc: Global,
        kind: Kind,
        limits: Limits,
        items: Vec<Item>,
        first: u64,
        txn: u64,
    ) -> ChannelLists
        requires txn { 1 ≤ txn }
        requires capacity { length items.items ≤ limits.capacity }
        ensures { (faults from : ℕ) → result ≡ opening
            (record {
              rules = record { kind = kind; limits = limits };
              base = record { items = items.items; first = first };
              txn = txn;
              faults = faults;
              from = from;
              tells = true;
            }) }
    {
        ChannelLists {
            kind,
            limits,
            items,
            first,
            txn,
            opened: Vec::new(alloc),
            staged: Vec::new(alloc),
            broken: false,
            life: 1,
            frame: 1,
            ends: Vec::new(alloc),
            open_puts: 0,
            staged_puts: 0,
            free_from: 0,
            alloc,
        }
    }

    /// The same lists once more.
    pub fn copy(&self) -> Result<ChannelLists, NoMemory>
        ensures { IfOk result (λ lists. lists ≡ self.now) }
    {
        let alloc = self.alloc;
        let most_items = self.items.len() + self.open_puts + self.staged_puts;
        let items = copy_list(alloc, &self.items, most_items)?;
        let opened = copy_list(alloc, &self.opened, self.opened.len())?;
        let staged = copy_list(alloc, &self.staged, self.staged.len() + self.opened.len())?;
        let ends = Vec::from_slice(alloc, &self.ends)?;
        Ok(ChannelLists {
            kind: self.kind,
            limits: self.limits,
            items,
            first: self.first,
            txn: self.txn,
            opened,
            staged,
            broken: self.broken,
            life: self.life,
            frame: self.frame,
            ends,
            open_puts: self.open_puts,
            staged_puts: self.staged_puts,
            free_from: self.free_from,
            alloc,
        })
    }

    /// Why a transaction can't begin.
    pub fn begin_refusal(&self) -> Option<BeginRefused>
        ensures { result ≡ begin_refusal self.now }
    {
        if self.broken {
            return Some(BeginRefused::Broken);
        }
        if self.opened.len() >= MOST_OPEN {
            return Some(BeginRefused::TooManyOpen { held: 1024 });
        }
        if self.txn == u64::MAX {
            return Some(BeginRefused::Spent {
                counter: Counter::Txn,
            });
        }
        None
    }

    // Adds an open transaction, and makes room for it among those that are staged.
    fn add_open(&mut self, begun: Open) -> Result<(), NoMemory>
        requires allowed { begin_refusal self.old ≡ None }
        requires number { begun.0 ≡ self.old.txn }
        requires empty { size_of_entry begun.1 ≡ 0 }
        ensures ok { OnOk result (self.new ≡ record self.old
            { opened = self.old.opened ++ begun ∷ []; txn = self.old.txn + 1 }) }
        ensures err { OnErr result (self.new ≡ self.old) }
    {
        self.staged.reserve(self.opened.len() + 1)?;
        self.opened.push(begun)?;
        self.txn += 1;
        Ok(())
    }

    /// Begins a transaction of puts.
    pub fn begin_put(&mut self) -> Result<PutTxn, BeginRefused>
        ensures { Moves true self.old (BeginPut result) self.new }
    {
        if let Some(refused) = self.begin_refusal() {
            return Err(refused);
        }
        let number = self.txn;
        match self.add_open(Open::puts(self.alloc, number)) {
            Ok(()) => Ok(PutTxn::new(self.life, number)),
            Err(_) => Err(BeginRefused::NoMemory),
        }
    }

    /// Begins a transaction of takes.
    pub fn begin_take(&mut self) -> Result<TakeTxn, BeginRefused>
        ensures { Moves true self.old (BeginTake result) self.new }
    {
        if let Some(refused) = self.begin_refusal() {
            return Err(refused);
        }
        let number = self.txn;
        match self.add_open(Open::takes(self.alloc, number)) {
            Ok(()) => Ok(TakeTxn::new(self.life, number)),
            Err(_) => Err(BeginRefused::NoMemory),
        }
    }

    /// Where the token's transaction stands, and how many puts it has, unless the token is stale.
    pub fn find_puts(&self, txn: &PutTxn) -> Option<(usize, usize)>
        ensures found { IfSome result (λ at. (events : List Content)
            × IsAt self.now.opened txn.now.number at.0 (Entry.Puts events)
            × (puts_of self.now txn.now ≡ Some events) × (at.1 ≡ length events)) }
        ensures within { IfSome result (λ at. at.1 ≤ self.now.rules.limits.txn_capacity) }
        ensures stale { IfNone result (puts_of self.now txn.now ≡ None) }
    {
        if txn.life() != self.life {
            return None;
        }
        match place_of(&self.opened, txn.number()) {
            Some(place) => match puts_at(&self.opened, place) {
                Some(held) => Some((place, held)),
                None => None,
            },
            None => None,
        }
    }

    /// Where the token's transaction stands, and how many takes it has, unless the token is stale.
    pub fn find_takes(&self, txn: &TakeTxn) -> Option<(usize, usize)>
        ensures found { IfSome result (λ at. (numbers : List ℕ)
            × IsAt self.now.opened txn.now.number at.0 (Entry.Takes numbers)
            × (takes_of self.now txn.now ≡ Some numbers) × (at.1 ≡ length numbers)) }
        ensures within { IfSome result (λ at. at.1 ≤ self.now.rules.limits.txn_capacity) }
        ensures stale { IfNone result (takes_of self.now txn.now ≡ None) }
    {
        if self.life != txn.life() {
            return None;
        }
        match place_of(&self.opened, txn.number()) {
            Some(place) => match takes_at(&self.opened, place) {
                Some(held) => Some((place, held)),
                None => None,
            },
            None => None,
        }
    }

    /// The cause to refuse a put to a transaction that has so many, if any.
    pub fn put_refusal(&self, held: usize, event: &Event) -> Option<PutRefused>
        requires { held ≤ self.now.rules.limits.txn_capacity }
        ensures { (events : List Content) → length events ≡ held
            → result ≡ put_refusal self.now (Some events) event.now }
    {
        if self.broken {
            return Some(PutRefused::Broken);
        }
        if held >= self.limits.txn_capacity as usize {
            return Some(PutRefused::TxnFull { count: held as u32 });
        }
        match self.kind {
            Kind::File => {
                let size = event.size();
                if size > MAX_KEPT_SIZE {
                    return Some(PutRefused::TooLarge { size });
                }
                let count = self.items.len() + self.open_puts + self.staged_puts;
                if count >= self.limits.capacity as usize {
                    return Some(PutRefused::Full {
                        count: count as u32,
                    });
                }
                None
            }
            Kind::Memory => None,
        }
    }

    /// The cause to refuse a take to a transaction that has so many, if any.
    pub fn take_refusal(&self, held: usize) -> Option<TakeRefused>
        requires { held ≤ self.now.rules.limits.txn_capacity }
        ensures { (numbers : List ℕ) → length numbers ≡ held
            → result ≡ take_refusal self.now (Some numbers) }
    {
        if self.broken {
            return Some(TakeRefused::Broken);
        }
        if held >= self.limits.txn_capacity as usize {
            return Some(TakeRefused::TxnFull { count: held as u32 });
        }
        None
    }

    // The cause to refuse to stage so many puts, if any.
    fn stage_put_refusal(&self, held: usize) -> Option<StageCause>
        ensures { (events : List Content) → length events ≡ held
            → result ≡ stage_put_refusal self.now (Some events) }
    {
        if self.broken {
            return Some(StageCause::Broken);
        }
        let count = self.items.len() + self.staged_puts;
        match self.kind {
            Kind::File => {}
            Kind::Memory => {
                if held > self.limits.capacity as usize - count {
                    return Some(StageCause::Full {
                        count: count as u32,
                    });
                }
            }
        }
        if held as u64 > u64::MAX - (self.first + self.staged_puts as u64) {
            return Some(StageCause::Spent {
                counter: Counter::Number,
            });
        }
        None
    }

    /// Adds an event to the puts at this place, and makes room for it among those that are left.
    pub fn add_put(&mut self, place: usize, event: Event) -> Result<(), NoMemory>
        requires { (number : ℕ) × (events : List Content)
            × IsAt self.old.opened number place (Entry.Puts events)
            × (put_refusal self.old (Some events) event ≡ None) }
        ensures ok { OnOk result ((number : ℕ) (events : List Content)
            → IsAt self.old.opened number place (Entry.Puts events) →
            self.new ≡ record self.old {
              opened = with_entry number (Entry.Puts (events ++ event ∷ [])) self.old.opened;
            }) }
        ensures err { OnErr result (self.new ≡ self.old) }
    {
        self.items.reserve(self.open_puts + self.staged_puts + 1)?;
        push_put_at(&mut self.opened, place, event)?;
        self.open_puts += 1;
        Ok(())
    }

    /// Adds a number to the takes at this place.
    pub fn add_take(&mut self, place: usize, taken: u64) -> Result<(), NoMemory>
        requires { (number : ℕ) × (numbers : List ℕ)
            × IsAt self.old.opened number place (Entry.Takes numbers)
            × (take_refusal self.old (Some numbers) ≡ None) }
        ensures ok { OnOk result ((number : ℕ) (numbers : List ℕ)
            → IsAt self.old.opened number place (Entry.Takes numbers) →
            self.new ≡ record self.old {
              opened = with_entry number (Entry.Takes (numbers ++ taken ∷ [])) self.old.opened;
            }) }
        ensures err { OnErr result (self.new ≡ self.old) }
    {
        push_take_at(&mut self.opened, place, taken)?;
        self.free_from = free_place(&self.items, &self.opened, &self.staged, self.free_from);
        Ok(())
    }

    /// The first event that no transaction took, copied, with its number.
    pub fn free_item(&self) -> Result<Option<(u64, Event)>, NoMemory>
        ensures { IfOk result (λ item. item ≡ first_of (free self.now)) }
    {
        match first_free(&self.items, &self.opened, &self.staged, self.free_from) {
            Some(place) => {
                let event = self.items[place].1.copy()?;
                Ok(Some((self.items[place].0, event)))
            }
            None => Ok(None),
        }
    }

    /// Takes the last put of the transaction at this place back.
    pub fn undo_put(&mut self, place: usize)
        requires { (before : List (ℕ × Entry)) × (number : ℕ) × (events : List Content)
            × (event : Content) × IsAt before number place (Entry.Puts events)
            × (self.old.opened ≡ with_entry number (Entry.Puts (events ++ event ∷ [])) before) }
        ensures { (before : List (ℕ × Entry)) (number : ℕ) (events : List Content) (event : Content)
            → IsAt before number place (Entry.Puts events)
            → self.old.opened ≡ with_entry number (Entry.Puts (events ++ event ∷ [])) before →
            self.new ≡ record self.old { opened = before } }
    {
        pop_at(&mut self.opened, place);
        self.open_puts -= 1;
    }

    /// Takes the last take of the transaction at this place back.
    pub fn undo_take(&mut self, place: usize)
        requires { (before : List (ℕ × Entry)) × (number : ℕ) × (numbers : List ℕ) × (taken : ℕ)
            × IsAt before number place (Entry.Takes numbers)
            × (self.old.opened ≡ with_entry number (Entry.Takes (numbers ++ taken ∷ [])) before) }
        ensures { (before : List (ℕ × Entry)) (number : ℕ) (numbers : List ℕ) (taken : ℕ)
            → IsAt before number place (Entry.Takes numbers)
            → self.old.opened ≡ with_entry number (Entry.Takes (numbers ++ taken ∷ [])) before →
            self.new ≡ record self.old { opened = before } }
    {
        pop_at(&mut self.opened, place);
        self.free_from = 0;
    }

    /// The number of the first event that no transaction took.
    pub fn free_number(&self) -> Option<u64>
        ensures { result ≡ first_number (free self.now) }
    {
        match first_free(&self.items, &self.opened, &self.staged, self.free_from) {
            Some(place) => Some(self.items[place].0),
            None => None,
        }
    }

    /// Puts an event. It never spills.
    pub fn put(&mut self, txn: &mut PutTxn, event: &Event) -> Result<Put, PutRefused>
        ensures step { Moves true self.old (Face.Put txn.old event.now result) self.new }
        ensures spills { IfOk result (λ done. done.spilled ≡ false) }
        ensures fault { ¬ IsErrOf result PutRefused.DiskFault }
        ensures same { txn.new ≡ txn.old }
    {
        let Some((place, held)) = self.find_puts(txn) else {
            return Err(PutRefused::Stale);
        };
        if let Some(refused) = self.put_refusal(held, event) {
            return Err(refused);
        }
        let Ok(copy) = event.copy() else {
            return Err(PutRefused::NoMemory);
        };
        match self.add_put(place, copy) {
            Ok(()) => Ok(Put { spilled: false }),
            Err(_) => Err(PutRefused::NoMemory),
        }
    }

    /// Takes the first event that no transaction took. It never spills.
    pub fn take(&mut self, txn: &mut TakeTxn) -> Result<Taken, TakeRefused>
        ensures step { Moves true self.old (Face.Take txn.old result) self.new }
        ensures spills { IfOk result (λ taken. taken.spilled ≡ false) }
        ensures read { ¬ IsErrOf result TakeRefused.ReadFault }
        ensures fault { ¬ IsErrOf result TakeRefused.DiskFault }
        ensures same { txn.new ≡ txn.old }
    {
        let Some((place, held)) = self.find_takes(txn) else {
            return Err(TakeRefused::Stale);
        };
        if let Some(refused) = self.take_refusal(held) {
            return Err(refused);
        }
        match self.free_item() {
            Ok(Some((number, event))) => match self.add_take(place, number) {
                Ok(()) => Ok(Taken {
                    event: Some(event),
                    spilled: false,
                }),
                Err(_) => Err(TakeRefused::NoMemory),
            },
            Ok(None) => Ok(Taken {
                event: None,
                spilled: false,
            }),
            Err(_) => Err(TakeRefused::NoMemory),
        }
    }

    // The transaction at this place is open no more.
    fn close_at(&mut self, place: usize)
        requires { (number : ℕ) × (entry : Entry) × IsAt self.old.opened number place entry }
        ensures { (number : ℕ) (entry : Entry) → IsAt self.old.opened number place entry
            → self.new ≡ close number self.old }
    {
        let entry = remove_at(&mut self.opened, place);
        self.open_puts -= entry.put_count();
        self.free_from = 0;
    }

    // The transaction that was found at a place, if one was, is open no more. It tells whether one was.
    fn close_found(&mut self, found: Option<(usize, usize)>) -> bool
        requires { IfSome found (λ at. (number : ℕ) × (entry : Entry)
            × IsAt self.old.opened number at.0 entry) }
        ensures closed { IfSome found (λ at. (result ≡ true)
            × ((number : ℕ) (entry : Entry) → IsAt self.old.opened number at.0 entry
            → self.new ≡ close number self.old)) }
        ensures none { IfNone found ((result ≡ false) × (self.new ≡ self.old)) }
    {
        match found {
            Some((place, _)) => {
                self.close_at(place);
                true
            }
            None => false,
        }
    }

    // What the transaction at this place did is staged.
    fn stage_at(&mut self, place: usize)
        requires { (number : ℕ) × (entry : Entry) × IsAt self.old.opened number place entry
            × MayStage self.old entry }
        ensures { (number : ℕ) (entry : Entry) → IsAt self.old.opened number place entry
            → self.new ≡ stage number (Some entry) self.old }
    {
        let entry = remove_at(&mut self.opened, place);
        let puts = entry.put_count();
        self.open_puts -= puts;
        if entry.size() > 0 {
            self.staged_puts += puts;
            push_within(&mut self.staged, entry);
        }
    }

    // The ticket of a transaction of this size, to be staged now.
    fn ticket(&self, first: u64, held: usize) -> Ticket
        requires { held < 2 ^ 32 }
        ensures { result ≡ ticket self.now first held }
    {
        let frame = if held == 0 { 0 } else { self.frame };
        Ticket {
            life: self.life,
            frame,
            first,
            count: held as u32,
        }
    }

    /// Stages a transaction of puts.
    pub fn stage_put(&mut self, txn: PutTxn) -> Result<Ticket, StageRefused<PutTxn>>
        ensures step { Moves true self.old (StagePut txn (cause_of result)) self.new }
        ensures back { IfErr result (λ refused. refused.txn ≡ txn) }
    {
        let Some((place, held)) = self.find_puts(&txn) else {
            return Err(StageRefused {
                txn,
                cause: StageCause::Stale,
            });
        };
        if let Some(cause) = self.stage_put_refusal(held) {
            return Err(StageRefused { txn, cause });
        }
        let ticket = self.ticket(self.first + self.staged_puts as u64, held);
        let _ended = txn.into_numbers();
        self.stage_at(place);
        Ok(ticket)
    }

    /// Stages a transaction of takes.
    pub fn stage_take(&mut self, txn: TakeTxn) -> Result<Ticket, StageRefused<TakeTxn>>
        ensures step { Moves true self.old (StageTake txn (cause_of result)) self.new }
        ensures back { IfErr result (λ refused. refused.txn ≡ txn) }
    {
        let Some((place, held)) = self.find_takes(&txn) else {
            return Err(StageRefused {
                txn,
                cause: StageCause::Stale,
            });
        };
        if self.broken {
            return Err(StageRefused {
                txn,
                cause: StageCause::Broken,
            });
        }
        let ticket = self.ticket(0, held);
        let _ended = txn.into_numbers();
        self.stage_at(place);
        Ok(ticket)
    }

    /// Settles what is staged. `Broken` is its only refusal.
    pub fn flush(&mut self) -> Result<(), FlushRefused>
        ensures step { Moves true self.old (Flush result) self.new }
        ensures refused { IfErr result (λ refused. refused ≡ FlushRefused.Broken) }
    {
        if self.broken {
            return Err(FlushRefused::Broken);
        }
        self.frame += one_if_staged(&self.staged);
        self.first = settle(&mut self.staged, &mut self.items, self.first);
        self.staged_puts = 0;
        self.free_from = 0;
        Ok(())
    }

    /// Gives a transaction of puts up.
    pub fn rollback_put(&mut self, txn: PutTxn) -> bool
        ensures { Moves true self.old (RollbackPut txn result) self.new }
    {
        let found = self.find_puts(&txn);
        let _ended = txn.into_numbers();
        self.close_found(found)
    }

    /// Gives a transaction of takes up.
    pub fn rollback_take(&mut self, txn: TakeTxn) -> bool
        ensures { Moves true self.old (RollbackTake txn result) self.new }
    {
        let found = self.find_takes(&txn);
        let _ended = txn.into_numbers();
        self.close_found(found)
    }

    /// Whether what the ticket stands for is settled.
    pub fn settled(&self, ticket: &Ticket) -> Settled
        ensures { result ≡ Face.settled self.now ticket.now }
    {
        if ticket.frame == 0 {
            return Settled::Yes;
        }
        if ticket.life == self.life {
            if ticket.frame < self.frame {
                return Settled::Yes;
            }
            if ticket.frame == self.frame && !self.broken {
                return Settled::No;
            }
            return Settled::InDoubt;
        }
        if ticket.life > 0 && ticket.life < self.life {
            let place = ticket.life - 1;
            if place < self.ends.len() as u64 && ticket.frame < self.ends[place as usize] {
                return Settled::Yes;
            }
        }
        Settled::InDoubt
    }

    /// The events that are left, with their numbers.
    pub fn left(&self) -> &[Item]
        ensures { result.now ≡ self.now.items }
    {
        &self.items
    }

    /// How many events are left.
    pub fn size(&self) -> u64
        ensures { result ≡ length self.now.items }
    {
        self.items.len() as u64
    }

    /// The most events.
    pub fn capacity(&self) -> u64
        ensures { result ≡ self.now.rules.limits.capacity }
    {
        self.limits.capacity as u64
    }

    /// In which of its lives the channel is, from 1 on.
    pub fn life(&self) -> u64
        ensures { result ≡ self.now.life }
    {
        self.life
    }

    /// The limits.
    pub fn limits(&self) -> Limits
        ensures { result ≡ self.now.rules.limits }
    {
        self.limits
    }

    /// Whether the channel is broken.
    pub fn is_broken(&self) -> bool
        ensures { result ≡ self.now.broken }
    {
        self.broken
    }

    /// How many puts are staged.
    pub fn staged_puts(&self) -> u64
        ensures { result ≡ length (put_events self.now.staged) }
    {
        self.staged_puts as u64
    }

    /// How many takes are staged, up to 2^64 - 1.
    pub fn staged_takes(&self) -> u64
        ensures { result ≡ capped (length (taken_numbers self.now.staged)) }
    {
        staged_takes(&self.staged)
    }

    /// The channel breaks.
    pub fn fail(&mut self)
        ensures { self.new ≡ record self.old { broken = true } }
    {
        self.broken = true;
    }

    /// The frames that the lives so far end with, should this one end now.
    pub fn next_ends(&self) -> Result<Vec<u64>, NoMemory>
        ensures { IfOk result (λ ends. ends.items ≡ self.now.ends ++ self.now.frame ∷ []) }
    {
        let mut ends = self.ends.clone()?;
        ends.push(self.frame)?;
        Ok(ends)
    }

    /// A new life of the channel, with these events left and these next numbers. `ends` are those that
    /// [`ChannelLists::next_ends`] gave.
    pub fn renew(&mut self, ends: Vec<u64>, items: Vec<Item>, first: u64, txn: u64)
        requires ends { ends.items ≡ self.old.ends ++ self.old.frame ∷ [] }
        requires capacity { length items.items ≤ self.old.rules.limits.capacity }
        requires txn { 1 ≤ txn }
        requires life { self.old.life < 2 ^ 64 - 1 }
        ensures { self.new ≡ after_reopen self.old
            (Ok (record {
              kept = Read (record { items = items.items; first = first });
              txn = txn;
            })) }
    {
        self.items = items;
        self.first = first;
        self.txn = txn;
        self.opened = Vec::new(self.alloc);
        self.staged = Vec::new(self.alloc);
        self.open_puts = 0;
        self.staged_puts = 0;
        self.free_from = 0;
        self.broken = false;
        self.life += 1;
        self.frame = 1;
        self.ends = ends;
    }

    /// A reopen that keeps so many of the staged entries. Once it was out of memory, the channel is broken.
    pub fn restart(&mut self, kept: usize) -> Result<(), NoMemory>
        requires kind { self.old.rules.kind ≡ Kind.File }
        requires kept { kept ≤ length self.old.staged }
        requires life { self.old.life < 2 ^ 64 - 1 }
        ensures ok { OnOk result (Moves true self.old
            (Reopen (Ok (record { kept = Front kept; txn = self.old.txn }))) self.new) }
        ensures err { OnErr result (Moves true self.old
            (Reopen (Err OpenCause.NoMemory)) self.new) }
    {
        if self.ends.push(self.frame).is_err() {
            self.broken = true;
            return Err(NoMemory);
        }
        self.staged.truncate(kept);
        self.opened.clear();
        self.first = settle(&mut self.staged, &mut self.items, self.first);
        self.open_puts = 0;
        self.staged_puts = 0;
        self.free_from = 0;
        self.broken = false;
        self.life += 1;
        self.frame = 1;
        Ok(())
    }
}
