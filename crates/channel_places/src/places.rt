// The pointers of a channel's events, and each call of the channel on them that needs no disk.
ghost use Rattle.std.specs.Prelude.{◌≡◌, ◌<◌, ◌≤◌, ◌+◌, ◌^◌, ◌++◌, ◌∷◌, ◌-◌, [], ℕ, List, length, Some, None, Ok, IsSome, IsTrue, IfNone, IfOk, IfSome, OnOk, OnErr, option_map, true, false};
ghost use Rattle.event_core.specs.Content.{Content};
ghost use Rattle.event_core.specs.Content as contents;
ghost use Rattle.event_core.specs.Journal.{IsBase, put_events, taken_numbers};
ghost use Rattle.channel_face.specs.Counters.{capped};
ghost use Rattle.channel_face.specs.History.{Opening, opening};
ghost use Rattle.channel_face.specs.Token.{Token};
ghost use Rattle.channel_face.specs.declared.replies.Kind.TheVariants.{File};
ghost use Rattle.channel_face.specs.Machine as face;
ghost use Rattle.channel_face.specs.Machine.{Reopened, State, BeginPut, BeginTake, add_put, add_take, after_reopen, broken_state, close, entry_of, free, kept_base, puts_of, takes_of};
ghost use Rattle.open_table.specs.Tables.{HasAt, MayAdd, added, is_open, moved_open, open_at};
ghost use Rattle.open_table.specs.declared.table.Item.TheVariants.{Put, Take};
ghost use Rattle.record_form.specs.declared.record.Pointer as pointers;
ghost use Rattle.channel_places.specs.Looks.{IsFewOpen, IsFree, IsOpenFor, KeepsPuts, Known, LookLeft, Looks, MayPut, MayStage, MayTake, Moves, Steps, eventless, puts_in, puts_of_open, with_begun};

use crate::settling::{
    append_staged, count_takes, end_all, free_takes, hand_back_all, move_staged, one_if_staged,
    push_ended, put_count, remove_staged,
};
use channel_face::{
    BeginRefused, Counter, Limits, PutRefused, PutTxn, Settled, StageCause, TakeRefused, TakeTxn,
    Ticket,
};
use event_core::{MAX_KEPT_SIZE, MOST_OPEN, NoMemory};
use event_ring::Ring;
use open_table::{Ended, Item, OpenTable};
use record_form::Pointer;
use std::alloc::Global;
use std::marker::Model;

/// What a channel keeps of its events in memory: the ring of those that are left, the open transactions, and what is staged.
/// Calls of a channel change it as steps of the channel's machine.
#[derive(Drop)]
pub struct Held {
    ring: Ring,
    table: OpenTable,
    staged: Vec<Ended>,
    limits: Limits,
    first: u64,
    txn: u64,
    broken: bool,
    life: u64,
    frame: u64,
    ends: Vec<u64>,
    // how many transactions are open
    open_txns: usize,
    open_puts: usize,
    staged_puts: usize,
}

impl Model for Held {
    ghost use Rattle.channel_places.specs.Looks.{Places};
    ghost use Rattle.channel_places.specs.View.{places_of, IsHeldInside};

    ghost Value = { Places };

    ghost view = { places_of };

    ghost invariant = { IsHeldInside };
}

impl Held {
    /// What a channel keeps when it is opened with these events left and these next numbers. No transaction is open.
    pub fn open(
        alloc: Global,
        ring: Ring,
        limits: Limits,
        first: u64,
        txn: u64,
    ) -> Result<Held, NoMemory>
        requires left { (known : Known) × (items : List (ℕ × Content))
            × LookLeft known [] ring.live items × IsBase (record { items = items; first = first }) }
        requires slots { ring.slots ≡ limits.capacity }
        requires room { length ring.live ≤ limits.capacity }
        requires below { ring.top ≤ first }
        requires txn { 1 ≤ txn }
        ensures looks { IfOk result (λ held. (settled known : Known) (o : Opening)
            → o.base.first ≡ first → o.txn ≡ txn
            → o.rules ≡ record { kind = File; limits = limits }
            → LookLeft settled [] ring.live o.base.items → IsBase o.base
            → Looks settled known held (opening o)) }
        ensures opened { IfOk result (λ held. held.opened ≡ []) }
    {
        let _ = limits.capacity;
        let Ok(table) = OpenTable::new(alloc) else {
            return Err(NoMemory);
        };
        Ok(Held {
            ring,
            table,
            staged: Vec::new(alloc),
            limits,
            first,
            txn,
            broken: false,
            life: 1,
            frame: 1,
            ends: Vec::new(alloc),
            open_txns: 0,
            open_puts: 0,
            staged_puts: 0,
        })
    }

    /// The events that are left, with their pointers.
    pub fn ring(&self) -> &Ring
        ensures live { result.now.live ≡ self.now.live }
        ensures few { length self.now.live < 2 ^ 32 }
    {
        &self.ring
    }

    /// The open transactions, with the pointers of their puts and the numbers of their takes.
    pub fn table(&self) -> &OpenTable
        ensures opened { result.now ≡ self.now.opened }
        ensures few { (txn : ℕ) → IsFewOpen (open_at self.now.opened txn) }
    {
        // Read for its bound, which the proof wants: that it fits 32 bits.
        let _most = self.limits.txn_capacity;
        &self.table
    }

    /// The number of the next event after those that are settled, and that of the next transaction.
    pub fn next(&self) -> (u64, u64)
        ensures { result ≡ (self.now.numbers.first, self.now.numbers.txn) }
    {
        (self.first, self.txn)
    }

    /// How many events are left.
    pub fn size(&self) -> usize
        ensures { (settled known : Known) (s : State) → Looks settled known self.now s
            → result ≡ length s.items }
    {
        self.ring.len()
    }

    /// Why a transaction can't begin.
    pub fn begin_refusal(&self) -> Option<BeginRefused>
        ensures refusal { (settled known : Known) (s : State) → Looks settled known self.now s
            → result ≡ face.begin_refusal s }
        ensures number { IfNone result (self.now.numbers.txn < 18_446_744_073_709_551_615) }
        ensures few { IfNone result (length self.now.opened < 1024) }
    {
        if self.broken {
            return Some(BeginRefused::Broken);
        }
        if self.open_txns >= MOST_OPEN {
            return Some(BeginRefused::TooManyOpen { held: 1024 });
        }
        if self.txn == u64::MAX {
            return Some(BeginRefused::Spent {
                counter: Counter::Txn,
            });
        }
        None
    }

    // Adds an open transaction, and makes room for it among those that are staged.
    fn add_open(&mut self, puts: bool) -> Result<(), NoMemory>
        requires number { self.old.numbers.txn < 18_446_744_073_709_551_615 }
        requires few { length self.old.opened < 1024 }
        ensures ok { OnOk result ((settled known : Known) (s : State)
            → Looks settled known self.old s
            → Looks settled known self.new (with_begun puts s)) }
        ensures err { OnErr result (self.new ≡ self.old) }
        ensures opened { KeepsPuts self.old.opened self.new.opened }
    {
        self.staged.reserve(self.open_txns + 1)?;
        match self.table.begin(self.txn, puts, self.limits.txn_capacity) {
            Ok(()) => {
                self.txn += 1;
                self.open_txns += 1;
                Ok(())
            }
            Err(_) => Err(NoMemory),
        }
    }

    /// Begins a transaction of puts.
    pub fn begin_put(&mut self) -> Result<PutTxn, BeginRefused>
        ensures step { Steps self.old (BeginPut result) self.new }
        ensures opened { KeepsPuts self.old.opened self.new.opened }
    {
        if let Some(refused) = self.begin_refusal() {
            return Err(refused);
        }
        let number = self.txn;
        match self.add_open(true) {
            Ok(()) => Ok(PutTxn::new(self.life, number)),
            Err(_) => Err(BeginRefused::NoMemory),
        }
    }

    /// Begins a transaction of takes.
    pub fn begin_take(&mut self) -> Result<TakeTxn, BeginRefused>
        ensures step { Steps self.old (BeginTake result) self.new }
        ensures opened { KeepsPuts self.old.opened self.new.opened }
    {
        if let Some(refused) = self.begin_refusal() {
            return Err(refused);
        }
        let number = self.txn;
        match self.add_open(false) {
            Ok(()) => Ok(TakeTxn::new(self.life, number)),
            Err(_) => Err(BeginRefused::NoMemory),
        }
    }

    // How many puts the token's transaction has, unless the token is stale.
    fn find_puts(&self, txn: &PutTxn) -> Option<usize>
        ensures found { IfSome result (λ held. (settled known : Known) (s : State)
            → Looks settled known self.now s
            → (events : List Content) × (puts_of s txn.now ≡ Some events)
            × (length events ≡ held)) }
        ensures within { IfSome result (λ held. held ≤ self.now.numbers.rules.limits.txn_capacity) }
        ensures may { IfSome result (λ held. held < self.now.numbers.rules.limits.txn_capacity
            → IsOpenFor self.now txn.now (λ o. (pointer : pointers.Pointer)
            → MayAdd (Put pointer) o)) }
        ensures open { IfSome result (λ held.
            (is_open true (open_at self.now.opened txn.now.number) ≡ true)
            × (puts_of_open (open_at self.now.opened txn.now.number) ≡ held)) }
        ensures stale { IfNone result ((settled known : Known) (s : State)
            → Looks settled known self.now s
            → puts_of s txn.now ≡ None) }
    {
        if txn.life() != self.life || !self.table.has(txn.number(), true) {
            return None;
        }
        Some(self.table.puts(txn.number()).len())
    }

    // How many takes the token's transaction has, unless the token is stale.
    fn find_takes(&self, txn: &TakeTxn) -> Option<usize>
        ensures found { IfSome result (λ held. (settled known : Known) (s : State)
            → Looks settled known self.now s
            → (numbers : List ℕ) × (takes_of s txn.now ≡ Some numbers) × (length numbers ≡ held)) }
        ensures within { IfSome result (λ held. held ≤ self.now.numbers.rules.limits.txn_capacity) }
        ensures may { IfSome result (λ held. held < self.now.numbers.rules.limits.txn_capacity
            → IsOpenFor self.now txn.now (λ o. MayAdd (Take 0) o)) }
        ensures open { IfSome result (λ held.
            (is_open false (open_at self.now.opened txn.now.number) ≡ true)
            × (puts_of_open (open_at self.now.opened txn.now.number) ≡ 0)) }
        ensures stale { IfNone result ((settled known : Known) (s : State)
            → Looks settled known self.now s
            → takes_of s txn.now ≡ None) }
    {
        if txn.life() != self.life || !self.table.has(txn.number(), false) {
            return None;
        }
        Some(self.table.takes(txn.number()).len())
    }

    /// Why an event of this size can't be put.
    pub fn put_refusal(&self, txn: &PutTxn, size: u64) -> Option<PutRefused>
        ensures refusal { (settled known : Known) (s : State) (event : Content)
            → Looks settled known self.now s
            → contents.size event ≡ size → result ≡ face.put_refusal s (puts_of s txn.now) event }
        ensures may { (pointer : pointers.Pointer)
            → IfNone result (MayPut self.now txn.now pointer) }
    {
        let Some(held) = self.find_puts(txn) else {
            return Some(PutRefused::Stale);
        };
        if self.broken {
            return Some(PutRefused::Broken);
        }
        if held >= self.limits.txn_capacity as usize {
            return Some(PutRefused::TxnFull { count: held as u32 });
        }
        if size > MAX_KEPT_SIZE {
            return Some(PutRefused::TooLarge { size });
        }
        let count = self.ring.len() + self.open_puts + self.staged_puts;
        if count >= self.limits.capacity as usize {
            return Some(PutRefused::Full {
                count: count as u32,
            });
        }
        None
    }

    /// Adds the pointer of an event to a transaction's puts. It takes no memory.
    pub fn put(&mut self, txn: &PutTxn, pointer: Pointer)
        requires { MayPut self.old txn.now pointer }
        ensures looks { (settled known : Known) (s : State) (event : Content)
            → Looks settled known self.old s
            → Looks settled ((pointer, event) ∷ known) self.new
            (add_put s txn.now.number (puts_of s txn.now) event) }
        ensures added { HasAt txn.now.number (added (Put pointer)
            (open_at self.old.opened txn.now.number))
            self.old.opened self.new.opened }
    {
        self.table.add(txn.number(), Item::Put(pointer));
        self.open_puts += 1;
    }

    /// Why nothing can be taken.
    pub fn take_refusal(&self, txn: &TakeTxn) -> Option<TakeRefused>
        ensures refusal { (settled known : Known) (s : State) → Looks settled known self.now s
            → result ≡ face.take_refusal s (takes_of s txn.now) }
        ensures may { IfNone result (MayTake self.now txn.now) }
    {
        let Some(held) = self.find_takes(txn) else {
            return Some(TakeRefused::Stale);
        };
        if self.broken {
            return Some(TakeRefused::Broken);
        }
        if held >= self.limits.txn_capacity as usize {
            return Some(TakeRefused::TxnFull { count: held as u32 });
        }
        None
    }

    /// The number of the first event that no transaction takes, and where it stands. It takes no memory.
    pub fn first_free(&self) -> Option<(u64, Pointer)>
        ensures { (settled known : Known) (s : State) → Looks settled known self.now s
            → IsFree settled result (free s) }
    {
        match self.ring.first_free() {
            Some(number) => match self.ring.pointer(number) {
                Some(pointer) => Some((number, pointer)),
                None => None,
            },
            None => None,
        }
    }

    /// Adds the number of the first free event to a transaction's takes. It takes no memory.
    pub fn take(&mut self, txn: &TakeTxn)
        requires { MayTake self.old txn.now }
        ensures looks { (settled known : Known) (s : State) → Looks settled known self.old s
            → Looks settled known self.new (add_take s txn.now.number (takes_of s txn.now)
            (free s)) }
        ensures opened { KeepsPuts self.old.opened self.new.opened }
    {
        if let Some(number) = self.ring.first_free() {
            self.table.add(txn.number(), Item::Take(number));
            self.ring.mark(number);
        }
    }

    /// Why a transaction of puts can't be staged.
    pub fn stage_put_refusal(&self, txn: &PutTxn) -> Option<StageCause>
        ensures refusal { (settled known : Known) (s : State) → Looks settled known self.now s
            → result ≡ face.stage_put_refusal s (puts_of s txn.now) }
        ensures may { IfNone result (MayStage self.now txn.now.number) }
    {
        let Some(held) = self.find_puts(txn) else {
            return Some(StageCause::Stale);
        };
        if self.broken {
            return Some(StageCause::Broken);
        }
        if held as u64 > u64::MAX - self.next_number() {
            return Some(StageCause::Spent {
                counter: Counter::Number,
            });
        }
        None
    }

    /// Why a transaction of takes can't be staged.
    pub fn stage_take_refusal(&self, txn: &TakeTxn) -> Option<StageCause>
        ensures refusal { (settled known : Known) (s : State) → Looks settled known self.now s
            → result ≡ face.stage_take_refusal s (takes_of s txn.now) }
        ensures may { IfNone result (MayStage self.now txn.now.number) }
    {
        if self.find_takes(txn).is_none() {
            return Some(StageCause::Stale);
        }
        if self.broken {
            return Some(StageCause::Broken);
        }
        None
    }

    // The number of the next event to be staged.
    fn next_number(&self) -> u64
        ensures number { result ≡ self.now.numbers.first + puts_in self.now.staged }
        ensures next { (settled known : Known) (s : State) → Looks settled known self.now s
            → result ≡ face.next_number s }
    {
        self.first + self.staged_puts as u64
    }

    // The ticket of a transaction of this size, to be staged now.
    fn ticket(&self, first: u64, held: usize) -> Ticket
        requires { held < 2 ^ 32 }
        ensures { (settled known : Known) (s : State) → Looks settled known self.now s
            → result ≡ face.ticket s first held }
    {
        let frame = if held == 0 { 0 } else { self.frame };
        Ticket {
            life: self.life,
            frame,
            first,
            count: held as u32,
        }
    }

    /// How many puts the token's transaction has, or none where the token is stale.
    pub fn size_of_puts(&self, txn: &PutTxn) -> usize
        ensures size { (settled known : Known) (s : State) → Looks settled known self.now s
            → result ≡ face.size_of_list (puts_of s txn.now) }
        ensures small { result < 2 ^ 32 }
    {
        // Read for its bound, which the proof wants: that it fits 32 bits.
        let _most = self.limits.txn_capacity;
        match self.find_puts(txn) {
            Some(held) => held,
            None => 0,
        }
    }

    /// How many takes the token's transaction has, or none where the token is stale.
    pub fn size_of_takes(&self, txn: &TakeTxn) -> usize
        ensures size { (settled known : Known) (s : State) → Looks settled known self.now s
            → result ≡ face.size_of_list (takes_of s txn.now) }
        ensures small { result < 2 ^ 32 }
    {
        // Read for its bound, which the proof wants: that it fits 32 bits.
        let _most = self.limits.txn_capacity;
        match self.find_takes(txn) {
            Some(held) => held,
            None => 0,
        }
    }

    /// The ticket that a transaction of puts gets, if it is staged now.
    pub fn put_ticket(&self, txn: &PutTxn) -> Ticket
        ensures { (settled known : Known) (s : State) → Looks settled known self.now s
            → result ≡ face.ticket s (face.next_number s) (face.size_of_list (puts_of s txn.now)) }
    {
        self.ticket(self.next_number(), self.size_of_puts(txn))
    }

    /// The ticket that a transaction of takes gets, if it is staged now.
    pub fn take_ticket(&self, txn: &TakeTxn) -> Ticket
        ensures { (settled known : Known) (s : State) → Looks settled known self.now s
            → result ≡ face.ticket s 0 (face.size_of_list (takes_of s txn.now)) }
    {
        self.ticket(0, self.size_of_takes(txn))
    }

    /// Takes a transaction that is open out of the open ones, and adds what it has to what is staged. It takes no memory.
    pub fn stage(&mut self, number: u64)
        requires { MayStage self.old number }
        ensures looks { (settled known : Known) (s : State) → Looks settled known self.old s
            → Looks settled known self.new (face.stage number (entry_of number s.opened) s) }
        ensures opened { KeepsPuts self.old.opened self.new.opened }
    {
        let ended = self.table.end(number);
        let puts = put_count(&ended);
        self.open_txns -= 1;
        self.open_puts -= puts;
        self.staged_puts += puts;
        push_ended(&mut self.staged, ended);
    }

    /// Whether a transaction of puts is open.
    pub fn has_puts(&self, txn: &PutTxn) -> bool
        ensures tells { (settled known : Known) (s : State) → Looks settled known self.now s
            → result ≡ face.is_some_of (puts_of s txn.now) }
        ensures open { IsTrue result → is_open true (open_at self.now.opened txn.now.number)
            ≡ true }
    {
        self.find_puts(txn).is_some()
    }

    /// Whether a transaction of takes is open.
    pub fn has_takes(&self, txn: &TakeTxn) -> bool
        ensures tells { (settled known : Known) (s : State) → Looks settled known self.now s
            → result ≡ face.is_some_of (takes_of s txn.now) }
        ensures open { IsTrue result → is_open false (open_at self.now.opened txn.now.number)
            ≡ true }
    {
        self.find_takes(txn).is_some()
    }

    /// Takes a transaction of puts that is open out of the open ones. It takes no memory.
    pub fn drop_puts(&mut self, number: u64)
        requires { is_open true (open_at self.old.opened number) ≡ true }
        ensures looks { (settled known : Known) (s : State) → Looks settled known self.old s
            → Looks settled known self.new (close number s) }
        ensures opened { KeepsPuts self.old.opened self.new.opened }
    {
        let ended = self.table.end(number);
        self.open_txns -= 1;
        self.open_puts -= put_count(&ended);
        self.table.hand_back(ended);
    }

    /// Takes a transaction of takes that is open out of the open ones: what it took is free again, in its place. It takes no memory.
    pub fn drop_takes(&mut self, number: u64)
        requires { is_open false (open_at self.old.opened number) ≡ true }
        ensures looks { (settled known : Known) (s : State) → Looks settled known self.old s
            → Looks settled known self.new (close number s) }
        ensures opened { KeepsPuts self.old.opened self.new.opened }
    {
        let ended = self.table.end(number);
        self.open_txns -= 1;
        free_takes(&mut self.ring, &ended);
        self.table.hand_back(ended);
    }

    /// What is staged counts from now on: the events that were taken leave, and after the others come those that were put, with
    /// the next numbers. It takes no memory.
    pub fn settle(&mut self)
        ensures step { (known : Known) (s : State) → Looks known known self.old s
            → Looks known known self.new (face.settle s) }
        ensures put { (token : Token) (pointer : pointers.Pointer) → MayPut self.old token pointer
            → MayPut self.new token pointer }
        ensures take { (token : Token) → MayTake self.old token → MayTake self.new token }
        ensures opened { self.new.opened ≡ self.old.opened }
    {
        self.frame += one_if_staged(&self.staged);
        remove_staged(&mut self.ring, &self.staged);
        self.first = append_staged(&mut self.ring, &self.staged, self.first);
        hand_back_all(&mut self.staged, &mut self.table);
        self.staged_puts = 0;
    }

    /// No call but a rollback goes on from now on.
    pub fn set_broken(&mut self)
        ensures looks { (settled known : Known) (s : State) → Looks settled known self.old s
            → Looks settled known self.new (broken_state s) }
        ensures opened { self.new.opened ≡ self.old.opened }
    {
        self.broken = true;
    }

    /// Each put that is open or staged and stands in `file` at the offset `at` or after it is known to stand in `to_file` from now on,
    /// as far after `to_at`, which is no greater. Events that are left stay where they are. It takes no memory.
    pub fn moved(&mut self, file: u32, at: u64, to_file: u32, to_at: u64)
        requires { to_at ≤ at }
        ensures moved { (settled known more : Known) (s : State) → Looks settled known self.old s
            → Moves file at to_file to_at known more → Looks settled more self.new s }
        ensures put { (token : Token) (pointer : pointers.Pointer) → MayPut self.old token pointer
            → MayPut self.new token pointer }
        ensures take { (token : Token) → MayTake self.old token → MayTake self.new token }
        ensures opened { (txn : ℕ) → open_at self.new.opened txn
            ≡ option_map (moved_open file at to_file to_at) (open_at self.old.opened txn) }
    {
        self.table.moved(file, at, to_file, to_at);
        move_staged(&mut self.staged, file, at, to_file, to_at);
    }

    // Whether what the ticket stands for is settled, by numbers alone.
    fn settled_by_numbers(&self, ticket: &Ticket) -> Settled
        ensures { result ≡ face.settled (eventless self.now.numbers) ticket.now }
    {
        if ticket.frame == 0 {
            return Settled::Yes;
        }
        if ticket.life == self.life {
            if ticket.frame < self.frame {
                return Settled::Yes;
            }
            if ticket.frame == self.frame && !self.broken {
                return Settled::No;
            }
            return Settled::InDoubt;
        }
        if ticket.life > 0 && ticket.life < self.life {
            let place = ticket.life - 1;
            if place < self.ends.len() as u64 && ticket.frame < self.ends[place as usize] {
                return Settled::Yes;
            }
        }
        Settled::InDoubt
    }

    /// Whether what the ticket stands for is settled.
    pub fn settled(&self, ticket: &Ticket) -> Settled
        ensures { (settled known : Known) (s : State) → Looks settled known self.now s
            → result ≡ face.settled s ticket.now }
    {
        self.settled_by_numbers(ticket)
    }

    /// The most events.
    pub fn capacity(&self) -> u32
        ensures { result ≡ self.now.numbers.rules.limits.capacity }
    {
        self.limits.capacity
    }

    /// The length at which a log file is left.
    pub fn max_file(&self) -> u64
        ensures { result ≡ self.now.numbers.rules.limits.max_file }
    {
        self.limits.max_file
    }

    /// How many puts are staged.
    pub fn puts_staged(&self) -> u64
        ensures { (settled known : Known) (s : State) → Looks settled known self.now s
            → result ≡ length (put_events s.staged) }
    {
        self.staged_puts as u64
    }

    /// How many takes are staged, up to 2^64 - 1.
    pub fn takes_staged(&self) -> u64
        ensures { (settled known : Known) (s : State) → Looks settled known self.now s
            → result ≡ capped (length (taken_numbers s.staged)) }
    {
        count_takes(&self.staged)
    }

    /// Whether the channel is broken.
    pub fn is_broken(&self) -> bool
        ensures { result ≡ self.now.numbers.broken }
    {
        self.broken
    }

    /// In which of its lives the channel is, from 1 on.
    pub fn life(&self) -> u64
        ensures { result ≡ self.now.numbers.life }
    {
        self.life
    }

    /// The frames that the lives so far end with, should this one end now.
    pub fn next_ends(&self) -> Result<Vec<u64>, NoMemory>
        ensures { IfOk result (λ ends. ends.items
            ≡ self.now.numbers.ends ++ self.now.numbers.frame ∷ []) }
    {
        let mut ends = self.ends.clone()?;
        ends.push(self.frame)?;
        Ok(ends)
    }

    /// A new life of the channel, with the events that this ring has and these next numbers: nothing is open or staged. `ends` are
    /// those that [`Held::next_ends`] gave. It takes no memory.
    pub fn renew(&mut self, ends: Vec<u64>, ring: Ring, first: u64, txn: u64)
        requires ends { ends.items ≡ self.old.numbers.ends ++ self.old.numbers.frame ∷ [] }
        requires left { (known : Known) × (items : List (ℕ × Content))
            × LookLeft known [] ring.live items × IsBase (record { items = items; first = first }) }
        requires slots { ring.slots ≡ self.old.numbers.rules.limits.capacity }
        requires room { length ring.live ≤ self.old.numbers.rules.limits.capacity }
        requires below { ring.top ≤ first }
        requires txn { 1 ≤ txn }
        requires life { self.old.numbers.life < 2 ^ 64 - 1 }
        ensures looks { (before old settled known : Known) (s : State) (r : Reopened)
            → Looks before old self.old s → r.txn ≡ txn
            → (kept_base s r.kept).first ≡ first
            → LookLeft settled [] ring.live (kept_base s r.kept).items
            → IsBase (kept_base s r.kept) → Looks settled known self.new (after_reopen s (Ok r)) }
        ensures opened { self.new.opened ≡ [] }
    {
        end_all(&mut self.table);
        self.ring = ring;
        self.staged.clear();
        self.first = first;
        self.txn = txn;
        self.broken = false;
        self.life += 1;
        self.frame = 1;
        self.ends = ends;
        self.open_txns = 0;
        self.open_puts = 0;
        self.staged_puts = 0;
    }
}
