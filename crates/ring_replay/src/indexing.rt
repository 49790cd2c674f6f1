// The records of a log, applied one after another to a ring of places and a table of what is open.
ghost use Rattle.std.specs.Prelude.{◌≡◌, ◌<◌, ◌≤◌, ◌+◌, ◌^◌, ◌↔◌, [], ◌∷◌, ℕ, IsTrue, IsSome, IfOk, IfErr, OnErr, OnOk, length, max};
ghost use Rattle.event_core.specs.Content.{Content};
ghost use Rattle.record_form.specs.declared.record.Rec.TheVariants.{CommitPut, CommitTake, Put, Rollback, Take};
ghost use Rattle.record_form.specs.declared.record.Rec.{Rec};
ghost use Rattle.record_form.specs.Outlines.{IsSomeOutline, outline_of};
ghost use Rattle.ring_replay.specs.Indexing.{GoesBy, GoesOn, GoesThrough, StopsAt, free_of, HasRoom, IsGivenUp, IsKept, Keeps, Opens, Places, SettlesPuts, outline_length, outline_txn};
ghost use Rattle.event_ring.specs.Slots.{look_at};
ghost use Rattle.open_table.specs.Tables.{open_at};
ghost use Rattle.channel_replay.specs.declared.line.Line.TheVariants.{Stands};
ghost use Rattle.channel_replay.specs.Marks.{Dropped, Past};
ghost use Rattle.channel_replay.specs.Recover.{IsAt, empty_start};
ghost use Rattle.channel_replay.specs.Plain.{WhereBad};
ghost use Rattle.channel_replay.specs.Rules.{IsTxn};
ghost use Rattle.channel_replay.specs.Start.{Start};

use crate::settling::{append, free_all, remove_all};
use channel_replay::{Next, RecoverRefused};
use event_core::NoMemory;
use event_ring::Ring;
use open_table::{Ended, Item, OpenTable, TableRefused};
use record_form::{Outline, Pointer};
use std::alloc::Global;

/// What the lines of a log that were applied lead to: a ring of the events that are left, with the place of each one's
/// record, a table of what is open, and the next numbers.
#[derive(Drop)]
pub struct Indexing {
    pub(crate) ring: Ring,
    // how many events the ring has room for
    pub(crate) slots: u32,
    pub(crate) table: OpenTable,
    pub(crate) next: Next,
}

// Whether a transaction may have this number.
fn is_txn(txn: u64) -> bool
    ensures { IsTrue result ↔ IsTxn txn }
{
    txn >= 1 && txn <= u64::MAX - 1
}

fn txn_of(outline: Outline) -> u64
    ensures { result ≡ outline_txn outline }
{
    match outline {
        Outline::Put { txn, .. } => txn,
        Outline::Take { txn, .. } => txn,
        Outline::Rollback { txn } => txn,
        Outline::CommitPut { txn, .. } => txn,
        Outline::CommitTake { txn, .. } => txn,
        Outline::End { .. } => 0,
    }
}

// Where a record of this outline stands. A record that is no PUT has no event's length.
fn place_of(file: u32, at: u64, outline: Outline) -> Pointer
    ensures { result ≡ record { file = file; at = at; length = outline_length outline } }
{
    let length = match outline {
        Outline::Put { length, .. } => length,
        _ => 0,
    };
    Pointer { file, at, length }
}

// Begins a transaction, or goes on with it, and makes room for one more put or take. Whether it may.
fn open_for(table: &mut OpenTable, txn: u64, puts: bool) -> Result<bool, NoMemory>
    ensures { IfOk result (λ ok. Opens ok puts txn table.old table.new) }
{
    if table.has(txn, puts) {
        table.widen(txn)?;
        return Ok(true);
    }
    if table.has(txn, !puts) {
        return Ok(false);
    }
    match table.begin(txn, puts, 1) {
        Ok(()) => Ok(true),
        Err(TableRefused::TooManyOpen) => Ok(false),
        Err(TableRefused::NoMemory) => Err(NoMemory),
    }
}

// Whether an event is left, and no transaction takes it.
fn is_free(ring: &Ring, number: u64) -> bool
    ensures { result ≡ free_of (look_at number ring.now.live) }
{
    match ring.look(number) {
        Some((_, held)) => !held,
        None => false,
    }
}

impl Indexing {
    /// Room for so many events, of which there are none, and nothing open.
    pub fn new(alloc: Global, capacity: u32) -> Result<Indexing, NoMemory>
        ensures { IfOk result (λ r. (places : Places) → Keeps places empty_start [] r) }
    {
        Ok(Indexing {
            ring: Ring::make(alloc, capacity)?,
            slots: capacity,
            table: OpenTable::new(alloc)?,
            next: Next { number: 0, txn: 1 },
        })
    }

    /// What a checkpoint has: the ring of the events that are left, with room for so many, the table of what is open, and the
    /// next numbers.
    pub fn of(ring: Ring, slots: u32, table: OpenTable, next: Next) -> Indexing
        ensures { result ≡ record { ring = ring; slots = slots; table = table; next = next } }
    {
        Indexing {
            ring,
            slots,
            table,
            next,
        }
    }

    // The next transaction is above this one.
    fn see(&mut self, txn: u64)
        requires { IsTxn txn }
        ensures { self.new ≡ record self.old {
          next = record self.old.next
              { txn = max (txn + 1) self.old.next.txn };
        } }
    {
        self.next.txn = self.next.txn.max(txn + 1);
    }

    fn put(&mut self, txn: u64, place: Pointer) -> Result<bool, NoMemory>
        requires { IsTxn txn }
        ensures { IfOk result (λ legal. (event : Content) → GoesOn legal self.old place
            (Put txn event) self.new) }
    {
        self.see(txn);
        if !open_for(&mut self.table, txn, true)? {
            return Ok(false);
        }
        self.table.add(txn, Item::Put(place));
        Ok(true)
    }

    fn take(&mut self, txn: u64, number: u64, place: Pointer) -> Result<bool, NoMemory>
        requires { IsTxn txn }
        ensures { IfOk result (λ legal. GoesOn legal self.old place (Take txn number) self.new) }
    {
        if !is_free(&self.ring, number) {
            return Ok(false);
        }
        self.see(txn);
        if !open_for(&mut self.table, txn, false)? {
            return Ok(false);
        }
        self.table.add(txn, Item::Take(number));
        self.ring.mark(number);
        Ok(true)
    }

    // Ends a transaction: what it takes is held no longer.
    fn give_up(&mut self, txn: u64)
        requires kept { IsKept self.old }
        requires open { IsSome (open_at self.old.table txn) }
        ensures { IsGivenUp txn self.old self.new }
    {
        if let Ended::Takes(numbers) = self.table.end(txn) {
            free_all(&mut self.ring, &numbers);
        }
    }

    fn roll_back(&mut self, txn: u64, place: Pointer) -> bool
        requires txn { IsTxn txn }
        requires kept { IsKept self.old }
        ensures { GoesOn result self.old place (Rollback txn) self.new }
    {
        if !self.table.has(txn, true) && !self.table.has(txn, false) {
            return false;
        }
        self.give_up(txn);
        self.see(txn);
        true
    }

    /// Drops all open transactions.
    pub fn drop_open(&mut self)
        requires { IsKept self.old }
        ensures dropped { (places : Places) (s : Start) (past : Past) → Keeps places s past self.old
            → Keeps places s (Dropped ∷ past) self.new }
        ensures kept { IsKept self.new }
    {
        while let Some(txn) = self.table.next_txn(None) {
            self.give_up(txn);
        }
    }

    // Makes the events of an open put the last ones of what is left.
    fn settle_puts(&mut self, places: &[Pointer], first: u64, count: u32) -> Result<bool, NoMemory>
        requires slots { self.old.ring.slots ≡ self.old.slots }
        requires top { self.old.ring.top ≤ self.old.next.number }
        ensures { IfOk result (λ ok. SettlesPuts ok places.now first count self.old self.new) }
    {
        if places.len() as u64 != u64::from(count)
            || first != self.next.number
            || u64::from(count) > u64::MAX - first
        {
            return Ok(false);
        }
        self.make_room(count)?;
        append(&mut self.ring, places, first);
        self.next.number = first + u64::from(count);
        Ok(true)
    }

    // Makes the ring so large that so many events more fit.
    fn make_room(&mut self, count: u32) -> Result<(), NoMemory>
        requires { self.old.ring.slots ≡ self.old.slots }
        ensures { OnOk result (HasRoom count self.old self.new) }
    {
        let wanted = (self.ring.len() as u64).saturating_add(u64::from(count));
        if wanted <= u64::from(self.slots) {
            return Ok(());
        }
        let Ok(wanted) = u32::try_from(wanted) else {
            return Err(NoMemory);
        };
        let slots = wanted.max(self.slots.saturating_mul(2));
        self.ring.resize(slots)?;
        self.slots = slots;
        Ok(())
    }

    fn commit_put(
        &mut self,
        txn: u64,
        first: u64,
        count: u32,
        place: Pointer,
    ) -> Result<bool, NoMemory>
        requires txn { IsTxn txn }
        requires kept { IsKept self.old }
        ensures { IfOk result (λ legal. GoesOn legal self.old place (CommitPut txn first count)
            self.new) }
    {
        self.see(txn);
        if !self.table.has(txn, true) {
            return Ok(false);
        }
        match self.table.end(txn) {
            Ended::Puts(places) => {
                let settled = self.settle_puts(&places, first, count);
                self.table.hand_back(Ended::Puts(places));
                settled
            }
            Ended::Takes(_) => Ok(false),
        }
    }

    fn commit_take(&mut self, txn: u64, count: u32, place: Pointer) -> bool
        requires txn { IsTxn txn }
        requires kept { IsKept self.old }
        ensures { GoesOn result self.old place (CommitTake txn count) self.new }
    {
        self.see(txn);
        if !self.table.has(txn, false) {
            return false;
        }
        match self.table.end(txn) {
            Ended::Takes(numbers) => {
                if numbers.len() as u64 != u64::from(count) {
                    return false;
                }
                remove_all(&mut self.ring, &numbers);
                self.table.hand_back(Ended::Takes(numbers));
                true
            }
            Ended::Puts(_) => false,
        }
    }

    // Applies a record of this outline that stands at this place. Whether it is legal.
    fn apply(&mut self, outline: Outline, place: Pointer) -> Result<bool, NoMemory>
        requires { IsKept self.old }
        ensures { IfOk result (λ legal. GoesBy legal self.old place outline self.new) }
    {
        if !is_txn(txn_of(outline)) {
            return Ok(false);
        }
        match outline {
            Outline::Put { txn, .. } => self.put(txn, place),
            Outline::Take { txn, number } => self.take(txn, number, place),
            Outline::Rollback { txn } => Ok(self.roll_back(txn, place)),
            Outline::CommitPut { txn, first, count } => self.commit_put(txn, first, count, place),
            Outline::CommitTake { txn, count } => Ok(self.commit_take(txn, count, place)),
            Outline::End { .. } => Ok(false),
        }
    }

    /// Applies the record of this outline that stands at this offset of a file, or names the fault there.
    pub fn apply_outline(
        &mut self,
        file: u32,
        at: u64,
        outline: Outline,
    ) -> Result<(), RecoverRefused>
        requires kept { IsKept self.old }
        requires outlined { IsSomeOutline outline }
        ensures ok { OnOk result ((rec : Rec) → outline ≡ outline_of rec → GoesThrough
            (Stands file at rec ∷ []) self.old self.new) }
        ensures kept { OnOk result (IsKept self.new) }
        ensures bad { IfErr result (λ e. WhereBad e (λ f a. (rec : Rec) → outline ≡ outline_of rec →
            IsAt (Stands file at rec) f a × StopsAt (Stands file at rec) self.old)) }
    {
        match self.apply(outline, place_of(file, at, outline)) {
            Ok(true) => Ok(()),
            Ok(false) => Err(RecoverRefused::BadLog { file, at }),
            Err(_) => Err(RecoverRefused::NoMemory),
        }
    }
}
