// A checkpoint as far as it was read.
ghost use Rattle.std.specs.Prelude.{◌≡◌, ◌<◌, ◌≤◌, ◌+◌, ◌-◌, ◌^◌, ◌++◌, [], ◌∷◌, ℕ, List, length, map, IfOk, OnOk, None, true, false};
ghost use Rattle.open_table.specs.Tables.{Listed, Table, open_at, with_item};
ghost use Rattle.checkpoint.specs.Says.{live_at};
ghost use Rattle.checkpoint_reading.specs.Draft.{IsFresh};
ghost use Rattle.checkpoint_reading.specs.Opens.{HasTaken, IsListing, Lists, MayList, MayTake, nothing};

use checkpoint::{Next, Place};
use event_core::NoMemory;
use event_ring::Ring;
use open_table::{Item, OpenTable, TableRefused};
use record_form::Pointer;
use std::alloc::Global;

/// A checkpoint as far as it was read: its place, its next numbers, and what of its lists was read.
#[derive(Drop)]
pub(crate) struct Draft {
    pub(crate) place: Place,
    pub(crate) next: Next,
    pub(crate) ring: Ring,
    // how many events the ring has room for
    pub(crate) slots: u32,
    pub(crate) table: OpenTable,
}

impl Draft {
    /// A checkpoint of which no list was read. It has room for no event yet: the room grows with what is read.
    pub(crate) fn new(alloc: Global, place: Place, next: Next) -> Result<Draft, NoMemory>
        ensures { IfOk result (λ d. IsFresh place next d) }
    {
        Ok(Draft {
            place,
            next,
            ring: Ring::make(alloc, 0)?,
            slots: 0,
            table: OpenTable::new(alloc)?,
        })
    }

    // Makes room for one more event, and as many again, where there is none.
    fn widen(&mut self) -> Result<(), NoMemory>
        requires slots { self.old.ring.slots ≡ self.old.slots }
        requires within { length self.old.ring.live ≤ self.old.slots }
        ensures room { OnOk result (length self.new.ring.live < self.new.slots) }
        ensures slots { self.new.ring.slots ≡ self.new.slots }
        ensures ring { self.new.ring ≡ record self.old.ring { slots = self.new.slots } }
        ensures rest { self.new ≡ record self.old { ring = self.new.ring; slots = self.new.slots } }
    {
        if self.ring.len() < self.slots as usize {
            return Ok(());
        }
        if self.slots > u32::MAX / 2 - 1 {
            return Err(NoMemory);
        }
        let slots = 2 * self.slots + 1;
        self.ring.resize(slots)?;
        self.slots = slots;
        Ok(())
    }

    /// Adds an event that is left, above those before.
    pub(crate) fn push(&mut self, number: u64, pointer: Pointer) -> Result<(), NoMemory>
        requires slots { self.old.ring.slots ≡ self.old.slots }
        requires within { length self.old.ring.live ≤ self.old.slots }
        requires above { self.old.ring.top ≤ number }
        requires low { number < 2 ^ 64 - 1 }
        ensures ring { OnOk result (self.new.ring ≡ record {
          slots = self.new.slots;
          top = number +
              1;
          live = self.old.ring.live ++ record {
            number = number;
            pointer = pointer;
            held =
                false;
          } ∷ [];
        }) }
        ensures within { OnOk result (length self.old.ring.live + 1 ≤ self.new.slots) }
        ensures rest { self.new ≡ record self.old { ring = self.new.ring; slots = self.new.slots } }
    {
        self.widen()?;
        self.ring.push(number, pointer);
        Ok(())
    }

    /// Begins an open transaction that has nothing yet. Whether it may be one more: 1,024 are open where it may not.
    pub(crate) fn begin(&mut self, txn: u64, puts: bool) -> Result<bool, NoMemory>
        requires { open_at self.old.table txn ≡ None }
        ensures begun { IfOk result (λ few. few ≡ true → Lists txn (nothing puts) self.old.table
            self.new.table × (length self.old.table < 1024)) }
        ensures many { IfOk result (λ few. few ≡ false → 1024 ≤ length self.old.table) }
        ensures rest { self.new ≡ record self.old { table = self.new.table } }
    {
        match self.table.begin(txn, puts, 0) {
            Ok(()) => Ok(true),
            Err(TableRefused::TooManyOpen) => Ok(false),
            Err(TableRefused::NoMemory) => Err(NoMemory),
        }
    }

    /// Adds a put or a take to an open transaction. Its room grows with what is read.
    pub(crate) fn add(&mut self, txn: u64, item: Item) -> Result<(), NoMemory>
        requires { MayList item (open_at self.old.table txn) }
        ensures added { OnOk result ((base : Table) (listed : Listed) → Lists txn listed base
            self.old.table → Lists txn (with_item item listed) base self.new.table) }
        ensures here { OnOk result ((listed : Listed) → IsListing txn listed self.old.table →
            IsListing txn (with_item item listed) self.new.table) }
        ensures rest { self.new ≡ record self.old { table = self.new.table } }
    {
        self.table.widen(txn)?;
        self.table.add(txn, item);
        Ok(())
    }

    /// Holds an event, if it is left and no open transaction takes it.
    pub(crate) fn hold(&mut self, number: u64) -> bool
        ensures held { result ≡ true → (taken : List ℕ) → HasTaken taken self.old.ring.live →
            HasTaken (taken ++ number ∷ []) self.new.ring.live }
        ensures other { result ≡ false → (taken behind : List ℕ) → HasTaken taken self.old.ring.live
            → MayTake self.old.ring.live taken (number ∷ behind) → ⊥ }
        ensures events { map live_at self.new.ring.live ≡ map live_at self.old.ring.live }
        ensures rest { self.new ≡ record self.old {
          ring = record self.old.ring
              { live = self.new.ring.live };
        } }
    {
        let Some((_, held)) = self.ring.look(number) else {
            return false;
        };
        if held {
            return false;
        }
        self.ring.mark(number);
        true
    }
}
