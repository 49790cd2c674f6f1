// The records of a log, applied one after another.
ghost use Rattle.std.specs.Prelude.{◌≡◌, ◌≤◌, ◌+◌, ◌-◌, ◌^◌, [], ◌∷◌, ◌↔◌, IsTrue, IfOk, IfErr, OnOk, max};
ghost use Rattle.event_core.specs.Journal.{Base};
ghost use Rattle.record_form.specs.declared.record.Rec.TheVariants.{Put, Take, Rollback, CommitPut, CommitTake};
ghost use Rattle.channel_replay.specs.Marks.{Past, Dropped, txn_of};
ghost use Rattle.channel_replay.specs.Rules.{IsTxn};
ghost use Rattle.channel_replay.specs.Recover.{IsAt, IsSound, empty_base, past_line};
ghost use Rattle.channel_replay.specs.Plain.{WhereBad};
ghost use Rattle.channel_replay.specs.Recovery.{Agrees, AppliesTo, SettlesPuts, SettlesTakes};

use crate::items::{Item, append, is_left, remove};
use crate::line::Line;
use crate::open::{Open, add_put, add_take, end, is_held};
use crate::refused::RecoverRefused;
use event_core::{Batch, Entry, Event, NoMemory, Numbers};
use record_form::Rec;
use std::alloc::Global;

/// The numbers of the next event and of the next transaction.
#[derive(Clone, Copy, Debug, PartialEq, Eq)]
pub struct Next {
    pub number: u64,
    pub txn: u64,
}

/// What a log leaves: the events, in the order of their numbers, and the numbers that come next.
#[derive(Drop)]
pub struct Replayed {
    pub items: Vec<(u64, Event)>,
    pub next: Next,
}

// What the records that were applied lead to.
#[derive(Drop)]
pub(crate) struct Recovery {
    alloc: Global,
    pub(crate) items: Vec<Item>,
    // the number of the next event
    pub(crate) number: u64,
    // the number of the next transaction
    pub(crate) txn: u64,
    opened: Vec<Open>,
}

// Whether a transaction may have this number.
fn is_txn(txn: u64) -> bool
    ensures { IsTrue result ↔ IsTxn txn }
{
    txn >= 1 && txn <= u64::MAX - 1
}

fn txn_of(rec: &Rec) -> u64
    ensures { result ≡ txn_of rec.now }
{
    match rec {
        Rec::Put { txn, .. } => *txn,
        Rec::Take { txn, .. } => *txn,
        Rec::Rollback { txn } => *txn,
        Rec::CommitPut { txn, .. } => *txn,
        Rec::CommitTake { txn, .. } => *txn,
        Rec::End { .. } => 0,
    }
}

impl Recovery {
    pub(crate) fn new(alloc: Global) -> Recovery
        ensures { Agrees empty_base [] result }
    {
        Recovery {
            alloc,
            items: Vec::new(alloc),
            number: 0,
            txn: 1,
            opened: Vec::new(alloc),
        }
    }

    // Drops all open transactions.
    pub(crate) fn drop_open(&mut self)
        ensures { (base : Base) (past : Past) → Agrees base past self.old → Agrees base
            (Dropped ∷ past) self.new }
    {
        self.opened.clear();
    }

    // The next transaction is above this one.
    fn see(&mut self, txn: u64)
        requires { IsTxn txn }
        ensures { self.new ≡ record self.old { txn = max (txn + 1) self.old.txn } }
    {
        self.txn = self.txn.max(txn + 1);
    }

    fn put(&mut self, txn: u64, event: Event) -> Result<bool, NoMemory>
        requires { IsTxn txn }
        ensures { IfOk result (λ legal. AppliesTo legal self.old (Put txn event) self.new) }
    {
        self.see(txn);
        add_put(self.alloc, &mut self.opened, txn, event)
    }

    fn take(&mut self, txn: u64, number: u64) -> Result<bool, NoMemory>
        requires { IsTxn txn }
        ensures { IfOk result (λ legal. AppliesTo legal self.old (Take txn number) self.new) }
    {
        if !is_left(&self.items, number) {
            return Ok(false);
        }
        if is_held(&self.opened, number) {
            return Ok(false);
        }
        self.see(txn);
        add_take(self.alloc, &mut self.opened, txn, number)
    }

    fn roll_back(&mut self, txn: u64) -> bool
        requires { IsTxn txn }
        ensures { AppliesTo result self.old (Rollback txn) self.new }
    {
        self.see(txn);
        end(&mut self.opened, txn).is_some()
    }

    // Makes the events of an open put the last ones of what is left.
    fn settle_puts(&mut self, batch: Batch, first: u64, count: u32) -> Result<bool, NoMemory>
        ensures { IfOk result (λ ok. SettlesPuts ok batch first count self.old self.new) }
    {
        if batch.len() as u64 != u64::from(count)
            || first != self.number
            || u64::from(count) > u64::MAX - first
        {
            return Ok(false);
        }
        self.number = append(&mut self.items, batch, first)?;
        Ok(true)
    }

    fn commit_put(&mut self, txn: u64, first: u64, count: u32) -> Result<bool, NoMemory>
        requires { IsTxn txn }
        ensures { IfOk result (λ legal. AppliesTo legal self.old (CommitPut txn first count)
            self.new) }
    {
        self.see(txn);
        match end(&mut self.opened, txn) {
            Some(Entry::Puts(batch)) => self.settle_puts(batch, first, count),
            Some(Entry::Takes(_)) => Ok(false),
            None => Ok(false),
        }
    }

    // Removes the events of an open take from what is left.
    fn settle_takes(&mut self, numbers: &Numbers, count: u32) -> bool
        ensures { SettlesTakes result numbers.now count self.old self.new }
    {
        if numbers.len() as u64 != u64::from(count) {
            return false;
        }
        remove(&mut self.items, numbers);
        true
    }

    fn commit_take(&mut self, txn: u64, count: u32) -> bool
        requires { IsTxn txn }
        ensures { AppliesTo result self.old (CommitTake txn count) self.new }
    {
        self.see(txn);
        match end(&mut self.opened, txn) {
            Some(Entry::Takes(numbers)) => self.settle_takes(&numbers, count),
            Some(Entry::Puts(_)) => false,
            None => false,
        }
    }

    // Applies a record. Whether it is legal.
    pub(crate) fn apply(&mut self, rec: Rec) -> Result<bool, NoMemory>
        ensures { IfOk result (λ legal. AppliesTo legal self.old rec self.new) }
    {
        if !is_txn(txn_of(&rec)) {
            return Ok(false);
        }
        match rec {
            Rec::Put { txn, event } => self.put(txn, event),
            Rec::Take { txn, number } => self.take(txn, number),
            Rec::Rollback { txn } => Ok(self.roll_back(txn)),
            Rec::CommitPut { txn, first, count } => self.commit_put(txn, first, count),
            Rec::CommitTake { txn, count } => Ok(self.commit_take(txn, count)),
            Rec::End { .. } => Ok(false),
        }
    }

    // Applies what stands in a line, or names the fault there.
    pub(crate) fn apply_line(&mut self, line: Line) -> Result<(), RecoverRefused>
        ensures ok { OnOk result ((base : Base) (past : Past) → Agrees base past self.old → IsSound
            base past line × Agrees base (past_line past line) self.new) }
        ensures bad { IfErr result (λ e. WhereBad e (λ file at. IsAt line file at ×
            ((base : Base) (past : Past) → Agrees base past self.old → IsSound base past line →
            ⊥))) }
    {
        match line {
            Line::Begins => {
                self.drop_open();
                Ok(())
            }
            Line::Stands { file, at, rec } => match self.apply(rec) {
                Ok(true) => Ok(()),
                Ok(false) => Err(RecoverRefused::BadLog { file, at }),
                Err(_) => Err(RecoverRefused::NoMemory),
            },
            Line::Faulty { file, at } => Err(RecoverRefused::BadLog { file, at }),
        }
    }

    // What the records leave: open transactions have no effect.
    pub(crate) fn finish(self) -> Replayed
        ensures items { result.items.items ≡ self.items.items }
        ensures number { result.next.number ≡ self.number }
        ensures txn { result.next.txn ≡ self.txn }
    {
        Replayed {
            items: self.items,
            next: Next {
                number: self.number,
                txn: self.txn,
            },
        }
    }
}
