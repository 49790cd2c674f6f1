// Batches of events, and the entries of a journal.
ghost use Rattle.std.specs.Prelude.{◌≡◌, ◌<◌, [], ◌∷◌, ◌++◌, length, slice_get, Some, IsTrue, ◌↔◌, MatchOption, OnOk, IfOk, IfErr, OnErr};
ghost use Rattle.event_core.specs.Journal.{is_among};

use crate::{Event, NoMemory};
use std::alloc::Global;
use std::collections::VecDeque;
use std::marker::Model;

/// The most transactions of a channel that are open at once.
pub const MOST_OPEN: usize = 1_024;

/// Events in order.
#[derive(Drop)]
pub struct Batch {
    events: VecDeque<Event>,
    alloc: Global,
}

impl Model for Batch {
    ghost use Rattle.std.specs.Prelude.{List};
    ghost use Rattle.event_core.specs.Content.{Content};

    ghost Value = { List Content };

    ghost view = { λ b. b.events.items };
}

impl Batch {
    /// No events.
    pub fn new(alloc: Global) -> Batch
        ensures { result ≡ [] }
    {
        Batch {
            events: VecDeque::new(alloc),
            alloc,
        }
    }

    /// How many events there are.
    pub fn len(&self) -> usize
        ensures { result ≡ length self.now }
    {
        self.events.len()
    }

    /// Whether there are none.
    pub fn is_empty(&self) -> bool
        ensures { IsTrue result ↔ (self.now ≡ []) }
    {
        self.events.is_empty()
    }

    /// The event at this place, from 0.
    pub fn get(&self, at: usize) -> &Event
        requires { at < length self.now }
        ensures { slice_get self.now at ≡ Some result.now }
    {
        match self.events.get(at) {
            Some(event) => event,
            None => unreachable!(),
        }
    }

    /// Adds an event at the end. `Err` hands it back, when out of memory.
    pub fn push(&mut self, event: Event) -> Result<(), Event>
        ensures ok { OnOk result (self.new ≡ self.old ++ event ∷ []) }
        ensures err { OnErr result (self.new ≡ self.old) }
        ensures back { IfErr result (λ handed_back. handed_back ≡ event) }
    {
        match self.events.push_back(event) {
            Ok(()) => Ok(()),
            Err(failed) => Err(failed.value),
        }
    }

    /// Hands out the first event. It takes no memory.
    pub fn take_first(&mut self) -> Option<Event>
        ensures { MatchOption result ((self.old ≡ []) × (self.new ≡ []))
            (λ event. self.old ≡ event ∷ self.new) }
    {
        self.events.pop_front()
    }

    /// The same events once more.
    pub fn copy(&self) -> Result<Batch, NoMemory>
        ensures { IfOk result (λ batch. batch ≡ self.now) }
    {
        let mut events = VecDeque::with_capacity(self.alloc, self.len())?;
        for at in 0..self.len() {
            let event = self.get(at).copy()?;
            events.push_back(event)?;
        }
        Ok(Batch {
            events,
            alloc: self.alloc,
        })
    }
}

/// Numbers in order.
#[derive(Drop)]
pub struct Numbers {
    items: Vec<u64>,
}

impl Model for Numbers {
    ghost use Rattle.std.specs.Prelude.{List, ℕ};

    ghost Value = { List ℕ };

    ghost view = { λ n. n.items.items };
}

impl Numbers {
    /// No numbers.
    pub fn new(alloc: Global) -> Numbers
        ensures { result ≡ [] }
    {
        Numbers {
            items: Vec::new(alloc),
        }
    }

    /// How many numbers there are.
    pub fn len(&self) -> usize
        ensures { result ≡ length self.now }
    {
        self.items.len()
    }

    /// Whether there are none.
    pub fn is_empty(&self) -> bool
        ensures { IsTrue result ↔ (self.now ≡ []) }
    {
        self.items.is_empty()
    }

    /// Whether the number is among them.
    pub fn contains(&self, number: u64) -> bool
        ensures { result ≡ is_among self.now number }
    {
        is_among(&self.items, number)
    }

    /// All of them.
    pub fn as_slice(&self) -> &[u64]
        ensures { result.now ≡ self.now }
    {
        &self.items
    }

    /// Adds a number at the end.
    pub fn push(&mut self, number: u64) -> Result<(), NoMemory>
        ensures ok { OnOk result (self.new ≡ self.old ++ number ∷ []) }
        ensures err { OnErr result (self.new ≡ self.old) }
    {
        self.items.push(number)?;
        Ok(())
    }

    /// The same numbers once more.
    pub fn copy(&self) -> Result<Numbers, NoMemory>
        ensures { IfOk result (λ numbers. numbers ≡ self.now) }
    {
        let items = self.items.clone()?;
        Ok(Numbers { items })
    }
}

fn is_among(numbers: &[u64], number: u64) -> bool
    ensures { result ≡ is_among numbers.now number }
{
    for place in 0..numbers.len() {
        if numbers[place] == number {
            return true;
        }
    }
    false
}

/// What a transaction did: its puts, or the numbers that it took.
#[derive(Drop)]
pub enum Entry {
    Puts(Batch),
    Takes(Numbers),
}
