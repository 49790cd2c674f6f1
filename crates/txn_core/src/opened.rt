// Open transactions in a list.
ghost use Rattle.std.specs.Prelude.{◌≡◌, ◌<◌, ◌≤◌, ◌+◌, ◌++◌, ◌∷◌, [], ℕ, List, length, take, drop, slice_get, slice_set, Option, Some, None, vec_capacity, MatchOption, IfSome, IfNone, IfOk, OnOk, OnErr, true};
ghost use Rattle.event_core.specs.Content.{Content};
ghost use Rattle.event_core.specs.Journal.{taken_numbers, is_among};
ghost use Rattle.event_core.specs.declared.journal.Entry.{Entry};
ghost use Rattle.channel_face.specs.Machine.{entries, entry_of, is_none_staged};
ghost use Rattle.txn_core.specs.Places.{IsAt};
ghost use Rattle.txn_core.specs.Sound.{size_of_entry, puts_in, takes_in, without_puts, one_if_staged};

use event_core::{Event, NoMemory};
use std::alloc::Global;
use std::collections::VecDeque;
use std::marker::Model;

/// What a transaction did.
#[derive(Drop)]
pub(crate) enum Did {
    Puts(VecDeque<Event>),
    Takes(Vec<u64>),
}

/// A transaction with its number, and what it did.
#[derive(Drop)]
pub(crate) struct Open {
    own_number: u64,
    did: Did,
}

impl Model for Open {
    ghost use Rattle.std.specs.Prelude.{ℕ};
    ghost use Rattle.event_core.specs.declared.journal.Entry.{Entry};
    ghost use Rattle.txn_core.specs.Did.{entry_of_did};

    ghost Value = { ℕ × Entry };

    ghost view = { λ o. (o.own_number, entry_of_did o.did) };
}

impl Open {
    /// A transaction of puts, without any.
    pub(crate) fn puts(alloc: Global, number: u64) -> Open
        ensures { result ≡ (number, Entry.Puts []) }
    {
        Open {
            own_number: number,
            did: Did::Puts(VecDeque::new(alloc)),
        }
    }

    /// A transaction of takes, without any.
    pub(crate) fn takes(alloc: Global, number: u64) -> Open
        ensures { result ≡ (number, Entry.Takes []) }
    {
        Open {
            own_number: number,
            did: Did::Takes(Vec::new(alloc)),
        }
    }

    pub(crate) fn number(&self) -> u64
        ensures { result ≡ self.now.0 }
    {
        self.own_number
    }

    /// How many puts it has, if it is of puts.
    pub(crate) fn puts_len(&self) -> Option<usize>
        ensures puts { IfSome result (λ n. (events : List Content)
            × (self.now.1 ≡ Entry.Puts events) × (n ≡ length events)) }
        ensures takes { IfNone result ((numbers : List ℕ) × (self.now.1 ≡ Entry.Takes numbers)) }
    {
        match &self.did {
            Did::Puts(events) => Some(events.len()),
            Did::Takes(_) => None,
        }
    }

    /// How many takes it has, if it is of takes.
    pub(crate) fn takes_len(&self) -> Option<usize>
        ensures takes { IfSome result (λ n. (numbers : List ℕ) × (self.now.1 ≡ Entry.Takes numbers)
            × (n ≡ length numbers)) }
        ensures puts { IfNone result ((events : List Content) × (self.now.1 ≡ Entry.Puts events)) }
    {
        match &self.did {
            Did::Puts(_) => None,
            Did::Takes(numbers) => Some(numbers.len()),
        }
    }

    /// How many events it puts.
    pub(crate) fn put_count(&self) -> usize
        ensures { result ≡ length (puts_in self.now.1) }
    {
        match &self.did {
            Did::Puts(events) => events.len(),
            Did::Takes(_) => 0,
        }
    }

    /// How many events it takes.
    pub(crate) fn take_count(&self) -> usize
        ensures { result ≡ length (takes_in self.now.1) }
    {
        match &self.did {
            Did::Puts(_) => 0,
            Did::Takes(numbers) => numbers.len(),
        }
    }

    /// How many events it puts or takes.
    pub(crate) fn size(&self) -> usize
        ensures { result ≡ size_of_entry self.now.1 }
    {
        match &self.did {
            Did::Puts(events) => events.len(),
            Did::Takes(numbers) => numbers.len(),
        }
    }

    /// Whether it takes this number.
    pub(crate) fn takes_number(&self, number: u64) -> bool
        ensures { result ≡ is_among (takes_in self.now.1) number }
    {
        match &self.did {
            Did::Puts(_) => false,
            Did::Takes(numbers) => is_among(numbers, number),
        }
    }

    /// A number that is not below this one, and above which it takes none.
    pub(crate) fn take_bound(&self, least: u64) -> u64
        ensures least { least ≤ result }
        ensures takes { (n : ℕ) → is_among (takes_in self.now.1) n ≡ true → n ≤ result }
    {
        match &self.did {
            Did::Puts(_) => least,
            Did::Takes(numbers) => bound(numbers, least),
        }
    }

    /// Adds an event to its puts.
    pub(crate) fn push_put(&mut self, event: Event) -> Result<(), NoMemory>
        requires { (events : List Content) × (self.old.1 ≡ Entry.Puts events) }
        ensures ok { OnOk result (self.new ≡ (
          self.old.0,
          Entry.Puts (puts_in self.old.1 ++ event ∷ []),
        )) }
        ensures err { OnErr result (self.new ≡ self.old) }
    {
        match &mut self.did {
            Did::Puts(events) => {
                events.push_back(event)?;
                Ok(())
            }
            Did::Takes(_) => Err(NoMemory),
        }
    }

    /// Adds a number to its takes.
    pub(crate) fn push_take(&mut self, number: u64) -> Result<(), NoMemory>
        requires { (numbers : List ℕ) × (self.old.1 ≡ Entry.Takes numbers) }
        ensures ok { OnOk result (self.new ≡ (
          self.old.0,
          Entry.Takes (takes_in self.old.1 ++ number ∷ []),
        )) }
        ensures err { OnErr result (self.new ≡ self.old) }
    {
        match &mut self.did {
            Did::Puts(_) => Err(NoMemory),
            Did::Takes(numbers) => {
                numbers.push(number)?;
                Ok(())
            }
        }
    }

    /// Takes its last put or take back.
    pub(crate) fn pop(&mut self)
        ensures puts { (events : List Content) (event : Content)
            → self.old.1 ≡ Entry.Puts (events ++ event ∷ [])
            → self.new ≡ (self.old.0, Entry.Puts events) }
        ensures takes { (numbers : List ℕ) (number : ℕ)
            → self.old.1 ≡ Entry.Takes (numbers ++ number ∷ [])
            → self.new ≡ (self.old.0, Entry.Takes numbers) }
    {
        match &mut self.did {
            Did::Puts(events) => {
                let _gone = events.pop_back();
            }
            Did::Takes(numbers) => {
                let _gone = numbers.pop();
            }
        }
    }

    /// The same transaction once more.
    pub(crate) fn copy(&self, alloc: Global) -> Result<Open, NoMemory>
        ensures { IfOk result (λ copy. copy ≡ self.now) }
    {
        let did = match &self.did {
            Did::Puts(events) => Did::Puts(copy_events(alloc, events)?),
            Did::Takes(numbers) => Did::Takes(numbers.clone()?),
        };
        Ok(Open {
            own_number: self.own_number,
            did,
        })
    }

    /// Hands out the first of its puts.
    pub(crate) fn take_first(&mut self) -> Option<Event>
        ensures { MatchOption result ((puts_in self.old.1 ≡ [])
            × (self.new ≡ (self.old.0, without_puts self.old.1)))
            (λ event. (puts_in self.old.1 ≡ event ∷ puts_in self.new.1) × (self.new.0 ≡ self.old.0)
            × (without_puts self.new.1 ≡ without_puts self.old.1)) }
    {
        match &mut self.did {
            Did::Puts(events) => events.pop_front(),
            Did::Takes(_) => None,
        }
    }
}

fn copy_events(alloc: Global, events: &VecDeque<Event>) -> Result<VecDeque<Event>, NoMemory>
    ensures { IfOk result (λ copy. copy.items ≡ events.now.items) }
{
    let mut copy = VecDeque::new(alloc);
    for at in 0..events.len() {
        copy.push_back(events[at].copy()?)?;
    }
    Ok(copy)
}

fn is_among(numbers: &[u64], number: u64) -> bool
    ensures { result ≡ is_among numbers.now number }
{
    for place in 0..numbers.len() {
        if numbers[place] == number {
            return true;
        }
    }
    false
}

// A number that is not below this one nor any of these.
fn bound(numbers: &[u64], least: u64) -> u64
    ensures least { least ≤ result }
    ensures numbers { (n : ℕ) → is_among numbers.now n ≡ true → n ≤ result }
{
    let mut most = least;
    for place in 0..numbers.len() {
        most = most.max(numbers[place]);
    }
    most
}

/// A number above which the transactions take none.
pub(crate) fn taken_bound(staged: &[Open]) -> u64
    ensures { (n : ℕ) → is_among (taken_numbers (entries staged.now)) n ≡ true → n ≤ result }
{
    let mut most: u64 = 0;
    for place in 0..staged.len() {
        most = staged[place].take_bound(most);
    }
    most
}

/// Where the open transaction of this number stands.
pub(crate) fn place_of(opened: &[Open], number: u64) -> Option<usize>
    ensures found { IfSome result (λ place. (entry : Entry) × IsAt opened.now number place entry) }
    ensures none { IfNone result (entry_of number opened.now ≡ None) }
{
    for place in 0..opened.len() {
        if opened[place].number() == number {
            return Some(place);
        }
    }
    None
}

/// Whether one of the transactions takes this number.
pub(crate) fn takes(opened: &[Open], number: u64) -> bool
    ensures { result ≡ is_among (taken_numbers (entries opened.now)) number }
{
    for open in opened {
        if open.takes_number(number) {
            return true;
        }
    }
    false
}

/// Adds an event to the puts at this place.
pub(crate) fn push_put_at(
    opened: &mut Vec<Open>,
    place: usize,
    event: Event,
) -> Result<(), NoMemory>
    requires { (number : ℕ) × (events : List Content)
        × (slice_get opened.old.items place ≡ Some (number, Entry.Puts events)) }
    ensures ok { OnOk result ((number : ℕ) (events : List Content)
        → slice_get opened.old.items place ≡ Some (number, Entry.Puts events) →
        opened.new.items ≡ slice_set opened.old.items place
        (number, Entry.Puts (events ++ event ∷ []))) }
    ensures err { OnErr result (opened.new.items ≡ opened.old.items) }
{
    opened[place].push_put(event)
}

/// Adds a number to the takes at this place.
pub(crate) fn push_take_at(opened: &mut Vec<Open>, place: usize, taken: u64) -> Result<(), NoMemory>
    requires { (number : ℕ) × (numbers : List ℕ)
        × (slice_get opened.old.items place ≡ Some (number, Entry.Takes numbers)) }
    ensures ok { OnOk result ((number : ℕ) (numbers : List ℕ)
        → slice_get opened.old.items place ≡ Some (number, Entry.Takes numbers) →
        opened.new.items ≡ slice_set opened.old.items place
        (number, Entry.Takes (numbers ++ taken ∷ []))) }
    ensures err { OnErr result (opened.new.items ≡ opened.old.items) }
{
    opened[place].push_take(taken)
}

/// Takes back the last put or take of the transaction at this place.
pub(crate) fn pop_at(opened: &mut Vec<Open>, place: usize)
    requires { place < length opened.old.items }
    ensures puts { (number : ℕ) (events : List Content) (event : Content)
        → slice_get opened.old.items place ≡ Some (number, Entry.Puts (events ++ event ∷ [])) →
        opened.new.items ≡ slice_set opened.old.items place (number, Entry.Puts events) }
    ensures takes { (number : ℕ) (numbers : List ℕ) (taken : ℕ)
        → slice_get opened.old.items place ≡ Some (number, Entry.Takes (numbers ++ taken ∷ [])) →
        opened.new.items ≡ slice_set opened.old.items place (number, Entry.Takes numbers) }
{
    opened[place].pop();
}

/// How many puts the transaction at this place has, if it is of puts.
pub(crate) fn puts_at(opened: &[Open], place: usize) -> Option<usize>
    requires { place < length opened.now }
    ensures puts { IfSome result (λ n. (number : ℕ) × (events : List Content)
        × (slice_get opened.now place ≡ Some (number, Entry.Puts events)) × (n ≡ length events)) }
    ensures takes { IfNone result ((number : ℕ) × (numbers : List ℕ)
        × (slice_get opened.now place ≡ Some (number, Entry.Takes numbers))) }
{
    opened[place].puts_len()
}

/// How many takes the transaction at this place has, if it is of takes.
pub(crate) fn takes_at(opened: &[Open], place: usize) -> Option<usize>
    requires { place < length opened.now }
    ensures takes { IfSome result (λ n. (number : ℕ) × (numbers : List ℕ)
        × (slice_get opened.now place ≡ Some (number, Entry.Takes numbers))
        × (n ≡ length numbers)) }
    ensures puts { IfNone result ((number : ℕ) × (events : List Content)
        × (slice_get opened.now place ≡ Some (number, Entry.Puts events))) }
{
    opened[place].takes_len()
}

/// Takes the transaction at this place out of the list.
pub(crate) fn remove_at(opened: &mut Vec<Open>, place: usize) -> Open
    requires { place < length opened.old.items }
    ensures item { (o : ℕ × Entry) → slice_get opened.old.items place ≡ Some o → result ≡ o }
    ensures rest { opened.new.items ≡ take place opened.old.items
        ++ drop (place + 1) opened.old.items }
{
    opened.remove(place)
}

/// Puts a value after the others, for which there is room.
pub(crate) fn push_within<T: Drop>(list: &mut Vec<T>, last: T)
    requires { length list.old.items < vec_capacity list.old }
    ensures items { list.new.items ≡ list.old.items ++ last ∷ [] }
    ensures capacity { vec_capacity list.old ≤ vec_capacity list.new }
{
    if list.push(last).is_err() {
        return;
    }
}

/// 1 where something is staged, and else 0.
pub(crate) fn one_if_staged(staged: &[Open]) -> u64
    ensures { result ≡ one_if_staged (entries staged.now) }
{
    if staged.is_empty() { 0 } else { 1 }
}
