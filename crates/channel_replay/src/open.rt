// The open transactions, in the order in which they began.
ghost use Rattle.std.specs.Prelude.{◌≡◌, ◌<◌, ◌≤◌, ◌+◌, ◌++◌, ◌∷◌, [], ℕ, List, length, slice_get, slice_set, Option, Some, None, true, false, IfSome, IfNone, IfOk};
ghost use Rattle.event_core.specs.Content.{Content};
ghost use Rattle.event_core.specs.Journal.{is_among};
ghost use Rattle.event_core.specs.declared.journal.Entry.{Entry};
ghost use Rattle.event_core.specs.declared.journal.Entry.TheVariants.{Puts, Takes};
ghost use Rattle.channel_face.specs.Machine.{entry_of, without_entry, entries};
ghost use Rattle.event_core.specs.Journal.{taken_numbers};
ghost use Rattle.channel_replay.specs.Marks.{events_of, numbers_of};
ghost use Rattle.channel_replay.specs.Rules.{IsPut, IsTake};
ghost use Rattle.channel_replay.specs.Open.{Begins, GoesOn, HasNone, IsAt};

use event_core::{Batch, Entry, Event, MOST_OPEN, NoMemory, Numbers};
use std::alloc::Global;

/// An open transaction: its number, with its puts or takes.
pub type Open = (u64, Entry);

fn place_of(opened: &[Open], txn: u64) -> Option<usize>
    ensures found { IfSome result (λ place. (entry : Entry) × IsAt opened.now txn place entry) }
    ensures none { IfNone result (HasNone opened.now txn) }
{
    for place in 0..opened.len() {
        if opened[place].0 == txn {
            return Some(place);
        }
    }
    None
}

// Begins a transaction, if fewer than the most are open.
fn begin(opened: &mut Vec<Open>, txn: u64, entry: Entry) -> Result<bool, NoMemory>
    ensures { IfOk result (λ ok. Begins ok opened.old.items (txn, entry) opened.new.items) }
{
    if opened.len() >= MOST_OPEN {
        return Ok(false);
    }
    if opened.push((txn, entry)).is_err() {
        return Err(NoMemory);
    }
    Ok(true)
}

fn begin_put(
    alloc: Global,
    opened: &mut Vec<Open>,
    txn: u64,
    event: Event,
) -> Result<bool, NoMemory>
    ensures { IfOk result (λ ok. Begins ok opened.old.items (txn, Puts (event ∷ []))
        opened.new.items) }
{
    let mut batch = Batch::new(alloc);
    if batch.push(event).is_err() {
        return Err(NoMemory);
    }
    begin(opened, txn, Entry::Puts(batch))
}

fn begin_take(
    alloc: Global,
    opened: &mut Vec<Open>,
    txn: u64,
    number: u64,
) -> Result<bool, NoMemory>
    ensures { IfOk result (λ ok. Begins ok opened.old.items (txn, Takes (number ∷ []))
        opened.new.items) }
{
    let mut numbers = Numbers::new(alloc);
    numbers.push(number)?;
    begin(opened, txn, Entry::Takes(numbers))
}

// Adds an event to the entry at this place, if it is of puts.
fn push_put(opened: &mut Vec<Open>, place: usize, event: Event) -> Result<bool, NoMemory>
    requires { place < length opened.old.items }
    ensures puts { IfOk result (λ ok. (txn : ℕ) (events : List Content) → slice_get opened.old.items
        place ≡ Some (txn, Puts events) →
        (ok ≡ true) × (opened.new.items ≡ slice_set opened.old.items place
        (txn, Puts (events ++ event ∷ [])))) }
    ensures takes { IfOk result (λ ok. (txn : ℕ) (numbers : List ℕ) → slice_get opened.old.items
        place ≡ Some (txn, Takes numbers) → ok ≡ false) }
{
    match &mut opened[place].1 {
        Entry::Puts(batch) => match batch.push(event) {
            Ok(()) => Ok(true),
            Err(_) => Err(NoMemory),
        },
        Entry::Takes(_) => Ok(false),
    }
}

// Adds a number to the entry at this place, if it is of takes.
fn push_take(opened: &mut Vec<Open>, place: usize, number: u64) -> Result<bool, NoMemory>
    requires { place < length opened.old.items }
    ensures takes { IfOk result (λ ok. (txn : ℕ) (numbers : List ℕ) → slice_get opened.old.items
        place ≡ Some (txn, Takes numbers) →
        (ok ≡ true) × (opened.new.items ≡ slice_set opened.old.items place
        (txn, Takes (numbers ++ number ∷ [])))) }
    ensures puts { IfOk result (λ ok. (txn : ℕ) (events : List Content) → slice_get opened.old.items
        place ≡ Some (txn, Puts events) → ok ≡ false) }
{
    match &mut opened[place].1 {
        Entry::Takes(numbers) => match numbers.push(number) {
            Ok(()) => Ok(true),
            Err(_) => Err(NoMemory),
        },
        Entry::Puts(_) => Ok(false),
    }
}

/// Adds an event to the open put of a transaction, or begins it. Whether that is allowed.
pub fn add_put(
    alloc: Global,
    opened: &mut Vec<Open>,
    txn: u64,
    event: Event,
) -> Result<bool, NoMemory>
    ensures { IfOk result (λ ok. GoesOn ok opened.old.items txn IsPut
        (λ entry. Puts (events_of entry ++ event ∷ [])) opened.new.items) }
{
    match place_of(opened, txn) {
        Some(place) => push_put(opened, place, event),
        None => begin_put(alloc, opened, txn, event),
    }
}

/// Adds a number to the open take of a transaction, or begins it. Whether that is allowed.
pub fn add_take(
    alloc: Global,
    opened: &mut Vec<Open>,
    txn: u64,
    number: u64,
) -> Result<bool, NoMemory>
    ensures { IfOk result (λ ok. GoesOn ok opened.old.items txn IsTake
        (λ entry. Takes (numbers_of entry ++ number ∷ [])) opened.new.items) }
{
    match place_of(opened, txn) {
        Some(place) => push_take(opened, place, number),
        None => begin_take(alloc, opened, txn, number),
    }
}

// Takes the transaction at this place out.
fn remove_at(opened: &mut Vec<Open>, place: usize) -> Entry
    requires { place < length opened.old.items }
    ensures entry { (txn : ℕ) (entry : Entry) → IsAt opened.old.items txn place entry → result ≡
        entry }
    ensures rest { (txn : ℕ) (entry : Entry) → IsAt opened.old.items txn place entry →
        opened.new.items ≡ without_entry txn opened.old.items }
{
    let (_, entry) = opened.remove(place);
    entry
}

/// Ends a transaction, and hands out what it had open.
pub fn end(opened: &mut Vec<Open>, txn: u64) -> Option<Entry>
    ensures entry { result ≡ entry_of txn opened.old.items }
    ensures rest { opened.new.items ≡ without_entry txn opened.old.items }
{
    match place_of(opened, txn) {
        Some(place) => Some(remove_at(opened, place)),
        None => None,
    }
}

fn takes_one(entry: &Entry, number: u64) -> bool
    ensures { result ≡ is_among (taken_numbers (entry.now ∷ [])) number }
{
    match entry {
        Entry::Puts(_) => false,
        Entry::Takes(numbers) => numbers.contains(number),
    }
}

/// Whether an open take has this number.
pub fn is_held(opened: &[Open], number: u64) -> bool
    ensures { result ≡ is_among (taken_numbers (entries opened.now)) number }
{
    for open in opened {
        if takes_one(&open.1, number) {
            return true;
        }
    }
    false
}
