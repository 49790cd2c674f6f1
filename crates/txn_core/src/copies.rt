// Copies of the open transactions and of what was staged, from which a journal is made.
ghost use Rattle.std.specs.Prelude.{◌≡◌, ◌<◌, ◌≤◌, ◌+◌, ◌++◌, ◌∷◌, [], ℕ, List, length, slice_get, slice_set, Some, None, vec_capacity, IfSome, IfNone, IfOk, OnOk, OnErr, if◌then◌else◌};
ghost use Rattle.event_core.specs.Content.{Content};
ghost use Rattle.event_core.specs.declared.journal.Entry.{Entry};
ghost use Rattle.channel_face.specs.Machine.{entry_of, without_entry};
ghost use Rattle.txn_core.specs.Places.{IsAt};
ghost use Rattle.txn_core.specs.Shadow.{staged_more};

use crate::opened::push_within;
use event_core::{Entry, Event, NoMemory};

/// An open transaction's number, with what it did.
pub(crate) type OpenCopy = (u64, Entry);

/// Where the copy of the open transaction of this number stands.
pub(crate) fn place_of_copy(copies: &[OpenCopy], number: u64) -> Option<usize>
    ensures found { IfSome result (λ place. (entry : Entry) × IsAt copies.now number place entry) }
    ensures none { IfNone result (entry_of number copies.now ≡ None) }
{
    for place in 0..copies.len() {
        if copies[place].0 == number {
            return Some(place);
        }
    }
    None
}

/// Makes room for one more open transaction, and for it among what is staged.
pub(crate) fn make_room(
    copies: &mut Vec<OpenCopy>,
    entries: &mut Vec<Entry>,
) -> Result<(), NoMemory>
    requires { length copies.old.items < 1025 }
    ensures copies { copies.new.items ≡ copies.old.items }
    ensures entries { entries.new.items ≡ entries.old.items }
    ensures capacity { vec_capacity entries.old ≤ vec_capacity entries.new }
    ensures ok { OnOk result ((length copies.new.items < vec_capacity copies.new)
        × (length entries.new.items + length copies.new.items + 1 ≤ vec_capacity entries.new)) }
{
    copies.reserve(1)?;
    entries.reserve(copies.len() + 1)?;
    Ok(())
}

/// Adds an event to the puts at this place.
pub(crate) fn push_put_copy(
    copies: &mut Vec<OpenCopy>,
    place: usize,
    event: Event,
) -> Result<(), NoMemory>
    requires { (number : ℕ) × (events : List Content)
        × (slice_get copies.old.items place ≡ Some (number, Entry.Puts events)) }
    ensures ok { OnOk result ((number : ℕ) (events : List Content)
        → slice_get copies.old.items place ≡ Some (number, Entry.Puts events) →
        copies.new.items ≡ slice_set copies.old.items place
        (number, Entry.Puts (events ++ event ∷ []))) }
    ensures err { OnErr result (copies.new.items ≡ copies.old.items) }
{
    match &mut copies[place].1 {
        Entry::Puts(batch) => match batch.push(event) {
            Ok(()) => Ok(()),
            Err(_) => Err(NoMemory),
        },
        Entry::Takes(_) => Err(NoMemory),
    }
}

/// Adds a number to the takes at this place.
pub(crate) fn push_take_copy(
    copies: &mut Vec<OpenCopy>,
    place: usize,
    taken: u64,
) -> Result<(), NoMemory>
    requires { (number : ℕ) × (numbers : List ℕ)
        × (slice_get copies.old.items place ≡ Some (number, Entry.Takes numbers)) }
    ensures ok { OnOk result ((number : ℕ) (numbers : List ℕ)
        → slice_get copies.old.items place ≡ Some (number, Entry.Takes numbers) →
        copies.new.items ≡ slice_set copies.old.items place
        (number, Entry.Takes (numbers ++ taken ∷ []))) }
    ensures err { OnErr result (copies.new.items ≡ copies.old.items) }
{
    match &mut copies[place].1 {
        Entry::Takes(numbers) => numbers.push(taken),
        Entry::Puts(_) => Err(NoMemory),
    }
}

/// Takes the copy of the open transaction of this number out of the list.
pub(crate) fn end_copy(copies: &mut Vec<OpenCopy>, number: u64) -> Option<Entry>
    ensures entry { result ≡ entry_of number copies.old.items }
    ensures rest { copies.new.items ≡ without_entry number copies.old.items }
{
    match place_of_copy(copies, number) {
        Some(place) => {
            let (_, entry) = copies.remove(place);
            Some(entry)
        }
        None => None,
    }
}

fn is_empty(entry: &Entry) -> bool
    ensures { staged_more (Some entry.now) ≡ (if result then [] else entry.now ∷ []) }
{
    match entry {
        Entry::Puts(batch) => batch.is_empty(),
        Entry::Takes(numbers) => numbers.is_empty(),
    }
}

/// Moves the copy of the open transaction of this number after what was staged.
pub(crate) fn stage_copy(copies: &mut Vec<OpenCopy>, entries: &mut Vec<Entry>, number: u64)
    requires { length entries.old.items + length copies.old.items ≤ vec_capacity entries.old }
    ensures copies { copies.new.items ≡ without_entry number copies.old.items }
    ensures entries { entries.new.items ≡ entries.old.items
        ++ staged_more (entry_of number copies.old.items) }
    ensures capacity { vec_capacity entries.old ≤ vec_capacity entries.new }
{
    if let Some(entry) = end_copy(copies, number) {
        if !is_empty(&entry) {
            push_within(entries, entry);
        }
    }
}
