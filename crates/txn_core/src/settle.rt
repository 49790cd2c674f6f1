// What is staged becomes part of what is left. Nothing here needs memory.
ghost use Rattle.std.specs.Prelude.{◌≡◌, ◌<◌, ◌≤◌, ◌+◌, ◌^◌, ◌++◌, ◌∷◌, [], ℕ, List, length, take, drop, slice_get, slice_set, Some, vec_capacity, IfSome, IfNone, true, false, not};
ghost use Rattle.channel_face.specs.Counters.{capped};
ghost use Rattle.channel_face.specs.Machine.{entries};
ghost use Rattle.event_core.specs.Content.{Content};
ghost use Rattle.event_core.specs.Journal.{numbered, put_events, taken_numbers, without, is_among};
ghost use Rattle.event_core.specs.declared.journal.Entry.{Entry};
ghost use Rattle.txn_core.specs.Sound.{AreHeld, held_numbers, puts_in, without_puts};

use crate::opened::{Open, taken_bound, takes};
use event_core::Event;

/// An event that is left, with its number.
pub(crate) type Item = (u64, Event);

// Moves a transaction's puts after the items, with numbers from the first on.
fn move_events(from: &mut Open, items: &mut Vec<Item>, first: u64) -> u64
    requires room { length items.old.items + length (puts_in from.old.1) ≤ vec_capacity items.old }
    requires numbers { first + length (puts_in from.old.1) < 2 ^ 64 }
    ensures items { items.new.items ≡ items.old.items ++ numbered first (puts_in from.old.1) }
    ensures rest { from.new ≡ (from.old.0, without_puts from.old.1) }
    ensures next { result ≡ first + length (puts_in from.old.1) }
    ensures capacity { vec_capacity items.old ≤ vec_capacity items.new }
{
    let mut number = first;
    while let Some(event) = from.take_first() {
        if items.push((number, event)).is_err() {
            return number;
        }
        number += 1;
    }
    number
}

// Moves the puts of the transaction at this place.
fn move_at(staged: &mut Vec<Open>, place: usize, items: &mut Vec<Item>, first: u64) -> u64
    requires place { place < length staged.old.items }
    requires fits { (o : ℕ × Entry) → slice_get staged.old.items place ≡ Some o →
        (length items.old.items + length (puts_in o.1) ≤ vec_capacity items.old)
        × (first + length (puts_in o.1) < 2 ^ 64) }
    ensures moved { (o : ℕ × Entry) → slice_get staged.old.items place ≡ Some o →
        (items.new.items ≡ items.old.items ++ numbered first (puts_in o.1))
        × (result ≡ first + length (puts_in o.1))
        × (staged.new.items ≡ slice_set staged.old.items place (o.0, without_puts o.1)) }
    ensures capacity { vec_capacity items.old ≤ vec_capacity items.new }
    ensures staged_capacity { vec_capacity staged.new ≡ vec_capacity staged.old }
{
    move_events(&mut staged[place], items, first)
}

// Moves all puts, so that only takes are left of what is staged.
fn move_puts(staged: &mut Vec<Open>, items: &mut Vec<Item>, first: u64) -> u64
    requires room { length items.old.items + length (put_events (entries staged.old.items))
        ≤ vec_capacity items.old }
    requires numbers { first + length (put_events (entries staged.old.items)) < 2 ^ 64 }
    ensures items { items.new.items ≡ items.old.items
        ++ numbered first (put_events (entries staged.old.items)) }
    ensures takes { taken_numbers (entries staged.new.items)
        ≡ taken_numbers (entries staged.old.items) }
    ensures next { result ≡ first + length (put_events (entries staged.old.items)) }
    ensures capacity { vec_capacity items.old ≤ vec_capacity items.new }
    ensures staged_capacity { vec_capacity staged.new ≡ vec_capacity staged.old }
{
    let mut number = first;
    for place in 0..staged.len() {
        number = move_at(staged, place, items, number);
    }
    number
}

// Whether the item of this number stays, where none is taken above the last.
fn is_left(staged: &[Open], last: u64, number: u64) -> bool
    ensures { ((n : ℕ) → is_among (taken_numbers (entries staged.now)) n ≡ true → n ≤ last)
        → result ≡ not (is_among (taken_numbers (entries staged.now)) number) }
{
    number > last || !takes(staged, number)
}

// Drops the items that are taken.
fn drop_taken(items: &mut Vec<Item>, staged: &[Open])
    ensures items { items.new.items ≡ without (taken_numbers (entries staged.now)) items.old.items }
    ensures capacity { vec_capacity items.new ≡ vec_capacity items.old }
{
    if staged_takes(staged) == 0 {
        return;
    }
    let last = taken_bound(staged);
    items.retain(|item| is_left(staged, last, item.0));
}

/// Settles what is staged, and gives the number of the next event.
pub(crate) fn settle(staged: &mut Vec<Open>, items: &mut Vec<Item>, first: u64) -> u64
    requires room { length items.old.items + length (put_events (entries staged.old.items))
        ≤ vec_capacity items.old }
    requires numbers { first + length (put_events (entries staged.old.items)) < 2 ^ 64 }
    ensures items { items.new.items ≡ without (taken_numbers (entries staged.old.items))
        (items.old.items ++ numbered first (put_events (entries staged.old.items))) }
    ensures staged { staged.new.items ≡ [] }
    ensures next { result ≡ first + length (put_events (entries staged.old.items)) }
    ensures capacity { vec_capacity items.old ≤ vec_capacity items.new }
    ensures staged_capacity { vec_capacity staged.new ≡ vec_capacity staged.old }
{
    let next = move_puts(staged, items, first);
    drop_taken(items, staged);
    staged.clear();
    next
}

// Whether an open or a staged transaction took this number.
fn is_held(opened: &[Open], staged: &[Open], number: u64) -> bool
    ensures { result ≡ is_among (held_numbers opened.now (entries staged.now)) number }
{
    takes(opened, number) || takes(staged, number)
}

/// From a place on before which a transaction took each item: where the first item stands that none took, or how many items
/// there are.
pub(crate) fn free_place(items: &[Item], opened: &[Open], staged: &[Open], from: usize) -> usize
    requires { AreHeld opened.now (entries staged.now) (take from items.now) }
    ensures within { result ≤ length items.now }
    ensures front { AreHeld opened.now (entries staged.now) (take result items.now) }
    ensures free { (item : ℕ × Content) → slice_get items.now result ≡ Some item
        → is_among (held_numbers opened.now (entries staged.now)) item.0 ≡ false }
{
    for place in from..items.len() {
        if !is_held(opened, staged, items[place].0) {
            return place;
        }
    }
    items.len()
}

/// Where the first item stands that no transaction took. A transaction took each item before `from`.
pub(crate) fn first_free(
    items: &[Item],
    opened: &[Open],
    staged: &[Open],
    from: usize,
) -> Option<usize>
    requires { AreHeld opened.now (entries staged.now) (take from items.now) }
    ensures found { IfSome result (λ place. (item : ℕ × Content) × (rest : List (ℕ × Content))
        × (slice_get items.now place ≡ Some item)
        × (without (held_numbers opened.now (entries staged.now)) items.now ≡ item ∷ rest)) }
    ensures none { IfNone result (without (held_numbers opened.now (entries staged.now)) items.now
        ≡ []) }
{
    let place = free_place(items, opened, staged, from);
    if place < items.len() {
        Some(place)
    } else {
        None
    }
}

/// How many takes are staged, up to 2^64 - 1.
pub(crate) fn staged_takes(staged: &[Open]) -> u64
    ensures { result ≡ capped (length (taken_numbers (entries staged.now))) }
{
    let mut count: u64 = 0;
    for open in staged {
        count = count.saturating_add(open.take_count() as u64);
    }
    count
}
