// The events that are left, in the order of their numbers.
ghost use Rattle.std.specs.Prelude.{◌≡◌, ◌<◌, ◌≤◌, ◌+◌, ◌^◌, ◌++◌, ℕ, List, length, map, IfOk, OnOk};
ghost use Rattle.event_core.specs.Journal.{is_among, numbered, without};

use event_core::{Batch, Event, NoMemory, Numbers};

/// An event with its number.
pub type Item = (u64, Event);

/// Whether an event of this number is left.
pub fn is_left(items: &[Item], number: u64) -> bool
    ensures { result ≡ is_among (map (λ item. item.0) items.now) number }
{
    for item in items {
        if item.0 == number {
            return true;
        }
    }
    false
}

/// Moves a batch's events after the items, with numbers from this one on. The number after them.
pub fn append(items: &mut Vec<Item>, mut batch: Batch, first: u64) -> Result<u64, NoMemory>
    requires { first + length batch < 2 ^ 64 }
    ensures items { OnOk result (items.new.items ≡ items.old.items ++ numbered first batch) }
    ensures next { IfOk result (λ next. next ≡ first + length batch) }
{
    let mut number = first;
    while let Some(event) = batch.take_first() {
        if items.push((number, event)).is_err() {
            return Err(NoMemory);
        }
        number += 1;
    }
    Ok(number)
}

/// Drops the items of these numbers.
pub fn remove(items: &mut Vec<Item>, numbers: &Numbers)
    ensures { items.new.items ≡ without numbers.now items.old.items }
{
    items.retain(|item| !numbers.contains(item.0));
}
