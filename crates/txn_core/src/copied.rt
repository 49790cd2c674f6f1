// Copies of a channel's lists.
ghost use Rattle.std.specs.Prelude.{◌≡◌, ◌≤◌, length, vec_capacity, IfOk};

use crate::opened::{Open, push_within};
use crate::settle::Item;
use event_core::{Entry, NoMemory};
use std::alloc::Global;

/// What a list of a channel has, which can be had once more.
pub(crate) trait Copied: Drop {
    /// The same once more.
    fn copied(&self, alloc: Global) -> Result<Self, NoMemory>
        ensures { IfOk result (λ copy. copy ≡ self.now) };
}

impl Copied for Item {
    fn copied(&self, _alloc: Global) -> Result<Item, NoMemory> {
        Ok((self.0, self.1.copy()?))
    }
}

impl Copied for Open {
    fn copied(&self, alloc: Global) -> Result<Open, NoMemory> {
        self.copy(alloc)
    }
}

impl Copied for Entry {
    fn copied(&self, _alloc: Global) -> Result<Entry, NoMemory> {
        match self {
            Entry::Puts(batch) => Ok(Entry::Puts(batch.copy()?)),
            Entry::Takes(numbers) => Ok(Entry::Takes(numbers.copy()?)),
        }
    }
}

impl Copied for (u64, Entry) {
    fn copied(&self, alloc: Global) -> Result<(u64, Entry), NoMemory> {
        Ok((self.0, self.1.copied(alloc)?))
    }
}

/// A list of the same, with room for so many.
pub(crate) fn copy_list<T: Copied>(
    alloc: Global,
    list: &[T],
    room: usize,
) -> Result<Vec<T>, NoMemory>
    requires { length list.now ≤ room }
    ensures items { IfOk result (λ copy. copy.items ≡ list.now) }
    ensures room { IfOk result (λ copy. room ≤ vec_capacity copy) }
{
    let mut copy = Vec::new(alloc);
    copy.reserve(room)?;
    for item in list {
        push_within(&mut copy, item.copied(alloc)?);
    }
    Ok(copy)
}
