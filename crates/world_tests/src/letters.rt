// Events of one letter.
use event_core::{Batch, Event, Headers, NoMemory};
use std::alloc::Global;

/// One letter of the two that there are.
pub const A: u64 = 97;

/// The other letter.
pub const B: u64 = 98;

/// An event without headers whose body is this letter: `b`, or `a` for any other.
pub fn event(alloc: Global, letter: u64) -> Result<Event, NoMemory> {
    let letter: &[u8] = if letter == B { b"b" } else { b"a" };
    let body = letter.to_vec(alloc)?;
    match Event::new(Headers::new(alloc), body) {
        Ok(event) => Ok(event),
        Err(_) => Err(NoMemory),
    }
}

/// A batch of these letters.
pub fn batch(alloc: Global, letters: &[u64]) -> Result<Batch, NoMemory> {
    let mut all = Batch::new(alloc);
    for letter in letters {
        if all.push(event(alloc, *letter)?).is_err() {
            return Err(NoMemory);
        }
    }
    Ok(all)
}
