// Events and batches.
ghost use Rattle.std.specs.Prelude.{◌≡◌, ◌≤◌, [], ◌∷◌, ◌++◌, length, MatchResult};
ghost use Rattle.avro_binary.specs.Event.{ReadsEvent, ReadsBatch};
ghost use Rattle.avro_binary.specs.Found.{ReadsHeaders, FindsEvent, Keeps};

use crate::items::next_item;
use crate::refused::ValueRefused;
use crate::value::{read_bytes, text_at};
use event_core::{Batch, Event, Headers, MAX_EVENT_SIZE};
use std::alloc::Global;

/// A whole event, or the size of one that is too large.
#[derive(Drop)]
pub enum Found {
    Event(Event),
    Large(u64),
}

fn headers_at(alloc: Global, bytes: &[u8], at: usize) -> Result<(Headers, usize), ValueRefused>
    requires { at ≤ length bytes.now }
    ensures { ReadsHeaders bytes.now at result }
{
    let mut headers = Headers::new(alloc);
    let mut left = 0;
    let mut place = at;
    'entries: loop {
        let (todo, item) = next_item(bytes, place, left)?;
        if todo == 0 {
            return Ok((headers, item));
        }
        let (key, key_end) = text_at(bytes, item)?;
        let (value, value_end) = text_at(bytes, key_end)?;
        headers.set(key, value)?;
        place = value_end;
        left = todo - 1;
    }
}

fn event_at(alloc: Global, bytes: &[u8], at: usize) -> Result<(Found, usize), ValueRefused>
    requires { at ≤ length bytes.now }
    ensures { FindsEvent bytes.now at result }
{
    let (headers, body_at) = headers_at(alloc, bytes, at)?;
    let (start, end) = read_bytes(bytes, body_at)?;
    let size = headers.size() + (end - start) as u64 + 8;
    // so no memory is taken for a body that is too large
    if size > MAX_EVENT_SIZE {
        return Ok((Found::Large(size), end));
    }
    let body = Vec::from_slice(alloc, &bytes[start..end])?;
    match Event::new(headers, body) {
        Ok(event) => Ok((Found::Event(event), end)),
        Err(_) => unreachable!(),
    }
}

/// Reads an event (Flume's record AvroFlumeEvent: a map of texts, and bytes).
pub fn read_event(alloc: Global, bytes: &[u8], at: usize) -> Result<(Event, usize), ValueRefused>
    requires { at ≤ length bytes.now }
    ensures { ReadsEvent bytes.now at result }
{
    let (found, end) = event_at(alloc, bytes, at)?;
    match found {
        Found::Event(event) => Ok((event, end)),
        Found::Large(size) => Err(ValueRefused::TooLarge {
            size,
            end: end as u64,
        }),
    }
}

fn push_event(batch: &mut Batch, event: Event) -> Result<(), ValueRefused>
    ensures { MatchResult result (λ _. batch.new ≡ batch.old ++ event ∷ [])
        (λ e. e ≡ ValueRefused.NoMemory) }
{
    match batch.push(event) {
        Ok(()) => Ok(()),
        Err(_) => Err(ValueRefused::NoMemory),
    }
}

// Adds an event, unless one before it was too large.
fn keep(batch: &mut Batch, large: &mut Option<u64>, found: Found) -> Result<(), ValueRefused>
    ensures { MatchResult result (λ _. Keeps batch.old large.old found batch.new large.new)
        (λ e. e ≡ ValueRefused.NoMemory) }
{
    if large.is_some() {
        return Ok(());
    }
    match found {
        Found::Event(event) => push_event(batch, event)?,
        Found::Large(size) => *large = Some(size),
    }
    Ok(())
}

/// Reads an array of events. Nothing is reserved by a count or a length that was only read.
pub fn read_batch(alloc: Global, bytes: &[u8], at: usize) -> Result<(Batch, usize), ValueRefused>
    requires { at ≤ length bytes.now }
    ensures { ReadsBatch bytes.now at result }
{
    let mut batch = Batch::new(alloc);
    let mut large = None;
    let mut left = 0;
    let mut place = at;
    'events: loop {
        let (todo, item) = next_item(bytes, place, left)?;
        if todo == 0 {
            return match large {
                None => Ok((batch, item)),
                Some(size) => Err(ValueRefused::TooLarge {
                    size,
                    end: item as u64,
                }),
            };
        }
        let (found, end) = event_at(alloc, bytes, item)?;
        keep(&mut batch, &mut large, found)?;
        place = end;
        left = todo - 1;
    }
}
