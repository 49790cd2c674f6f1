// Calls.
ghost use Rattle.std.specs.Prelude.{◌≡◌, ◌≤◌, length};
ghost use Rattle.avro_binary.specs.Event.{IsEvent, EventFault, IsBatch, BatchFault};
ghost use Rattle.avro_binary.specs.Reading.{Reads};
ghost use Rattle.avro_hop.specs.Parts.{WholeFault};
ghost use Rattle.avro_hop.specs.Calls.{IsHead, HeadFault, IsOne};
ghost use Rattle.avro_hop.specs.Parameters.{ReadsAll, unread_of, AsksFor, CallsAt};

use crate::handshake::{place_of, text_at};
use crate::hop::{Asked, HopRefused};
use crate::respond::{Status, add_response, add_unknown};
use avro_binary::{ValueRefused, read_batch, read_event, read_meta};
use event_core::Batch;
use std::alloc::Global;

// The name of the message, after the metadata.
fn name_at(bytes: &[u8], at: usize) -> Result<(&str, usize), ValueRefused>
    requires { at ≤ length bytes.now }
    ensures { Reads (λ s. s.now) IsHead HeadFault bytes.now at result }
{
    let behind = read_meta(bytes, at)?;
    text_at(bytes, behind)
}

/// Why no events are handed on.
#[derive(Clone, Copy)]
pub enum Unread {
    // The bytes are no such value from this offset on.
    At { at: u64 },
    // They are, and an event is above the limit.
    Large,
    NoMemory,
}

// The event that all of the bytes from the offset on are.
fn whole_event(alloc: Global, bytes: &[u8], at: usize) -> Result<Batch, Unread>
    requires { at ≤ length bytes.now }
    ensures { ReadsAll IsOne (WholeFault IsEvent EventFault) bytes.now at result }
{
    match read_event(alloc, bytes, at) {
        Ok((event, end)) => {
            if end < bytes.len() {
                return Err(Unread::At { at: end as u64 });
            }
            let mut batch = Batch::new(alloc);
            match batch.push(event) {
                Ok(()) => Ok(batch),
                Err(_) => Err(Unread::NoMemory),
            }
        }
        Err(e) => Err(behind_value(bytes, e)),
    }
}

// The events that all of the bytes from the offset on are.
fn whole_batch(alloc: Global, bytes: &[u8], at: usize) -> Result<Batch, Unread>
    requires { at ≤ length bytes.now }
    ensures { ReadsAll IsBatch (WholeFault IsBatch BatchFault) bytes.now at result }
{
    match read_batch(alloc, bytes, at) {
        Ok((batch, end)) => {
            if end < bytes.len() {
                return Err(Unread::At { at: end as u64 });
            }
            Ok(batch)
        }
        Err(e) => Err(behind_value(bytes, e)),
    }
}

// A byte after a value with too large an event is at fault.
fn behind_value(bytes: &[u8], e: ValueRefused) -> Unread
    ensures { result ≡ unread_of (length bytes.now) e }
{
    match e {
        ValueRefused::Short { at, need: _ } => Unread::At { at },
        ValueRefused::Bad { at } => Unread::At { at },
        ValueRefused::TooLarge { size: _, end } => {
            if end < bytes.len() as u64 {
                Unread::At { at: end }
            } else {
                Unread::Large
            }
        }
        ValueRefused::NoMemory => Unread::NoMemory,
    }
}

// What a call of these events asks, after the front of its payload.
fn asked_of(front: Vec<u8>, events: Result<Batch, Unread>) -> Result<Asked, HopRefused>
    ensures { AsksFor front.items events result }
{
    match events {
        Ok(batch) => Ok(Asked::Events { front, batch }),
        Err(e) => match e {
            Unread::Large => {
                let mut payload = front;
                add_response(Status::Failed, &mut payload)?;
                Ok(Asked::Reply(payload))
            }
            Unread::At { at } => Err(HopRefused::BadHandshake { at }),
            Unread::NoMemory => Err(HopRefused::NoMemory),
        },
    }
}

/// What the call at an offset asks, after the front of its payload.
pub fn call_at(alloc: Global, bytes: &[u8], at: usize, front: Vec<u8>) -> Result<Asked, HopRefused>
    requires { at ≤ length bytes.now }
    ensures { CallsAt front.items bytes.now at result }
{
    let (name, parameter) = match name_at(bytes, at) {
        Ok(read) => read,
        Err(e) => return Err(HopRefused::BadHandshake { at: place_of(e) }),
    };
    if name.is_empty() {
        return Ok(Asked::Reply(front));
    }
    if name == "append" {
        return asked_of(front, whole_event(alloc, bytes, parameter));
    }
    if name == "appendBatch" {
        return asked_of(front, whole_batch(alloc, bytes, parameter));
    }
    let mut payload = front;
    add_unknown(&mut payload)?;
    Ok(Asked::Reply(payload))
}
