// The record that bytes spell.
ghost use Rattle.std.specs.Prelude.{◌≡◌, ◌≤◌, ◌+◌, ◌-◌, ℕ, length, take, drop, IfOk};
ghost use Rattle.event_core.specs.Content.{content, size};
ghost use Rattle.record_form.specs.Record.{Spells, record_length};
ghost use Rattle.record_form.specs.Grammar.{Complete, IsWhole, as_read, kind_grammar, outcome_of, read_of, reads, u32_of, u64_of};

use crate::fields::{text_at, u32_in, u64_in};
use crate::outlines::read_outline;
use crate::record::{EVENT_AT, HEADERS_AT, Outline, PUT, Rec, SIZE_AT};
use event_core::{Event, Headers, NoMemory};
use std::alloc::Global;

fn part(bytes: &[u8], start: usize, end: usize) -> &[u8]
    requires ordered { start ≤ end }
    requires within { end ≤ length bytes.now }
    ensures { result.now ≡ take (end - start) (drop start bytes.now) }
{
    &bytes[start..end]
}

fn event_of(alloc: Global, headers: Headers, body: &[u8]) -> Result<Event, NoMemory>
    requires { size (content headers body.now) ≤ 1_048_576 }
    ensures { IfOk result (λ event. event ≡ content headers body.now) }
{
    let body = body.to_vec(alloc)?;
    match Event::new(headers, body) {
        Ok(event) => Ok(event),
        Err(_) => unreachable!(),
    }
}

// The PUT that the bytes begin with.
fn put_of(alloc: Global, bytes: &[u8]) -> Result<Rec, NoMemory>
    requires some { 1 ≤ length bytes.now }
    requires whole { IsWhole (as_read (reads (kind_grammar 1) (drop 1 bytes.now) 1)) }
    ensures { IfOk result (λ rec. (end : ℕ) × (reads (kind_grammar 1) (drop 1 bytes.now) 1
        ≡ Complete rec end)) }
{
    let txn = u64_in(bytes, 1);
    let size = u32_in(bytes, SIZE_AT);
    let end = EVENT_AT + size as usize;
    let number = u32_in(bytes, EVENT_AT);
    let mut headers = Headers::new(alloc);
    let mut at = HEADERS_AT;
    let mut last = None;
    for _ in 0..number {
        let Ok(key) = text_at(bytes, at, end, last) else {
            unreachable!();
        };
        at = at + 4 + key.len();
        let Ok(value) = text_at(bytes, at, end, None) else {
            unreachable!();
        };
        at = at + 4 + value.len();
        headers.set(key, value)?;
        last = Some(key);
    }
    let event = event_of(alloc, headers, part(bytes, at + 4, end))?;
    Ok(Rec::Put { txn, event })
}

// The record that the bytes begin with, by their kind.
fn kind_of(alloc: Global, bytes: &[u8]) -> Result<Rec, NoMemory>
    requires { IsWhole (read_of bytes.now) }
    ensures { IfOk result (λ rec. (end : ℕ) × (outcome_of bytes.now ≡ Complete rec end)) }
{
    if bytes[0] == PUT {
        return put_of(alloc, bytes);
    }
    let (outline, _) = read_outline(bytes);
    match outline {
        Outline::Put { .. } => unreachable!(),
        Outline::Take { txn, number } => Ok(Rec::Take { txn, number }),
        Outline::Rollback { txn } => Ok(Rec::Rollback { txn }),
        Outline::CommitPut { txn, first, count } => Ok(Rec::CommitPut { txn, first, count }),
        Outline::CommitTake { txn, count } => Ok(Rec::CommitTake { txn, count }),
        Outline::End { count } => Ok(Rec::End { count }),
    }
}

/// The record that a front of the bytes spells.
pub fn rec_of(alloc: Global, bytes: &[u8]) -> Result<Rec, NoMemory>
    requires { IsWhole (read_of bytes.now) }
    ensures read { IfOk result (λ rec. outcome_of bytes.now ≡ Complete rec (record_length rec)) }
    ensures spelled { IfOk result (λ rec. Spells (take (record_length rec) bytes.now) rec) }
{
    kind_of(alloc, bytes)
}
