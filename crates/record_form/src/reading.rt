// Reading a record.
ghost use Rattle.std.specs.Prelude.{◌≡◌, ◌<◌, ◌≤◌, ◌^◌, ◌+◌, List, [], ℕ, length, drop, IfOk, None};
ghost use Rattle.event_core.specs.Content.{Header, content};
ghost use Rattle.record_form.specs.Record.{record_kind};
ghost use Rattle.record_form.specs.Grammar.{Complete, reads, body_grammar, headers_grammar, kind_grammar, read_of};
ghost use Rattle.record_form.specs.Answers.{Answers};
ghost use Rattle.record_form.specs.declared.record.Rec.{Rec};
ghost use Rattle.record_form.specs.declared.record.Rec.TheVariants.{Put};

use crate::fields::{Stop, count_end, skip, text_at, u32_at};
use crate::record::{
    COMMIT_PUT, COMMIT_TAKE, END, EVENT_AT, HEADERS_AT, MAX_PUT_SIZE, PUT, ROLLBACK, Read, SIZE_AT,
    TAKE,
};

// The place after so many headers.
fn headers_end(bytes: &[u8], start: usize, end: usize, number: u32) -> Result<usize, Stop>
    requires within { start ≤ length bytes.now }
    requires low { start < 2 ^ 30 }
    requires end_low { end < 2 ^ 30 }
    ensures reads { (txn : ℕ) → Answers result
        (reads (headers_grammar number txn end start None []) (drop start bytes.now) start)
        (λ at. (headers : List Header) × (reads (headers_grammar number txn end start None [])
        (drop start bytes.now) start ≡ reads (body_grammar txn end at headers)
        (drop at bytes.now) at)) }
    ensures within { IfOk result (λ at. at ≤ length bytes.now) }
    ensures low { IfOk result (λ at. at < 2 ^ 30) }
{
    let mut at = start;
    let mut last = None;
    for _ in 0..number {
        let key = text_at(bytes, at, end, last)?;
        at = at + 4 + key.len();
        let value = text_at(bytes, at, end, None)?;
        at = at + 4 + value.len();
        last = Some(key);
    }
    Ok(at)
}

// The place after the body, which is the event's end.
fn body_end(bytes: &[u8], at: usize, end: usize) -> Result<usize, Stop>
    requires within { at ≤ length bytes.now }
    requires low { at < 2 ^ 30 }
    ensures reads { (txn : ℕ) (headers : List Header)
        → Answers result (reads (body_grammar txn end at headers) (drop at bytes.now) at)
        (λ stop. (body : List ℕ) × (reads (body_grammar txn end at headers) (drop at bytes.now) at
        ≡ Complete (Put txn (content headers body)) stop)) }
    ensures end { IfOk result (λ stop. stop ≡ end) }
{
    let length = u32_at(bytes, at)? as usize;
    if at + 4 + length != end {
        return Err(Stop::Bad { at: at as u32 });
    }
    skip(bytes, at + 4, length)
}

// The end of a PUT.
fn put_end(bytes: &[u8]) -> Result<usize, Stop>
    requires { 1 ≤ length bytes.now }
    ensures reads { Answers result (reads (kind_grammar 1) (drop 1 bytes.now) 1)
        (λ end. (rec : Rec) × (reads (kind_grammar 1) (drop 1 bytes.now) 1 ≡ Complete rec end)
        × (record_kind rec ≡ 1)) }
    ensures low { IfOk result (λ end. end < 2 ^ 30) }
{
    let size = u32_at(bytes, SIZE_AT)?;
    if size > MAX_PUT_SIZE {
        return Err(Stop::Bad { at: SIZE_AT as u32 });
    }
    let end = EVENT_AT + size as usize;
    let number = u32_at(bytes, EVENT_AT)?;
    let body_at = headers_end(bytes, HEADERS_AT, end, number)?;
    body_end(bytes, body_at, end)
}

// The end of a record of this kind.
fn record_end(kind: u8, bytes: &[u8]) -> Result<usize, Stop>
    requires least { 1 ≤ kind }
    requires greatest { kind ≤ 6 }
    requires some { 1 ≤ length bytes.now }
    ensures reads { Answers result (reads (kind_grammar kind) (drop 1 bytes.now) 1)
        (λ end. (rec : Rec) × (reads (kind_grammar kind) (drop 1 bytes.now) 1 ≡ Complete rec end)
        × (record_kind rec ≡ kind)) }
    ensures low { IfOk result (λ end. end < 2 ^ 30) }
{
    match kind {
        PUT => put_end(bytes),
        TAKE => skip(bytes, 1, 16),
        ROLLBACK => skip(bytes, 1, 8),
        COMMIT_PUT => count_end(bytes, 17),
        COMMIT_TAKE => count_end(bytes, 9),
        _ => count_end(bytes, 1),
    }
}

/// What the bytes begin with. They are read field by field: the first field that is at fault, or that
/// the bytes don't have as a whole, decides.
pub fn read_record(bytes: &[u8]) -> Read
    ensures { result ≡ read_of bytes.now }
{
    let Some(&kind) = bytes.first() else {
        return Read::Part;
    };
    if kind == 0 || kind > END {
        return Read::Bad { at: 0 };
    }
    match record_end(kind, bytes) {
        Ok(end) => Read::Whole {
            kind,
            length: end as u32,
        },
        Err(Stop::Part) => Read::Part,
        Err(Stop::Bad { at }) => Read::Bad { at },
    }
}
