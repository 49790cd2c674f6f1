// The fields of a record, read from some place on.
ghost use Rattle.std.specs.Prelude.{◌≡◌, ◌<◌, ◌≤◌, ◌^◌, ◌+◌, List, ℕ, length, take, drop, IfOk, IsTrue};
ghost use Rattle.std.specs.Option.{option_copied};
ghost use Rattle.record_form.specs.Grammar.{Grammar, reads, text_grammar, is_above, u32_of, u64_of};
ghost use Rattle.record_form.specs.Answers.{Answers, CountsAt, Takes};

use byteorder::{BigEndian, ByteOrder};
use std::str;

/// Why a reader stops before a record's end.
#[derive(Clone, Copy, Debug, PartialEq, Eq)]
pub(crate) enum Stop {
    /// The bytes end within a field.
    Part,
    /// The field at this offset is at fault.
    Bad { at: u32 },
}

// The place after a field.
pub(crate) fn skip(bytes: &[u8], at: usize, width: usize) -> Result<usize, Stop>
    requires { at + width < 2 ^ 63 }
    ensures { Takes result bytes.now at width (λ end. end ≡ at + width) }
{
    let end = at + width;
    if bytes.len() < end {
        return Err(Stop::Part);
    }
    Ok(end)
}

pub(crate) fn u32_at(bytes: &[u8], at: usize) -> Result<u32, Stop>
    requires { at < 2 ^ 31 }
    ensures { Takes result bytes.now at 4 (λ n. n ≡ u32_of (take 4 (drop at bytes.now))) }
{
    let end = skip(bytes, at, 4)?;
    Ok(BigEndian::read_u32(&bytes[at..end]))
}

// A number whose bytes are there.
pub(crate) fn u32_in(bytes: &[u8], at: usize) -> u32
    requires { at + 4 ≤ length bytes.now }
    ensures { result ≡ u32_of (take 4 (drop at bytes.now)) }
{
    BigEndian::read_u32(&bytes[at..at + 4])
}

pub(crate) fn u64_in(bytes: &[u8], at: usize) -> u64
    requires { at + 8 ≤ length bytes.now }
    ensures { result ≡ u64_of (take 8 (drop at bytes.now)) }
{
    BigEndian::read_u64(&bytes[at..at + 8])
}

// The end of a count, which is at least 1.
pub(crate) fn count_end(bytes: &[u8], at: usize) -> Result<usize, Stop>
    requires { at < 2 ^ 31 }
    ensures { CountsAt result bytes.now at }
{
    if u32_at(bytes, at)? == 0 {
        return Err(Stop::Bad { at: at as u32 });
    }
    Ok(at + 4)
}

// A key is above the last one, where there is one.
fn is_above(last: Option<&str>, text: &str) -> bool
    ensures { result ≡ is_above (option_copied last.entry) text.now }
{
    match last {
        Some(last) => last < text,
        None => true,
    }
}

// The text at the place: its length, which with what it spans stays before the end, and its bytes,
// which are above the last ones.
pub(crate) fn text_at<'a>(
    bytes: &'a [u8],
    at: usize,
    end: usize,
    last: Option<&str>,
) -> Result<&'a str, Stop>
    requires within { at ≤ length bytes.now }
    requires low { at < 2 ^ 31 }
    ensures reads { (next : List ℕ → Grammar)
        → Answers result (reads (text_grammar end at (option_copied last.entry) next)
        (drop at bytes.now) at)
        (λ text. reads (text_grammar end at (option_copied last.entry) next) (drop at bytes.now) at
        ≡ reads (next text.now) (drop (at + 4 + length text.now) bytes.now)
        (at + 4 + length text.now)) }
    ensures within { IfOk result (λ text. at + 4 + length text.now ≤ length bytes.now) }
    ensures inside { IfOk result (λ text. at + 4 + length text.now ≤ end) }
    ensures above { IfOk result (λ text. IsTrue (is_above (option_copied last.entry) text.now)) }
{
    let length = u32_at(bytes, at)? as usize;
    if at + 4 + length > end {
        return Err(Stop::Bad { at: at as u32 });
    }
    let text_end = skip(bytes, at + 4, length)?;
    let Ok(text) = str::from_utf8(&bytes[at + 4..text_end]) else {
        return Err(Stop::Bad { at: at as u32 + 4 });
    };
    if is_above(last, text) {
        Ok(text)
    } else {
        Err(Stop::Bad { at: at as u32 + 4 })
    }
}
