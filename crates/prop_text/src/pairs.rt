//! The pair of a logical line.

ghost use Rattle.std.specs.Prelude.{◌≡◌, ℕ, ◌+◌, ◌<◌, ◌≤◌, List, length, slice_index, IsTrue, IfOk, IfSome, OnSome, SomeIff, option_map, encode_utf8};
ghost use Rattle.std.specs.Char.{digit_value};
ghost use Rattle.std.specs.Str.{IsUtf8};
ghost use Rattle.prop_text.specs.Pairs.{ends_key, key_step, key_len, past_separator, hex_number, is_high, is_low, low_half, unicode_escape, letter, unescaped, trim};
ghost use Rattle.prop_text.specs.Views.{view, AddsEscape, Unescapes, PairsUp};

use crate::fault::PropRefused;
use crate::lines::{LogicalLine, is_white_space, white_space_len};
use std::alloc::{AllocError, Global};

/// A key and its value as a logical line has them.
#[derive(Drop)]
pub struct RawPair {
    pub key: String,
    pub value: String,
}

fn ends_key(byte: u8) -> bool
    ensures { result ≡ ends_key byte }
{
    byte == b'=' || byte == b':' || is_white_space(byte)
}

/// How many bytes of a key go together.
fn key_step(rest: &[u8]) -> usize
    requires { 0 < length rest.now }
    ensures value { result ≡ key_step rest.now }
    ensures within { result ≤ length rest.now }
{
    match rest {
        [b'\\', _, ..] => 2,
        _ => 1,
    }
}

/// The length of a line's key as it is spelled.
fn key_len(line: &[u8]) -> usize
    ensures value { result ≡ key_len line.now }
    ensures within { result ≤ length line.now }
    ensures stop { result < length line.now → IsTrue (ends_key (slice_index line.now result)) }
{
    let mut at = 0;
    while at < line.len() && !ends_key(line[at]) {
        at += key_step(&line[at..]);
    }
    at
}

/// The value as it is spelled, of what follows the key.
fn past_separator(rest: &[u8]) -> &[u8]
    ensures { result.now ≡ past_separator rest.now }
{
    let mark = &rest[white_space_len(rest)..];
    if !mark.is_empty() && (mark[0] == b'=' || mark[0] == b':') {
        let value = &mark[1..];
        &value[white_space_len(value)..]
    } else {
        mark
    }
}

/// The text without the white space at both ends: spaces, tabs and form feeds.
pub fn trim(text: &[u8]) -> &[u8]
    ensures { result.now ≡ trim text.now }
{
    let rest = &text[white_space_len(text)..];
    let mut end = rest.len();
    while 0 < end && is_white_space(rest[end - 1]) {
        end -= 1;
    }
    &rest[..end]
}

fn digit(byte: u8) -> Option<u32>
    ensures { SomeIff result (digit_value byte < 16) (digit_value byte) }
{
    char::from(byte).to_digit(16)
}

/// The number that four hexadecimal digits at the front are.
fn hex_number(bytes: &[u8]) -> Option<u32>
    ensures value { result ≡ hex_number bytes.now }
    ensures four { OnSome result (4 ≤ length bytes.now) }
    ensures bound { IfSome result (λ number. number < 65536) }
{
    if bytes.len() < 4 {
        return None;
    }
    let first = digit(bytes[0])?;
    let second = digit(bytes[1])?;
    let third = digit(bytes[2])?;
    let fourth = digit(bytes[3])?;
    Some(first * 4096 + second * 256 + third * 16 + fourth)
}

/// A high half of a surrogate pair.
fn is_high(unit: u32) -> bool
    ensures { result ≡ is_high unit }
{
    0xD800 <= unit && unit < 0xDC00
}

/// A low half of a surrogate pair.
fn is_low(unit: u32) -> bool
    ensures { result ≡ is_low unit }
{
    0xDC00 <= unit && unit < 0xE000
}

/// The character that a high half and the low one after it spell, and how many bytes its escape takes.
fn low_half(high: u32, bytes: &[u8]) -> Option<(char, usize)>
    requires { IsTrue (is_high high) }
    ensures value { option_map (λ found. (encode_utf8 found.0, found.1)) result
        ≡ low_half high bytes.now }
    ensures within { IfSome result (λ found. found.1 ≤ length bytes.now + 5) }
{
    if bytes.len() < 2 || bytes[0] != b'\\' || bytes[1] != b'u' {
        return None;
    }
    let low = hex_number(&bytes[2..])?;
    if !is_low(low) {
        return None;
    }
    let code = 0x1_0000 + (high - 0xD800) * 1024 + (low - 0xDC00);
    let Some(found) = char::from_u32(code) else {
        unreachable!()
    };
    Some((found, 11))
}

/// The character that the digits after `\u` spell, and how many bytes its escape takes.
fn unicode_escape(bytes: &[u8]) -> Option<(char, usize)>
    ensures value { option_map (λ found. (encode_utf8 found.0, found.1)) result
        ≡ unicode_escape bytes.now }
    ensures within { IfSome result (λ found. found.1 ≤ length bytes.now + 1) }
{
    let unit = hex_number(bytes)?;
    if is_high(unit) {
        return low_half(unit, &bytes[4..]);
    }
    if is_low(unit) {
        return None;
    }
    let Some(found) = char::from_u32(unit) else {
        unreachable!()
    };
    Some((found, 5))
}

/// What a letter after a backslash stands for.
fn letter(byte: u8) -> u8
    ensures { result ≡ letter byte }
{
    match byte {
        b't' => b'\t',
        b'n' => b'\n',
        b'r' => b'\r',
        b'f' => 12,
        _ => byte,
    }
}

/// Adds what the escape after a backslash spells, and answers how many bytes it takes, or `None` where it is bad.
fn push_escape(out: &mut Vec<u8>, rest: &[u8]) -> Result<Option<usize>, AllocError>
    ensures { IfOk result (λ taken. AddsEscape out.old.items out.new.items rest.now taken) }
{
    if rest.is_empty() {
        return Ok(Some(0));
    }
    if rest[0] != b'u' {
        out.push(letter(rest[0]))?;
        return Ok(Some(1));
    }
    let Some((found, taken)) = unicode_escape(&rest[1..]) else {
        return Ok(None);
    };
    let mut buffer = [0; 4];
    out.extend_from_slice(found.encode_utf8(&mut buffer).as_bytes())?;
    Ok(Some(taken))
}

/// What a spelling stands for, or `None` where an escape is bad.
fn unescaped(alloc: Global, raw: &[u8]) -> Result<Option<Vec<u8>>, AllocError>
    ensures { IfOk result (λ text. option_map (λ v. v.items) text ≡ unescaped 0 raw.now) }
{
    let mut out = Vec::new(alloc);
    let mut at = 0;
    while at < raw.len() {
        let byte = raw[at];
        at += 1;
        if byte == b'\\' {
            match push_escape(&mut out, &raw[at..])? {
                Some(taken) => at += taken,
                None => return Ok(None),
            }
        } else {
            out.push(byte)?;
        }
    }
    Ok(Some(out))
}

/// The text that a spelling on a line stands for.
fn text_of(alloc: Global, raw: &[u8], line: u32) -> Result<String, PropRefused>
    requires { IsUtf8 raw.now }
    ensures { Unescapes raw.now line result }
{
    let Some(text) = unescaped(alloc, raw)? else {
        return Err(PropRefused::BadEscape { line });
    };
    let trimmed = Vec::from_slice(alloc, trim(text.as_slice()))?;
    match String::from_utf8(trimmed) {
        Ok(text) => Ok(text),
        Err(_) => unreachable!(),
    }
}

/// The key and the value of a logical line.
pub fn pair_of(alloc: Global, line: &LogicalLine) -> Result<RawPair, PropRefused>
    ensures { PairsUp (view line.now) result }
{
    let bytes = line.text.as_bytes();
    let (key, rest) = bytes.split_at(key_len(bytes));
    Ok(RawPair {
        key: text_of(alloc, key, line.number)?,
        value: text_of(alloc, past_separator(rest), line.number)?,
    })
}
