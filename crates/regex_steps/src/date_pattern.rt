// The patterns of dates in texts.
ghost use Rattle.std.specs.Prelude.{◌≡◌, ◌≤◌, ◌<◌, ◌+◌, ◌++◌, ◌∷◌, [], true, false, length, take, drop, map, flat_map, IfOk, IfErr, IfSome, IfNone, nat_eq, slice_index};
ghost use Rattle.std.specs.List.{starts_with, list_any, AllByRecursion};
ghost use Rattle.regex_steps.specs.Dates.{Piece, IsPiece, Digits, piece, spelled, shown, has, is_quote, letters, are_once, are_digits, number, Reads, ReadsNot, BeginsNone, repeats, IsPattern, IsNoDatePattern, civil_in, milliseconds_in};
ghost use Rattle.regex_steps.specs.declared.civil.Field.{Field};

use crate::civil::{CivilTime, Field};
use crate::keys::BuildRefused;
use std::alloc::Global;
use std::marker::Model;

/// A part of a pattern.
#[derive(Drop)]
pub enum Part {
    /// The digits of a field.
    Digits(Field),
    /// A byte that stands for itself.
    Plain(u8),
    /// Bytes that stand for themselves, which are between two quotes in the pattern.
    Quoted(Vec<u8>),
}

/// A pattern of dates: the fields `yyyy`, `MM`, `dd`, `HH`, `mm`, `ss` and `SSS`, each at most once and each standing for that
/// many digits. Between them, any characters but letters of ASCII and quotes stand for themselves, and so does any text without
/// a quote between two quotes.
#[derive(Drop)]
pub struct DatePattern {
    parts: Vec<Part>,
}

impl Model for DatePattern {
    ghost use Rattle.std.specs.Prelude.{◌≡◌, true, map, List};
    ghost use Rattle.regex_steps.specs.Dates as spec;
    ghost use Rattle.regex_steps.specs.Dates.{Piece};

    ghost Value = { List Piece };

    ghost view = { λ p. map spec.piece p.parts.items };

    ghost invariant = { λ p. spec.are_once (map spec.piece p.parts.items) ≡ true };
}

// The field at the front of a text.
fn first_field(text: &[u8]) -> Option<Field>
    ensures some { IfSome result (λ f. starts_with nat_eq text.now (letters f) ≡ true) }
    ensures none { IfNone result ((f : Field) → starts_with nat_eq text.now (letters f) ≡ false) }
{
    for field in [
        Field::Year,
        Field::Month,
        Field::Day,
        Field::Hour,
        Field::Minute,
        Field::Second,
        Field::Millisecond,
    ] {
        if text.starts_with(field.letters()) {
            return Some(field);
        }
    }
    None
}

// Where the first quote of a text stands.
fn first_quote(text: &[u8]) -> Option<usize>
    ensures some { IfSome result (λ n. (text.now ≡ take n text.now ++ 39 ∷ drop (n + 1) text.now) ×
        (list_any is_quote (take n text.now) ≡ false)) }
    ensures bound { IfSome result (λ n. n < length text.now) }
    ensures none { IfNone result (list_any is_quote text.now ≡ false) }
{
    for (place, byte) in text.iter().enumerate() {
        if *byte == b'\'' {
            return Some(place);
        }
    }
    None
}

// The part at the front of a pattern, and how many bytes it takes there.
fn first_part(alloc: Global, text: &[u8]) -> Result<(Part, usize), BuildRefused>
    requires { 0 < length text.now }
    ensures ok { IfOk result (λ found. (text.now ≡ spelled (piece found.0) ++ drop found.1 text.now)
        × IsPiece (piece found.0)) }
    ensures bound { IfOk result (λ found. (0 < found.1) × (found.1 ≤ length text.now)) }
    ensures err { IfErr result (λ e. e ≡ BuildRefused.BadPattern → BeginsNone text.now) }
{
    if let Some(field) = first_field(text) {
        return Ok((Part::Digits(field), field.digit_count()));
    }
    if text[0] == b'\'' {
        return first_quoted(alloc, text);
    }
    if text[0].is_ascii_alphabetic() {
        return Err(BuildRefused::BadPattern);
    }
    Ok((Part::Plain(text[0]), 1))
}

// The same where a quote stands at the front.
fn first_quoted(alloc: Global, text: &[u8]) -> Result<(Part, usize), BuildRefused>
    requires some { 0 < length text.now }
    requires quote { slice_index text.now 0 ≡ 39 }
    ensures ok { IfOk result (λ found. (text.now ≡ spelled (piece found.0) ++ drop found.1 text.now)
        × IsPiece (piece found.0)) }
    ensures bound { IfOk result (λ found. (0 < found.1) × (found.1 ≤ length text.now)) }
    ensures err { IfErr result (λ e. e ≡ BuildRefused.BadPattern → BeginsNone text.now) }
{
    let behind = &text[1..];
    match first_quote(behind) {
        Some(end) => {
            let literal = Vec::from_slice(alloc, &behind[..end])?;
            Ok((Part::Quoted(literal), end + 2))
        }
        None => Err(BuildRefused::BadPattern),
    }
}

// Whether a field is among some parts.
fn has_field(parts: &[Part], field: Field) -> bool
    ensures { result ≡ has field (map piece parts.now) }
{
    for part in parts {
        if let Part::Digits(other) = part {
            if field.is(*other) {
                return true;
            }
        }
    }
    false
}

// Whether a part is a field that is among some parts.
fn is_repeated(parts: &[Part], part: &Part) -> bool
    ensures { result ≡ repeats (map piece parts.now) (piece part.now) }
{
    match part {
        Part::Digits(field) => has_field(parts, *field),
        _ => false,
    }
}

// The number that digits are.
fn number(digits: &[u8]) -> Option<u16>
    requires { length digits.now ≤ 4 }
    ensures some { IfSome result (λ n. (are_digits digits.now ≡ true) × (n ≡ number digits.now)) }
    ensures none { IfNone result (are_digits digits.now ≡ false) }
{
    let mut number: u16 = 0;
    for digit in digits {
        if !digit.is_ascii_digit() {
            return None;
        }
        number = number * 10 + u16::from(*digit - b'0');
    }
    Some(number)
}

// What is after a part that stands at the front of a text. The field of the part gets its number.
fn behind<'a>(part: &Part, text: &'a [u8], time: &mut CivilTime) -> Option<&'a [u8]>
    ensures some { IfSome result (λ rest. Reads (piece part.now) text.now rest.now time.old
        time.new) }
    ensures none { IfNone result (ReadsNot (piece part.now) text.now) }
{
    match part {
        Part::Digits(field) => {
            let count = field.digit_count();
            if text.len() < count {
                return None;
            }
            match number(&text[..count]) {
                Some(number) => {
                    time.set(*field, number);
                    Some(&text[count..])
                }
                None => None,
            }
        }
        Part::Plain(byte) => {
            if text.is_empty() || text[0] != *byte {
                return None;
            }
            Some(&text[1..])
        }
        Part::Quoted(literal) => {
            if !text.starts_with(literal.as_slice()) {
                return None;
            }
            Some(&text[literal.len()..])
        }
    }
}

impl DatePattern {
    /// The pattern that a text is. `BadPattern` comes exactly where it is none.
    pub fn read(alloc: Global, text: &str) -> Result<DatePattern, BuildRefused>
        ensures ok { IfOk result (IsPattern text.now) }
        ensures err { IfErr result (λ e. e ≡ BuildRefused.BadPattern → IsNoDatePattern text.now) }
    {
        let mut parts = Vec::new(alloc);
        let mut rest = text.as_bytes();
        while !rest.is_empty() {
            let (part, len) = first_part(alloc, rest)?;
            if is_repeated(parts.as_slice(), &part) {
                return Err(BuildRefused::BadPattern);
            }
            parts.push(part)?;
            rest = rest.split_at(len).1;
        }
        Ok(DatePattern { parts })
    }

    // The date and time in a text that is spelled by the pattern, which may be no day or no time of it.
    fn civil_time(&self, text: &[u8]) -> Option<CivilTime>
        ensures some { IfSome result (λ t. (t ≡ civil_in self.now text.now) ×
            (text.now ≡ flat_map (shown t) self.now)) }
        ensures none { IfNone result (text.now ≡ flat_map (shown (civil_in self.now text.now))
            self.now → ⊥) }
    {
        let mut time = CivilTime::DEFAULT;
        let mut rest = text;
        for part in &self.parts {
            match behind(part, rest, &mut time) {
                Some(next) => rest = next,
                None => return None,
            }
        }
        if rest.is_empty() { Some(time) } else { None }
    }

    /// The milliseconds since 1970 in UTC of a date that is spelled by the pattern, or nothing where a text is no such date.
    pub fn milliseconds(&self, text: &[u8]) -> Option<i64>
        ensures { result ≡ milliseconds_in self.now text.now }
    {
        match self.civil_time(text) {
            Some(time) => time.milliseconds(),
            None => None,
        }
    }
}
