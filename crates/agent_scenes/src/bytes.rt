// Texts of a scenario as bytes: names, and what is written as it is.
use crate::logs::LOGS;
use crate::packs::PACKS;
use avro_hop::protocol_text;
use scenarios::{add_text, is_text, number_of};
use std::alloc::Global;

// The bytes of a name among these.
fn named<'a>(name: &str, all: &[(&'a str, &'a [u8])]) -> Option<&'a [u8]> {
    for (other, bytes) in all {
        if *other == name {
            return Some(bytes);
        }
    }
    None
}

// Adds the bytes of a name or a text; of `-` none.
fn add_part(bytes: &mut Vec<u8>, part: &str) -> bool {
    if part == "-" {
        return true;
    }
    if part == "PROTOCOL" {
        return bytes.extend_from_slice(protocol_text().as_bytes()).is_ok();
    }
    if let Some(named) = named(part, &PACKS) {
        return bytes.extend_from_slice(named).is_ok();
    }
    if let Some(named) = named(part, &LOGS) {
        return bytes.extend_from_slice(named).is_ok();
    }
    add_text(bytes, part)
}

/// Adds the bytes of some names and texts, with a `+` between each two.
pub fn add_parts(bytes: &mut Vec<u8>, parts: &str) -> bool {
    for part in parts.split('+') {
        if !add_part(bytes, part) {
            return false;
        }
    }
    true
}

/// The bytes of some names and texts.
pub fn parts_of(alloc: Global, parts: &str) -> Option<Vec<u8>> {
    let mut bytes = Vec::new(alloc);
    if add_parts(&mut bytes, parts) {
        Some(bytes)
    } else {
        None
    }
}

/// Whether these bytes are those of some names and texts.
pub fn are_parts(alloc: Global, bytes: &[u8], parts: &str) -> bool {
    let mut want = Vec::new(alloc);
    add_parts(&mut want, parts) && want.as_slice() == bytes
}

/// Whether these bytes begin with a text.
pub fn has_front(alloc: Global, bytes: &[u8], text: &str) -> bool {
    let mut want = Vec::new(alloc);
    add_text(&mut want, text) && bytes.starts_with(want.as_slice())
}

/// Whether these bytes end with a text.
pub fn has_end(alloc: Global, bytes: &[u8], text: &str) -> bool {
    let mut want = Vec::new(alloc);
    add_text(&mut want, text) && bytes.ends_with(want.as_slice())
}

// The number that stands between so many bytes in front and at the end.
fn number_in(bytes: &[u8], front: usize, end: usize) -> Option<u64> {
    if bytes.len() < end {
        return None;
    }
    let digits = bytes.get(front..bytes.len() - end)?;
    number_of(str::from_utf8(digits).ok()?)
}

// Whether a number of at least so much stands between a front and an end.
fn is_between(alloc: Global, bytes: &[u8], front: &str, least: u64, end: &str) -> bool {
    let (mut first, mut last) = (Vec::new(alloc), Vec::new(alloc));
    add_text(&mut first, front)
        && add_text(&mut last, end)
        && bytes.starts_with(first.as_slice())
        && bytes.ends_with(last.as_slice())
        && number_in(bytes, first.len(), last.len()) >= Some(least)
}

/// Whether these bytes are a text, in which `<3>` stands for a number of at least 3.
pub fn is_like(alloc: Global, bytes: &[u8], text: &str) -> bool {
    let Some((front, rest)) = text.split_once('<') else {
        return is_text(alloc, bytes, text);
    };
    let Some((least, end)) = rest.split_once('>') else {
        return false;
    };
    match number_of(least) {
        Some(least) => is_between(alloc, bytes, front, least, end),
        None => false,
    }
}
