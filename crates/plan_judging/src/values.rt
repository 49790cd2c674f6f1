//! The words, numbers and truth values that a value is.

ghost use Rattle.std.specs.Prelude.{◌≡◌, ◌≤◌, ◌^◌, ◌-◌, ◌++◌, ◌∷◌, [], IfOk, OnOk, filter, map, take, drop, length, string_bytes};
ghost use Rattle.std.specs.Str.{IsCharBoundary};
ghost use Rattle.prop_text.specs.Lines.{is_white_space};
ghost use Rattle.prop_text.specs.Views.{texts};
ghost use Rattle.plan_judging.specs.Words.{words, listed, trimmed_names, is_word, is_among, all_among, has_twice, number_in, truth_of};
ghost use Rattle.plan_judging.specs.Components.{once};

use indexmap::IndexSet;
use prop_text::trim;
use std::alloc::{AllocError, Global};
use std::str;

fn is_white_space(byte: u8) -> bool
    ensures { result ≡ is_white_space byte }
{
    byte == b' ' || byte == b'\t' || byte == 12
}

/// Adds the part of a text to the words, unless it is empty.
fn push_word<'a>(
    found: &mut Vec<&'a str>,
    text: &'a str,
    start: usize,
    end: usize,
) -> Result<(), AllocError>
    requires ordered { start ≤ end }
    requires within { end ≤ length text.now }
    requires start { IsCharBoundary text.now start }
    requires end { IsCharBoundary text.now end }
    ensures { OnOk result (texts found.new.items ≡ texts found.old.items ++ filter is_word
        (take (end - start) (drop start text.now) ∷ [])) }
{
    if start < end {
        found.push(&text[start..end])?;
    }
    Ok(())
}

/// The words of a list.
pub fn words(alloc: Global, text: &str) -> Result<Vec<&str>, AllocError>
    ensures { IfOk result (λ found. texts found.items ≡ words text.now) }
{
    let bytes = text.as_bytes();
    let mut found = Vec::new(alloc);
    let mut start = 0;
    let mut at = 0;
    while at < bytes.len() {
        if is_white_space(bytes[at]) {
            push_word(&mut found, text, start, at)?;
            at += 1;
            start = at;
        } else {
            at += 1;
        }
    }
    push_word(&mut found, text, start, at)?;
    Ok(found)
}

// Adds a name without the white space beside it, unless that is empty.
fn push_trimmed(alloc: Global, names: &mut Vec<String>, piece: Vec<u8>) -> Result<(), AllocError>
    ensures { OnOk result (map string_bytes names.new.items ≡ map string_bytes names.old.items ++
        trimmed_names (piece.items ∷ [])) }
{
    match str::from_utf8(trim(piece.as_slice())) {
        Ok(name) => {
            if !name.is_empty() {
                names.push(String::from_str(alloc, name)?)?;
            }
            Ok(())
        }
        // a piece of a text between two of its characters is a text
        Err(_) => Err(AllocError),
    }
}

/// Adds the names of a list with commas.
pub fn push_listed(alloc: Global, names: &mut Vec<String>, list: &str) -> Result<(), AllocError>
    ensures { OnOk result (map string_bytes names.new.items ≡ map string_bytes names.old.items ++
        listed list.now) }
{
    let mut piece = Vec::new(alloc);
    for byte in list.as_bytes() {
        if *byte == b',' {
            push_trimmed(alloc, names, piece)?;
            piece = Vec::new(alloc);
        } else {
            piece.push(*byte)?;
        }
    }
    push_trimmed(alloc, names, piece)
}

/// Whether the name is among the names.
pub fn is_among(name: &str, names: &IndexSet<&str>) -> bool
    ensures { result ≡ is_among name.now (texts names.now.keys) }
{
    names.contains(name)
}

/// Whether each of the names is among the others.
pub fn all_among(names: &[&str], others: &IndexSet<&str>) -> bool
    ensures { result ≡ all_among (texts names.now) (texts others.now.keys) }
{
    for name in names {
        if !is_among(name, others) {
            return false;
        }
    }
    true
}

/// The names, each once, where it stands first.
pub fn once<'a>(alloc: Global, names: &[&'a str]) -> Result<IndexSet<&'a str>, AllocError>
    ensures { IfOk result (λ kept. texts kept.keys ≡ once (texts names.now)) }
{
    let mut kept = IndexSet::new(alloc);
    for name in names {
        kept.insert(*name)?;
    }
    Ok(kept)
}

/// Whether some name stands twice.
pub fn has_twice(alloc: Global, names: &[&str]) -> Result<bool, AllocError>
    ensures { IfOk result (λ twice. twice ≡ has_twice (texts names.now)) }
{
    let kept = once(alloc, names)?;
    Ok(kept.len() < names.len())
}

/// A decimal number without sign that is at most 18,446,744,073,709,551,615.
pub fn number(text: &str) -> Option<u64>
    ensures { result ≡ number_in 0 (2 ^ 64 - 1) text.now }
{
    let mut number: u64 = 0;
    for byte in text.as_bytes() {
        if !byte.is_ascii_digit() {
            return None;
        }
        let digit = u64::from(*byte - b'0');
        if (u64::MAX - digit) / 10 < number {
            return None;
        }
        number = number * 10 + digit;
    }
    if text.is_empty() { None } else { Some(number) }
}

/// A truth value.
pub fn truth(text: &str) -> Option<bool>
    ensures { result ≡ truth_of text.now }
{
    if text.eq_ignore_ascii_case("true") {
        Some(true)
    } else if text.eq_ignore_ascii_case("false") {
        Some(false)
    } else {
        None
    }
}
