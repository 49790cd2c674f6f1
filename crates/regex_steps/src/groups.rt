// The groups of a match, in a text or in bytes.
ghost use Rattle.std.specs.Prelude.{◌≡◌, ℕ, List, Option, Some, None, option_copied, OnOk, IfOk, IfErr};
ghost use Rattle.regex_steps.specs.Extract.{value_of, with_value, with_group, serializer_of, serializers_of, extracted, IsSerializer, AreSerializers, IsBadDate, HasBadDate};

use crate::date_pattern::DatePattern;
use crate::keys::{BuildRefused, Group};
use event_core::{Headers, NoMemory};
use regex::{Captures, bytes};
use std::alloc::Global;
use std::str;

/// What the groups of a pattern matched, in a text or in bytes.
pub trait Groups {
    /// What a group matched, where it took part.
    ghost group: { Self → ℕ → Option (List ℕ) };

    fn group(&self, n: usize) -> Option<&[u8]>
        ensures { option_copied result ≡ group self.now n };
}

impl Groups for Captures<'_, '_> {
    ghost use Rattle.std.specs.Prelude.{option_map, slice_range};
    ghost use Rattle.regex.specs.Strings.{captures_span, captures_haystack};

    ghost group = { λ c n. option_map (λ s. slice_range (captures_haystack c) s.0 s.1)
        (captures_span c n) };

    fn group(&self, n: usize) -> Option<&[u8]> {
        match self.get(n) {
            Some(found) => Some(found.as_str().as_bytes()),
            None => None,
        }
    }
}

impl Groups for bytes::Captures<'_, '_> {
    ghost use Rattle.std.specs.Prelude.{option_map, slice_range};
    ghost use Rattle.regex.specs.Bytes.{captures_span, captures_haystack};

    ghost group = { λ c n. option_map (λ s. slice_range (captures_haystack c) s.0 s.1)
        (captures_span c n) };

    fn group(&self, n: usize) -> Option<&[u8]> {
        match self.get(n) {
            Some(found) => Some(found.as_bytes()),
            None => None,
        }
    }
}

/// What becomes of a group.
#[derive(Drop)]
pub struct Serializer {
    /// The header's key.
    pub name: String,
    /// The group is a date of this pattern, and the header has its milliseconds.
    pub date: Option<DatePattern>,
}

// Sets a header to these bytes, where they are text.
fn set_text(headers: &mut Headers, name: &str, bytes: &[u8]) -> Result<(), NoMemory>
    ensures { OnOk result (headers.new ≡ with_value headers.old name.now
        (value_of None bytes.now)) }
{
    match str::from_utf8(bytes) {
        Ok(text) => headers.set(name, text),
        Err(_) => Ok(()),
    }
}

// Sets a header to the milliseconds of a date, where these bytes are one.
fn set_date(
    headers: &mut Headers,
    name: &str,
    pattern: &DatePattern,
    bytes: &[u8],
) -> Result<(), NoMemory>
    ensures { OnOk result (headers.new ≡ with_value headers.old name.now
        (value_of (Some pattern.now) bytes.now)) }
{
    match pattern.milliseconds(bytes) {
        Some(milliseconds) => {
            let mut digits = itoa::Buffer::new();
            headers.set(name, digits.format(milliseconds))
        }
        None => Ok(()),
    }
}

// Sets a header to the value of a group, where it has one.
fn set_group(
    headers: &mut Headers,
    serializer: &Serializer,
    group: Option<&[u8]>,
) -> Result<(), NoMemory>
    ensures { OnOk result (headers.new ≡ with_group headers.old (serializer_of serializer.now)
        (option_copied group.entry)) }
{
    let Some(bytes) = group else {
        return Ok(());
    };
    match &serializer.date {
        Some(pattern) => set_date(headers, serializer.name.as_str(), pattern, bytes),
        None => set_text(headers, serializer.name.as_str(), bytes),
    }
}

/// Sets the headers of the groups, the first to group 1.
pub fn set_groups<F: Groups>(
    found: &F,
    serializers: &[Serializer],
    headers: &mut Headers,
) -> Result<(), NoMemory>
    ensures { OnOk result (headers.new ≡ extracted (F.group found.now) 1
        (serializers_of serializers.now) headers.old) }
{
    for (i, serializer) in serializers.iter().enumerate() {
        set_group(headers, serializer, found.group(i + 1))?;
    }
    Ok(())
}

// What becomes of a group by its keys.
fn serializer_for(alloc: Global, group: &Group) -> Result<Serializer, BuildRefused>
    ensures ok { IfOk result (λ s. IsSerializer group.now (serializer_of s)) }
    ensures err { IfErr result (λ e. e ≡ BuildRefused.BadPattern → IsBadDate group.now.millis) }
{
    let name = group.name.clone()?;
    let date = match &group.millis {
        None => None,
        Some(text) => Some(DatePattern::read(alloc, text.as_str())?),
    };
    Ok(Serializer { name, date })
}

/// What becomes of the groups by their keys.
pub fn serializers_for(alloc: Global, groups: &[Group]) -> Result<Vec<Serializer>, BuildRefused>
    ensures ok { IfOk result (λ made. AreSerializers groups.now (serializers_of made.items)) }
    ensures err { IfErr result (λ e. e ≡ BuildRefused.BadPattern → HasBadDate groups.now) }
{
    let mut made = Vec::new(alloc);
    for group in groups {
        made.push(serializer_for(alloc, group)?)?;
    }
    Ok(made)
}
