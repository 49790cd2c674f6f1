//! The selector of a source.

ghost use Rattle.std.specs.Prelude.{◌≡◌, OnOk, ◌++◌, codes, nat_eq, if◌then◌else◌};
ghost use Rattle.std.specs.List.{starts_with};
ghost use Rattle.prop_text.specs.Views.{texts};
ghost use Rattle.prop_text.specs.Winners.{lookup};
ghost use Rattle.plan_judging.specs.Rows.{twice, unknown};
ghost use Rattle.plan_judging.specs.Words.{words};
ghost use Rattle.plan_judging.specs.Candidates.{Adds, seen, each, nothing, ◌⊕◌};
ghost use Rattle.plan_judging.specs.Components.{channels_row, channels_rows, multiplexing, selector_of, selector};

use crate::findings::Findings;
use crate::rules::{
    Place, Row, Rule, check_list_of, check_rows, is_type, joined, type_at, value_at,
};
use indexmap::IndexSet;
use std::alloc::{AllocError, Global};

const KIND: [Row; 1] = [Row {
    required: false,
    key: "type",
    rule: Rule::SelectorKind,
}];

fn check_row(
    place: &Place<'_>,
    found: &mut Findings,
    key: &str,
    channels: &IndexSet<&str>,
) -> Result<(), AllocError>
    ensures { OnOk result (Adds (seen found.old) (seen found.new)
        (channels_row place.now.properties.now place.now.front.now key.now
        (texts channels.now.keys))) }
{
    match value_at(place, key)? {
        None => Ok(()),
        Some((value, line)) => check_list_of(place.alloc, found, line, value, channels),
    }
}

// Judges the list at a key that begins so.
#[tactic(auto, unfolding(crate::specs::Candidates::adds))]
fn check_key(
    alloc: Global,
    found: &mut Findings,
    front: &str,
    key: &str,
    value: &str,
    line: u32,
    channels: &IndexSet<&str>,
) -> Result<(), AllocError>
    ensures { OnOk result (Adds (seen found.old) (seen found.new)
        (if starts_with nat_eq key.now front.now then (twice line (words value.now) ⊕ unknown line
        (words value.now) (texts channels.now.keys)) else nothing)) }
{
    if key.as_bytes().starts_with(front.as_bytes()) {
        return check_list_of(alloc, found, line, value, channels);
    }
    Ok(())
}

// Judges the lists at the keys that begin so.
fn check_mapped(
    place: &Place<'_>,
    found: &mut Findings,
    key: &str,
    channels: &IndexSet<&str>,
) -> Result<(), AllocError>
    ensures { OnOk result (Adds (seen found.old) (seen found.new)
        (channels_rows place.now.properties.now (place.now.front.now ++ key.now)
        (texts channels.now.keys))) }
{
    let front = joined(place.alloc, place.front, key)?;
    for at in 0..place.properties.len() {
        let (key, value, line) = place.properties.at(at);
        check_key(
            place.alloc,
            found,
            front.as_str(),
            key,
            value,
            line,
            channels,
        )?;
    }
    Ok(())
}

fn check_multiplexing(
    place: &Place<'_>,
    found: &mut Findings,
    channels: &IndexSet<&str>,
) -> Result<(), AllocError>
    ensures { OnOk result (Adds (seen found.old) (seen found.new)
        (multiplexing place.now.properties.now place.now.front.now (texts channels.now.keys))) }
{
    check_row(place, found, "default", channels)?;
    check_mapped(place, found, "mapping.", channels)?;
    check_mapped(place, found, "optional.", channels)
}

#[tactic(auto, unfolding(crate::specs::Candidates::adds))]
fn check_kind(
    place: &Place<'_>,
    found: &mut Findings,
    channels: &IndexSet<&str>,
    kind: &str,
) -> Result<(), AllocError>
    ensures { OnOk result (Adds (seen found.old) (seen found.new)
        (selector_of place.now.properties.now place.now.front.now (texts channels.now.keys)
        kind.now)) }
{
    if is_type(kind, "multiplexing") {
        return check_multiplexing(place, found, channels);
    }
    if is_type(kind, "replicating") {
        return check_row(place, found, "optional", channels);
    }
    Ok(())
}

/// Judges the selector of a source that has these channels.
pub fn check_selector(
    place: &Place<'_>,
    found: &mut Findings,
    channels: &IndexSet<&str>,
) -> Result<(), AllocError>
    ensures { OnOk result (Adds (seen found.old) (seen found.new)
        (selector place.now.properties.now place.now.front.now (texts channels.now.keys))) }
{
    check_rows(place, found, &KIND)?;
    match type_at(place)? {
        None => check_row(place, found, "optional", channels),
        Some((kind, _)) => check_kind(place, found, channels, kind),
    }
}
