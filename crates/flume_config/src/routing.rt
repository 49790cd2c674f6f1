//! The plan of a source's selector.

ghost use Rattle.std.specs.Prelude.{◌≡◌, ◌++◌, IfOk, OnOk, codes, map, nat_eq, true, false, length, drop};
ghost use Rattle.std.specs.List.{starts_with};
ghost use Rattle.prop_text.specs.Views.{texts};
ghost use Rattle.plan_judging.specs.Rows.{is_type};
ghost use Rattle.plan_judging.specs.Components.{once};
ghost use Rattle.plan_judging.specs.Words.{words};
ghost use Rattle.agent_plan.specs.Values.{text_at, place_of, places_at, mapped_at, mapped, seen_pair, IsSelector};

use crate::stepping::text_else;
use crate::values::{places, str_at};
use indexmap::IndexSet;
use plan_judging::{Place, is_type, joined, names_at, once, words};
use selectors::Selector;
use std::alloc::{AllocError, Global};

// The places of the channels in the list at a key.
fn places_at(
    place: &Place<'_>,
    channels: &IndexSet<&str>,
    key: &str,
) -> Result<Vec<u32>, AllocError>
    ensures { IfOk result (λ found. found.items ≡ places_at place.now.properties.now
        (texts channels.now.keys) (place.now.front.now ++ key.now)) }
{
    let names = names_at(place, key)?;
    places(place.alloc, channels, names.as_slice())
}

// The places of the channels in a list.
fn places_in(alloc: Global, channels: &IndexSet<&str>, value: &str) -> Result<Vec<u32>, AllocError>
    ensures { IfOk result (λ found. found.items ≡ map (place_of (texts channels.now.keys))
        (once (words value.now))) }
{
    let names = words(alloc, value)?;
    let names = once(alloc, names.as_slice())?;
    places(alloc, channels, names.as_slice())
}

// Adds what a key maps, where it begins so.
fn push_mapped(
    alloc: Global,
    found: &mut Vec<(String, Vec<u32>)>,
    channels: &IndexSet<&str>,
    front: &str,
    key: &str,
    value: &str,
    line: u32,
) -> Result<(), AllocError>
    ensures { OnOk result (map seen_pair found.new.items ≡ map seen_pair found.old.items ++
        mapped_at (texts channels.now.keys) front.now (record {
          key = key.now;
          value = value.now;
          line = line;
        })) }
{
    match key.strip_prefix(front) {
        None => Ok(()),
        Some(behind) => {
            let behind = String::from_str(alloc, behind)?;
            let places = places_in(alloc, channels, value)?;
            found.push((behind, places))?;
            Ok(())
        }
    }
}

// What the keys that begin so map.
fn mapped(
    place: &Place<'_>,
    channels: &IndexSet<&str>,
    key: &str,
) -> Result<Vec<(String, Vec<u32>)>, AllocError>
    ensures { IfOk result (λ found. map seen_pair found.items ≡ mapped place.now.properties.now
        (texts channels.now.keys) (place.now.front.now ++ key.now)) }
{
    let front = joined(place.alloc, place.front, key)?;
    let mut found = Vec::new(place.alloc);
    for at in 0..place.properties.len() {
        let (key, value, line) = place.properties.at(at);
        push_mapped(
            place.alloc,
            &mut found,
            channels,
            front.as_str(),
            key,
            value,
            line,
        )?;
    }
    Ok(found)
}

fn multiplexing(place: &Place<'_>, channels: &IndexSet<&str>) -> Result<Selector, AllocError>
    requires { is_type (codes "multiplexing") (text_at place.now.properties.now
        (place.now.front.now ++ codes "type")) ≡ true }
    ensures { IfOk result (IsSelector place.now.properties.now place.now.front.now
        (texts channels.now.keys)) }
{
    Ok(Selector::Multiplexing {
        header: text_else(place, "flume.selector.header", "header")?,
        mapping: mapped(place, channels, "mapping.")?,
        default: places_at(place, channels, "default")?,
        optional: mapped(place, channels, "optional.")?,
    })
}

fn replicating(place: &Place<'_>, channels: &IndexSet<&str>) -> Result<Selector, AllocError>
    requires { is_type (codes "multiplexing") (text_at place.now.properties.now
        (place.now.front.now ++ codes "type")) ≡ false }
    ensures { IfOk result (IsSelector place.now.properties.now place.now.front.now
        (texts channels.now.keys)) }
{
    let Ok(count) = u32::try_from(channels.len()) else {
        return Err(AllocError);
    };
    Ok(Selector::Replicating {
        channels: count,
        optional: places_at(place, channels, "optional")?,
    })
}

/// The selector of a source with these channels.
pub fn selector(place: &Place<'_>, channels: &IndexSet<&str>) -> Result<Selector, AllocError>
    ensures { IfOk result (IsSelector place.now.properties.now place.now.front.now
        (texts channels.now.keys)) }
{
    if is_type(str_at(place, "type")?, "multiplexing") {
        multiplexing(place, channels)
    } else {
        replicating(place, channels)
    }
}
