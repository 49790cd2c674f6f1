//! The values of a plan.

ghost use Rattle.std.specs.Prelude.{◌≡◌, ◌≤◌, ◌<◌, ◌++◌, OnOk, IfOk, string_bytes, codes, map};
ghost use Rattle.prop_text.specs.Views.{texts};
ghost use Rattle.agent_plan.specs.Values.{text_at, line_at, number_at, truth_at, place_of};

use indexmap::IndexSet;
use plan_judging::{Place, number, truth, value_at};
use std::alloc::{AllocError, Global};

/// The text at a key, as it stands there.
pub fn str_at<'a>(place: &Place<'a>, key: &str) -> Result<&'a str, AllocError>
    ensures { IfOk result (λ text. text.now
        ≡ text_at place.now.properties.now (place.now.front.now ++ key.now)) }
{
    match value_at(place, key)? {
        None => Ok(""),
        Some((value, _)) => Ok(value),
    }
}

/// The text at a key.
pub fn text_at(place: &Place<'_>, key: &str) -> Result<String, AllocError>
    ensures { IfOk result (λ text. string_bytes text ≡ text_at place.now.properties.now
        (place.now.front.now ++ key.now)) }
{
    String::from_str(place.alloc, str_at(place, key)?)
}

/// The line of a key.
pub fn line_at(place: &Place<'_>, key: &str) -> Result<u32, AllocError>
    ensures { IfOk result (λ line. line ≡ line_at place.now.properties.now
        (place.now.front.now ++ key.now)) }
{
    match value_at(place, key)? {
        None => Ok(0),
        Some((_, line)) => Ok(line),
    }
}

/// The number at a key, within limits, or a default.
pub fn number_at(
    place: &Place<'_>,
    low: u64,
    high: u64,
    default: u64,
    key: &str,
) -> Result<u64, AllocError>
    requires { default ≤ high }
    ensures value { IfOk result (λ number. number ≡ number_at place.now.properties.now low high
        default (place.now.front.now ++ key.now)) }
    ensures bound { IfOk result (λ number. number ≤ high) }
{
    match value_at(place, key)? {
        None => Ok(default),
        Some((value, _)) => match number(value) {
            Some(number) if low <= number && number <= high => Ok(number),
            _ => Ok(default),
        },
    }
}

/// The number at a key, within limits of 32 bits, or a default.
pub fn count_at(
    place: &Place<'_>,
    low: u32,
    high: u32,
    default: u32,
    key: &str,
) -> Result<u32, AllocError>
    requires { default ≤ high }
    ensures { IfOk result (λ number. number
        ≡ number_at place.now.properties.now low high default (place.now.front.now ++ key.now)) }
{
    let number = number_at(place, low.into(), high.into(), default.into(), key)?;
    Ok(number as u32)
}

/// The port at a key.
pub fn port_at(place: &Place<'_>) -> Result<u16, AllocError>
    ensures { IfOk result (λ port. port
        ≡ number_at place.now.properties.now 1 65535 1 (place.now.front.now ++ codes "port")) }
{
    let port = number_at(place, 1, 65_535, 1, "port")?;
    Ok(port as u16)
}

/// The truth value at a key, or a default.
pub fn truth_at(place: &Place<'_>, default: bool, key: &str) -> Result<bool, AllocError>
    ensures { IfOk result (λ on. on ≡ truth_at place.now.properties.now default
        (place.now.front.now ++ key.now)) }
{
    match value_at(place, key)? {
        None => Ok(default),
        Some((value, _)) => match truth(value) {
            Some(on) => Ok(on),
            None => Ok(default),
        },
    }
}

/// The place of a name among names, from 0, or their count where it is not there.
fn place_of(names: &IndexSet<&str>, name: &str) -> usize
    ensures { result ≡ place_of (texts names.now.keys) name.now }
{
    match names.get_index_of(name) {
        Some(place) => place,
        None => names.len(),
    }
}

/// The places of names among names, from 0.
pub fn places(
    alloc: Global,
    names: &IndexSet<&str>,
    chosen: &[&str],
) -> Result<Vec<u32>, AllocError>
    ensures { IfOk result (λ places. places.items ≡ map (place_of (texts names.now.keys))
        (texts chosen.now)) }
{
    let mut places = Vec::new(alloc);
    for name in chosen {
        places.push(place_at(names, name)?)?;
    }
    Ok(places)
}

/// The same in 32 bits, or out of memory.
pub fn place_at(names: &IndexSet<&str>, name: &str) -> Result<u32, AllocError>
    ensures { IfOk result (λ place. place ≡ place_of (texts names.now.keys) name.now) }
{
    match u32::try_from(place_of(names, name)) {
        Ok(place) => Ok(place),
        Err(_) => Err(AllocError),
    }
}
