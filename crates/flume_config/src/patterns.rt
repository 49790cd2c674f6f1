//! The texts of a configuration that have to be patterns, and with them all that is at fault.

ghost use Rattle.std.specs.Prelude.{◌≡◌, ℕ, List, IfOk, OnOk, ◌++◌, ◌∷◌, [], codes, true, false};
ghost use Rattle.std.specs.List.{flat_map};
ghost use Rattle.prop_text.specs.Pairs.{Pair};
ghost use Rattle.prop_text.specs.Views.{texts};
ghost use Rattle.prop_text.specs.Winners.{lookup};
ghost use Rattle.plan_judging.specs.Candidates.{seen};
ghost use Rattle.plan_judging.specs.Components.{front_of, names_in};
ghost use Rattle.agent_plan.specs.Patterns.{Asked, Asks, IsVerdict, asked_at, asked_of_date, asked_of_extractor, asked_of_kind, asked_by_kind, asked_of_step};
ghost use Rattle.agent_plan.specs.Plans.{IsSeen};

use indexmap::IndexSet;
use plan_judging::{
    Agent, FaultKind, Findings, Place, front_of, is_millis, is_type, names_at, value_at,
};
use regex_steps::{BuildRefused, DatePattern, RegexKeys, RegexStep};
use std::alloc::{AllocError, Global};

// Whether a text is no pattern.
fn is_bad_pattern(alloc: Global, text: &str) -> Result<bool, AllocError>
    ensures { IfOk result (λ bad. IsVerdict false bad text.now) }
{
    let keys = RegexKeys::Filter {
        regex: String::from_str(alloc, text)?,
        exclude: false,
    };
    match RegexStep::build(alloc, &keys) {
        Ok(_) => Ok(false),
        Err(BuildRefused::BadPattern) => Ok(true),
        Err(BuildRefused::NoMemory) => Err(AllocError),
    }
}

// Whether a text is no pattern of dates.
fn is_bad_date(alloc: Global, text: &str) -> Result<bool, AllocError>
    ensures { IfOk result (λ bad. IsVerdict true bad text.now) }
{
    match DatePattern::read(alloc, text) {
        Ok(_) => Ok(false),
        Err(BuildRefused::BadPattern) => Ok(true),
        Err(BuildRefused::NoMemory) => Err(AllocError),
    }
}

fn is_bad(alloc: Global, text: &str, is_date: bool) -> Result<bool, AllocError>
    ensures { IfOk result (λ bad. IsVerdict is_date bad text.now) }
{
    if is_date {
        is_bad_date(alloc, text)
    } else {
        is_bad_pattern(alloc, text)
    }
}

// A text that has to be a pattern.
fn ask(
    alloc: Global,
    found: &mut Findings,
    text: &str,
    line: u32,
    is_date: bool,
) -> Result<(), AllocError>
    ensures { OnOk result (Asks (seen found.old) (seen found.new)
        (record { text = text.now; line = line; is_date = is_date } ∷ [])) }
{
    let bad = is_bad(alloc, text, is_date)?;
    if bad {
        found.refuse(line, FaultKind::BadPattern);
    }
    Ok(())
}

#[tactic(auto, using(crate::proofs::Asking::ask_none))]
fn ask_at(
    place: &Place<'_>,
    found: &mut Findings,
    is_date: bool,
    key: &str,
) -> Result<(), AllocError>
    ensures { OnOk result (Asks (seen found.old) (seen found.new)
        (asked_at is_date (lookup (place.now.front.now ++ key.now) place.now.properties.now))) }
{
    match value_at(place, key)? {
        None => Ok(()),
        Some((value, line)) => ask(place.alloc, found, value, line, is_date),
    }
}

/// A kind of what has a name and texts that have to be patterns: how the keys of one begin, and which
/// texts those are.
trait AskedKind {
    // what stands between the front of the keys of what it belongs to and its name
    ghost between: { List ℕ };

    // the texts that have to be patterns, of the pairs, in the one whose keys begin so
    ghost asked: { List Pair → List ℕ → List Asked };

    /// What stands between the front of the keys of what it belongs to and its name.
    fn infix() -> &'static str
        ensures { result.now ≡ between };

    /// Judges the patterns of the one of these keys.
    fn ask_in(place: &Place<'_>, found: &mut Findings) -> Result<(), AllocError>
        ensures { OnOk result (Asks (seen found.old) (seen found.new)
            (asked place.now.properties.now place.now.front.now)) };
}

// The serializers of an interceptor.
struct Serializers;

// The interceptors of a source.
struct Steps;

// The sources of an agent.
struct Sources;

impl AskedKind for Serializers {
    ghost between = { codes "serializers." };

    ghost asked = { λ pairs at. asked_of_date pairs at (lookup (at ++ codes "type") pairs) };

    fn infix() -> &'static str {
        "serializers."
    }

    #[tactic(auto, using(crate::proofs::Asking::ask_none))]
    fn ask_in(place: &Place<'_>, found: &mut Findings) -> Result<(), AllocError> {
        match value_at(place, "type")? {
            Some((kind, _)) if is_millis(kind) => ask_at(place, found, true, "pattern"),
            _ => Ok(()),
        }
    }
}

impl AskedKind for Steps {
    ghost between = { codes "interceptors." };

    ghost asked = { λ pairs at. asked_by_kind pairs at (lookup (at ++ codes "type") pairs) };

    fn infix() -> &'static str {
        "interceptors."
    }

    #[tactic(auto, using(crate::proofs::Asking::ask_none))]
    fn ask_in(place: &Place<'_>, found: &mut Findings) -> Result<(), AllocError> {
        match value_at(place, "type")? {
            None => Ok(()),
            Some((kind, _)) => ask_kind(place, found, kind),
        }
    }
}

impl AskedKind for Sources {
    ghost between = { codes ".sources." };

    ghost asked = { λ pairs at. flat_map (asked_of_step pairs at)
        (names_in pairs (at ++ codes "interceptors")) };

    fn infix() -> &'static str {
        ".sources."
    }

    fn ask_in(place: &Place<'_>, found: &mut Findings) -> Result<(), AllocError> {
        let names = names_at(place, "interceptors")?;
        ask_each::<Steps>(place, found, names.as_slice())
    }
}

// Judges the patterns of the one of a name, which belongs to what has these keys.
fn ask_one<K: AskedKind>(
    place: &Place<'_>,
    found: &mut Findings,
    name: &str,
) -> Result<(), AllocError>
    ensures { OnOk result (Asks (seen found.old) (seen found.new)
        (K.asked place.now.properties.now (front_of place.now.front.now K.between name.now))) }
{
    let front = front_of(place.alloc, place.front, K::infix(), name)?;
    let place = Place {
        alloc: place.alloc,
        properties: place.properties,
        front: front.as_str(),
    };
    K::ask_in(&place, found)
}

// Judges the patterns of those of these names, which belong to what has these keys.
fn ask_each<K: AskedKind>(
    place: &Place<'_>,
    found: &mut Findings,
    names: &[&str],
) -> Result<(), AllocError>
    ensures { OnOk result (Asks (seen found.old) (seen found.new) (flat_map
        (λ name. K.asked place.now.properties.now (front_of place.now.front.now K.between name))
        (texts names.now))) }
{
    for name in names {
        ask_one::<K>(place, found, name)?;
    }
    Ok(())
}

fn ask_extractor(place: &Place<'_>, found: &mut Findings) -> Result<(), AllocError>
    ensures { OnOk result (Asks (seen found.old) (seen found.new)
        (asked_of_extractor place.now.properties.now place.now.front.now)) }
{
    ask_at(place, found, false, "regex")?;
    let names = names_at(place, "serializers")?;
    ask_each::<Serializers>(place, found, names.as_slice())
}

#[tactic(auto, using(crate::proofs::Asking::ask_none))]
fn ask_kind(place: &Place<'_>, found: &mut Findings, kind: &str) -> Result<(), AllocError>
    ensures { OnOk result (Asks (seen found.old) (seen found.new)
        (asked_of_kind place.now.properties.now place.now.front.now kind.now)) }
{
    if is_type(kind, "regex_filter") {
        return ask_at(place, found, false, "regex");
    }
    if is_type(kind, "regex_extractor") {
        return ask_extractor(place, found);
    }
    if is_type(kind, "search_replace") {
        return ask_at(place, found, false, "searchPattern");
    }
    Ok(())
}

/// What is at fault in an agent with these components.
pub fn judge(
    agent: &Agent<'_>,
    sources: &IndexSet<&str>,
    channels: &IndexSet<&str>,
    sinks: &IndexSet<&str>,
    groups: &IndexSet<&str>,
) -> Result<Findings, AllocError>
    ensures { IfOk result (λ found. IsSeen agent.now.properties.now agent.now.name.now
        (texts sources.now.keys) (texts channels.now.keys) (texts sinks.now.keys)
        (texts groups.now.keys) (seen found)) }
{
    let mut found = plan_judging::judge(agent, sources, channels, sinks, groups)?;
    let place = Place {
        alloc: agent.alloc,
        properties: agent.properties,
        front: agent.name,
    };
    ask_each::<Sources>(&place, &mut found, sources.as_slice())?;
    Ok(found)
}
