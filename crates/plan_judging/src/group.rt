//! Groups of sinks.

ghost use Rattle.std.specs.Prelude.{◌≡◌, OnOk, IfOk, ◌++◌, codes, option_map, string_bytes, if◌then◌else◌};
ghost use Rattle.std.specs.Str.{bytes_eq};
ghost use Rattle.prop_text.specs.Views.{texts};
ghost use Rattle.prop_text.specs.Winners.{lookup};
ghost use Rattle.plan_judging.specs.Candidates.{Adds, seen, each};
ghost use Rattle.plan_judging.specs.Components.{front_of, names_in, several, priority, failover, group_of, group_by_kind, channel_of, same_channel, one_channel, group_at};

use crate::findings::{FaultKind, Findings};
use crate::rules::{Place, Row, Rule, check, check_names, check_rows, is_type, joined, value_at};
use crate::values::{is_among, once, words};
use indexmap::IndexSet;
use prop_text::Properties;
use std::alloc::{AllocError, Global};

const PRIORITY: Rule = Rule::Number {
    low: 0,
    high: 4_294_967_295,
};

const KIND: [Row; 1] = [Row {
    required: false,
    key: "processor.type",
    rule: Rule::ProcessorKind,
}];

const PENALTY: Row = Row {
    required: false,
    key: "processor.maxpenalty",
    rule: Rule::Number {
        low: 0,
        high: u64::MAX,
    },
};

const SELECTOR: Row = Row {
    required: false,
    key: "processor.selector",
    rule: Rule::RoundRobinOrRandom,
};

const BACKOFF: Row = Row {
    required: false,
    key: "processor.backoff",
    rule: Rule::Truth,
};

const TIMEOUT: Row = Row {
    required: false,
    key: "processor.selector.maxTimeOut",
    rule: Rule::Number {
        low: 0,
        high: u64::MAX,
    },
};

const FAILOVER: [Row; 1] = [PENALTY];

const LOAD_BALANCE: [Row; 3] = [SELECTOR, BACKOFF, TIMEOUT];

/// The names in the list at a key, each once, where it stands first.
pub fn names_in<'a>(
    alloc: Global,
    properties: &'a Properties,
    key: &str,
) -> Result<IndexSet<&'a str>, AllocError>
    ensures { IfOk result (λ names. texts names.keys ≡ names_in properties.now key.now) }
{
    match properties.get(key) {
        None => Ok(IndexSet::new(alloc)),
        Some((value, _)) => {
            let names = words(alloc, value)?;
            once(alloc, names.as_slice())
        }
    }
}

/// The names in the list at a component's key, each once, where it stands first.
pub fn names_at<'a>(place: &Place<'a>, key: &str) -> Result<IndexSet<&'a str>, AllocError>
    ensures { IfOk result (λ names. texts names.keys ≡ names_in place.now.properties.now
        (place.now.front.now ++ key.now)) }
{
    let key = joined(place.alloc, place.front, key)?;
    names_in(place.alloc, place.properties, key.as_str())
}

/// A group of the default type has one sink.
#[tactic(auto, unfolding(crate::specs::Candidates::adds))]
fn check_several(
    place: &Place<'_>,
    found: &mut Findings,
    members: &[&str],
) -> Result<(), AllocError>
    ensures { OnOk result (Adds (seen found.old) (seen found.new)
        (several (texts members.now) (lookup (place.now.front.now ++ codes "sinks")
        place.now.properties.now))) }
{
    if let Some((_, line)) = value_at(place, "sinks")? {
        if members.len() > 1 {
            found.refuse(line, FaultKind::Unsupported);
        }
    }
    Ok(())
}

fn check_priorities(
    place: &Place<'_>,
    found: &mut Findings,
    members: &[&str],
) -> Result<(), AllocError>
    ensures { OnOk result (Adds (seen found.old) (seen found.new)
        (each (priority place.now.properties.now place.now.front.now) (texts members.now))) }
{
    let front = joined(place.alloc, place.front, "processor.priority.")?;
    let priorities = Place {
        alloc: place.alloc,
        properties: place.properties,
        front: front.as_str(),
    };
    for member in members {
        check(&priorities, found, false, member, PRIORITY)?;
    }
    Ok(())
}

fn check_failover(
    place: &Place<'_>,
    found: &mut Findings,
    members: &[&str],
) -> Result<(), AllocError>
    ensures { OnOk result (Adds (seen found.old) (seen found.new)
        (failover place.now.properties.now place.now.front.now (texts members.now))) }
{
    check_priorities(place, found, members)?;
    check_rows(place, found, &FAILOVER)
}

fn check_kind(
    place: &Place<'_>,
    found: &mut Findings,
    members: &[&str],
    kind: &str,
) -> Result<(), AllocError>
    ensures { OnOk result (Adds (seen found.old) (seen found.new)
        (group_of place.now.properties.now place.now.front.now (texts members.now) kind.now)) }
{
    if is_type(kind, "failover") {
        return check_failover(place, found, members);
    }
    if is_type(kind, "load_balance") {
        return check_rows(place, found, &LOAD_BALANCE);
    }
    if is_type(kind, "default") {
        return check_several(place, found, members);
    }
    Ok(())
}

#[tactic(auto, unfolding(crate::specs::Candidates::adds))]
fn check_by_kind(
    place: &Place<'_>,
    found: &mut Findings,
    members: &[&str],
) -> Result<(), AllocError>
    ensures { OnOk result (Adds (seen found.old) (seen found.new)
        (group_by_kind place.now.properties.now place.now.front.now (texts members.now)
        (lookup (place.now.front.now ++ codes "processor.type") place.now.properties.now))) }
{
    match value_at(place, "processor.type")? {
        None => check_several(place, found, members),
        Some((kind, _)) => check_kind(place, found, members, kind),
    }
}

/// The front that a component's keys share.
pub fn front_of(alloc: Global, agent: &str, part: &str, name: &str) -> Result<String, AllocError>
    ensures { IfOk result (λ front. string_bytes front ≡ front_of agent.now part.now name.now) }
{
    [agent, part, name, "."].concat(alloc)
}

/// The agent whose components are read.
#[derive(Clone, Copy)]
pub struct Agent<'a> {
    pub alloc: Global,
    pub properties: &'a Properties,
    pub name: &'a str,
}

/// The channel of a sink of the agent, as it stands, and its line.
fn channel_of<'a>(
    agent: &Agent<'a>,
    sinks: &IndexSet<&str>,
    name: &str,
) -> Result<Option<(&'a str, u32)>, AllocError>
    ensures { IfOk result (λ channel. option_map (λ x. (x.0.now, x.1)) channel ≡ channel_of
        agent.now.properties.now agent.now.name.now (texts sinks.now.keys) name.now) }
{
    if !is_among(name, sinks) {
        return Ok(None);
    }
    let front = front_of(agent.alloc, agent.name, ".sinks.", name)?;
    let key = joined(agent.alloc, front.as_str(), "channel")?;
    Ok(agent.properties.get(key.as_str()))
}

#[tactic(auto, unfolding(crate::specs::Candidates::adds))]
fn check_same(found: &mut Findings, first: Option<(&str, u32)>, other: Option<(&str, u32)>)
    ensures { Adds (seen found.old) (seen found.new)
        (same_channel (option_map (λ x. (x.0.now, x.1)) first.entry)
        (option_map (λ x. (x.0.now, x.1)) other.entry)) }
{
    if let (Some((channel, _)), Some((other, line))) = (first, other) {
        if channel != other {
            found.refuse(line, FaultKind::Unsupported);
        }
    }
}

/// Judges a sink's channel against that of the first.
#[tactic(auto, unfolding(crate::specs::Candidates::adds))]
fn check_other(
    agent: &Agent<'_>,
    found: &mut Findings,
    sinks: &IndexSet<&str>,
    first: Option<(&str, u32)>,
    other: &str,
) -> Result<(), AllocError>
    ensures { OnOk result (Adds (seen found.old) (seen found.new)
        (same_channel (option_map (λ x. (x.0.now, x.1)) first.entry)
        (channel_of agent.now.properties.now agent.now.name.now (texts sinks.now.keys)
        other.now))) }
{
    match channel_of(agent, sinks, other) {
        Err(error) => Err(error),
        Ok(other) => {
            check_same(found, first, other);
            Ok(())
        }
    }
}

fn check_others(
    agent: &Agent<'_>,
    found: &mut Findings,
    sinks: &IndexSet<&str>,
    first: Option<(&str, u32)>,
    others: &[&str],
) -> Result<(), AllocError>
    ensures { OnOk result (Adds (seen found.old) (seen found.new)
        (each (λ other. same_channel (option_map (λ x. (x.0.now, x.1)) first.entry)
        (channel_of agent.now.properties.now agent.now.name.now (texts sinks.now.keys) other))
        (texts others.now))) }
{
    for other in others {
        check_other(agent, found, sinks, first, other)?;
    }
    Ok(())
}

/// The sinks of a group take from the channel of the first.
#[tactic(auto, unfolding(crate::specs::Candidates::adds))]
fn check_one_channel(
    agent: &Agent<'_>,
    found: &mut Findings,
    sinks: &IndexSet<&str>,
    members: &[&str],
) -> Result<(), AllocError>
    ensures { OnOk result (Adds (seen found.old) (seen found.new)
        (one_channel agent.now.properties.now agent.now.name.now (texts sinks.now.keys)
        (texts members.now))) }
{
    match members {
        [] => Ok(()),
        [first, others @ ..] => match channel_of(agent, sinks, first) {
            Err(error) => Err(error),
            Ok(first) => check_others(agent, found, sinks, first, others),
        },
    }
}

/// Judges a group of these sinks.
pub fn check_group_at(
    agent: &Agent<'_>,
    place: &Place<'_>,
    found: &mut Findings,
    sinks: &IndexSet<&str>,
    members: &[&str],
) -> Result<(), AllocError>
    requires { place.now.properties.now ≡ agent.now.properties.now }
    ensures { OnOk result (Adds (seen found.old) (seen found.new)
        (group_at place.now.properties.now agent.now.name.now (texts sinks.now.keys)
        place.now.front.now (texts members.now))) }
{
    check_names(place, found, "sinks", sinks)?;
    check_rows(place, found, &KIND)?;
    check_by_kind(place, found, members)?;
    check_one_channel(agent, found, sinks, members)
}
