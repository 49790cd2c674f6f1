//! What is at fault in an agent's configuration, its patterns apart.

ghost use Rattle.std.specs.Prelude.{◌≡◌, ℕ, List, OnOk, IfOk, ◌++◌, codes, None};
ghost use Rattle.std.specs.List.{flat_map};
ghost use Rattle.prop_text.specs.Views.{texts};
ghost use Rattle.plan_judging.specs.Candidates.{Adds, Candidates, seen, each};
ghost use Rattle.prop_text.specs.Pairs.{Pair};
ghost use Rattle.plan_judging.specs.Claims.{Claims, Wish, channel_wish, group_wish, sink_wish, source_wish, wishes};
ghost use Rattle.plan_judging.specs.Components.{channel, front_of, group, names_in, sink, source};
ghost use Rattle.prop_text.specs.Winners.{lookup};
ghost use Rattle.plan_judging.specs.Agents.{candidates_of, claims_of, components_of, lists, step_claims};

use crate::channel::check_channel;
use crate::claims::{
    Claim, check_claims, claim_channel, claim_group, claim_sink, claim_source, claim_steps,
};
use crate::findings::Findings;
use crate::group::{Agent, check_group_at, front_of, names_at};
use crate::rules::{Place, check_list, joined};
use crate::sink::check_sink;
use crate::source::check_source;
use indexmap::IndexSet;
use std::alloc::AllocError;

fn check_lists(place: &Place<'_>, found: &mut Findings) -> Result<(), AllocError>
    ensures { OnOk result (Adds (seen found.old) (seen found.new)
        (lists place.now.properties.now place.now.front.now)) }
{
    check_list(place, found, true, "sources")?;
    check_list(place, found, true, "channels")?;
    check_list(place, found, true, "sinks")?;
    check_list(place, found, false, "sinkgroups")
}

/// A kind of components: how their keys begin, what may be at fault in one, and what it claims.
trait ComponentKind {
    // what stands between the agent's name and the component's
    ghost between: { List ℕ };

    // What may be at fault: of the pairs and the agent's name, with the names of the components that it refers to, in the one
    // whose keys begin so.
    ghost faults: { List Pair → List ℕ → List (List ℕ) → List ℕ → Candidates };

    // what the one claims whose keys begin so
    ghost wishes_at: { List Pair → List ℕ → List Wish };

    /// What stands between the agent's name and the component's.
    fn infix() -> &'static str
        ensures { result.now ≡ between };

    /// Judges one of them, and gathers what it claims.
    fn judge_at(
        agent: &Agent<'_>,
        place: &Place<'_>,
        others: &IndexSet<&str>,
        found: &mut Findings,
        claims: &mut Vec<Claim>,
    ) -> Result<(), AllocError>
        requires { place.now.properties.now ≡ agent.now.properties.now }
        ensures judged { OnOk result (Adds (seen found.old) (seen found.new)
            (faults agent.now.properties.now agent.now.name.now (texts others.now.keys)
            place.now.front.now)) }
        ensures claimed { OnOk result (Claims (wishes claims.old.items) (wishes claims.new.items)
            (wishes_at agent.now.properties.now place.now.front.now)) };
}

struct Sources;

struct Channels;

struct Sinks;

struct Groups;

impl ComponentKind for Sources {
    ghost between = { codes ".sources." };

    ghost faults = { λ pairs agent channels at. source pairs channels at };

    ghost wishes_at = { λ pairs at. source_wish pairs at (lookup (at ++ codes "type") pairs) ++
        flat_map (step_claims pairs at) (names_in pairs (at ++ codes "interceptors")) };

    fn infix() -> &'static str {
        ".sources."
    }

    fn judge_at(
        _agent: &Agent<'_>,
        place: &Place<'_>,
        channels: &IndexSet<&str>,
        found: &mut Findings,
        claims: &mut Vec<Claim>,
    ) -> Result<(), AllocError> {
        check_source(place, found, channels)?;
        claim_source(place, claims)?;
        claim_steps(place, claims)
    }
}

impl ComponentKind for Channels {
    ghost between = { codes ".channels." };

    ghost faults = { λ pairs agent others at. channel pairs at };

    ghost wishes_at = { λ pairs at. channel_wish pairs at (lookup (at ++ codes "type") pairs) };

    fn infix() -> &'static str {
        ".channels."
    }

    fn judge_at(
        _agent: &Agent<'_>,
        place: &Place<'_>,
        _others: &IndexSet<&str>,
        found: &mut Findings,
        claims: &mut Vec<Claim>,
    ) -> Result<(), AllocError> {
        check_channel(place, found)?;
        claim_channel(place, claims)
    }
}

impl ComponentKind for Sinks {
    ghost between = { codes ".sinks." };

    ghost faults = { λ pairs agent channels at. sink pairs channels at };

    ghost wishes_at = { λ pairs at. sink_wish (lookup (at ++ codes "type") pairs) };

    fn infix() -> &'static str {
        ".sinks."
    }

    fn judge_at(
        _agent: &Agent<'_>,
        place: &Place<'_>,
        channels: &IndexSet<&str>,
        found: &mut Findings,
        claims: &mut Vec<Claim>,
    ) -> Result<(), AllocError> {
        check_sink(place, found, channels)?;
        claim_sink(place, claims)
    }
}

impl ComponentKind for Groups {
    ghost between = { codes ".sinkgroups." };

    ghost faults = { λ pairs agent sinks at. group pairs agent sinks at };

    ghost wishes_at = { λ pairs at. group_wish (lookup (at ++ codes "sinks") pairs)
        (names_in pairs (at ++ codes "sinks")) };

    fn infix() -> &'static str {
        ".sinkgroups."
    }

    fn judge_at(
        agent: &Agent<'_>,
        place: &Place<'_>,
        sinks: &IndexSet<&str>,
        found: &mut Findings,
        claims: &mut Vec<Claim>,
    ) -> Result<(), AllocError> {
        let members = names_at(place, "sinks")?;
        check_group_at(agent, place, found, sinks, members.as_slice())?;
        claim_group(place, claims, members.as_slice())
    }
}

fn judge_one<K: ComponentKind>(
    agent: &Agent<'_>,
    found: &mut Findings,
    claims: &mut Vec<Claim>,
    others: &IndexSet<&str>,
    name: &str,
) -> Result<(), AllocError>
    ensures judged { OnOk result (Adds (seen found.old) (seen found.new)
        (K.faults agent.now.properties.now agent.now.name.now (texts others.now.keys)
        (front_of agent.now.name.now K.between name.now))) }
    ensures claimed { OnOk result (Claims (wishes claims.old.items) (wishes claims.new.items)
        (K.wishes_at agent.now.properties.now (front_of agent.now.name.now K.between name.now))) }
{
    let front = front_of(agent.alloc, agent.name, K::infix(), name)?;
    let place = Place {
        alloc: agent.alloc,
        properties: agent.properties,
        front: front.as_str(),
    };
    K::judge_at(agent, &place, others, found, claims)
}

// Judges the components of a kind, each of which may refer to others by their names.
fn judge_each<K: ComponentKind>(
    agent: &Agent<'_>,
    found: &mut Findings,
    claims: &mut Vec<Claim>,
    others: &IndexSet<&str>,
    names: &[&str],
) -> Result<(), AllocError>
    ensures judged { OnOk result (Adds (seen found.old) (seen found.new)
        (each (λ name. K.faults agent.now.properties.now agent.now.name.now (texts others.now.keys)
        (front_of agent.now.name.now K.between name)) (texts names.now))) }
    ensures claimed { OnOk result (Claims (wishes claims.old.items) (wishes claims.new.items)
        (flat_map (λ name. K.wishes_at agent.now.properties.now
        (front_of agent.now.name.now K.between name)) (texts names.now))) }
{
    for name in names {
        judge_one::<K>(agent, found, claims, others, name)?;
    }
    Ok(())
}

/// Judges the components of an agent, and gathers what they claim.
fn judge_components(
    agent: &Agent<'_>,
    found: &mut Findings,
    claims: &mut Vec<Claim>,
    sources: &IndexSet<&str>,
    channels: &IndexSet<&str>,
    sinks: &IndexSet<&str>,
    groups: &IndexSet<&str>,
) -> Result<(), AllocError>
    ensures judged { OnOk result (Adds (seen found.old) (seen found.new)
        (components_of agent.now.properties.now agent.now.name.now (texts sources.now.keys)
        (texts channels.now.keys) (texts sinks.now.keys) (texts groups.now.keys))) }
    ensures claimed { OnOk result (Claims (wishes claims.old.items) (wishes claims.new.items)
        (claims_of agent.now.properties.now agent.now.name.now (texts sources.now.keys)
        (texts channels.now.keys) (texts sinks.now.keys) (texts groups.now.keys))) }
{
    judge_each::<Sources>(agent, found, claims, channels, sources.as_slice())?;
    judge_each::<Channels>(agent, found, claims, channels, channels.as_slice())?;
    judge_each::<Sinks>(agent, found, claims, channels, sinks.as_slice())?;
    judge_each::<Groups>(agent, found, claims, sinks, groups.as_slice())
}

/// What is at fault in an agent with these components, its patterns apart.
pub fn judge(
    agent: &Agent<'_>,
    sources: &IndexSet<&str>,
    channels: &IndexSet<&str>,
    sinks: &IndexSet<&str>,
    groups: &IndexSet<&str>,
) -> Result<Findings, AllocError>
    ensures { IfOk result (λ found. Adds (record { fault = None; missing = None }) (seen found)
        (candidates_of agent.now.properties.now agent.now.name.now (texts sources.now.keys)
        (texts channels.now.keys) (texts sinks.now.keys) (texts groups.now.keys))) }
{
    let mut found = Findings::new();
    let front = joined(agent.alloc, agent.name, ".")?;
    let place = Place {
        alloc: agent.alloc,
        properties: agent.properties,
        front: front.as_str(),
    };
    check_lists(&place, &mut found)?;
    let mut claims = Vec::new(agent.alloc);
    judge_components(
        agent,
        &mut found,
        &mut claims,
        sources,
        channels,
        sinks,
        groups,
    )?;
    check_claims(agent.alloc, &mut found, claims.as_slice())?;
    Ok(found)
}
