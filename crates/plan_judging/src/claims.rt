//! What a component claims for itself alone.

ghost use Rattle.std.specs.Prelude.{◌≡◌, OnOk, ◌++◌, [], ◌∷◌, codes, drop, map, string_bytes, IsTrue};
ghost use Rattle.plan_judging.specs.Rows.{is_plugin};
ghost use Rattle.std.specs.List.{flat_map};
ghost use Rattle.plan_judging.specs.Words.{number_in};
ghost use Rattle.plan_judging.specs.Components.{names_in};
ghost use Rattle.plan_judging.specs.Agents.{step_claims};
ghost use Rattle.prop_text.specs.Views.{texts};
ghost use Rattle.prop_text.specs.Winners.{lookup};
ghost use Rattle.plan_judging.specs.Candidates.{Adds, seen, each};
ghost use Rattle.plan_judging.specs.Claims.{code, clash_with, least_with, clashes, listener, plugin_wish, source_of_wish, source_wish, folder_wish, channel_wish, sink_wish, member_wish, group_wish, wish, wishes, Claims};

use crate::findings::{FaultKind, Findings};
use crate::group::{front_of, names_at};
use crate::rules::{Place, is_plugin, is_type, type_at, value_at};
use crate::values::number;
use indexmap::IndexMap;
use std::alloc::{AllocError, Global};

/// What only one component can have.
#[derive(Clone, Copy)]
pub enum Claimed {
    Input,
    Listener,
    Folder,
    Plugin,
    Sink,
    Step,
}

/// A claim of a component, and the line that tells of it.
#[derive(Drop)]
pub struct Claim {
    pub what: Claimed,
    pub text: String,
    pub number: u64,
    pub line: u32,
}

impl Claimed {
    ghost use Rattle.plan_judging.specs.Claims.{code};

    fn code(self) -> u8
        ensures { result ≡ code self }
    {
        match self {
            Claimed::Input => 0,
            Claimed::Listener => 1,
            Claimed::Folder => 2,
            Claimed::Plugin => 3,
            Claimed::Sink => 4,
            Claimed::Step => 5,
        }
    }
}

impl Claim {
    // What makes two claims the same.
    fn key(&self) -> (u8, &str, u64)
        ensures what { result.0 ≡ code self.now.what }
        ensures text { result.1.now ≡ string_bytes self.now.text }
        ensures number { result.2 ≡ self.now.number }
    {
        (self.what.code(), self.text.as_str(), self.number)
    }
}

// Refuses a claim that was made before, of which `first` is the least line.
#[tactic(auto, unfolding(crate::specs::Candidates::adds))]
fn check_earlier(found: &mut Findings, first: Option<u32>, line: u32)
    ensures { Adds (seen found.old) (seen found.new) (clash_with first line) }
{
    if let Some(first) = first {
        found.refuse(first.max(line), FaultKind::Clash);
    }
}

// The lesser of a line, if there is one, and another.
fn least_with(first: Option<u32>, line: u32) -> u32
    ensures { result ≡ least_with first line }
{
    match first {
        Some(first) => first.min(line),
        None => line,
    }
}

/// Refuses two components that claim the same, on the later line. The least line of each claim is kept, so that no two are compared.
pub fn check_claims(alloc: Global, found: &mut Findings, claims: &[Claim]) -> Result<(), AllocError>
    ensures { OnOk result (Adds (seen found.old) (seen found.new) (clashes (wishes claims.now))) }
{
    let mut lines = IndexMap::new(alloc);
    for claim in claims {
        let key = claim.key();
        let first = lines.get(&key).copied();
        check_earlier(found, first, claim.line);
        lines.insert(key, least_with(first, claim.line))?;
    }
    Ok(())
}

fn push(
    alloc: Global,
    claims: &mut Vec<Claim>,
    what: Claimed,
    text: &str,
    number: u64,
    line: u32,
) -> Result<(), AllocError>
    ensures { OnOk result (Claims (wishes claims.old.items) (wishes claims.new.items)
        (record { what = what; text = text.now; number = number; line = line } ∷ [])) }
{
    let text = String::from_str(alloc, text)?;
    claims.push(Claim {
        what,
        text,
        number,
        line,
    })?;
    Ok(())
}

fn claim_listener(place: &Place<'_>, claims: &mut Vec<Claim>) -> Result<(), AllocError>
    ensures { OnOk result (Claims (wishes claims.old.items) (wishes claims.new.items)
        (listener (lookup (place.now.front.now ++ codes "bind") place.now.properties.now)
        (lookup (place.now.front.now ++ codes "port") place.now.properties.now))) }
{
    let Some((bind, _)) = value_at(place, "bind")? else {
        return Ok(());
    };
    let Some((port, line)) = value_at(place, "port")? else {
        return Ok(());
    };
    match port_number(port) {
        None => Ok(()),
        Some(number) => push(place.alloc, claims, Claimed::Listener, bind, number, line),
    }
}

fn port_number(text: &str) -> Option<u64>
    ensures { result ≡ number_in 1 65535 text.now }
{
    let number = number(text)?;
    if 1 <= number && number <= 65_535 {
        Some(number)
    } else {
        None
    }
}

fn claim_source_of(
    place: &Place<'_>,
    claims: &mut Vec<Claim>,
    kind: &str,
    line: u32,
) -> Result<(), AllocError>
    ensures { OnOk result (Claims (wishes claims.old.items) (wishes claims.new.items)
        (source_of_wish place.now.properties.now place.now.front.now kind.now line)) }
{
    if is_type(kind, "netcat") || is_type(kind, "avro") {
        return claim_listener(place, claims);
    }
    if is_type(kind, "stdin") {
        return push(place.alloc, claims, Claimed::Input, "", 0, line);
    }
    Ok(())
}

/// The claims of a source.
pub fn claim_source(place: &Place<'_>, claims: &mut Vec<Claim>) -> Result<(), AllocError>
    ensures { OnOk result (Claims (wishes claims.old.items) (wishes claims.new.items)
        (source_wish place.now.properties.now place.now.front.now
        (lookup (place.now.front.now ++ codes "type") place.now.properties.now))) }
{
    match type_at(place)? {
        None => Ok(()),
        Some((kind, line)) => claim_source_of(place, claims, kind, line),
    }
}

fn claim_folder(place: &Place<'_>, claims: &mut Vec<Claim>) -> Result<(), AllocError>
    ensures { OnOk result (Claims (wishes claims.old.items) (wishes claims.new.items)
        (folder_wish (lookup (place.now.front.now ++ codes "dataDirs") place.now.properties.now))) }
{
    match value_at(place, "dataDirs")? {
        None => Ok(()),
        Some((folder, line)) => push(place.alloc, claims, Claimed::Folder, folder, 0, line),
    }
}

// The claim of an object that is handed in.
fn claim_plugin(place: &Place<'_>, claims: &mut Vec<Claim>, what: Claimed) -> Result<(), AllocError>
    ensures { OnOk result (Claims (wishes claims.old.items) (wishes claims.new.items)
        (plugin_wish what (lookup (place.now.front.now ++ codes "type")
        place.now.properties.now))) }
{
    match type_at(place)? {
        Some((kind, line)) if is_plugin(kind) => {
            push(place.alloc, claims, what, plugin_name(kind), 0, line)
        }
        _ => Ok(()),
    }
}

// The claim of an interceptor.
fn claim_step(place: &Place<'_>, claims: &mut Vec<Claim>, name: &str) -> Result<(), AllocError>
    ensures { OnOk result (Claims (wishes claims.old.items) (wishes claims.new.items)
        (step_claims place.now.properties.now place.now.front.now name.now)) }
{
    let front = front_of(place.alloc, place.front, "interceptors.", name)?;
    let place = Place {
        alloc: place.alloc,
        properties: place.properties,
        front: front.as_str(),
    };
    claim_plugin(&place, claims, Claimed::Step)
}

fn claim_each(place: &Place<'_>, claims: &mut Vec<Claim>, names: &[&str]) -> Result<(), AllocError>
    ensures { OnOk result (Claims (wishes claims.old.items) (wishes claims.new.items)
        (flat_map (step_claims place.now.properties.now place.now.front.now) (texts names.now))) }
{
    for name in names {
        claim_step(place, claims, name)?;
    }
    Ok(())
}

/// The claims of a source's interceptors.
pub fn claim_steps(place: &Place<'_>, claims: &mut Vec<Claim>) -> Result<(), AllocError>
    ensures { OnOk result (Claims (wishes claims.old.items) (wishes claims.new.items)
        (flat_map (step_claims place.now.properties.now place.now.front.now)
        (names_in place.now.properties.now (place.now.front.now ++ codes "interceptors")))) }
{
    let names = names_at(place, "interceptors")?;
    claim_each(place, claims, names.as_slice())
}

/// The claims of a channel.
pub fn claim_channel(place: &Place<'_>, claims: &mut Vec<Claim>) -> Result<(), AllocError>
    ensures { OnOk result (Claims (wishes claims.old.items) (wishes claims.new.items)
        (channel_wish place.now.properties.now place.now.front.now
        (lookup (place.now.front.now ++ codes "type") place.now.properties.now))) }
{
    match type_at(place)? {
        Some((kind, _)) if is_type(kind, "file") => claim_folder(place, claims),
        _ => Ok(()),
    }
}

/// The claims of a sink.
pub fn claim_sink(place: &Place<'_>, claims: &mut Vec<Claim>) -> Result<(), AllocError>
    ensures { OnOk result (Claims (wishes claims.old.items) (wishes claims.new.items)
        (sink_wish (lookup (place.now.front.now ++ codes "type") place.now.properties.now))) }
{
    claim_plugin(place, claims, Claimed::Plugin)
}

/// The name of an object that is handed in.
pub fn plugin_name(kind: &str) -> &str
    requires { IsTrue (is_plugin kind.now) }
    ensures { result.now ≡ drop 7 kind.now }
{
    &kind[7..]
}

fn claim_members(
    alloc: Global,
    claims: &mut Vec<Claim>,
    line: u32,
    members: &[&str],
) -> Result<(), AllocError>
    ensures { OnOk result (Claims (wishes claims.old.items) (wishes claims.new.items)
        (map (member_wish line) (texts members.now))) }
{
    for member in members {
        push(alloc, claims, Claimed::Sink, member, 0, line)?;
    }
    Ok(())
}

/// The claims of a group, whose sinks are these.
pub fn claim_group(
    place: &Place<'_>,
    claims: &mut Vec<Claim>,
    members: &[&str],
) -> Result<(), AllocError>
    ensures { OnOk result (Claims (wishes claims.old.items) (wishes claims.new.items)
        (group_wish (lookup (place.now.front.now ++ codes "sinks") place.now.properties.now)
        (texts members.now))) }
{
    match value_at(place, "sinks")? {
        None => Ok(()),
        Some((_, line)) => claim_members(place.alloc, claims, line, members),
    }
}
