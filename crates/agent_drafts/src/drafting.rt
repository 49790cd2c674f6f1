// Drafts of the session workers of an agent's sources.
ghost use Rattle.std.specs.Prelude.{◌≡◌, ◌⊎◌, ◌++◌, ◌<◌, ◌≤◌, All, IfOk, List, OnOk, drop, length, map, replicate, take};
ghost use Rattle.selectors.specs.Choices.{places_below};
ghost use Rattle.agent_outside.specs.Ends.{listeners_of};
ghost use Rattle.plan_objects.specs.Asks.{asks_of_source, step_asks};
ghost use Rattle.agent_drafts.specs.Drafts.{AreDrafts, AreRules, IsDraft, IsDraftAt, TakesLines, inputs_of, many_at, objects_at, used_by};

use crate::copies::{copied_channels, copied_names, copied_selector};
use crate::draft::{Drafts, SourceDraft};
use crate::links::links;
use agent_outside::listeners_of;
use agent_plan::{Plan, SourceKind, SourcePlan};
use netcat_source::LineRules;
use source_put::HostNames;
use source_worker::SessionRules;
use std::alloc::{AllocError, Global};

// The rules of a source's sessions.
fn rules_of(kind: &SourceKind) -> SessionRules
    ensures { AreRules kind.now result }
{
    match kind {
        SourceKind::Netcat {
            bind: _,
            port: _,
            max_line,
            ack,
            threads: _,
        } => SessionRules::Lines(LineRules {
            max: *max_line,
            ack: *ack,
        }),
        SourceKind::Stdin { max_line, ack } => SessionRules::Lines(LineRules {
            max: *max_line,
            ack: *ack,
        }),
        SourceKind::Avro { .. } => SessionRules::Avro,
    }
}

// A draft of a session worker of a source. Its interceptors take the first of these objects.
fn draft<B: Drop>(
    alloc: Global,
    at: usize,
    source: &SourcePlan,
    names: &HostNames,
    place: u32,
    objects: &mut Vec<B>,
) -> Result<SourceDraft<B>, AllocError>
    requires enough { length (asks_of_source source.now) ≤ length objects.old.items }
    ensures draft { IfOk result (IsDraft source.now
        (take (length (asks_of_source source.now)) objects.old.items) names.now) }
    ensures rest { OnOk result (objects.new.items
        ≡ drop (length (asks_of_source source.now)) objects.old.items) }
    ensures source { IfOk result (λ draft. draft.source ≡ at) }
    ensures place { IfOk result (λ draft. draft.place ≡ place) }
{
    let rules = rules_of(&source.kind);
    let channels = copied_channels(alloc, source.channels.as_slice())?;
    let plan = links(alloc, source.steps.as_slice(), objects)?;
    let selector = copied_selector(alloc, &source.selector)?;
    let host = copied_names(names)?;
    Ok(SourceDraft {
        source: at,
        place,
        channels,
        plan,
        selector,
        host,
        rules,
    })
}

// A draft of a session worker of the source at a place. Its interceptors take the first of these objects, and it is the draft of its source
// with all objects that these are the rest of.
fn draft_at<B: Drop>(
    alloc: Global,
    sources: &[SourcePlan],
    names: &[HostNames],
    at: usize,
    place: u32,
    objects: &mut Vec<B>,
) -> Result<SourceDraft<B>, AllocError>
    requires sources { at < length sources.now }
    requires names { at < length names.now }
    requires enough { many_at sources.now at ≤ length objects.old.items }
    ensures draft { (all : List B) → take (many_at sources.now at) objects.old.items ≡ objects_at
        sources.now at all
        → IfOk result (IsDraftAt sources.now all names.now) }
    ensures rest { OnOk result (objects.new.items ≡ drop (many_at sources.now at)
        objects.old.items) }
    ensures source { IfOk result (λ draft. draft.source ≡ at) }
    ensures place { IfOk result (λ draft. draft.place ≡ place) }
{
    let made = draft(alloc, at, &sources[at], &names[at], place, objects)?;
    Ok(made)
}

// Adds so many drafts of session workers of the source at a place, at most one where an interceptor of it was handed in.
fn add_drafts<B: Drop>(
    alloc: Global,
    sources: &[SourcePlan],
    names: &[HostNames],
    at: usize,
    count: u32,
    objects: &mut Vec<B>,
    drafts: &mut Vec<SourceDraft<B>>,
) -> Result<(), AllocError>
    requires sources { at < length sources.now }
    requires names { at < length names.now }
    requires once { (many_at sources.now at ≡ 0) ⊎ (count ≤ 1) }
    requires enough { 1 ≤ count → many_at sources.now at ≤ length objects.old.items }
    ensures order { OnOk result (map (λ draft. draft.source) drafts.new.items
        ≡ map (λ draft. draft.source) drafts.old.items ++ replicate count at) }
    ensures turns { OnOk result (map (λ draft. draft.place) drafts.new.items
        ≡ map (λ draft. draft.place) drafts.old.items ++ places_below count) }
    ensures each { (all : List B)
        → (1 ≤ count → take (many_at sources.now at) objects.old.items ≡ objects_at sources.now at
        all)
        → All (IsDraftAt sources.now all names.now) drafts.old.items
        → OnOk result (All (IsDraftAt sources.now all names.now) drafts.new.items) }
    ensures rest { OnOk result (objects.new.items
        ≡ drop (used_by count (many_at sources.now at)) objects.old.items) }
{
    for place in 0..count {
        drafts.push(draft_at(alloc, sources, names, at, place, objects)?)?;
    }
    Ok(())
}

// How many sessions a source has on standard input.
fn inputs_of(source: &SourcePlan) -> u32
    ensures { result ≡ inputs_of source.now }
{
    match &source.kind {
        SourceKind::Stdin { .. } => 1,
        _ => 0,
    }
}

// Drafts of the session workers of each source, in order.
fn draft_all<B: Drop>(
    alloc: Global,
    sources: &[SourcePlan],
    names: &[HostNames],
    objects: Vec<B>,
) -> Result<Drafts<B>, AllocError>
    requires names { length names.now ≡ length sources.now }
    requires many { length objects.items ≡ length (step_asks sources.now) }
    ensures listeners { IfOk result (λ drafts. AreDrafts listeners_of sources.now objects.items
        names.now drafts.listeners.items) }
    ensures lines { IfOk result (λ drafts. AreDrafts inputs_of sources.now objects.items
        names.now drafts.lines.items) }
{
    let mut listeners = Vec::new(alloc);
    let mut lines = Vec::new(alloc);
    let mut left = objects;
    for at in 0..sources.len() {
        let source = &sources[at];
        let many = listeners_of(source);
        let inputs = inputs_of(source);
        add_drafts(alloc, sources, names, at, many, &mut left, &mut listeners)?;
        add_drafts(alloc, sources, names, at, inputs, &mut left, &mut lines)?;
    }
    Ok(Drafts { listeners, lines })
}

/// A draft of each session worker of each source, in the order of the plan: of one that listens as many as it has listeners, and of one of
/// standard input a single one, which takes lines. The names are those of the host for each source, and the objects those that the
/// interceptors of all sources ask for, in order.
pub fn draft_sources<B: Drop>(
    alloc: Global,
    plan: &Plan,
    names: &[HostNames],
    objects: Vec<B>,
) -> Result<Drafts<B>, AllocError>
    requires names { length names.now ≡ length plan.now.sources.items }
    requires many { length objects.items ≡ length (step_asks plan.now.sources.items) }
    ensures listeners { IfOk result (λ drafts. AreDrafts listeners_of plan.now.sources.items
        objects.items names.now drafts.listeners.items) }
    ensures lines { IfOk result (λ drafts. AreDrafts inputs_of plan.now.sources.items
        objects.items names.now drafts.lines.items) }
    ensures lined { IfOk result (λ drafts. All (λ draft. TakesLines draft.rules)
        drafts.lines.items) }
{
    let drafts = draft_all(alloc, plan.sources.as_slice(), names, objects)?;
    Ok(drafts)
}
