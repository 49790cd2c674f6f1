// The objects of a plan are claimed.
ghost use Rattle.std.specs.Prelude.{◌≡◌, ◌≤◌, [], IfErr, IfOk, None, OnOk, if◌then◌else◌, length, reverse};
ghost use Rattle.std.specs.Vec.{vec_capacity};
ghost use Rattle.plan_objects.specs.Asks.{AreClaimed, AreTaken, HaveObjects, IsTaken, IsUnmet, LeavesRest};
ghost use Rattle.plan_objects.specs.Asks.{asked, found, lacking, misses, names_of, nearer, nearest, sink_asks, step_asks};

use crate::handed::HandedIn;
use crate::steps::{claim_sources, nearer};
use agent_plan::{Plan, SinkKind, SinkPlan};
use std::alloc::Global;

/// The objects that a plan asks for.
#[derive(Drop)]
pub struct Objects<K, B> {
    /// That of each interceptor that asks for one, in order, source after source.
    pub steps: Vec<K>,
    /// That of each sink, if it asks for one, the last sink first.
    pub sinks: Vec<Option<B>>,
}

/// Why the objects that a plan asks for were not claimed. Those that were are dropped.
#[derive(Clone, Copy, Debug, PartialEq, Eq)]
pub enum ClaimRefused {
    /// What this line asks for was not handed in, and no lesser line does so.
    Missing {
        /// The line, from 1.
        line: u32,
    },
    /// Out of memory.
    NoMemory,
}

// The object that a sink of this kind asks for, if it asks for one that is left.
fn claim<K: Drop, B: Drop>(kind: &SinkKind, handed: &mut HandedIn<K, B>) -> Option<B>
    ensures taken { IsTaken (asked kind.now) handed.old.sinks.items result handed.new.sinks.items }
    ensures steps { handed.new.steps.items ≡ handed.old.steps.items }
{
    match kind {
        SinkKind::Plugin { name } => handed.claim_sink(name.as_str()),
        _ => None,
    }
}

// Whether a sink of this kind asks for an object, and found none.
fn misses<B: Drop>(kind: &SinkKind, object: &Option<B>) -> bool
    ensures { result ≡ misses (asked kind.now) (found object.now) }
{
    match kind {
        SinkKind::Plugin { .. } => match object {
            Some(_) => false,
            None => true,
        },
        _ => false,
    }
}

// The nearest of a line and that of the sink, if this misses its object.
fn next_line<B: Drop>(first: Option<u32>, plan: &SinkPlan, object: &Option<B>) -> Option<u32>
    ensures { result ≡ (if misses (asked plan.now.kind) (found object.now) then nearer first
        plan.now.line else first) }
{
    if misses(&plan.kind, object) {
        nearer(first, plan.line)
    } else {
        first
    }
}

// Claims the object of each sink, in order, and puts them into the list, the last first. It answers the nearest of a line and those of
// the sinks that found none. The list has room for the objects.
fn claim_each<K: Drop, B: Drop>(
    plans: &[SinkPlan],
    handed: &mut HandedIn<K, B>,
    first: Option<u32>,
    objects: &mut Vec<Option<B>>,
) -> Option<u32>
    requires none { objects.old.items ≡ [] }
    requires room { length plans.now ≤ vec_capacity objects.old }
    ensures taken { AreTaken plans.now handed.old.sinks.items (reverse objects.new.items)
        handed.new.sinks.items }
    ensures first { result ≡ nearest first (names_of handed.old.sinks.items) (sink_asks plans.now) }
    ensures steps { handed.new.steps.items ≡ handed.old.steps.items }
    ensures many { length objects.new.items ≡ length plans.now }
    ensures room { vec_capacity objects.old ≤ vec_capacity objects.new }
{
    let Some((plan, others)) = plans.split_first() else {
        return first;
    };
    let object = claim(&plan.kind, handed);
    let first = next_line(first, plan, &object);
    let first = claim_each(others, handed, first, objects);
    objects.push_reserved(object);
    first
}

/// Claims the objects that a plan asks for: each of its interceptors and each of its sinks in turn takes the first that is left of its
/// name among those of its kind. `Missing` names the least line that finds none, and the objects that were found are dropped; out of
/// memory may come in its place, and leaves all.
pub fn claim_objects<K: Drop, B: Drop>(
    alloc: Global,
    plan: &Plan,
    handed: &mut HandedIn<K, B>,
) -> Result<Objects<K, B>, ClaimRefused>
    ensures steps { IfOk result (λ objects. AreClaimed plan.now.sources.items handed.old.steps.items
        objects.steps.items handed.new.steps.items) }
    ensures many { IfOk result (λ objects. length objects.steps.items ≡ length
        (step_asks plan.now.sources.items)) }
    ensures taken { IfOk result (λ objects. AreTaken plan.now.sinks.items handed.old.sinks.items
        (reverse objects.sinks.items) handed.new.sinks.items) }
    ensures have { IfOk result (λ objects. HaveObjects plan.now.sinks.items
        (reverse objects.sinks.items)) }
    ensures met { OnOk result (lacking handed.old plan.now ≡ None) }
    ensures missing { IfErr result (λ refused. IsUnmet (lacking handed.old plan.now) refused) }
    ensures left_steps { IfErr result (λ refused. LeavesRest refused
        (step_asks plan.now.sources.items)
        handed.old.steps.items handed.new.steps.items) }
    ensures left_sinks { IfErr result (λ refused. LeavesRest refused
        (sink_asks plan.now.sinks.items)
        handed.old.sinks.items handed.new.sinks.items) }
{
    let Ok(mut steps) = Vec::with_capacity(alloc, handed.many_steps()) else {
        return Err(ClaimRefused::NoMemory);
    };
    let Ok(mut sinks) = Vec::with_capacity(alloc, plan.sinks.len()) else {
        return Err(ClaimRefused::NoMemory);
    };
    let first = claim_sources(plan.sources.as_slice(), handed, &mut steps);
    match claim_each(plan.sinks.as_slice(), handed, first, &mut sinks) {
        None => Ok(Objects { steps, sinks }),
        Some(line) => Err(ClaimRefused::Missing { line }),
    }
}
