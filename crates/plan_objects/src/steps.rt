// The interceptors of a plan that ask for objects.
ghost use Rattle.std.specs.Prelude.{◌≡◌, ◌+◌, ◌≤◌, None, Some, flat_map, length};
ghost use Rattle.std.specs.Vec.{vec_capacity};
ghost use Rattle.plan_objects.specs.Asks.{Joined, asks_of_source, asks_of_step, has_asks, names_of, nearer, nearest, step_asks};

use crate::handed::HandedIn;
use agent_plan::{SourcePlan, StepPlan};

/// The nearer of two lines.
pub(crate) fn nearer(first: Option<u32>, line: u32) -> Option<u32>
    ensures { result ≡ nearer first line }
{
    match first {
        Some(first) => Some(first.min(line)),
        None => Some(line),
    }
}

/// Whether an interceptor of this source asks for an object.
pub fn asks_for_object(source: &SourcePlan) -> bool
    ensures { result ≡ has_asks (asks_of_source source.now) }
{
    for step in source.steps.as_slice() {
        if let StepPlan::Plugin { .. } = step {
            return true;
        }
    }
    false
}

// Claims the object of an interceptor, if it asks for one, and adds it to the list. It answers the nearest of a line and that of the
// interceptor, if this found none. The list has room for all that is held.
fn claim_step<K: Drop, B: Drop>(
    step: &StepPlan,
    handed: &mut HandedIn<K, B>,
    first: Option<u32>,
    objects: &mut Vec<K>,
) -> Option<u32>
    requires room { length objects.old.items + length handed.old.steps.items ≤ vec_capacity
        objects.old }
    ensures joined { Joined (asks_of_step step.now) handed.old.steps.items handed.new.steps.items
        objects.old.items objects.new.items }
    ensures first { result ≡ nearest first (names_of handed.old.steps.items)
        (asks_of_step step.now) }
    ensures sinks { handed.new.sinks.items ≡ handed.old.sinks.items }
    ensures room { length objects.new.items + length handed.new.steps.items ≤ vec_capacity
        objects.new }
{
    let StepPlan::Plugin { name, line } = step else {
        return first;
    };
    match handed.claim_step(name.as_str()) {
        Some(object) => {
            objects.push_reserved(object);
            first
        }
        None => nearer(first, *line),
    }
}

// The same of these interceptors, in order.
fn claim_steps<K: Drop, B: Drop>(
    steps: &[StepPlan],
    handed: &mut HandedIn<K, B>,
    first: Option<u32>,
    objects: &mut Vec<K>,
) -> Option<u32>
    requires room { length objects.old.items + length handed.old.steps.items ≤ vec_capacity
        objects.old }
    ensures joined { Joined (flat_map asks_of_step steps.now) handed.old.steps.items
        handed.new.steps.items objects.old.items objects.new.items }
    ensures first { result ≡ nearest first (names_of handed.old.steps.items)
        (flat_map asks_of_step steps.now) }
    ensures sinks { handed.new.sinks.items ≡ handed.old.sinks.items }
    ensures room { length objects.new.items + length handed.new.steps.items ≤ vec_capacity
        objects.new }
{
    let mut first = first;
    for step in steps {
        first = claim_step(step, handed, first, objects);
    }
    first
}

/// The same of the interceptors of these sources, in order.
pub(crate) fn claim_sources<K: Drop, B: Drop>(
    sources: &[SourcePlan],
    handed: &mut HandedIn<K, B>,
    objects: &mut Vec<K>,
) -> Option<u32>
    requires room { length objects.old.items + length handed.old.steps.items ≤ vec_capacity
        objects.old }
    ensures joined { Joined (step_asks sources.now) handed.old.steps.items handed.new.steps.items
        objects.old.items objects.new.items }
    ensures first { result ≡ nearest None (names_of handed.old.steps.items)
        (step_asks sources.now) }
    ensures sinks { handed.new.sinks.items ≡ handed.old.sinks.items }
{
    let mut first: Option<u32> = None;
    for source in sources {
        first = claim_steps(source.steps.as_slice(), handed, first, objects);
    }
    first
}
