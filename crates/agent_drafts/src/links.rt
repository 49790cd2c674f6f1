// The interceptors of a source, as what they are built of.
ghost use Rattle.std.specs.Prelude.{◌≡◌, ◌++◌, ◌≤◌, IfOk, List, flat_map, length};
ghost use Rattle.plan_objects.specs.Asks.{asks_of_step};
ghost use Rattle.agent_drafts.specs.Drafts.{Deals, IsLink};

use crate::copies::{copied_keys, copied_step};
use agent_plan::StepPlan;
use chain_plan::LinkPlan;
use std::alloc::{AllocError, Global};

// What an interceptor is built of. If it asks for an object, it takes the first of these.
fn link<B: Drop>(
    alloc: Global,
    step: &StepPlan,
    objects: &mut Vec<B>,
) -> Result<LinkPlan<B>, AllocError>
    requires { length (asks_of_step step.now) ≤ length objects.old.items }
    ensures { IfOk result (λ link. (given : List B)
        × (objects.old.items ≡ given ++ objects.new.items) × IsLink step.now given link) }
{
    match step {
        StepPlan::Step(step) => {
            let step = copied_step(alloc, step)?;
            Ok(LinkPlan::Step(step))
        }
        StepPlan::Regex { keys, line: _ } => {
            let keys = copied_keys(alloc, keys)?;
            Ok(LinkPlan::Regex(keys))
        }
        StepPlan::Plugin { .. } => Ok(LinkPlan::Boxed(objects.remove(0))),
    }
}

/// What these interceptors are built of, in their order. Each that asks for an object takes the first that is left of these.
pub fn links<B: Drop>(
    alloc: Global,
    steps: &[StepPlan],
    objects: &mut Vec<B>,
) -> Result<Vec<LinkPlan<B>>, AllocError>
    requires { length (flat_map asks_of_step steps.now) ≤ length objects.old.items }
    ensures { IfOk result (λ links. (given : List B)
        × (objects.old.items ≡ given ++ objects.new.items) × Deals IsLink steps.now given
        links.items) }
{
    let mut links = Vec::new(alloc);
    for step in steps {
        links.push(link(alloc, step, objects)?)?;
    }
    Ok(links)
}
