// Chains are built.
ghost use Rattle.std.specs.Prelude.{◌≡◌, IfErr, IfOk};
ghost use Rattle.chain_plan.specs.Builds.{AreBuilt, HasBad, IsBuilt, IsBadPlan};

use crate::plan::LinkPlan;
use regex_steps::{BuildRefused, RegexStep};
use source_put::{Chain, ChainLink};
use std::alloc::Global;

// Builds one interceptor.
fn build_link<B: Drop>(alloc: Global, plan: LinkPlan<B>) -> Result<ChainLink<B>, BuildRefused>
    ensures made { IfOk result (λ link. IsBuilt plan link) }
    ensures refused { IfErr result (λ e. e ≡ BuildRefused.BadPattern → IsBadPlan plan) }
{
    match plan {
        LinkPlan::Step(step) => Ok(ChainLink::Step(step)),
        LinkPlan::Boxed(object) => Ok(ChainLink::Boxed(object)),
        LinkPlan::Regex(keys) => match RegexStep::build(alloc, &keys) {
            Ok(step) => Ok(ChainLink::Regex(step)),
            Err(refused) => Err(refused),
        },
    }
}

/// Builds the interceptors of a chain, in their order. `BadPattern` comes only where a text of a plan is no pattern or nests
/// too deep, or a text for a date is no pattern of dates. What was built before a refusal is dropped, objects that were handed
/// in among it.
pub fn build_chain<B: Drop>(
    alloc: Global,
    plans: Vec<LinkPlan<B>>,
) -> Result<Chain<B>, BuildRefused>
    ensures made { IfOk result (λ chain. AreBuilt plans.items chain.links.items) }
    ensures refused { IfErr result (λ e. e ≡ BuildRefused.BadPattern → HasBad plans.items) }
{
    let mut others = plans;
    let Some(plan) = others.pop() else {
        return Ok(Chain {
            links: Vec::new(alloc),
        });
    };
    let mut chain = match build_chain(alloc, others) {
        Ok(chain) => chain,
        Err(refused) => return Err(refused),
    };
    let link = match build_link(alloc, plan) {
        Ok(link) => link,
        Err(refused) => return Err(refused),
    };
    match chain.links.push(link) {
        Ok(()) => Ok(chain),
        Err(_) => Err(BuildRefused::NoMemory),
    }
}
