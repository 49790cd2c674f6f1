//! The plan of an agent, or its first fault.

ghost use Rattle.std.specs.Prelude.{◌≡◌, IfOk, MatchOption, ◌++◌, true};
ghost use Rattle.plan_judging.specs.Agents.{is_agent};
ghost use Rattle.prop_text.specs.Views.{texts};
ghost use Rattle.plan_judging.specs.Candidates.{seen};
ghost use Rattle.agent_plan.specs.Plans.{IsJudged, IsRight, Refuses, IsPlan, Plans};
ghost use Rattle.flume_config.specs.Names.{Names};

use crate::patterns::judge;
use crate::planning::{AgentNames, is_agent, plan_each};
use agent_plan::Plan;
use plan_judging::{Agent, FaultKind, Findings, Place, names_at};
use plan_refused::PlanRefused;
use prop_text::Properties;
use std::alloc::{AllocError, Global};

fn agent_names<'a>(agent: &Agent<'a>) -> Result<AgentNames<'a>, AllocError>
    ensures { IfOk result (Names agent.now.properties.now agent.now.name.now) }
{
    let place = Place {
        alloc: agent.alloc,
        properties: agent.properties,
        front: agent.name,
    };
    Ok(AgentNames {
        sources: names_at(&place, ".sources")?,
        channels: names_at(&place, ".channels")?,
        sinks: names_at(&place, ".sinks")?,
        groups: names_at(&place, ".sinkgroups")?,
    })
}

/// What is at fault in the agent's configuration.
fn judged(agent: &Agent<'_>, names: &AgentNames<'_>) -> Result<Findings, AllocError>
    requires { Names agent.now.properties.now agent.now.name.now names.now }
    ensures { IfOk result (λ found. IsJudged agent.now.properties.now agent.now.name.now
        (seen found)) }
{
    judge(
        agent,
        &names.sources,
        &names.channels,
        &names.sinks,
        &names.groups,
    )
}

/// What a user is told of what is at fault.
fn refusal(found: Findings) -> Option<PlanRefused>
    ensures { MatchOption result (IsRight (seen found)) (Refuses (seen found)) }
{
    let Findings { fault, missing } = found;
    match fault {
        Some(fault) => {
            let line = fault.line;
            Some(match fault.kind {
                FaultKind::UnknownType => PlanRefused::UnknownType { line },
                FaultKind::UnknownName => PlanRefused::UnknownName { line },
                FaultKind::BadNumber => PlanRefused::BadNumber { line },
                FaultKind::BadPattern => PlanRefused::BadPattern { line },
                FaultKind::Unsupported => PlanRefused::Unsupported { line },
                FaultKind::Clash => PlanRefused::Clash { line },
            })
        }
        None => match missing {
            Some(key) => Some(PlanRefused::Missing { key }),
            None => None,
        },
    }
}

fn plan(agent: &Agent<'_>, names: &AgentNames<'_>) -> Result<Plan, AllocError>
    requires { Names agent.now.properties.now agent.now.name.now names.now }
    ensures { IfOk result (IsPlan agent.now.properties.now agent.now.name.now) }
{
    Ok(Plan {
        sources: plan_each(agent, &names.channels, names.sources.as_slice())?,
        channels: plan_each(agent, &names.channels, names.channels.as_slice())?,
        sinks: plan_each(agent, &names.channels, names.sinks.as_slice())?,
        groups: plan_each(agent, &names.sinks, names.groups.as_slice())?,
    })
}

// The plan of an agent of which there is some key, or what is at fault.
fn judged_plan(agent: &Agent<'_>, names: &AgentNames<'_>) -> Result<Plan, PlanRefused>
    requires there { is_agent agent.now.properties.now agent.now.name.now ≡ true }
    requires names { Names agent.now.properties.now agent.now.name.now names.now }
    ensures { Plans agent.now.properties.now agent.now.name.now result }
{
    let found = judged(agent, names)?;
    if let Some(refused) = refusal(found) {
        return Err(refused);
    }
    Ok(plan(agent, names)?)
}

/// The plan of an agent, by the pairs of a properties text, or the first that applies: no key begins with the agent's name and a dot;
/// the fault with the least line, and on one line the first of unknown type, unknown name, bad number, bad pattern, unsupported and
/// clash; the least key by bytes that is required and not there. Out of memory may come at any time. The components and their keys are
/// those of the Flume User Guide, as far as this agent has them.
pub fn plan_of(alloc: Global, properties: &Properties, agent: &str) -> Result<Plan, PlanRefused>
    ensures { Plans properties.now agent.now result }
{
    if !is_agent(alloc, properties, agent)? {
        return Err(PlanRefused::NoAgent);
    }
    let agent = Agent {
        alloc,
        properties,
        name: agent,
    };
    let names = agent_names(&agent)?;
    judged_plan(&agent, &names)
}
