// `check -n NAME -f FILE`: a configuration is read and planned only.
ghost use Rattle.std.specs.Prelude.{◌≡◌, IfOk, OnOk, string_bytes};
ghost use Rattle.std.specs.Io.KnownBytes.{Appends};
ghost use Rattle.flume_host.specs.Causes.{HasCause};
ghost use Rattle.flume_host.specs.Writes.{Fronts};
ghost use Rattle.plan_objects.specs.Asks.{lacking};
ghost use Rattle.agent_commands.specs.Checked.{Checked, HasItsObjects, IsBeside, IsCheckStatus};
ghost use Rattle.agent_commands.specs.Checked.{Judges, PlansAgent, PlansWhole, end_of, plan_line};

use crate::errors::say_error;
use agent_plan::Plan;
use agent_words::RunError;
use flume_config::{PlanRefused, plan_of};
use flume_host::{Failed, FileRefused, Host, Sink, write_out};
use plan_objects::{ClaimRefused, HandedIn, Objects, claim_objects};
use prop_text::{Properties, read_properties};
use std::alloc::{AllocError, Global};

/// A plan, and the objects that it asks for.
#[derive(Drop)]
pub struct Planned<K, B> {
    /// The plan.
    pub plan: Plan,
    /// The objects that its interceptors and its sinks took.
    pub objects: Objects<K, B>,
}

// The agent's plan, by the pairs of a configuration file, with what it asks for of what is handed in.
fn plan_of_pairs<K: Drop, B: Drop>(
    alloc: Global,
    properties: &Properties,
    agent: &str,
    handed: &mut HandedIn<K, B>,
) -> Result<Planned<K, B>, RunError>
    ensures whole { PlansWhole (lacking handed.old)
        properties.now agent.now result }
    ensures objects { IfOk result (HasItsObjects handed.old handed.new) }
{
    match plan_of(alloc, properties, agent) {
        Ok(plan) => match claim_objects(alloc, &plan, handed) {
            Ok(objects) => Ok(Planned { plan, objects }),
            Err(ClaimRefused::Missing { line }) => {
                Err(RunError::Plan(PlanRefused::UnknownType { line }))
            }
            Err(ClaimRefused::NoMemory) => Err(RunError::NoMemory),
        },
        Err(PlanRefused::NoAgent) => Err(RunError::NoAgent {
            name: String::from_str(alloc, agent)?,
        }),
        Err(refused) => Err(RunError::Plan(refused)),
    }
}

// The agent's plan, by the bytes of a configuration file, with what it asks for of what is handed in.
fn plan_in<K: Drop, B: Drop>(
    alloc: Global,
    bytes: &[u8],
    agent: &str,
    handed: &mut HandedIn<K, B>,
) -> Result<Planned<K, B>, RunError>
    ensures judged { Judges (lacking handed.old)
        bytes.now agent.now result }
    ensures objects { IfOk result (HasItsObjects handed.old handed.new) }
{
    match read_properties(alloc, bytes) {
        Ok(properties) => plan_of_pairs(alloc, &properties, agent, handed),
        Err(refused) => Err(RunError::Text(refused)),
    }
}

// What is printed of a plan.
fn summary(alloc: Global, agent: &str, plan: &Plan) -> Result<String, AllocError>
    ensures { IfOk result (λ text. string_bytes text ≡ plan_line agent.now plan.now) }
{
    let sources = plan.sources.len();
    let channels = plan.channels.len();
    let sinks = plan.sinks.len();
    let groups = plan.groups.len();
    let text = format!(in alloc;
        "{agent}: {sources} sources, {channels} channels, {sinks} sinks, {groups} groups\n"
    )?;
    Ok(text)
}

// Writes a text to standard output.
pub(crate) fn print<H: Host>(host: &mut H, text: &str) -> Result<(), Failed>
    ensures whole { OnOk result (Appends (H.state host.old).output (H.state host.new).output
        text.now) }
    ensures front { Fronts (H.state host.old).output (H.state host.new).output
        (H.state host.old).faults (H.state host.new).faults text.now }
    ensures cause { HasCause (H.state host.old).faults (H.state host.new).faults result }
    ensures handed { OnOk result ((H.state host.new).handed ≡ (H.state host.new).output) }
    ensures rest { IsBeside (H.state host.old) (H.state host.new) }
    ensures folders { H.folders host.new ≡ H.folders host.old }
{
    let mut sink = host.take_output();
    let done = match write_out(&mut sink, text.as_bytes()) {
        Ok(()) => sink.flush(),
        Err(failed) => Err(failed),
    };
    host.keep_output(sink);
    done
}

/// Reads a configuration file, and plans the agent of this name in it, whose interceptors and sinks take the objects that they ask for out
/// of what is handed in. A fault of the file or of the plan is named with its line where it has one; what was not handed in is of unknown type. `Fault` comes
/// only where the host has counted one.
pub fn plan_agent<H: Host, K: Drop, B: Drop>(
    alloc: Global,
    agent: &str,
    file: &str,
    handed: &mut HandedIn<K, B>,
    host: &mut H,
) -> Result<Planned<K, B>, RunError>
    ensures planned { PlansAgent (lacking handed.old)
        ((H.state host.old).files file.now) agent.now
        (H.state host.old) (H.state host.new) result }
    ensures objects { IfOk result (HasItsObjects handed.old handed.new) }
    ensures folders { H.folders host.new ≡ H.folders host.old }
{
    match host.read_file(file) {
        Ok(bytes) => plan_in(alloc, bytes.as_slice(), agent, handed),
        Err(FileRefused::Failed) => Err(RunError::Fault),
        Err(FileRefused::TooLarge { .. }) => Err(RunError::FileTooLarge),
        Err(FileRefused::NoMemory) => Err(RunError::NoMemory),
    }
}

/// `check -n NAME -f FILE`: plans the agent `NAME` of the configuration file `FILE`, and prints how many components it has. The objects
/// that it asks for of what is handed in are dropped.
pub fn check<H: Host, K: Drop, B: Drop>(
    alloc: Global,
    agent: &str,
    file: &str,
    handed: &mut HandedIn<K, B>,
    host: &mut H,
) -> Result<(), RunError>
    ensures checked { Checked (lacking handed.old)
        ((H.state host.old).files file.now) agent.now
        (H.state host.old) (H.state host.new) (end_of result) }
    ensures status { IsCheckStatus (end_of result) }
    ensures folders { H.folders host.new ≡ H.folders host.old }
{
    let planned = plan_agent(alloc, agent, file, handed, host)?;
    let text = summary(alloc, agent, &planned.plan)?;
    match print(host, text.as_str()) {
        Ok(()) => Ok(()),
        Err(_) => Err(RunError::Fault),
    }
}

/// `check -n NAME -f FILE`, and the line on standard error that tells why it ended, unless all went well. It answers the exit
/// status.
pub fn run_check<H: Host, K: Drop, B: Drop>(
    alloc: Global,
    agent: &str,
    file: &str,
    handed: &mut HandedIn<K, B>,
    host: &mut H,
) -> u8
    ensures checked { Checked (lacking handed.old)
        ((H.state host.old).files file.now) agent.now (H.state host.old) (H.state host.new) result }
    ensures status { IsCheckStatus result }
    ensures folders { H.folders host.new ≡ H.folders host.old }
{
    match check(alloc, agent, file, handed, host) {
        Ok(()) => 0,
        Err(error) => {
            say_error(alloc, host, &error);
            error.status()
        }
    }
}
