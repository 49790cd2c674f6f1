//! The plan of an agent.

ghost use Rattle.std.specs.Prelude.{◌≡◌, ℕ, List, OnOk, IfOk, ◌++◌, codes, true, false, nat_eq, drop, map};
ghost use Rattle.std.specs.List.{starts_with};
ghost use Rattle.prop_text.specs.Pairs.{Pair};
ghost use Rattle.prop_text.specs.Views.{texts};
ghost use Rattle.plan_judging.specs.Components.{front_of, names_in};
ghost use Rattle.plan_judging.specs.Agents.{is_agent};
ghost use Rattle.agent_plan.specs.Values.{text_at, line_at, place_of, IsSourceKind, IsSource, IsChannel, SinkWith, processor_of, penalty_of, backoff_of, priority_of, GroupWith, StepNamed, IsSelector, Match};
ghost use Rattle.plan_judging.specs.Rows.{is_type, is_plugin};

use crate::routing::selector;
use crate::stepping::steps;
use crate::values::{
    count_at, line_at, number_at, place_at, places, port_at, str_at, text_at, truth_at,
};
use agent_plan::{
    ChannelKind, ChannelPlan, GroupPlan, Processor, SinkKind, SinkPlan, SourceKind, SourcePlan,
    StepPlan,
};
use indexmap::IndexSet;
use plan_judging::{Agent, Place, front_of, is_plugin, is_type, joined, names_at, plugin_name};
use prop_text::Properties;
use selectors::Selector;
use std::alloc::{AllocError, Global};

fn begins(key: &str, front: &str) -> bool
    ensures { result ≡ starts_with nat_eq key.now front.now }
{
    key.as_bytes().starts_with(front.as_bytes())
}

/// Whether some key begins with the agent's name and a dot.
pub fn is_agent(alloc: Global, properties: &Properties, agent: &str) -> Result<bool, AllocError>
    ensures { IfOk result (λ there. there ≡ is_agent properties.now agent.now) }
{
    let front = joined(alloc, agent, ".")?;
    for at in 0..properties.len() {
        let (key, _, _) = properties.at(at);
        if begins(key, front.as_str()) {
            return Ok(true);
        }
    }
    Ok(false)
}

fn netcat_kind(place: &Place<'_>, kind: &str) -> Result<SourceKind, AllocError>
    requires { is_type (codes "netcat") kind.now ≡ true }
    ensures { IfOk result (IsSourceKind place.now.properties.now place.now.front.now kind.now) }
{
    Ok(SourceKind::Netcat {
        port: port_at(place)?,
        max_line: count_at(place, 1, 1_048_568, 512, "max-line-length")?,
        ack: truth_at(place, true, "ack-every-event")?,
        threads: count_at(place, 1, 64, 4, "threads")?,
        bind: text_at(place, "bind")?,
    })
}

fn avro_kind(place: &Place<'_>, kind: &str) -> Result<SourceKind, AllocError>
    requires netcat { is_type (codes "netcat") kind.now ≡ false }
    requires kind { is_type (codes "avro") kind.now ≡ true }
    ensures { IfOk result (IsSourceKind place.now.properties.now place.now.front.now kind.now) }
{
    Ok(SourceKind::Avro {
        port: port_at(place)?,
        threads: count_at(place, 1, 64, 4, "threads")?,
        bind: text_at(place, "bind")?,
    })
}

fn source_kind(place: &Place<'_>, kind: &str) -> Result<SourceKind, AllocError>
    ensures { IfOk result (IsSourceKind place.now.properties.now place.now.front.now kind.now) }
{
    if is_type(kind, "netcat") {
        return netcat_kind(place, kind);
    }
    if is_type(kind, "avro") {
        return avro_kind(place, kind);
    }
    Ok(SourceKind::Stdin {
        max_line: count_at(place, 1, 1_048_568, 512, "max-line-length")?,
        ack: truth_at(place, true, "ack-every-event")?,
    })
}

// The interceptors of a source.
fn steps_at(place: &Place<'_>) -> Result<Vec<StepPlan>, AllocError>
    ensures { IfOk result (λ found. Match (StepNamed place.now.properties.now place.now.front.now)
        (names_in place.now.properties.now (place.now.front.now ++ codes "interceptors"))
        found.items) }
{
    let names = names_at(place, "interceptors")?;
    steps(place, names.as_slice())
}

// The selector of a source with these channels.
fn selector_at(place: &Place<'_>, channels: &IndexSet<&str>) -> Result<Selector, AllocError>
    ensures { IfOk result (IsSelector place.now.properties.now
        (place.now.front.now ++ codes "selector.") (texts channels.now.keys)) }
{
    let front = joined(place.alloc, place.front, "selector.")?;
    let place = Place {
        alloc: place.alloc,
        properties: place.properties,
        front: front.as_str(),
    };
    selector(&place, channels)
}

// The keys of a source's type.
fn kind_at(place: &Place<'_>) -> Result<SourceKind, AllocError>
    ensures { IfOk result (IsSourceKind place.now.properties.now place.now.front.now
        (text_at place.now.properties.now (place.now.front.now ++ codes "type"))) }
{
    source_kind(place, str_at(place, "type")?)
}

// The source of these keys and interceptors.
fn source_with(
    place: &Place<'_>,
    channels: &IndexSet<&str>,
    chosen: &IndexSet<&str>,
    name: &str,
    line: u32,
    kind: SourceKind,
    steps: Vec<StepPlan>,
) -> Result<SourcePlan, AllocError>
    requires chosen { texts chosen.now.keys ≡ names_in place.now.properties.now
        (place.now.front.now ++ codes "channels") }
    requires line { line ≡ line_at place.now.properties.now (place.now.front.now ++ codes "type") }
    requires kind { IsSourceKind place.now.properties.now place.now.front.now
        (text_at place.now.properties.now (place.now.front.now ++ codes "type")) kind }
    requires steps { Match (StepNamed place.now.properties.now place.now.front.now)
        (names_in place.now.properties.now (place.now.front.now ++ codes "interceptors"))
        steps.items }
    ensures { IfOk result (IsSource place.now.properties.now place.now.front.now
        (texts channels.now.keys) name.now) }
{
    Ok(SourcePlan {
        line,
        kind,
        steps,
        channels: places(place.alloc, channels, chosen.as_slice())?,
        selector: selector_at(place, chosen)?,
        name: String::from_str(place.alloc, name)?,
    })
}

fn source_at(
    place: &Place<'_>,
    channels: &IndexSet<&str>,
    chosen: &IndexSet<&str>,
    name: &str,
) -> Result<SourcePlan, AllocError>
    requires { texts chosen.now.keys ≡ names_in place.now.properties.now
        (place.now.front.now ++ codes "channels") }
    ensures { IfOk result (IsSource place.now.properties.now place.now.front.now
        (texts channels.now.keys) name.now) }
{
    let line = line_at(place, "type")?;
    let kind = kind_at(place)?;
    let steps = steps_at(place)?;
    source_with(place, channels, chosen, name, line, kind, steps)
}

fn memory_channel(place: &Place<'_>, name: &str) -> Result<ChannelPlan, AllocError>
    requires { is_type (codes "memory") (text_at place.now.properties.now
        (place.now.front.now ++ codes "type")) ≡ true }
    ensures { IfOk result (IsChannel place.now.properties.now place.now.front.now name.now) }
{
    Ok(ChannelPlan {
        line: line_at(place, "type")?,
        kind: ChannelKind::Memory,
        capacity: count_at(place, 1, 10_000_000, 100, "capacity")?,
        txn_capacity: count_at(place, 1, 100_000, 100, "transactionCapacity")?,
        name: String::from_str(place.alloc, name)?,
    })
}

fn file_channel(place: &Place<'_>, name: &str) -> Result<ChannelPlan, AllocError>
    requires { is_type (codes "memory") (text_at place.now.properties.now
        (place.now.front.now ++ codes "type")) ≡ false }
    ensures { IfOk result (IsChannel place.now.properties.now place.now.front.now name.now) }
{
    Ok(ChannelPlan {
        line: line_at(place, "type")?,
        capacity: count_at(place, 1, 10_000_000, 1_000_000, "capacity")?,
        txn_capacity: count_at(place, 1, 100_000, 10_000, "transactionCapacity")?,
        kind: ChannelKind::File {
            max_file: number_at(place, 4096, 2_146_435_071, 2_146_435_071, "maxFileSize")?,
            interval: count_at(place, 1000, 86_400_000, 30_000, "checkpointInterval")?,
            on_close: truth_at(place, true, "checkpointOnClose")?,
            folder: text_at(place, "dataDirs")?,
        },
        name: String::from_str(place.alloc, name)?,
    })
}

fn avro_sink(place: &Place<'_>, channel: u32, name: &str) -> Result<SinkPlan, AllocError>
    requires kind { is_type (codes "avro") (text_at place.now.properties.now
        (place.now.front.now ++ codes "type")) ≡ true }
    ensures { IfOk result (λ sink. SinkWith place.now.properties.now place.now.front.now channel
        name.now sink) }
{
    Ok(SinkPlan {
        line: line_at(place, "type")?,
        channel,
        batch: count_at(place, 1, 10_000, 100, "batch-size")?,
        kind: SinkKind::Avro {
            port: port_at(place)?,
            host: text_at(place, "hostname")?,
        },
        name: String::from_str(place.alloc, name)?,
    })
}

fn roll_sink(place: &Place<'_>, channel: u32, name: &str) -> Result<SinkPlan, AllocError>
    requires other { is_type (codes "avro") (text_at place.now.properties.now
        (place.now.front.now ++ codes "type")) ≡ false }
    requires kind { is_type (codes "file_roll") (text_at place.now.properties.now
        (place.now.front.now ++ codes "type")) ≡ true }
    ensures { IfOk result (λ sink. SinkWith place.now.properties.now place.now.front.now channel
        name.now sink) }
{
    Ok(SinkPlan {
        line: line_at(place, "type")?,
        channel,
        batch: count_at(place, 1, 10_000, 100, "sink.batchSize")?,
        kind: SinkKind::Roll {
            interval: count_at(place, 0, 4_294_967_295, 30, "sink.rollInterval")?,
            folder: text_at(place, "sink.directory")?,
        },
        name: String::from_str(place.alloc, name)?,
    })
}

fn plugin_sink(
    place: &Place<'_>,
    channel: u32,
    name: &str,
    kind: &str,
) -> Result<SinkPlan, AllocError>
    requires same { kind.now ≡ text_at place.now.properties.now
        (place.now.front.now ++ codes "type") }
    requires avro { is_type (codes "avro") kind.now ≡ false }
    requires roll { is_type (codes "file_roll") kind.now ≡ false }
    requires kind { is_plugin kind.now ≡ true }
    ensures { IfOk result (λ sink. SinkWith place.now.properties.now place.now.front.now channel
        name.now sink) }
{
    Ok(SinkPlan {
        line: line_at(place, "type")?,
        channel,
        batch: 100,
        kind: SinkKind::Plugin {
            name: String::from_str(place.alloc, plugin_name(kind))?,
        },
        name: String::from_str(place.alloc, name)?,
    })
}

fn null_sink(place: &Place<'_>, channel: u32, name: &str) -> Result<SinkPlan, AllocError>
    requires avro { is_type (codes "avro") (text_at place.now.properties.now
        (place.now.front.now ++ codes "type")) ≡ false }
    requires roll { is_type (codes "file_roll") (text_at place.now.properties.now
        (place.now.front.now ++ codes "type")) ≡ false }
    requires plugin { is_plugin (text_at place.now.properties.now
        (place.now.front.now ++ codes "type")) ≡ false }
    ensures { IfOk result (λ sink. SinkWith place.now.properties.now place.now.front.now channel
        name.now sink) }
{
    Ok(SinkPlan {
        line: line_at(place, "type")?,
        kind: SinkKind::Null,
        channel,
        batch: count_at(place, 1, 10_000, 100, "batchSize")?,
        name: String::from_str(place.alloc, name)?,
    })
}

fn sink_at(place: &Place<'_>, channel: u32, name: &str) -> Result<SinkPlan, AllocError>
    ensures { IfOk result (λ sink. SinkWith place.now.properties.now place.now.front.now channel
        name.now sink) }
{
    let kind = str_at(place, "type")?;
    if is_type(kind, "avro") {
        return avro_sink(place, channel, name);
    }
    if is_type(kind, "file_roll") {
        return roll_sink(place, channel, name);
    }
    if is_plugin(kind) {
        return plugin_sink(place, channel, name, kind);
    }
    null_sink(place, channel, name)
}

fn processor(place: &Place<'_>, kind: &str) -> Result<Processor, AllocError>
    ensures { IfOk result (λ processor. processor ≡ processor_of place.now.properties.now
        place.now.front.now kind.now) }
{
    if is_type(kind, "failover") {
        return Ok(Processor::Failover);
    }
    if !is_type(kind, "load_balance") {
        return Ok(Processor::Single);
    }
    if str_at(place, "processor.selector")? == "random" {
        Ok(Processor::Random)
    } else {
        Ok(Processor::RoundRobin)
    }
}

fn penalty(place: &Place<'_>, kind: &str) -> Result<u64, AllocError>
    ensures { IfOk result (λ penalty. penalty ≡ penalty_of place.now.properties.now
        place.now.front.now kind.now) }
{
    if is_type(kind, "failover") {
        return number_at(place, 0, u64::MAX, 30_000, "processor.maxpenalty");
    }
    if is_type(kind, "load_balance") {
        return number_at(place, 0, u64::MAX, 30_000, "processor.selector.maxTimeOut");
    }
    Ok(30_000)
}

fn backoff(place: &Place<'_>, kind: &str) -> Result<bool, AllocError>
    ensures { IfOk result (λ on. on ≡ backoff_of place.now.properties.now place.now.front.now
        kind.now) }
{
    if is_type(kind, "load_balance") {
        truth_at(place, false, "processor.backoff")
    } else {
        Ok(false)
    }
}

fn priority(place: &Place<'_>, kind: &str, member: &str) -> Result<u32, AllocError>
    ensures { IfOk result (λ priority. priority ≡ priority_of place.now.properties.now
        place.now.front.now kind.now member.now) }
{
    if !is_type(kind, "failover") {
        return Ok(0);
    }
    let front = joined(place.alloc, place.front, "processor.priority.")?;
    let priorities = Place {
        alloc: place.alloc,
        properties: place.properties,
        front: front.as_str(),
    };
    Ok(count_at(&priorities, 0, 4_294_967_295, 0, member)?)
}

fn priorities(place: &Place<'_>, kind: &str, members: &[&str]) -> Result<Vec<u32>, AllocError>
    ensures { IfOk result (λ found. found.items ≡ map (priority_of place.now.properties.now
        place.now.front.now kind.now) (texts members.now)) }
{
    let mut found = Vec::new(place.alloc);
    for member in members {
        found.push(priority(place, kind, member)?)?;
    }
    Ok(found)
}

// The group of a processor's type.
fn group_with(
    place: &Place<'_>,
    sinks: &IndexSet<&str>,
    members: &[&str],
    name: &str,
    kind: &str,
) -> Result<GroupPlan, AllocError>
    requires { kind.now ≡ text_at place.now.properties.now
        (place.now.front.now ++ codes "processor.type") }
    ensures { IfOk result (GroupWith place.now.properties.now place.now.front.now
        (texts sinks.now.keys) (texts members.now) name.now) }
{
    Ok(GroupPlan {
        processor: processor(place, kind)?,
        penalty: penalty(place, kind)?,
        backoff: backoff(place, kind)?,
        priorities: priorities(place, kind, members)?,
        sinks: places(place.alloc, sinks, members)?,
        name: String::from_str(place.alloc, name)?,
    })
}

/// The plan of a component: how the keys of such a component begin, and what is planned by them.
pub trait ComponentPlan: Drop {
    // what stands between the agent's name and the component's
    ghost between: { List ℕ };

    // Whether a plan is that of the component of a name, whose keys begin so: of the pairs, with the
    // names of the components that it may refer to.
    ghost is_plan: { List Pair → List (List ℕ) → List ℕ → List ℕ → Self → Type 0 };

    /// What stands between the agent's name and the component's.
    fn infix() -> &'static str
        ensures { result.now ≡ between };

    /// The plan of the component of these keys, which may refer to others.
    fn plan_at(place: &Place<'_>, others: &IndexSet<&str>, name: &str) -> Result<Self, AllocError>
        ensures { IfOk result (is_plan place.now.properties.now (texts others.now.keys)
            place.now.front.now name.now) };
}

impl ComponentPlan for SourcePlan {
    ghost between = { codes ".sources." };

    ghost is_plan = { λ pairs channels at name plan. IsSource pairs at channels name plan };

    fn infix() -> &'static str {
        ".sources."
    }

    fn plan_at(
        place: &Place<'_>,
        channels: &IndexSet<&str>,
        name: &str,
    ) -> Result<SourcePlan, AllocError> {
        let chosen = names_at(place, "channels")?;
        source_at(place, channels, &chosen, name)
    }
}

impl ComponentPlan for ChannelPlan {
    ghost between = { codes ".channels." };

    ghost is_plan = { λ pairs others at name plan. IsChannel pairs at name plan };

    fn infix() -> &'static str {
        ".channels."
    }

    fn plan_at(
        place: &Place<'_>,
        _others: &IndexSet<&str>,
        name: &str,
    ) -> Result<ChannelPlan, AllocError> {
        if is_type(str_at(place, "type")?, "memory") {
            memory_channel(place, name)
        } else {
            file_channel(place, name)
        }
    }
}

impl ComponentPlan for SinkPlan {
    ghost between = { codes ".sinks." };

    ghost is_plan = { λ pairs channels at name plan. SinkWith pairs at
        (place_of channels (text_at pairs (at ++ codes "channel"))) name plan };

    fn infix() -> &'static str {
        ".sinks."
    }

    fn plan_at(
        place: &Place<'_>,
        channels: &IndexSet<&str>,
        name: &str,
    ) -> Result<SinkPlan, AllocError> {
        let channel = place_at(channels, str_at(place, "channel")?)?;
        sink_at(place, channel, name)
    }
}

impl ComponentPlan for GroupPlan {
    ghost between = { codes ".sinkgroups." };

    ghost is_plan = { λ pairs sinks at name plan. GroupWith pairs at sinks
        (names_in pairs (at ++ codes "sinks")) name plan };

    fn infix() -> &'static str {
        ".sinkgroups."
    }

    fn plan_at(
        place: &Place<'_>,
        sinks: &IndexSet<&str>,
        name: &str,
    ) -> Result<GroupPlan, AllocError> {
        let members = names_at(place, "sinks")?;
        let kind = str_at(place, "processor.type")?;
        group_with(place, sinks, members.as_slice(), name, kind)
    }
}

// The plan of the component of a name.
fn plan_one<P: ComponentPlan>(
    agent: &Agent<'_>,
    others: &IndexSet<&str>,
    name: &str,
) -> Result<P, AllocError>
    ensures { IfOk result (P.is_plan agent.now.properties.now (texts others.now.keys)
        (front_of agent.now.name.now P.between name.now) name.now) }
{
    let front = front_of(agent.alloc, agent.name, P::infix(), name)?;
    let place = Place {
        alloc: agent.alloc,
        properties: agent.properties,
        front: front.as_str(),
    };
    P::plan_at(&place, others, name)
}

/// The plans of the components of these names, which may refer to others by theirs.
pub fn plan_each<P: ComponentPlan>(
    agent: &Agent<'_>,
    others: &IndexSet<&str>,
    names: &[&str],
) -> Result<Vec<P>, AllocError>
    ensures { IfOk result (λ plans. Match (λ name. P.is_plan agent.now.properties.now
        (texts others.now.keys) (front_of agent.now.name.now P.between name) name)
        (texts names.now) plans.items) }
{
    let mut plans = Vec::new(agent.alloc);
    for name in names {
        plans.push(plan_one(agent, others, name)?)?;
    }
    Ok(plans)
}

/// The names of an agent's components.
#[derive(Drop)]
pub struct AgentNames<'a> {
    pub sources: IndexSet<&'a str>,
    pub channels: IndexSet<&'a str>,
    pub sinks: IndexSet<&'a str>,
    pub groups: IndexSet<&'a str>,
}
