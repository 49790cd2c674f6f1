// The sinks of an agent are opened.
ghost use Rattle.std.specs.Prelude.{◌≡◌, [], IfErr, IfOk, OnErr, OnOk, length, reverse};
ghost use Rattle.plan_objects.specs.Asks.{HasObject, HaveObjects};
ghost use Rattle.agent_outside.specs.Backs.{RollsOut};
ghost use Rattle.agent_outside.specs.Dials.{DialersOut, DialsOpened, DialsRefused, HasNewDial, dial_of};
ghost use Rattle.agent_outside.specs.Sinks.{AreBoxed, IsBoxed, IsNew, IsOfKind, SinkAdded, SinkUnopened};
ghost use Rattle.agent_outside.specs.Sinks.{SinksOpened, SinksRefused, back_of, first_of, rest_of};

use crate::give::{give_back_sink, give_back_sinks};
use agent_plan::{SinkKind, SinkPlan};
use agent_sinks::AgentSink;
use avro_ends::{AvroSink, HasDialer};
use flume_host::{Host, NameRefused, NoMemory};
use roll_sink::RollSink;
use sink_runner::NullSink;
use std::alloc::Global;

// Takes the first object out of a list that has the last first.
fn next_object<B: Drop>(objects: &mut Vec<Option<B>>) -> Option<B>
    ensures first { result ≡ first_of (reverse objects.old.items) }
    ensures rest { reverse objects.new.items ≡ rest_of (reverse objects.old.items) }
{
    match objects.pop() {
        Some(object) => object,
        None => None,
    }
}

// Opens the sink of a plan, or takes the object that it asks for: the first, where the list has the last first.
fn open_sink<H: Host, B: Drop>(
    alloc: Global,
    host: &mut H,
    plan: &SinkPlan,
    objects: &mut Vec<Option<B>>,
) -> Result<AgentSink<H::Roll, AvroSink<H::Dialer>, B>, NameRefused>
    requires have { HasObject plan.now.kind (first_of (reverse objects.old.items)) }
    ensures of { IfOk result (λ sink. IsOfKind (H.folders host.new) plan.now.kind sink) }
    ensures made { IfOk result (λ sink. IsNew H.Roll.faults plan.now.kind sink) }
    ensures boxed { IfOk result (λ sink.
        IsBoxed plan.now.kind (first_of (reverse objects.old.items)) sink) }
    ensures rest { reverse objects.new.items ≡ rest_of (reverse objects.old.items) }
    ensures out { IfOk result (λ sink. RollsOut (back_of H.Roll.rolled plan.now.kind sink)
        (H.folders host.old) (H.folders host.new)) }
    ensures dialed { IfOk result (λ sink. HasNewDial ⟦<AvroSink<H::Dialer> as HasDialer>⟧.dial
        (H.state host.old).dialers plan.now.kind sink) }
    ensures dials { OnOk result (DialersOut (dial_of plan.now.kind) (H.state host.old)
        (H.state host.new)) }
    ensures folders { OnErr result (H.folders host.new ≡ H.folders host.old) }
    ensures refused { IfErr result (λ refused. DialsRefused refused [] (H.state host.old)
        (H.state host.new)) }
{
    let object = next_object(objects);
    match &plan.kind {
        SinkKind::Null => Ok(AgentSink::Null(NullSink)),
        SinkKind::Roll { folder, interval } => match host.open_roll(folder.as_str()) {
            Ok(dir) => Ok(AgentSink::Roll(RollSink::new(alloc, dir, *interval))),
            Err(refused) => Err(refused),
        },
        SinkKind::Avro {
            host: address,
            port,
        } => match host.dialer(address.as_str(), *port) {
            Ok(dialer) => match AvroSink::new(alloc, dialer) {
                Ok(sink) => Ok(AgentSink::Avro(sink)),
                Err(_) => unreachable!(),
            },
            Err(NoMemory) => Err(NameRefused::NoMemory),
        },
        SinkKind::Plugin { .. } => match object {
            Some(object) => Ok(AgentSink::Boxed(object)),
            None => unreachable!(),
        },
    }
}

// Opens the sink of a plan, and adds it to those that are open. Where there is no memory for that, it is given back.
fn add_sink<H: Host, B: Drop>(
    alloc: Global,
    host: &mut H,
    plan: &SinkPlan,
    objects: &mut Vec<Option<B>>,
    sinks: &mut Vec<AgentSink<H::Roll, AvroSink<H::Dialer>, B>>,
) -> Result<(), NameRefused>
    requires have { HasObject plan.now.kind (first_of (reverse objects.old.items)) }
    ensures rest { reverse objects.new.items ≡ rest_of (reverse objects.old.items) }
    ensures added { OnOk result (SinkAdded H.Roll.rolled H.Roll.faults
        ⟦<AvroSink<H::Dialer> as HasDialer>⟧.dial plan.now
        (first_of (reverse objects.old.items)) (H.state host.old).dialers
        (H.folders host.old) (H.folders host.new) sinks.old.items sinks.new.items) }
    ensures dials { OnOk result (DialersOut (dial_of plan.now.kind) (H.state host.old)
        (H.state host.new)) }
    ensures same { OnErr result (sinks.new.items ≡ sinks.old.items) }
    ensures refused { IfErr result (λ refused. SinkUnopened plan.now refused
        (H.folders host.old) (H.folders host.new) (H.state host.old) (H.state host.new)) }
{
    let sink = match open_sink(alloc, host, plan, objects) {
        Ok(sink) => sink,
        Err(refused) => return Err(refused),
    };
    match sinks.push(sink) {
        Ok(()) => Ok(()),
        Err(refused) => {
            give_back_sink(host, plan, refused.value);
            Err(NameRefused::NoMemory)
        }
    }
}

/// Opens the sinks of these plans, in their order: a sink of rolled files opens its folder, one of Avro has a dialer, and one that was
/// handed in is the object at its place, where the list of these has that of the last plan first. At a refusal all that was opened is
/// given back, the last first, and objects are dropped; `Failed` comes only where the host has counted a fault.
pub fn open_sinks<H: Host, B: Drop>(
    alloc: Global,
    host: &mut H,
    plans: &[SinkPlan],
    objects: Vec<Option<B>>,
) -> Result<Vec<AgentSink<H::Roll, AvroSink<H::Dialer>, B>>, NameRefused>
    requires { HaveObjects plans.now (reverse objects.items) }
    ensures many { IfOk result (λ sinks. length sinks.items ≡ length plans.now) }
    ensures opened { IfOk result (λ sinks. SinksOpened H.Roll.rolled H.Roll.faults plans.now
        (H.folders host.old) (H.folders host.new) sinks.items) }
    ensures dialed { IfOk result (λ sinks. DialsOpened ⟦<AvroSink<H::Dialer> as HasDialer>⟧.dial
        plans.now (H.state host.old) (H.state host.new) sinks.items) }
    ensures boxed { IfOk result (λ sinks. AreBoxed plans.now (reverse objects.items) sinks.items) }
    ensures refused { IfErr result (λ refused. SinksRefused plans.now refused
        (H.folders host.old) (H.folders host.new) (H.state host.old) (H.state host.new)) }
{
    let mut sinks = Vec::new(alloc);
    let mut objects = objects;
    for plan in plans {
        if let Err(refused) = add_sink(alloc, host, plan, &mut objects, &mut sinks) {
            give_back_sinks(host, plans, sinks);
            return Err(refused);
        }
    }
    Ok(sinks)
}
