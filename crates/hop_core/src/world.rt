// The world, and what a step does in it.
ghost use Rattle.std.specs.Prelude.{◌≡◌, is_some, IfOk, OnOk, OnErr};
ghost use Rattle.world_laws.specs.Steps as Steps;
ghost use Rattle.world_laws.specs.Steps.{happens, next, at, if_fresh, offered, quietly, is_fresh};
ghost use Rattle.world_laws.specs.Held.{AcknowledgedIsStored, AttemptsAgree, Held, NumbersAreLeftOrTaken, PacketsAgree, TakesAreDelivered, WorksAgree};
ghost use Rattle.world_laws.specs.New.{IsNew};
ghost use Rattle.hop_core.specs.Did.{Did};
ghost use Rattle.hop_core.specs.Labels.{node_step, step_of};
ghost use Rattle.hop_core.specs.Start.{new_world};

use crate::lists::push_within;
use crate::node::Node;
use crate::packets::{Body, Packet, Tag};
use crate::plan::{HopStep, WorldPlan};
use event_core::{Batch, NoMemory};
use std::alloc::Global;
use std::marker::Model;
use world_laws::{each_step_keeps_the_accounting, new_is_held};

/// Agents, and all packets that were ever sent.
#[derive(Drop)]
pub struct World {
    nodes: Vec<Node>,
    sent: Vec<Packet>,
}

impl Model for World {
    ghost use Rattle.world_laws.specs.World.{World};

    ghost Value = { World };

    ghost view = { λ w. record { nodes = w.nodes.items; sent = w.sent.items } };
}

impl World {
    // The world of the plan, node by node.
    fn made(alloc: Global, plan: WorldPlan) -> Result<World, NoMemory>
        ensures { IfOk result (λ w. w ≡ new_world plan) }
    {
        let WorldPlan { nodes } = plan;
        let mut made = Vec::with_capacity(alloc, nodes.len())?;
        for node in nodes {
            made.push(Node::new(alloc, node)?)?;
        }
        Ok(World {
            nodes: made,
            sent: Vec::new(alloc),
        })
    }

    /// The world of the plan: new channels and nothing else. The delivery accounting holds in it. The plan may be any; where a
    /// selector names a channel that isn't there, a batch is acknowledged without it.
    pub fn new(alloc: Global, plan: WorldPlan) -> Result<World, NoMemory>
        ensures new { IfOk result (λ w. w ≡ new_world plan) }
        ensures begins { IfOk result IsNew }
        ensures held { IfOk result Held }
    {
        new_is_held();
        World::made(alloc, plan)
    }

    /// Its nodes.
    pub fn nodes(&self) -> &[Node]
        ensures { result.now ≡ self.now.nodes }
    {
        &self.nodes
    }

    /// All packets that were ever sent.
    pub fn sent(&self) -> &[Packet]
        ensures { result.now ≡ self.now.sent }
    {
        &self.sent
    }

    // Whether no request has this tag.
    fn is_fresh(&self, tag: Tag) -> bool
        ensures { result ≡ is_fresh tag self.now.sent }
    {
        for packet in &self.sent {
            if packet.is_request_of(tag) {
                return false;
            }
        }
        true
    }

    // A request comes from outside.
    fn offer(&mut self, node: u32, tag: Tag, batch: &Batch) -> Result<bool, NoMemory>
        ensures { Did (happens self.old (Steps.Offer node tag batch.now)) self.old result self.new }
    {
        if node as usize >= self.nodes.len() || !self.is_fresh(tag) {
            return Ok(false);
        }
        let batch = batch.copy()?;
        self.sent.push(Packet {
            node,
            tag,
            body: Body::Request { batch },
        })?;
        Ok(true)
    }

    // A request that was sent comes to its node.
    fn deliver(&mut self, packet: u64, made: &Batch) -> Result<bool, NoMemory>
        ensures { Did (happens self.old (Steps.Deliver packet made.now)) self.old result self.new }
    {
        let number = packet as usize;
        if number >= self.sent.len() {
            return Ok(false);
        }
        let packet = &self.sent[number];
        let Body::Request { batch } = &packet.body else {
            return Ok(false);
        };
        let place = packet.node as usize;
        if place >= self.nodes.len() {
            return Ok(false);
        }
        self.nodes[place].begin_work(packet.tag, batch, made)
    }

    // A work is acknowledged, and its reply is sent.
    fn acknowledge(&mut self, node: u32, work: u64) -> Result<bool, NoMemory>
        ensures { Did (happens self.old (Steps.Acknowledge node work)) self.old result self.new }
    {
        let place = node as usize;
        if place >= self.nodes.len() {
            return Ok(false);
        }
        self.sent.reserve(1)?;
        let Some(reply) = self.nodes[place].acknowledge(node, work)? else {
            return Ok(false);
        };
        push_within(&mut self.sent, reply);
        Ok(true)
    }

    // An attempt is sent.
    fn send(&mut self, node: u32, attempt: u64, to: u32, tag: Tag) -> Result<bool, NoMemory>
        ensures { Did (happens self.old (Steps.Send node attempt to tag)) self.old result self.new }
    {
        let place = node as usize;
        if place >= self.nodes.len() || !self.is_fresh(tag) {
            return Ok(false);
        }
        self.sent.reserve(1)?;
        let Some(request) = self.nodes[place].send(attempt, to, tag)? else {
            return Ok(false);
        };
        push_within(&mut self.sent, request);
        Ok(true)
    }

    // A reply that was sent comes to an attempt.
    fn reply(&mut self, node: u32, attempt: u64, packet: u64) -> Result<bool, NoMemory>
        ensures { Did (happens self.old (Steps.Reply node attempt packet))
            self.old result self.new }
    {
        let number = packet as usize;
        let place = node as usize;
        if number >= self.sent.len() || place >= self.nodes.len() {
            return Ok(false);
        }
        let packet = &self.sent[number];
        let Body::Reply { place: at } = &packet.body else {
            return Ok(false);
        };
        self.nodes[place].replied(attempt, packet.tag, packet.node, *at)
    }

    // A step of one node that sends nothing.
    fn at(&mut self, node: u32, step: &HopStep) -> Result<bool, NoMemory>
        ensures { Did (at self.old node (λ n. quietly (node_step step.now n)))
            self.old result self.new }
    {
        let place = node as usize;
        if place >= self.nodes.len() {
            return Ok(false);
        }
        self.nodes[place].apply(step)
    }

    // Takes the step where it can be taken, and answers whether it can.
    fn take_step(&mut self, step: &HopStep) -> Result<bool, NoMemory>
        ensures { Did (happens self.old (step_of step.now)) self.old result self.new }
    {
        match step {
            HopStep::Offer {
                node,
                connection,
                serial,
                batch,
            } => {
                let tag = Tag {
                    connection: *connection,
                    serial: *serial,
                };
                self.offer(*node, tag, batch)
            }
            HopStep::Deliver { packet, made } => self.deliver(*packet, made),
            HopStep::Acknowledge { node, work } => self.acknowledge(*node, *work),
            HopStep::Send {
                node,
                attempt,
                to,
                connection,
                serial,
            } => {
                let tag = Tag {
                    connection: *connection,
                    serial: *serial,
                };
                self.send(*node, *attempt, *to, tag)
            }
            HopStep::Reply {
                node,
                attempt,
                packet,
            } => self.reply(*node, *attempt, *packet),
            HopStep::Accept {
                node,
                work: _,
                channel: _,
            } => self.at(*node, step),
            HopStep::Flush {
                node,
                channel: _,
                done: _,
            } => self.at(*node, step),
            HopStep::Take {
                node,
                channel: _,
                attempt: _,
            } => self.at(*node, step),
            HopStep::Output { node, attempt: _ } => self.at(*node, step),
            HopStep::Commit { node, attempt: _ } => self.at(*node, step),
            HopStep::Aside {
                node,
                channel: _,
                events: _,
            } => self.at(*node, step),
            HopStep::Mend {
                node,
                channel: _,
                kept: _,
            } => self.at(*node, step),
            HopStep::EndAttempt { node, attempt: _ } => self.at(*node, step),
            HopStep::EndWork { node, work: _ } => self.at(*node, step),
            HopStep::Fail { node, channel: _ } => self.at(*node, step),
            HopStep::Restart { node, kept: _ } => self.at(*node, step),
        }
    }

    /// Takes the step where it can be taken, and answers whether it can. A step that can't be taken changes nothing, and nor does
    /// one for which there was no memory.
    ///
    /// Where the delivery accounting holds, it holds afterwards, part by part: what is acknowledged is stored, takes are
    /// delivered, each number is left or was taken once, and packets, attempts and works agree. In a new world it holds
    /// (`World::new`), so it holds after every list of steps (`world_laws::every_run_keeps_the_accounting`).
    pub fn apply(&mut self, step: &HopStep) -> Result<bool, NoMemory>
        ensures taken { IfOk result (λ taken.
            taken ≡ is_some (happens self.old (step_of step.now))) }
        ensures new { OnOk result (self.new ≡ next self.old (happens self.old (step_of step.now))) }
        ensures same { OnErr result (self.new ≡ self.old) }
        ensures acknowledged { Held self.old → AcknowledgedIsStored self.new }
        ensures delivered { Held self.old → TakesAreDelivered self.new }
        ensures numbers { Held self.old → NumbersAreLeftOrTaken self.new }
        ensures packets { Held self.old → PacketsAgree self.new }
        ensures attempts { Held self.old → AttemptsAgree self.new }
        ensures works { Held self.old → WorksAgree self.new }
        ensures held { Held self.old → Held self.new }
    {
        each_step_keeps_the_accounting();
        self.take_step(step)
    }
}
