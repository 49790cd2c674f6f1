// A node of the world, and what it does in a step.
ghost use Rattle.std.specs.Prelude.{◌≡◌, IfOk, option_map, slice_get};
ghost use Rattle.world_laws.specs.Steps.{accept, acknowledge, is_below, are_settled, begin_work, commit, end_attempt, is_passed_by, mend, output, replied, restart, send, take_from, begin_take, take_one, end_work, on_channel};
ghost use Rattle.world_laws.specs.Channels.{all_reopened, aside, failed, flushed};
ghost use Rattle.hop_core.specs.Did.{Did, Sent};
ghost use Rattle.hop_core.specs.Done.{is_done};
ghost use Rattle.hop_core.specs.Labels.{node_step};
ghost use Rattle.hop_core.specs.Start.{new_node};

use crate::channel::NodeChannel;
use crate::lists::{clear, end, end_all, is_among, live, push_within};
use crate::packets::{Body, Delivery, Packet, Tag};
use crate::plan::{HopStep, WorldNode};
use crate::selector::share;
use crate::work::{
    EntryName, OpenAttempt, Work, add_event, end_attempts, end_works, set_delivery, set_entries,
    set_tag,
};
use event_core::{Batch, Event, NoMemory};
use hop_attempt::Decision;
use std::alloc::Global;
use std::marker::Model;

/// An agent.
#[derive(Drop)]
pub struct Node {
    pub required: Vec<(Event, Vec<u32>)>,
    pub channels: Vec<NodeChannel>,
    pub acks: Vec<Work>,
    pub outputs: Vec<Batch>,
    pub works: Vec<Option<Work>>,
    pub attempts: Vec<Option<OpenAttempt>>,
    alloc: Global,
}

impl Model for Node {
    ghost use Rattle.world_laws.specs.World.{Node};
    ghost use Rattle.std.specs.Prelude.{map};

    ghost Value = { Node };

    ghost view = { λ n. record {
      required = map (λ pair. (pair.0, pair.1.items)) n.required.items;
      channels = n.channels.items;
      acks = n.acks.items;
      outputs = n.outputs.items;
      works = n.works.items;
      attempts = n.attempts.items;
    } };
}

impl Node {
    /// A node with new channels and nothing else.
    pub(crate) fn new(alloc: Global, plan: WorldNode) -> Result<Node, NoMemory>
        ensures { IfOk result (λ node. node ≡ new_node plan) }
    {
        let WorldNode { channels, required } = plan;
        let mut made = Vec::with_capacity(alloc, channels.len())?;
        for channel in channels {
            made.push(NodeChannel::new(alloc, channel)?)?;
        }
        Ok(Node {
            required,
            channels: made,
            acks: Vec::new(alloc),
            outputs: Vec::new(alloc),
            works: Vec::new(alloc),
            attempts: Vec::new(alloc),
            alloc,
        })
    }

    /// Begins a work with a request's batch, and the events that the interceptors made of it.
    pub(crate) fn begin_work(
        &mut self,
        tag: Tag,
        batch: &Batch,
        made: &Batch,
    ) -> Result<bool, NoMemory>
        ensures { Did (begin_work tag batch.now made.now self.old) self.old result self.new }
    {
        let work = Work {
            batch: batch.copy()?,
            tag,
            made: made.copy()?,
            entries: Vec::new(self.alloc),
        };
        self.works.push(Some(work))?;
        Ok(true)
    }

    // A channel that the work hasn't passed stages its share, or the work ends refused.
    fn accept(&mut self, number: u64, channel: u32) -> Result<bool, NoMemory>
        ensures { Did (accept number channel self.old) self.old result self.new }
    {
        let place = channel as usize;
        let Some(work) = live(&self.works, number) else {
            return Ok(false);
        };
        if place >= self.channels.len() || work.is_passed(u64::from(channel)) {
            return Ok(false);
        }
        let events = share(self.alloc, &self.required, &work.made, u64::from(channel))?;
        if events.is_empty() {
            return Ok(false);
        }
        let entries = work.entries_and(channel, self.channels[place].commit_count())?;
        match self.channels[place].stored(&events)? {
            Some(new) => {
                self.channels[place] = new;
                set_entries(&mut self.works, number, entries);
                Ok(true)
            }
            None => {
                clear(&mut self.works, number);
                Ok(true)
            }
        }
    }

    // Whether the work has passed each channel that has to take some of its events.
    fn is_passed_by(&self, work: &Work) -> Result<bool, NoMemory>
        ensures { IfOk result (λ passed.
            passed ≡ is_passed_by self.now work.now 0 self.now.channels) }
    {
        for place in 0..self.channels.len() {
            let channel = place as u64;
            if work.is_passed(channel) {
                continue;
            }
            if !share(self.alloc, &self.required, &work.made, channel)?.is_empty() {
                return Ok(false);
            }
        }
        Ok(true)
    }

    // Whether the entry of the channel at this place is in its journal.
    fn is_settled(&self, channel: u32, place: u64) -> bool
        ensures { result ≡ is_below place (slice_get self.now.channels channel) }
    {
        let at = channel as usize;
        if at >= self.channels.len() {
            return false;
        }
        place < self.channels[at].settled_count()
    }

    // Whether each of the entries is in its channel's journal.
    fn are_settled(&self, entries: &[EntryName]) -> bool
        ensures { result ≡ are_settled self.now entries.now }
    {
        for entry in entries {
            if !self.is_settled(entry.0, entry.1) {
                return false;
            }
        }
        true
    }

    // Whether the work of this number is passed by each channel that has to take some of its events, and settled there.
    fn is_done(&self, number: u64) -> Result<bool, NoMemory>
        ensures { IfOk result (λ done. done ≡ is_done number self.now) }
    {
        let Some(work) = live(&self.works, number) else {
            return Ok(false);
        };
        if !self.is_passed_by(work)? {
            return Ok(false);
        }
        Ok(self.are_settled(&work.entries))
    }

    /// A work whose events are settled becomes an acknowledgement of this node, and gives the reply that names it.
    pub(crate) fn acknowledge(&mut self, own: u32, number: u64) -> Result<Option<Packet>, NoMemory>
        ensures { Sent (acknowledge own number self.old) self.old result self.new }
    {
        if !self.is_done(number)? {
            return Ok(None);
        }
        self.acks.reserve(1)?;
        let Some(work) = end(&mut self.works, number) else {
            return Ok(None);
        };
        let place = self.acks.len() as u64;
        let reply = Packet {
            node: own,
            tag: work.tag,
            body: Body::Reply { place },
        };
        push_within(&mut self.acks, work);
        Ok(Some(reply))
    }

    // Begins an attempt with an open take of the channel.
    fn begin_take(&mut self, channel: u32) -> Result<bool, NoMemory>
        ensures { Did (begin_take channel self.old) self.old result self.new }
    {
        let place = channel as usize;
        if place >= self.channels.len() {
            return Ok(false);
        }
        let Some((new, life, txn)) = self.channels[place].take_begun()? else {
            return Ok(false);
        };
        self.attempts.push(Some(OpenAttempt {
            channel,
            life,
            txn,
            events: Batch::new(self.alloc),
            tag: None,
            delivery: None,
        }))?;
        self.channels[place] = new;
        Ok(true)
    }

    // An attempt of the channel that was neither sent nor delivered takes one event more.
    fn take_one(&mut self, channel: u32, number: u64) -> Result<bool, NoMemory>
        ensures { Did (take_one channel number self.old) self.old result self.new }
    {
        let place = channel as usize;
        let Some(attempt) = live(&self.attempts, number) else {
            return Ok(false);
        };
        if place >= self.channels.len()
            || attempt.channel != channel
            || attempt.tag.is_some()
            || attempt.delivery.is_some()
        {
            return Ok(false);
        }
        let Some((new, event)) = self.channels[place].taken(attempt.life, attempt.txn)? else {
            return Ok(false);
        };
        add_event(&mut self.attempts, number, event)?;
        self.channels[place] = new;
        Ok(true)
    }

    /// An attempt without a delivery is sent under this tag, and gives the request.
    pub(crate) fn send(
        &mut self,
        number: u64,
        to: u32,
        tag: Tag,
    ) -> Result<Option<Packet>, NoMemory>
        ensures { Sent (send number to tag self.old) self.old result self.new }
    {
        let Some(attempt) = live(&self.attempts, number) else {
            return Ok(None);
        };
        let place = attempt.channel as usize;
        if place >= self.channels.len()
            || attempt.delivery.is_some()
            || !is_among(self.channels[place].later(), u64::from(to))
        {
            return Ok(None);
        }
        let batch = attempt.events.copy()?;
        set_tag(&mut self.attempts, number, tag);
        Ok(Some(Packet {
            node: to,
            tag,
            body: Body::Request { batch },
        }))
    }

    // A last sink takes the events of an attempt without a delivery.
    fn output(&mut self, number: u64) -> Result<bool, NoMemory>
        ensures { Did (output number self.old) self.old result self.new }
    {
        let Some(attempt) = live(&self.attempts, number) else {
            return Ok(false);
        };
        let place = attempt.channel as usize;
        if place >= self.channels.len()
            || attempt.delivery.is_some()
            || !self.channels[place].is_last()
        {
            return Ok(false);
        }
        let delivery = Delivery::output(self.outputs.len() as u64);
        let events = attempt.events.copy()?;
        if self.outputs.push(events).is_err() {
            return Err(NoMemory);
        }
        set_delivery(&mut self.attempts, number, delivery);
        Ok(true)
    }

    /// A reply comes to an attempt: of its own connection and serial, it is its delivery, and any other ends the attempt.
    pub(crate) fn replied(
        &mut self,
        number: u64,
        tag: Tag,
        from: u32,
        place: u64,
    ) -> Result<bool, NoMemory>
        ensures { Did (replied number tag from place self.old) self.old result self.new }
    {
        let Some(attempt) = live(&self.attempts, number) else {
            return Ok(false);
        };
        match attempt.decision(tag) {
            Decision::Commit => {
                set_delivery(&mut self.attempts, number, Delivery::acked(from, place));
                Ok(true)
            }
            Decision::Rollback => self.end_attempt(number),
        }
    }

    // An attempt with a delivery ends, and its open take is staged.
    fn commit(&mut self, number: u64) -> Result<bool, NoMemory>
        ensures { Did (commit number self.old) self.old result self.new }
    {
        let Some(attempt) = live(&self.attempts, number) else {
            return Ok(false);
        };
        let Some(delivery) = attempt.delivered() else {
            return Ok(false);
        };
        let place = attempt.channel as usize;
        if place >= self.channels.len() {
            return Ok(false);
        }
        let Some(new) = self.channels[place].committed(
            attempt.life,
            attempt.txn,
            delivery,
            &attempt.events,
        )?
        else {
            return Ok(false);
        };
        self.channels[place] = new;
        clear(&mut self.attempts, number);
        Ok(true)
    }

    // An attempt ends, and its open take is rolled back.
    fn end_attempt(&mut self, number: u64) -> Result<bool, NoMemory>
        ensures { Did (end_attempt number self.old) self.old result self.new }
    {
        let Some(attempt) = live(&self.attempts, number) else {
            return Ok(false);
        };
        let place = attempt.channel as usize;
        if place >= self.channels.len() {
            return Ok(false);
        }
        let (life, txn) = (attempt.life, attempt.txn);
        self.channels[place].give_up(life, txn);
        clear(&mut self.attempts, number);
        Ok(true)
    }

    // A work ends without an acknowledgement.
    fn end_work(&mut self, number: u64) -> Result<bool, NoMemory>
        ensures { Did (end_work number self.old) self.old result self.new }
    {
        let Some(_work) = live(&self.works, number) else {
            return Ok(false);
        };
        clear(&mut self.works, number);
        Ok(true)
    }

    // A channel settles what is staged, or breaks.
    fn flush(&mut self, channel: u32, done: bool) -> Result<bool, NoMemory>
        ensures { Did (on_channel channel (flushed done) self.old) self.old result self.new }
    {
        let place = channel as usize;
        if place >= self.channels.len() {
            return Ok(false);
        }
        self.channels[place].flush(done)
    }

    // A channel breaks.
    fn fail(&mut self, channel: u32) -> Result<bool, NoMemory>
        ensures { Did (on_channel channel failed self.old) self.old result self.new }
    {
        let place = channel as usize;
        if place >= self.channels.len() {
            return Ok(false);
        }
        self.channels[place].fail()
    }

    // A channel stages events that no work names.
    fn aside(&mut self, channel: u32, events: &Batch) -> Result<bool, NoMemory>
        ensures { Did (on_channel channel (aside events.now) self.old) self.old result self.new }
    {
        let place = channel as usize;
        if place >= self.channels.len() || events.is_empty() {
            return Ok(false);
        }
        let Some(new) = self.channels[place].stored(events)? else {
            return Ok(false);
        };
        self.channels[place] = new;
        Ok(true)
    }

    // A channel is reopened, and what had to do with its open takes or its staged entries ends.
    fn mend(&mut self, channel: u32, kept: u32) -> Result<bool, NoMemory>
        ensures { Did (mend channel kept self.old) self.old result self.new }
    {
        let place = channel as usize;
        if place >= self.channels.len() {
            return Ok(false);
        }
        let settled = self.channels[place].settled_count();
        let Some(new) = self.channels[place].reopened(kept)? else {
            return Ok(false);
        };
        self.channels[place] = new;
        end_works(&mut self.works, channel, settled);
        end_attempts(&mut self.attempts, channel);
        Ok(true)
    }

    // All channels reopened, with these numbers of staged entries.
    fn all_reopened(&self, kept: &[u32]) -> Result<Option<Vec<NodeChannel>>, NoMemory>
        ensures { IfOk result (λ all.
            option_map (λ v. v.items) all ≡ all_reopened kept.now self.now.channels) }
    {
        if kept.len() != self.channels.len() {
            return Ok(None);
        }
        let mut all = Vec::new(self.alloc);
        for place in 0..kept.len() {
            let Some(new) = self.channels[place].reopened(kept[place])? else {
                return Ok(None);
            };
            all.push(new)?;
        }
        Ok(Some(all))
    }

    // All channels are reopened, and all works and attempts end.
    fn restart(&mut self, kept: &[u32]) -> Result<bool, NoMemory>
        ensures { Did (restart kept.now self.old) self.old result self.new }
    {
        let Some(all) = self.all_reopened(kept)? else {
            return Ok(false);
        };
        self.channels = all;
        end_all(&mut self.works);
        end_all(&mut self.attempts);
        Ok(true)
    }

    /// A step of this node that sends nothing.
    pub(crate) fn apply(&mut self, step: &HopStep) -> Result<bool, NoMemory>
        ensures { Did (node_step step.now self.old) self.old result self.new }
    {
        match step {
            HopStep::Accept {
                node: _,
                work,
                channel,
            } => self.accept(*work, *channel),
            HopStep::Flush {
                node: _,
                channel,
                done,
            } => self.flush(*channel, *done),
            HopStep::Take {
                node: _,
                channel,
                attempt,
            } => match attempt {
                Some(number) => self.take_one(*channel, *number),
                None => self.begin_take(*channel),
            },
            HopStep::Output { node: _, attempt } => self.output(*attempt),
            HopStep::Commit { node: _, attempt } => self.commit(*attempt),
            HopStep::Aside {
                node: _,
                channel,
                events,
            } => self.aside(*channel, events),
            HopStep::Mend {
                node: _,
                channel,
                kept,
            } => self.mend(*channel, *kept),
            HopStep::EndAttempt { node: _, attempt } => self.end_attempt(*attempt),
            HopStep::EndWork { node: _, work } => self.end_work(*work),
            HopStep::Fail { node: _, channel } => self.fail(*channel),
            HopStep::Restart { node: _, kept } => self.restart(kept),
            _ => Ok(false),
        }
    }
}
