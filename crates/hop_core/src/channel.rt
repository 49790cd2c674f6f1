// A channel of a node.
ghost use Rattle.std.specs.Prelude.{◌≡◌, ◌<◌, ◌≤◌, ◌^◌, ◌++◌, ◌∷◌, [], length, Some, None, Ok, IfOk, if◌then◌else◌};
ghost use Rattle.world_laws.specs.World.{commits};
ghost use Rattle.channel_face.specs.declared.replies.Kind.{Kind};
ghost use Rattle.world_laws.specs.Channels.{is_empty, stored, flushed, failed, given_up, taken, committed, reopened};
ghost use Rattle.hop_core.specs.Did.{Did, IsTakeBegun};
ghost use Rattle.hop_core.specs.Start.{new_channel};

use crate::packets::Delivery;
use crate::plan::WorldChannel;
use crate::puts::put_transaction;
use crate::refusals::{is_begin_refusal, is_take_refusal};
use channel_face::{Kind, StageRefused, TakeTxn, Taken};
use event_core::{Batch, Event, NoMemory};
use std::alloc::Global;
use std::marker::Model;
use txn_core::Machine;

/// A file channel of a node, without its files. Beside each of its commits stands the delivery that it names, where it is one
/// of takes.
#[derive(Drop)]
pub struct NodeChannel {
    machine: Machine,
    named: Vec<Option<Delivery>>,
    later: Vec<u32>,
    last: bool,
    alloc: Global,
}

impl Model for NodeChannel {
    ghost use Rattle.world_laws.specs.World.{Channel};
    ghost use Rattle.std.specs.Prelude.{◌≡◌};
    ghost use Rattle.channel_face.specs.declared.replies.Kind.{Kind};

    ghost Value = { Channel };

    ghost view = { λ c. record {
      state = c.machine.counted.state;
      journal = c.machine.journal;
      named = c.named.items;
      later = c.later.items;
      last = c.last;
    } };

    ghost invariant = { λ c. c.machine.counted.state.rules.kind ≡ Kind.File };
}

impl NodeChannel {
    /// A new channel.
    pub(crate) fn new(alloc: Global, plan: WorldChannel) -> Result<NodeChannel, NoMemory>
        ensures { IfOk result (λ c. c ≡ new_channel plan) }
    {
        let WorldChannel {
            limits,
            later,
            last,
        } = plan;
        Ok(NodeChannel {
            machine: Machine::new(alloc, limits, Kind::File)?,
            named: Vec::new(alloc),
            later,
            last,
            alloc,
        })
    }

    /// How many entries are settled.
    pub(crate) fn settled_count(&self) -> u64
        ensures { result ≡ length self.now.journal }
    {
        self.machine.journal().len() as u64
    }

    /// How many entries are settled or staged: the place of the next one.
    pub(crate) fn commit_count(&self) -> u64
        ensures { result ≡ length (commits self.now) }
    {
        self.machine.commits().len() as u64
    }

    /// Its machine.
    pub fn machine(&self) -> &Machine
        ensures state { result.now.counted.state ≡ self.now.state }
        ensures journal { result.now.journal ≡ self.now.journal }
    {
        &self.machine
    }

    /// Beside each of its commits the delivery that it names, or none.
    pub fn named(&self) -> &[Option<Delivery>]
        ensures { result.now ≡ self.now.named }
    {
        &self.named
    }

    /// The nodes to which its sinks point.
    pub fn later(&self) -> &[u32]
        ensures { result.now ≡ self.now.later }
    {
        &self.later
    }

    /// Whether a last sink takes from it.
    pub fn is_last(&self) -> bool
        ensures { result ≡ self.now.last }
    {
        self.last
    }

    // What its commits name, once more.
    fn names(&self) -> Result<Vec<Option<Delivery>>, NoMemory>
        ensures { IfOk result (λ names. names.items ≡ self.now.named) }
    {
        Ok(Vec::from_slice(self.alloc, &self.named)?)
    }

    // What its commits name, and this delivery, where there are some events.
    fn names_and(
        &self,
        delivery: Delivery,
        events: &Batch,
    ) -> Result<Vec<Option<Delivery>>, NoMemory>
        ensures { IfOk result (λ names. names.items
            ≡ (if is_empty events.now then self.now.named else self.now.named ++ Some delivery ∷
            [])) }
    {
        let mut names = self.names()?;
        if events.is_empty() {
            return Ok(names);
        }
        names.push(Some(delivery))?;
        Ok(names)
    }

    // This channel with another machine, and with other names beside its commits.
    fn with(&self, machine: Machine, named: Vec<Option<Delivery>>) -> Result<NodeChannel, NoMemory>
        requires { machine.counted.state.rules.kind ≡ Kind.File }
        ensures { IfOk result (λ new. new ≡ record self.now {
          state = machine.counted.state;
          journal = machine.journal;
          named = named.items;
        }) }
    {
        let later = Vec::from_slice(self.alloc, &self.later)?;
        Ok(NodeChannel {
            machine,
            named,
            later,
            last: self.last,
            alloc: self.alloc,
        })
    }

    /// The channel with these events staged in one transaction. None where the begin, a put or the stage is refused.
    pub(crate) fn stored(&self, events: &Batch) -> Result<Option<NodeChannel>, NoMemory>
        ensures { IfOk result (λ new. new ≡ stored events.now self.now) }
    {
        let mut machine = self.machine.copy()?;
        if !put_transaction(&mut machine, events)? {
            return Ok(None);
        }
        let mut named = self.names()?;
        named.push(None)?;
        Ok(Some(self.with(machine, named)?))
    }

    /// Settles what is staged, or breaks where the device fails.
    pub(crate) fn flush(&mut self, done: bool) -> Result<bool, NoMemory>
        ensures { Did (flushed done self.old) self.old result self.new }
    {
        if self.machine.is_broken() {
            return Ok(false);
        }
        if done {
            return Ok(self.machine.flush().is_ok());
        }
        self.machine.fail();
        Ok(true)
    }

    /// The device fails.
    pub(crate) fn fail(&mut self) -> Result<bool, NoMemory>
        ensures { Did (failed self.old) self.old result self.new }
    {
        self.machine.fail();
        Ok(true)
    }

    /// The channel with a new transaction of takes, its life and its number. None where the begin is refused.
    pub(crate) fn take_begun(&self) -> Result<Option<(NodeChannel, u64, u64)>, NoMemory>
        ensures { IfOk result (IsTakeBegun self.now) }
    {
        let mut machine = self.machine.copy()?;
        match machine.begin_take() {
            Ok(txn) => {
                let (life, number) = txn.into_numbers();
                let new = self.with(machine, self.names()?)?;
                Ok(Some((new, life, number)))
            }
            Err(refused) => {
                if is_begin_refusal(refused) {
                    Ok(None)
                } else {
                    Err(NoMemory)
                }
            }
        }
    }

    /// The channel after one more take of this transaction, and the event. None where the take is refused or gives none.
    pub(crate) fn taken(
        &self,
        life: u64,
        number: u64,
    ) -> Result<Option<(NodeChannel, Event)>, NoMemory>
        ensures { IfOk result (λ got.
            got ≡ taken (record { life = life; number = number }) self.now) }
    {
        let mut machine = self.machine.copy()?;
        let mut txn = TakeTxn::new(life, number);
        let reply = machine.take(&mut txn);
        let _gone = txn.into_numbers();
        match reply {
            Ok(Taken { event, spilled: _ }) => match event {
                Some(event) => {
                    let new = self.with(machine, self.names()?)?;
                    Ok(Some((new, event)))
                }
                None => Ok(None),
            },
            Err(refused) => {
                if is_take_refusal(refused) {
                    Ok(None)
                } else {
                    Err(NoMemory)
                }
            }
        }
    }

    /// The channel with this transaction of takes staged, and its delivery named where it has events. None where the stage is
    /// refused.
    pub(crate) fn committed(
        &self,
        life: u64,
        number: u64,
        delivery: Delivery,
        events: &Batch,
    ) -> Result<Option<NodeChannel>, NoMemory>
        ensures { IfOk result (λ new.
            new ≡ committed (record { life = life; number = number }) delivery events.now
            self.now) }
    {
        let mut machine = self.machine.copy()?;
        match machine.stage_take(TakeTxn::new(life, number)) {
            Ok(_) => {
                let named = self.names_and(delivery, events)?;
                Ok(Some(self.with(machine, named)?))
            }
            Err(StageRefused { txn, cause: _ }) => {
                let _gone = txn.into_numbers();
                Ok(None)
            }
        }
    }

    /// Rolls this transaction of takes back, where it is open.
    pub(crate) fn give_up(&mut self, life: u64, number: u64)
        ensures { given_up (record { life = life; number = number }) self.old ≡ Some self.new }
    {
        let _ended = self.machine.rollback_take(TakeTxn::new(life, number));
    }

    /// The channel reopened, with so many of its staged entries. None where fewer are staged, or no life is left.
    pub(crate) fn reopened(&self, kept: u32) -> Result<Option<NodeChannel>, NoMemory>
        ensures { IfOk result (λ new. new ≡ reopened kept self.now) }
    {
        let settled = self.machine.journal().len();
        let staged = self.machine.commits().len() - settled;
        if kept as usize > staged || self.machine.life() == u64::MAX {
            return Ok(None);
        }
        let mut machine = self.machine.copy()?;
        machine.restart(kept)?;
        let mut named = self.names()?;
        named.truncate(settled + kept as usize);
        Ok(Some(self.with(machine, named)?))
    }
}
