// What a node has at hand: works, and attempts to deliver.
ghost use Rattle.std.specs.Prelude.{◌≡◌, ◌++◌, ◌∷◌, [], ◌&&◌, ℕ, slice_set, Some, IfOk, OnOk, OnErr, if◌then◌else◌};
ghost use Rattle.event_core.specs.Content.{Content};
ghost use Rattle.world_laws.specs.World as Face;
ghost use Rattle.world_laws.specs.World.{live};
ghost use Rattle.world_laws.specs.Channels.{is_none};
ghost use Rattle.world_laws.specs.Steps.{is_passed, is_tag, without_works, without_attempts, has_from};
ghost use Rattle.hop_core.specs.Ending.{unless_from, unless_of};

use crate::packets::{Delivery, Tag};
use event_core::{Batch, Event, NoMemory};
use hop_attempt::{Attempt, Decision};
use std::marker::Model;

/// The channel of an entry, and its place among the channel's commits.
pub type EntryName = (u32, u64);

/// A batch that was asked for, the events that the interceptors made of it, and the entries that store them. An
/// acknowledgement is a work that is done.
#[derive(Drop)]
pub struct Work {
    pub batch: Batch,
    pub tag: Tag,
    pub made: Batch,
    pub entries: Vec<EntryName>,
}

impl Model for Work {
    ghost use Rattle.world_laws.specs.World.{Work};

    ghost Value = { Work };

    ghost view = { λ w. record {
      batch = w.batch;
      tag = w.tag;
      made = w.made;
      entries = w.entries.items;
    } };
}

impl Work {
    /// Whether it has an entry of the channel.
    pub(crate) fn is_passed(&self, channel: u64) -> bool
        ensures { result ≡ is_passed self.now channel }
    {
        for entry in &self.entries {
            if u64::from(entry.0) == channel {
                return true;
            }
        }
        false
    }

    /// Its entries, and this one of the channel.
    pub(crate) fn entries_and(&self, channel: u32, place: u64) -> Result<Vec<EntryName>, NoMemory>
        ensures { IfOk result (λ entries.
            entries.items ≡ self.now.entries ++ (channel, place) ∷ []) }
    {
        let mut entries = self.entries.clone()?;
        entries.push((channel, place))?;
        Ok(entries)
    }

    // Whether it has an entry of the channel at this place or after it.
    fn has_from(&self, channel: u32, place: u64) -> bool
        ensures { result ≡ has_from channel place self.now.entries }
    {
        for entry in &self.entries {
            if entry.0 == channel && entry.1 >= place {
                return true;
            }
        }
        false
    }
}

/// An open take of a channel, the events that it gave, its request, and its delivery.
#[derive(Drop)]
pub struct OpenAttempt {
    pub channel: u32,
    pub life: u64,
    pub txn: u64,
    pub events: Batch,
    pub tag: Option<Tag>,
    pub delivery: Option<Delivery>,
}

impl Model for OpenAttempt {
    ghost use Rattle.world_laws.specs.World.{Attempt};

    ghost Value = { Attempt };

    ghost view = { λ a. record {
      channel = a.channel;
      token = record { life = a.life; number = a.txn };
      events = a.events;
      tag = a.tag;
      delivery = a.delivery;
    } };
}

impl OpenAttempt {
    /// Its delivery, where it has one.
    pub(crate) fn delivered(&self) -> Option<Delivery>
        ensures { result ≡ self.now.delivery }
    {
        self.delivery
    }

    /// What a reply with this tag means for it: of its own connection and serial, it is delivered.
    pub(crate) fn decision(&self, tag: Tag) -> Decision
        ensures { result
            ≡ (if is_tag tag self.now.tag then Decision.Commit else Decision.Rollback) }
    {
        match self.tag {
            Some(own) => {
                if tag.connection == own.connection {
                    let asked = Attempt { serial: own.serial };
                    asked.on_reply(tag.serial, 0)
                } else {
                    Decision::Rollback
                }
            }
            None => Decision::Rollback,
        }
    }
}

/// The work of this number has these entries.
pub(crate) fn set_entries(works: &mut [Option<Work>], number: u64, entries: Vec<EntryName>)
    ensures { (work : Face.Work) → live works.old number ≡ Some work
        → works.new ≡ slice_set works.old number (Some (record work { entries = entries.items })) }
{
    let place = number as usize;
    if place < works.len() {
        if let Some(work) = &mut works[place] {
            work.entries = entries;
        }
    }
}

/// The attempt of this number has one more event.
pub(crate) fn add_event(
    attempts: &mut [Option<OpenAttempt>],
    number: u64,
    event: Event,
) -> Result<(), NoMemory>
    ensures ok { OnOk result ((a : Face.Attempt) → live attempts.old number ≡ Some a
        → attempts.new
        ≡ slice_set attempts.old number (Some (record a { events = a.events ++ event ∷ [] }))) }
    ensures err { OnErr result (attempts.new ≡ attempts.old) }
{
    let place = number as usize;
    if place < attempts.len() {
        if let Some(attempt) = &mut attempts[place] {
            if attempt.events.push(event).is_err() {
                return Err(NoMemory);
            }
        }
    }
    Ok(())
}

/// The attempt of this number has this tag.
pub(crate) fn set_tag(attempts: &mut [Option<OpenAttempt>], number: u64, tag: Tag)
    ensures { (a : Face.Attempt) → live attempts.old number ≡ Some a
        → attempts.new ≡ slice_set attempts.old number (Some (record a { tag = Some tag })) }
{
    let place = number as usize;
    if place < attempts.len() {
        if let Some(attempt) = &mut attempts[place] {
            attempt.tag = Some(tag);
        }
    }
}

/// The attempt of this number has this delivery.
pub(crate) fn set_delivery(attempts: &mut [Option<OpenAttempt>], number: u64, delivery: Delivery)
    ensures { (a : Face.Attempt) → live attempts.old number ≡ Some a
        → attempts.new ≡ slice_set attempts.old number (Some
        (record a { delivery = Some delivery })) }
{
    let place = number as usize;
    if place < attempts.len() {
        if let Some(attempt) = &mut attempts[place] {
            attempt.delivery = Some(delivery);
        }
    }
}

// The work ends if it has an entry of the channel at this place or after it.
fn end_work_from(work: &mut Option<Work>, channel: u32, place: u64)
    ensures { work.new ≡ unless_from channel place work.old }
{
    if let Some(begun) = work {
        if begun.has_from(channel, place) {
            *work = None;
        }
    }
}

/// Works end that have an entry of the channel at this place or after it.
pub(crate) fn end_works(works: &mut [Option<Work>], channel: u32, place: u64)
    ensures { works.new ≡ without_works channel place works.old }
{
    for number in 0..works.len() {
        end_work_from(&mut works[number], channel, place);
    }
}

// The attempt ends if it took from the channel.
fn end_attempt_of(attempt: &mut Option<OpenAttempt>, channel: u32)
    ensures { attempt.new ≡ unless_of channel attempt.old }
{
    if let Some(begun) = attempt {
        if begun.channel == channel {
            *attempt = None;
        }
    }
}

/// Attempts end that took from the channel.
pub(crate) fn end_attempts(attempts: &mut [Option<OpenAttempt>], channel: u32)
    ensures { attempts.new ≡ without_attempts channel attempts.old }
{
    for number in 0..attempts.len() {
        end_attempt_of(&mut attempts[number], channel);
    }
}
