// A group: its scheduler and its members.
ghost use Rattle.sink_groups.specs.Deliveries.{Tries, Delivers};
ghost use Rattle.sink_groups.specs.Scheduler.{IsNew, started, reported};
ghost use Rattle.sink_groups.specs.declared.rules.GroupKind.{GroupKind};
ghost use Rattle.std.specs.List.{sum_by};
ghost use Rattle.std.specs.Prelude.{◌≡◌, ◌<◌, ◌≤◌, ◌+◌, ◌-◌, ◌^◌, ◌++◌, ◌∷◌, [], min, length, IfOk, MatchOption, vec_len, vec_capacity};

use crate::schedule::Schedule;
use crate::{GroupRefused, GroupRules};
use event_core::{Batch, NoMemory};
use plug_in::{EventSink, SinkRefused};
use std::alloc::Global;

/// Sinks of which one takes each batch (Flume User Guide, "Flume Sink Processors"). A member is named by its place in the
/// list, from 0.
#[derive(Drop)]
pub struct GroupRun<S> {
    alloc: Global,
    schedule: Schedule,
    members: Vec<S>,
    ghost one_each: { length members.items ≡ length schedule.members },
}

// Copies numbers for which there is room.
fn copy_within(from: &[u32], to: &mut Vec<u32>)
    requires { vec_len to.old + length from.now ≤ vec_capacity to.old }
    ensures { to.new.items ≡ to.old.items ++ from.now }
{
    for number in from {
        to.push_reserved(*number);
    }
}

impl<S: EventSink> GroupRun<S> {
    /// A group of these members, of which none has failed yet.
    pub fn new(alloc: Global, members: Vec<S>, rules: GroupRules) -> Result<GroupRun<S>, NoMemory>
        requires some { 0 < length members.items }
        requires few { length members.items < 2 ^ 32 }
        requires single { rules.kind ≡ GroupKind.Single → length members.items ≡ 1 }
        requires priorities { length rules.priorities.items ≡ length members.items }
        ensures group { IfOk result (λ run. IsNew rules.kind rules.priorities.items rules.penalty
            rules.backoff run.schedule) }
        ensures members { IfOk result (λ run. run.members ≡ members) }
    {
        match Schedule::new(alloc, &rules) {
            Ok(schedule) => Ok(GroupRun {
                alloc,
                schedule,
                members,
            }),
            Err(_) => Err(NoMemory),
        }
    }

    /// A group of these members by a schedule for as many. It takes no memory.
    pub fn of(alloc: Global, schedule: Schedule, members: Vec<S>) -> GroupRun<S>
        requires { length members.items ≡ length schedule.members }
        ensures group { result.schedule ≡ schedule }
        ensures members { result.members ≡ members }
    {
        GroupRun {
            alloc,
            schedule,
            members,
        }
    }

    /// How many members there are.
    pub fn len(&self) -> usize
        ensures { result ≡ length self.now.members.items }
    {
        self.members.len()
    }

    /// Begins a delivery: the members that are not left alone at this moment, in milliseconds since 1970, are to be tried.
    /// Only a group that chooses by chance reads the draw. It takes no memory.
    pub fn start(&mut self, now: u64, draw: u64)
        ensures group { self.new.schedule ≡ started self.old.schedule now draw }
        ensures members { self.new.members ≡ self.old.members }
    {
        self.schedule.start(now, draw);
    }

    /// The member that is to be tried next, or none. It takes no memory.
    pub fn next(&mut self) -> Option<u32>
        ensures group { self.new.schedule ≡ record self.old.schedule
            { due = self.new.schedule.due } }
        ensures next { MatchOption result ((self.old.schedule.due ≡ []) ×
            (self.new.schedule.due ≡ [])) (λ member. self.old.schedule.due ≡ member ∷
            self.new.schedule.due) }
        ensures members { self.new.members ≡ self.old.members }
    {
        self.schedule.next()
    }

    /// Notes whether a member took a batch: a failure may leave it alone for a time, and a success ends its row of failures.
    /// It takes no memory.
    pub fn report(&mut self, member: u32, ok: bool, now: u64)
        requires { member < length self.old.members.items }
        ensures group { self.new.schedule ≡ reported self.old.schedule member ok now }
        ensures members { self.new.members ≡ self.old.members }
    {
        self.schedule.report(member, ok, now);
    }

    // Tries the members that are due.
    fn try_members(&mut self, batch: &Batch, now: u64) -> Result<u32, SinkRefused>
        ensures tries { Tries S.delivers batch.now now self.old.schedule self.old.members.items
            result self.new.schedule self.new.members.items }
        ensures later { sum_by S.faults self.old.members.items ≤ sum_by S.faults
            self.new.members.items }
    {
        while let Some(member) = self.schedule.next() {
            match self.members[member as usize].deliver(batch, now) {
                Ok(()) => {
                    self.schedule.report(member, true, now);
                    return Ok(member);
                }
                Err(SinkRefused::NoMemory) => return Err(SinkRefused::NoMemory),
                Err(SinkRefused::Refused) => self.schedule.report(member, false, now),
            }
        }
        Err(SinkRefused::Refused)
    }

    /// Delivers a batch to the first member that takes it, and answers that member. `AllFailed` comes exactly where each
    /// member that was not left alone at this moment was tried and refused it. A member that is out of memory is no failure, and
    /// ends the delivery.
    pub fn deliver(&mut self, batch: &Batch, now: u64, draw: u64) -> Result<u32, GroupRefused>
        ensures { Delivers S.delivers batch.now now draw self.old.schedule self.old.members.items
            result self.new.schedule self.new.members.items }
    {
        let Ok(mut tried) = Vec::with_capacity(self.alloc, self.schedule.len()) else {
            return Err(GroupRefused::NoMemory);
        };
        self.schedule.start(now, draw);
        copy_within(self.schedule.due(), &mut tried);
        match self.try_members(batch, now) {
            Ok(member) => Ok(member),
            Err(SinkRefused::NoMemory) => Err(GroupRefused::NoMemory),
            Err(SinkRefused::Refused) => Err(GroupRefused::AllFailed { tried }),
        }
    }

    /// Delivers a batch as [`GroupRun::deliver`], without a list of the members that were tried. It takes no memory.
    pub fn deliver_unlisted(
        &mut self,
        batch: &Batch,
        now: u64,
        draw: u64,
    ) -> Result<u32, SinkRefused>
        ensures tries { Tries S.delivers batch.now now (started self.old.schedule now draw)
            self.old.members.items result self.new.schedule self.new.members.items }
        ensures later { sum_by S.faults self.old.members.items ≤ sum_by S.faults
            self.new.members.items }
    {
        self.schedule.start(now, draw);
        self.try_members(batch, now)
    }

    /// How often the members have refused, in all. The count stops at 2^64 - 1.
    pub fn faults(&self) -> u64
        ensures { result ≡ min (sum_by S.faults self.now.members.items) (2 ^ 64 - 1) }
    {
        let mut sum: u64 = 0;
        for member in &self.members {
            sum = sum.saturating_add(member.faults());
        }
        sum
    }

    /// The members, in order.
    pub fn into_members(self) -> Vec<S>
        ensures { result ≡ self.members }
    {
        self.members
    }
}
