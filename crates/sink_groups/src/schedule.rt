// The scheduler of a group: which members a delivery tries.
ghost use Rattle.sink_groups.specs.Scheduler.{IsNew, started, reported, is_due, cools, start_by, turn_after};
ghost use Rattle.std.specs.List.{filter};
ghost use Rattle.std.specs.Prelude.{◌≡◌, ◌<◌, ◌≤◌, ◌+◌, ◌++◌, ◌∷◌, ◌^◌, [], length, IfOk, IfSome, MatchOption, All, vec_len, vec_capacity};

use crate::ranking::ranking_of;
use crate::standing::Standing;
use crate::{GroupKind, GroupRules};
use std::alloc::{AllocError, Global};
use std::marker::Model;

/// Which members a delivery tries, and what is known of them.
#[derive(Drop)]
pub struct Schedule {
    kind: GroupKind,
    penalty: u64,
    backoff: bool,
    ranking: Vec<u32>,
    members: Vec<Standing>,
    turn: usize,
    // the members that the delivery tries, with room for all of them
    order: Vec<u32>,
    // how many of them were handed out
    given: usize,
}

impl Model for Schedule {
    ghost use Rattle.sink_groups.specs.Scheduler.{Group, IsSchedule};
    ghost use Rattle.std.specs.Prelude.{drop, vec_capacity};

    ghost Value = { Group };

    ghost view = { λ s. record {
      kind = s.kind;
      penalty = s.penalty;
      backoff = s.backoff;
      ranking =
          s.ranking.items;
      members = s.members.items;
      turn = s.turn;
      due = drop s.given
          s.order.items;
    } };

    ghost invariant = { λ s. IsSchedule s.ranking.items s.members.items s.turn s.order.items
        (vec_capacity s.order) };
}

// Whether members that failed are left alone for a time.
fn cools(kind: GroupKind, backoff: bool) -> bool
    ensures { result ≡ cools kind backoff }
{
    match kind {
        GroupKind::Single => false,
        GroupKind::Failover => true,
        GroupKind::RoundRobin | GroupKind::Random => backoff,
    }
}

// The place in the ranking at which a delivery starts.
fn start_by(kind: GroupKind, turn: usize, chance: usize) -> usize
    ensures { result ≡ start_by kind turn chance }
{
    match kind {
        GroupKind::Single | GroupKind::Failover => 0,
        GroupKind::RoundRobin => turn,
        GroupKind::Random => chance,
    }
}

// The place at which the delivery after it starts by round robin.
fn turn_after(kind: GroupKind, turn: usize, count: usize) -> usize
    requires { turn < count }
    ensures turn { result ≡ turn_after kind turn count }
    ensures within { result < count }
{
    match kind {
        GroupKind::RoundRobin => (turn + 1) % count,
        GroupKind::Single | GroupKind::Failover | GroupKind::Random => turn,
    }
}

// Adds the members that are due. It takes no memory.
fn add_due(order: &mut Vec<u32>, ranked: &[u32], members: &[Standing], now: u64)
    requires within { All (λ member. member < length members.now) ranked.now }
    requires room { vec_len order.old + length ranked.now ≤ vec_capacity order.old }
    ensures added { order.new.items ≡ order.old.items ++ filter (is_due members.now now)
        ranked.now }
    ensures few { vec_len order.new ≤ vec_len order.old + length ranked.now }
    ensures room { vec_capacity order.new ≡ vec_capacity order.old }
{
    for member in ranked {
        if members[*member as usize].is_due(now) {
            order.push_reserved(*member);
        }
    }
}

impl Schedule {
    /// A group of which no member has failed yet.
    pub fn new(alloc: Global, rules: &GroupRules) -> Result<Schedule, AllocError>
        requires some { 0 < length rules.now.priorities.items }
        requires few { length rules.now.priorities.items < 2 ^ 32 }
        ensures { IfOk result (IsNew rules.now.kind rules.now.priorities.items rules.now.penalty
            rules.now.backoff) }
    {
        let count = rules.priorities.len();
        let ranking = ranking_of(alloc, rules.kind, &rules.priorities)?;
        let members = vec![in alloc; Standing::new(); count]?;
        let order = Vec::with_capacity(alloc, count)?;
        Ok(Schedule {
            kind: rules.kind,
            penalty: rules.penalty,
            backoff: rules.backoff,
            ranking,
            members,
            turn: 0,
            order,
            given: 0,
        })
    }

    /// Begins a delivery. It takes no memory.
    pub fn start(&mut self, now: u64, draw: u64)
        ensures group { self.new ≡ started self.old now draw }
        ensures count { length self.new.members ≡ length self.old.members }
        ensures few { length self.new.due ≤ length self.new.members }
    {
        let count = self.ranking.len();
        let start = start_by(self.kind, self.turn, (draw % count as u64) as usize);
        self.turn = turn_after(self.kind, self.turn, count);
        self.given = 0;
        self.order.clear();
        let (before, after) = self.ranking.split_at(start);
        add_due(&mut self.order, after, &self.members, now);
        add_due(&mut self.order, before, &self.members, now);
    }

    /// The member that is to be tried next, or none. It takes no memory.
    pub fn next(&mut self) -> Option<u32>
        ensures same { self.new ≡ record self.old { due = self.new.due } }
        ensures next { MatchOption result ((self.old.due ≡ []) × (self.new.due ≡ []))
            (λ member. self.old.due ≡ member ∷ self.new.due) }
        ensures within { IfSome result (λ member. member < length self.new.members) }
    {
        let member = *self.order.get(self.given)?;
        self.given += 1;
        Some(member)
    }

    /// Notes whether a member took a batch. It takes no memory.
    pub fn report(&mut self, member: u32, ok: bool, now: u64)
        requires { member < length self.old.members }
        ensures group { self.new ≡ reported self.old member ok now }
        ensures count { length self.new.members ≡ length self.old.members }
    {
        if !cools(self.kind, self.backoff) {
            return;
        }
        let standing = self.members[member as usize];
        self.members[member as usize] = if ok {
            standing.succeeded()
        } else {
            standing.failed(self.penalty, now)
        };
    }

    /// The members that this delivery is still to try.
    pub fn due(&self) -> &[u32]
        ensures { result.now ≡ self.now.due }
    {
        match self.order.get(self.given..) {
            Some(due) => due,
            None => &[],
        }
    }

    /// How many members there are.
    pub fn len(&self) -> usize
        ensures { result ≡ length self.now.members }
    {
        self.members.len()
    }
}
