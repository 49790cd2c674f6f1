// Which members a delivery tries.
use crate::sinks::{group_by, kind_of};
use scenarios::{Scene, number_of, numbers_of, pass, three_numbers, two_numbers, word_and_rest};
use sink_groups::{GroupKind, GroupRules, GroupRun};
use sink_runner::NullSink;
use std::alloc::Global;
use std::test::Fail;

const SCHEDULES: &str = "A single sink is never left alone.
backoff
single 3
tries 0 9 0
fails 0 3 0
tries 0 9 0

Failover takes the greatest priority first. A member is left alone for 2,000 milliseconds, then twice as long, and anew after a success.
failover 5 10
tries 1000 1 1 0
fails 1 1 1000
takes 0 1000
tries 2999 1 0
tries 3000 1 1 0
fails 1 1 3000
fails 0 1 3000
tries 3000 1
tries 4999 1
tries 5000 1 0
tries 6999 1 0
tries 7000 1 1 0
takes 1 7000
fails 1 1 7000
tries 8999 1 0
tries 9000 1 1 0

Equal priorities go in the list's order.
failover 0 7 4294967295 7
tries 0 0 2 1 3 0

A member is left alone no longer than the penalty.
penalty 5000
failover 0
fails 0 1 0
tries 1999 0
tries 2000 0 0
fails 0 1 2000
tries 5999 0
tries 6000 0 0
fails 0 1 6000
tries 10999 0
tries 11000 0 0

A penalty of 0 is none.
penalty 0
failover 0
fails 0 40 18446744073709551615
tries 18446744073709551615 0 0

A row of failures counts up to 32.
penalty 18446744073709551615
failover 0
fails 0 31 0
tries 2147483647999 0
tries 2147483648000 0 0
fails 0 9 0
tries 4294967295999 0
tries 4294967296000 0 0

A time alone may end after the last moment.
penalty 18446744073709551615
failover 0 0
fails 0 1 18446744073709549615
fails 1 1 18446744073709549616
tries 18446744073709551614 0
tries 18446744073709551615 0 0

Round robin begins one place later each time.
round-robin 9 8 7
tries 0 2 0 1 2
fails 1 1 0
tries 0 2 1 2 0
tries 0 2 2 0 1
tries 0 2 0 1 2

With backoff a member that failed is passed over, and the start goes on.
backoff
round-robin 0 0 0
tries 0 0 0 1 2
fails 1 1 0
tries 1999 0 2 0
tries 2000 0 2 0 1

By chance the draw says where to begin.
random 0 1 2
tries 0 7 1 2 0
tries 0 18446744073709551615 0 1 2
tries 0 2 2 0 1";

type Group = GroupRun<NullSink>;

fn group_of(alloc: Global, rules: GroupRules) -> Option<Group> {
    let members = vec![in alloc; NullSink; rules.priorities.len()].ok()?;
    group_by(alloc, members, rules)
}

// A group, and its rules.
#[derive(Drop)]
struct Schedules {
    alloc: Global,
    penalty: u64,
    backoff: bool,
    group: Option<Group>,
    has_tried: bool,
}

fn set_penalty(scene: &mut Schedules, penalty: &str) -> bool {
    match number_of(penalty) {
        Some(penalty) => {
            scene.penalty = penalty;
            true
        }
        None => false,
    }
}

fn set_backoff(scene: &mut Schedules) -> bool {
    scene.backoff = true;
    true
}

fn rules_of(scene: &Schedules, word: &str, priorities: &str) -> Option<GroupRules> {
    let kind = kind_of(word)?;
    Some(GroupRules {
        kind,
        priorities: numbers_of(scene.alloc, priorities)?,
        penalty: scene.penalty,
        backoff: scene.backoff,
    })
}

fn set_group(scene: &mut Schedules, word: &str, priorities: &str) -> bool {
    scene.group = match rules_of(scene, word, priorities) {
        Some(rules) => group_of(scene.alloc, rules),
        None => None,
    };
    scene.group.is_some()
}

// Notes a member's answer so many times. A member that is not there is not noted.
fn report(group: &mut Group, member: u32, ok: bool, times: u64, now: u64) -> bool {
    for _ in 0..times {
        if member as usize >= group.len() {
            return false;
        }
        group.report(member, ok, now);
    }
    true
}

fn reports(group: &mut Option<Group>, member: u64, ok: bool, times: u64, now: u64) -> bool {
    match (group, u32::try_from(member)) {
        (Some(group), Ok(member)) => report(group, member, ok, times, now),
        _ => false,
    }
}

// A member fails so many times at a moment.
fn fails(scene: &mut Schedules, row: &str) -> bool {
    match three_numbers(row) {
        Some((member, times, now)) => reports(&mut scene.group, member, false, times, now),
        None => false,
    }
}

// A member takes a batch at a moment.
fn takes(scene: &mut Schedules, row: &str) -> bool {
    match two_numbers(row) {
        Some((member, now)) => reports(&mut scene.group, member, true, 1, now),
        None => false,
    }
}

// Whether this is the member that is to be tried next.
fn is_next(group: &mut Group, member: &str) -> bool {
    match group.next() {
        Some(found) => number_of(member) == Some(u64::from(found)),
        None => false,
    }
}

// Whether these are the members that are to be tried, and no more.
fn tries(group: &mut Group, members: &str) -> bool {
    if !members.is_empty() {
        for member in members.split(' ') {
            if !is_next(group, member) {
                return false;
            }
        }
    }
    group.next().is_none()
}

// Whether a delivery at a moment and with a draw is to try these members, as `1000 1 1 0`.
fn is_tried(scene: &mut Schedules, row: &str) -> bool {
    scene.has_tried = true;
    let (now, rest) = word_and_rest(row);
    let (draw, members) = word_and_rest(rest);
    let (Some(now), Some(draw)) = (number_of(now), number_of(draw)) else {
        return false;
    };
    match &mut scene.group {
        Some(group) => {
            group.start(now, draw);
            tries(group, members)
        }
        None => false,
    }
}

impl Scene for Schedules {
    fn begin(alloc: Global) -> Schedules {
        Schedules {
            alloc,
            penalty: 30_000,
            backoff: false,
            group: None,
            has_tried: false,
        }
    }

    fn holds(&mut self, word: &str, rest: &str) -> bool {
        match word {
            "penalty" => set_penalty(self, rest),
            "backoff" => set_backoff(self),
            "tries" => is_tried(self, rest),
            "fails" => fails(self, rest),
            "takes" => takes(self, rest),
            _ => set_group(self, word, rest),
        }
    }

    fn has_tried(&self) -> bool {
        self.has_tried
    }
}

#[test]
fn members_are_tried_in_order_and_left_alone_after_a_failure(rt: HostRuntime) -> Result<(), Fail> {
    pass::<Schedules>(rt.alloc(), SCHEDULES)
}

// A hundred numbers below 100, from one on by equal steps.
fn hundred(alloc: Global, first: u32, step: u32) -> Option<Vec<u32>> {
    let mut numbers = Vec::new(alloc);
    for place in 0..100u32 {
        numbers
            .push(first.wrapping_add(place.wrapping_mul(step)) % 100)
            .ok()?;
    }
    Some(numbers)
}

// Of a hundred members with the priorities 0 to 99, each once.
fn hundred_members(alloc: Global, kind: GroupKind) -> Option<Group> {
    let rules = GroupRules {
        kind,
        priorities: hundred(alloc, 0, 7)?,
        penalty: 0,
        backoff: false,
    };
    group_of(alloc, rules)
}

// Whether a delivery is to try each of them, by equal steps.
fn tries_all(alloc: Global, kind: GroupKind, draw: u64, first: u32, step: u32) -> Option<bool> {
    let order = hundred(alloc, first, step)?;
    let mut group = hundred_members(alloc, kind)?;
    group.start(0, draw);
    for member in order.iter() {
        if group.next() != Some(*member) {
            return Some(false);
        }
    }
    Some(group.next().is_none())
}

// The member at a place has the priority 7 times the place modulo 100, and 43 times 7 is 1 modulo 100: the one of priority 99 is
// at 99 times 43, which is 57, and each next one 57 places on.
#[test]
fn a_hundred_members_are_each_tried_once(rt: HostRuntime) {
    assert!(rt; tries_all(rt.alloc(), GroupKind::Failover, 0, 57, 57) == Some(true));
    assert!(rt; tries_all(rt.alloc(), GroupKind::Random, 1250, 50, 1) == Some(true));
}
