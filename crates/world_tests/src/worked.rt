// The worked steps of two agents: a reply is lost, and the first agent crashes and sends again.
use crate::accounting::parts;
use crate::drawing::draw;
use crate::letters::A;
use crate::picture::{Name, Picture};
use crate::setting::{Row, Setting, step_of, world_of};
use hop_core::World;
use std::alloc::Global;
use std::process::Abort;
use std::test::Fail;

/// What there is after a step: events left of the first agent and of the second, their acknowledgements, packets that were
/// sent, attempts, and settled entries of the second agent.
pub type Counts = [usize; 7];

// The first agent's sink points to the second, which has a last sink.
const TWO: [Setting; 2] = [
    Setting {
        node: 0,
        capacity: 10,
        txn_capacity: 10,
        later: [false, true, false],
        last: false,
        a: true,
        b: false,
    },
    Setting {
        node: 1,
        capacity: 10,
        txn_capacity: 10,
        later: [false, false, false],
        last: true,
        a: true,
        b: false,
    },
];

/// Up to the second acknowledgement of the second agent.
pub const TWICE: [(Row, Counts); 20] = [
    ((b'o', 0, 0, 0, 0, 1), [0, 0, 0, 0, 1, 0, 0]),
    ((b'd', 0, 0, 0, 0, 0), [0, 0, 0, 0, 1, 0, 0]),
    ((b'a', 0, 0, 0, 0, 0), [0, 0, 0, 0, 1, 0, 0]),
    ((b'f', 0, 0, 0, 0, 0), [1, 0, 0, 0, 1, 0, 0]),
    ((b'k', 0, 0, 0, 0, 0), [1, 0, 1, 0, 2, 0, 0]),
    ((b't', 0, 0, 0, 0, 0), [1, 0, 1, 0, 2, 1, 0]),
    ((b'T', 0, 0, 0, 0, 0), [1, 0, 1, 0, 2, 1, 0]),
    ((b'n', 0, 1, 0, 1, 1), [1, 0, 1, 0, 3, 1, 0]),
    ((b'd', 0, 0, 2, 0, 0), [1, 0, 1, 0, 3, 1, 0]),
    ((b'a', 1, 0, 0, 0, 0), [1, 0, 1, 0, 3, 1, 0]),
    ((b'f', 1, 0, 0, 0, 0), [1, 1, 1, 0, 3, 1, 1]),
    ((b'k', 1, 0, 0, 0, 0), [1, 1, 1, 1, 4, 1, 1]),
    ((b'R', 0, 0, 0, 1, 0), [1, 1, 1, 1, 4, 0, 1]),
    ((b't', 0, 0, 0, 0, 0), [1, 1, 1, 1, 4, 1, 1]),
    ((b'T', 0, 0, 1, 0, 0), [1, 1, 1, 1, 4, 1, 1]),
    ((b'n', 0, 1, 1, 2, 1), [1, 1, 1, 1, 5, 1, 1]),
    ((b'd', 0, 0, 4, 0, 0), [1, 1, 1, 1, 5, 1, 1]),
    ((b'a', 1, 0, 1, 0, 0), [1, 1, 1, 1, 5, 1, 1]),
    ((b'f', 1, 0, 0, 0, 0), [1, 2, 1, 1, 5, 1, 2]),
    ((b'k', 1, 0, 1, 0, 0), [1, 2, 1, 2, 6, 1, 2]),
];

/// The reply of the second connection comes, and the take is committed.
pub const ITS_REPLY: [(Row, Counts); 3] = [
    ((b'r', 0, 0, 1, 5, 0), [1, 2, 1, 2, 6, 1, 2]),
    ((b'c', 0, 0, 1, 0, 0), [1, 2, 1, 2, 6, 0, 2]),
    ((b'f', 0, 0, 0, 0, 0), [0, 2, 1, 2, 6, 0, 2]),
];

// That of the first comes in its place, and the attempt ends.
const OTHER_REPLY: [(Row, Counts); 1] = [((b'r', 0, 0, 1, 3, 0), [1, 2, 1, 2, 6, 0, 2])];

/// The two agents, new.
pub fn two(alloc: Global) -> Result<World, Fail> {
    Ok(world_of(alloc, &TWO, 2)?)
}

fn left_of(all: &Picture, node: u32) -> usize {
    let mut left = 0;
    for row in &all.channels {
        if row.node == node {
            left = row.left.len();
        }
    }
    left
}

fn acks_of(all: &Picture, node: u32) -> usize {
    let mut count: usize = 0;
    for work in &all.works {
        if work.is_ack && work.node == node {
            count = count.saturating_add(1);
        }
    }
    count
}

fn settled_of(all: &Picture, node: u32) -> usize {
    let mut count: usize = 0;
    for entry in &all.entries {
        if entry.settled && entry.node == node {
            count = count.saturating_add(1);
        }
    }
    count
}

fn counts(all: &Picture) -> Counts {
    [
        left_of(all, 0),
        left_of(all, 1),
        acks_of(all, 0),
        acks_of(all, 1),
        all.requests.len().saturating_add(all.replies.len()),
        all.attempts.len(),
        settled_of(all, 1),
    ]
}

// What the last entry of takes names.
fn named(all: &Picture) -> Option<Name> {
    let mut name = None;
    for entry in &all.entries {
        if entry.takes {
            name = entry.name;
        }
    }
    name
}

/// Takes each of the steps, after which there is what its row says, and the accounting is true.
pub fn walk(
    rt: &impl Abort,
    alloc: Global,
    world: &mut World,
    rows: &[(Row, Counts)],
) -> Result<(), Fail> {
    for (place, (row, then)) in rows.iter().enumerate() {
        let step = step_of(alloc, *row, &[A])?;
        assert!(rt; world.apply(&step)?, "step {place} can be taken");
        let all = draw(alloc, world)?;
        assert_eq!(rt; counts(&all), *then, "after step {place}");
        assert_eq!(rt; parts(&all), [true; 6], "after step {place}");
    }
    Ok(())
}

#[test]
fn reply_is_lost_and_event_is_sent_again(rt: HostRuntime) -> Result<(), Fail> {
    let mut world = two(rt.alloc())?;
    walk(&rt, rt.alloc(), &mut world, &TWICE)?;
    walk(&rt, rt.alloc(), &mut world, &ITS_REPLY)?;
    let all = draw(rt.alloc(), &world)?;
    assert_eq!(rt;
        named(&all),
        Some((Some(1), 1)),
        "the take names the second acknowledgement"
    );
    Ok(())
}

#[test]
fn another_reply_rolls_back(rt: HostRuntime) -> Result<(), Fail> {
    let mut world = two(rt.alloc())?;
    walk(&rt, rt.alloc(), &mut world, &TWICE)?;
    walk(&rt, rt.alloc(), &mut world, &OTHER_REPLY)
}
