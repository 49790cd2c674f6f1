// Pictures of worlds that are wrong, made by hand: each breaks a part of the accounting, and is found.
use crate::accounting::parts;
use crate::drawing::draw;
use crate::letters::B;
use crate::picture::{EntryRow, Picture};
use crate::setting::Row;
use crate::worked::{Counts, ITS_REPLY, TWICE, two, walk};
use event_core::NoMemory;
use std::alloc::Global;
use std::test::Fail;

// The first agent begins a work, whose entry is staged, and the second two attempts, of which the first has an output.
const MORE: [(Row, Counts); 8] = [
    ((b'o', 0, 0, 0, 9, 1), [0, 2, 1, 2, 7, 0, 2]),
    ((b'd', 0, 0, 6, 0, 0), [0, 2, 1, 2, 7, 0, 2]),
    ((b'a', 0, 0, 1, 0, 0), [0, 2, 1, 2, 7, 0, 2]),
    ((b't', 1, 0, 0, 0, 0), [0, 2, 1, 2, 7, 1, 2]),
    ((b'T', 1, 0, 0, 0, 0), [0, 2, 1, 2, 7, 1, 2]),
    ((b'u', 1, 0, 0, 0, 0), [0, 2, 1, 2, 7, 1, 2]),
    ((b't', 1, 0, 0, 0, 0), [0, 2, 1, 2, 7, 2, 2]),
    ((b'T', 1, 0, 1, 0, 0), [0, 2, 1, 2, 7, 2, 2]),
];

// What is wrong: of an entry, of a work or an acknowledgement, of a packet, of an attempt, or of what is left; by a letter. Which
// part it breaks, from 0.
const WRONG: [(u8, usize); 19] = [
    // an acknowledged entry is only staged, is of another event, is not named, is named by two
    (b's', 0),
    (b'o', 0),
    (b'n', 0),
    (b't', 0),
    // a take names nothing, names what another one names, names a batch of another event, names an output without a last sink
    (b'N', 1),
    (b'T', 1),
    (b'B', 1),
    (b'O', 1),
    // a number is not left, is left and taken
    (b'l', 2),
    (b'L', 2),
    // two requests have one tag, a reply names an acknowledgement of another tag
    (b'r', 3),
    (b'R', 3),
    // an attempt has no open take, one of another event, a tag that was never sent, an output that another one has, an output
    // without a last sink
    (b'c', 4),
    (b'e', 4),
    (b'g', 4),
    (b'u', 4),
    (b'm', 4),
    // a work's entry is not there, is one that an acknowledgement names
    (b'w', 5),
    (b'W', 5),
];

fn spoil_entries(all: &mut Picture, wrong: u8) {
    for entry in all.entries.iter_mut() {
        if wrong == b's' && entry.node == 1 {
            entry.settled = false;
        }
        if wrong == b'o' && !entry.takes {
            for letter in entry.values.iter_mut() {
                *letter = B;
            }
        }
        if wrong == b'N' {
            entry.name = None;
        }
    }
    for row in all.channels.iter_mut() {
        if wrong == b'm' || wrong == b'O' {
            row.last = false;
        }
        if wrong == b'l' {
            row.left.clear();
        }
        if wrong == b'L' && row.node == 0 {
            let _pushed = row.left.push(0).is_ok();
        }
    }
}

fn spoil_works(all: &mut Picture, wrong: u8) {
    for work in all.works.iter_mut() {
        if wrong == b'n' && work.is_ack {
            work.entries.clear();
        }
        if wrong == b'B' {
            for letter in work.batch.iter_mut() {
                *letter = B;
            }
        }
        for name in work.entries.iter_mut() {
            if (wrong == b't' && work.node == 1) || (wrong == b'W' && !work.is_ack) {
                *name = (0, 0);
            }
            if wrong == b'w' && !work.is_ack {
                *name = (0, 7);
            }
        }
    }
}

fn spoil_packets_and_attempts(all: &mut Picture, wrong: u8) {
    for request in all.requests.iter_mut() {
        if wrong == b'r' && request.packet == 4 {
            request.tag = (1, 1);
        }
    }
    for reply in all.replies.iter_mut() {
        if wrong == b'R' {
            reply.tag = (77, 1);
        }
    }
    for attempt in all.attempts.iter_mut() {
        if wrong == b'c' {
            attempt.open = false;
        }
        if wrong == b'e' {
            for letter in attempt.events.iter_mut() {
                *letter = B;
            }
        }
        if wrong == b'g' {
            attempt.tag = Some((88, 1));
        }
        if wrong == b'u' {
            attempt.delivery = Some((None, 0));
        }
    }
}

// A second entry that takes the same number and names the same acknowledgement; or one that takes what an output has.
fn name_more(alloc: Global, all: &mut Picture, wrong: u8) -> Result<(), NoMemory> {
    let (node, name) = match wrong {
        b'T' => (0, (Some(1), 1)),
        b'O' => (1, (None, 0)),
        _ => return Ok(()),
    };
    all.entries.push(EntryRow {
        node,
        channel: 0,
        place: 9,
        settled: true,
        takes: true,
        values: Vec::from_slice(alloc, &[0])?,
        name: Some(name),
    })?;
    Ok(())
}

#[test]
fn what_is_wrong_is_found(rt: HostRuntime) -> Result<(), Fail> {
    let mut world = two(rt.alloc())?;
    walk(&rt, rt.alloc(), &mut world, &TWICE)?;
    walk(&rt, rt.alloc(), &mut world, &ITS_REPLY)?;
    walk(&rt, rt.alloc(), &mut world, &MORE)?;
    for (wrong, part) in WRONG {
        let mut all = draw(rt.alloc(), &world)?;
        spoil_entries(&mut all, wrong);
        spoil_works(&mut all, wrong);
        spoil_packets_and_attempts(&mut all, wrong);
        name_more(rt.alloc(), &mut all, wrong)?;
        let found = parts(&all);
        assert_eq!(rt;
            found.get(part).copied(),
            Some(false),
            "part {part} after {wrong}"
        );
    }
    Ok(())
}
