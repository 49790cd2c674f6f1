// Random lists of steps, with a fixed seed: the accounting is true in every state.
ghost use Rattle.std.specs.Prelude.{◌≤◌};

use crate::accounting::{has_passed_all, is_share, is_stored, parts};
use crate::drawing::draw;
use crate::letters::{A, B};
use crate::picture::{AttemptRow, ChannelRow, Picture, WorkRow};
use crate::setting::{Row, Setting, step_of, world_of};
use event_core::NoMemory;
use hop_core::HopStep;
use std::alloc::Global;
use std::test::Fail;

const LISTS: u32 = 10_000;

const STEPS: u32 = 100;

// Each kind of step, as often as it is tried in a hundred where nothing leads on.
const KINDS: [u8; 100] =
    *b"oooooooooooooooooooodddddddddddddddaaaaaaaaffffffffkkkkkktttttTTTTTTnnnnnuuurrrrrcccxxxmmmeeewwFFbRR";

// The batches that there are.
const BATCHES: [&[u64]; 7] = [&[A], &[B], &[A, A], &[A, B], &[B, A], &[], &[B, B, A]];

// Where the states are counted in which a take is final by the acknowledgement of another node.
const ACKNOWLEDGED: u8 = 1;

// Numbers, one after another (a linear congruential generator with Knuth's constants).
#[derive(Drop)]
struct Numbers {
    state: u64,
}

impl Numbers {
    // One of the numbers below this one, and 0 where there is none.
    fn below(&mut self, most: u32) -> u32
        ensures { result ≤ most }
    {
        self.state = self
            .state
            .wrapping_mul(6364136223846793005)
            .wrapping_add(1442695040888963407);
        if most == 0 {
            return 0;
        }
        (self.state >> 33) as u32 % most
    }

    // True so many times in ten.
    fn chance(&mut self, times: u32) -> bool {
        self.below(10) < times
    }
}

// One or two channels of each of so many nodes.
fn some_settings(
    alloc: Global,
    numbers: &mut Numbers,
    count: u32,
) -> Result<Vec<Setting>, NoMemory> {
    let mut all = Vec::new(alloc);
    for node in 0..count {
        for place in 0..2 {
            if place == 0 || numbers.chance(5) {
                let capacity = if numbers.chance(3) { 2 } else { 9 };
                let txn_capacity = if numbers.chance(5) { 2 } else { 4 };
                let to_second = node == 0 && count > 1 && numbers.chance(8);
                let to_third = node < 2 && count > 2 && numbers.chance(8);
                all.push(Setting {
                    node,
                    capacity,
                    txn_capacity,
                    later: [false, to_second, to_third],
                    last: numbers.chance(6),
                    a: numbers.chance(7),
                    b: numbers.chance(7),
                })?;
            }
        }
    }
    Ok(all)
}

fn is_awaited(all: &Picture, tag: (u64, u32)) -> bool {
    for work in &all.works {
        if work.tag == tag {
            return false;
        }
    }
    for attempt in &all.attempts {
        if attempt.tag == Some(tag) {
            return true;
        }
    }
    false
}

fn is_replied(all: &Picture, attempt: &AttemptRow) -> bool {
    for reply in &all.replies {
        if Some(reply.tag) == attempt.tag {
            return true;
        }
    }
    false
}

// Whether an entry of the channel is staged, and whether an attempt takes from it.
fn is_busy(all: &Picture, row: &ChannelRow) -> (bool, bool) {
    let (mut staged, mut begun) = (false, false);
    for entry in &all.entries {
        staged = staged
            || (entry.node == row.node && entry.channel == row.channel && !entry.settled);
    }
    for attempt in &all.attempts {
        begun = begun || (attempt.node == row.node && attempt.channel == row.channel);
    }
    (staged, begun)
}

// The kind of step that leads an attempt on.
fn leads(all: &Picture, place: usize, attempt: &AttemptRow) -> Option<u8> {
    if attempt.delivery.is_some() {
        return Some(b'c');
    }
    if attempt.tag.is_some() {
        return if is_replied(all, attempt) {
            Some(b'r')
        } else {
            None
        };
    }
    if attempt.events.is_empty() {
        return Some(b'T');
    }
    Some(if place % 4 == 3 { b'u' } else { b'n' })
}

// What leads on: kinds of steps, each with the place of its row.
fn ways(alloc: Global, all: &Picture) -> Result<Vec<(u8, usize)>, NoMemory> {
    let mut found = Vec::new(alloc);
    for (place, request) in all.requests.iter().enumerate() {
        if is_awaited(all, request.tag) {
            found.push((b'd', place))?;
        }
    }
    for (place, work) in all.works.iter().enumerate() {
        if !work.is_ack && !has_passed_all(all, work) {
            found.push((b'a', place))?;
        }
        if !work.is_ack && has_passed_all(all, work) && is_stored(all, work, true) {
            found.push((b'k', place))?;
        }
    }
    for (place, row) in all.channels.iter().enumerate() {
        let (staged, begun) = is_busy(all, row);
        if row.broken || staged {
            found.push((if row.broken { b'm' } else { b'f' }, place))?;
        } else if !row.left.is_empty() && !begun {
            found.push((b't', place))?;
        }
    }
    for (place, attempt) in all.attempts.iter().enumerate() {
        if let Some(kind) = leads(all, place, attempt) {
            found.push((kind, place))?;
        }
    }
    Ok(found)
}

// A channel of the work's node that has to take some of its letters and has not, if there is one.
fn next_channel(all: &Picture, work: &WorkRow) -> u32 {
    let mut channel = 0;
    for row in &all.channels {
        let mut passed = row.node != work.node || is_share(&row.required, &work.made, &[]);
        for name in &work.entries {
            passed = passed || name.0 == row.channel;
        }
        if !passed {
            channel = row.channel;
        }
    }
    channel
}

// A packet that replies to the attempt, mostly, where there is one.
fn some_reply(numbers: &mut Numbers, all: &Picture, attempt: &AttemptRow) -> u64 {
    let mut packet = numbers.below(12) as u64;
    for reply in &all.replies {
        if Some(reply.tag) == attempt.tag && numbers.chance(9) {
            packet = reply.packet;
        }
    }
    packet
}

// The row of a step of this kind, with the row of the picture that stands at this place.
fn row_at(numbers: &mut Numbers, all: &Picture, kind: u8, place: usize) -> Option<Row> {
    let serial = numbers.below(40);
    let connection = numbers.below(3) as u64;
    match kind {
        b'd' => Some((kind, 0, 0, all.requests.get(place)?.packet, 0, 0)),
        b'a' | b'k' | b'w' => {
            let work = all.works.get(place)?;
            Some((kind, work.node, next_channel(all, work), work.number, 0, 0))
        }
        b'n' => {
            let attempt = all.attempts.get(place)?;
            let to = attempt
                .node
                .saturating_add(1)
                .saturating_add(numbers.below(2));
            Some((kind, attempt.node, to, attempt.number, connection, serial))
        }
        b'T' | b'u' | b'r' | b'c' | b'e' => {
            let attempt = all.attempts.get(place)?;
            let packet = some_reply(numbers, all, attempt);
            Some((
                kind,
                attempt.node,
                attempt.channel,
                attempt.number,
                packet,
                0,
            ))
        }
        b'R' => {
            let node = all.channels.get(place)?.node;
            let mut count: u64 = 0;
            for row in &all.channels {
                if row.node == node {
                    count = count.saturating_add(1);
                }
            }
            Some((kind, node, 0, 0, count, numbers.below(2)))
        }
        b'm' => {
            let row = all.channels.get(place)?;
            Some((kind, row.node, row.channel, 0, 0, numbers.below(3)))
        }
        _ => {
            let row = all.channels.get(place)?;
            Some((kind, row.node, row.channel, 0, connection, serial))
        }
    }
}

// The step of a row, mostly with the letters of the request that is delivered, or with some.
fn step_at(
    alloc: Global,
    numbers: &mut Numbers,
    all: &Picture,
    row: Row,
    place: usize,
) -> Result<HopStep, NoMemory> {
    if row.0 == b'd' && numbers.chance(9) {
        if let Some(request) = all.requests.get(place) {
            return step_of(alloc, row, &request.batch);
        }
    }
    match BATCHES.get(numbers.below(7) as usize) {
        Some(letters) => step_of(alloc, row, letters),
        None => step_of(alloc, row, &[]),
    }
}

// Any step, or, so many times in ten, one that leads on.
fn some_way(
    alloc: Global,
    numbers: &mut Numbers,
    all: &Picture,
    eager: u32,
) -> Result<(u8, usize), NoMemory> {
    if numbers.chance(eager) {
        let found = ways(alloc, all)?;
        let place = numbers.below(60) as usize;
        if !found.is_empty() {
            if let Some(way) = found.get(place % found.len()) {
                return Ok(*way);
            }
        }
    }
    let kind = KINDS
        .get(numbers.below(100) as usize)
        .copied()
        .unwrap_or(b'o');
    Ok((kind, numbers.below(6) as usize))
}

// Whether an entry of takes names an acknowledgement of another node.
fn names_an_ack(all: &Picture) -> bool {
    for entry in &all.entries {
        if let Some((Some(_), _)) = entry.name {
            return true;
        }
    }
    false
}

fn count(counts: &mut [u32; 128], place: u8) {
    if let Some(count) = counts.get_mut(place as usize) {
        *count = count.saturating_add(1);
    }
}

// One list of steps, of which each that is taken is counted under its kind: whether the accounting is true in each state.
fn one_list(
    alloc: Global,
    numbers: &mut Numbers,
    counts: &mut [u32; 128],
) -> Result<bool, NoMemory> {
    let nodes = 1 + numbers.below(3);
    let eager = 3 + 3 * numbers.below(3);
    let settings = some_settings(alloc, numbers, nodes)?;
    let mut world = world_of(alloc, &settings, nodes)?;
    let mut all = draw(alloc, &world)?;
    for _ in 0..STEPS {
        let (kind, place) = some_way(alloc, numbers, &all, eager)?;
        let Some(row) = row_at(numbers, &all, kind, place) else {
            continue;
        };
        let step = step_at(alloc, numbers, &all, row, place)?;
        if world.apply(&step)? {
            all = draw(alloc, &world)?;
            if parts(&all) != [true; 6] {
                return Ok(false);
            }
            count(counts, kind);
            if names_an_ack(&all) {
                count(counts, ACKNOWLEDGED);
            }
        }
    }
    Ok(true)
}

#[test]
fn accounting_is_true_in_each_state(rt: HostRuntime) -> Result<(), Fail> {
    let mut numbers = Numbers { state: 7 };
    let mut counts = [0; 128];
    for list in 0..LISTS {
        assert!(rt;
            one_list(rt.alloc(), &mut numbers, &mut counts)?,
            "list {list}"
        );
    }
    for kind in KINDS {
        let taken = counts.get(kind as usize).copied().unwrap_or(0);
        assert!(rt; taken > 300, "kind {kind} was taken {taken} times");
    }
    assert!(rt;
        counts[1] > 10_000,
        "states with an acknowledged take: {}",
        counts[1]
    );
    Ok(())
}
