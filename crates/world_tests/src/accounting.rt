// The delivery accounting, part by part, as it is defined and not as the world is built: each sentence is a walk over the rows.
use crate::picture::{AttemptRow, ChannelRow, EntryRow, Name, Picture, Tag, WorkRow};

// What an attempt or an entry holds: a tag, and an output place of a node.
type Hold = (Option<Tag>, Option<(u32, u64)>);

fn channel_of(all: &Picture, node: u32, channel: u32) -> Option<&ChannelRow> {
    for row in &all.channels {
        if row.node == node && row.channel == channel {
            return Some(row);
        }
    }
    None
}

fn entry_of(all: &Picture, node: u32, name: (u32, u64)) -> Option<&EntryRow> {
    for row in &all.entries {
        if row.node == node && row.channel == name.0 && row.place == name.1 {
            return Some(row);
        }
    }
    None
}

fn ack_of(all: &Picture, node: u32, place: u64) -> Option<&WorkRow> {
    for row in &all.works {
        if row.is_ack && row.node == node && row.number == place {
            return Some(row);
        }
    }
    None
}

fn is_output(all: &Picture, node: u32, place: u64, events: &[u64]) -> bool {
    for row in &all.outputs {
        if row.node == node && row.place == place {
            return row.events.as_slice() == events;
        }
    }
    false
}

fn is_request(all: &Picture, node: u32, tag: Tag, batch: &[u64]) -> bool {
    for row in &all.requests {
        if row.tag == tag && row.node == node && row.batch.as_slice() == batch {
            return true;
        }
    }
    false
}

// The letter that was put under this number.
fn letter_of(all: &Picture, node: u32, channel: u32, number: u64) -> Option<u64> {
    let mut before: u64 = 0;
    for row in &all.entries {
        if row.node == node && row.channel == channel && row.settled && !row.takes {
            for letter in &row.values {
                if before == number {
                    return Some(*letter);
                }
                before = before.saturating_add(1);
            }
        }
    }
    None
}

// Whether these letters were put under these numbers.
fn are_letters(all: &Picture, node: u32, channel: u32, numbers: &[u64], letters: &[u64]) -> bool {
    for (place, number) in numbers.iter().enumerate() {
        if letters.get(place).copied() != letter_of(all, node, channel, *number) {
            return false;
        }
    }
    numbers.len() == letters.len()
}

/// Whether these are just the letters, of those that were made, that are among the required ones.
pub fn is_share(required: &[u64], made: &[u64], share: &[u64]) -> bool {
    let mut place: usize = 0;
    for letter in made {
        if required.contains(letter) {
            if share.get(place) != Some(letter) {
                return false;
            }
            place = place.saturating_add(1);
        }
    }
    place == share.len()
}

/// Each entry of the work is of another channel, and has just this channel's share.
pub fn is_stored(all: &Picture, work: &WorkRow, settled: bool) -> bool {
    for (place, name) in work.entries.iter().enumerate() {
        for (other, beside) in work.entries.iter().enumerate() {
            if place != other && name.0 == beside.0 {
                return false;
            }
        }
        let Some(entry) = entry_of(all, work.node, *name) else {
            return false;
        };
        let Some(channel) = channel_of(all, work.node, name.0) else {
            return false;
        };
        if entry.takes
            || (settled && !entry.settled)
            || !is_share(&channel.required, &work.made, &entry.values)
        {
            return false;
        }
    }
    true
}

/// The work has an entry of each channel of its node that has to take some of its letters.
pub fn has_passed_all(all: &Picture, work: &WorkRow) -> bool {
    for channel in &all.channels {
        if channel.node == work.node && !is_share(&channel.required, &work.made, &[]) {
            let mut passed = false;
            for name in &work.entries {
                passed = passed || name.0 == channel.channel;
            }
            if !passed {
                return false;
            }
        }
    }
    true
}

// No other work or acknowledgement of its node names an entry that it names. Of an acknowledgement only the others count.
fn names_alone(all: &Picture, work: &WorkRow) -> bool {
    for other in &all.works {
        let itself = other.is_ack == work.is_ack && other.number == work.number;
        if other.node == work.node && !itself && (other.is_ack || !work.is_ack) {
            for name in &other.entries {
                if work.entries.contains(name) {
                    return false;
                }
            }
        }
    }
    true
}

/// Each acknowledgement has, in the journal of each channel that has to take some of its letters, an entry with just these.
pub fn acknowledged_is_stored(all: &Picture) -> bool {
    for work in &all.works {
        if work.is_ack
            && !(is_stored(all, work, true)
                && has_passed_all(all, work)
                && names_alone(all, work))
        {
            return false;
        }
    }
    true
}

fn held_by(all: &Picture, node: u32, name: Option<Name>) -> Hold {
    match name {
        Some((Some(from), place)) => match ack_of(all, from, place) {
            Some(ack) => (Some(ack.tag), None),
            None => (None, None),
        },
        Some((None, place)) => (None, Some((node, place))),
        None => (None, None),
    }
}

fn clash(a: Hold, b: Hold) -> bool {
    (a.0.is_some() && a.0 == b.0) || (a.1.is_some() && a.1 == b.1)
}

// An entry of puts names nothing, and one of takes a delivery of its letters.
fn is_named(all: &Picture, entry: &EntryRow) -> bool {
    if !entry.takes {
        return entry.name.is_none();
    }
    let Some((from, place)) = entry.name else {
        return false;
    };
    let Some(channel) = channel_of(all, entry.node, entry.channel) else {
        return false;
    };
    match from {
        None => {
            for row in &all.outputs {
                if row.node == entry.node && row.place == place {
                    return channel.last
                        && are_letters(all, entry.node, entry.channel, &entry.values, &row.events);
                }
            }
            false
        }
        Some(node) => match ack_of(all, node, place) {
            Some(ack) => channel.later.contains(&node)
                && are_letters(all, entry.node, entry.channel, &entry.values, &ack.batch),
            None => false,
        },
    }
}

/// Each entry of takes names a delivery of its letters, and no two name one.
pub fn takes_are_delivered(all: &Picture) -> bool {
    for (place, entry) in all.entries.iter().enumerate() {
        if !is_named(all, entry) {
            return false;
        }
        let hold = held_by(all, entry.node, entry.name);
        for (other, beside) in all.entries.iter().enumerate() {
            if place != other && clash(hold, held_by(all, beside.node, beside.name)) {
                return false;
            }
        }
    }
    true
}

// How often the entries of a channel take a number.
fn times_taken(all: &Picture, row: &ChannelRow, number: u64, staged: bool) -> u64 {
    let mut times: u64 = 0;
    for entry in &all.entries {
        if entry.node == row.node
            && entry.channel == row.channel
            && entry.takes
            && (entry.settled || staged)
        {
            for taken in &entry.values {
                if *taken == number {
                    times = times.saturating_add(1);
                }
            }
        }
    }
    times
}

// Each number that the channel's entries take, and each that is left, was put.
fn are_put(all: &Picture, row: &ChannelRow) -> bool {
    for number in &row.left {
        if letter_of(all, row.node, row.channel, *number).is_none() {
            return false;
        }
    }
    for entry in &all.entries {
        if entry.node == row.node && entry.channel == row.channel {
            if entry.values.is_empty() {
                return false;
            }
            for value in &entry.values {
                if entry.takes && letter_of(all, row.node, row.channel, *value).is_none() {
                    return false;
                }
            }
        }
    }
    true
}

/// Each number that was put is left, or one settled entry of takes names it once; and no two commits take one number.
pub fn numbers_are_left_or_taken(all: &Picture) -> bool {
    for row in &all.channels {
        if !are_put(all, row) {
            return false;
        }
        let mut number: u64 = 0;
        for _ in 0..1_000_000 {
            if letter_of(all, row.node, row.channel, number).is_none() {
                break;
            }
            let taken = times_taken(all, row, number, false);
            let left = row.left.iter().filter(|other| **other == number).count();
            if !((taken == 1 && left == 0) || (taken == 0 && left == 1))
                || times_taken(all, row, number, true) > 1
            {
                return false;
            }
            number = number.saturating_add(1);
        }
    }
    true
}

/// No two requests have one tag, each acknowledgement answers a request for its node, and each OK names one of its own tag.
pub fn packets_agree(all: &Picture) -> bool {
    for (place, request) in all.requests.iter().enumerate() {
        for (other, beside) in all.requests.iter().enumerate() {
            if place != other && request.tag == beside.tag {
                return false;
            }
        }
    }
    for ack in &all.works {
        if ack.is_ack && !is_request(all, ack.node, ack.tag, &ack.batch) {
            return false;
        }
    }
    for reply in &all.replies {
        match ack_of(all, reply.node, reply.place) {
            Some(ack) => {
                if ack.tag != reply.tag {
                    return false;
                }
            }
            None => return false,
        }
    }
    true
}

// The attempt's take is open and of just its letters, its request was sent with them, and its delivery is of them or of its tag.
fn attempt_agrees(all: &Picture, attempt: &AttemptRow) -> bool {
    let Some(channel) = channel_of(all, attempt.node, attempt.channel) else {
        return false;
    };
    if !attempt.open {
        return false;
    }
    if let Some(took) = &attempt.took {
        if !are_letters(all, attempt.node, attempt.channel, took, &attempt.events) {
            return false;
        }
    }
    if let Some(tag) = attempt.tag {
        let mut asked = false;
        for node in &channel.later {
            asked = asked || is_request(all, *node, tag, &attempt.events);
        }
        if !asked {
            return false;
        }
    }
    match attempt.delivery {
        None => true,
        Some((None, place)) => {
            channel.last && is_output(all, attempt.node, place, &attempt.events)
        }
        Some((Some(from), place)) => match ack_of(all, from, place) {
            Some(ack) => attempt.tag == Some(ack.tag),
            None => false,
        },
    }
}

fn attempt_hold(attempt: &AttemptRow) -> Hold {
    match attempt.delivery {
        Some((None, place)) => (attempt.tag, Some((attempt.node, place))),
        _ => (attempt.tag, None),
    }
}

/// Each attempt agrees with its channel and what was sent, has an open take of its own, and holds its tag and its output alone.
pub fn attempts_agree(all: &Picture) -> bool {
    for (place, attempt) in all.attempts.iter().enumerate() {
        if !attempt_agrees(all, attempt) {
            return false;
        }
        let hold = attempt_hold(attempt);
        for (other, beside) in all.attempts.iter().enumerate() {
            let one_take = attempt.node == beside.node
                && attempt.channel == beside.channel
                && attempt.txn == beside.txn;
            if place != other && (one_take || clash(hold, attempt_hold(beside))) {
                return false;
            }
        }
        for entry in &all.entries {
            if clash(hold, held_by(all, entry.node, entry.name)) {
                return false;
            }
        }
    }
    true
}

/// Each work has the batch of a request for its node with its tag, its entries are among the commits, and nobody else names them.
pub fn works_agree(all: &Picture) -> bool {
    for work in &all.works {
        if !work.is_ack
            && !(is_request(all, work.node, work.tag, &work.batch)
                && is_stored(all, work, false)
                && names_alone(all, work))
        {
            return false;
        }
    }
    true
}

/// The six parts of the accounting.
pub fn parts(all: &Picture) -> [bool; 6] {
    [
        acknowledged_is_stored(all),
        takes_are_delivered(all),
        numbers_are_left_or_taken(all),
        packets_agree(all),
        attempts_agree(all),
        works_agree(all),
    ]
}
