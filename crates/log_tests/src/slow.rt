// A slow reading of log files and of a checkpoint, after the format alone. Each number is read anew where it stands, and all that is
// known is kept in lists; it shares nothing with what a channel reads by. Each event has no headers and a body of one byte: in
// files as short as these another count or length, of 255 or more, passes their end.
use channel_replay::WholeFile;
use std::alloc::Global;

// A record: its kind and numbers, 0 where it has none, where it stands and where it ends. The second number of a PUT is its event's
// byte.
#[derive(Clone, Copy)]
struct Entry {
    kind: u64,
    txn: u64,
    second: u64,
    count: u64,
    at: usize,
    end: usize,
}

/// The next numbers of an event and of a transaction, the events that are left, each with its number and byte, and the PUTs and TAKEs
/// of open transactions.
#[derive(Drop)]
pub struct Left {
    pub number: u64,
    pub txn: u64,
    pub events: Vec<(u64, u64)>,
    open: Vec<Entry>,
}

// The number of so many bytes that stands here, if they are there.
fn number_at(bytes: &[u8], at: usize, width: usize) -> Option<u64> {
    let mut number: u64 = 0;
    for byte in bytes.get(at..at.saturating_add(width))? {
        number = number.wrapping_mul(256).wrapping_add(u64::from(*byte));
    }
    Some(number)
}

// How many bytes the transaction, the second number and the count of a record take.
fn widths(kind: u64) -> Option<[usize; 3]> {
    match kind {
        1 | 5 => Some([8, 0, 4]),
        2 => Some([8, 8, 0]),
        3 => Some([8, 0, 0]),
        4 => Some([8, 8, 4]),
        6 => Some([0, 0, 4]),
        _ => None,
    }
}

// The record that stands here, but for a PUT's event.
fn front_at(bytes: &[u8], at: usize) -> Option<Entry> {
    let kind = number_at(bytes, at, 1)?;
    let [first, second, third] = widths(kind)?;
    let one = at.saturating_add(1);
    let two = one.saturating_add(first);
    let three = two.saturating_add(second);
    Some(Entry {
        kind,
        txn: number_at(bytes, one, first)?,
        second: number_at(bytes, two, second)?,
        count: number_at(bytes, three, third)?,
        at,
        end: three.saturating_add(third),
    })
}

// The record that stands here, if it is whole and right.
fn record_at(bytes: &[u8], at: usize) -> Option<Entry> {
    let mut entry = front_at(bytes, at)?;
    if entry.kind == 1 {
        if entry.count != 9 || number_at(bytes, entry.end, 8) != Some(1) {
            return None;
        }
        entry.second = number_at(bytes, entry.end.saturating_add(8), 1)?;
        entry.end = entry.end.saturating_add(9);
    } else if entry.kind > 3 && entry.count == 0 {
        return None;
    }
    Some(entry)
}

// Adds the records of the frame with this commit byte, and gives where the next one stands.
fn add_records(bytes: &[u8], gate: usize, records: &mut Vec<Entry>) -> Option<usize> {
    let mut at = gate.saturating_add(1);
    for count in 0..bytes.len() {
        let entry = record_at(bytes, at)?;
        at = entry.end;
        if entry.kind == 6 {
            return if entry.count == count as u64 && at < bytes.len() {
                Some(at)
            } else {
                None
            };
        }
        records.push(entry).ok()?;
    }
    None
}

// How many records of this kind are open for a transaction.
fn count_open(left: &Left, kind: u64, txn: u64) -> u64 {
    let mut count: u64 = 0;
    for entry in left.open.iter() {
        if entry.kind == kind && entry.txn == txn {
            count = count.saturating_add(1);
        }
    }
    count
}

// Whether an event is left that no open transaction takes.
fn is_free(left: &Left, number: u64) -> bool {
    for entry in left.open.iter() {
        if entry.kind == 2 && entry.second == number {
            return false;
        }
    }
    for event in left.events.iter() {
        if event.0 == number {
            return true;
        }
    }
    false
}

// Ends a transaction.
fn end(left: &mut Left, txn: u64) {
    left.open.retain(|entry| entry.txn != txn);
}

// Adds the events of a transaction, and ends it.
fn commit_puts(left: &mut Left, txn: u64) -> bool {
    for entry in left.open.iter() {
        if entry.txn == txn {
            if left.events.push((left.number, entry.second)).is_err() {
                return false;
            }
            left.number = left.number.saturating_add(1);
        }
    }
    end(left, txn);
    true
}

fn remove(events: &mut Vec<(u64, u64)>, number: u64) {
    events.retain(|event| event.0 != number);
}

// Removes the events that a transaction takes, and ends it.
fn commit_takes(left: &mut Left, txn: u64) -> bool {
    for entry in left.open.iter() {
        if entry.txn == txn {
            remove(&mut left.events, entry.second);
        }
    }
    end(left, txn);
    true
}

fn is_txn(txn: u64) -> bool {
    txn != 0 && txn != u64::MAX
}

// Applies a record, if it is legal.
fn is_applied(left: &mut Left, entry: Entry) -> bool {
    let Entry {
        kind,
        txn,
        second,
        count,
        ..
    } = entry;
    let (puts, takes) = (count_open(left, 1, txn), count_open(left, 2, txn));
    left.txn = left.txn.max(txn.saturating_add(1));
    is_txn(txn)
        && match kind {
            1 => takes == 0 && left.open.push(entry).is_ok(),
            2 => puts == 0 && is_free(left, second) && left.open.push(entry).is_ok(),
            3 => {
                end(left, txn);
                puts > 0 || takes > 0
            }
            4 => puts == count && second == left.number && commit_puts(left, txn),
            _ => takes == count && commit_takes(left, txn),
        }
}

// Applies the frame with this commit byte, and gives where the next one stands, or where the first fault does.
fn frame_end(alloc: Global, left: &mut Left, bytes: &[u8], gate: usize) -> Result<usize, u64> {
    let mut records = Vec::new(alloc);
    let Some(next) = add_records(bytes, gate, &mut records) else {
        return Err(gate as u64);
    };
    for entry in records.iter() {
        if !is_applied(left, *entry) {
            return Err(entry.at as u64);
        }
    }
    Ok(next)
}

// Whether a file begins with a header of its number.
fn has_header(file: &WholeFile) -> bool {
    let bytes = file.bytes.as_slice();
    let birth = number_at(bytes, 10, 2);
    number_at(bytes, 0, 8) == Some(0x464c554d454c4f47)
        && number_at(bytes, 8, 2) == Some(1)
        && (birth == Some(1) || birth == Some(2))
        && number_at(bytes, 12, 4) == Some(u64::from(file.number))
}

// Applies a file, and gives the offset of its first fault, if it has one.
fn fault_in(alloc: Global, left: &mut Left, file: &WholeFile) -> Option<u64> {
    let bytes = file.bytes.as_slice();
    if bytes.len() <= 17 {
        return None;
    }
    if !has_header(file) {
        return Some(0);
    }
    if number_at(bytes, 10, 2) == Some(1) {
        left.open.clear();
    }
    let mut gate: usize = 16;
    for _ in 0..bytes.len() {
        if number_at(bytes, gate, 1) != Some(1) {
            return None;
        }
        match frame_end(alloc, left, bytes, gate) {
            Ok(next) => gate = next,
            Err(at) => return Some(at),
        }
    }
    None
}

/// What log files leave, or the file and the offset of their first fault.
pub fn left_by(alloc: Global, files: &[WholeFile]) -> Result<Left, (u32, u64)> {
    let mut left = Left {
        number: 0,
        txn: 1,
        events: Vec::new(alloc),
        open: Vec::new(alloc),
    };
    for file in files {
        if let Some(at) = fault_in(alloc, &mut left, file) {
            return Err((file.number, at));
        }
    }
    Ok(left)
}

// The fields in front of a checkpoint's events: where each stands, its width, its least value and its greatest. They are the mark
// and its form; the file of the place, which is log file 1; its offset, within 115 bytes; the next numbers of an event and of a
// transaction.
const FIELDS: [(usize, usize, u64, u64); 6] = [
    (1, 8, 0x464c554d4543484b, 0x464c554d4543484b),
    (9, 4, 1, 1),
    (13, 4, 1, 1),
    (17, 8, 16, 114),
    (25, 8, 0, u64::MAX),
    (33, 8, 1, u64::MAX),
];

// The number of an event of a checkpoint, which stands here, if the event is right. It is below the next one, and not below that
// after the event before; and its PUT is in log file 1.
fn event_at(check: &[u8], log: &[u8], at: usize, least: u64) -> Option<u64> {
    let number = number_at(check, at, 8)?;
    let place = number_at(check, at.saturating_add(12), 8)?;
    let put = record_at(log, usize::try_from(place).ok()?)?;
    let is_right = number >= least
        && Some(number) < number_at(check, 25, 8)
        && number_at(check, at.saturating_add(8), 4) == Some(1)
        && put.kind == 1
        && number_at(check, at.saturating_add(20), 4) == Some(put.count);
    if is_right { Some(number) } else { None }
}

// Where the events of a checkpoint end, or where the first of them that is at fault begins.
fn events_end(check: &[u8], log: &[u8]) -> Result<usize, usize> {
    let mut at: usize = 45;
    let mut least = 0;
    let Some(count) = number_at(check, 41, 4) else {
        return Err(41);
    };
    for _ in 0..count {
        match event_at(check, log, at, least) {
            Some(number) => least = number.saturating_add(1),
            None => return Err(at),
        }
        at = at.saturating_add(24);
    }
    Ok(at)
}

// The first offset at which a checkpoint is at fault. No transaction is open, so another count of them passes its end.
fn check_fault(check: &[u8], log: &[u8]) -> Option<usize> {
    for (at, width, least, most) in &FIELDS {
        match number_at(check, *at, *width) {
            Some(number) if *least <= number && number <= *most => {}
            _ => return Some(*at),
        }
    }
    let end = match events_end(check, log) {
        Ok(end) => end,
        Err(at) => return Some(at),
    };
    for place in [end, end.saturating_add(4)] {
        match number_at(check, place, 4) {
            Some(0) => {}
            Some(_) => return Some(place.saturating_add(4)),
            None => return Some(place),
        }
    }
    let after = end.saturating_add(8);
    if check.len() > after {
        Some(after)
    } else {
        None
    }
}

/// What a checkpoint says beside log file 1 of 115 bytes: it is right, with its next numbers, or bad from an offset on, or passed over.
pub fn said_by(check: &[u8], log: &[u8]) -> (&'static str, u64, u64) {
    if check.len() <= 1 || number_at(check, 0, 1) != Some(1) {
        return ("none", 0, 0);
    }
    match check_fault(check, log) {
        Some(at) => ("bad", at as u64, 0),
        None => (
            "right",
            number_at(check, 25, 8).unwrap_or(0),
            number_at(check, 33, 8).unwrap_or(0),
        ),
    }
}
