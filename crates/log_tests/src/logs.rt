// Log files, on which the lines of a scenario work, and what they leave. `left 2 3 0:a 1:b` says that 2 and 3 are the numbers of the
// next event and transaction, and which events are left by their numbers; `bad 1 16` names the file and the offset of the first fault.
use crate::reading::{Read, ReadRecord, disk_of, read_whole, replayed};
use crate::slow::{Left, left_by};
use crate::torn::{flushed, stood_of};
use channel_face::{Channel, Limits, OpenCause, PutTxn, StageRefused, TakeRefused, TakeTxn, Taken};
use channel_replay::{RecoverRefused, ReplayRefused, Replayed, WholeFile, recover};
use event_core::Event;
use file_channel::FileChannel;
use flume_host::FileName;
use host_memory::MemDisk;
use scenarios::{
    Scene, is_text, long_file, number_of, spelled, three_numbers, two_numbers, word_and_rest,
};
use std::alloc::Global;
use test_fixtures::channel_on;

/// Some log files.
#[derive(Drop)]
pub struct Logs {
    alloc: Global,
    files: Vec<WholeFile>,
    // a disk on which a frame was flushed
    disk: Option<MemDisk>,
    has_tried: bool,
}

// What is left, or the file and the offset of the first fault.
type Found = Result<Replayed, (u32, u64)>;

const OTHER: (u32, u64) = (u32::MAX, u64::MAX);

// Of a channel that opens some files.
const OPENED: Limits = Limits {
    capacity: 100,
    txn_capacity: 100,
    max_file: 1000,
};

fn of_recover(found: Result<Replayed, RecoverRefused>) -> Found {
    match found {
        Ok(left) => Ok(left),
        Err(RecoverRefused::BadLog { file, at }) => Err((file, at)),
        Err(_) => Err(OTHER),
    }
}

fn of_replay(found: Result<Replayed, ReplayRefused>) -> Found {
    match found {
        Ok(left) => Ok(left),
        Err(ReplayRefused::BadLog { file, at }) => Err((file, at)),
        Err(_) => Err(OTHER),
    }
}

// Whether an event has this number and body, as `0:a`.
fn is_item(alloc: Global, item: &(u64, Event), want: &str) -> bool {
    match want.split_once(':') {
        Some((number, body)) => {
            number_of(number) == Some(item.0) && is_text(alloc, item.1.body(), body)
        }
        None => false,
    }
}

fn are_items(alloc: Global, items: &[(u64, Event)], want: &str) -> bool {
    let mut rest = want;
    for item in items {
        let (first, others) = word_and_rest(rest);
        if !is_item(alloc, item, first) {
            return false;
        }
        rest = others;
    }
    rest.is_empty()
}

fn is_left(alloc: Global, left: &Replayed, want: &str) -> bool {
    let (number, rest) = word_and_rest(want);
    let (txn, items) = word_and_rest(rest);
    number_of(number) == Some(left.next.number)
        && number_of(txn) == Some(left.next.txn)
        && are_items(alloc, &left.items, items)
}

fn is_found(alloc: Global, found: &Found, want: &str) -> bool {
    match (found, word_and_rest(want)) {
        (Ok(left), ("left", rest)) => is_left(alloc, left, rest),
        (Err((file, at)), ("bad", rest)) => { two_numbers(rest) == Some((u64::from(*file), *at)) }
        _ => false,
    }
}

// Whether these are the events that a slow reading gives.
fn are_events(items: &[(u64, Event)], events: &[(u64, u64)]) -> bool {
    for (item, event) in items.iter().zip(events.iter()) {
        match item.1.body() {
            [byte] if (item.0, u64::from(*byte)) == *event => {}
            _ => return false,
        }
    }
    items.len() == events.len()
}

// Whether a slow reading of some files finds the same.
fn is_slowly_found(alloc: Global, found: &Found, files: &[WholeFile]) -> bool {
    match (found, left_by(alloc, files)) {
        (Ok(left), Ok(slow)) => {
            left.next.number == slow.number
                && left.next.txn == slow.txn
                && are_events(&left.items, &slow.events)
        }
        (Err(fault), Err(slow)) => *fault == slow,
        _ => false,
    }
}

// Whether the plain program finds this in some files, and a slow reading the same.
fn is_recovered(alloc: Global, files: &[WholeFile], want: &str) -> bool {
    let found = of_recover(recover(alloc, files));
    is_found(alloc, &found, want) && is_slowly_found(alloc, &found, files)
}

// Whether an event of this one byte was taken.
fn is_taken(reply: &Result<Taken, TakeRefused>, byte: u64) -> bool {
    let Ok(taken) = reply else {
        return false;
    };
    match &taken.event {
        Some(event) => match event.body() {
            [found] => u64::from(*found) == byte,
            _ => false,
        },
        None => false,
    }
}

// Whether there was no event to be taken.
fn is_none_taken(reply: &Result<Taken, TakeRefused>) -> bool {
    match reply {
        Ok(taken) => taken.event.is_none(),
        Err(_) => false,
    }
}

// Whether a taker finds these events, and no more.
fn finds<C: Channel>(channel: &mut C, txn: &mut TakeTxn, events: &[(u64, u64)]) -> bool {
    for event in events {
        if !is_taken(&channel.take(txn), event.1) {
            return false;
        }
    }
    is_none_taken(&channel.take(txn))
}

// Whether a taker of this number, of the first life, finds these events. It stays open.
fn gives<C: Channel>(channel: &mut C, number: u64, events: &[(u64, u64)]) -> bool {
    let Ok(mut txn) = channel.begin_take() else {
        return false;
    };
    let are_found = finds(channel, &mut txn, events);
    txn.into_numbers() == (1, number) && are_found
}

// Whether the stage of a putter begins with this number of an event.
fn stages<C: Channel>(channel: &mut C, putter: u64, first: u64) -> bool {
    match channel.stage_put(PutTxn::new(1, putter)) {
        Ok(ticket) => ticket.first == first,
        Err(StageRefused { txn, cause: _ }) => {
            let _ended = txn.into_numbers();
            false
        }
    }
}

// Whether the next putter has this number, and its stage begins with this one.
fn goes_on<C: Channel>(channel: &mut C, putter: u64, first: u64) -> bool {
    match channel.begin_put() {
        Ok(txn) => txn.into_numbers() == (1, putter) && stages(channel, putter, first),
        Err(_) => false,
    }
}

// Whether a channel gives what a slow reading does, and goes on with its next numbers.
fn has_left(channel: &mut FileChannel<MemDisk>, left: &Left) -> bool {
    gives(channel, left.txn, &left.events)
        && goes_on(channel, left.txn.saturating_add(1), left.number)
}

// Whether a channel that opens some files has what a slow reading finds, or is refused for the fault that it finds.
fn is_opened_so(alloc: Global, files: &[WholeFile]) -> bool {
    let Some(disk) = disk_of(alloc, files) else {
        return false;
    };
    match (channel_on(alloc, disk, OPENED), left_by(alloc, files)) {
        (Ok(mut channel), Ok(left)) => has_left(&mut channel, &left),
        (Err(OpenCause::BadLog { file, at }), Err(slow)) => (file, at) == slow,
        _ => false,
    }
}

// Whether so do they all, the program that replays a folder, and a channel that opens it.
fn leave(alloc: Global, files: &[WholeFile], want: &str) -> bool {
    is_recovered(alloc, files, want)
        && is_opened_so(alloc, files)
        && match replayed(alloc, files, 100) {
            Some(found) => is_found(alloc, &of_replay(found), want),
            None => false,
        }
}

/// Whether a log file 1 of these bytes leaves this.
pub fn leaves(alloc: Global, bytes: Vec<u8>, want: &str) -> bool {
    let mut files = Vec::new(alloc);
    files.push(WholeFile { number: 1, bytes }).is_ok() && leave(alloc, &files, want)
}

// Adds a log file of some pieces, as `1 header 1 1 1, gate 0`.
fn add_log(scene: &mut Logs, file: &str) -> bool {
    let (number, pieces) = word_and_rest(file);
    let Ok(number) = number.parse::<u32>() else {
        return false;
    };
    match spelled(scene.alloc, pieces) {
        Some(bytes) => scene.files.push(WholeFile { number, bytes }).is_ok(),
        None => false,
    }
}

// Flushes a frame, with so many recorded calls.
fn flush(scene: &mut Logs, calls: &str) -> bool {
    match flushed(scene.alloc) {
        Some(disk) => {
            let are_so_many = number_of(calls) == Some(disk.moments());
            scene.disk = Some(disk);
            are_so_many
        }
        None => false,
    }
}

// Log file 1 as a crash leaves it, as `4 front:20`.
fn image_of(scene: &Logs, moment: &str, stood: &str) -> Option<Vec<u8>> {
    let moment = number_of(moment)?;
    let stood = stood_of(stood)?;
    let Some(disk) = &scene.disk else {
        return None;
    };
    let image = disk.stopped_at(moment, &[stood]).ok()?;
    image.file(FileName::Log(1))?.to_vec(scene.alloc).ok()
}

// Whether a crash leaves this, as `4 old left 0 1`.
fn is_left_by_crash(scene: &Logs, row: &str) -> bool {
    let (moment, rest) = word_and_rest(row);
    let (stood, want) = word_and_rest(rest);
    match image_of(scene, moment, stood) {
        Some(bytes) => leaves(scene.alloc, bytes, want),
        None => false,
    }
}

// Whether these are the records, each as its kind, transaction and offset.
fn are_records(records: &[ReadRecord], want: &str) -> bool {
    let mut rest = want;
    for record in records {
        let (kind, others) = word_and_rest(rest);
        let (txn, others) = word_and_rest(others);
        let (at, others) = word_and_rest(others);
        if number_of(kind) != Some(record.kind)
            || number_of(txn) != Some(record.txn)
            || number_of(at) != Some(record.at)
        {
            return false;
        }
        rest = others;
    }
    rest.is_empty()
}

// Whether a reader of the first file gives these records, and the file drops what is open.
fn is_read(scene: &Logs, want: &str) -> bool {
    match read_whole(scene.alloc, &scene.files) {
        Some(read) => read.drops && are_records(&read.records, want),
        None => false,
    }
}

// What a reader gives of a log file of so many frames of so many PUTs.
fn read_frames(alloc: Global, frames: u64, puts: u64) -> Option<Read> {
    let bytes = long_file(alloc, frames, puts.min(10_000) as u32)?;
    let mut files = Vec::new(alloc);
    files.push(WholeFile { number: 1, bytes }).ok()?;
    read_whole(alloc, &files)
}

// Whether each record of so many frames of so many PUTs is read with so many calls, as `100 1 3`.
fn is_read_with(scene: &Logs, row: &str) -> bool {
    let Some((frames, puts, calls)) = three_numbers(row) else {
        return false;
    };
    match read_frames(scene.alloc, frames, puts) {
        Some(read) => {
            let records = frames.saturating_mul(puts.saturating_add(1));
            read.calls == calls && read.records.len() as u64 == records
        }
        None => false,
    }
}

// Whether replaying with a capacity answers so, as `1 over 2` or `2 within`.
fn is_judged(scene: &Logs, row: &str) -> bool {
    let (capacity, want) = word_and_rest(row);
    let Ok(capacity) = capacity.parse::<u32>() else {
        return false;
    };
    match replayed(scene.alloc, &scene.files, capacity) {
        Some(Ok(_)) => want == "within",
        Some(Err(ReplayRefused::OverCapacity { count })) => {
            want.strip_prefix("over ").and_then(number_of) == Some(count)
        }
        _ => false,
    }
}

impl Scene for Logs {
    fn begin(alloc: Global) -> Logs {
        Logs {
            alloc,
            files: Vec::new(alloc),
            disk: None,
            has_tried: false,
        }
    }

    fn holds(&mut self, word: &str, rest: &str) -> bool {
        if word == "log" {
            return add_log(self, rest);
        }
        self.has_tried = true;
        match word {
            "leaves" => leave(self.alloc, &self.files, rest),
            "flushed" => flush(self, rest),
            "crash" => is_left_by_crash(self, rest),
            "records" => is_read(self, rest),
            "calls" => is_read_with(self, rest),
            "capacity" => is_judged(self, rest),
            _ => false,
        }
    }

    fn has_tried(&self) -> bool {
        self.has_tried
    }
}
