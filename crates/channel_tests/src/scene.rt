// A channel and its folder, on which the lines of a scenario work.
use crate::calls::{Call, OTHER, Said, gives, is_said, said};
use channel_face::{Channel, CheckRefused, Counter, Kind, Limits, OpenCause, PruneRefused, Ticket};
use event_core::Entry;
use file_channel::FileChannel;
use flume_host::FileName;
use host_memory::{DiskFault, MemDisk, MemFile, Part};
use memory_channel::MemoryChannel;
use scenarios::{
    Scene, add_text, long_file, number_of, spelled, three_numbers, two_numbers, value_of,
    word_and_rest,
};
use std::alloc::Global;
use std::mem;
use test_fixtures::{disk_after_opening, open, reopen};
use txn_core::Machine;

/// What a channel keeps its events in.
#[derive(Drop)]
pub enum Over {
    /// No channel is open.
    Nothing,
    Plain(Machine),
    Memory(MemoryChannel),
    Disk(FileChannel<MemDisk>),
}

/// A channel, and the folder in which one is opened.
#[derive(Drop)]
pub struct Channels {
    pub alloc: Global,
    pub limits: Limits,
    pub over: Over,
    /// The files of a folder that was not opened yet.
    pub files: Vec<MemFile>,
    /// The calls of its disk that fail.
    pub faults: Vec<DiskFault>,
    /// The folder of a channel that was closed.
    pub disk: Option<MemDisk>,
    /// That of the last stage or commit.
    pub ticket: Ticket,
    /// The life of the tokens that are named.
    pub life: u64,
    /// How many calls of a disk were noted.
    pub noted: u64,
    /// What the last call or opening answered.
    pub said: Said,
    pub has_tried: bool,
}

// Each log file is full with one frame.
const SHORT: Limits = Limits {
    capacity: 10,
    txn_capacity: 10,
    max_file: 66,
};

fn set_limits(scene: &mut Channels, numbers: &str) -> bool {
    let Some((capacity, txn_capacity, max_file)) = three_numbers(numbers) else {
        return false;
    };
    if let (Ok(capacity), Ok(txn_capacity)) = (
        u32::try_from(capacity),
        u32::try_from(txn_capacity),
    ) {
        scene.limits = Limits {
            capacity,
            txn_capacity,
            max_file,
        };
        return true;
    }
    false
}

fn make_plain(scene: &mut Channels, kind: Kind) -> bool {
    match Machine::new(scene.alloc, scene.limits, kind) {
        Ok(channel) => {
            scene.over = Over::Plain(channel);
            true
        }
        Err(_) => false,
    }
}

fn make_in_memory(scene: &mut Channels) -> bool {
    match MemoryChannel::new(scene.alloc, scene.limits) {
        Ok(channel) => {
            scene.over = Over::Memory(channel);
            true
        }
        Err(_) => false,
    }
}

// Adds a log file of some pieces, as `1 header 1 1 1, gate 0`.
fn add_log(scene: &mut Channels, file: &str) -> bool {
    let (number, pieces) = word_and_rest(file);
    let Ok(number) = number.parse::<u32>() else {
        return false;
    };
    let name = FileName::Log(number);
    match spelled(scene.alloc, pieces) {
        Some(bytes) => scene.files.push(MemFile { name, bytes }).is_ok(),
        None => false,
    }
}

// Adds log file 1 of so many frames of so many PUTs, as `100 2`.
fn add_long_log(scene: &mut Channels, numbers: &str) -> bool {
    let Some((frames, puts)) = two_numbers(numbers) else {
        return false;
    };
    let name = FileName::Log(1);
    match long_file(scene.alloc, frames, puts.min(10_000) as u32) {
        Some(bytes) => scene.files.push(MemFile { name, bytes }).is_ok(),
        None => false,
    }
}

// Adds a checkpoint file of a text.
fn add_check(scene: &mut Channels, file: &str) -> bool {
    let (number, text) = word_and_rest(file);
    let Ok(number) = number.parse::<u32>() else {
        return false;
    };
    let name = FileName::Check(number);
    let mut bytes = Vec::new(scene.alloc);
    add_text(&mut bytes, text) && scene.files.push(MemFile { name, bytes }).is_ok()
}

/// A call of a disk that fails.
pub fn fault(call: u64) -> DiskFault {
    DiskFault {
        call,
        part: Part::Nothing,
    }
}

// After the calls with which an empty folder is opened, the call of this place fails.
fn add_fault(scene: &mut Channels, place: &str) -> bool {
    match (
        disk_after_opening(scene.alloc, scene.limits),
        number_of(place),
    ) {
        (Ok(disk), Some(place)) => scene
            .faults
            .push(fault(disk.calls().saturating_add(place)))
            .is_ok(),
        _ => false,
    }
}

// The call of this place after those that were noted fails.
fn add_fault_after_noted(scene: &mut Channels, place: &str) -> bool {
    match number_of(place) {
        Some(place) => scene
            .faults
            .push(fault(scene.noted.saturating_add(place)))
            .is_ok(),
        None => false,
    }
}

// The folder that is opened next.
fn folder(scene: &mut Channels) -> Option<MemDisk> {
    let faults = mem::replace(&mut scene.faults, Vec::new(scene.alloc));
    if let Some(disk) = scene.disk.take() {
        return Some(disk);
    }
    let files = mem::replace(&mut scene.files, Vec::new(scene.alloc));
    let disk = MemDisk::with_files(scene.alloc, files).ok()?;
    Some(disk.failing_at(faults))
}

// A cause as a word, and its numbers.
fn cause_of(cause: OpenCause) -> (&'static str, u64, u64) {
    match cause {
        OpenCause::BadLog { file, at } => ("bad-log", u64::from(file), at),
        OpenCause::BadCheck { file, at } => ("bad-check", u64::from(file), at),
        OpenCause::OverCapacity { count } => ("over-capacity", u64::from(count), 0),
        OpenCause::Spent {
            counter: Counter::File,
        } => ("spent-file", 0, 0),
        OpenCause::DiskFault => ("disk-fault", 0, 0),
        _ => ("other", 0, 0),
    }
}

// Opens the folder, which is kept where no channel is made.
fn opened(scene: &mut Channels) -> Said {
    let Some(disk) = folder(scene) else {
        return OTHER;
    };
    scene.life = 1;
    match open(scene.alloc, disk, scene.limits) {
        Ok(channel) => {
            scene.over = Over::Disk(channel);
            ("done", 0)
        }
        Err((disk, cause)) => {
            scene.disk = Some(disk);
            (cause_of(cause).0, 0)
        }
    }
}

/// Opens the folder.
pub fn is_opened(scene: &mut Channels) -> bool {
    scene.said = opened(scene);
    scene.said.0 == "done"
}

fn is_cause(cause: OpenCause, want: &str) -> bool {
    let (word, numbers) = word_and_rest(want);
    let (first, second) = word_and_rest(numbers);
    cause_of(cause) == (word, value_of(first), value_of(second))
}

// Whether the folder is not opened for this cause. It stays as it was, and the one call that is recorded is the settle.
fn is_refused(scene: &mut Channels, want: &str) -> bool {
    let Some(disk) = folder(scene) else {
        return false;
    };
    scene.has_tried = true;
    let calls = disk.moments();
    match open(scene.alloc, disk, scene.limits) {
        Ok(_channel) => false,
        Err((disk, cause)) => is_cause(cause, want) && disk.moments() == calls.saturating_add(1),
    }
}

/// Closes the channel. Whether it had a folder.
pub fn is_closed(scene: &mut Channels) -> bool {
    match mem::replace(&mut scene.over, Over::Nothing) {
        Over::Disk(channel) => {
            scene.disk = Some(channel.close());
            true
        }
        _ => false,
    }
}

// The channel is opened anew.
fn reopened(scene: &mut Channels) -> Said {
    match &mut scene.over {
        Over::Disk(channel) => match reopen(channel) {
            Ok(()) => ("done", 0),
            Err(cause) => (cause_of(cause).0, 0),
        },
        _ => OTHER,
    }
}

// The channel lays a checkpoint.
fn laid(scene: &mut Channels) -> Said {
    let Over::Disk(channel) = &mut scene.over else {
        return OTHER;
    };
    match channel.checkpoint() {
        Ok(()) => ("done", 0),
        Err(CheckRefused::Broken) => ("broken", 0),
        Err(
            CheckRefused::Spent {
                counter: Counter::Check,
            },
        ) => ("spent-check", 0),
        Err(CheckRefused::DiskFault) => ("disk-fault", 0),
        Err(CheckRefused::CheckFault) => ("check-fault", 0),
        Err(_) => OTHER,
    }
}

fn said_of_prune(reply: Result<u64, PruneRefused>) -> Said {
    match reply {
        Ok(count) => ("count", count),
        Err(PruneRefused::Broken) => ("broken", 0),
        Err(PruneRefused::DiskFault) => ("disk-fault", 0),
        Err(_) => OTHER,
    }
}

// The channel removes the files that its newest checkpoint does not need.
fn pruned(scene: &mut Channels) -> Said {
    match &mut scene.over {
        Over::Disk(channel) => said_of_prune(channel.prune()),
        _ => OTHER,
    }
}

// The same, however many files are left to be removed.
fn pruned_rest(scene: &mut Channels) -> Said {
    match pruned(scene).0 {
        "count" => ("done", 0),
        _ => OTHER,
    }
}

// Tokens are named of this life.
fn set_life(scene: &mut Channels, life: &str) -> bool {
    scene.life = value_of(life);
    true
}

fn said_by(scene: &mut Channels, call: Call<'_>) -> Said {
    match &mut scene.over {
        Over::Plain(channel) => said(scene.alloc, channel, &mut scene.ticket, call),
        Over::Memory(channel) => said(scene.alloc, channel, &mut scene.ticket, call),
        Over::Disk(channel) => said(scene.alloc, channel, &mut scene.ticket, call),
        Over::Nothing => OTHER,
    }
}

// What is said of a call, and what it has to answer, as `1 a > done` or `> done`.
fn call_and_answer(rest: &str) -> (&str, &str) {
    match rest.strip_prefix("> ") {
        Some(want) => ("", want),
        None => rest.split_once(" > ").unwrap_or((rest, "")),
    }
}

/// Whether a call answers as its line has it.
pub fn is_answered(scene: &mut Channels, word: &str, rest: &str) -> bool {
    let (words, want) = call_and_answer(rest);
    let (number, value) = word_and_rest(words);
    let call = Call {
        word,
        life: scene.life,
        number: value_of(number),
        value: value_of(value),
    };
    scene.has_tried = true;
    scene.said = match word {
        "reopen" => reopened(scene),
        "checkpoint" => laid(scene),
        "prune" => pruned(scene),
        "prune-rest" => pruned_rest(scene),
        _ => said_by(scene, call),
    };
    is_said(scene.said, want)
}

/// Whether the channel gives these events, and no more. It keeps them.
pub fn has(scene: &mut Channels, bodies: &str) -> bool {
    match &mut scene.over {
        Over::Plain(channel) => gives(channel, bodies),
        Over::Memory(channel) => gives(channel, bodies),
        Over::Disk(channel) => gives(channel, bodies),
        Over::Nothing => false,
    }
}

// Whether these are two transactions of puts, the first of one event, and one that takes both.
fn are_two_and_their_takes(journal: &[Entry]) -> bool {
    match journal {
        [Entry::Puts(first), Entry::Puts(_), Entry::Takes(taken)] => {
            first.len() == 1 && taken.as_slice() == [0, 1].as_slice()
        }
        _ => false,
    }
}

// Whether the plain channel has such a journal.
fn has_journal(scene: &Channels) -> bool {
    match &scene.over {
        Over::Plain(channel) => are_two_and_their_takes(channel.journal()),
        _ => false,
    }
}

// Whether the channel is not broken and has so many events at most.
fn is_mended(scene: &Channels, most: &str) -> bool {
    match &scene.over {
        Over::Disk(channel) => !channel.is_broken() && channel.size() <= value_of(most),
        _ => false,
    }
}

// A file of the folder that was closed: log file 1 is named `1`, and checkpoint 1 `check-1`.
fn file_of<'a>(scene: &'a Channels, name: &str) -> Option<&'a [u8]> {
    let name = match name.strip_prefix("check-") {
        Some(number) => FileName::Check(number.parse::<u32>().ok()?),
        None => FileName::Log(name.parse::<u32>().ok()?),
    };
    match &scene.disk {
        Some(disk) => disk.file(name),
        None => None,
    }
}

// Whether a file has these bytes from an offset on, as `1 0 FLUMELOG`.
fn holds_bytes(scene: &Channels, file: &str) -> bool {
    let (name, rest) = word_and_rest(file);
    let (offset, text) = word_and_rest(rest);
    let Some(bytes) = file_of(scene, name) else {
        return false;
    };
    let from = value_of(offset) as usize;
    let mut want = Vec::new(scene.alloc);
    add_text(&mut want, text)
        && bytes
            .get(from..)
            .unwrap_or(b"")
            .starts_with(want.as_slice())
}

// Whether a file has so many bytes, as `1 115`, or is not there, as `1 none`.
fn is_long(scene: &Channels, file: &str) -> bool {
    let (name, length) = word_and_rest(file);
    match file_of(scene, name) {
        Some(bytes) => number_of(length) == Some(bytes.len() as u64),
        None => length == "none",
    }
}

/// How many calls were made of the disk of the folder that was closed.
pub fn calls(scene: &Channels) -> u64 {
    match &scene.disk {
        Some(disk) => disk.calls(),
        None => 0,
    }
}

// Notes how many calls were made of the disk, and leaves the folder for another.
fn note(scene: &mut Channels) -> bool {
    scene.noted = calls(scene);
    scene.disk = None;
    scene.noted > 0
}

// Whether so many calls more were made of the disk than were noted.
fn are_more(scene: &Channels, count: &str) -> bool {
    number_of(count) == calls(scene).checked_sub(scene.noted)
}

// Of folders and channels that are made.
fn is_made(scene: &mut Channels, word: &str, rest: &str) -> bool {
    match word {
        "limits" => set_limits(scene, rest),
        "plain" => make_plain(scene, Kind::File),
        "plain-as-in-memory" => make_plain(scene, Kind::Memory),
        "in-memory" => make_in_memory(scene),
        "log" => add_log(scene, rest),
        "long-log" => add_long_log(scene, rest),
        "check" => add_check(scene, rest),
        "fails" => add_fault(scene, rest),
        "fails-after-noted" => add_fault_after_noted(scene, rest),
        "on-disk" => is_opened(scene),
        "close" => is_closed(scene),
        "note" => note(scene),
        "life" => set_life(scene, rest),
        "left" => true,
        _ => is_answered(scene, word, rest),
    }
}

impl Scene for Channels {
    fn begin(alloc: Global) -> Channels {
        Channels {
            alloc,
            limits: SHORT,
            over: Over::Nothing,
            files: Vec::new(alloc),
            faults: Vec::new(alloc),
            disk: None,
            ticket: Ticket {
                life: 0,
                frame: 0,
                first: 0,
                count: 0,
            },
            life: 1,
            noted: 0,
            said: OTHER,
            has_tried: false,
        }
    }

    fn holds(&mut self, word: &str, rest: &str) -> bool {
        match word {
            "refused" => is_refused(self, rest),
            "gives" => has(self, rest),
            "journal-of-two" => has_journal(self),
            "mended" => is_mended(self, rest),
            "holds" => holds_bytes(self, rest),
            "long" => is_long(self, rest),
            "more-calls" => are_more(self, rest),
            _ => is_made(self, word, rest),
        }
    }

    fn has_tried(&self) -> bool {
        self.has_tried
    }
}
