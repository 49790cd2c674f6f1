// Log files on a disk: replayed, and read one record after another.
ghost use Rattle.std.specs.Prelude.{◌≡◌, ◌<◌, None};
ghost use Rattle.host_memory.specs.Words.{told_in};

use channel_log::LogReader;
use channel_replay::{ReplayRefused, Replayed, WholeFile, replay};
use flume_host::{FileName, Steps};
use host_memory::{MemDisk, MemFile};
use record_form::{Outline, Rec};
use std::alloc::Global;
use std::marker::Brand;
use std::sync::ledger::{Blank, Ledger};

/// A disk with these files.
pub fn disk_of(alloc: Global, files: &[WholeFile]) -> Option<MemDisk> {
    let mut all = Vec::new(alloc);
    for file in files {
        let name = FileName::Log(file.number);
        let bytes = file.bytes.to_vec(alloc).ok()?;
        all.push(MemFile { name, bytes }).ok()?;
    }
    MemDisk::with_files(alloc, all).ok()
}

fn replay_by<L: Ledger>(
    alloc: Global,
    blank: Blank,
    mut disk: MemDisk,
    capacity: u32,
) -> Result<Replayed, ReplayRefused>
    requires name { blank.name ≡ L.name }
    requires parts { blank.parts ≡ L.parts }
    requires some { 0 < L.parts }
{
    let mut steps = Steps::<L>::new(blank);
    replay(alloc, &mut disk, capacity, &mut steps)
}

/// What replaying a folder of these files answers.
pub fn replayed(
    alloc: Global,
    files: &[WholeFile],
    capacity: u32,
) -> Option<Result<Replayed, ReplayRefused>> {
    let disk = disk_of(alloc, files)?;
    Some(replay_by::<Brand>(alloc, Blank::new(1), disk, capacity))
}

/// A record that a reader gave, by what its outline says.
#[derive(Clone, Copy, PartialEq)]
pub struct ReadRecord {
    /// Its first byte.
    pub kind: u64,
    /// Its transaction.
    pub txn: u64,
    /// The length of its event, the number of its event, or the number of its first event.
    pub first: u64,
    /// How many it counts.
    pub count: u32,
    /// Where it stands.
    pub at: u64,
}

/// What a reader gave of a file.
#[derive(Drop)]
pub struct Read {
    /// The file first drops what is open.
    pub drops: bool,
    /// Its records.
    pub records: Vec<ReadRecord>,
    /// How many calls of the disk were made.
    pub calls: u64,
}

// By which call of a reader records are given.
#[derive(Clone, Copy, Debug, PartialEq, Eq)]
enum By {
    Records,
    Outlines,
}

fn said(outline: Outline, at: u64) -> ReadRecord {
    let (kind, txn, first, count) = match outline {
        Outline::Put { txn, length } => (1, txn, u64::from(length), 0),
        Outline::Take { txn, number } => (2, txn, number, 0),
        Outline::Rollback { txn } => (3, txn, 0, 0),
        Outline::CommitPut { txn, first, count } => (4, txn, first, count),
        Outline::CommitTake { txn, count } => (5, txn, 0, count),
        Outline::End { count } => (6, 0, 0, count),
    };
    ReadRecord {
        kind,
        txn,
        first,
        count,
        at,
    }
}

// The outline of a whole record, made here again.
fn outline_of(rec: &Rec) -> Outline {
    match rec {
        Rec::Put { txn, event } => Outline::Put {
            txn: *txn,
            length: event.size() as u32,
        },
        Rec::Take { txn, number } => Outline::Take {
            txn: *txn,
            number: *number,
        },
        Rec::Rollback { txn } => Outline::Rollback { txn: *txn },
        Rec::CommitPut { txn, first, count } => Outline::CommitPut {
            txn: *txn,
            first: *first,
            count: *count,
        },
        Rec::CommitTake { txn, count } => Outline::CommitTake {
            txn: *txn,
            count: *count,
        },
        Rec::End { count } => Outline::End { count: *count },
    }
}

// The next record of a file, if there is one. The disk tells nothing, so that contracts ask nothing of it.
fn next_record<L: Ledger>(
    reader: &mut LogReader,
    disk: &mut MemDisk,
    steps: &mut Steps<L>,
    by: By,
) -> Result<Option<ReadRecord>, ()>
    requires { told_in disk.old ≡ None }
    ensures { told_in disk.new ≡ None }
{
    match by {
        By::Records => match reader.next(disk, steps) {
            Ok(Some((rec, at))) => Ok(Some(said(outline_of(&rec), at))),
            Ok(None) => Ok(None),
            Err(_) => Err(()),
        },
        By::Outlines => match reader.next_outline(disk, steps) {
            Ok(Some((outline, at))) => Ok(Some(said(outline, at))),
            Ok(None) => Ok(None),
            Err(_) => Err(()),
        },
    }
}

// Reads each record that a reader has still to give.
fn read_rest<L: Ledger>(
    alloc: Global,
    reader: &mut LogReader,
    disk: &mut MemDisk,
    steps: &mut Steps<L>,
    by: By,
) -> Option<Vec<ReadRecord>>
    requires { told_in disk.old ≡ None }
{
    let mut records = Vec::new(alloc);
    for _ in 0..u64::MAX {
        match next_record(reader, disk, steps, by) {
            Ok(Some(record)) => records.push(record).ok()?,
            Ok(None) => return Some(records),
            Err(()) => return None,
        }
    }
    None
}

// Reads each record of log file 1.
fn read_by<L: Ledger>(alloc: Global, blank: Blank, disk: MemDisk, by: By) -> Option<Read>
    requires name { blank.name ≡ L.name }
    requires parts { blank.parts ≡ L.parts }
    requires some { 0 < L.parts }
{
    let mut disk = disk.silent();
    let mut steps = Steps::<L>::new(blank);
    let mut reader = LogReader::begin(alloc, &mut disk, 1, 16).ok()?;
    let drops = reader.drops();
    let records = read_rest(alloc, &mut reader, &mut disk, &mut steps, by)?;
    Some(Read {
        drops,
        records,
        calls: disk.calls(),
    })
}

fn read_one(alloc: Global, files: &[WholeFile], by: By) -> Option<Read> {
    let disk = disk_of(alloc, files)?;
    read_by::<Brand>(alloc, Blank::new(1), disk, by)
}

/// What a reader gives of log file 1 of these, if it gives the same by outlines as by whole records, in as many calls of the disk.
pub fn read_whole(alloc: Global, files: &[WholeFile]) -> Option<Read> {
    let read = read_one(alloc, files, By::Records)?;
    let outlines = read_one(alloc, files, By::Outlines)?;
    if outlines.records == read.records
        && outlines.drops == read.drops
        && outlines.calls == read.calls
    {
        Some(read)
    } else {
        None
    }
}
