// Replays the log files of a folder into a ring and a table, one record after another.
ghost use Rattle.std.specs.Prelude.{◌≡◌, ◌<◌, ◌≤◌, ◌+◌, ◌^◌, [], ◌∷◌, ◌++◌, ℕ, List, Option, length, IfOk, IfErr, OnOk, IsErrOf};
ghost use Rattle.flume_host.specs.Causes.{Rose};
ghost use Rattle.flume_host.specs.Told.{WhereTold};
ghost use Rattle.record_form.specs.declared.record.Rec.{Rec};
ghost use Rattle.channel_log.specs.Reader.{HasFile, IsThere, Remains};
ghost use Rattle.channel_replay.specs.Recover.{AreSound, IsBadLog, WhereLogs, empty_base, empty_start, fault_lines, file_lines, lines, past_lines, record_lines};
ghost use Rattle.channel_replay.specs.Replay.{LeavesCount, WhereBadLog, WhereHolds, WhereOver, drop_lines, record_count};
ghost use Rattle.ring_replay.specs.Indexing.{GoesThrough, IsKept, Keeps, LinesStand, Places};
ghost use Rattle.ring_replay.specs.Folder.{AreReplayed, IsReady, StopsIn};

use crate::indexing::Indexing;
use channel_log::LogReader;
use channel_replay::{Next, ReplayRefused, of_frame, of_record};
use event_ring::Ring;
use flume_host::{Disk, FileName, Steps};
use std::alloc::Global;
use std::sync::ledger::Ledger;

/// What a log leaves: the events with the places of their records, and the numbers that come next.
#[derive(Drop)]
pub struct Replayed {
    pub ring: Ring,
    pub next: Next,
}

// The offset of the first commit byte.
const FIRST_GATE: u64 = 16;

// Room for the events of a log, which may be more than the capacity in its middle.
fn begin(alloc: Global, capacity: u32) -> Result<Indexing, ReplayRefused>
    ensures ok { IfOk result (λ r. (places : Places) → Keeps places empty_start [] r) }
    ensures not_over { IfErr result (λ e. WhereOver e (λ count. ⊥)) }
    ensures not_bad { IfErr result (λ e. WhereBadLog e (λ file at. ⊥)) }
    ensures not_fault { IsErrOf result ReplayRefused.DiskFault → ⊥ }
{
    match Indexing::new(alloc, capacity) {
        Ok(index) => Ok(index),
        Err(_) => Err(ReplayRefused::NoMemory),
    }
}

/// Applies the records that a reader has still to give, or names the first fault of these.
pub fn apply_rest<D: Disk, L: Ledger>(
    disk: &mut D,
    file: u32,
    reader: LogReader,
    index: &mut Indexing,
    steps: &mut Steps<L>,
) -> Result<(), ReplayRefused>
    requires there { IsThere (D.told disk.old) file }
    requires file { reader.file ≡ file }
    requires kept { IsKept index.old }
    ensures ok { OnOk result ((bytes : List ℕ) (items : List (Rec × ℕ)) (fault : Option ℕ) → HasFile
        (D.told disk.old) file bytes → Remains reader bytes items fault → GoesThrough
        (record_lines file items ++ fault_lines file fault) index.old index.new) }
    ensures bad { IfErr result (λ e. WhereBadLog e (λ f at. (bytes : List ℕ)
        (items : List (Rec × ℕ)) (fault : Option ℕ) → HasFile (D.told disk.old) file bytes → Remains
        reader bytes items fault → StopsIn (record_lines file items ++ fault_lines file fault)
        index.old f at)) }
    ensures not_over { IfErr result (λ e. WhereOver e (λ count. ⊥)) }
    ensures kept { OnOk result (IsKept index.new) }
    ensures ticks { (bytes : List ℕ) (items : List (Rec × ℕ)) (fault : Option ℕ) → HasFile
        (D.told disk.old) file bytes → Remains reader bytes items fault → steps.new ≤ steps.old +
        length items }
    ensures same { D.told disk.new ≡ D.told disk.old }
    ensures fault { IsErrOf result ReplayRefused.DiskFault → Rose (D.faults disk.old)
        (D.faults disk.new) }
    ensures later { D.faults disk.old ≤ D.faults disk.new }
    ensures well { (IsErrOf result ReplayRefused.DiskFault → ⊥) → D.faults disk.new ≡ D.faults
        disk.old }
{
    let mut reader = reader;
    loop {
        match reader.next_outline(disk, steps) {
            Ok(Some((outline, at))) => match index.apply_outline(file, at, outline) {
                Ok(()) => {}
                Err(refused) => return Err(of_record(refused)),
            },
            Ok(None) => return Ok(()),
            Err(refused) => return Err(of_frame(refused)),
        }
    }
}

/// Drops what is open, if a file is begun so.
pub fn begin_file(index: &mut Indexing, drops: bool)
    requires { IsKept index.old }
    ensures dropped { GoesThrough (drop_lines drops) index.old index.new }
    ensures kept { IsKept index.new }
{
    if drops {
        index.drop_open();
    }
}

// Applies what stands in a file.
fn apply_file<D: Disk, L: Ledger>(
    alloc: Global,
    disk: &mut D,
    file: u32,
    index: &mut Indexing,
    steps: &mut Steps<L>,
) -> Result<(), ReplayRefused>
    requires there { IsThere (D.told disk.old) file }
    requires kept { IsKept index.old }
    ensures number { file < 2 ^ 32 }
    ensures ok { OnOk result (WhereHolds (D.told disk.old) file
        (λ content. GoesThrough (file_lines file content) index.old index.new)) }
    ensures bad { IfErr result (λ e. WhereBadLog e (λ f at. WhereHolds (D.told disk.old) file
        (λ content. StopsIn (file_lines file content) index.old f at))) }
    ensures not_over { IfErr result (λ e. WhereOver e (λ count. ⊥)) }
    ensures kept { OnOk result (IsKept index.new) }
    ensures ticks { WhereHolds (D.told disk.old) file (λ content. steps.new ≤ steps.old +
        record_count (file_lines file content)) }
    ensures same { D.told disk.new ≡ D.told disk.old }
    ensures fault { IsErrOf result ReplayRefused.DiskFault → Rose (D.faults disk.old)
        (D.faults disk.new) }
    ensures later { D.faults disk.old ≤ D.faults disk.new }
    ensures well { (IsErrOf result ReplayRefused.DiskFault → ⊥) → D.faults disk.new ≡ D.faults
        disk.old }
{
    match LogReader::begin(alloc, disk, file, FIRST_GATE) {
        Ok(reader) => {
            begin_file(index, reader.drops());
            apply_rest(disk, file, reader, index, steps)
        }
        Err(refused) => Err(of_frame(refused)),
    }
}

// Applies the log files of a folder, in the order of their numbers.
fn apply_files<D: Disk, L: Ledger>(
    alloc: Global,
    disk: &mut D,
    index: &mut Indexing,
    steps: &mut Steps<L>,
) -> Result<(), ReplayRefused>
    requires { (places : Places) → Keeps places empty_start [] index.old }
    ensures ok { OnOk result (WhereTold (D.told disk.old)
        (λ t. WhereLogs t.reads (λ logs. AreSound empty_base [] (lines logs) ×
        ((places : Places) → LinesStand places (lines logs) → Keeps places empty_start
        (past_lines [] (lines logs)) index.new)))) }
    ensures bad { IfErr result (λ e. WhereBadLog e (λ file at. WhereTold (D.told disk.old)
        (λ t. IsBadLog t.reads file at))) }
    ensures not_over { IfErr result (λ e. WhereOver e (λ count. ⊥)) }
    ensures kept { OnOk result (IsKept index.new) }
    ensures ticks { WhereTold (D.told disk.old) (λ t. WhereLogs t.reads
        (λ logs. steps.new ≤ steps.old + record_count (lines logs))) }
    ensures same { D.told disk.new ≡ D.told disk.old }
    ensures fault { IsErrOf result ReplayRefused.DiskFault → Rose (D.faults disk.old)
        (D.faults disk.new) }
    ensures later { D.faults disk.old ≤ D.faults disk.new }
    ensures well { (IsErrOf result ReplayRefused.DiskFault → ⊥) → D.faults disk.new ≡ D.faults
        disk.old }
{
    let mut after = None;
    loop {
        match disk.next_name(after) {
            Ok(Some(FileName::Log(file))) => match apply_file(alloc, disk, file, index, steps) {
                Ok(()) => after = Some(FileName::Log(file)),
                Err(refused) => return Err(refused),
            },
            Ok(Some(FileName::Check(_))) => return Ok(()),
            Ok(None) => return Ok(()),
            Err(_) => return Err(ReplayRefused::DiskFault),
        }
    }
}

/// The ring of a replay with as many slots as the capacity, and its next numbers. More events than that are refused as
/// OverCapacity.
pub fn within(index: Indexing, capacity: u32) -> Result<Replayed, ReplayRefused>
    ensures ok { IfOk result (λ r. (r.ring ≡ record index.ring { slots = capacity }) ×
        (r.next ≡ index.next) × (length index.ring.live ≤ capacity)) }
    ensures over { IfErr result (λ e. WhereOver e (λ count. (count ≡ length index.ring.live) ×
        (capacity < count))) }
    ensures not_bad { IfErr result (λ e. WhereBadLog e (λ file at. ⊥)) }
    ensures not_fault { IsErrOf result ReplayRefused.DiskFault → ⊥ }
{
    let count = index.ring.len() as u64;
    if count > u64::from(capacity) {
        return Err(ReplayRefused::OverCapacity { count });
    }
    let mut ring = index.ring;
    if ring.resize(capacity).is_err() {
        return Err(ReplayRefused::NoMemory);
    }
    Ok(Replayed {
        ring,
        next: index.next,
    })
}

/// Replays the log files of a folder into a ring: the events that their committed transactions leave, in order, with the
/// places of their records, the next event number and the next transaction number. The first fault of the log comes
/// before the capacity, which is judged at the end alone. One frame is in memory at a time, with some of what stands
/// after it, and each record is read once, for which a step is counted. The disk stays as it is.
pub fn replay<D: Disk, L: Ledger>(
    alloc: Global,
    disk: &mut D,
    capacity: u32,
    steps: &mut Steps<L>,
) -> Result<Replayed, ReplayRefused>
    ensures ok { IfOk result (λ r. WhereTold (D.told disk.old)
        (λ t. WhereLogs t.reads (λ logs. AreReplayed logs r))) }

    // Also where the disk shows nothing.
    ensures ready { IfOk result (λ r. IsReady capacity r) }
    ensures bad { IfErr result (λ e. WhereBadLog e (λ file at. WhereTold (D.told disk.old)
        (λ t. IsBadLog t.reads file at))) }
    ensures over { IfErr result (λ e. WhereOver e (λ count. (capacity < count) × WhereTold
        (D.told disk.old) (λ t. WhereLogs t.reads (λ logs. LeavesCount logs count)))) }
    ensures ticks { WhereTold (D.told disk.old) (λ t. WhereLogs t.reads
        (λ logs. steps.new ≤ steps.old + record_count (lines logs))) }
    ensures same { D.told disk.new ≡ D.told disk.old }
    ensures fault { IsErrOf result ReplayRefused.DiskFault → Rose (D.faults disk.old)
        (D.faults disk.new) }
    ensures later { D.faults disk.old ≤ D.faults disk.new }
    ensures well { (IsErrOf result ReplayRefused.DiskFault → ⊥) → D.faults disk.new ≡ D.faults
        disk.old }
{
    let mut index = begin(alloc, capacity)?;
    match apply_files(alloc, disk, &mut index, steps) {
        Ok(()) => {
            index.drop_open();
            within(index, capacity)
        }
        Err(refused) => Err(refused),
    }
}
