// Replays the log files of a folder, one record after another.
ghost use Rattle.std.specs.Prelude.{◌≡◌, ◌<◌, ◌≤◌, ◌+◌, ◌^◌, [], ◌∷◌, ◌++◌, ℕ, List, Option, length, IfOk, IfErr, OnOk, IsErrOf, vec_len};
ghost use Rattle.flume_host.specs.Causes.{Rose};
ghost use Rattle.flume_host.specs.Told.{WhereTold};
ghost use Rattle.event_core.specs.Journal.{Base, IsBase};
ghost use Rattle.record_form.specs.declared.record.Rec.{Rec};
ghost use Rattle.channel_log.specs.Reader.{HasFile, IsThere, Remains};
ghost use Rattle.channel_replay.specs.Marks.{Past};
ghost use Rattle.channel_replay.specs.Plain.{base_of};
ghost use Rattle.channel_replay.specs.Recover.{AreSound, HasFault, IsBadLog, Recovers, WhereLogs, empty_base, fault_lines, file_lines, lines, past_lines, record_lines};
ghost use Rattle.channel_replay.specs.Recovery.{Agrees, IsReached};
ghost use Rattle.channel_replay.specs.Replay.{AppliesAll, LeavesCount, WhereBadLog, WhereHolds, WhereOver, drop_lines, record_count};

use crate::line::Line;
use crate::recovery::{Recovery, Replayed};
use crate::refused::{ReplayRefused, of_frame, of_record};
use channel_log::LogReader;
use flume_host::{Disk, FileName, Steps};
use std::alloc::Global;
use std::sync::ledger::Ledger;

// The offset of the first commit byte.
const FIRST_GATE: u64 = 16;

// Applies the records that a reader has still to give.
fn apply_rest<D: Disk, L: Ledger>(
    disk: &mut D,
    file: u32,
    reader: &mut LogReader,
    recovery: &mut Recovery,
    steps: &mut Steps<L>,
) -> Result<(), ReplayRefused>
    requires there { IsThere (D.told disk.old) file }
    requires file { reader.old.file ≡ file }
    ensures ok { OnOk result ((bytes : List ℕ) (items : List (Rec × ℕ)) (fault : Option ℕ) → HasFile
        (D.told disk.old) file bytes → Remains reader.old bytes items fault → AppliesAll
        (record_lines file items ++ fault_lines file fault) recovery.old recovery.new) }
    ensures bad { IfErr result (λ e. WhereBadLog e (λ f at. (bytes : List ℕ)
        (items : List (Rec × ℕ)) (fault : Option ℕ) → HasFile (D.told disk.old) file bytes → Remains
        reader.old bytes items fault → (base : Base) (past : Past) → Agrees base past recovery.old →
        HasFault base past (record_lines file items ++ fault_lines file fault) f at)) }
    ensures not_over { IfErr result (λ e. WhereOver e (λ count. ⊥)) }
    ensures reached { OnOk result (IsReached recovery.old → IsReached recovery.new) }
    ensures ticks { (bytes : List ℕ) (items : List (Rec × ℕ)) (fault : Option ℕ) → HasFile
        (D.told disk.old) file bytes → Remains reader.old bytes items fault → steps.new ≤ steps.old
        + length items }
    ensures same { D.told disk.new ≡ D.told disk.old }
    ensures fault { IsErrOf result ReplayRefused.DiskFault → Rose (D.faults disk.old)
        (D.faults disk.new) }
    ensures later { D.faults disk.old ≤ D.faults disk.new }
    ensures well { (IsErrOf result ReplayRefused.DiskFault → ⊥) → D.faults disk.new ≡ D.faults
        disk.old }
{
    loop {
        match reader.next(disk, steps) {
            Ok(Some((rec, at))) => match recovery.apply_line(Line::Stands { file, at, rec }) {
                Ok(()) => {}
                Err(refused) => return Err(of_record(refused)),
            },
            Ok(None) => return Ok(()),
            Err(refused) => return Err(of_frame(refused)),
        }
    }
}

// Drops what is open, if a file is begun so.
fn begin_file(recovery: &mut Recovery, drops: bool)
    ensures { AppliesAll (drop_lines drops) recovery.old recovery.new }
{
    if drops {
        recovery.drop_open();
    }
}

// Applies what stands in a file.
fn apply_file<D: Disk, L: Ledger>(
    alloc: Global,
    disk: &mut D,
    file: u32,
    recovery: &mut Recovery,
    steps: &mut Steps<L>,
) -> Result<(), ReplayRefused>
    requires { IsThere (D.told disk.old) file }
    ensures number { file < 2 ^ 32 }
    ensures ok { OnOk result (WhereHolds (D.told disk.old) file
        (λ content. AppliesAll (file_lines file content) recovery.old recovery.new)) }
    ensures bad { IfErr result (λ e. WhereBadLog e (λ f at. WhereHolds (D.told disk.old) file
        (λ content. (base : Base) (past : Past) → Agrees base past recovery.old → HasFault base past
        (file_lines file content) f at))) }
    ensures not_over { IfErr result (λ e. WhereOver e (λ count. ⊥)) }
    ensures reached { OnOk result (IsReached recovery.old → IsReached recovery.new) }
    ensures ticks { WhereHolds (D.told disk.old) file (λ content. steps.new ≤ steps.old +
        record_count (file_lines file content)) }
    ensures same { D.told disk.new ≡ D.told disk.old }
    ensures fault { IsErrOf result ReplayRefused.DiskFault → Rose (D.faults disk.old)
        (D.faults disk.new) }
    ensures later { D.faults disk.old ≤ D.faults disk.new }
    ensures well { (IsErrOf result ReplayRefused.DiskFault → ⊥) → D.faults disk.new ≡ D.faults
        disk.old }
{
    match LogReader::begin(alloc, disk, file, FIRST_GATE) {
        Ok(mut reader) => {
            begin_file(recovery, reader.drops());
            apply_rest(disk, file, &mut reader, recovery, steps)
        }
        Err(refused) => Err(of_frame(refused)),
    }
}

// Applies the log files of a folder, in the order of their numbers.
fn apply_files<D: Disk, L: Ledger>(
    alloc: Global,
    disk: &mut D,
    recovery: &mut Recovery,
    steps: &mut Steps<L>,
) -> Result<(), ReplayRefused>
    requires { Agrees empty_base [] recovery.old }
    ensures ok { OnOk result (WhereTold (D.told disk.old)
        (λ t. WhereLogs t.reads (λ logs. AreSound empty_base [] (lines logs) × Agrees empty_base
        (past_lines [] (lines logs)) recovery.new))) }
    ensures bad { IfErr result (λ e. WhereBadLog e (λ file at. WhereTold (D.told disk.old)
        (λ t. IsBadLog t.reads file at))) }
    ensures not_over { IfErr result (λ e. WhereOver e (λ count. ⊥)) }
    ensures reached { OnOk result (IsReached recovery.new) }
    ensures ticks { WhereTold (D.told disk.old) (λ t. WhereLogs t.reads
        (λ logs. steps.new ≤ steps.old + record_count (lines logs))) }
    ensures same { D.told disk.new ≡ D.told disk.old }
    ensures fault { IsErrOf result ReplayRefused.DiskFault → Rose (D.faults disk.old)
        (D.faults disk.new) }
    ensures later { D.faults disk.old ≤ D.faults disk.new }
    ensures well { (IsErrOf result ReplayRefused.DiskFault → ⊥) → D.faults disk.new ≡ D.faults
        disk.old }
{
    let mut after = None;
    loop {
        match disk.next_name(after) {
            Ok(Some(FileName::Log(file))) => match apply_file(alloc, disk, file, recovery, steps) {
                Ok(()) => after = Some(FileName::Log(file)),
                Err(refused) => return Err(refused),
            },
            Ok(Some(FileName::Check(_))) => return Ok(()),
            Ok(None) => return Ok(()),
            Err(_) => return Err(ReplayRefused::DiskFault),
        }
    }
}

// Refuses more events than the capacity.
fn within(replayed: Replayed, capacity: u32) -> Result<Replayed, ReplayRefused>
    ensures ok { IfOk result (λ r. (r ≡ replayed) × (vec_len r.items ≤ capacity)) }
    ensures over { IfErr result (λ e. WhereOver e (λ count. (count ≡ vec_len replayed.items) ×
        (capacity < count))) }
    ensures not_bad { IfErr result (λ e. WhereBadLog e (λ file at. ⊥)) }
    ensures not_fault { IsErrOf result ReplayRefused.DiskFault → ⊥ }
{
    let count = replayed.items.len() as u64;
    if count > u64::from(capacity) {
        return Err(ReplayRefused::OverCapacity { count });
    }
    Ok(replayed)
}

/// Replays the log files of a folder: the events that their committed transactions leave, in order, with the next event
/// number and the next transaction number. The first fault of the log comes before the capacity, which is judged at the
/// end alone. One frame is in memory at a time, with some of what stands after it, and each record is read once, for
/// which a step is counted. The disk stays as it is.
pub fn replay<D: Disk, L: Ledger>(
    alloc: Global,
    disk: &mut D,
    capacity: u32,
    steps: &mut Steps<L>,
) -> Result<Replayed, ReplayRefused>
    ensures ok { IfOk result (λ r. WhereTold (D.told disk.old)
        (λ t. Recovers t.reads (base_of r) r.next.txn)) }
    ensures within { IfOk result (λ r. vec_len r.items ≤ capacity) }

    // Also where the disk shows nothing, numbers rise, and transactions have numbers from 1 on.
    ensures base { IfOk result (λ r. IsBase (base_of r)) }
    ensures txn { IfOk result (λ r. 1 ≤ r.next.txn) }
    ensures bad { IfErr result (λ e. WhereBadLog e (λ file at. WhereTold (D.told disk.old)
        (λ t. IsBadLog t.reads file at))) }
    ensures over { IfErr result (λ e. WhereOver e (λ count. (capacity < count) × WhereTold
        (D.told disk.old) (λ t. WhereLogs t.reads (λ logs. LeavesCount logs count)))) }
    ensures ticks { WhereTold (D.told disk.old) (λ t. WhereLogs t.reads
        (λ logs. steps.new ≤ steps.old + record_count (lines logs))) }
    ensures same { D.told disk.new ≡ D.told disk.old }
    ensures fault { IsErrOf result ReplayRefused.DiskFault → Rose (D.faults disk.old)
        (D.faults disk.new) }
    ensures later { D.faults disk.old ≤ D.faults disk.new }
    ensures well { (IsErrOf result ReplayRefused.DiskFault → ⊥) → D.faults disk.new ≡ D.faults
        disk.old }
{
    let mut recovery = Recovery::new(alloc);
    match apply_files(alloc, disk, &mut recovery, steps) {
        Ok(()) => within(recovery.finish(), capacity),
        Err(refused) => Err(refused),
    }
}
