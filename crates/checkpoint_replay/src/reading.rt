// Applies the log of a folder from a place on: the rest of the place's file, and the files after it.
ghost use Rattle.std.specs.Prelude.{◌≡◌, ◌<◌, ◌≤◌, ◌+◌, ◌^◌, OnOk, IfErr, IsErrOf};
ghost use Rattle.flume_host.specs.Causes.{Rose};
ghost use Rattle.flume_host.specs.Told.{WhereTold};
ghost use Rattle.channel_log.specs.Reader.{IsThere};
ghost use Rattle.channel_replay.specs.Recover.{lines};
ghost use Rattle.channel_replay.specs.Replay.{WhereBadLog, WhereOver, record_count};
ghost use Rattle.ring_replay.specs.Indexing.{GoesThrough, IsKept};
ghost use Rattle.ring_replay.specs.Folder.{StopsIn};
ghost use Rattle.checkpoint_recovery.specs.Reading.{IsInLog};
ghost use Rattle.checkpoint_replay.specs.Reading.{WhereBehind, WhereFrom, WhereLines};

use channel_log::LogReader;
use channel_replay::{ReplayRefused, of_frame};
use checkpoint::Place;
use flume_host::{Disk, FileName, Steps};
use ring_replay::{Indexing, apply_rest, begin_file};
use std::alloc::Global;
use std::sync::ledger::Ledger;

// The offset of the first commit byte.
const FIRST_GATE: u64 = 16;

// Applies what a file has from a commit byte on.
fn apply_file<D: Disk, L: Ledger>(
    alloc: Global,
    disk: &mut D,
    file: u32,
    at: u64,
    index: &mut Indexing,
    steps: &mut Steps<L>,
) -> Result<(), ReplayRefused>
    requires there { IsThere (D.told disk.old) file }
    requires kept { IsKept index.old }
    ensures number { file < 2 ^ 32 }
    ensures ok { OnOk result (WhereFrom (D.told disk.old) file at
        (λ own. GoesThrough own index.old index.new)) }
    ensures bad { IfErr result (λ e. WhereBadLog e (λ f a. WhereFrom (D.told disk.old) file at
        (λ own. StopsIn own index.old f a))) }
    ensures not_over { IfErr result (λ e. WhereOver e (λ count. ⊥)) }
    ensures kept { OnOk result (IsKept index.new) }
    ensures ticks { WhereFrom (D.told disk.old) file at
        (λ own. steps.new ≤ steps.old + record_count own) }
    ensures same { D.told disk.new ≡ D.told disk.old }
    ensures fault { IsErrOf result ReplayRefused.DiskFault → Rose (D.faults disk.old)
        (D.faults disk.new) }
    ensures later { D.faults disk.old ≤ D.faults disk.new }
    ensures well { (IsErrOf result ReplayRefused.DiskFault → ⊥) → D.faults disk.new ≡ D.faults
        disk.old }
{
    match LogReader::begin(alloc, disk, file, at) {
        Ok(reader) => {
            begin_file(index, reader.drops());
            apply_rest(disk, file, reader, index, steps)
        }
        Err(refused) => Err(of_frame(refused)),
    }
}

// Applies the log files after a number, in the order of their numbers.
fn apply_behind<D: Disk, L: Ledger>(
    alloc: Global,
    disk: &mut D,
    file: u32,
    index: &mut Indexing,
    steps: &mut Steps<L>,
) -> Result<(), ReplayRefused>
    requires { IsKept index.old }
    ensures ok { OnOk result (WhereBehind (D.told disk.old) file
        (λ logs. GoesThrough (lines logs) index.old index.new)) }
    ensures bad { IfErr result (λ e. WhereBadLog e (λ f at. WhereBehind (D.told disk.old) file
        (λ logs. StopsIn (lines logs) index.old f at))) }
    ensures not_over { IfErr result (λ e. WhereOver e (λ count. ⊥)) }
    ensures kept { OnOk result (IsKept index.new) }
    ensures ticks { WhereBehind (D.told disk.old) file (λ logs. steps.new ≤ steps.old + record_count
        (lines logs)) }
    ensures same { D.told disk.new ≡ D.told disk.old }
    ensures fault { IsErrOf result ReplayRefused.DiskFault → Rose (D.faults disk.old)
        (D.faults disk.new) }
    ensures later { D.faults disk.old ≤ D.faults disk.new }
    ensures well { (IsErrOf result ReplayRefused.DiskFault → ⊥) → D.faults disk.new ≡ D.faults
        disk.old }
{
    let mut after = Some(FileName::Log(file));
    loop {
        match disk.next_name(after) {
            Ok(Some(FileName::Log(next))) => {
                match apply_file(alloc, disk, next, FIRST_GATE, index, steps) {
                    Ok(()) => after = Some(FileName::Log(next)),
                    Err(refused) => return Err(refused),
                }
            }
            Ok(Some(FileName::Check(_))) => return Ok(()),
            Ok(None) => return Ok(()),
            Err(_) => return Err(ReplayRefused::DiskFault),
        }
    }
}

/// Applies the log of a folder from a place on: what the place's file has from that commit byte on, and then each later log
/// file. The first fault is named, and nothing before the place is read but the header of its file. One frame is in memory
/// at a time, with some of what stands after it, and each record is read once, for which a step is counted. The disk stays
/// as it is.
pub fn apply_log<D: Disk, L: Ledger>(
    alloc: Global,
    disk: &mut D,
    place: Place,
    index: &mut Indexing,
    steps: &mut Steps<L>,
) -> Result<(), ReplayRefused>
    requires place { WhereTold (D.told disk.old) (λ t. IsInLog t.reads place) }
    requires kept { IsKept index.old }
    ensures ok { OnOk result (WhereLines (D.told disk.old) place
        (λ found. GoesThrough found index.old index.new)) }
    ensures bad { IfErr result (λ e. WhereBadLog e (λ file at. WhereLines (D.told disk.old) place
        (λ found. StopsIn found index.old file at))) }
    ensures not_over { IfErr result (λ e. WhereOver e (λ count. ⊥)) }
    ensures kept { OnOk result (IsKept index.new) }
    ensures ticks { WhereLines (D.told disk.old) place (λ found. steps.new ≤ steps.old +
        record_count found) }
    ensures same { D.told disk.new ≡ D.told disk.old }
    ensures fault { IsErrOf result ReplayRefused.DiskFault → Rose (D.faults disk.old)
        (D.faults disk.new) }
    ensures later { D.faults disk.old ≤ D.faults disk.new }
    ensures well { (IsErrOf result ReplayRefused.DiskFault → ⊥) → D.faults disk.new ≡ D.faults
        disk.old }
{
    match apply_file(alloc, disk, place.file, place.at, index, steps) {
        Ok(()) => apply_behind(alloc, disk, place.file, index, steps),
        Err(refused) => Err(refused),
    }
}
