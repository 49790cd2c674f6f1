// Replays a folder from a checkpoint, or from the front of its log.
ghost use Rattle.std.specs.Prelude.{◌≡◌, ◌<◌, ◌≤◌, ◌+◌, ◌^◌, ℕ, length, IfOk, IfErr, IfSome, IsErrOf, Some};
ghost use Rattle.flume_host.specs.Causes.{Rose};
ghost use Rattle.flume_host.specs.Told.{WhereTold};
ghost use Rattle.channel_replay.specs.Recover.{IsBadFrom};
ghost use Rattle.channel_replay.specs.Replay.{WhereBadLog, WhereOver, record_count};
ghost use Rattle.channel_replay.specs.Start.{Start};
ghost use Rattle.ring_replay.specs.Folder.{IsReady};
ghost use Rattle.checkpoint_replay.specs.Checked.{IsOfCheck};
ghost use Rattle.checkpoint_replay.specs.Replayed.{HasEvents, IsReplayedFrom, IsRightFor, IsStartOf, LeavesFrom, StandElsewhere, WhereStarts};

use crate::reading::apply_log;
use channel_replay::{Next, ReplayRefused};
use checkpoint::Check;
use flume_host::{Disk, Steps};
use ring_replay::{Indexing, Replayed, within};
use std::alloc::Global;
use std::sync::ledger::Ledger;

// What a replay begins with: the ring and the table of a checkpoint, with room for as many events as the capacity.
fn begin(check: Check, capacity: u32) -> Result<Indexing, ReplayRefused>
    requires { HasEvents check }
    ensures ok { IfOk result (λ index. IsOfCheck check index) }
    ensures not_over { IfErr result (λ e. WhereOver e (λ count. ⊥)) }
    ensures not_bad { IfErr result (λ e. WhereBadLog e (λ file at. ⊥)) }
    ensures not_fault { IsErrOf result ReplayRefused.DiskFault → ⊥ }
{
    let mut ring = check.ring;
    let slots = (ring.len() as u32).max(capacity);
    if ring.resize(slots).is_err() {
        return Err(ReplayRefused::NoMemory);
    }
    let next = Next {
        number: check.next.number,
        txn: check.next.txn,
    };
    Ok(Indexing::of(ring, slots, check.table, next))
}

// Replays a folder from a checkpoint.
fn replay_from<D: Disk, L: Ledger>(
    alloc: Global,
    disk: &mut D,
    check: Check,
    capacity: u32,
    steps: &mut Steps<L>,
) -> Result<Replayed, ReplayRefused>
    requires kept { HasEvents check }
    requires right { WhereTold (D.told disk.old) (λ t. (start : Start) × IsStartOf t.reads check
        start) }
    ensures ok { IfOk result (λ r. WhereStarts (D.told disk.old) (Some check)
        (λ files start found. IsReplayedFrom files start found r)) }
    ensures elsewhere { IfOk result (λ r. WhereStarts (D.told disk.old) (Some check)
        (λ files start found. StandElsewhere (Some check) start found r)) }
    ensures ready { IfOk result (λ r. IsReady capacity r) }
    ensures bad { IfErr result (λ e. WhereBadLog e (λ file at. WhereStarts (D.told disk.old)
        (Some check) (λ files start found. IsBadFrom start found file at))) }
    ensures over { IfErr result (λ e. WhereOver e (λ count. (capacity < count) × WhereStarts
        (D.told disk.old) (Some check) (λ files start found. LeavesFrom start found count))) }
    ensures ticks { WhereStarts (D.told disk.old) (Some check)
        (λ files start found. steps.new ≤ steps.old + record_count found) }
    ensures same { D.told disk.new ≡ D.told disk.old }
    ensures fault { IsErrOf result ReplayRefused.DiskFault → Rose (D.faults disk.old)
        (D.faults disk.new) }
    ensures later { D.faults disk.old ≤ D.faults disk.new }
    ensures well { (IsErrOf result ReplayRefused.DiskFault → ⊥) → D.faults disk.new ≡ D.faults
        disk.old }
{
    let place = check.place;
    let mut index = begin(check, capacity)?;
    match apply_log(alloc, disk, place, &mut index, steps) {
        Ok(()) => {
            index.drop_open();
            within(index, capacity)
        }
        Err(refused) => Err(refused),
    }
}

/// Replays a folder from a checkpoint's place on, or all its log files where there is none, into a ring: the events that are
/// left, in order, with pointers at which their PUTs stand, the next event number, and the next transaction number, which
/// is the checkpoint's or above each that a record after it names. The first fault of the log from there on comes before
/// the capacity, which is judged at the end alone. One frame is in memory at a time, with some of what stands after it, and
/// each record is read once, for which a step is counted. The disk stays as it is.
pub fn replay<D: Disk, L: Ledger>(
    alloc: Global,
    disk: &mut D,
    check: Option<Check>,
    capacity: u32,
    steps: &mut Steps<L>,
) -> Result<Replayed, ReplayRefused>
    // Ring and table are those of a checkpoint, also where the disk shows nothing.
    requires kept { IfSome check HasEvents }
    // The checkpoint is right for the folder.
    requires right { WhereTold (D.told disk.old) (λ t. IsRightFor t.reads check) }
    ensures ok { IfOk result (λ r. WhereStarts (D.told disk.old) check
        (λ files start found. IsReplayedFrom files start found r)) }
    // No other record is pointed to: the same pointers are right for a folder that has the checkpoint and these lines alone.
    ensures elsewhere { IfOk result (λ r. WhereStarts (D.told disk.old) check
        (λ files start found. StandElsewhere check start found r)) }
    // Also where the disk shows nothing.
    ensures ready { IfOk result (λ r. IsReady capacity r) }
    ensures bad { IfErr result (λ e. WhereBadLog e (λ file at. WhereStarts (D.told disk.old) check
        (λ files start found. IsBadFrom start found file at))) }
    ensures over { IfErr result (λ e. WhereOver e (λ count. (capacity < count) × WhereStarts
        (D.told disk.old) check (λ files start found. LeavesFrom start found count))) }
    ensures ticks { WhereStarts (D.told disk.old) check
        (λ files start found. steps.new ≤ steps.old + record_count found) }
    ensures same { D.told disk.new ≡ D.told disk.old }
    ensures fault { IsErrOf result ReplayRefused.DiskFault → Rose (D.faults disk.old)
        (D.faults disk.new) }
    ensures later { D.faults disk.old ≤ D.faults disk.new }
    ensures well { (IsErrOf result ReplayRefused.DiskFault → ⊥) → D.faults disk.new ≡ D.faults
        disk.old }
{
    match check {
        Some(check) => replay_from(alloc, disk, check, capacity, steps),
        None => ring_replay::replay(alloc, disk, capacity, steps),
    }
}
