// Opens a folder from its newest checkpoint.
ghost use Rattle.std.specs.Prelude.{◌≡◌, ◌⊎◌, ◌<◌, ◌≤◌, IfErr, IfOk, IsErrOf, Some};
ghost use Rattle.flume_host.specs.Causes.{Rose};
ghost use Rattle.flume_host.specs.Told.{WhereTold};
ghost use Rattle.checkpoint.specs.Newest.{IsNewest};
ghost use Rattle.checkpoint_reading.specs.Fields.{IsFault};
ghost use Rattle.checkpoint_recovery.specs.Recovers.{IsBadLogFrom};
ghost use Rattle.ring_replay.specs.Folder.{IsReady};
ghost use Rattle.checkpoint_opening.specs.Opening.{HasSteps, IsNamedBy, IsOpened, Leaves, WhereBadCheck, WhereBadLog, WhereOver, of_check, of_replay};

use crate::refused::OpeningRefused;
use channel_replay::ReplayRefused;
use checkpoint::Check;
use checkpoint_places::least_named;
use checkpoint_reading::{CheckReadRefused, newest};
use checkpoint_replay::replay;
use flume_host::{Disk, Steps};
use ring_replay::Replayed;
use std::alloc::Global;
use std::sync::ledger::Ledger;

/// The newest checkpoint of a folder: its number, and the least log file that its place or its pointers name.
#[derive(Clone, Copy)]
pub struct NewestCheck {
    pub number: u32,
    pub least: u32,
}

/// A folder that was opened: its newest checkpoint, if it has one, and what is left.
#[derive(Drop)]
pub struct Opened {
    pub check: Option<NewestCheck>,
    pub replayed: Replayed,
}

fn not_read(refused: CheckReadRefused) -> OpeningRefused
    ensures { result ≡ of_check refused }
{
    match refused {
        CheckReadRefused::DiskFault => OpeningRefused::DiskFault,
        CheckReadRefused::BadCheck { file, at } => OpeningRefused::BadCheck { file, at },
        CheckReadRefused::NoMemory => OpeningRefused::NoMemory,
    }
}

fn not_replayed(refused: ReplayRefused) -> OpeningRefused
    ensures { result ≡ of_replay refused }
{
    match refused {
        ReplayRefused::DiskFault => OpeningRefused::DiskFault,
        ReplayRefused::BadLog { file, at } => OpeningRefused::BadLog { file, at },
        ReplayRefused::OverCapacity { count } => OpeningRefused::OverCapacity { count },
        ReplayRefused::NoMemory => OpeningRefused::NoMemory,
    }
}

// What is kept of a checkpoint, if there is one.
fn named(check: &Option<Check>) -> Option<NewestCheck>
    ensures { IsNamedBy check.now result }
{
    match check {
        Some(check) => Some(NewestCheck {
            number: check.number,
            least: least_named(check.place, &check.ring, &check.table),
        }),
        None => None,
    }
}

/// Opens a folder from its newest checkpoint, or from the front of its log where it has none: the events that are left, in
/// order, with pointers at which their PUTs stand, and the numbers that come next. The checkpoint's first fault comes before
/// the log's, and the capacity is judged at the end alone. Each record after the checkpoint's place is read once, for which
/// a step is counted, and none before it. No pointer is into a log file below those that the checkpoint names. The disk stays
/// as it is.
pub fn open_newest<D: Disk, L: Ledger>(
    alloc: Global,
    disk: &mut D,
    capacity: u32,
    steps: &mut Steps<L>,
) -> Result<Opened, OpeningRefused>
    ensures opened { IfOk result (λ o. WhereTold (D.told disk.old) (λ t. IsOpened t.reads o)) }
    // Also where the disk shows nothing.
    ensures ready { IfOk result (λ o. IsReady capacity o.replayed) }
    ensures bad_check { IfErr result (λ e. WhereBadCheck e
        (λ file at. WhereTold (D.told disk.old) (λ t. IsNewest t.reads (Some file) × IsFault t.reads
        file at))) }
    ensures bad_log { IfErr result (λ e. WhereBadLog e (λ file at. WhereTold (D.told disk.old)
        (λ t. IsBadLogFrom t.reads file at))) }
    ensures over { IfErr result (λ e. WhereOver e (λ count. (capacity < count) × WhereTold
        (D.told disk.old) (λ t. Leaves t.reads count))) }
    ensures ticks { WhereTold (D.told disk.old) (λ t. (steps.new ≡ steps.old) ⊎ HasSteps t.reads
        steps.old steps.new) }
    ensures same { D.told disk.new ≡ D.told disk.old }
    ensures fault { IsErrOf result OpeningRefused.DiskFault → Rose (D.faults disk.old)
        (D.faults disk.new) }
    ensures later { D.faults disk.old ≤ D.faults disk.new }
    ensures well { (IsErrOf result OpeningRefused.DiskFault → ⊥) → D.faults disk.new ≡ D.faults
        disk.old }
{
    let check = match newest(alloc, disk) {
        Ok(check) => check,
        Err(refused) => return Err(not_read(refused)),
    };
    let newest = named(&check);
    match replay(alloc, disk, check, capacity, steps) {
        Ok(replayed) => Ok(Opened {
            check: newest,
            replayed,
        }),
        Err(refused) => Err(not_replayed(refused)),
    }
}
