// Reads the events that a checkpoint says are left.
ghost use Rattle.std.specs.Prelude.{◌≡◌, ◌≤◌, ◌+◌, ◌^◌, ◌<◌, ℕ, List, ◌++◌, IfErr, IfOk, IfSome, MatchOption, IsTrue, ◌↔◌, OnOk};
ghost use Rattle.flume_host.specs.Told.{WhereTold};
ghost use Rattle.record_form.specs.declared.record.Pointer as pointers;
ghost use Rattle.checkpoint.specs.Text.{live_bytes};
ghost use Rattle.checkpoint_reading.specs.Draft.{HasLive, IsFresh, IsOf, OpenGive, live_text};
ghost use Rattle.checkpoint_reading.specs.Fields.{IsLive, ListsGive};
ghost use Rattle.checkpoint_reading.specs.Logs.{IsKnown, IsSized};
ghost use Rattle.checkpoint_reading.specs.Reader.{Faults, Goes, Holds, IsHonest, IsPlain, IsSameFile, Takes, rest};

use crate::draft::Draft;
use crate::logs::{Logs, put_txn};
use crate::reader::CheckReader;
use crate::refused::CheckReadRefused;
use flume_host::Disk;
use record_form::Pointer;
use std::alloc::Global;

/// Whether a number is not below this one, and is below that.
pub(crate) fn is_between(number: u64, low: u64, high: u64) -> bool
    ensures { IsTrue result ↔ ((low ≤ number) × (number < high)) }
{
    low <= number && number < high
}

// The next event that is left, if it is right: its number is not below this one and is below the next one, and its PUT is
// there.
fn next_right<D: Disk>(
    alloc: Global,
    disk: &mut D,
    reader: &mut CheckReader,
    known: &mut Logs,
    draft: &Draft,
    low: u64,
) -> Result<Option<(u64, Pointer)>, CheckReadRefused>
    requires held { Holds (D.told disk.old) reader.old }
    requires known { IsKnown (D.told disk.old) known.old }
    ensures held { OnOk result (Holds (D.told disk.new) reader.new) }
    ensures known { IsKnown (D.told disk.new) known.new }
    ensures file { IsSameFile reader.old reader.new }
    ensures right { IfOk result (λ next. MatchOption next
        (WhereTold (D.told disk.old) (λ t. (l : ℕ × pointers.Pointer) (more : List ℕ) → rest t
        reader.old ≡ live_bytes l ++ more → IsLive t.reads (live_text draft.now) low l → ⊥))
        (λ l. Takes (D.told disk.old) reader.old reader.new (live_bytes l) × WhereTold
        (D.told disk.old) (λ t. IsLive t.reads (live_text draft.now) low l))) }
    ensures between { IfOk result (λ next. MatchOption next (0 ≤ low)
        (λ l. (low ≤ l.0) × (l.0 < draft.now.next.number) × (draft.now.next.number < 2 ^ 64))) }
    ensures sized { IfOk result (λ next. IfSome next (λ l. IsSized l.1)) }
    ensures plain { IfErr result IsPlain }
    ensures same { D.told disk.new ≡ D.told disk.old }
    ensures cause { IsHonest (D.faults disk.old) (D.faults disk.new) result }
{
    let Some((number, pointer)) = reader.next_live(disk)? else {
        return Ok(None);
    };
    if !is_between(number, low, draft.next.number) {
        return Ok(None);
    }
    match put_txn(alloc, disk, known, pointer)? {
        Some(_) => Ok(Some((number, pointer))),
        None => Ok(None),
    }
}

/// Reads the events that a checkpoint says are left, and their count. Room grows with what is read.
pub(crate) fn read_live<D: Disk>(
    alloc: Global,
    disk: &mut D,
    reader: &mut CheckReader,
    known: &mut Logs,
    draft: &mut Draft,
) -> Result<(), CheckReadRefused>
    requires held { Holds (D.told disk.old) reader.old }
    requires known { IsKnown (D.told disk.old) known.old }
    requires fresh { IsFresh draft.old.place draft.old.next draft.old }
    ensures held { OnOk result (Holds (D.told disk.new) reader.new) }
    ensures known { IsKnown (D.told disk.new) known.new }
    ensures file { IsSameFile reader.old reader.new }
    ensures goes { OnOk result (Goes (D.told disk.old) reader.old reader.new
        (λ files o. ListsGive files o draft.old.place draft.old.next)
        (λ files o. OpenGive files o (live_text draft.new))) }
    ensures live { OnOk result (HasLive draft.new draft.new.next.number) }
    ensures of { IsOf draft.old.place draft.old.next draft.new }
    ensures bad { IfErr result (λ e. Faults (D.told disk.old) reader.old
        (λ files o. ListsGive files o draft.old.place draft.old.next) e) }
    ensures same { D.told disk.new ≡ D.told disk.old }
    ensures cause { IsHonest (D.faults disk.old) (D.faults disk.new) result }
{
    let file = reader.number();
    let start = reader.at();
    let Some(count) = reader.next_u32(disk)? else {
        return Err(CheckReadRefused::BadCheck { file, at: start });
    };
    let mut low = 0;
    let mut more = count;
    while more > 0 {
        let at = reader.at();
        let Some((number, pointer)) = next_right(alloc, disk, reader, known, draft, low)? else {
            return Err(CheckReadRefused::BadCheck { file, at });
        };
        let Ok(()) = draft.push(number, pointer) else {
            return Err(CheckReadRefused::NoMemory);
        };
        low = number + 1;
        more -= 1;
    }
    Ok(())
}
