// Reads the open puts of a checkpoint.
ghost use Rattle.std.specs.Prelude.{◌≡◌, ◌≤◌, ◌+◌, ◌^◌, ◌<◌, ◌++◌, [], ℕ, List, length, IfErr, IfOk, MatchOption, OnOk, None, true, false};
ghost use Rattle.std.specs.List.{AllByRecursion};
ghost use Rattle.flume_host.specs.Told.{WhereTold};
ghost use Rattle.open_table.specs.Tables.{Puts, open_at};
ghost use Rattle.record_form.specs.declared.record.Pointer as pointers;
ghost use Rattle.checkpoint.specs.Text.{CheckText, pointer_bytes};
ghost use Rattle.checkpoint_reading.specs.Draft.{HasLive, IsOf, OpenGive, live_text};
ghost use Rattle.checkpoint_reading.specs.Fields.{FitsFields, IsPut};
ghost use Rattle.checkpoint_reading.specs.Logs.{IsKnown, IsSized};
ghost use Rattle.checkpoint_reading.specs.Opens.{HasPut, HasPuts, HasReadPuts, IsListing, NoEntry, NoList, TakenGive};
ghost use Rattle.checkpoint_reading.specs.Reader.{Faults, Goes, Holds, IsHonest, IsPlain, IsSameFile, Takes, rest};

use crate::draft::Draft;
use crate::logs::{Logs, put_txn};
use crate::opens::next_open;
use crate::reader::CheckReader;
use crate::refused::CheckReadRefused;
use flume_host::Disk;
use open_table::Item;
use record_form::Pointer;
use std::alloc::Global;

// The next put of a transaction, if its PUT is there.
fn next_put<D: Disk>(
    alloc: Global,
    disk: &mut D,
    reader: &mut CheckReader,
    known: &mut Logs,
    txn: u64,
) -> Result<Option<Pointer>, CheckReadRefused>
    requires held { Holds (D.told disk.old) reader.old }
    requires known { IsKnown (D.told disk.old) known.old }
    ensures held { OnOk result (Holds (D.told disk.new) reader.new) }
    ensures known { IsKnown (D.told disk.new) known.new }
    ensures file { IsSameFile reader.old reader.new }
    ensures right { IfOk result (λ next. MatchOption next
        (WhereTold (D.told disk.old) (λ t. (p : pointers.Pointer) (more : List ℕ) → rest t
        reader.old ≡ pointer_bytes p ++ more → IsPut t.reads txn p → ⊥))
        (λ p. Takes (D.told disk.old) reader.old reader.new (pointer_bytes p) × WhereTold
        (D.told disk.old) (λ t. IsPut t.reads txn p))) }
    ensures sized { IfOk result (λ next. MatchOption next (0 ≤ txn)
        (λ p. FitsFields p × IsSized p)) }
    ensures plain { IfErr result IsPlain }
    ensures same { D.told disk.new ≡ D.told disk.old }
    ensures cause { IsHonest (D.faults disk.old) (D.faults disk.new) result }
{
    let Some(pointer) = reader.next_pointer(disk)? else {
        return Ok(None);
    };
    let Some(found) = put_txn(alloc, disk, known, pointer)? else {
        return Ok(None);
    };
    if found != txn {
        return Ok(None);
    }
    Ok(Some(pointer))
}

// Reads so many puts of a transaction. Whether they are right.
fn read_pointers<D: Disk>(
    alloc: Global,
    disk: &mut D,
    reader: &mut CheckReader,
    known: &mut Logs,
    draft: &mut Draft,
    txn: u64,
    count: u32,
) -> Result<bool, CheckReadRefused>
    requires held { Holds (D.told disk.old) reader.old }
    requires known { IsKnown (D.told disk.old) known.old }
    requires begun { IsListing txn (Puts []) draft.old.table }
    ensures held { OnOk result (Holds (D.told disk.new) reader.new) }
    ensures known { IsKnown (D.told disk.new) known.new }
    ensures file { IsSameFile reader.old reader.new }
    ensures right { IfOk result (λ right. right ≡ true → (read : List pointers.Pointer) × HasPuts
        (D.told disk.old) reader.old reader.new txn draft.old draft.new read ×
        (length read ≡ count)) }
    ensures wrong { IfOk result (λ right. right ≡ false → WhereTold (D.told disk.old)
        (λ t. NoList pointer_bytes (AllByRecursion (IsPut t.reads txn)) count
        (rest t reader.old))) }
    ensures plain { IfErr result IsPlain }
    ensures same { D.told disk.new ≡ D.told disk.old }
    ensures cause { IsHonest (D.faults disk.old) (D.faults disk.new) result }
{
    let mut more = count;
    while more > 0 {
        let Some(pointer) = next_put(alloc, disk, reader, known, txn)? else {
            return Ok(false);
        };
        let Ok(()) = draft.add(txn, Item::Put(pointer)) else {
            return Err(CheckReadRefused::NoMemory);
        };
        more -= 1;
    }
    Ok(true)
}

// Reads the next open put, if it is right, and gives its number.
fn read_put<D: Disk>(
    alloc: Global,
    disk: &mut D,
    reader: &mut CheckReader,
    known: &mut Logs,
    draft: &mut Draft,
    low: u64,
) -> Result<Option<u64>, CheckReadRefused>
    requires held { Holds (D.told disk.old) reader.old }
    requires known { IsKnown (D.told disk.old) known.old }
    requires closed { (txn : ℕ) → low ≤ txn → open_at draft.old.table txn ≡ None }
    ensures held { OnOk result (Holds (D.told disk.new) reader.new) }
    ensures known { IsKnown (D.told disk.new) known.new }
    ensures file { IsSameFile reader.old reader.new }
    ensures right { IfOk result (λ next. MatchOption next
        (WhereTold (D.told disk.old) (λ t. NoEntry pointer_bytes
        (λ txn puts. AllByRecursion (IsPut t.reads txn) puts) low draft.old.next.txn
        (length draft.old.table) (rest t reader.old)))
        (λ txn. HasPut (D.told disk.old) reader.old reader.new low txn draft.old draft.new ×
        (draft.old.next.txn < 2 ^ 64))) }
    ensures plain { IfErr result IsPlain }
    ensures same { D.told disk.new ≡ D.told disk.old }
    ensures cause { IsHonest (D.faults disk.old) (D.faults disk.new) result }
{
    let Some((txn, count)) = next_open(disk, reader, low, draft.next.txn)? else {
        return Ok(None);
    };
    let Ok(few) = draft.begin(txn, true) else {
        return Err(CheckReadRefused::NoMemory);
    };
    if !few {
        return Ok(None);
    }
    let right = read_pointers(alloc, disk, reader, known, draft, txn, count)?;
    if !right {
        return Ok(None);
    }
    Ok(Some(txn))
}

/// Reads the open puts of a checkpoint, and their count. Room grows with what is read.
pub(crate) fn read_puts<D: Disk>(
    alloc: Global,
    disk: &mut D,
    reader: &mut CheckReader,
    known: &mut Logs,
    draft: &mut Draft,
) -> Result<(), CheckReadRefused>
    requires held { Holds (D.told disk.old) reader.old }
    requires known { IsKnown (D.told disk.old) known.old }
    requires live { HasLive draft.old draft.old.next.number }
    requires some { 1 ≤ draft.old.next.txn }
    ensures held { OnOk result (Holds (D.told disk.new) reader.new) }
    ensures known { IsKnown (D.told disk.new) known.new }
    ensures file { IsSameFile reader.old reader.new }
    ensures read { OnOk result ((c : CheckText) × HasReadPuts draft.new c
        × Goes (D.told disk.old) reader.old reader.new (λ files o. OpenGive files o
        (live_text draft.old)) (λ files o. TakenGive files o c)) }
    ensures of { OnOk result (IsOf draft.old.place draft.old.next draft.new) }
    ensures bad { IfErr result (λ e. Faults (D.told disk.old) reader.old
        (λ files o. OpenGive files o (live_text draft.old)) e) }
    ensures same { D.told disk.new ≡ D.told disk.old }
    ensures cause { IsHonest (D.faults disk.old) (D.faults disk.new) result }
{
    let file = reader.number();
    let start = reader.at();
    let Some(count) = reader.next_u32(disk)? else {
        return Err(CheckReadRefused::BadCheck { file, at: start });
    };
    let mut low = 1;
    let mut more = count;
    while more > 0 {
        let at = reader.at();
        let Some(txn) = read_put(alloc, disk, reader, known, draft, low)? else {
            return Err(CheckReadRefused::BadCheck { file, at });
        };
        low = txn + 1;
        more -= 1;
    }
    Ok(())
}
