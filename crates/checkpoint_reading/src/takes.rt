// Reads the open takes of a checkpoint.
ghost use Rattle.std.specs.Prelude.{◌≡◌, ◌≤◌, ◌+◌, ◌^◌, ◌<◌, ◌++◌, [], ℕ, List, length, IfErr, IfOk, MatchOption, OnOk, None, true, false};
ghost use Rattle.std.specs.List.{AllByRecursion};
ghost use Rattle.flume_host.specs.Told.{WhereTold};
ghost use Rattle.event_core.specs.Numbers.{u64_bytes};
ghost use Rattle.open_table.specs.Tables as tables;
ghost use Rattle.open_table.specs.Tables.{is_open, open_at};
ghost use Rattle.checkpoint.specs.Text.{CheckText};
ghost use Rattle.checkpoint_reading.specs.Draft.{IsOf};
ghost use Rattle.checkpoint_reading.specs.Fields.{End};
ghost use Rattle.checkpoint_reading.specs.Opens.{HasRead, HasReadPuts, HasTake, HasTaken, HasTakes, IsListing, MayTake, NoEntry, NoList, TakenGive};
ghost use Rattle.checkpoint_reading.specs.Reader.{Faults, Goes, Holds, IsHonest, IsPlain, IsSameFile, rest};

use crate::draft::Draft;
use crate::opens::next_open;
use crate::reader::CheckReader;
use crate::refused::CheckReadRefused;
use flume_host::Disk;
use open_table::Item;

// Reads so many takes of a transaction. Whether they are right: each takes an event that is left and that no other takes.
fn read_numbers<D: Disk>(
    disk: &mut D,
    reader: &mut CheckReader,
    draft: &mut Draft,
    txn: u64,
    count: u32,
) -> Result<bool, CheckReadRefused>
    requires held { Holds (D.told disk.old) reader.old }
    requires begun { IsListing txn (tables.Takes []) draft.old.table }
    ensures held { OnOk result (Holds (D.told disk.new) reader.new) }
    ensures file { IsSameFile reader.old reader.new }
    ensures right { IfOk result (λ right. right ≡ true → (read : List ℕ) × HasTakes
        (D.told disk.old) reader.old reader.new txn draft.old draft.new read ×
        (length read ≡ count)) }
    ensures wrong { IfOk result (λ right. right ≡ false → WhereTold (D.told disk.old)
        (λ t. (taken : List ℕ) → HasTaken taken draft.old.ring.live → NoList u64_bytes
        (MayTake draft.old.ring.live taken) count (rest t reader.old))) }
    ensures plain { IfErr result IsPlain }
    ensures same { D.told disk.new ≡ D.told disk.old }
    ensures cause { IsHonest (D.faults disk.old) (D.faults disk.new) result }
{
    let mut more = count;
    while more > 0 {
        let Some(number) = reader.next_u64(disk)? else {
            return Ok(false);
        };
        let held = draft.hold(number);
        if !held {
            return Ok(false);
        }
        let Ok(()) = draft.add(txn, Item::Take(number)) else {
            return Err(CheckReadRefused::NoMemory);
        };
        more -= 1;
    }
    Ok(true)
}

// Reads the next open take, if it is right, and gives its number.
fn read_take<D: Disk>(
    disk: &mut D,
    reader: &mut CheckReader,
    draft: &mut Draft,
    low: u64,
) -> Result<Option<u64>, CheckReadRefused>
    requires held { Holds (D.told disk.old) reader.old }
    requires closed { (txn : ℕ) → low ≤ txn → is_open true (open_at draft.old.table txn) ≡ false →
        open_at draft.old.table txn ≡ None }
    ensures held { OnOk result (Holds (D.told disk.new) reader.new) }
    ensures file { IsSameFile reader.old reader.new }
    ensures right { IfOk result (λ next. MatchOption next
        (WhereTold (D.told disk.old) (λ t. (taken : List ℕ) → HasTaken taken draft.old.ring.live →
        NoEntry u64_bytes (λ txn numbers. (is_open true (open_at draft.old.table txn) ≡ false) ×
        MayTake draft.old.ring.live taken numbers) low draft.old.next.txn (length draft.old.table)
        (rest t reader.old)))
        (λ txn. HasTake (D.told disk.old) reader.old reader.new low txn draft.old draft.new ×
        (draft.old.next.txn < 2 ^ 64))) }
    ensures plain { IfErr result IsPlain }
    ensures same { D.told disk.new ≡ D.told disk.old }
    ensures cause { IsHonest (D.faults disk.old) (D.faults disk.new) result }
{
    let Some((txn, count)) = next_open(disk, reader, low, draft.next.txn)? else {
        return Ok(None);
    };
    let puts = draft.table.has(txn, true);
    if puts {
        return Ok(None);
    }
    let Ok(few) = draft.begin(txn, false) else {
        return Err(CheckReadRefused::NoMemory);
    };
    if !few {
        return Ok(None);
    }
    let right = read_numbers(disk, reader, draft, txn, count)?;
    if !right {
        return Ok(None);
    }
    Ok(Some(txn))
}

/// Reads the open takes of a checkpoint, and their count. Room grows with what is read.
pub(crate) fn read_takes<D: Disk>(
    disk: &mut D,
    reader: &mut CheckReader,
    draft: &mut Draft,
) -> Result<(), CheckReadRefused>
    requires held { Holds (D.told disk.old) reader.old }
    requires puts { (c : CheckText) × HasReadPuts draft.old c }
    ensures held { OnOk result (Holds (D.told disk.new) reader.new) }
    ensures file { IsSameFile reader.old reader.new }
    ensures read { OnOk result ((c : CheckText) → HasReadPuts draft.old c → (d : CheckText) ×
        HasRead draft.new d
        × Goes (D.told disk.old) reader.old reader.new (λ files o. TakenGive files o c)
        (λ files o. End d o)) }
    ensures of { OnOk result (IsOf draft.old.place draft.old.next draft.new) }
    ensures bad { IfErr result (λ e. (c : CheckText) → HasReadPuts draft.old c → Faults
        (D.told disk.old) reader.old (λ files o. TakenGive files o c) e) }
    ensures same { D.told disk.new ≡ D.told disk.old }
    ensures cause { IsHonest (D.faults disk.old) (D.faults disk.new) result }
{
    let file = reader.number();
    let start = reader.at();
    let Some(count) = reader.next_u32(disk)? else {
        return Err(CheckReadRefused::BadCheck { file, at: start });
    };
    let mut low = 1;
    let mut more = count;
    while more > 0 {
        let at = reader.at();
        let Some(txn) = read_take(disk, reader, draft, low)? else {
            return Err(CheckReadRefused::BadCheck { file, at });
        };
        low = txn + 1;
        more -= 1;
    }
    Ok(())
}
