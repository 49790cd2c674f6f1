// Reads a folder's newest checkpoint.
ghost use Rattle.std.specs.Prelude.{◌≡◌, IfErr, IfOk, IfSome, Some, OnOk};
ghost use Rattle.flume_host.specs.Told.{WhereTold};
ghost use Rattle.flume_host.specs.declared.names.FileName.TheVariants.{Check};
ghost use Rattle.checkpoint.specs.Newest.{IsNewest};
ghost use Rattle.checkpoint.specs.Text.{CheckText};
ghost use Rattle.checkpoint_reading.specs.Draft.{IsOf};
ghost use Rattle.checkpoint_reading.specs.Fields.{End, Gives, IsFault};
ghost use Rattle.checkpoint_reading.specs.Newest.{IsNewestOf, IsRead};
ghost use Rattle.checkpoint_reading.specs.Opens.{HasRead};
ghost use Rattle.checkpoint_reading.specs.Reader.{Faults, Goes, Holds, IsHonest, IsSameFile, WhereBad};

use crate::draft::Draft;
use crate::head::read_head;
use crate::live::read_live;
use crate::logs::Logs;
use crate::number::newest_number;
use crate::puts::read_puts;
use crate::reader::CheckReader;
use crate::refused::CheckReadRefused;
use crate::takes::read_takes;
use checkpoint::Check;
use flume_host::Disk;
use std::alloc::Global;

// Reads a checkpoint from its text on: all but whether it ends there.
fn read_text<D: Disk>(
    alloc: Global,
    disk: &mut D,
    reader: &mut CheckReader,
) -> Result<Draft, CheckReadRefused>
    requires { Holds (D.told disk.old) reader.old }
    ensures held { OnOk result (Holds (D.told disk.new) reader.new) }
    ensures file { IsSameFile reader.old reader.new }
    ensures read { IfOk result (λ d. (c : CheckText) × HasRead d c × Goes (D.told disk.old)
        reader.old reader.new Gives (λ files o. End c o)) }
    ensures bad { IfErr result (λ e. Faults (D.told disk.old) reader.old Gives e) }
    ensures same { D.told disk.new ≡ D.told disk.old }
    ensures cause { IsHonest (D.faults disk.old) (D.faults disk.new) result }
{
    let mut known = Logs::new(alloc);
    let (place, next) = read_head(disk, reader, &mut known)?;
    let Ok(mut draft) = Draft::new(alloc, place, next) else {
        return Err(CheckReadRefused::NoMemory);
    };
    read_live(alloc, disk, reader, &mut known, &mut draft)?;
    read_puts(alloc, disk, reader, &mut known, &mut draft)?;
    read_takes(disk, reader, &mut draft)?;
    Ok(draft)
}

// Reads the checkpoint of this number.
fn read_check<D: Disk>(alloc: Global, disk: &mut D, number: u32) -> Result<Check, CheckReadRefused>
    requires { WhereTold (D.told disk.old) (λ t. IsNewest t.reads (Some number)) }
    ensures read { IfOk result (λ check. IsRead check) }
    ensures newest { IfOk result (λ check. WhereTold (D.told disk.old)
        (λ t. IsNewestOf t.reads (Some check))) }
    ensures bad { IfErr result (λ e. WhereBad e (λ file at. WhereTold (D.told disk.old)
        (λ t. IsNewest t.reads (Some file) × IsFault t.reads file at))) }
    ensures same { D.told disk.new ≡ D.told disk.old }
    ensures cause { IsHonest (D.faults disk.old) (D.faults disk.new) result }
{
    let mut reader = CheckReader::begin(alloc, disk, number)?;
    let draft = read_text(alloc, disk, &mut reader)?;
    if !reader.is_at_end() {
        return Err(CheckReadRefused::BadCheck {
            file: number,
            at: reader.at(),
        });
    }
    Ok(Check {
        number,
        place: draft.place,
        next: draft.next,
        ring: draft.ring,
        table: draft.table,
    })
}

/// Reads a folder's newest checkpoint: the one of the greatest number whose commit byte is open and has a byte after it.
/// None where the folder has no such one. It is read in pieces, and room grows with what is read, so that no count is
/// believed. The disk stays as it is.
///
/// `BadCheck` names the checkpoint and the first field that is wrong or not whole; an entry of a list is one field.
pub fn newest<D: Disk>(alloc: Global, disk: &mut D) -> Result<Option<Check>, CheckReadRefused>
    // Ring and table are those of a text whose numbers are in order, also where the disk shows nothing.
    ensures read { IfOk result (λ check. IfSome check IsRead) }
    // It is the newest one, and right for the folder.
    ensures newest { IfOk result (λ check. WhereTold (D.told disk.old)
        (λ t. IsNewestOf t.reads check)) }
    ensures bad { IfErr result (λ e. WhereBad e (λ file at. WhereTold (D.told disk.old)
        (λ t. IsNewest t.reads (Some file) × IsFault t.reads file at))) }
    ensures same { D.told disk.new ≡ D.told disk.old }
    ensures cause { IsHonest (D.faults disk.old) (D.faults disk.new) result }
{
    let Ok(number) = newest_number(disk) else {
        return Err(CheckReadRefused::DiskFault);
    };
    match number {
        Some(number) => match read_check(alloc, disk, number) {
            Ok(check) => Ok(Some(check)),
            Err(refused) => Err(refused),
        },
        None => Ok(None),
    }
}
