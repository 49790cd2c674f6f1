// Reads what stands before a checkpoint's lists.
ghost use Rattle.std.specs.Prelude.{◌≡◌, ◌≤◌, ◌<◌, ◌↔◌, IfErr, IfOk, IsTrue, OnOk};
ghost use Rattle.checkpoint_reading.specs.Fields.{FormGives, Gives, ListsGive, NumbersGive, OffsetGives, PlaceGives, TxnGives};
ghost use Rattle.checkpoint_reading.specs.Logs.{IsKnown};
ghost use Rattle.checkpoint_reading.specs.Reader.{Faults, Goes, HasLog, Holds, IsHonest, IsSameFile};

use crate::logs::Logs;
use crate::reader::CheckReader;
use crate::refused::CheckReadRefused;
use checkpoint::{Next, Place};
use flume_host::{Disk, FileName};

// The form of a checkpoint.
const FORM: u32 = 1;

// The least offset of a commit byte in a log file.
const FIRST_GATE: u64 = 16;

fn read_text<D: Disk>(disk: &mut D, reader: &mut CheckReader) -> Result<(), CheckReadRefused>
    requires { Holds (D.told disk.old) reader.old }
    ensures held { OnOk result (Holds (D.told disk.new) reader.new) }
    ensures file { IsSameFile reader.old reader.new }
    ensures goes { OnOk result (Goes (D.told disk.old) reader.old reader.new Gives FormGives) }
    ensures bad { IfErr result (λ e. Faults (D.told disk.old) reader.old Gives e) }
    ensures same { D.told disk.new ≡ D.told disk.old }
    ensures cause { IsHonest (D.faults disk.old) (D.faults disk.new) result }
{
    let file = reader.number();
    let at = reader.at();
    if !reader.next_text(disk, b"FLUMECHK")? {
        return Err(CheckReadRefused::BadCheck { file, at });
    }
    Ok(())
}

fn read_form<D: Disk>(disk: &mut D, reader: &mut CheckReader) -> Result<(), CheckReadRefused>
    requires { Holds (D.told disk.old) reader.old }
    ensures held { OnOk result (Holds (D.told disk.new) reader.new) }
    ensures file { IsSameFile reader.old reader.new }
    ensures goes { OnOk result (Goes (D.told disk.old) reader.old reader.new FormGives PlaceGives) }
    ensures bad { IfErr result (λ e. Faults (D.told disk.old) reader.old FormGives e) }
    ensures same { D.told disk.new ≡ D.told disk.old }
    ensures cause { IsHonest (D.faults disk.old) (D.faults disk.new) result }
{
    let file = reader.number();
    let at = reader.at();
    let Some(form) = reader.next_u32(disk)? else {
        return Err(CheckReadRefused::BadCheck { file, at });
    };
    if form != FORM {
        return Err(CheckReadRefused::BadCheck { file, at });
    }
    Ok(())
}

fn read_file<D: Disk>(
    disk: &mut D,
    reader: &mut CheckReader,
    known: &mut Logs,
) -> Result<u32, CheckReadRefused>
    requires held { Holds (D.told disk.old) reader.old }
    requires known { IsKnown (D.told disk.old) known.old }
    ensures held { OnOk result (Holds (D.told disk.new) reader.new) }
    ensures known { IsKnown (D.told disk.new) known.new }
    ensures there { IfOk result (λ number. HasLog (D.told disk.new) number) }
    ensures file { IsSameFile reader.old reader.new }
    ensures goes { IfOk result (λ number. Goes (D.told disk.old) reader.old reader.new PlaceGives
        (λ files o. OffsetGives files o number)) }
    ensures bad { IfErr result (λ e. Faults (D.told disk.old) reader.old PlaceGives e) }
    ensures same { D.told disk.new ≡ D.told disk.old }
    ensures cause { IsHonest (D.faults disk.old) (D.faults disk.new) result }
{
    let file = reader.number();
    let at = reader.at();
    let Some(number) = reader.next_u32(disk)? else {
        return Err(CheckReadRefused::BadCheck { file, at });
    };
    let Ok(there) = known.has(disk, number) else {
        return Err(CheckReadRefused::DiskFault);
    };
    if !there {
        return Err(CheckReadRefused::BadCheck { file, at });
    }
    Ok(number)
}

// Whether a commit byte may stand at an offset of a log file of this size.
fn is_within(offset: u64, size: u64) -> bool
    ensures { IsTrue result ↔ ((16 ≤ offset) × (offset < size)) }
{
    FIRST_GATE <= offset && offset < size
}

fn read_offset<D: Disk>(
    disk: &mut D,
    reader: &mut CheckReader,
    number: u32,
) -> Result<Place, CheckReadRefused>
    requires held { Holds (D.told disk.old) reader.old }
    requires there { HasLog (D.told disk.old) number }
    ensures held { OnOk result (Holds (D.told disk.new) reader.new) }
    ensures file { IsSameFile reader.old reader.new }
    ensures goes { IfOk result (λ place. Goes (D.told disk.old) reader.old reader.new
        (λ files o. OffsetGives files o number) (λ files o. NumbersGive files o place)) }
    ensures bad { IfErr result (λ e. Faults (D.told disk.old) reader.old
        (λ files o. OffsetGives files o number) e) }
    ensures same { D.told disk.new ≡ D.told disk.old }
    ensures cause { IsHonest (D.faults disk.old) (D.faults disk.new) result }
{
    let file = reader.number();
    let at = reader.at();
    let Some(offset) = reader.next_u64(disk)? else {
        return Err(CheckReadRefused::BadCheck { file, at });
    };
    let Ok(size) = disk.len(FileName::Log(number)) else {
        return Err(CheckReadRefused::DiskFault);
    };
    if !is_within(offset, size) {
        return Err(CheckReadRefused::BadCheck { file, at });
    }
    Ok(Place {
        file: number,
        at: offset,
    })
}

fn read_number<D: Disk>(
    disk: &mut D,
    reader: &mut CheckReader,
    place: Place,
) -> Result<u64, CheckReadRefused>
    requires { Holds (D.told disk.old) reader.old }
    ensures held { OnOk result (Holds (D.told disk.new) reader.new) }
    ensures file { IsSameFile reader.old reader.new }
    ensures goes { IfOk result (λ number. Goes (D.told disk.old) reader.old reader.new
        (λ files o. NumbersGive files o place) (λ files o. TxnGives files o place number)) }
    ensures bad { IfErr result (λ e. Faults (D.told disk.old) reader.old
        (λ files o. NumbersGive files o place) e) }
    ensures same { D.told disk.new ≡ D.told disk.old }
    ensures cause { IsHonest (D.faults disk.old) (D.faults disk.new) result }
{
    let file = reader.number();
    let at = reader.at();
    let Some(number) = reader.next_u64(disk)? else {
        return Err(CheckReadRefused::BadCheck { file, at });
    };
    Ok(number)
}

fn read_txn<D: Disk>(
    disk: &mut D,
    reader: &mut CheckReader,
    place: Place,
    number: u64,
) -> Result<Next, CheckReadRefused>
    requires { Holds (D.told disk.old) reader.old }
    ensures held { OnOk result (Holds (D.told disk.new) reader.new) }
    ensures some { IfOk result (λ next. 1 ≤ next.txn) }
    ensures file { IsSameFile reader.old reader.new }
    ensures goes { IfOk result (λ next. Goes (D.told disk.old) reader.old reader.new
        (λ files o. TxnGives files o place number) (λ files o. ListsGive files o place next)) }
    ensures bad { IfErr result (λ e. Faults (D.told disk.old) reader.old
        (λ files o. TxnGives files o place number) e) }
    ensures same { D.told disk.new ≡ D.told disk.old }
    ensures cause { IsHonest (D.faults disk.old) (D.faults disk.new) result }
{
    let file = reader.number();
    let at = reader.at();
    let Some(txn) = reader.next_u64(disk)? else {
        return Err(CheckReadRefused::BadCheck { file, at });
    };
    if txn == 0 {
        return Err(CheckReadRefused::BadCheck { file, at });
    }
    Ok(Next { number, txn })
}

/// Reads what stands before a checkpoint's lists: its text and its form, its place, and the next numbers.
pub(crate) fn read_head<D: Disk>(
    disk: &mut D,
    reader: &mut CheckReader,
    known: &mut Logs,
) -> Result<(Place, Next), CheckReadRefused>
    requires held { Holds (D.told disk.old) reader.old }
    requires known { IsKnown (D.told disk.old) known.old }
    ensures held { OnOk result (Holds (D.told disk.new) reader.new) }
    ensures known { IsKnown (D.told disk.new) known.new }
    ensures some { IfOk result (λ head. 1 ≤ head.1.txn) }
    ensures file { IsSameFile reader.old reader.new }
    ensures goes { IfOk result (λ head. Goes (D.told disk.old) reader.old reader.new Gives
        (λ files o. ListsGive files o head.0 head.1)) }
    ensures bad { IfErr result (λ e. Faults (D.told disk.old) reader.old Gives e) }
    ensures same { D.told disk.new ≡ D.told disk.old }
    ensures cause { IsHonest (D.faults disk.old) (D.faults disk.new) result }
{
    read_text(disk, reader)?;
    read_form(disk, reader)?;
    let number = read_file(disk, reader, known)?;
    let place = read_offset(disk, reader, number)?;
    let next_number = read_number(disk, reader, place)?;
    let next = read_txn(disk, reader, place, next_number)?;
    Ok((place, next))
}
