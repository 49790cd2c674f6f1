// Reads how an open transaction of a checkpoint begins.
ghost use Rattle.std.specs.Prelude.{◌≡◌, ◌<◌, ◌≤◌, ◌+◌, ◌^◌, ◌++◌, IfErr, IfOk, MatchOption, OnOk};
ghost use Rattle.flume_host.specs.Told.{WhereTold};
ghost use Rattle.event_core.specs.Numbers.{u32_bytes, u64_bytes};
ghost use Rattle.checkpoint_reading.specs.Opens.{MayOpen, NoOpen};
ghost use Rattle.checkpoint_reading.specs.Reader.{Holds, IsHonest, IsPlain, IsSameFile, Takes, rest};

use crate::live::is_between;
use crate::reader::CheckReader;
use crate::refused::CheckReadRefused;
use flume_host::Disk;

/// The number of the next open transaction and how many it lists, if these may be right: the number is not below the first
/// one and is below the second, and it lists something.
pub(crate) fn next_open<D: Disk>(
    disk: &mut D,
    reader: &mut CheckReader,
    low: u64,
    high: u64,
) -> Result<Option<(u64, u32)>, CheckReadRefused>
    requires { Holds (D.told disk.old) reader.old }
    ensures held { OnOk result (Holds (D.told disk.new) reader.new) }
    ensures file { IsSameFile reader.old reader.new }
    ensures begins { IfOk result (λ next. MatchOption next
        (WhereTold (D.told disk.old) (λ t. NoOpen low high (rest t reader.old)))
        (λ o. Takes (D.told disk.old) reader.old reader.new (u64_bytes o.0 ++ u32_bytes o.1) ×
        MayOpen low high o.0 o.1)) }
    ensures plain { IfErr result IsPlain }
    ensures same { D.told disk.new ≡ D.told disk.old }
    ensures cause { IsHonest (D.faults disk.old) (D.faults disk.new) result }
{
    let Some((txn, count)) = reader.next_entry(disk)? else {
        return Ok(None);
    };
    if !is_between(txn, low, high) {
        return Ok(None);
    }
    if count == 0 {
        return Ok(None);
    }
    Ok(Some((txn, count)))
}
