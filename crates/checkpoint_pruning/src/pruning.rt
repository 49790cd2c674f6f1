// Removes files below a number, one after another.
ghost use Rattle.std.specs.Prelude.{◌≡◌, ◌<◌, ◌≤◌, ◌+◌, ◌^◌, ℕ, IfOk, IfSome, None, OnOk};
ghost use Rattle.flume_host.specs.Causes.{HasCause};
ghost use Rattle.flume_host.specs.Told.{Tells, WhereTold};
ghost use Rattle.flume_host.specs.declared.names.FileName.TheVariants.{Check, Log};
ghost use Rattle.checkpoint_pruning.specs.Pruning.{IsBeforeCheck, IsBeforeLog, IsNextOf, KeepsFrom, checks_in, count_below, logs_in};

use flume_host::{Disk, Failed, FileName};

// The name before that of a checkpoint.
fn before_check(low: u32) -> FileName
    ensures { IsBeforeCheck result low }
{
    if low == 0 {
        FileName::Log(u32::MAX)
    } else {
        FileName::Check(low - 1)
    }
}

// The name before that of a log file, if there may be one.
fn before_log(low: u32) -> Option<FileName>
    ensures { IsBeforeLog result low }
{
    if low == 0 {
        None
    } else {
        Some(FileName::Log(low - 1))
    }
}

// The least number of a checkpoint from this one on.
fn next_check<D: Disk>(disk: &mut D, low: u32) -> Result<Option<u32>, Failed>
    ensures next { IfOk result (λ next. WhereTold (D.told disk.old)
        (λ t. IsNextOf (λ n. t.reads (Check n)) low next)) }
    ensures above { IfOk result (λ next. IfSome next (λ number. low ≤ number)) }
    ensures same { D.told disk.new ≡ D.told disk.old }
    ensures cause { HasCause (D.faults disk.old) (D.faults disk.new) result }
{
    match disk.next_name(Some(before_check(low)))? {
        Some(FileName::Check(number)) => Ok(Some(number)),
        Some(FileName::Log(_)) | None => Ok(None),
    }
}

// The least number of a log file from this one on.
fn next_log<D: Disk>(disk: &mut D, low: u32) -> Result<Option<u32>, Failed>
    ensures next { IfOk result (λ next. WhereTold (D.told disk.old)
        (λ t. IsNextOf (λ n. t.reads (Log n)) low next)) }
    ensures above { IfOk result (λ next. IfSome next (λ number. low ≤ number)) }
    ensures same { D.told disk.new ≡ D.told disk.old }
    ensures cause { HasCause (D.faults disk.old) (D.faults disk.new) result }
{
    match disk.next_name(before_log(low))? {
        Some(FileName::Log(number)) => Ok(Some(number)),
        Some(FileName::Check(_)) | None => Ok(None),
    }
}

// Removes each checkpoint below a number, and counts them.
fn remove_checks<D: Disk>(disk: &mut D, laid: u32) -> Result<u64, Failed>
    ensures kept { Tells (D.told disk.old) (D.told disk.new) (KeepsFrom 0 laid) }
    ensures gone { OnOk result (WhereTold (D.told disk.new)
        (λ t. (n : ℕ) → n < laid → t.reads (Check n) ≡ None)) }
    ensures count { IfOk result (λ count. WhereTold (D.told disk.old)
        (λ t. count ≡ count_below (checks_in t.reads) laid)) }
    ensures few { IfOk result (λ count. count ≤ laid) }
    ensures cause { HasCause (D.faults disk.old) (D.faults disk.new) result }
{
    let mut count = 0;
    let mut low = 0;
    loop {
        match next_check(disk, low)? {
            Some(number) if number < laid => {
                disk.remove(FileName::Check(number))?;
                low = number + 1;
                count += 1;
            }
            _ => return Ok(count),
        }
    }
}

// Removes each log file below a number, and counts them.
fn remove_logs<D: Disk>(disk: &mut D, least: u32) -> Result<u64, Failed>
    ensures kept { Tells (D.told disk.old) (D.told disk.new) (KeepsFrom least 0) }
    ensures gone { OnOk result (WhereTold (D.told disk.new)
        (λ t. (n : ℕ) → n < least → t.reads (Log n) ≡ None)) }
    ensures count { IfOk result (λ count. WhereTold (D.told disk.old)
        (λ t. count ≡ count_below (logs_in t.reads) least)) }
    ensures few { IfOk result (λ count. count ≤ least) }
    ensures cause { HasCause (D.faults disk.old) (D.faults disk.new) result }
{
    let mut count = 0;
    let mut low = 0;
    loop {
        match next_log(disk, low)? {
            Some(number) if number < least => {
                disk.remove(FileName::Log(number))?;
                low = number + 1;
                count += 1;
            }
            _ => return Ok(count),
        }
    }
}

/// Removes each checkpoint below the number `laid`, and then each log file below the number `least`, and answers how many
/// files went. A crash at any moment leaves the other files as they were. It takes no memory.
pub fn prune<D: Disk>(disk: &mut D, laid: u32, least: u32) -> Result<u64, Failed>
    ensures kept { Tells (D.told disk.old) (D.told disk.new) (KeepsFrom least laid) }
    ensures checks_gone { OnOk result (WhereTold (D.told disk.new)
        (λ t. (n : ℕ) → n < laid → t.reads (Check n) ≡ None)) }
    ensures logs_gone { OnOk result (WhereTold (D.told disk.new)
        (λ t. (n : ℕ) → n < least → t.reads (Log n) ≡ None)) }
    ensures count { IfOk result (λ count. WhereTold (D.told disk.old)
        (λ t. count ≡ count_below (checks_in t.reads) laid + count_below (logs_in t.reads) least)) }
    ensures cause { HasCause (D.faults disk.old) (D.faults disk.new) result }
{
    let checks = remove_checks(disk, laid)?;
    let logs = remove_logs(disk, least)?;
    Ok(checks + logs)
}
