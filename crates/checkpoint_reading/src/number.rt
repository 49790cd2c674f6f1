// Which checkpoint of a folder is its newest.
ghost use Rattle.std.specs.Prelude.{◌≡◌, ◌<◌, ◌^◌, IfOk, IsSome, IsSomeAnd, None, Some, false, true, if◌then◌else◌};
ghost use Rattle.flume_host.specs.Causes.{HasCause};
ghost use Rattle.flume_host.specs.Told.{WhereTold};
ghost use Rattle.flume_host.specs.declared.names.FileName.TheVariants.{Check, Log};
ghost use Rattle.checkpoint.specs.Newest.{IsNewest, IsPassed, IsPassedFile};

use flume_host::{Disk, Failed, FileName};

// The commit byte of a checkpoint that counts.
const OPEN: u8 = 1;

// Whether a checkpoint's commit byte is open, and a byte is after it.
fn counts<D: Disk>(disk: &mut D, number: u32) -> Result<bool, Failed>
    requires { WhereTold (D.told disk.old) (λ t. IsSome (t.reads (Check number))) }
    ensures counts { IfOk result (λ counts. counts ≡ true → WhereTold (D.told disk.old)
        (λ t. IsSomeAnd (t.reads (Check number)) (λ bytes. IsPassed bytes → ⊥))) }
    ensures passed { IfOk result (λ counts. counts ≡ false → WhereTold (D.told disk.old)
        (λ t. IsPassedFile (t.reads (Check number)))) }
    ensures number { number < 2 ^ 32 }
    ensures same { D.told disk.new ≡ D.told disk.old }
    ensures cause { HasCause (D.faults disk.old) (D.faults disk.new) result }
{
    let mut front = [0u8; 2];
    let n = disk.read(FileName::Check(number), 0, &mut front)?;
    Ok(n == 2 && front[0] == OPEN)
}

// This number, if its checkpoint counts, or that of the one before.
fn later(newest: Option<u32>, number: u32, counted: bool) -> Option<u32>
    ensures { result ≡ (if counted then Some number else newest) }
{
    if counted { Some(number) } else { newest }
}

fn log_name(number: u32) -> FileName
    ensures name { result ≡ Log number }
    ensures number { number < 2 ^ 32 }
{
    FileName::Log(number)
}

/// The number of a folder's newest checkpoint: the greatest one whose commit byte is open and has a byte after it. None
/// where the folder has no such checkpoint. It takes no memory.
pub fn newest_number<D: Disk>(disk: &mut D) -> Result<Option<u32>, Failed>
    ensures newest { IfOk result (λ newest. WhereTold (D.told disk.old)
        (λ t. IsNewest t.reads newest)) }
    ensures same { D.told disk.new ≡ D.told disk.old }
    ensures cause { HasCause (D.faults disk.old) (D.faults disk.new) result }
{
    let mut newest = None;
    let mut after = None;
    loop {
        match disk.next_name(after)? {
            Some(FileName::Log(number)) => after = Some(log_name(number)),
            Some(FileName::Check(number)) => {
                let counted = counts(disk, number)?;
                newest = later(newest, number, counted);
                after = Some(FileName::Check(number));
            }
            None => return Ok(newest),
        }
    }
}
