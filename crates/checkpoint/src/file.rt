// The file of a checkpoint.
ghost use Rattle.std.specs.Prelude.{◌≡◌, ◌⊎◌, ◌<◌, ◌≤◌, ◌+◌, ◌^◌, [], ◌∷◌, ℕ, List, OnOk, OnErr, IsErr, IsSomeAnd};
ghost use Rattle.flume_host.specs.Causes.{HasCause, Rose};
ghost use Rattle.flume_host.specs.Told.{Changes, Tells, WhereTold};
ghost use Rattle.flume_host.specs.declared.names.FileName.TheVariants.{Check};
ghost use Rattle.checkpoint.specs.Files.{IsKept, IsUnused, IsWritten};
ghost use Rattle.checkpoint.specs.Newest.{IsPassed, IsPassedFile};

use flume_host::{Disk, Failed, FileName};

/// Why a checkpoint was not laid, or its commit byte not opened.
#[derive(Clone, Copy, Debug, PartialEq, Eq)]
pub enum LayRefused {
    /// A fault of the disk.
    DiskFault,
}

// Makes a checkpoint's file of a closed commit byte.
pub(crate) fn make_closed<D: Disk>(disk: &mut D, number: u32) -> Result<(), Failed>
    requires { IsUnused (D.told disk.old) number }
    ensures any_moment { Tells (D.told disk.old) (D.told disk.new)
        (Changes (Check number) IsPassedFile 1) }
    ensures made { OnOk result (WhereTold (D.told disk.new) (λ t. IsWritten t number [])) }
    ensures cause { HasCause (D.faults disk.old) (D.faults disk.new) result }
{
    let name = FileName::Check(number);
    disk.make(name)?;
    disk.write_at(name, 0, &[0])?;
    disk.sync(name)?;
    Ok(())
}

// Makes what is written stable.
pub(crate) fn seal<D: Disk>(disk: &mut D, number: u32) -> Result<(), Failed>
    requires { WhereTold (D.told disk.old) (λ t. (text : List ℕ) × IsWritten t number text) }
    ensures any_moment { Tells (D.told disk.old) (D.told disk.new)
        (Changes (Check number) IsPassedFile 1) }
    ensures sealed { OnOk result ((text : List ℕ)
        → WhereTold (D.told disk.old) (λ t. IsWritten t number text)
        → WhereTold (D.told disk.new) (λ t. IsKept t number (0 ∷ text))) }
    ensures cause { HasCause (D.faults disk.old) (D.faults disk.new) result }
{
    disk.sync(FileName::Check(number))
}

// Writes the open commit byte, and syncs.
fn open_byte<D: Disk>(disk: &mut D, number: u32) -> Result<(), Failed>
    requires { WhereTold (D.told disk.old) (λ t. (text : List ℕ) × IsKept t number (0 ∷ text)) }
    ensures any_moment { (text : List ℕ) → WhereTold (D.told disk.old)
        (λ t. IsKept t number (0 ∷ text))
        → Tells (D.told disk.old) (D.told disk.new) (Changes (Check number)
        (λ file. IsSomeAnd file (λ bytes. IsPassed bytes ⊎ (bytes ≡ 1 ∷ text))) 1) }
    ensures opened { OnOk result ((text : List ℕ)
        → WhereTold (D.told disk.old) (λ t. IsKept t number (0 ∷ text))
        → WhereTold (D.told disk.new) (λ t. IsKept t number (1 ∷ text))) }
    ensures cause { HasCause (D.faults disk.old) (D.faults disk.new) result }
{
    let name = FileName::Check(number);
    disk.write_at(name, 0, &[1])?;
    disk.sync(name)?;
    Ok(())
}

/// Opens the commit byte of a checkpoint that was laid: writes it, and syncs. It takes no memory.
pub fn open_gate<D: Disk>(disk: &mut D, number: u32) -> Result<(), LayRefused>
    requires { WhereTold (D.told disk.old) (λ t. (text : List ℕ) × IsKept t number (0 ∷ text)) }
    // A crash at any moment of the call leaves a file that is passed over, or the text after an open commit byte.
    ensures any_moment { (text : List ℕ) → WhereTold (D.told disk.old)
        (λ t. IsKept t number (0 ∷ text))
        → Tells (D.told disk.old) (D.told disk.new) (Changes (Check number)
        (λ file. IsSomeAnd file (λ bytes. IsPassed bytes ⊎ (bytes ≡ 1 ∷ text))) 1) }
    // After Ok it leaves only the latter.
    ensures opened { OnOk result ((text : List ℕ)
        → WhereTold (D.told disk.old) (λ t. IsKept t number (0 ∷ text))
        → WhereTold (D.told disk.new) (λ t. IsKept t number (1 ∷ text))) }
    ensures later { D.faults disk.old ≤ D.faults disk.new }
    ensures fault { OnErr result (Rose (D.faults disk.old) (D.faults disk.new)) }
    ensures well { OnOk result (D.faults disk.new ≡ D.faults disk.old) }
{
    match open_byte(disk, number) {
        Ok(()) => Ok(()),
        Err(Failed) => Err(LayRefused::DiskFault),
    }
}
