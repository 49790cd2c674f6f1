// A disk is one folder of named files. Where it shows its contents, its contract says what reads give, and what a crash at each moment may leave.
ghost use Rattle.std.specs.Prelude.{◌≡◌, ◌≤◌, ◌<◌, ◌^◌, ◌+◌, ◌-◌, ◌++◌, ℕ, List, Option, Some, None, length, take, drop, min, IfOk, OnOk, IfSome, IsSome};
ghost use Rattle.flume_host.specs.Causes.{HasCause};
ghost use Rattle.flume_host.specs.Folder.{IsImage, IsAbove, IsNext};
ghost use Rattle.flume_host.specs.Told.{Told, On, Make, Write, Sync, Settle, Remove, WhereTold, Does};

use crate::{Failed, FileName};

/// A folder of files named by [`FileName`]. No file has more than 2^63 - 1 bytes.
pub trait Disk {
    /// What the disk shows, if anything: the files as they read, and what a crash at each moment might have left.
    ghost told: { Self → Option Told };

    /// How often it has failed. The count stops at 2^64 - 1.
    ghost faults: { Self → ℕ };

    /// How often it has failed.
    fn faults(&self) -> u64
        ensures { result ≡ faults self.now };

    /// Makes an empty file.
    fn make(&mut self, name: FileName) -> Result<(), Failed>
        requires { WhereTold (told self.old) (λ t. t.reads name ≡ None) }
        ensures done { Does (On name Make) result (told self.old) (told self.new) }
        ensures cause { HasCause (faults self.old) (faults self.new) result };

    /// The length of a file.
    fn len(&mut self, name: FileName) -> Result<u64, Failed>
        requires { WhereTold (told self.old) (λ t. IsSome (t.reads name)) }
        ensures length { IfOk result (λ n. WhereTold (told self.old) (λ t.
            (bytes : List ℕ) × (t.reads name ≡ Some bytes) × (n ≡ length bytes))) }
        ensures bounded { IfOk result (λ n. n < 2 ^ 63) }
        ensures same { told self.new ≡ told self.old }
        ensures cause { HasCause (faults self.old) (faults self.new) result };

    /// Fills `into` from the offset on, and fills less only where the file ends.
    fn read(&mut self, name: FileName, at: u64, into: &mut [u8]) -> Result<usize, Failed>
        requires { WhereTold (told self.old) (λ t. IsSome (t.reads name)) }
        ensures bytes { IfOk result (λ n. WhereTold (told self.old) (λ t.
            (bytes : List ℕ) × (t.reads name ≡ Some bytes)
            × (n ≡ min (length into.old) (length bytes - at))
            × (into.new ≡ take n (drop at bytes) ++ drop n into.old))) }
        ensures filled { IfOk result (λ n. n ≤ length into.old) }
        ensures same { told self.new ≡ told self.old }
        ensures cause { HasCause (faults self.old) (faults self.new) result };

    /// Writes over what is there, and past the end.
    fn write_at(&mut self, name: FileName, at: u64, bytes: &[u8]) -> Result<(), Failed>
        requires { WhereTold (told self.old) (λ t. (was : List ℕ) × (t.reads name ≡ Some was)
            × (at ≤ length was)) }
        ensures done { Does (On name (Write at bytes.now)) result (told self.old) (told self.new) }
        ensures bounded { OnOk result (at + length bytes.now < 2 ^ 63) }
        ensures cause { HasCause (faults self.old) (faults self.new) result };

    /// Makes the content of a file stable.
    fn sync(&mut self, name: FileName) -> Result<(), Failed>
        requires { WhereTold (told self.old) (λ t. IsSome (t.reads name)) }
        ensures done { Does (On name Sync) result (told self.old) (told self.new) }
        ensures cause { HasCause (faults self.old) (faults self.new) result };

    /// Makes stable all that reads give, names too.
    fn settle(&mut self) -> Result<(), Failed>
        ensures done { Does Settle result (told self.old) (told self.new) }
        ensures cause { HasCause (faults self.old) (faults self.new) result };

    /// Removes a file.
    fn remove(&mut self, name: FileName) -> Result<(), Failed>
        requires { WhereTold (told self.old) (λ t. IsSome (t.reads name)) }
        ensures done { Does (On name Remove) result (told self.old) (told self.new) }
        ensures cause { HasCause (faults self.old) (faults self.new) result };

    /// The least name above `after`, or the least of all. It takes no memory.
    fn next_name(&mut self, after: Option<FileName>) -> Result<Option<FileName>, Failed>
        ensures above { IfOk result (λ next. IfSome next (λ n. IsAbove after n)) }
        ensures next { IfOk result (λ next. WhereTold (told self.old)
            (λ t. IsNext t.reads after next)) }
        ensures same { told self.new ≡ told self.old }
        ensures cause { HasCause (faults self.old) (faults self.new) result };

    /// What reads give is one of the images that a crash may leave.
    ghost reads_are_left: { (disk : Self) (t : Told) → told disk ≡ Some t → IsImage t.now t.reads };
}
