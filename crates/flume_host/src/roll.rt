// A folder that gets new files only.
ghost use Rattle.std.specs.Prelude.{◌≡◌, ◌<◌, ℕ, Option, length, IfOk};
ghost use Rattle.std.specs.Io.{WritesAtMost};
ghost use Rattle.flume_host.specs.Causes.{HasCause};
ghost use Rattle.flume_host.specs.Rolled.{Rolled, Begins, Adds, HandsOn};

use crate::Failed;

/// A folder of files that are written once, one after the other: each is begun, and then gets its bytes.
pub trait RollDir {
    /// The files that it took, where it shows them.
    ghost rolled: { Self → Option Rolled };

    /// How often it has failed. The count stops at 2^64 - 1.
    ghost faults: { Self → ℕ };

    /// Makes a new file, which gets what is written from now on. A file of this name that is there already is a fault.
    fn begin(&mut self, name: &str) -> Result<(), Failed>
        ensures done { Begins name.now result (rolled self.old) (rolled self.new) }
        ensures cause { HasCause (faults self.old) (faults self.new) result };

    /// Writes some bytes from the front to the file that was begun last, at least one of a piece that isn't empty. Where
    /// none was begun since the folder was opened, or the last begin failed, it is a fault.
    fn write(&mut self, bytes: &[u8]) -> Result<usize, Failed>
        ensures bound { WritesAtMost result bytes.now }
        ensures some { IfOk result (λ n. 0 < length bytes.now → 0 < n) }
        ensures done { Adds bytes.now result (rolled self.old) (rolled self.new) }
        ensures cause { HasCause (faults self.old) (faults self.new) result };

    /// Hands on what was written.
    fn flush(&mut self) -> Result<(), Failed>
        ensures done { HandsOn result (rolled self.old) (rolled self.new) }
        ensures cause { HasCause (faults self.old) (faults self.new) result };

    /// How often it has failed.
    fn faults(&self) -> u64
        ensures { result ≡ faults self.now };
}
