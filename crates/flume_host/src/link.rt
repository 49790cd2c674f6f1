// A link of bytes with a peer.
ghost use Rattle.std.specs.Prelude.{◌≡◌, ◌≤◌, ◌<◌, ℕ, Option, length, IfOk};
ghost use Rattle.std.specs.Io.{WritesAtMost};
ghost use Rattle.flume_host.specs.Causes.{HasCause};
ghost use Rattle.flume_host.specs.Links.{LinkTold, FitsIn, CountsWait, Hears, Sends};

use crate::Failed;

/// What a read of a link brought.
#[derive(Clone, Copy, Debug, PartialEq, Eq)]
pub enum LinkRead {
    /// So many bytes, at least one.
    Got(usize),
    /// The peer sends no more.
    End,
    /// Nothing came for a while.
    Quiet,
}

/// A link of bytes with a peer.
pub trait Link {
    /// What it gave and took so far, where it shows that.
    ghost told: { Self → Option LinkTold };

    /// How often it has failed. The count stops at 2^64 - 1.
    ghost faults: { Self → ℕ };

    /// How often it has waited. The count stops at 2^64 - 1.
    ghost waits: { Self → ℕ };

    /// Reads some bytes to the front of `into`, or waits a while for them.
    fn read(&mut self, into: &mut [u8]) -> Result<LinkRead, Failed>
        requires { 0 < length into.old }
        ensures fits { IfOk result (λ read. FitsIn read (length into.new)) }
        ensures done { Hears result into.new (told self.old) (told self.new) }
        ensures waits { CountsWait result (waits self.old) (waits self.new) }
        ensures cause { HasCause (faults self.old) (faults self.new) result };

    /// Writes some bytes from the front, at least one of a piece that isn't empty.
    fn write(&mut self, bytes: &[u8]) -> Result<usize, Failed>
        ensures bound { WritesAtMost result bytes.now }
        ensures some { IfOk result (λ n. 0 < length bytes.now → 0 < n) }
        ensures done { Sends result bytes.now (told self.old) (told self.new) }
        ensures waits { waits self.old ≤ waits self.new }
        ensures cause { HasCause (faults self.old) (faults self.new) result };

    /// How often it has failed.
    fn faults(&self) -> u64
        ensures { result ≡ faults self.now };

    /// How often it has waited.
    fn waits(&self) -> u64
        ensures { result ≡ waits self.now };
}
