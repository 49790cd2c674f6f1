// A source and a sink of bytes.
ghost use Rattle.std.specs.Prelude.{◌≡◌, ◌<◌, List, ℕ, Option, length, IfOk, OnOk};
ghost use Rattle.std.specs.Io.{ReadsAtMost, WritesAtMost};
ghost use Rattle.std.specs.Io.KnownBytes.{Keeps, ReadConsumes, WriteAppends};
ghost use Rattle.flume_host.specs.Causes.{HasCause};

use crate::Failed;

/// Bytes that come in.
pub trait Source {
    /// The bytes that are left, where it shows them.
    ghost left: { Self → Option (List ℕ) };

    /// How often it has failed. The count stops at 2^64 - 1.
    ghost faults: { Self → ℕ };

    /// Reads some bytes to the front of `into`. 0 for an `into` that isn't empty is the end.
    fn read(&mut self, into: &mut [u8]) -> Result<usize, Failed>
        ensures bound { ReadsAtMost result into.new }
        ensures bytes { ReadConsumes (left self.old) (left self.new) result into.new }
        ensures cause { HasCause (faults self.old) (faults self.new) result };

    /// How often it has failed.
    fn faults(&self) -> u64
        ensures { result ≡ faults self.now };
}

/// Bytes that go out.
pub trait Sink {
    /// The bytes that it took, where it shows them.
    ghost took: { Self → Option (List ℕ) };

    /// The bytes of these that it has surely handed on, where it shows them.
    ghost handed: { Self → Option (List ℕ) };

    /// How often it has failed. The count stops at 2^64 - 1.
    ghost faults: { Self → ℕ };

    /// Writes some bytes from the front, at least one of a piece that isn't empty.
    fn write(&mut self, bytes: &[u8]) -> Result<usize, Failed>
        ensures bound { WritesAtMost result bytes.now }
        ensures some { IfOk result (λ n. 0 < length bytes.now → 0 < n) }
        ensures bytes { WriteAppends (took self.old) (took self.new) result bytes.now }
        ensures cause { HasCause (faults self.old) (faults self.new) result };

    /// Hands on what was written.
    fn flush(&mut self) -> Result<(), Failed>
        ensures bytes { Keeps (took self.old) (took self.new) }
        ensures handed { OnOk result (handed self.new ≡ took self.new) }
        ensures cause { HasCause (faults self.old) (faults self.new) result };

    /// How often it has failed.
    fn faults(&self) -> u64
        ensures { result ≡ faults self.now };
}
