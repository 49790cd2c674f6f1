// The wish to stop.
ghost use Rattle.std.specs.Prelude.{◌≡◌, ◌≤◌, ℕ, IsTrue, IsFalse};
ghost use Rattle.flume_host.specs.Causes.{Rose};

/// Tells a session whether to stop, between two of its reads.
pub trait Halt {
    /// How often it has told so. The count stops at 2^64 - 1.
    ghost yes: { Self → ℕ };

    /// Whether to stop.
    fn asked(&mut self) -> bool
        ensures cause { IsTrue result → Rose (yes self.old) (yes self.new) }
        ensures still { IsFalse result → yes self.new ≡ yes self.old }
        ensures later { yes self.old ≤ yes self.new };

    /// How often it has told so.
    fn yes(&self) -> u64
        ensures { result ≡ yes self.now };
}
