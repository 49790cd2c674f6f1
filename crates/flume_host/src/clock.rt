// Time and chance.
ghost use Rattle.std.specs.Prelude.{◌≡◌, ℕ, Option};
ghost use Rattle.flume_host.specs.Series.{Gives};

/// The time of day.
pub trait Clock {
    /// The moments that are still to come, where it shows them: the first of them has the number 0.
    ghost moments: { Self → Option (ℕ → ℕ) };

    /// Milliseconds since the first moment of 1970, UTC. Two calls may give any two moments: a clock may be set.
    fn now(&mut self) -> u64
        ensures { Gives result (moments self.old) (moments self.new) };

    /// Waits about so many milliseconds.
    fn pause(&mut self, ms: u32)
        ensures { moments self.new ≡ moments self.old };
}

/// Numbers by chance.
pub trait Random {
    /// The numbers that are still to come, where it shows them: the first of them has the number 0.
    ghost draws: { Self → Option (ℕ → ℕ) };

    /// Any number.
    fn draw(&mut self) -> u64
        ensures { Gives result (draws self.old) (draws self.new) };
}
