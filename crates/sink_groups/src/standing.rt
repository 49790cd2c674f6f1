// What a group knows of a member.
ghost use Rattle.std.specs.Prelude.{◌≡◌, nat_le};
ghost use Rattle.sink_groups.specs.Scheduler.{failed, succeeded, fresh};

/// The longest row of failures that is counted.
const MAX_FAILURES: u32 = 32;

/// What a group knows of a member.
#[derive(Clone, Copy)]
pub struct Standing {
    /// How often it failed since it last took a batch, at most 32.
    pub failures: u32,
    /// The moment, in milliseconds since 1970, from which on it is tried.
    pub until: u128,
}

impl Standing {
    /// A member that has not failed yet.
    pub fn new() -> Standing
        ensures { result ≡ fresh }
    {
        Standing {
            failures: 0,
            until: 0,
        }
    }

    /// It failed. It is left alone for twice as long as the last time, and at most for the penalty, in milliseconds.
    pub fn failed(self, penalty: u64, now: u64) -> Standing
        ensures { result ≡ failed penalty now self }
    {
        let failures = self.failures.saturating_add(1).min(MAX_FAILURES);
        let pause = penalty.min(1000u64 << failures);
        Standing {
            failures,
            until: u128::from(now) + u128::from(pause),
        }
    }

    /// It took a batch.
    pub fn succeeded(self) -> Standing
        ensures { result ≡ succeeded self }
    {
        Standing {
            failures: 0,
            until: self.until,
        }
    }

    /// Whether it is tried at this moment.
    pub fn is_due(self, now: u64) -> bool
        ensures { result ≡ nat_le self.until now }
    {
        self.until <= u128::from(now)
    }
}
