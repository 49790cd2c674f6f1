// A clock that counts the milliseconds of its pauses.
use flume_host::Clock;

/// A clock that counts the milliseconds of its pauses.
#[derive(Drop)]
pub struct PausingClock {
    pub paused: u64,
}

impl Clock for PausingClock {
    ghost use Rattle.std.specs.Prelude.{None};

    ghost moments = { λ c. None };

    fn now(&mut self) -> u64 {
        0
    }

    fn pause(&mut self, ms: u32) {
        self.paused = self.paused.saturating_add(u64::from(ms));
    }
}
