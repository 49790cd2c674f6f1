// The system's clock and random numbers.
ghost use Rattle.std.specs.Prelude.{None};

use flume_host::{Clock, Random};
use std::random::RandomSource;
use std::thread;
use std::time::{Duration, SystemTime, UNIX_EPOCH};

/// The system's clock. Where it can't be read, or stands before 1970, the moment is 0.
#[derive(Drop)]
pub struct RealClock {
    pub rt: HostRuntime,
}

impl Clock for RealClock {
    ghost moments = { λ _. None };

    fn now(&mut self) -> u64 {
        match SystemTime::now(&self.rt) {
            Ok(time) => match time.duration_since(UNIX_EPOCH) {
                Ok(since) => since.as_millis().min(u64::MAX as u128) as u64,
                Err(_) => 0,
            },
            Err(_) => 0,
        }
    }

    fn pause(&mut self, ms: u32) {
        thread::sleep(&self.rt, Duration::from_millis(ms as u64));
    }
}

/// The system's random numbers. Where it has none, the number is 0.
#[derive(Drop)]
pub struct RealRandom {
    pub rt: HostRuntime,
}

impl Random for RealRandom {
    ghost draws = { λ _. None };

    fn draw(&mut self) -> u64 {
        let mut bytes = [0; 8];
        match self.rt.fill_bytes(&mut bytes) {
            Ok(()) => u64::from_le_bytes(bytes),
            Err(_) => 0,
        }
    }
}
