// Time and chance in memory.
ghost use Rattle.std.specs.Prelude.{◌≡◌, ◌+◌, ◌-◌, ◌^◌, ◌%◌, min, Some};
ghost use Rattle.host_memory.specs.Times.{moments_of, draws_of};

use flume_host::{Clock, Random};

/// A clock whose moments lie evenly. A pause takes no time.
#[derive(Clone, Copy, Debug)]
pub struct MemClock {
    /// The moment that the next call gives.
    pub moment: u64,
    /// How much later each moment is than the one before. The last moment is 2^64 - 1.
    pub step: u64,
}

impl MemClock {
    /// The moment, after which the clock goes on.
    pub fn tick(&mut self) -> u64
        ensures moment { result ≡ self.old.moment }
        ensures next { self.new ≡ record {
          moment = min (self.old.moment + self.old.step)
              (2 ^ 64 - 1);
          step = self.old.step;
        } }
    {
        let moment = self.moment;
        self.moment = moment.saturating_add(self.step);
        moment
    }
}

impl Clock for MemClock {
    ghost moments = { λ c. Some (moments_of c) };

    fn now(&mut self) -> u64 {
        self.tick()
    }

    fn pause(&mut self, _ms: u32) {}
}

/// Numbers that lie evenly, and go round at 2^64.
#[derive(Clone, Copy, Debug)]
pub struct MemRandom {
    /// The number that the next call gives.
    pub number: u64,
    /// How much is added each time.
    pub step: u64,
}

impl MemRandom {
    /// The number, after which the next one comes.
    pub fn turn(&mut self) -> u64
        ensures number { result ≡ self.old.number }
        ensures next { self.new ≡ record {
          number = (self.old.number + self.old.step) % (2 ^ 64);
          step = self.old.step;
        } }
    {
        let number = self.number;
        self.number = number.wrapping_add(self.step);
        number
    }
}

impl Random for MemRandom {
    ghost draws = { λ r. Some (draws_of r) };

    fn draw(&mut self) -> u64 {
        self.turn()
    }
}
