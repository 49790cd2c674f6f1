// A sink that counts.
ghost use Rattle.std.specs.Prelude.{◌≡◌, ◌+◌, ◌-◌, ◌^◌, Ok, length, min};

use event_core::Batch;
use plug_in::{EventSink, SinkRefused};

/// Counts the events that it is handed, and accepts them all.
#[derive(Debug, Drop)]
pub struct Tally {
    /// How many it was handed. The count stops at 2^64 - 1.
    pub count: u64,
}

impl EventSink for Tally {
    ghost delivers = { λ old batch moment answer new.
        (answer ≡ Ok tt) × (new.count ≡ min (old.count + length batch) (2 ^ 64 - 1)) };

    ghost faults = { λ sink. 0 };

    fn deliver(&mut self, batch: &Batch, _moment: u64) -> Result<(), SinkRefused> {
        self.count = self.count.saturating_add(batch.len() as u64);
        Ok(())
    }

    fn faults(&self) -> u64 {
        0
    }
}
