// A sink that drops what it is handed.
ghost use Rattle.std.specs.Prelude.{◌≡◌, Ok};

use event_core::Batch;
use plug_in::{EventSink, SinkRefused};

/// Takes each batch, and does nothing with it (Flume User Guide, "Null Sink").
#[derive(Clone, Copy, Debug)]
pub struct NullSink;

impl EventSink for NullSink {
    ghost delivers = { λ _ _ _ result _. result ≡ Ok tt };

    ghost faults = { λ _. 0 };

    fn deliver(&mut self, _batch: &Batch, _moment: u64) -> Result<(), SinkRefused> {
        Ok(())
    }

    fn faults(&self) -> u64 {
        0
    }
}
