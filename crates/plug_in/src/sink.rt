// A sink, to which batches of events are delivered.
ghost use Rattle.std.specs.Prelude.{◌≡◌, ◌≤◌, ℕ, List, Result};
ghost use Rattle.event_core.specs.Content.{Content};
ghost use Rattle.flume_host.specs.Causes.{Rose};
ghost use Rattle.plug_in.specs.Sinks.{IsRefused};
ghost use Rattle.plug_in.specs.declared.sink.SinkRefused.{SinkRefused};

use event_core::Batch;

/// Why a batch was not delivered.
#[derive(Clone, Copy, Debug, PartialEq, Eq)]
pub enum SinkRefused {
    /// The sink refused it, and has counted that.
    Refused,
    /// Out of memory.
    NoMemory,
}

/// Takes batches of events out of the agent (Flume User Guide, "Flume Sinks").
pub trait EventSink: Drop {
    /// What a delivery means: the sink before it, the batch, its moment in milliseconds since 1970, the answer, and the
    /// sink after it.
    ghost delivers: { Self → List Content → ℕ → Result (Unit {0}) SinkRefused → Self → Type 0 };

    /// How often it has refused. The count stops at 2^64 - 1.
    ghost faults: { Self → ℕ };

    /// Delivers a batch. At Ok the sink answers for its events.
    fn deliver(&mut self, batch: &Batch, moment: u64) -> Result<(), SinkRefused>
        ensures done { delivers self.old batch.now moment result self.new }
        ensures cause { IsRefused result → Rose (faults self.old) (faults self.new) }
        ensures later { faults self.old ≤ faults self.new };

    /// How often it has refused.
    fn faults(&self) -> u64
        ensures { result ≡ faults self.now };
}

/// A boxed sink's answers and changes are those of the object in it, and the box stays as it is.
impl EventSink for Box<dyn EventSink + Send> {
    ghost delivers = { λ b batch moment result c. (object : _) × (c ≡ record b { value = object }) ×
        (EventSink-box b).delivers b.value batch moment result object };

    ghost faults = { λ b. (EventSink-box b).faults b.value };

    fn deliver(&mut self, batch: &Batch, moment: u64) -> Result<(), SinkRefused> {
        (**self).deliver(batch, moment)
    }

    fn faults(&self) -> u64 {
        (**self).faults()
    }
}
