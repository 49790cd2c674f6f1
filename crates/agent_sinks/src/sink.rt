// A sink of an agent, of whatever kind.
ghost use Rattle.std.specs.Prelude.{◌≡◌};

use event_core::Batch;
use flume_host::RollDir;
use plug_in::{EventSink, SinkRefused};
use roll_sink::RollSink;
use sink_runner::NullSink;

/// A sink of an agent. The Avro sink and the sink that was handed in are type parameters: the one stands in a crate above, and
/// the meaning of a boxed object can't be stated of an `enum` that names it.
#[derive(Drop)]
pub enum AgentSink<R: RollDir + Drop, A, B> {
    /// Drops what it is handed.
    Null(NullSink),
    /// Writes into rolled files.
    Roll(RollSink<R>),
    /// Sends to another agent.
    Avro(A),
    /// Was handed in.
    Boxed(B),
}

/// Its deliveries and its count are those of the sink in it, and it stays of the same kind.
impl<R: RollDir + Drop, A: EventSink, B: EventSink> EventSink for AgentSink<R, A, B> {
    ghost use Rattle.agent_sinks.specs.Kinds.{DeliversAs, faults_as};

    ghost delivers = { λ s batch moment result t. DeliversAs
        (λ a. ⟦<NullSink as EventSink>⟧.delivers a batch moment result)
        (λ a. ⟦<RollSink<R> as EventSink>⟧.delivers a batch moment result)
        (λ a. A.delivers a batch moment result)
        (λ a. B.delivers a batch moment result) s t };

    ghost faults = { λ s. faults_as ⟦<RollSink<R> as EventSink>⟧.faults A.faults B.faults s };

    fn deliver(&mut self, batch: &Batch, moment: u64) -> Result<(), SinkRefused> {
        match self {
            AgentSink::Null(sink) => sink.deliver(batch, moment),
            AgentSink::Roll(sink) => EventSink::deliver(sink, batch, moment),
            AgentSink::Avro(sink) => sink.deliver(batch, moment),
            AgentSink::Boxed(sink) => sink.deliver(batch, moment),
        }
    }

    fn faults(&self) -> u64 {
        match self {
            AgentSink::Null(sink) => sink.faults(),
            AgentSink::Roll(sink) => sink.faults(),
            AgentSink::Avro(sink) => sink.faults(),
            AgentSink::Boxed(sink) => sink.faults(),
        }
    }
}
