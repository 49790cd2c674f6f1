// What a worker of a run drives.
ghost use Rattle.std.specs.Prelude.{◌≡◌};

use event_core::Batch;
use flume_host::Random;
use plug_in::{EventSink, SinkRefused};
use sink_groups::GroupSink;

/// A sink that stands in no group, or a group of sinks with its source of random numbers.
#[derive(Drop)]
pub enum Runner<S, N> {
    /// A sink.
    Alone(S),
    /// A group.
    Group(GroupSink<S, N>),
}

/// Its deliveries and its count are those of the sink or the group in it, and it stays what it is.
impl<S: EventSink, N: Random + Drop> EventSink for Runner<S, N> {
    ghost use Rattle.grouped_sinks.specs.Runners.{DeliversAs, faults_as};

    ghost delivers = { λ s batch moment result t. DeliversAs
        (λ a. S.delivers a batch moment result)
        (λ a. ⟦<GroupSink<S, N> as EventSink>⟧.delivers a batch moment result) s t };

    ghost faults = { λ s. faults_as S.faults ⟦<GroupSink<S, N> as EventSink>⟧.faults s };

    fn deliver(&mut self, batch: &Batch, moment: u64) -> Result<(), SinkRefused> {
        match self {
            Runner::Alone(sink) => sink.deliver(batch, moment),
            Runner::Group(group) => group.deliver(batch, moment),
        }
    }

    fn faults(&self) -> u64 {
        match self {
            Runner::Alone(sink) => sink.faults(),
            Runner::Group(group) => group.faults(),
        }
    }
}
