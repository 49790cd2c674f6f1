// A group as a sink.
ghost use Rattle.std.specs.List.{sum_by};
ghost use Rattle.std.specs.Prelude.{◌≡◌, ◌+◌, ◌-◌, ◌^◌, min};
ghost use Rattle.flume_host.specs.Series.{Gives};
ghost use Rattle.sink_groups.specs.Deliveries.{SinkDelivers};

use crate::GroupRun;
use event_core::Batch;
use flume_host::Random;
use plug_in::{EventSink, SinkRefused};

/// A group of sinks as a sink, with a source of random numbers. Each delivery draws once.
#[derive(Drop)]
pub struct GroupSink<S, N> {
    run: GroupRun<S>,
    random: N,
    // how often all members that were due failed
    failed: u64,
}

impl<S: EventSink, N: Random + Drop> GroupSink<S, N> {
    /// This group, of which no delivery has failed yet.
    pub fn new(run: GroupRun<S>, random: N) -> GroupSink<S, N>
        ensures run { result.run ≡ run }
        ensures random { result.random ≡ random }
        ensures failed { result.failed ≡ 0 }
    {
        GroupSink {
            run,
            random,
            failed: 0,
        }
    }

    /// Hands the members back, in order.
    pub fn close(self) -> Vec<S>
        ensures { result ≡ self.run.members }
    {
        self.run.into_members()
    }
}

/// It refuses exactly where each member that was not left alone was tried and refused. Its count is the sum of its members',
/// and one for each such refusal.
impl<S: EventSink, N: Random + Drop> EventSink for GroupSink<S, N> {
    ghost use Rattle.std.specs.Prelude.{ℕ};

    ghost delivers = { λ s batch moment result t. (draw : ℕ) × Gives draw (N.draws s.random)
        (N.draws t.random) × SinkDelivers S.delivers batch moment draw s.run.schedule
        s.run.members.items s.failed result t.run.schedule t.run.members.items t.failed };

    ghost faults = { λ s. min (sum_by S.faults s.run.members.items + s.failed) (2 ^ 64 - 1) };

    fn deliver(&mut self, batch: &Batch, moment: u64) -> Result<(), SinkRefused> {
        let draw = self.random.draw();
        match self.run.deliver_unlisted(batch, moment, draw) {
            Ok(_) => Ok(()),
            Err(SinkRefused::NoMemory) => Err(SinkRefused::NoMemory),
            Err(SinkRefused::Refused) => {
                self.failed = self.failed.saturating_add(1);
                Err(SinkRefused::Refused)
            }
        }
    }

    fn faults(&self) -> u64 {
        self.run.faults().saturating_add(self.failed)
    }
}
