// The worker of a sink over a channel in memory.
use crate::face::SilentFace;
use channel_face::{Limits, OwnFace, PutFace};
use crew::{Stop, Work};
use event_core::{Batch, Event, Headers};
use flume_host::Halt;
use host_memory::{MemClock, MemHalt};
use memory_channel::MemoryChannel;
use plug_in::{EventSink, SinkRefused};
use sink_worker::SinkWorker;
use std::alloc::Global;
use std::test::Fail;

/// Refuses its first deliveries, and counts the events of the others.
#[derive(Drop)]
pub struct CountingSink {
    pub refuses: u64,
    pub delivered: usize,
    faults: u64,
}

impl EventSink for CountingSink {
    ghost delivers = { λ _ _ _ _ _. Unit {0} };

    ghost faults = { λ s. s.faults };

    fn deliver(&mut self, batch: &Batch, _moment: u64) -> Result<(), SinkRefused> {
        if self.refuses > 0 {
            self.refuses -= 1;
            self.faults = self.faults.saturating_add(1);
            return Err(SinkRefused::Refused);
        }
        self.delivered = self.delivered.saturating_add(batch.len());
        Ok(())
    }

    fn faults(&self) -> u64 {
        self.faults
    }
}

const LIMITS: Limits = Limits {
    capacity: 10,
    txn_capacity: 5,
    max_file: 0,
};

/// A channel of three events.
pub fn channel_of_three(alloc: Global) -> Result<SilentFace, Fail> {
    let mut face = OwnFace::new(MemoryChannel::new(alloc, LIMITS)?);
    for byte in [b'a', b'b', b'c'] {
        let mut batch = Batch::new(alloc);
        let event = Event::new(Headers::new(alloc), vec![in alloc; byte; 1]?)?;
        if batch.push(event).is_err() || batch.len() != 1 || face.put_batch(&batch, &[0]).is_err() {
            return Err(Fail::from("not put"));
        }
    }
    Ok(SilentFace { face })
}

/// The worker of this port, which takes two events at a time. Each moment of its clock is the number of the run.
pub fn worker_over(
    alloc: Global,
    port: SilentFace,
    sink: CountingSink,
    clock: MemClock,
) -> SinkWorker<SilentFace, CountingSink, MemClock> {
    SinkWorker {
        alloc,
        port,
        channel: 0,
        sink,
        batch: 2,
        clock,
    }
}

/// A sink that refuses so many deliveries.
pub fn refusing(refuses: u64) -> CountingSink {
    CountingSink {
        refuses,
        delivered: 0,
        faults: 0,
    }
}

fn worker_of(
    alloc: Global,
    refuses: u64,
) -> Result<SinkWorker<SilentFace, CountingSink, MemClock>, Fail> {
    let port = channel_of_three(alloc)?;
    Ok(worker_over(
        alloc,
        port,
        refusing(refuses),
        MemClock { moment: 0, step: 1 },
    ))
}

// How often the worker may go on and how many deliveries are refused, and how many runs it then made and how many events it
// delivered. It asks before each run. After one that delivered it makes no pause, after one that found no event one of 100
// milliseconds, for which it asks once, and after a refused one a second, for which it asks five times.
const ENDS: [(u64, u64, u64, usize); 9] = [
    (0, 0, 0, 0),
    (1, 0, 1, 2),
    (2, 0, 2, 3),
    (3, 0, 3, 3),
    (4, 0, 3, 3),
    (5, 0, 4, 3),
    (6, 1, 1, 0),
    (7, 1, 2, 2),
    (8, 1, 3, 3),
];

#[test]
fn a_worker_makes_runs_until_it_is_told_to_stop(rt: HostRuntime) -> Result<(), Fail> {
    for (after, refuses, runs, delivered) in &ENDS {
        let mut worker = worker_of(rt.alloc(), *refuses)?;
        let mut halt = MemHalt {
            after: *after,
            yes: 0,
        };
        worker.work_until(&rt, &mut halt);
        let made = (worker.clock.moment, worker.sink.delivered);
        assert!(rt; made == (*runs, *delivered), "{after}: {made:?}");
        assert!(rt;
            halt.yes() == 1 && worker.sink.faults() == *refuses,
            "{after}"
        );
    }
    Ok(())
}

#[test]
fn a_worker_that_finds_the_stop_set_makes_no_run(rt: HostRuntime) -> Result<(), Fail> {
    let mut worker = worker_of(rt.alloc(), 0)?;
    let stop = Stop::new();
    stop.set();
    worker.work(&rt, &stop);
    assert!(rt; worker.clock.moment == 0 && worker.sink.delivered == 0);
    Ok(())
}
