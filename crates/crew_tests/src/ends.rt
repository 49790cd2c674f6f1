// The end of a run: a sink that empties its channel, the report, and the exit status.
use crate::face::SilentFace;
use crate::sinks::{channel_of_three, refusing, worker_over};
use agent_end::{ChannelDrain, InputEnd, ReportRefused, RunEnds, drain_channel, write_report};
use channel_face::{Counter, Counts, FaceRefused, OpenCause, TakeFace, TakeRefused, TakeTxn};
use crew::DrainEnd;
use host_memory::{MemClock, MemSink};
use sink_runner::{Turn, TurnCause};
use sink_worker::SinkWorker;
use std::alloc::Global;
use std::sync::Wait;
use std::test::Fail;

// Of three events, how many are held by a transaction and how many deliveries are refused; how the draining then ends, and how
// many events were delivered, in how many runs. A run takes at most two.
const DRAINS: [(u64, u64, ChannelDrain, usize, u64); 5] = [
    (0, 0, ChannelDrain::Emptied, 3, 2),
    (
        0,
        1,
        ChannelDrain::Stopped(Turn::Failed {
            cause: TurnCause::Sink,
        }),
        0,
        1,
    ),
    (1, 0, ChannelDrain::Stopped(Turn::Empty), 2, 2),
    (2, 0, ChannelDrain::Stopped(Turn::Empty), 1, 2),
    (3, 0, ChannelDrain::Stopped(Turn::Empty), 0, 1),
];

// What is seen of a draining while a transaction holds some events, and of one after it gave them back.
#[derive(Drop)]
struct Seen {
    end: ChannelDrain,
    delivered: usize,
    runs: u64,
    // how the second ended, and how many events were delivered in both
    last: ChannelDrain,
    all: usize,
}

// Whether a transaction takes so many events.
fn holds(face: &mut SilentFace, txn: &mut TakeTxn, held: u64) -> bool {
    for _ in 0..held {
        if !matches!(face.take(txn), Ok(Some(_))) {
            return false;
        }
    }
    true
}

fn seen_of<R: Wait>(rt: &R, alloc: Global, held: u64, refuses: u64) -> Result<Seen, Fail> {
    let mut port = channel_of_three(alloc)?;
    let Ok(mut txn) = port.begin() else {
        return Err(Fail::from("not begun"));
    };
    let held = holds(&mut port, &mut txn, held);
    let clock = MemClock { moment: 0, step: 1 };
    let mut worker = worker_over(alloc, port, refusing(refuses), clock);
    let end = drain_channel(rt, &mut worker);
    let SinkWorker {
        mut port,
        sink,
        clock,
        ..
    } = worker;
    port.rollback(txn);
    let (delivered, runs) = (sink.delivered, clock.moment);
    let mut again = worker_over(alloc, port, sink, clock);
    let last = drain_channel(rt, &mut again);
    if !held {
        return Err(Fail::from("not held"));
    }
    Ok(Seen {
        end,
        delivered,
        runs,
        last,
        all: again.sink.delivered,
    })
}

#[test]
fn a_sink_empties_its_channel(rt: HostRuntime) -> Result<(), Fail> {
    for (row, (held, refuses, end, delivered, runs)) in DRAINS.iter().enumerate() {
        let seen = seen_of(&rt, rt.alloc(), *held, *refuses)?;
        let made = (seen.delivered, seen.runs);
        assert!(rt;
            seen.end == *end && made == (*delivered, *runs),
            "row {row}: {made:?}"
        );
        assert!(rt;
            seen.last == ChannelDrain::Emptied && seen.all == 3,
            "row {row}"
        );
    }
    Ok(())
}

const CAPACITY: OpenCause = OpenCause::OverCapacity { count: 3 };

const AT_END: OpenCause = OpenCause::Spent {
    counter: Counter::Life,
};

const NO_MEMORY: ChannelDrain = ChannelDrain::Stopped(Turn::NoMemory);

const DOUBT: ChannelDrain = ChannelDrain::Stopped(Turn::InDoubt);

const BROKEN: ChannelDrain = ChannelDrain::Stopped(Turn::Failed {
    cause: TurnCause::Channel(FaceRefused::Take(TakeRefused::Broken)),
});

// What ended the input, how the drainings ended, what the mends were answered, how the report was written, and the status.
type Parts = (
    InputEnd,
    &'static [ChannelDrain],
    &'static [Result<bool, OpenCause>],
    Result<(), ReportRefused>,
    u8,
);

const PARTS: [Parts; 17] = [
    (InputEnd::End, &[], &[], Ok(()), 0),
    (
        InputEnd::End,
        &[ChannelDrain::Emptied, DOUBT, BROKEN],
        &[Ok(true), Ok(false)],
        Ok(()),
        0,
    ),
    (InputEnd::Fault, &[], &[], Ok(()), 3),
    (InputEnd::NoMemory, &[], &[], Ok(()), 5),
    (InputEnd::LongLine, &[], &[], Ok(()), 7),
    (InputEnd::Full, &[], &[], Ok(()), 6),
    (InputEnd::End, &[DOUBT, NO_MEMORY], &[], Ok(()), 5),
    (InputEnd::End, &[], &[], Err(ReportRefused::Fault), 3),
    (InputEnd::End, &[], &[], Err(ReportRefused::NoMemory), 5),
    (
        InputEnd::End,
        &[],
        &[Ok(false), Err(OpenCause::DiskFault)],
        Ok(()),
        3,
    ),
    (InputEnd::End, &[], &[Err(OpenCause::NoMemory)], Ok(()), 5),
    (InputEnd::End, &[], &[Err(CAPACITY)], Ok(()), 4),
    (InputEnd::End, &[], &[Err(AT_END), Ok(true)], Ok(()), 4),
    (
        InputEnd::Full,
        &[NO_MEMORY],
        &[Err(OpenCause::DiskFault)],
        Ok(()),
        3,
    ),
    (
        InputEnd::Fault,
        &[NO_MEMORY],
        &[Err(OpenCause::DiskFault), Err(CAPACITY)],
        Err(ReportRefused::Fault),
        4,
    ),
    (InputEnd::LongLine, &[NO_MEMORY], &[], Ok(()), 5),
    (InputEnd::LongLine, &[], &[], Err(ReportRefused::Fault), 3),
];

#[test]
fn the_status_is_the_first_of_the_order(rt: HostRuntime) -> Result<(), Fail> {
    for (row, (input, drains, mends, report, status)) in PARTS.iter().enumerate() {
        let ends = RunEnds {
            input: *input,
            drains: drains.to_vec(rt.alloc())?,
            mends: mends.to_vec(rt.alloc())?,
            report: *report,
        };
        assert!(rt; ends.status() == *status, "row {row}");
    }
    Ok(())
}

#[test]
fn an_input_that_was_drained(rt: HostRuntime) {
    assert!(rt; InputEnd::of_drain(DrainEnd::End) == InputEnd::End);
    assert!(rt; InputEnd::of_drain(DrainEnd::Full) == InputEnd::Full);
    assert!(rt; InputEnd::of_drain(DrainEnd::ReadFault) == InputEnd::Fault);
}

// The worked counts, and their report.
const COUNTS: Counts = Counts {
    put_attempts: 1,
    put_successes: 1,
    take_attempts: 2,
    take_successes: 1,
    size: 0,
    capacity: 100,
};

const REPORT: &str =
    "{\"CHANNEL.c1\":{\"ChannelCapacity\":\"100\",\"ChannelSize\":\"0\",\"EventPutAttemptCount\":\"1\",\"EventPutSuccessCount\":\"1\",\"EventTakeAttemptCount\":\"2\",\"EventTakeSuccessCount\":\"1\"}}\n";

// How many bytes a write takes, which call of the output fails, how the writing ends, and how many bytes were written. The
// report has 169 bytes, and a flush follows it.
const OUTPUTS: [(usize, &[u64], Result<(), ReportRefused>, usize); 5] = [
    (169, &[], Ok(()), 169),
    (7, &[], Ok(()), 169),
    (7, &[0], Err(ReportRefused::Fault), 0),
    (7, &[3], Err(ReportRefused::Fault), 21),
    (169, &[1], Err(ReportRefused::Fault), 169),
];

fn output_of(alloc: Global, piece: usize, fails: &[u64]) -> Result<MemSink, Fail> {
    let output = MemSink::new(alloc).in_pieces(vec![in alloc; piece; 1]?);
    Ok(output.failing_at(fails.to_vec(alloc)?))
}

// How the writing of the report ends, and how many of its bytes were written, if it was no other text.
fn written_on(
    alloc: Global,
    mut output: MemSink,
) -> Result<(Result<(), ReportRefused>, Option<usize>), Fail> {
    let mut channels = Vec::new(alloc);
    channels.push((String::from_str(alloc, "c1")?, COUNTS))?;
    let end = write_report(alloc, &channels, &mut output);
    let is_front = REPORT.as_bytes().starts_with(output.bytes());
    Ok((end, is_front.then_some(output.bytes().len())))
}

#[test]
fn a_report_is_written(rt: HostRuntime) -> Result<(), Fail> {
    let alloc = rt.alloc();
    for (row, (piece, fails, end, written)) in OUTPUTS.iter().enumerate() {
        let seen = written_on(alloc, output_of(alloc, *piece, fails)?)?;
        assert!(rt; seen == (*end, Some(*written)), "row {row}");
    }
    Ok(())
}
