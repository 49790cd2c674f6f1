// The worker of standard input's lines.
ghost use Rattle.std.specs.Prelude.{IfOk};
ghost use Rattle.line_worker.specs.Workers.{CanServe};

use crate::clock::PausingClock;
use crate::ports::ScriptPort;
use crew::{Stop, Work};
use event_core::Event;
use host_memory::{MemSink, MemSource};
use line_session::SessionEnd;
use line_worker::LineWorker;
use netcat_source::LineRules;
use plug_in::{Intercepted, Interceptor};
use selectors::Selector;
use source_put::HostNames;
use std::alloc::Global;
use std::marker::PhantomData;
use std::sync::Wait;
use std::test::Fail;

// Lets every event go on.
#[derive(Drop)]
struct Through;

impl Interceptor for Through {
    ghost intercepts = { λ _ _ _ _ _. Unit {0} };

    fn intercept(&mut self, event: Event, _moment: u64) -> Intercepted {
        Intercepted::Keep(event)
    }
}

type Serving = LineWorker<ScriptPort, MemSource, MemSink, PausingClock, Through>;

// A run of a worker over one channel, and what is seen of it.
struct Row {
    // The put of this number is left in doubt, and breaks the channel.
    doubtful: u64,
    // How many mends of the broken channel are refused.
    refuses: u64,
    // What is read.
    text: &'static str,
    // In pieces of so many bytes.
    piece: usize,
    // The reads that fail.
    fails: &'static [u64],
    // What is written.
    replies: &'static str,
    // How many mends reopened the channel.
    mends: u64,
    // The milliseconds of all pauses.
    paused: u64,
    // What ended the session.
    end: SessionEnd,
}

const ROWS: &[Row] = &[
    // each line is answered, however it comes in
    Row {
        doubtful: 0,
        refuses: 0,
        text: "a\nb\n",
        piece: 100,
        fails: &[],
        replies: "OK\nOK\n",
        mends: 0,
        paused: 0,
        end: SessionEnd::End,
    },
    Row {
        doubtful: 0,
        refuses: 0,
        text: "a\nb\nc",
        piece: 1,
        fails: &[],
        replies: "OK\nOK\n",
        mends: 0,
        paused: 0,
        end: SessionEnd::End,
    },
    // a channel that breaks is mended before the next line
    Row {
        doubtful: 1,
        refuses: 0,
        text: "a\nb\n",
        piece: 100,
        fails: &[],
        replies: "FAILED: channel in doubt\nOK\n",
        mends: 1,
        paused: 0,
        end: SessionEnd::End,
    },
    // a mend that was refused is tried again before the next line, after a pause
    Row {
        doubtful: 1,
        refuses: 1,
        text: "a\nb\n",
        piece: 100,
        fails: &[],
        replies: "FAILED: channel in doubt\nOK\n",
        mends: 1,
        paused: 1_000,
        end: SessionEnd::End,
    },
    Row {
        doubtful: 1,
        refuses: 2,
        text: "a\nb\nc\n",
        piece: 100,
        fails: &[],
        replies: "FAILED: channel in doubt\nFAILED: channel refused\nOK\n",
        mends: 1,
        paused: 2_000,
        end: SessionEnd::End,
    },
    // whatever ends the session, the stop is set
    Row {
        doubtful: 0,
        refuses: 0,
        text: "a\n123456789\n",
        piece: 100,
        fails: &[],
        replies: "OK\nFAILED: line too long\n",
        mends: 0,
        paused: 0,
        end: SessionEnd::TooLongLine,
    },
    Row {
        doubtful: 0,
        refuses: 0,
        text: "a\nb\n",
        piece: 2,
        fails: &[1],
        replies: "OK\n",
        mends: 0,
        paused: 0,
        end: SessionEnd::ReadFault,
    },
];

fn names_of(alloc: Global) -> Result<HostNames, Fail> {
    Ok(HostNames {
        name: String::from_str(alloc, "host")?,
        address: String::from_str(alloc, "10.0.0.1")?,
    })
}

fn input_of(alloc: Global, row: &Row) -> Result<MemSource, Fail> {
    let source = MemSource::new(alloc, row.text.as_bytes().to_vec(alloc)?);
    let pieces = vec![in alloc; row.piece; 100]?;
    Ok(
        source
            .in_pieces(pieces)
            .failing_at(row.fails.to_vec(alloc)?),
    )
}

// The worker of a row.
fn worker_of(alloc: Global, row: &Row) -> Result<Serving, Fail>
    ensures { IfOk result CanServe }
{
    let mut ports = Vec::new(alloc);
    ports.push(ScriptPort {
        doubtful: row.doubtful,
        puts: 0,
        broken: false,
        refuses: row.refuses,
        mends: 0,
    })?;
    let mut channels = Vec::new(alloc);
    channels.push(0)?;
    Ok(LineWorker {
        alloc,
        ports,
        channels,
        plan: Vec::new(alloc),
        selector: Selector::Replicating {
            channels: 1,
            optional: Vec::new(alloc),
        },
        host: names_of(alloc)?,
        rules: LineRules { max: 8, ack: true },
        input: input_of(alloc, row)?,
        output: MemSink::new(alloc),
        clock: Some(PausingClock { paused: 0 }),
        end: None,
        of: PhantomData,
    })
}

// Whether the worker of a row does as the row says, and sets the stop.
fn does_so<R: Wait>(rt: &R, alloc: Global, row: &Row) -> Result<bool, Fail> {
    let mut worker = worker_of(alloc, row)?;
    let stop = Stop::new();
    worker.work(rt, &stop);
    let mends = worker.ports.first().map(|port| port.mends);
    Ok(
        worker.output.bytes() == row.replies.as_bytes()
            && mends == Some(row.mends)
            && worker.clock.as_ref().map(|clock| clock.paused) == Some(row.paused)
            && worker.end == Some(row.end)
            && stop.is_set(),
    )
}

#[test]
fn a_worker_of_lines_answers_each_and_mends_between_them(rt: HostRuntime) -> Result<(), Fail> {
    for (place, row) in ROWS.iter().enumerate() {
        let does = does_so(&rt, rt.alloc(), row)?;
        assert!(rt; does, "{place}");
    }
    Ok(())
}
