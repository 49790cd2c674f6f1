// The worker of a listener.
ghost use Rattle.std.specs.Prelude.{IfOk};
ghost use Rattle.source_worker.specs.Workers.{CanListen};

use crate::ports::ScriptPort;
use crew::{Stop, Work};
use event_core::Event;
use flume_host::Listener;
use host_memory::{LinkStep, MemClock, MemHalt, MemLink, MemListener, Offer};
use netcat_source::LineRules;
use plug_in::{Intercepted, Interceptor};
use selectors::Selector;
use source_put::HostNames;
use source_worker::{ListenWorker, SessionRules};
use std::alloc::Global;
use std::marker::PhantomData;
use std::sync::Wait;
use std::test::Fail;

// Lets every event go on.
#[derive(Drop)]
struct Through;

impl Interceptor for Through {
    ghost intercepts = { λ _ _ _ _ _. Unit {0} };

    fn intercept(&mut self, event: Event, _moment: u64) -> Intercepted {
        Intercepted::Keep(event)
    }
}

type Listening = ListenWorker<ScriptPort, MemListener, MemClock, Through>;

// A listener whose links give these texts; without one an accept waits in vain.
fn listener_of(alloc: Global, texts: &[&str]) -> Result<MemListener, Fail> {
    let mut offers = Vec::new(alloc);
    for text in texts {
        if text.is_empty() {
            offers.push(Offer::Quiet)?;
        } else {
            let mut script = Vec::new(alloc);
            script.push(LinkStep::Piece(text.as_bytes().to_vec(alloc)?))?;
            offers.push(Offer::Link(MemLink::new(alloc, script)))?;
        }
    }
    Ok(MemListener::new(alloc, offers))
}

fn port_of(doubtful: u64, refuses: u64) -> ScriptPort {
    ScriptPort {
        doubtful,
        puts: 0,
        broken: false,
        refuses,
        mends: 0,
    }
}

fn names_of(alloc: Global) -> Result<HostNames, Fail> {
    Ok(HostNames {
        name: String::from_str(alloc, "host")?,
        address: String::from_str(alloc, "10.0.0.1")?,
    })
}

// The worker of such a listener over one channel.
fn worker_of(alloc: Global, port: ScriptPort, texts: &[&str]) -> Result<Listening, Fail>
    ensures { IfOk result CanListen }
{
    let mut ports = Vec::new(alloc);
    ports.push(port)?;
    let mut channels = Vec::new(alloc);
    channels.push(0)?;
    Ok(ListenWorker {
        alloc,
        ports,
        channels,
        plan: Vec::new(alloc),
        selector: Selector::Replicating {
            channels: 1,
            optional: Vec::new(alloc),
        },
        host: names_of(alloc)?,
        rules: SessionRules::Lines(LineRules {
            max: 512,
            ack: true,
        }),
        listener: listener_of(alloc, texts)?,
        clock: MemClock { moment: 0, step: 1 },
        of: PhantomData,
    })
}

// What each link took that came back, with a semicolon after each.
fn taken(alloc: Global, listener: &MemListener) -> Result<Vec<u8>, Fail> {
    let mut text = Vec::new(alloc);
    for link in listener.back() {
        text.extend_from_slice(link.took())?;
        text.push(b';')?;
    }
    Ok(text)
}

// How often the worker may go on, which put is left in doubt, how many mends are refused, and what the links give; then what
// they took, and how many mends reopened the channel. It asks before each read and each line, and after each round.
type Row = (u64, u64, u64, &'static [&'static str], &'static str, u64);

const ROWS: &[Row] = &[
    // two links, one line each
    (100, 0, 0, &["a\n", "b\n"], "OK\n;OK\n;", 0),
    // a channel that breaks in mid-session is mended after it
    (
        100,
        1,
        0,
        &["a\nb\n", "c\n"],
        "FAILED: channel in doubt\nFAILED: channel refused\n;OK\n;",
        1,
    ),
    (
        100,
        2,
        0,
        &["a\nb\nc\n", "d\n"],
        "OK\nFAILED: channel in doubt\nFAILED: channel refused\n;OK\n;",
        1,
    ),
    // a mend that was refused is tried again in the next round, with a link or without one
    (
        100,
        1,
        1,
        &["a\n", "b\n", "c\n"],
        "FAILED: channel in doubt\n;FAILED: channel refused\n;OK\n;",
        1,
    ),
    (
        100,
        1,
        1,
        &["a\n", "", "b\n"],
        "FAILED: channel in doubt\n;OK\n;",
        1,
    ),
    // no link is accepted after one whose session was told to stop
    (0, 0, 0, &["a\n", "b\n"], ";", 0),
    (1, 0, 0, &["a\n", "b\n"], ";", 0),
    // told to stop after the first session
    (3, 0, 0, &["a\n", "b\n"], "OK\n;", 0),
    // told to stop in the pause after a mend that was refused
    (5, 1, 9, &["a\n", "b\n"], "FAILED: channel in doubt\n;", 0),
];

// What is seen of a worker that was run.
#[derive(Drop)]
struct Seen {
    // What its links took, with a semicolon after each.
    took: Vec<u8>,
    // How often it was told to stop.
    stops: u64,
    // How many mends reopened its channel, whose port came back.
    mends: Option<u64>,
}

// Whether it is as a row says.
fn is_as(seen: &Seen, row: &Row) -> bool {
    let (_, _, _, _, took, mends) = row;
    seen.took.as_slice() == took.as_bytes() && seen.stops == 1 && seen.mends == Some(*mends)
}

// Runs the worker of a row.
fn seen_of<R: Wait>(rt: &R, alloc: Global, row: &Row) -> Result<Seen, Fail> {
    let (after, doubtful, refuses, texts, _, _) = row;
    let mut worker = worker_of(alloc, port_of(*doubtful, *refuses), texts)?;
    let mut halt = MemHalt {
        after: *after,
        yes: 0,
    };
    worker.work_until(rt, &mut halt);
    let ListenWorker {
        ports,
        listener,
        ..
    } = worker;
    Ok(Seen {
        took: taken(alloc, &listener)?,
        stops: halt.yes,
        mends: ports.first().map(|port| port.mends),
    })
}

#[test]
fn a_worker_serves_links_and_mends_until_it_is_told_to_stop(rt: HostRuntime) -> Result<(), Fail> {
    for (place, row) in ROWS.iter().enumerate() {
        let seen = seen_of(&rt, rt.alloc(), row)?;
        assert!(rt; is_as(&seen, row), "{place}");
    }
    Ok(())
}

// Whether a worker that finds the stop set at once has asked for a link, and served none.
fn accepts_once<R: Wait>(rt: &R, alloc: Global) -> Result<bool, Fail> {
    let mut worker = worker_of(alloc, port_of(0, 0), &["", "a\n"])?;
    let stop = Stop::new();
    stop.set();
    worker.work(rt, &stop);
    Ok(worker.listener.waits() == 1 && worker.listener.back().is_empty())
}

#[test]
fn a_worker_accepts_once_though_the_stop_is_set(rt: HostRuntime) -> Result<(), Fail> {
    let once = accepts_once(&rt, rt.alloc())?;
    assert!(rt; once);
    Ok(())
}
