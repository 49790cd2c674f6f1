// Objects that are handed in.
use crate::sinks::rolls;
use event_core::Event;
use plan_objects::{Plugins, PluginsRefused};
use plug_in::{EventSink, Intercepted, Interceptor, SinkRefused};
use scenarios::{Scene, owned, pass, word_and_rest};
use sink_runner::NullSink;
use std::alloc::Global;
use std::test::Fail;
use test_fixtures::{batch, event};

const OBJECTS: &str = "The first of a name is handed out.
sink b
failing-sink a
sink a
refuses a
delivers a
no-sink a
no-step b
has-sink b

Sixty-four objects are held.
thirty-two-of-each s
too-many t
step-becomes s t
has-step t";

type Sink = Box<dyn EventSink + Send>;

type Step = Box<dyn Interceptor + Send>;

// Keeps its first, third, fifth event and so on.
#[derive(Drop)]
struct EveryOther {
    keeps: bool,
}

impl Interceptor for EveryOther {
    ghost intercepts = { λ _ _ _ _ _. Unit {0} };

    fn intercept(&mut self, event: Event, _moment: u64) -> Intercepted {
        self.keeps = !self.keeps;
        if self.keeps {
            Intercepted::Keep(event)
        } else {
            Intercepted::Dropped
        }
    }
}

// What is handed in.
#[derive(Drop)]
struct Handed {
    alloc: Global,
    plugins: Plugins,
    has_tried: bool,
}

fn null(alloc: Global) -> Option<Sink> {
    let sink: Sink = Box::new(alloc, NullSink).ok()?;
    Some(sink)
}

// Its first delivery fails.
fn failing(alloc: Global) -> Option<Sink> {
    let sink: Sink = Box::new(alloc, rolls(alloc, "0", 0)?).ok()?;
    Some(sink)
}

fn every_other(alloc: Global) -> Option<Step> {
    let step: Step = Box::new(alloc, EveryOther { keeps: false }).ok()?;
    Some(step)
}

// Hands in a sink under a name.
fn add(handed: &mut Handed, name: &str, sink: Option<Sink>) -> Option<Result<(), PluginsRefused>> {
    let sink = sink?;
    Some(handed.plugins.add_sink(owned(handed.alloc, name)?, sink))
}

fn is_added(handed: &mut Handed, name: &str, sink: Option<Sink>) -> bool {
    add(handed, name, sink) == Some(Ok(()))
}

// Hands in a step under a name.
fn is_step_added(handed: &mut Handed, name: &str, step: Option<Step>) -> bool {
    match (owned(handed.alloc, name), step) {
        (Some(name), Some(step)) => handed.plugins.add_step(name, step).is_ok(),
        _ => false,
    }
}

// Hands in 32 sinks and 32 steps under a name.
fn add_many(handed: &mut Handed, name: &str) -> bool {
    for _ in 0..32 {
        let (sink, step) = (null(handed.alloc), every_other(handed.alloc));
        if !is_added(handed, name, sink) || !is_step_added(handed, name, step) {
            return false;
        }
    }
    true
}

// Whether there is no room for a sink.
fn is_full(handed: &mut Handed, name: &str) -> bool {
    let sink = null(handed.alloc);
    add(handed, name, sink) == Some(Err(PluginsRefused::TooMany))
}

// What a sink answers to a batch, and its count of faults.
fn answer(alloc: Global, sink: &mut Sink) -> Option<(Result<(), SinkRefused>, u64)> {
    let one = batch(alloc, &[b"e"]).ok()?;
    let answer = sink.deliver(&one, 7);
    Some((answer, sink.faults()))
}

// Whether the first sink of a name answers so.
fn is_answered(handed: &mut Handed, name: &str, want: (Result<(), SinkRefused>, u64)) -> bool {
    match handed.plugins.claim_sink(name) {
        Some(mut sink) => answer(handed.alloc, &mut sink) == Some(want),
        None => false,
    }
}

// Whether a step keeps an event.
fn keeps(alloc: Global, step: &mut Step) -> bool {
    match event(alloc, b"e") {
        Ok(event) => matches!(step.intercept(event, 0), Intercepted::Keep(_)),
        Err(_) => false,
    }
}

fn keeps_every_other(alloc: Global, step: &mut Step) -> bool {
    keeps(alloc, step) && !keeps(alloc, step) && keeps(alloc, step)
}

// The first step of a name, which is one that keeps every other event, is handed in under another name.
fn is_renamed(handed: &mut Handed, names: &str) -> bool {
    let (from, to) = word_and_rest(names);
    let Some(mut step) = handed.plugins.claim_step(from) else {
        return false;
    };
    keeps_every_other(handed.alloc, &mut step) && is_step_added(handed, to, Some(step))
}

// Of what is claimed.
fn is_claimed(handed: &mut Handed, word: &str, name: &str) -> bool {
    handed.has_tried = true;
    match word {
        "refuses" => is_answered(handed, name, (Err(SinkRefused::Refused), 1)),
        "delivers" => is_answered(handed, name, (Ok(()), 0)),
        "has-sink" => handed.plugins.claim_sink(name).is_some(),
        "no-sink" => handed.plugins.claim_sink(name).is_none(),
        "has-step" => handed.plugins.claim_step(name).is_some(),
        "no-step" => handed.plugins.claim_step(name).is_none(),
        "step-becomes" => is_renamed(handed, name),
        _ => false,
    }
}

impl Scene for Handed {
    fn begin(alloc: Global) -> Handed {
        Handed {
            alloc,
            plugins: Plugins::new(alloc),
            has_tried: false,
        }
    }

    fn holds(&mut self, word: &str, name: &str) -> bool {
        let alloc = self.alloc;
        match word {
            "sink" => is_added(self, name, null(alloc)),
            "failing-sink" => is_added(self, name, failing(alloc)),
            "thirty-two-of-each" => add_many(self, name),
            "too-many" => is_full(self, name),
            _ => is_claimed(self, word, name),
        }
    }

    fn has_tried(&self) -> bool {
        self.has_tried
    }
}

#[test]
fn objects_are_handed_out_by_name(rt: HostRuntime) -> Result<(), Fail> {
    pass::<Handed>(rt.alloc(), OBJECTS)
}
