// What is handed in to a run: what the program hands in, and an interceptor and sinks that write down what they do.
use agent_run::{Outcome, run_agent};
use agent_scenes::{Notes, OwnHost, passer_of, scribe_of};
use plan_objects::Plugins;
use plug_in::{EventSink, Interceptor};
use shipped_objects::{Sample, Tally};
use std::alloc::Global;
use std::sync::Wait;
use std::thread::Threads;

// Hands in a sink under a name.
fn add(
    alloc: Global,
    plugins: &mut Plugins,
    name: &str,
    sink: Box<dyn EventSink + Send>,
) -> Option<()> {
    plugins
        .add_sink(String::from_str(alloc, name).ok()?, sink)
        .ok()
}

// Hands in an interceptor under a name.
fn add_step(
    alloc: Global,
    plugins: &mut Plugins,
    name: &str,
    step: Box<dyn Interceptor + Send>,
) -> Option<()> {
    plugins
        .add_step(String::from_str(alloc, name).ok()?, step)
        .ok()
}

// What the program hands in, the interceptor `Passer`, which hands all on but `lack`, and the sinks `Taker`, which takes all, and
// `Refuser`, which refuses all.
fn plugins(alloc: Global, notes: &Notes) -> Option<Plugins> {
    let mut plugins = Plugins::new(alloc);
    let sample = Box::new(alloc, Sample { drops: false }).ok()?;
    add_step(alloc, &mut plugins, "sample", sample)?;
    let passer = Box::new(alloc, passer_of(notes)?).ok()?;
    add_step(alloc, &mut plugins, "Passer", passer)?;
    let tally = Box::new(alloc, Tally { count: 0 }).ok()?;
    add(alloc, &mut plugins, "tally", tally)?;
    let taker = Box::new(alloc, scribe_of(notes, "Taker", true)?).ok()?;
    add(alloc, &mut plugins, "Taker", taker)?;
    let refuser = Box::new(alloc, scribe_of(notes, "Refuser", false)?).ok()?;
    add(alloc, &mut plugins, "Refuser", refuser)?;
    Some(plugins)
}

/// Runs with these words and objects.
pub fn outcome_of<R: Threads + Wait + Sync>(
    rt: &R,
    alloc: Global,
    words: &[String],
    host: &mut OwnHost,
    notes: &Notes,
) -> Option<Outcome> {
    let plugins = plugins(alloc, notes)?;
    Some(run_agent(rt, alloc, words, host, plugins))
}
