// The runs of a scenario.
ghost use Rattle.std.specs.Thread.{IsSync};

use crate::ended::Ended;
use crate::made::own_host_of;
use crate::objects::Notes;
use crate::own_host::OwnHost;
use crate::scene::Scene;
use scenarios::add_text;
use std::alloc::Global;
use std::sync::Wait;
use std::thread::Threads;

/// The top call that scenarios run.
pub trait TopCall {
    /// Runs with these words on a host, with what is handed in writing its letters down here, and says what it ended with. False where
    /// there was no memory for that.
    fn run<R: Threads + Wait + Sync>(
        rt: &R,
        alloc: Global,
        words: &[String],
        host: &mut OwnHost,
        notes: &Notes,
        ended: &mut Ended,
    ) -> bool
        requires { IsSync R.row };
}

// A word of a command line: `''` is empty, and escapes stand for their bytes.
fn word_of(alloc: Global, word: &str) -> Option<String> {
    let mut bytes = Vec::new(alloc);
    if word != "''" && !add_text(&mut bytes, word) {
        return None;
    }
    String::from_utf8(bytes).ok()
}

fn words_of(alloc: Global, words: &str) -> Option<Vec<String>> {
    let mut all = Vec::new(alloc);
    if words.is_empty() {
        return Some(all);
    }
    for word in words.split(' ') {
        if all.push(word_of(alloc, word)?).is_err() {
            return None;
        }
    }
    Some(all)
}

// How much a host has written, and how many lines it has said.
fn lengths(scene: &Scene) -> (usize, usize) {
    let Some(host) = scene.host() else {
        return (0, 0);
    };
    match host.output() {
        Some(sink) => (sink.bytes().len(), host.said().len()),
        None => (0, host.said().len()),
    }
}

// The run, on the host that is there.
fn is_run<T: TopCall, R: Threads + Wait + Sync>(
    rt: &R,
    scene: &mut Scene,
    words: &[String],
) -> bool {
    scene.ended = Ended::new(scene.alloc);
    scene.has_run = true;
    match &mut scene.host {
        Some(host) => T::run(rt, scene.alloc, words, host, &scene.notes, &mut scene.ended),
        None => false,
    }
}

/// Runs with these words, on what was given, or on the host that is there.
pub fn run<T: TopCall, R: Threads + Wait + Sync>(rt: &R, scene: &mut Scene, words: &str) -> bool {
    (scene.written, scene.said) = lengths(scene);
    if scene.host.is_none() {
        scene.host = own_host_of(scene.alloc, &mut scene.given);
    }
    match words_of(scene.alloc, words) {
        Some(words) => is_run::<T, R>(rt, scene, &words),
        None => false,
    }
}
