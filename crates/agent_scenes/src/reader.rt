// The reader of scenarios. A text has one or more, with an empty line between each two. The first line of one is its name, and each
// other line is a word and what it is said of: the words of `words.rt` give something to the next run, `run` runs, and those of
// `looks.rt` look at what came of it. A line that begins with `a.` or `a1.` is one of the configuration. A name that ends with
// `, for V, W` stands for two scenarios, in whose lines `$` stands for `V` and for `W`.
use crate::crashes::crash;
use crate::looks::{is_seen, note};
use crate::runs::{TopCall, run};
use crate::scene::{Given, Scene};
use crate::words::{add_line, is_given};
use scenarios::{Wrong, number_of, word_and_rest};
use std::alloc::{AllocError, Global};
use std::sync::Wait;
use std::test::Fail;
use std::thread::Threads;

// What is given anew to a host of its own.
fn renew(scene: &mut Scene) -> bool {
    scene.given = Given::new(scene.alloc);
    scene.host = None;
    true
}

// Whether a line holds.
fn holds<T: TopCall, R: Threads + Wait + Sync>(rt: &R, scene: &mut Scene, line: &str) -> bool {
    let (word, rest) = word_and_rest(line);
    if word.starts_with("a.") || word.starts_with("a1.") {
        return add_line(&mut scene.given.text, line);
    }
    match word {
        "run" => run::<T, R>(rt, scene, rest),
        "crash" => crash(scene, rest),
        "then" => crash(scene, "end:old"),
        "note" => note(scene),
        "anew" => renew(scene),
        _ => is_given(scene, word, rest) || is_seen(scene, word, rest),
    }
}

// What stands in front of a number in a line that ends the scenario, where it is not below the count of calls that was noted.
const BELOW: &str = "only-below-noted ";

// Whether a line ends the scenario.
fn is_last(scene: &Scene, line: &str) -> bool {
    match line.strip_prefix(BELOW) {
        Some(number) => number_of(number) >= Some(scene.noted),
        None => false,
    }
}

// The first line that does not hold.
fn wrong_line<'a, T: TopCall, R: Threads + Wait + Sync>(
    rt: &R,
    alloc: Global,
    lines: &'a str,
    value: &str,
) -> Result<Option<&'a str>, AllocError> {
    let mut scene = Scene::new(alloc)?;
    for line in lines.lines() {
        let said = line.replace(alloc, "$", value)?;
        if is_last(&scene, said.as_str()) {
            return Ok(None);
        }
        if !said.as_str().starts_with(BELOW) && !holds::<T, R>(rt, &mut scene, said.as_str()) {
            return Ok(Some(line));
        }
    }
    Ok(if scene.has_run {
        None
    } else {
        Some("nothing was run")
    })
}

// The same of each value that `$` stands for.
fn wrong_for<'a, T: TopCall, R: Threads + Wait + Sync>(
    rt: &R,
    alloc: Global,
    scenario: &'a str,
) -> Result<Option<Wrong<'a>>, AllocError> {
    let (head, lines) = scenario.split_once('\n').unwrap_or((scenario, ""));
    let (name, values) = head.split_once(", for ").unwrap_or((head, ""));
    for value in values.split(", ") {
        if let Some(line) = wrong_line::<T, R>(rt, alloc, lines, value)? {
            return Ok(Some(Wrong { name, value, line }));
        }
    }
    Ok(None)
}

// The first line of some scenarios that does not hold, if one does not.
fn wrong_in<'a, T: TopCall, R: Threads + Wait + Sync>(
    rt: &R,
    alloc: Global,
    scenarios: &'a str,
) -> Result<Option<Wrong<'a>>, AllocError> {
    for scenario in scenarios.split("\n\n") {
        let wrong = wrong_for::<T, R>(rt, alloc, scenario)?;
        if wrong.is_some() {
            return Ok(wrong);
        }
    }
    Ok(None)
}

/// Passes where each line of some scenarios holds, and names the first one that does not.
pub fn pass<T: TopCall, R: Threads + Wait + Sync>(
    rt: &R,
    alloc: Global,
    scenarios: &str,
) -> Result<(), Fail> {
    match wrong_in::<T, R>(rt, alloc, scenarios)? {
        Some(Wrong { name, value, line }) => {
            Err(Fail::new(format_args!("{name} For {value:?}: {line}")))
        }
        None => Ok(()),
    }
}
