// The reader of scenarios. A text has one or more, with an empty line between each two. The first line of one is its name, and each
// other line is a word and what it is said of, or a comment after `//`. A name that ends with `, for V, W` stands for two scenarios,
// in whose lines `$` stands for `V` and for `W`; else it stands for itself.
use crate::texts::word_and_rest;
use std::alloc::{AllocError, Global};
use std::test::Fail;

/// What the lines of a scenario work on.
pub trait Scene: Drop {
    /// One of which nothing was said.
    fn begin(alloc: Global) -> Self;

    /// Makes what a line says, and tells whether it holds.
    fn holds(&mut self, word: &str, rest: &str) -> bool;

    /// Whether something was tried.
    fn has_tried(&self) -> bool;
}

/// What is wrong.
#[derive(Clone, Copy)]
pub struct Wrong<'a> {
    /// The name of the scenario.
    pub name: &'a str,
    /// What `$` stands for.
    pub value: &'a str,
    /// The line that does not hold.
    pub line: &'a str,
}

// Whether a line holds.
fn holds<S: Scene>(scene: &mut S, line: &str) -> bool {
    let (word, rest) = word_and_rest(line);
    line.starts_with("//") || scene.holds(word, rest)
}

// The first line that does not hold.
fn wrong_line<'a, S: Scene>(
    alloc: Global,
    lines: &'a str,
    value: &str,
) -> Result<Option<&'a str>, AllocError> {
    let mut scene = S::begin(alloc);
    for line in lines.lines() {
        let said = line.replace(alloc, "$", value)?;
        if !holds(&mut scene, said.as_str()) {
            return Ok(Some(line));
        }
    }
    Ok(if scene.has_tried() {
        None
    } else {
        Some("nothing was tried")
    })
}

// The same of each value that `$` stands for.
fn wrong_for<'a, S: Scene>(
    alloc: Global,
    scenario: &'a str,
) -> Result<Option<Wrong<'a>>, AllocError> {
    let (head, lines) = scenario.split_once('\n').unwrap_or((scenario, ""));
    let (name, values) = head.split_once(", for ").unwrap_or((head, "$"));
    for value in values.split(", ") {
        if let Some(line) = wrong_line::<S>(alloc, lines, value)? {
            return Ok(Some(Wrong { name, value, line }));
        }
    }
    Ok(None)
}

/// The first line of some scenarios that does not hold, if one does not.
pub fn wrong_in<'a, S: Scene>(
    alloc: Global,
    scenarios: &'a str,
) -> Result<Option<Wrong<'a>>, AllocError> {
    for scenario in scenarios.split("\n\n") {
        let wrong = wrong_for::<S>(alloc, scenario)?;
        if wrong.is_some() {
            return Ok(wrong);
        }
    }
    Ok(None)
}

/// Passes where each line of some scenarios holds, and names the first one that does not.
pub fn pass<S: Scene>(alloc: Global, scenarios: &str) -> Result<(), Fail> {
    match wrong_in::<S>(alloc, scenarios)? {
        Some(Wrong { name, value, line }) => {
            Err(Fail::new(format_args!("{name} For {value:?}: {line}")))
        }
        None => Ok(()),
    }
}
