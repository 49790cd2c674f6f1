//! The commands, and the options that follow `agent` and `check`.

ghost use Rattle.std.specs.Prelude.{ℕ, List, [], ◌∷◌, codes, string_bytes, IfOk, MatchOption, ◌≡◌, ◌≢◌, ◌↔◌, ◌<◌, length, Some, IsTrue};
ghost use Rattle.agent_words.specs.Words.{texts, IsCount, IsName, flag_of};
ghost use Rattle.agent_words.specs.Options.{AreOptions, Asks, GoOn, held};
ghost use Rattle.agent_words.specs.Commands.{Reads};
ghost use Rattle.agent_words.specs.declared.flag.Flag.TheVariants as flags;

use crate::flag::{Flag, flag_of};
use event_core::NoMemory;
use std::alloc::Global;

/// The most events that `load` may be asked for.
const MOST: u32 = 1_000_000;

/// What the program is asked to do.
#[derive(Drop)]
pub enum Command {
    /// `pipe DIR`: standard input is one session into the log of a folder.
    Pipe { dir: String },
    /// `agent -n NAME -f FILE`: the agent of a properties file runs (Flume User Guide, "Starting an agent").
    Agent { name: String, file: String },
    /// `check -n NAME -f FILE`: the properties file is read and planned only.
    Check { name: String, file: String },
    /// `load N DIR`: the generator runs on the log of a folder.
    Load { n: u32, dir: String },
}

/// The number that `load` is asked for.
fn count(text: &str) -> Option<u32>
    ensures { MatchOption result ((n : ℕ) → ¬ IsCount text.now n) (λ n. IsCount text.now n) }
{
    match text.as_bytes() {
        [b'0' | b'+', ..] => None,
        _ => match text.parse::<u32>() {
            Ok(n) if 1 <= n && n <= MOST => Some(n),
            _ => None,
        },
    }
}

/// `pipe DIR`, by the words after the first.
fn pipe(alloc: Global, words: &[String]) -> Result<Option<Command>, NoMemory>
    ensures { Reads (codes "pipe" ∷ texts words.now) result }
{
    if words.len() != 1 || !is_name(words[0].as_str()) {
        return Ok(None);
    }
    Ok(Some(Command::Pipe {
        dir: String::from_str(alloc, words[0].as_str())?,
    }))
}

/// `load N DIR`, by the words after the first.
fn load(alloc: Global, words: &[String]) -> Result<Option<Command>, NoMemory>
    ensures { Reads (codes "load" ∷ texts words.now) result }
{
    if words.len() != 2 || !is_name(words[1].as_str()) {
        return Ok(None);
    }
    match count(words[0].as_str()) {
        Some(n) => Ok(Some(Command::Load {
            n,
            dir: String::from_str(alloc, words[1].as_str())?,
        })),
        None => Ok(None),
    }
}

/// The name and the file that the options give, as texts of their own.
fn name_and_file(alloc: Global, words: &[String]) -> Result<Option<(String, String)>, NoMemory>
    ensures { IfOk result (λ found. MatchOption found ((name file : List ℕ) → ¬ AreOptions
        (texts words.now) name file) (λ both. AreOptions (texts words.now) (string_bytes both.0)
        (string_bytes both.1))) }
{
    match options(words) {
        Some((name, file)) => Ok(Some((
            String::from_str(alloc, name)?,
            String::from_str(alloc, file)?,
        ))),
        None => Ok(None),
    }
}

/// `agent` and its options, by the words after the first.
fn agent(alloc: Global, words: &[String]) -> Result<Option<Command>, NoMemory>
    ensures { Reads (codes "agent" ∷ texts words.now) result }
{
    match name_and_file(alloc, words)? {
        Some((name, file)) => Ok(Some(Command::Agent { name, file })),
        None => Ok(None),
    }
}

/// `check` and its options, by the words after the first.
fn check(alloc: Global, words: &[String]) -> Result<Option<Command>, NoMemory>
    ensures { Reads (codes "check" ∷ texts words.now) result }
{
    match name_and_file(alloc, words)? {
        Some((name, file)) => Ok(Some(Command::Check { name, file })),
        None => Ok(None),
    }
}

/// Reads the words after the program's name, as the command that they are. It is `None` exactly where they are no
/// command.
///
/// # Errors
///
/// [`NoMemory`] when out of memory.
pub fn read_words(alloc: Global, words: &[String]) -> Result<Option<Command>, NoMemory>
    ensures { Reads (texts words.now) result }
{
    if words.is_empty() {
        return Ok(None);
    }
    let first = words[0].as_str();
    let rest = &words[1..];
    if first == "pipe" {
        pipe(alloc, rest)
    } else if first == "agent" {
        agent(alloc, rest)
    } else if first == "check" {
        check(alloc, rest)
    } else if first == "load" {
        load(alloc, rest)
    } else {
        Ok(None)
    }
}

/// What was given so far, and the words that follow.
#[derive(Clone, Copy)]
pub struct Asked<'a> {
    name: Option<&'a str>,
    file: Option<&'a str>,
    rest: &'a [String],
}

/// Whether a word may be a name of anything.
pub fn is_name(word: &str) -> bool
    ensures { IsTrue result ↔ IsName word.now }
{
    match word.as_bytes() {
        [] => false,
        [first, ..] => *first != b'-',
    }
}

impl<'a> Asked<'a> {
    /// Takes a value.
    fn with(self, flag: Flag, value: &'a str, rest: &'a [String]) -> Option<Asked<'a>>
        ensures { (word : List ℕ) → flag_of word ≡ Some flag → flag ≢ flags.Define
            → MatchOption result ((name file : List ℕ) → ¬ GoOn (held self.entry.name)
            (held self.entry.file) (word ∷ value.now ∷ texts rest.now) name file)
            (λ next. ((name file : List ℕ) → GoOn (held self.entry.name) (held self.entry.file)
            (word ∷ value.now ∷ texts rest.now) name file ↔ Asks next name file) ×
            (next.rest.now ≡ rest.now)) }
    {
        match flag {
            Flag::Name if self.name.is_none() && is_name(value) => Some(Asked {
                name: Some(value),
                file: self.file,
                rest,
            }),
            Flag::File if self.file.is_none() && is_name(value) => Some(Asked {
                name: self.name,
                file: Some(value),
                rest,
            }),
            Flag::Folder => Some(Asked { rest, ..self }),
            _ => None,
        }
    }

    /// Takes the option at the front of the words.
    fn step(self) -> Option<Asked<'a>>
        requires { self.rest.now ≢ [] }
        ensures { MatchOption result ((name file : List ℕ) → ¬ Asks self.entry name file)
            (λ next. ((name file : List ℕ) → Asks self.entry name file ↔ Asks next name file) ×
            (length next.rest.now < length self.entry.rest.now)) }
    {
        let flag = flag_of(self.rest[0].as_str())?;
        if flag == Flag::Define {
            return Some(Asked {
                name: self.name,
                file: self.file,
                rest: &self.rest[1..],
            });
        }
        if self.rest.len() < 2 {
            return None;
        }
        self.with(flag, self.rest[1].as_str(), &self.rest[2..])
    }
}

/// The name and the file that the options give.
pub fn options(words: &[String]) -> Option<(&str, &str)>
    ensures { MatchOption result ((name file : List ℕ) → ¬ AreOptions (texts words.now) name file)
        (λ found. AreOptions (texts words.now) found.0.now found.1.now) }
{
    let mut asked = Asked {
        name: None,
        file: None,
        rest: words,
    };
    while !asked.rest.is_empty() {
        asked = asked.step()?;
    }
    asked.name.zip(asked.file)
}
