// The words of the command line, the report, and what is said on standard error.
use agent_words::{Command, RunError, one_asked, read_words, report};
use channel_face::Counts;
use event_core::NoMemory;
use flume_config::PlanRefused;
use prop_text::PropRefused;
use std::alloc::{AllocError, Global};
use std::test::Fail;
use test_fixtures::owned;

// The command that words are, written in one way: its name, its number and its texts.
fn told(alloc: Global, words: &[&str]) -> Result<String, NoMemory> {
    let words = owned(alloc, words)?;
    let text = match read_words(alloc, &words)? {
        None => String::from_str(alloc, "none")?,
        Some(Command::Pipe { dir }) => format!(in alloc; "pipe {dir}")?,
        Some(Command::Agent { name, file }) => format!(in alloc; "agent {name} {file}")?,
        Some(Command::Check { name, file }) => format!(in alloc; "check {name} {file}")?,
        Some(Command::Load { n, dir }) => format!(in alloc; "load {n} {dir}")?,
    };
    Ok(text)
}

// Words of a command line, and after `>` the command that they are.
const COMMANDS: &str = "pipe d > pipe d
load 1 d > load 1 d
load 1000000 d > load 1000000 d
agent -n a1 -f f.conf > agent a1 f.conf
agent --conf-file f.conf --name a1 > agent a1 f.conf
check -n a1 --conf-file f.conf > check a1 f.conf
agent -c conf -n a1 --conf -n -f f > agent a1 f
agent -Dflume.root.logger=INFO -n a1 -D -f f > agent a1 f
check -f check -n agent > check agent check
> none
pipe > none
pipe  > none
pipe -d > none
pipe d e > none
Pipe d > none
tool d > none
load 0 d > none
load 01 d > none
load +1 d > none
load 1000001 d > none
load 1 -d > none
load 1 > none
agent > none
agent -n a1 > none
agent -n a1 -f > none
agent -n a1 -n a1 -f f > none
agent -n a1 -f f --conf-file g > none
agent --name=a1 -f f > none
agent -na1 -f f > none
agent -n -f -f f > none
check -n a1 -f f -c > none
";

// Whether the words of a row, each after a space but for the first, are the command that it names.
fn is_command(alloc: Global, row: &str) -> Result<bool, Fail> {
    if let Some(want) = row.strip_prefix("> ") {
        return Ok(told(alloc, &[])?.as_str() == want);
    }
    let (words, want) = row.split_once(" > ").ok_or("no row")?;
    let mut all = Vec::new(alloc);
    for word in words.split(' ') {
        all.push(word)?;
    }
    Ok(told(alloc, &all)?.as_str() == want)
}

#[test]
fn commands_are_read(rt: HostRuntime) -> Result<(), Fail> {
    for row in COMMANDS.lines() {
        assert!(rt; is_command(rt.alloc(), row)?, "at {row}");
    }
    assert!(rt; COMMANDS.lines().count() == 31);
    one_asked();
    Ok(())
}

// The worked counts, and what is reported of them.
const COUNTS: Counts = Counts {
    put_attempts: 1,
    put_successes: 1,
    take_attempts: 2,
    take_successes: 1,
    size: 0,
    capacity: 100,
};

const REPORTED: &str =
    "{\"ChannelCapacity\":\"100\",\"ChannelSize\":\"0\",\"EventPutAttemptCount\":\"1\",\"EventPutSuccessCount\":\"1\",\"EventTakeAttemptCount\":\"2\",\"EventTakeSuccessCount\":\"1\"}";

// Names of channels, and the report with `COUNTS` for each channel's counts: the worked one, three channels in the order
// of their names' bytes with one that JSON escapes, and none.
const REPORTS: [(&[&str], &str); 3] = [
    (&["c1"], "{\"CHANNEL.c1\":COUNTS}\n"),
    (
        &["c2", "c10", "a\""],
        "{\"CHANNEL.a\\\"\":COUNTS,\"CHANNEL.c10\":COUNTS,\"CHANNEL.c2\":COUNTS}\n",
    ),
    (&[], "{}\n"),
];

// The report of channels with the worked counts.
fn reported(alloc: Global, names: &[&str]) -> Result<String, NoMemory> {
    let mut channels = Vec::new(alloc);
    for name in names {
        channels.push((String::from_str(alloc, name)?, COUNTS))?;
    }
    report(alloc, &channels)
}

fn is_reported(alloc: Global, names: &[&str], form: &str) -> Result<bool, NoMemory> {
    let want = form.replace(alloc, "COUNTS", REPORTED)?;
    Ok(reported(alloc, names)?.as_str() == want.as_str())
}

#[test]
fn reports(rt: HostRuntime) -> Result<(), Fail> {
    for (names, form) in &REPORTS {
        assert!(rt; is_reported(rt.alloc(), names, form)?, "at {names:?}");
    }
    Ok(())
}

// Whether an end has this line on standard error, and this status.
fn is_told(alloc: Global, error: &RunError, line: &str, status: u8) -> Result<bool, Fail> {
    let text = format!(in alloc; "{error}")?;
    Ok(text.as_str() == line && error.status() == status)
}

#[derive(Clone, Copy)]
enum Plain {
    Usage,
    FileTooLarge,
    NotUtf8,
    BadEscape,
    NoMemoryForText,
    UnknownType,
    BadPattern,
    NoMemoryForPlan,
    Fault,
    NoMemory,
    InputTooLong,
    LineTooLong,
}

// The ends that name nothing, with their lines and statuses.
const PLAIN: [(Plain, &str, u8); 12] = [
    (
        Plain::Usage,
        "usage: flume pipe DIR | agent -n NAME -f FILE | check -n NAME -f FILE | load N DIR",
        1,
    ),
    (Plain::FileTooLarge, "flume: configuration too large", 2),
    (Plain::NotUtf8, "flume: byte 7: not UTF-8", 2),
    (Plain::BadEscape, "flume: line 3: bad escape", 2),
    (Plain::NoMemoryForText, "flume: no memory", 5),
    (Plain::UnknownType, "flume: line 11: unknown type", 2),
    (Plain::BadPattern, "flume: line 4: bad pattern", 2),
    (Plain::NoMemoryForPlan, "flume: no memory", 5),
    (Plain::Fault, "flume: fault outside", 3),
    (Plain::NoMemory, "flume: no memory", 5),
    (Plain::InputTooLong, "flume: input too long", 6),
    (Plain::LineTooLong, "flume: line too long", 7),
];

fn plain_end(end: Plain) -> RunError {
    match end {
        Plain::Usage => RunError::Usage,
        Plain::FileTooLarge => RunError::FileTooLarge,
        Plain::NotUtf8 => RunError::Text(PropRefused::NotUtf8 { at: 7 }),
        Plain::BadEscape => RunError::Text(PropRefused::BadEscape { line: 3 }),
        Plain::NoMemoryForText => RunError::Text(PropRefused::NoMemory),
        Plain::UnknownType => RunError::Plan(PlanRefused::UnknownType { line: 11 }),
        Plain::BadPattern => RunError::Plan(PlanRefused::BadPattern { line: 4 }),
        Plain::NoMemoryForPlan => RunError::Plan(PlanRefused::NoMemory),
        Plain::Fault => RunError::Fault,
        Plain::NoMemory => RunError::NoMemory,
        Plain::InputTooLong => RunError::InputTooLong,
        Plain::LineTooLong => RunError::LineTooLong,
    }
}

#[test]
fn ends_without_a_text_of_their_own(rt: HostRuntime) -> Result<(), Fail> {
    for (row, (end, line, status)) in PLAIN.iter().enumerate() {
        assert!(rt;
            is_told(rt.alloc(), &plain_end(*end), line, *status)?,
            "row {row}"
        );
    }
    Ok(())
}

#[derive(Clone, Copy)]
enum Named {
    NoAgent,
    MissingKey,
    BadCheckpoint,
    BadLog,
    OverCapacity,
    Spent,
    Damaged,
}

// The ends that name an agent, a key or a folder, with their lines and statuses.
const NAMED: [(Named, &str, &str, u8); 7] = [
    (Named::NoAgent, "a2", "flume: no agent a2", 2),
    (Named::MissingKey, "a1.sinks", "flume: missing a1.sinks", 2),
    (
        Named::BadCheckpoint,
        "d",
        "flume: d: bad checkpoint 1 at 93",
        4,
    ),
    (Named::BadLog, "d", "flume: d: bad log 2 at 16", 4),
    (
        Named::OverCapacity,
        "d",
        "flume: d: holds 101, more than 100",
        4,
    ),
    (Named::Spent, "d", "flume: d: number at its end", 4),
    (Named::Damaged, "d", "flume: d: damaged event", 4),
];

fn end_naming(end: Named, name: String) -> RunError {
    match end {
        Named::NoAgent => RunError::NoAgent { name },
        Named::MissingKey => RunError::Plan(PlanRefused::Missing { key: name }),
        Named::BadCheckpoint => RunError::BadCheckpoint {
            dir: name,
            file: 1,
            at: 93,
        },
        Named::BadLog => RunError::BadLog {
            dir: name,
            file: 2,
            at: 16,
        },
        Named::OverCapacity => RunError::OverCapacity {
            dir: name,
            count: 101,
            capacity: 100,
        },
        Named::Spent => RunError::Spent { dir: name },
        Named::Damaged => RunError::Damaged { dir: name },
    }
}

#[test]
fn ends_that_name_something(rt: HostRuntime) -> Result<(), Fail> {
    for (end, name, line, status) in &NAMED {
        let error = end_naming(*end, String::from_str(rt.alloc(), name)?);
        assert!(rt; is_told(rt.alloc(), &error, line, *status)?, "{line}");
    }
    Ok(())
}
