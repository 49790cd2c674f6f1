// Interceptors as texts, as `static state CZ replaces`, `filter-out b+` or `extract (x)(y) => a, at:HH:mm`.
use interceptors::Step;
use regex_steps::{Group, RegexKeys, RegexStep};
use scenarios::{owned, word_and_rest};
use source_put::ChainLink;
use std::alloc::Global;

// Whether a value that is there stays.
fn is_kept(word: &str) -> Option<bool> {
    match word {
        "stays" => Some(true),
        "replaces" => Some(false),
        _ => None,
    }
}

// The moment under a key, as `t stays`.
fn timestamp(alloc: Global, words: &str) -> Option<Step> {
    let (header, kept) = word_and_rest(words);
    let preserve = is_kept(kept)?;
    Some(Step::Timestamp {
        header: owned(alloc, header)?,
        preserve,
    })
}

// The name or the address of the host under a key.
fn host(alloc: Global, words: &str, use_ip: bool) -> Option<Step> {
    let (header, kept) = word_and_rest(words);
    let preserve = is_kept(kept)?;
    Some(Step::Host {
        use_ip,
        header: owned(alloc, header)?,
        preserve,
    })
}

// A value under a key, as `k v replaces`.
fn fixed(alloc: Global, words: &str) -> Option<Step> {
    let (key, rest) = word_and_rest(words);
    let (value, kept) = word_and_rest(rest);
    let preserve = is_kept(kept)?;
    let key = owned(alloc, key)?;
    Some(Step::Static {
        key,
        value: owned(alloc, value)?,
        preserve,
    })
}

fn names_of(alloc: Global, words: &str) -> Option<Vec<String>> {
    let mut names = Vec::new(alloc);
    for word in words.split(' ') {
        names.push(owned(alloc, word)?).ok()?;
    }
    Some(names)
}

// The headers of these keys are removed.
fn remove(alloc: Global, words: &str) -> Option<Step> {
    Some(Step::Remove {
        names: names_of(alloc, words)?,
    })
}

// A step on headers.
fn step_of(alloc: Global, text: &str) -> Option<Step> {
    let (word, words) = word_and_rest(text);
    match word {
        "timestamp" => timestamp(alloc, words),
        "host-name" => host(alloc, words, false),
        "host-address" => host(alloc, words, true),
        "static" => fixed(alloc, words),
        "remove" => remove(alloc, words),
        _ => None,
    }
}

// A header, and the pattern of dates of its group where it is the milliseconds of a date.
fn group_with(alloc: Global, name: &str, pattern: Option<&str>) -> Option<Group> {
    let millis = match pattern {
        Some(pattern) => Some(owned(alloc, pattern)?),
        None => None,
    };
    Some(Group {
        name: owned(alloc, name)?,
        millis,
    })
}

fn group_of(alloc: Global, text: &str) -> Option<Group> {
    match text.split_once(':') {
        Some((name, pattern)) => group_with(alloc, name, Some(pattern)),
        None => group_with(alloc, text, None),
    }
}

fn groups_of(alloc: Global, text: &str) -> Option<Vec<Group>> {
    let mut groups = Vec::new(alloc);
    for word in text.split(", ") {
        groups.push(group_of(alloc, word)?).ok()?;
    }
    Some(groups)
}

fn filter(alloc: Global, regex: &str, exclude: bool) -> Option<RegexKeys> {
    Some(RegexKeys::Filter {
        regex: owned(alloc, regex)?,
        exclude,
    })
}

// A pattern and the headers of its groups.
fn extract(alloc: Global, regex: &str, headers: &str) -> Option<RegexKeys> {
    let groups = groups_of(alloc, headers)?;
    Some(RegexKeys::Extract {
        regex: owned(alloc, regex)?,
        groups,
    })
}

fn replace(alloc: Global, search: &str, text: &str) -> Option<RegexKeys> {
    let text = owned(alloc, text)?;
    Some(RegexKeys::Replace {
        search: owned(alloc, search)?,
        text,
    })
}

/// What a step over a pattern is built of.
pub fn keys_of(alloc: Global, text: &str) -> Option<RegexKeys> {
    let (word, words) = word_and_rest(text);
    let (first, second) = words.split_once(" => ").unwrap_or((words, ""));
    match word {
        "filter" => filter(alloc, words, false),
        "filter-out" => filter(alloc, words, true),
        "extract" => extract(alloc, first, second),
        "replace" => replace(alloc, first, second),
        _ => None,
    }
}

fn regex_link(alloc: Global, text: &str) -> Option<ChainLink> {
    let keys = keys_of(alloc, text)?;
    match RegexStep::build(alloc, &keys) {
        Ok(step) => Some(ChainLink::Regex(step)),
        Err(_) => None,
    }
}

/// An interceptor.
pub fn link_of(alloc: Global, text: &str) -> Option<ChainLink> {
    match step_of(alloc, text) {
        Some(step) => Some(ChainLink::Step(step)),
        None => regex_link(alloc, text),
    }
}

// The milliseconds of a date of this pattern, which is a whole body, under the key `at`.
fn date_keys(alloc: Global, pattern: &str) -> Option<RegexKeys> {
    let mut groups = Vec::new(alloc);
    groups.push(group_with(alloc, "at", Some(pattern))?).ok()?;
    Some(RegexKeys::Extract {
        regex: owned(alloc, "(?s)^(.*)$")?,
        groups,
    })
}

/// That step.
pub fn date_step(alloc: Global, pattern: &str) -> Option<RegexStep> {
    let keys = date_keys(alloc, pattern)?;
    RegexStep::build(alloc, &keys).ok()
}
