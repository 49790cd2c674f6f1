//! What the value of a key has to be.

ghost use Rattle.std.specs.Prelude.{◌≡◌, ◌≤◌, ◌<◌, ◌^◌, ◌++◌, ◌||◌, Bool, is_some, not, ◌==◌, IfOk, OnOk, MatchOption, None, Some, string_bytes, length, codes};
ghost use Rattle.prop_text.specs.Winners.{lookup};
ghost use Rattle.prop_text.specs.Views.{texts};
ghost use Rattle.std.specs.List.{list_any};
ghost use Rattle.std.specs.Str.{bytes_eq};
ghost use Rattle.plan_judging.specs.declared.findings.FaultKind.TheVariants.{BadNumber};
ghost use Rattle.plan_judging.specs.declared.rules.Rule.TheVariants.{False};
ghost use Rattle.plan_judging.specs.Candidates.{Adds, seen, ◌⊕◌};
ghost use Rattle.plan_judging.specs.Words.{number_in, truth_of, words};
ghost use Rattle.plan_judging.specs.Rows.{when, is_type, is_plugin, is_timestamp, is_host, is_millis, is_step, judged, row, rows_of, of_kind, absent, twice, unknown, list_row, names_row, name_row};

use crate::findings::{FaultKind, Findings};
use crate::values::{all_among, has_twice, number, truth, words};
use indexmap::IndexSet;
use prop_text::Properties;
use std::alloc::{AllocError, Global};

/// What a value has to be.
#[derive(Clone, Copy)]
pub enum Rule {
    Text,
    Number { low: u64, high: u64 },
    Truth,
    /// The truth value false.
    False,
    /// The key is not supported.
    Never,
    NoCompression,
    TextSerializer,
    RoundRobinOrRandom,
    /// A text without a comma.
    OneFolder,
    SourceKind,
    ChannelKind,
    SinkKind,
    ProcessorKind,
    StepKind,
    SerializerKind,
    SelectorKind,
}

fn unless(holds: bool, kind: FaultKind) -> Option<FaultKind>
    ensures { result ≡ when (not holds) kind }
{
    if holds { None } else { Some(kind) }
}

/// Whether a value is the short name of a type.
pub fn is_type(value: &str, name: &str) -> bool
    ensures { result ≡ is_type name.now value.now }
{
    value.eq_ignore_ascii_case(name)
}

/// Whether a type is that of an object that is handed in.
pub fn is_plugin(value: &str) -> bool
    ensures { result ≡ is_plugin value.now }
{
    value.as_bytes().starts_with(b"plugin.")
}

/// Whether a type is that of an interceptor that sets the moment.
#[tactic(auto, unfolding(crate::specs::Rows::is_timestamp))]
pub fn is_timestamp(value: &str) -> bool
    ensures { result ≡ is_timestamp value.now }
{
    is_type(value, "timestamp")
        || value == "org.apache.flume.interceptor.TimestampInterceptor$Builder"
}

/// Whether a type is that of an interceptor that sets the host.
#[tactic(auto, unfolding(crate::specs::Rows::is_host))]
pub fn is_host(value: &str) -> bool
    ensures { result ≡ is_host value.now }
{
    is_type(value, "host") || value == "org.apache.flume.interceptor.HostInterceptor$Builder"
}

/// Whether a type is that of the serializer that reads a group as a date.
#[tactic(auto, unfolding(crate::specs::Rows::is_millis))]
pub fn is_millis(value: &str) -> bool
    ensures { result ≡ is_millis value.now }
{
    value == "org.apache.flume.interceptor.RegexExtractorInterceptorMillisSerializer"
}

// Whether a type is that of an interceptor.
fn is_step(value: &str) -> bool
    ensures { result ≡ is_step value.now }
{
    is_timestamp(value)
        || is_host(value)
        || is_type(value, "static")
        || is_type(value, "remove_header")
        || is_type(value, "regex_filter")
        || is_type(value, "regex_extractor")
        || is_type(value, "search_replace")
        || is_plugin(value)
}

fn has_comma(value: &str) -> bool
    ensures { result ≡ list_any (λ b. b == 44) value.now }
{
    value.as_bytes().contains(&b',')
}

fn judge_number(low: u64, high: u64, value: &str) -> Option<FaultKind>
    ensures { result ≡ when (not (is_some (number_in low high value.now))) BadNumber }
{
    let within = match number(value) {
        Some(n) => low <= n && n <= high,
        None => false,
    };
    unless(within, FaultKind::BadNumber)
}

fn judge_false(value: &str) -> Option<FaultKind>
    ensures { result ≡ judged False value.now }
{
    match truth(value) {
        None => Some(FaultKind::BadNumber),
        Some(on) => unless(!on, FaultKind::Unsupported),
    }
}

fn is_round_robin_or_random(value: &str) -> bool
    ensures { result ≡ (bytes_eq value.now (codes "round_robin") || bytes_eq value.now
        (codes "random")) }
{
    value == "round_robin" || value == "random"
}

fn is_source(value: &str) -> bool
    ensures { result ≡ (is_type (codes "netcat") value.now || is_type (codes "avro") value.now ||
        is_type (codes "stdin") value.now) }
{
    is_type(value, "netcat") || is_type(value, "avro") || is_type(value, "stdin")
}

fn is_channel(value: &str) -> bool
    ensures { result ≡ (is_type (codes "memory") value.now || is_type (codes "file") value.now) }
{
    is_type(value, "memory") || is_type(value, "file")
}

fn is_sink(value: &str) -> bool
    ensures { result ≡ (is_type (codes "avro") value.now || is_type (codes "file_roll") value.now ||
        is_type (codes "null") value.now || is_plugin value.now) }
{
    is_type(value, "avro")
        || is_type(value, "file_roll")
        || is_type(value, "null")
        || is_plugin(value)
}

fn is_processor(value: &str) -> bool
    ensures { result ≡ (is_type (codes "default") value.now || is_type (codes "failover") value.now
        || is_type (codes "load_balance") value.now) }
{
    is_type(value, "default") || is_type(value, "failover") || is_type(value, "load_balance")
}

fn is_serializer(value: &str) -> bool
    ensures { result ≡ (is_type (codes "default") value.now || is_millis value.now) }
{
    is_type(value, "default") || is_millis(value)
}

fn is_selector(value: &str) -> bool
    ensures { result ≡ (is_type (codes "replicating") value.now || is_type (codes "multiplexing")
        value.now) }
{
    is_type(value, "replicating") || is_type(value, "multiplexing")
}

impl Rule {
    /// What is wrong with a value.
    fn judge(self, value: &str) -> Option<FaultKind>
        ensures { result ≡ judged self value.now }
    {
        match self {
            Rule::Text => None,
            Rule::Number { low, high } => judge_number(low, high, value),
            Rule::Truth => unless(truth(value).is_some(), FaultKind::BadNumber),
            Rule::False => judge_false(value),
            Rule::Never => Some(FaultKind::Unsupported),
            Rule::NoCompression => unless(value == "none", FaultKind::Unsupported),
            Rule::TextSerializer => unless(value == "TEXT", FaultKind::Unsupported),
            Rule::RoundRobinOrRandom => {
                unless(is_round_robin_or_random(value), FaultKind::Unsupported)
            }
            Rule::OneFolder => unless(!has_comma(value), FaultKind::Unsupported),
            Rule::SourceKind => unless(is_source(value), FaultKind::UnknownType),
            Rule::ChannelKind => unless(is_channel(value), FaultKind::UnknownType),
            Rule::SinkKind => unless(is_sink(value), FaultKind::UnknownType),
            Rule::ProcessorKind => unless(is_processor(value), FaultKind::UnknownType),
            Rule::StepKind => unless(is_step(value), FaultKind::UnknownType),
            Rule::SerializerKind => unless(is_serializer(value), FaultKind::UnknownType),
            Rule::SelectorKind => unless(is_selector(value), FaultKind::UnknownType),
        }
    }
}

/// A text and another after it.
pub fn joined(alloc: Global, front: &str, back: &str) -> Result<String, AllocError>
    ensures { IfOk result (λ text. string_bytes text ≡ front.now ++ back.now) }
{
    [front, back].concat(alloc)
}

/// What some component's keys are read from, and the front that they share.
#[derive(Clone, Copy)]
pub struct Place<'a> {
    pub alloc: Global,
    pub properties: &'a Properties,
    pub front: &'a str,
}

/// The value at a component's key, and the number of the line that it stands on.
pub fn value_at<'a>(place: &Place<'a>, key: &str) -> Result<Option<(&'a str, u32)>, AllocError>
    ensures { IfOk result (λ found. MatchOption found
        (lookup (place.now.front.now ++ key.now) place.now.properties.now ≡ None)
        (λ v. lookup (place.now.front.now ++ key.now) place.now.properties.now
        ≡ Some (record { key = place.now.front.now ++ key.now; value = v.0.now; line = v.1 }))) }
{
    let key = joined(place.alloc, place.front, key)?;
    Ok(place.properties.get(key.as_str()))
}

/// The type of a component, and the number of its line.
pub fn type_at<'a>(place: &Place<'a>) -> Result<Option<(&'a str, u32)>, AllocError>
    ensures { IfOk result (λ found. MatchOption found
        (lookup (place.now.front.now ++ codes "type") place.now.properties.now ≡ None)
        (λ v. lookup (place.now.front.now ++ codes "type") place.now.properties.now
        ≡ Some (record {
          key = place.now.front.now ++ codes "type";
          value = v.0.now;
          line =
              v.1;
        }))) }
{
    value_at(place, "type")
}

// A key is not there.
fn lack(
    place: &Place<'_>,
    found: &mut Findings,
    required: bool,
    key: &str,
) -> Result<(), AllocError>
    ensures { OnOk result (Adds (seen found.old) (seen found.new)
        (absent required (place.now.front.now ++ key.now))) }
{
    if required {
        found.lacks(joined(place.alloc, place.front, key)?);
    }
    Ok(())
}

// A line of which something may be wrong.
#[tactic(auto, unfolding(crate::specs::Candidates::adds))]
fn blame(found: &mut Findings, line: u32, kind: Option<FaultKind>)
    ensures { Adds (seen found.old) (seen found.new) (of_kind line kind) }
{
    if let Some(kind) = kind {
        found.refuse(line, kind);
    }
}

/// Judges the value of a key, or that it is not there.
pub fn check(
    place: &Place<'_>,
    found: &mut Findings,
    required: bool,
    key: &str,
    rule: Rule,
) -> Result<(), AllocError>
    ensures { OnOk result (Adds (seen found.old) (seen found.new)
        (row place.now.properties.now place.now.front.now required key.now rule)) }
{
    match value_at(place, key)? {
        None => lack(place, found, required, key),
        Some((value, line)) => {
            blame(found, line, rule.judge(value));
            Ok(())
        }
    }
}

/// A row of the table of components: a key, whether it is required, and what its value has to be.
pub struct Row {
    pub required: bool,
    pub key: &'static str,
    pub rule: Rule,
}

/// Judges the keys of some rows.
pub fn check_rows(place: &Place<'_>, found: &mut Findings, rows: &[Row]) -> Result<(), AllocError>
    ensures { OnOk result (Adds (seen found.old) (seen found.new)
        (rows_of place.now.properties.now place.now.front.now rows.now)) }
{
    for row in rows {
        check(place, found, row.required, row.key, row.rule)?;
    }
    Ok(())
}

// Judges a list that names a thing twice.
#[tactic(auto, unfolding(crate::specs::Candidates::adds))]
fn check_twice(
    alloc: Global,
    found: &mut Findings,
    line: u32,
    names: &[&str],
) -> Result<(), AllocError>
    ensures { OnOk result (Adds (seen found.old) (seen found.new) (twice line (texts names.now))) }
{
    if has_twice(alloc, names)? {
        found.refuse(line, FaultKind::Clash);
    }
    Ok(())
}

// Judges a list that names a thing that is not among the others.
#[tactic(auto, unfolding(crate::specs::Candidates::adds))]
fn check_known(found: &mut Findings, line: u32, names: &[&str], others: &IndexSet<&str>)
    ensures { Adds (seen found.old) (seen found.new) (unknown line (texts names.now)
        (texts others.now.keys)) }
{
    if !all_among(names, others) {
        found.refuse(line, FaultKind::UnknownName);
    }
}

/// Judges a list of names of things that are there.
pub fn check_list_of(
    alloc: Global,
    found: &mut Findings,
    line: u32,
    value: &str,
    others: &IndexSet<&str>,
) -> Result<(), AllocError>
    ensures { OnOk result (Adds (seen found.old) (seen found.new)
        (twice line (words value.now) ⊕ unknown line (words value.now) (texts others.now.keys))) }
{
    let names = words(alloc, value)?;
    check_twice(alloc, found, line, names.as_slice())?;
    check_known(found, line, names.as_slice(), others);
    Ok(())
}

/// Judges a list of names that are the first to stand.
pub fn check_list(
    place: &Place<'_>,
    found: &mut Findings,
    required: bool,
    key: &str,
) -> Result<(), AllocError>
    ensures { OnOk result (Adds (seen found.old) (seen found.new)
        (list_row place.now.properties.now place.now.front.now required key.now)) }
{
    match value_at(place, key)? {
        None => lack(place, found, required, key),
        Some((value, line)) => {
            let names = words(place.alloc, value)?;
            check_twice(place.alloc, found, line, names.as_slice())
        }
    }
}

/// Judges a required list of names of things that are there.
pub fn check_names(
    place: &Place<'_>,
    found: &mut Findings,
    key: &str,
    others: &IndexSet<&str>,
) -> Result<(), AllocError>
    ensures { OnOk result (Adds (seen found.old) (seen found.new)
        (names_row place.now.properties.now place.now.front.now key.now (texts others.now.keys))) }
{
    match value_at(place, key)? {
        None => lack(place, found, true, key),
        Some((value, line)) => check_list_of(place.alloc, found, line, value, others),
    }
}

/// Judges a required key that names one thing that is there.
pub fn check_name(
    place: &Place<'_>,
    found: &mut Findings,
    key: &str,
    others: &IndexSet<&str>,
) -> Result<(), AllocError>
    ensures { OnOk result (Adds (seen found.old) (seen found.new)
        (name_row place.now.properties.now place.now.front.now key.now (texts others.now.keys))) }
{
    match value_at(place, key)? {
        None => lack(place, found, true, key),
        Some((value, line)) => {
            check_known(found, line, &[value], others);
            Ok(())
        }
    }
}
