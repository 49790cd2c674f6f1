//! Sources.

ghost use Rattle.std.specs.Prelude.{OnOk, ◌++◌, codes};
ghost use Rattle.prop_text.specs.Winners.{lookup};
ghost use Rattle.prop_text.specs.Views.{texts};
ghost use Rattle.plan_judging.specs.Candidates.{Adds, seen};
ghost use Rattle.plan_judging.specs.Components.{source_of, selector, source, names_in};

use crate::findings::Findings;
use crate::group::names_at;
use crate::interceptor::check_steps;
use crate::rules::{Place, Row, Rule, check_names, check_rows, is_type, joined, type_at};
use crate::selecting::check_selector;
use indexmap::IndexSet;
use std::alloc::AllocError;

const KIND: [Row; 1] = [Row {
    required: true,
    key: "type",
    rule: Rule::SourceKind,
}];

const BIND: Row = Row {
    required: true,
    key: "bind",
    rule: Rule::Text,
};

const PORT: Row = Row {
    required: true,
    key: "port",
    rule: Rule::Number {
        low: 1,
        high: 65_535,
    },
};

const LINE_LENGTH: Row = Row {
    required: false,
    key: "max-line-length",
    rule: Rule::Number {
        low: 1,
        high: 1_048_568,
    },
};

const ACK: Row = Row {
    required: false,
    key: "ack-every-event",
    rule: Rule::Truth,
};

const THREADS: Row = Row {
    required: false,
    key: "threads",
    rule: Rule::Number { low: 1, high: 64 },
};

const COMPRESSION: Row = Row {
    required: false,
    key: "compression-type",
    rule: Rule::NoCompression,
};

const NETCAT: [Row; 5] = [BIND, PORT, LINE_LENGTH, ACK, THREADS];

const AVRO: [Row; 4] = [BIND, PORT, THREADS, COMPRESSION];

const STDIN: [Row; 2] = [LINE_LENGTH, ACK];

fn check_kind(place: &Place<'_>, found: &mut Findings, kind: &str) -> Result<(), AllocError>
    ensures { OnOk result (Adds (seen found.old) (seen found.new)
        (source_of place.now.properties.now place.now.front.now kind.now)) }
{
    if is_type(kind, "netcat") {
        return check_rows(place, found, &NETCAT);
    }
    if is_type(kind, "avro") {
        return check_rows(place, found, &AVRO);
    }
    if is_type(kind, "stdin") {
        return check_rows(place, found, &STDIN);
    }
    Ok(())
}

// Judges the selector of a source.
fn check_selector_at(place: &Place<'_>, found: &mut Findings) -> Result<(), AllocError>
    ensures { OnOk result (Adds (seen found.old) (seen found.new)
        (selector place.now.properties.now (place.now.front.now ++ codes "selector.")
        (names_in place.now.properties.now (place.now.front.now ++ codes "channels")))) }
{
    let channels = names_at(place, "channels")?;
    let front = joined(place.alloc, place.front, "selector.")?;
    let selector = Place {
        alloc: place.alloc,
        properties: place.properties,
        front: front.as_str(),
    };
    check_selector(&selector, found, &channels)
}

/// Judges a source.
pub fn check_source(
    place: &Place<'_>,
    found: &mut Findings,
    channels: &IndexSet<&str>,
) -> Result<(), AllocError>
    ensures { OnOk result (Adds (seen found.old) (seen found.new)
        (source place.now.properties.now (texts channels.now.keys) place.now.front.now)) }
{
    check_rows(place, found, &KIND)?;
    check_names(place, found, "channels", channels)?;
    check_steps(place, found)?;
    check_selector_at(place, found)?;
    match type_at(place)? {
        None => Ok(()),
        Some((kind, _)) => check_kind(place, found, kind),
    }
}
