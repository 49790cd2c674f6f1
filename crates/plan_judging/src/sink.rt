//! Sinks.

ghost use Rattle.std.specs.Prelude.{OnOk, ◌++◌, codes};
ghost use Rattle.prop_text.specs.Views.{texts};
ghost use Rattle.prop_text.specs.Winners.{lookup};
ghost use Rattle.plan_judging.specs.Candidates.{Adds, seen};
ghost use Rattle.plan_judging.specs.Components.{sink_of, sink};

use crate::findings::Findings;
use crate::rules::{Place, Row, Rule, check_name, check_rows, is_type, type_at};
use indexmap::IndexSet;
use std::alloc::AllocError;

const KIND: [Row; 1] = [Row {
    required: true,
    key: "type",
    rule: Rule::SinkKind,
}];

const HOST: Row = Row {
    required: true,
    key: "hostname",
    rule: Rule::Text,
};

const PORT: Row = Row {
    required: true,
    key: "port",
    rule: Rule::Number {
        low: 1,
        high: 65_535,
    },
};

const AVRO_BATCH: Row = Row {
    required: false,
    key: "batch-size",
    rule: Rule::Number {
        low: 1,
        high: 10_000,
    },
};

const COMPRESSION: Row = Row {
    required: false,
    key: "compression-type",
    rule: Rule::NoCompression,
};

const FOLDER: Row = Row {
    required: true,
    key: "sink.directory",
    rule: Rule::Text,
};

const INTERVAL: Row = Row {
    required: false,
    key: "sink.rollInterval",
    rule: Rule::Number {
        low: 0,
        high: 4_294_967_295,
    },
};

const ROLL_BATCH: Row = Row {
    required: false,
    key: "sink.batchSize",
    rule: Rule::Number {
        low: 1,
        high: 10_000,
    },
};

const SERIALIZER: Row = Row {
    required: false,
    key: "sink.serializer",
    rule: Rule::TextSerializer,
};

const NULL_BATCH: Row = Row {
    required: false,
    key: "batchSize",
    rule: Rule::Number {
        low: 1,
        high: 10_000,
    },
};

const AVRO: [Row; 4] = [HOST, PORT, AVRO_BATCH, COMPRESSION];

const ROLL: [Row; 4] = [FOLDER, INTERVAL, ROLL_BATCH, SERIALIZER];

const NULL: [Row; 1] = [NULL_BATCH];

fn check_kind(place: &Place<'_>, found: &mut Findings, kind: &str) -> Result<(), AllocError>
    ensures { OnOk result (Adds (seen found.old) (seen found.new)
        (sink_of place.now.properties.now place.now.front.now kind.now)) }
{
    if is_type(kind, "avro") {
        return check_rows(place, found, &AVRO);
    }
    if is_type(kind, "file_roll") {
        return check_rows(place, found, &ROLL);
    }
    if is_type(kind, "null") {
        return check_rows(place, found, &NULL);
    }
    Ok(())
}

/// Judges a sink.
pub fn check_sink(
    place: &Place<'_>,
    found: &mut Findings,
    channels: &IndexSet<&str>,
) -> Result<(), AllocError>
    ensures { OnOk result (Adds (seen found.old) (seen found.new)
        (sink place.now.properties.now (texts channels.now.keys) place.now.front.now)) }
{
    check_rows(place, found, &KIND)?;
    check_name(place, found, "channel", channels)?;
    match type_at(place)? {
        None => Ok(()),
        Some((kind, _)) => check_kind(place, found, kind),
    }
}
