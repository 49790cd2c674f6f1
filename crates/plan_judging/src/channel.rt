//! Channels.

ghost use Rattle.std.specs.Prelude.{OnOk, ◌++◌, codes};
ghost use Rattle.prop_text.specs.Winners.{lookup};
ghost use Rattle.plan_judging.specs.Candidates.{Adds, seen};
ghost use Rattle.plan_judging.specs.Components.{channel_of_kind, channel};

use crate::findings::Findings;
use crate::rules::{Place, Row, Rule, check_rows, is_type, type_at};
use std::alloc::AllocError;

const KIND: [Row; 1] = [Row {
    required: true,
    key: "type",
    rule: Rule::ChannelKind,
}];

const FOLDER: Row = Row {
    required: true,
    key: "dataDirs",
    rule: Rule::OneFolder,
};

const CAPACITY: Row = Row {
    required: false,
    key: "capacity",
    rule: Rule::Number {
        low: 1,
        high: 10_000_000,
    },
};

const TRANSACTION: Row = Row {
    required: false,
    key: "transactionCapacity",
    rule: Rule::Number {
        low: 1,
        high: 100_000,
    },
};

const INTERVAL: Row = Row {
    required: false,
    key: "checkpointInterval",
    rule: Rule::Number {
        low: 1000,
        high: 86_400_000,
    },
};

const FILE_SIZE: Row = Row {
    required: false,
    key: "maxFileSize",
    rule: Rule::Number {
        low: 4096,
        high: 2_146_435_071,
    },
};

const ON_CLOSE: Row = Row {
    required: false,
    key: "checkpointOnClose",
    rule: Rule::Truth,
};

const DUAL: Row = Row {
    required: false,
    key: "useDualCheckpoints",
    rule: Rule::False,
};

const MEMORY: [Row; 2] = [CAPACITY, TRANSACTION];

const FILE: [Row; 7] = [
    FOLDER,
    CAPACITY,
    TRANSACTION,
    INTERVAL,
    FILE_SIZE,
    ON_CLOSE,
    DUAL,
];

fn check_kind(place: &Place<'_>, found: &mut Findings, kind: &str) -> Result<(), AllocError>
    ensures { OnOk result (Adds (seen found.old) (seen found.new)
        (channel_of_kind place.now.properties.now place.now.front.now kind.now)) }
{
    if is_type(kind, "memory") {
        return check_rows(place, found, &MEMORY);
    }
    if is_type(kind, "file") {
        return check_rows(place, found, &FILE);
    }
    Ok(())
}

/// Judges a channel.
pub fn check_channel(place: &Place<'_>, found: &mut Findings) -> Result<(), AllocError>
    ensures { OnOk result (Adds (seen found.old) (seen found.new)
        (channel place.now.properties.now place.now.front.now)) }
{
    check_rows(place, found, &KIND)?;
    match type_at(place)? {
        None => Ok(()),
        Some((kind, _)) => check_kind(place, found, kind),
    }
}
