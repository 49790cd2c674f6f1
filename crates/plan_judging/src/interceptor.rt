//! Interceptors of a source.

ghost use Rattle.std.specs.Prelude.{OnOk, ◌++◌, codes};
ghost use Rattle.prop_text.specs.Views.{texts};
ghost use Rattle.prop_text.specs.Winners.{lookup};
ghost use Rattle.plan_judging.specs.Candidates.{Adds, seen, each};
ghost use Rattle.plan_judging.specs.Components.{date_by_kind, serializer, serializer_named, extractor_step, step_of, step, step_named, steps, front_of};

use crate::findings::Findings;
use crate::group::{front_of, names_at};
use crate::rules::{
    Place, Row, Rule, check_list, check_rows, is_host, is_millis, is_timestamp, is_type, type_at,
};
use std::alloc::AllocError;

const KIND: [Row; 1] = [Row {
    required: true,
    key: "type",
    rule: Rule::StepKind,
}];

const USE_IP: Row = Row {
    required: false,
    key: "useIP",
    rule: Rule::Truth,
};

const PRESERVE: Row = Row {
    required: false,
    key: "preserveExisting",
    rule: Rule::Truth,
};

const MATCHING: Row = Row {
    required: false,
    key: "matching",
    rule: Rule::Never,
};

const SEPARATOR: Row = Row {
    required: false,
    key: "fromListSeparator",
    rule: Rule::Never,
};

const EXCLUDE: Row = Row {
    required: false,
    key: "excludeEvents",
    rule: Rule::Truth,
};

const SEARCH: Row = Row {
    required: true,
    key: "searchPattern",
    rule: Rule::Text,
};

const SERIALIZER: [Row; 2] = [
    Row {
        required: false,
        key: "type",
        rule: Rule::SerializerKind,
    },
    Row {
        required: true,
        key: "name",
        rule: Rule::Text,
    },
];

const DATE: [Row; 1] = [Row {
    required: true,
    key: "pattern",
    rule: Rule::Text,
}];

const EXTRACTOR: [Row; 1] = [Row {
    required: true,
    key: "regex",
    rule: Rule::Text,
}];

const STAMP: [Row; 1] = [PRESERVE];

const HOST: [Row; 2] = [USE_IP, PRESERVE];

const REMOVE: [Row; 2] = [MATCHING, SEPARATOR];

const FILTER: [Row; 1] = [EXCLUDE];

const REPLACE: [Row; 1] = [SEARCH];

#[tactic(auto, unfolding(crate::specs::Candidates::adds))]
fn check_date(place: &Place<'_>, found: &mut Findings) -> Result<(), AllocError>
    ensures { OnOk result (Adds (seen found.old) (seen found.new)
        (date_by_kind place.now.properties.now place.now.front.now
        (lookup (place.now.front.now ++ codes "type") place.now.properties.now))) }
{
    match type_at(place)? {
        Some((kind, _)) if is_millis(kind) => check_rows(place, found, &DATE),
        _ => Ok(()),
    }
}

fn check_serializer(place: &Place<'_>, found: &mut Findings) -> Result<(), AllocError>
    ensures { OnOk result (Adds (seen found.old) (seen found.new)
        (serializer place.now.properties.now place.now.front.now)) }
{
    check_rows(place, found, &SERIALIZER)?;
    check_date(place, found)
}

fn check_serializer_named(
    place: &Place<'_>,
    found: &mut Findings,
    name: &str,
) -> Result<(), AllocError>
    ensures { OnOk result (Adds (seen found.old) (seen found.new)
        (serializer_named place.now.properties.now place.now.front.now name.now)) }
{
    let front = front_of(place.alloc, place.front, "serializers.", name)?;
    let place = Place {
        alloc: place.alloc,
        properties: place.properties,
        front: front.as_str(),
    };
    check_serializer(&place, found)
}

fn check_serializers(
    place: &Place<'_>,
    found: &mut Findings,
    names: &[&str],
) -> Result<(), AllocError>
    ensures { OnOk result (Adds (seen found.old) (seen found.new)
        (each (serializer_named place.now.properties.now place.now.front.now) (texts names.now))) }
{
    for name in names {
        check_serializer_named(place, found, name)?;
    }
    Ok(())
}

fn check_extractor(place: &Place<'_>, found: &mut Findings) -> Result<(), AllocError>
    ensures { OnOk result (Adds (seen found.old) (seen found.new)
        (extractor_step place.now.properties.now place.now.front.now)) }
{
    check_rows(place, found, &EXTRACTOR)?;
    check_list(place, found, true, "serializers")?;
    let names = names_at(place, "serializers")?;
    check_serializers(place, found, names.as_slice())
}

fn check_kind(place: &Place<'_>, found: &mut Findings, kind: &str) -> Result<(), AllocError>
    ensures { OnOk result (Adds (seen found.old) (seen found.new)
        (step_of place.now.properties.now place.now.front.now kind.now)) }
{
    if is_timestamp(kind) {
        return check_rows(place, found, &STAMP);
    }
    if is_host(kind) {
        return check_rows(place, found, &HOST);
    }
    if is_type(kind, "static") {
        return check_rows(place, found, &STAMP);
    }
    if is_type(kind, "remove_header") {
        return check_rows(place, found, &REMOVE);
    }
    if is_type(kind, "regex_filter") {
        return check_rows(place, found, &FILTER);
    }
    if is_type(kind, "regex_extractor") {
        return check_extractor(place, found);
    }
    if is_type(kind, "search_replace") {
        return check_rows(place, found, &REPLACE);
    }
    Ok(())
}

fn check_step(place: &Place<'_>, found: &mut Findings) -> Result<(), AllocError>
    ensures { OnOk result (Adds (seen found.old) (seen found.new)
        (step place.now.properties.now place.now.front.now)) }
{
    check_rows(place, found, &KIND)?;
    match type_at(place)? {
        None => Ok(()),
        Some((kind, _)) => check_kind(place, found, kind),
    }
}

fn check_step_named(place: &Place<'_>, found: &mut Findings, name: &str) -> Result<(), AllocError>
    ensures { OnOk result (Adds (seen found.old) (seen found.new)
        (step_named place.now.properties.now place.now.front.now name.now)) }
{
    let front = front_of(place.alloc, place.front, "interceptors.", name)?;
    let place = Place {
        alloc: place.alloc,
        properties: place.properties,
        front: front.as_str(),
    };
    check_step(&place, found)
}

fn check_each(place: &Place<'_>, found: &mut Findings, names: &[&str]) -> Result<(), AllocError>
    ensures { OnOk result (Adds (seen found.old) (seen found.new)
        (each (step_named place.now.properties.now place.now.front.now) (texts names.now))) }
{
    for name in names {
        check_step_named(place, found, name)?;
    }
    Ok(())
}

/// Judges the interceptors of a source.
pub fn check_steps(place: &Place<'_>, found: &mut Findings) -> Result<(), AllocError>
    ensures { OnOk result (Adds (seen found.old) (seen found.new)
        (steps place.now.properties.now place.now.front.now)) }
{
    check_list(place, found, false, "interceptors")?;
    let names = names_at(place, "interceptors")?;
    check_each(place, found, names.as_slice())
}
