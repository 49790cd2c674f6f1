//! The plan of a source's interceptors.

ghost use Rattle.std.specs.Prelude.{◌≡◌, ◌++◌, ◌||◌, IfOk, OnOk, IfSome, IfNone, codes, map, string_bytes, option_map, true, false};
ghost use Rattle.prop_text.specs.Views.{texts};
ghost use Rattle.prop_text.specs.Winners.{lookup};
ghost use Rattle.plan_judging.specs.Components.{names_in};
ghost use Rattle.plan_judging.specs.Rows.{is_type, is_plugin, is_timestamp, is_host};
ghost use Rattle.agent_plan.specs.Values.{text_at, text_else, pattern_line, removed, names_listed, date_of, is_other, IsStep, IsGroup, IsRegex, IsStepPlan, StepNamed, Match};

use crate::values::{line_at, str_at, text_at, truth_at};
use agent_plan::StepPlan;
use interceptors::Step;
use plan_judging::{
    Place, front_of, is_host, is_millis, is_plugin, is_timestamp, is_type, names_at, plugin_name,
    push_listed, value_at,
};
use regex_steps::{Group, RegexKeys};
use std::alloc::AllocError;

/// The text at a key, or a default.
pub fn text_else(place: &Place<'_>, default: &str, key: &str) -> Result<String, AllocError>
    ensures { IfOk result (λ text. string_bytes text ≡ text_else place.now.properties.now
        default.now (place.now.front.now ++ key.now)) }
{
    match value_at(place, key)? {
        None => String::from_str(place.alloc, default),
        Some((value, _)) => String::from_str(place.alloc, value),
    }
}

// The line of a pattern, or of the type.
fn pattern_line(place: &Place<'_>, key: &str) -> Result<u32, AllocError>
    ensures { IfOk result (λ line. line ≡ pattern_line place.now.properties.now place.now.front.now
        key.now) }
{
    match value_at(place, key)? {
        None => line_at(place, "type"),
        Some((_, line)) => Ok(line),
    }
}

fn timestamp_step(place: &Place<'_>, kind: &str) -> Result<Step, AllocError>
    requires { is_timestamp kind.now ≡ true }
    ensures { IfOk result (IsStep place.now.properties.now place.now.front.now kind.now) }
{
    Ok(Step::Timestamp {
        preserve: truth_at(place, false, "preserveExisting")?,
        header: text_else(place, "timestamp", "headerName")?,
    })
}

fn host_step(place: &Place<'_>, kind: &str) -> Result<Step, AllocError>
    requires { is_host kind.now ≡ true }
    ensures { IfOk result (IsStep place.now.properties.now place.now.front.now kind.now) }
{
    Ok(Step::Host {
        use_ip: truth_at(place, true, "useIP")?,
        preserve: truth_at(place, false, "preserveExisting")?,
        header: text_else(place, "host", "hostHeader")?,
    })
}

fn static_step(place: &Place<'_>, kind: &str) -> Result<Step, AllocError>
    requires { is_type (codes "static") kind.now ≡ true }
    ensures { IfOk result (IsStep place.now.properties.now place.now.front.now kind.now) }
{
    Ok(Step::Static {
        preserve: truth_at(place, true, "preserveExisting")?,
        key: text_else(place, "key", "key")?,
        value: text_else(place, "value", "value")?,
    })
}

// Adds the names of a list with commas.
fn push_from_list(place: &Place<'_>, names: &mut Vec<String>) -> Result<(), AllocError>
    ensures { OnOk result (map string_bytes names.new.items ≡ map string_bytes names.old.items ++
        names_listed (lookup (place.now.front.now ++ codes "fromList") place.now.properties.now)) }
{
    match value_at(place, "fromList")? {
        None => Ok(()),
        Some((list, _)) => push_listed(place.alloc, names, list),
    }
}

// The keys of the headers that are removed.
fn removed(place: &Place<'_>) -> Result<Vec<String>, AllocError>
    ensures { IfOk result (λ names. map string_bytes names.items ≡ removed place.now.properties.now
        place.now.front.now) }
{
    let mut names = Vec::new(place.alloc);
    if let Some((name, _)) = value_at(place, "withName")? {
        names.push(String::from_str(place.alloc, name)?)?;
    }
    push_from_list(place, &mut names)?;
    Ok(names)
}

fn remove_step(place: &Place<'_>, kind: &str) -> Result<Step, AllocError>
    requires { is_type (codes "remove_header") kind.now ≡ true }
    ensures { IfOk result (IsStep place.now.properties.now place.now.front.now kind.now) }
{
    let names = removed(place)?;
    Ok(Step::Remove { names })
}

// The pattern of dates of a serializer.
fn date_of(place: &Place<'_>) -> Result<Option<String>, AllocError>
    ensures { IfOk result (λ date. option_map string_bytes date
        ≡ date_of place.now.properties.now place.now.front.now
        (lookup (place.now.front.now ++ codes "type") place.now.properties.now)) }
{
    match value_at(place, "type")? {
        Some((kind, _)) if is_millis(kind) => {
            let pattern = text_at(place, "pattern")?;
            Ok(Some(pattern))
        }
        _ => Ok(None),
    }
}

fn group(place: &Place<'_>, name: &str) -> Result<Group, AllocError>
    ensures { IfOk result (λ g. IsGroup place.now.properties.now place.now.front.now name.now g) }
{
    let front = front_of(place.alloc, place.front, "serializers.", name)?;
    let serializer = Place {
        alloc: place.alloc,
        properties: place.properties,
        front: front.as_str(),
    };
    Ok(Group {
        name: text_at(&serializer, "name")?,
        millis: date_of(&serializer)?,
    })
}

fn groups(place: &Place<'_>, names: &[&str]) -> Result<Vec<Group>, AllocError>
    ensures { IfOk result (λ groups. Match (IsGroup place.now.properties.now place.now.front.now)
        (texts names.now) groups.items) }
{
    let mut groups = Vec::new(place.alloc);
    for name in names {
        groups.push(group(place, name)?)?;
    }
    Ok(groups)
}

// The groups of an extractor, by its serializers.
fn groups_at(place: &Place<'_>) -> Result<Vec<Group>, AllocError>
    ensures { IfOk result (λ groups. Match (IsGroup place.now.properties.now place.now.front.now)
        (names_in place.now.properties.now (place.now.front.now ++ codes "serializers"))
        groups.items) }
{
    let names = names_at(place, "serializers")?;
    groups(place, names.as_slice())
}

fn filter_plan(place: &Place<'_>, kind: &str) -> Result<StepPlan, AllocError>
    requires same { kind.now ≡ text_at place.now.properties.now
        (place.now.front.now ++ codes "type") }
    requires kind { is_type (codes "regex_filter") kind.now ≡ true }
    ensures { IfOk result (IsStepPlan place.now.properties.now place.now.front.now) }
{
    let line = pattern_line(place, "regex")?;
    let keys = RegexKeys::Filter {
        exclude: truth_at(place, false, "excludeEvents")?,
        regex: text_else(place, ".*", "regex")?,
    };
    Ok(StepPlan::Regex { keys, line })
}

fn extract_plan(place: &Place<'_>, kind: &str) -> Result<StepPlan, AllocError>
    requires same { kind.now ≡ text_at place.now.properties.now
        (place.now.front.now ++ codes "type") }
    requires kind { is_type (codes "regex_extractor") kind.now ≡ true }
    ensures { IfOk result (IsStepPlan place.now.properties.now place.now.front.now) }
{
    let line = pattern_line(place, "regex")?;
    let keys = RegexKeys::Extract {
        groups: groups_at(place)?,
        regex: text_at(place, "regex")?,
    };
    Ok(StepPlan::Regex { keys, line })
}

fn replace_plan(place: &Place<'_>, kind: &str) -> Result<StepPlan, AllocError>
    requires same { kind.now ≡ text_at place.now.properties.now
        (place.now.front.now ++ codes "type") }
    requires kind { is_other kind.now ≡ false }
    ensures { IfOk result (IsStepPlan place.now.properties.now place.now.front.now) }
{
    let line = pattern_line(place, "searchPattern")?;
    let keys = RegexKeys::Replace {
        search: text_at(place, "searchPattern")?,
        text: text_at(place, "replaceString")?,
    };
    Ok(StepPlan::Regex { keys, line })
}

fn plugin_plan(place: &Place<'_>, kind: &str) -> Result<StepPlan, AllocError>
    requires same { kind.now ≡ text_at place.now.properties.now
        (place.now.front.now ++ codes "type") }
    requires kind { is_plugin kind.now ≡ true }
    ensures { IfOk result (IsStepPlan place.now.properties.now place.now.front.now) }
{
    Ok(StepPlan::Plugin {
        line: line_at(place, "type")?,
        name: String::from_str(place.alloc, plugin_name(kind))?,
    })
}

// An interceptor over headers, if it is one.
fn header_step(place: &Place<'_>, kind: &str) -> Result<Option<Step>, AllocError>
    ensures some { IfOk result (λ found. IfSome found (IsStep place.now.properties.now
        place.now.front.now kind.now)) }
    ensures none { IfOk result (λ found. IfNone found ((is_timestamp kind.now || is_host kind.now ||
        is_type (codes "static") kind.now || is_type (codes "remove_header") kind.now) ≡ false)) }
{
    if is_timestamp(kind) {
        return Ok(Some(timestamp_step(place, kind)?));
    }
    if is_host(kind) {
        return Ok(Some(host_step(place, kind)?));
    }
    if is_type(kind, "static") {
        return Ok(Some(static_step(place, kind)?));
    }
    if is_type(kind, "remove_header") {
        return Ok(Some(remove_step(place, kind)?));
    }
    Ok(None)
}

// An interceptor that is none over headers.
fn other_plan(place: &Place<'_>, kind: &str) -> Result<StepPlan, AllocError>
    requires same { kind.now ≡ text_at place.now.properties.now
        (place.now.front.now ++ codes "type") }
    requires kind { (is_timestamp kind.now || is_host kind.now || is_type (codes "static") kind.now
        || is_type (codes "remove_header") kind.now) ≡ false }
    ensures { IfOk result (IsStepPlan place.now.properties.now place.now.front.now) }
{
    if is_type(kind, "regex_filter") {
        return filter_plan(place, kind);
    }
    if is_type(kind, "regex_extractor") {
        return extract_plan(place, kind);
    }
    if is_plugin(kind) {
        return plugin_plan(place, kind);
    }
    replace_plan(place, kind)
}

fn step(place: &Place<'_>) -> Result<StepPlan, AllocError>
    ensures { IfOk result (IsStepPlan place.now.properties.now place.now.front.now) }
{
    let kind = str_at(place, "type")?;
    match header_step(place, kind)? {
        Some(step) => Ok(StepPlan::Step(step)),
        None => other_plan(place, kind),
    }
}

fn step_named(place: &Place<'_>, name: &str) -> Result<StepPlan, AllocError>
    ensures { IfOk result (StepNamed place.now.properties.now place.now.front.now name.now) }
{
    let front = front_of(place.alloc, place.front, "interceptors.", name)?;
    let place = Place {
        alloc: place.alloc,
        properties: place.properties,
        front: front.as_str(),
    };
    step(&place)
}

/// The interceptors of a source, which have these names.
pub fn steps(place: &Place<'_>, names: &[&str]) -> Result<Vec<StepPlan>, AllocError>
    ensures { IfOk result (λ steps. Match (StepNamed place.now.properties.now place.now.front.now)
        (texts names.now) steps.items) }
{
    let mut steps = Vec::new(place.alloc);
    for name in names {
        steps.push(step_named(place, name)?)?;
    }
    Ok(steps)
}
