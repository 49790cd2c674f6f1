// Copies of the parts of a plan.
ghost use Rattle.std.specs.Prelude.{◌≡◌, ◌<◌, ◌^◌, IfOk, length, map, option_map, string_bytes};
ghost use Rattle.agent_plan.specs.Values.{seen_pair};
ghost use Rattle.agent_drafts.specs.Copies.{AreSameKeys, AreSameNames, IsSameSelector, IsSameStep, seen_group};

use interceptors::Step;
use regex_steps::{Group, RegexKeys};
use selectors::Selector;
use source_put::HostNames;
use std::alloc::{AllocError, Global};

// The same texts once more.
fn copied_texts(alloc: Global, texts: &[String]) -> Result<Vec<String>, AllocError>
    ensures { IfOk result (λ copies. map string_bytes copies.items ≡ map string_bytes texts.now) }
{
    let copies = texts.to_vec(alloc)?;
    Ok(copies)
}

/// The same step once more.
pub fn copied_step(alloc: Global, step: &Step) -> Result<Step, AllocError>
    ensures { IfOk result (IsSameStep step.now) }
{
    match step {
        Step::Timestamp { header, preserve } => Ok(Step::Timestamp {
            header: header.clone()?,
            preserve: *preserve,
        }),
        Step::Host {
            use_ip,
            header,
            preserve,
        } => Ok(Step::Host {
            use_ip: *use_ip,
            header: header.clone()?,
            preserve: *preserve,
        }),
        Step::Static {
            key,
            value,
            preserve,
        } => Ok(Step::Static {
            key: key.clone()?,
            value: value.clone()?,
            preserve: *preserve,
        }),
        Step::Remove { names } => Ok(Step::Remove {
            names: copied_texts(alloc, names)?,
        }),
    }
}

// The same pattern of dates once more.
fn copied_date(date: &Option<String>) -> Result<Option<String>, AllocError>
    ensures { IfOk result (λ copy. option_map string_bytes copy ≡ option_map string_bytes
        date.now) }
{
    match date {
        None => Ok(None),
        Some(pattern) => {
            let pattern = pattern.clone()?;
            Ok(Some(pattern))
        }
    }
}

// The same header of a group once more.
fn copied_group(group: &Group) -> Result<Group, AllocError>
    ensures { IfOk result (λ copy. seen_group copy ≡ seen_group group.now) }
{
    let name = group.name.clone()?;
    let millis = copied_date(&group.millis)?;
    Ok(Group { name, millis })
}

// The same headers of groups once more.
fn copied_groups(alloc: Global, groups: &[Group]) -> Result<Vec<Group>, AllocError>
    ensures { IfOk result (λ copies. map seen_group copies.items ≡ map seen_group groups.now) }
{
    let mut copies = Vec::new(alloc);
    for group in groups {
        copies.push(copied_group(group)?)?;
    }
    Ok(copies)
}

/// The same keys of a pattern once more.
pub fn copied_keys(alloc: Global, keys: &RegexKeys) -> Result<RegexKeys, AllocError>
    ensures { IfOk result (AreSameKeys keys.now) }
{
    match keys {
        RegexKeys::Filter { regex, exclude } => Ok(RegexKeys::Filter {
            regex: regex.clone()?,
            exclude: *exclude,
        }),
        RegexKeys::Extract { regex, groups } => Ok(RegexKeys::Extract {
            regex: regex.clone()?,
            groups: copied_groups(alloc, groups)?,
        }),
        RegexKeys::Replace { search, text } => Ok(RegexKeys::Replace {
            search: search.clone()?,
            text: text.clone()?,
        }),
    }
}

// The same places once more.
fn copied_places(alloc: Global, places: &[u32]) -> Result<Vec<u32>, AllocError>
    ensures { IfOk result (λ copies. copies.items ≡ places.now) }
{
    let copies = places.to_vec(alloc)?;
    Ok(copies)
}

/// The same places of channels once more. Out of memory comes where there are 2^32 of them or more.
pub fn copied_channels(alloc: Global, channels: &[u32]) -> Result<Vec<u32>, AllocError>
    ensures same { IfOk result (λ copies. copies.items ≡ channels.now) }
    ensures few { IfOk result (λ copies. length copies.items < 2 ^ 32) }
{
    if u32::try_from(channels.len()).is_err() {
        return Err(AllocError);
    }
    copied_places(alloc, channels)
}

// The same places of values once more.
fn copied_mapping(
    alloc: Global,
    pairs: &[(String, Vec<u32>)],
) -> Result<Vec<(String, Vec<u32>)>, AllocError>
    ensures { IfOk result (λ copies. map seen_pair copies.items ≡ map seen_pair pairs.now) }
{
    let mut copies = Vec::new(alloc);
    for (key, places) in pairs {
        let key = key.clone()?;
        let places = copied_places(alloc, places)?;
        copies.push((key, places))?;
    }
    Ok(copies)
}

/// The same selector once more.
pub fn copied_selector(alloc: Global, selector: &Selector) -> Result<Selector, AllocError>
    ensures { IfOk result (IsSameSelector selector.now) }
{
    match selector {
        Selector::Replicating { channels, optional } => Ok(Selector::Replicating {
            channels: *channels,
            optional: copied_places(alloc, optional)?,
        }),
        Selector::Multiplexing {
            header,
            mapping,
            default,
            optional,
        } => Ok(Selector::Multiplexing {
            header: header.clone()?,
            mapping: copied_mapping(alloc, mapping)?,
            default: copied_places(alloc, default)?,
            optional: copied_mapping(alloc, optional)?,
        }),
    }
}

/// The same names of the host once more.
pub fn copied_names(names: &HostNames) -> Result<HostNames, AllocError>
    ensures { IfOk result (AreSameNames names.now) }
{
    let name = names.name.clone()?;
    let address = names.address.clone()?;
    Ok(HostNames { name, address })
}
