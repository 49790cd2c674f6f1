// The rows of a run.
ghost use Rattle.std.specs.Prelude.{◌≡◌, ◌<◌, [], All, IfOk, OnOk, fold, length, min};
ghost use Rattle.grouped_sinks.specs.Rows.{AddsIf, AreRows, AreThere, IsLone, IsOfGroup, JoinedBy, Zips, batch_at, channel_at, has_sinks, is_among, is_grouped, is_lone, places_where};

use agent_plan::{GroupPlan, Plan, SinkPlan};
use std::alloc::{AllocError, Global};

/// What one worker of a run drives: a sink that stands in no group, or a group.
#[derive(Drop)]
pub struct SinkRow {
    /// The component of its worker.
    pub component: String,
    /// The place of its channel in the plan.
    pub channel: u32,
    /// How many events it takes at a time.
    pub batch: u32,
    /// The places of its sinks in the plan, in order.
    pub places: Vec<u32>,
    /// The place of its group in the plan, if it is one.
    pub group: Option<usize>,
}

// Whether one of these places is this one.
fn is_among(places: &[u32], place: u32) -> bool
    ensures { result ≡ is_among places.now place }
{
    for other in places {
        if *other == place {
            return true;
        }
    }
    false
}

// Whether some group has the sink at this place.
fn is_grouped(groups: &[GroupPlan], place: u32) -> bool
    ensures { result ≡ is_grouped groups.now place }
{
    for group in groups {
        if is_among(group.sinks.as_slice(), place) {
            return true;
        }
    }
    false
}

// The channel of the sink at a place.
fn channel_at(sinks: &[SinkPlan], place: u32) -> u32
    requires { place < length sinks.now }
    ensures { result ≡ channel_at sinks.now place }
{
    sinks[place as usize].channel
}

// How many events it takes at a time.
fn batch_at(sinks: &[SinkPlan], place: u32) -> u32
    requires { place < length sinks.now }
    ensures { result ≡ batch_at sinks.now place }
{
    sinks[place as usize].batch
}

// The row of the sink at this place, which stands in no group.
fn lone_row(alloc: Global, sinks: &[SinkPlan], place: u32) -> Result<SinkRow, AllocError>
    requires { place < length sinks.now }
    ensures { IfOk result (IsLone sinks.now place) }
{
    let sink = &sinks[place as usize];
    let name = sink.name.as_str();
    let component = format!(in alloc; "sinks.{name}")?;
    let places = vec![in alloc; place]?;
    Ok(SinkRow {
        component,
        channel: channel_at(sinks, place),
        batch: batch_at(sinks, place),
        places,
        group: None,
    })
}

// The number of a place. Without numbers for so many sinks there is no memory for them.
fn number_of(place: usize) -> Result<u32, AllocError>
    ensures { IfOk result (λ number. number ≡ place) }
{
    if place > u32::MAX as usize {
        return Err(AllocError);
    }
    Ok(place as u32)
}

// Adds the row of the sink at this place, if it stands in no group.
fn add_lone(
    alloc: Global,
    sinks: &[SinkPlan],
    groups: &[GroupPlan],
    place: usize,
    rows: &mut Vec<SinkRow>,
) -> Result<(), AllocError>
    requires { place < length sinks.now }
    ensures { OnOk result (AddsIf (IsLone sinks.now place)
        (is_lone groups.now place) rows.old.items rows.new.items) }
{
    let place = number_of(place)?;
    if !is_grouped(groups, place) {
        rows.push(lone_row(alloc, sinks, place)?)?;
    }
    Ok(())
}

// The least that one of these sinks takes at a time.
fn least_batch(sinks: &[SinkPlan], first: u32, others: &[u32]) -> u32
    requires first { first < length sinks.now }
    requires others { All (λ place. place < length sinks.now) others.now }
    ensures { result ≡ fold (λ least place. min least (batch_at sinks.now place))
        (batch_at sinks.now first) others.now }
{
    let mut least = batch_at(sinks, first);
    for place in others {
        least = least.min(batch_at(sinks, *place));
    }
    least
}

// Adds the row of the group at this place, if it has a sink.
fn add_group(
    alloc: Global,
    sinks: &[SinkPlan],
    groups: &[GroupPlan],
    at: usize,
    rows: &mut Vec<SinkRow>,
) -> Result<(), AllocError>
    requires there { AreThere (length sinks.now) groups.now }
    requires at { at < length groups.now }
    ensures { OnOk result (AddsIf (IsOfGroup sinks.now groups.now at)
        (has_sinks groups.now at) rows.old.items rows.new.items) }
{
    let group = &groups[at];
    let Some((first, others)) = group.sinks.split_first() else {
        return Ok(());
    };
    let name = group.name.as_str();
    let component = format!(in alloc; "sinkgroups.{name}")?;
    let places = Vec::from_slice(alloc, group.sinks.as_slice())?;
    rows.push(SinkRow {
        component,
        channel: channel_at(sinks, *first),
        batch: least_batch(sinks, *first, others),
        places,
        group: Some(at),
    })?;
    Ok(())
}

// Adds the rows of the sinks that stand in no group.
fn add_all_lone(
    alloc: Global,
    sinks: &[SinkPlan],
    groups: &[GroupPlan],
    rows: &mut Vec<SinkRow>,
) -> Result<(), AllocError>
    requires none { rows.old.items ≡ [] }
    ensures { OnOk result (Zips (IsLone sinks.now) (places_where (is_lone groups.now)
        (length sinks.now)) rows.new.items) }
{
    for place in 0..sinks.len() {
        add_lone(alloc, sinks, groups, place, rows)?;
    }
    Ok(())
}

// Adds the rows of the groups that have a sink.
fn add_groups(
    alloc: Global,
    sinks: &[SinkPlan],
    groups: &[GroupPlan],
    rows: &mut Vec<SinkRow>,
) -> Result<(), AllocError>
    requires there { AreThere (length sinks.now) groups.now }
    ensures { OnOk result (JoinedBy (IsOfGroup sinks.now groups.now) (places_where
        (has_sinks groups.now) (length groups.now)) rows.old.items rows.new.items) }
{
    for at in 0..groups.len() {
        add_group(alloc, sinks, groups, at, rows)?;
    }
    Ok(())
}

/// The rows of a plan: those of the sinks that stand in no group, in the order of its list, and then those of the groups that have a
/// sink, in theirs.
pub fn rows_of(alloc: Global, plan: &Plan) -> Result<Vec<SinkRow>, AllocError>
    requires there { AreThere (length plan.now.sinks.items) plan.now.groups.items }
    ensures { IfOk result (λ rows. AreRows plan.now.sinks.items plan.now.groups.items rows.items) }
{
    let sinks = plan.sinks.as_slice();
    let groups = plan.groups.as_slice();
    let mut rows = Vec::new(alloc);
    add_all_lone(alloc, sinks, groups, &mut rows)?;
    add_groups(alloc, sinks, groups, &mut rows)?;
    Ok(rows)
}
