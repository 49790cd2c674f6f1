// The channels of a run by name, with the workers that use each.
ghost use Rattle.std.specs.Prelude.{◌≡◌, ◌≤◌, ◌++◌, [], IfOk, OnOk, flat_map, length, map};
ghost use Rattle.std.specs.Vec.{vec_capacity};
ghost use Rattle.run_opening.specs.Labels.{AreLabels, IsChannelNamed, IsNamed, entries_at, entry_of, keep_user, label_of, seat_users, sink_user, user_of, users_of};
ghost use Rattle.run_opening.specs.Lists.{IsEmptyFor};

use crate::channel_end::{ChannelEnd, Worker};
use crate::seats::{KeepSeat, Seat};
use agent_plan::{ChannelPlan, Plan, SourcePlan};
use grouped_sinks::SinkRow;
use shared_channel::Pass;
use std::alloc::{AllocError, Global};

/// A worker of a plan that uses a channel.
#[derive(Drop)]
struct User {
    // The place of the channel in the plan, from 0.
    channel: u32,
    // The component of the worker.
    component: String,
    // The place of the worker among those of its component, from 0.
    place: u32,
}

/// The name of a channel, and the workers that use it.
#[derive(Drop)]
pub struct ChannelLabel {
    /// The name.
    pub name: String,
    /// The workers, by their numbers from 1 on.
    pub workers: Vec<Worker>,
}

// The component of the channel at a place of the plan.
fn channel_component(alloc: Global, plans: &[ChannelPlan], at: usize) -> Result<String, AllocError>
    ensures { IfOk result (λ text. IsChannelNamed plans.now at text) }
{
    match plans.get(at) {
        Some(plan) => {
            let name = plan.name.as_str();
            format!(in alloc; "channels.{name}")
        }
        None => Ok(String::new(alloc)),
    }
}

// Adds the workers of channels on disks.
fn add_keepers<C>(
    alloc: Global,
    users: &mut Vec<User>,
    plans: &[ChannelPlan],
    keepers: &[KeepSeat<C>],
) -> Result<(), AllocError>
    ensures { OnOk result (map user_of users.new.items
        ≡ map user_of users.old.items ++ map (keep_user plans.now) keepers.now) }
{
    for keeper in keepers {
        users.push(User {
            channel: keeper.channel,
            component: channel_component(alloc, plans, keeper.channel as usize)?,
            place: 0,
        })?;
    }
    Ok(())
}

// Adds the workers of the rows of sinks.
fn add_sinks(users: &mut Vec<User>, sinks: &[SinkRow]) -> Result<(), AllocError>
    ensures { OnOk result (map user_of users.new.items
        ≡ map user_of users.old.items ++ map sink_user sinks.now) }
{
    for sink in sinks {
        users.push(User {
            channel: sink.channel,
            component: sink.component.clone()?,
            place: 0,
        })?;
    }
    Ok(())
}

// The component of the source at a place of the plan.
fn source_component(alloc: Global, sources: &[SourcePlan], at: usize) -> Result<String, AllocError>
    ensures { IfOk result (λ text. IsNamed sources.now at text) }
{
    match sources.get(at) {
        Some(source) => {
            let name = source.name.as_str();
            format!(in alloc; "sources.{name}")
        }
        None => Ok(String::new(alloc)),
    }
}

// Adds a worker of a source, once for each of its channels.
fn add_seat<K, C>(
    alloc: Global,
    users: &mut Vec<User>,
    sources: &[SourcePlan],
    seat: &Seat<K, C>,
) -> Result<(), AllocError>
    ensures { OnOk result (map user_of users.new.items
        ≡ map user_of users.old.items ++ seat_users sources.now seat.now) }
{
    for channel in seat.draft.channels.as_slice() {
        users.push(User {
            channel: *channel,
            component: source_component(alloc, sources, seat.draft.source)?,
            place: seat.draft.place,
        })?;
    }
    Ok(())
}

// Adds the workers of sources.
fn add_seats<K, C>(
    alloc: Global,
    users: &mut Vec<User>,
    sources: &[SourcePlan],
    seats: &[Seat<K, C>],
) -> Result<(), AllocError>
    ensures { OnOk result (map user_of users.new.items
        ≡ map user_of users.old.items ++ flat_map (seat_users sources.now) seats.now) }
{
    for seat in seats {
        add_seat(alloc, users, sources, seat)?;
    }
    Ok(())
}

// The workers that use channels, in the order in which passes are dealt to them: those of channels, sinks, listeners and lines.
fn users_of<K, C>(
    alloc: Global,
    plan: &Plan,
    keepers: &[KeepSeat<C>],
    rows: &[SinkRow],
    listeners: &[Seat<K, C>],
    lines: &[Seat<K, C>],
) -> Result<Vec<User>, AllocError>
    ensures { IfOk result (λ users. map user_of users.items ≡ users_of plan.now keepers.now rows.now
        listeners.now lines.now) }
{
    let mut users = Vec::new(alloc);
    let sources = plan.sources.as_slice();
    add_keepers(alloc, &mut users, plan.channels.as_slice(), keepers)?;
    add_sinks(&mut users, rows)?;
    add_seats(alloc, &mut users, sources, listeners)?;
    add_seats(alloc, &mut users, sources, lines)?;
    Ok(users)
}

// Adds those of them that use the channel at a place: the last of them first, as it gets the first number.
fn add_entries(users: &[User], place: usize, workers: &mut Vec<Worker>) -> Result<(), AllocError>
    requires none { workers.old.items ≡ [] }
    ensures { OnOk result (map entry_of workers.new.items ≡ entries_at place
        (map user_of users.now)) }
{
    let Some((user, others)) = users.split_first() else {
        return Ok(());
    };
    add_entries(others, place, workers)?;
    if user.channel as usize == place {
        workers.push(Worker {
            component: user.component.clone()?,
            place: user.place,
            number: workers.len() as u64 + 1,
        })?;
    }
    Ok(())
}

// Adds the labels of channels, in order.
fn add_labels(
    alloc: Global,
    plans: &[ChannelPlan],
    users: &[User],
    labels: &mut Vec<ChannelLabel>,
) -> Result<(), AllocError>
    requires none { labels.old.items ≡ [] }
    ensures { OnOk result (AreLabels (map user_of users.now) 0 plans.now labels.new.items) }
{
    let Some((plan, front)) = plans.split_last() else {
        return Ok(());
    };
    add_labels(alloc, front, users, labels)?;
    let mut workers = Vec::new(alloc);
    add_entries(users, front.len(), &mut workers)?;
    labels.push(ChannelLabel {
        name: plan.name.clone()?,
        workers,
    })?;
    Ok(())
}

/// The channels of a plan by name, in order, with the workers that use each.
pub(crate) fn labels_of<K, C>(
    alloc: Global,
    plan: &Plan,
    keepers: &[KeepSeat<C>],
    rows: &[SinkRow],
    listeners: &[Seat<K, C>],
    lines: &[Seat<K, C>],
) -> Result<Vec<ChannelLabel>, AllocError>
    ensures { IfOk result (λ labels. AreLabels (users_of plan.now keepers.now rows.now listeners.now
        lines.now) 0
        plan.now.channels.items labels.items) }
{
    let users = users_of(alloc, plan, keepers, rows, listeners, lines)?;
    let mut labels = Vec::new(alloc);
    add_labels(
        alloc,
        plan.channels.as_slice(),
        users.as_slice(),
        &mut labels,
    )?;
    Ok(labels)
}

/// Puts the passes of channels to their labels, in order. The list has room for them: so it takes no memory.
pub fn add_ends(labels: Vec<ChannelLabel>, passes: Vec<Pass>, ends: &mut Vec<ChannelEnd>)
    requires many { length labels.items ≡ length passes.items }
    requires room { IsEmptyFor (length labels.items) ends.old }
    ensures passes { map (λ end. end.pass) ends.new.items ≡ passes.items }
    ensures labels { map label_of ends.new.items ≡ labels.items }
    ensures room { vec_capacity ends.old ≤ vec_capacity ends.new }
{
    let mut others = labels;
    let mut left = passes;
    let Some(label) = others.pop() else {
        return;
    };
    let Some(pass) = left.pop() else {
        unreachable!()
    };
    add_ends(others, left, ends);
    ends.push_reserved(ChannelEnd {
        name: label.name,
        pass,
        workers: label.workers,
    });
}
