// What is kept for the rows of a run until their sinks are there.
ghost use Rattle.std.specs.Prelude.{◌≡◌, ◌<◌, All, IfOk, Some, length, slice_get};
ghost use Rattle.grouped_sinks.specs.Frames.{HasGroup, IsFit, IsFrame, IsFrameOf, IsNewGroup, kind_of};
ghost use Rattle.grouped_sinks.specs.Rows.{Zips};

use crate::row::SinkRow;
use agent_plan::{GroupPlan, Processor};
use flume_host::Host;
use sink_groups::{GroupKind, GroupRules, Schedule};
use std::alloc::{AllocError, Global};

/// What is kept for a row until its sinks are there: so that they are grouped without memory.
#[derive(Drop)]
pub enum Frame<S, N> {
    /// The row is of one sink.
    Alone,
    /// It is of a group.
    Group {
        /// How its members are tried.
        schedule: Schedule,
        /// Room for them.
        room: Vec<S>,
        /// Chance.
        random: N,
    },
}

// How a group chooses, by its plan.
fn kind_of(processor: Processor) -> GroupKind
    ensures { result ≡ kind_of processor }
{
    match processor {
        Processor::Single => GroupKind::Single,
        Processor::Failover => GroupKind::Failover,
        Processor::RoundRobin => GroupKind::RoundRobin,
        Processor::Random => GroupKind::Random,
    }
}

// The schedule of the group at this place. Without numbers for so many members there is no memory for them.
fn schedule_of(
    alloc: Global,
    groups: &[GroupPlan],
    at: usize,
    many: usize,
) -> Result<Schedule, AllocError>
    requires at { at < length groups.now }
    requires some { 0 < many }
    requires many { (group : _) → slice_get groups.now at ≡ Some group → length
        group.priorities.items ≡ many }
    ensures new { IfOk result (IsNewGroup groups.now at) }
    ensures many { IfOk result (λ schedule. many ≡ length schedule.members) }
{
    let group = &groups[at];
    if many > u32::MAX as usize {
        return Err(AllocError);
    }
    let rules = GroupRules {
        kind: kind_of(group.processor),
        priorities: Vec::from_slice(alloc, group.priorities.as_slice())?,
        penalty: group.penalty,
        backoff: group.backoff,
    };
    Schedule::new(alloc, &rules)
}

// What is kept for a row.
fn frame_of<H: Host, S: Drop>(
    alloc: Global,
    host: &mut H,
    groups: &[GroupPlan],
    row: &SinkRow,
) -> Result<Frame<S, H::Random>, AllocError>
    requires { IsFit groups.now row.now }
    ensures frame { IfOk result (IsFrameOf groups.now row.now) }
    ensures state { H.state host.new ≡ H.state host.old }
    ensures folders { H.folders host.new ≡ H.folders host.old }
{
    match row.group {
        None => Ok(Frame::Alone),
        Some(at) => {
            let many = row.places.len();
            let schedule = schedule_of(alloc, groups, at, many)?;
            let room = Vec::with_capacity(alloc, many)?;
            Ok(Frame::Group {
                schedule,
                room,
                random: host.random(),
            })
        }
    }
}

/// What is kept for these rows, in order.
pub fn frames_of<H: Host, S: Drop>(
    alloc: Global,
    host: &mut H,
    groups: &[GroupPlan],
    rows: &[SinkRow],
) -> Result<Vec<Frame<S, H::Random>>, AllocError>
    requires { All (IsFit groups.now) rows.now }
    ensures frames { IfOk result (λ frames. Zips (IsFrameOf groups.now) rows.now frames.items) }
    ensures state { H.state host.new ≡ H.state host.old }
    ensures folders { H.folders host.new ≡ H.folders host.old }
{
    let mut frames = Vec::new(alloc);
    for row in rows {
        frames.push(frame_of(alloc, host, groups, row)?)?;
    }
    Ok(frames)
}
