// Sinks are handed to the rows of a run, and come back in the order of their plan.
ghost use Rattle.std.specs.Prelude.{◌≡◌, ◌≤◌, [], length};
ghost use Rattle.std.specs.Vec.{vec_capacity};
ghost use Rattle.grouped_sinks.specs.Frames.{IsFrameOf, IsNewRunner};
ghost use Rattle.grouped_sinks.specs.Picks.{AreDealt, AreNewRunners, ArePicked, HaveMembers, KeepsOthers};
ghost use Rattle.grouped_sinks.specs.Rows.{AreBelow, Zips, places_of};
ghost use Rattle.plan_laws.specs.Once.{AreDistinct};
ghost use Rattle.grouped_sinks.specs.Runners.{members_of};

use crate::frame::Frame;
use crate::row::SinkRow;
use crate::runner::Runner;
use agent_plan::GroupPlan;
use agent_sinks::AgentSink;
use flume_host::{Random, RollDir};
use plug_in::EventSink;
use sink_groups::{GroupRun, GroupSink};
use sink_runner::NullSink;
use std::alloc::Global;
use std::mem;

// Takes the sinks at these places, in order. A sink that drops what it is handed stands in the place of each.
fn take_sinks<R: RollDir + Drop, A: EventSink, B: EventSink>(
    sinks: &mut [AgentSink<R, A, B>],
    places: &[u32],
    members: &mut Vec<AgentSink<R, A, B>>,
)
    requires once { AreDistinct places.now }
    requires within { AreBelow (length sinks.old) places.now }
    requires none { members.old.items ≡ [] }
    requires room { length places.now ≤ vec_capacity members.old }
    ensures picked { ArePicked sinks.old places.now members.new.items }
    ensures others { KeepsOthers places.now sinks.old sinks.new }
    ensures room { vec_capacity members.old ≤ vec_capacity members.new }
{
    let Some((place, front)) = places.split_last() else {
        return;
    };
    take_sinks(sinks, front, members);
    let place = *place as usize;
    if place >= sinks.len() {
        unreachable!()
    }
    let taken = mem::replace(&mut sinks[place], AgentSink::Null(NullSink));
    members.push_reserved(taken);
}

// The runner of a row, with its sinks.
fn runner_of<R: RollDir + Drop, A: EventSink, B: EventSink, N: Random + Drop>(
    alloc: Global,
    groups: &[GroupPlan],
    row: &SinkRow,
    frame: Frame<AgentSink<R, A, B>, N>,
    sinks: &mut [AgentSink<R, A, B>],
) -> Runner<AgentSink<R, A, B>, N>
    requires frame { IsFrameOf groups.now row.now frame }
    requires once { AreDistinct row.now.places.items }
    requires within { AreBelow (length sinks.old) row.now.places.items }
    ensures picked { ArePicked sinks.old row.now.places.items (members_of result) }
    ensures new_one { IsNewRunner groups.now row.now.group result }
    ensures others { KeepsOthers row.now.places.items sinks.old sinks.new }
{
    let places = row.places.as_slice();
    match frame {
        Frame::Alone => {
            let stand_in = AgentSink::Null(NullSink);
            Runner::Alone(mem::replace(&mut sinks[places[0] as usize], stand_in))
        }
        Frame::Group {
            schedule,
            room,
            random,
        } => {
            let mut members = room;
            take_sinks(sinks, places, &mut members);
            let run = GroupRun::of(alloc, schedule, members);
            Runner::Group(GroupSink::new(run, random))
        }
    }
}

/// Hands sinks, which stand in the order of their plan, to the rows of a run: each row gets a runner with the sinks at its places, in
/// order. Sinks that drop what they are handed stand in their places. The list has room: so it takes no memory, and no sink is lost.
pub fn group_sinks<R: RollDir + Drop, A: EventSink, B: EventSink, N: Random + Drop>(
    alloc: Global,
    groups: &[GroupPlan],
    rows: &[SinkRow],
    frames: Vec<Frame<AgentSink<R, A, B>, N>>,
    sinks: &mut [AgentSink<R, A, B>],
    runners: &mut Vec<Runner<AgentSink<R, A, B>, N>>,
)
    requires frames { Zips (IsFrameOf groups.now) rows.now frames.items }
    requires once { AreDistinct (places_of rows.now) }
    requires within { AreBelow (length sinks.old) (places_of rows.now) }
    requires none { runners.old.items ≡ [] }
    requires room { length rows.now ≤ vec_capacity runners.old }
    ensures dealt { AreDealt sinks.old rows.now runners.new.items }
    ensures new_ones { AreNewRunners groups.now rows.now runners.new.items }
    ensures others { KeepsOthers (places_of rows.now) sinks.old sinks.new }
    ensures room { vec_capacity runners.old ≤ vec_capacity runners.new }
{
    let mut kept = frames;
    let Some(frame) = kept.pop() else {
        return;
    };
    let Some((row, front)) = rows.split_last() else {
        return;
    };
    group_sinks(alloc, groups, front, kept, sinks, runners);
    runners.push_reserved(runner_of(alloc, groups, row, frame, sinks));
}

// Puts sinks back at these places, in order.
fn put_sinks<R: RollDir + Drop, A: EventSink, B: EventSink>(
    sinks: &mut [AgentSink<R, A, B>],
    places: &[u32],
    members: Vec<AgentSink<R, A, B>>,
)
    requires many { length places.now ≡ length members.items }
    requires once { AreDistinct places.now }
    requires within { AreBelow (length sinks.old) places.now }
    ensures picked { ArePicked sinks.new places.now members.items }
    ensures others { KeepsOthers places.now sinks.old sinks.new }
{
    let mut others = members;
    let Some(sink) = others.pop() else {
        return;
    };
    let Some((place, front)) = places.split_last() else {
        return;
    };
    put_sinks(sinks, front, others);
    let place = *place as usize;
    if place >= sinks.len() {
        unreachable!()
    }
    sinks[place] = sink;
}

// Puts the sinks of a runner back.
fn put_runner<R: RollDir + Drop, A: EventSink, B: EventSink, N: Random + Drop>(
    sinks: &mut [AgentSink<R, A, B>],
    places: &[u32],
    runner: Runner<AgentSink<R, A, B>, N>,
)
    requires many { length places.now ≡ length (members_of runner) }
    requires once { AreDistinct places.now }
    requires within { AreBelow (length sinks.old) places.now }
    ensures picked { ArePicked sinks.new places.now (members_of runner) }
    ensures others { KeepsOthers places.now sinks.old sinks.new }
{
    match runner {
        Runner::Alone(sink) => sinks[places[0] as usize] = sink,
        Runner::Group(group) => put_sinks(sinks, places, group.close()),
    }
}

/// The sinks of the rows of a run come back in the order of their plan. It takes no memory, and no sink is lost.
pub fn ungroup_sinks<R: RollDir + Drop, A: EventSink, B: EventSink, N: Random + Drop>(
    rows: &[SinkRow],
    runners: Vec<Runner<AgentSink<R, A, B>, N>>,
    sinks: &mut [AgentSink<R, A, B>],
)
    requires members { HaveMembers rows.now runners.items }
    requires once { AreDistinct (places_of rows.now) }
    requires within { AreBelow (length sinks.old) (places_of rows.now) }
    ensures dealt { AreDealt sinks.new rows.now runners.items }
    ensures others { KeepsOthers (places_of rows.now) sinks.old sinks.new }
{
    let mut others = runners;
    let Some(runner) = others.pop() else {
        return;
    };
    let Some((row, front)) = rows.split_last() else {
        return;
    };
    ungroup_sinks(front, others, sinks);
    put_runner(sinks, row.places.as_slice(), runner);
}
