// What a run opens outside its channels.
ghost use Rattle.std.specs.Prelude.{◌≡◌, ◌≤◌, [], All, IfErr, IfOk, length, map, reverse};
ghost use Rattle.std.specs.Vec.{vec_capacity};
ghost use Rattle.agent_outside.specs.Ends.{AreOut, ListensAt, end_at};
ghost use Rattle.agent_outside.specs.Listening.{IsFresh};
ghost use Rattle.plan_objects.specs.Asks.{HaveObjects};
ghost use Rattle.run_opening.specs.Lists.{IsEmptyFor};
ghost use Rattle.grouped_sinks.specs.Frames.{IsFrameOf};
ghost use Rattle.grouped_sinks.specs.Rows.{AreBelow, Zips, places_of};
ghost use Rattle.plan_laws.specs.Once.{AreDistinct};
ghost use Rattle.run_opening.specs.Outside.{AreBack, AreFrom, IsGrouped, IsOutside, LeavesDisks, OutsideRefused, WithPlaces};

use agent_outside::{
    SourceListener, give_back_listeners, give_back_sinks, open_listeners, open_sinks,
};
use agent_plan::{GroupPlan, Plan, SourcePlan};
use agent_sinks::AgentSink;
use avro_ends::{AvroSink, HasDialer};
use flume_host::{Host, NameRefused, Random, RollDir};
use grouped_sinks::{Frame, Runner, SinkRow, group_sinks};
use plug_in::EventSink;
use std::alloc::Global;

/// The sinks of a run, or what drives the rows of them, and its listeners.
#[derive(Drop)]
pub struct Outside<S, N> {
    /// The sinks, in the order of the plan, or what drives their rows, in the order of those.
    pub sinks: Vec<S>,
    /// The listeners, in the order of their sources.
    pub listeners: Vec<N>,
}

/// What drives the rows of sinks, the listeners, and the list that the sinks come back into.
#[derive(Drop)]
pub struct Grouped<S, G, N> {
    /// What drives the rows, and the listeners.
    pub outside: Outside<G, N>,
    /// A place for each sink, in the order of the plan.
    pub places: Vec<S>,
}

/// Hands the sinks to their rows. The list has room for what drives them: so it takes no memory.
pub fn group_outside<R: RollDir + Drop, A: EventSink, B: EventSink, C: Random + Drop, N: Drop>(
    alloc: Global,
    groups: &[GroupPlan],
    rows: &[SinkRow],
    frames: Vec<Frame<AgentSink<R, A, B>, C>>,
    outside: Outside<AgentSink<R, A, B>, N>,
    room: Vec<Runner<AgentSink<R, A, B>, C>>,
) -> Grouped<AgentSink<R, A, B>, Runner<AgentSink<R, A, B>, C>, N>
    requires frames { Zips (IsFrameOf groups.now) rows.now frames.items }
    requires once { AreDistinct (places_of rows.now) }
    requires within { AreBelow (length outside.sinks.items) (places_of rows.now) }
    requires room { IsEmptyFor (length rows.now) room }
    ensures { IsGrouped groups.now rows.now outside result }
{
    let Outside { sinks, listeners } = outside;
    let mut places = sinks;
    let mut runners = room;
    group_sinks(
        alloc,
        groups,
        rows,
        frames,
        places.as_mut_slice(),
        &mut runners,
    );
    Grouped {
        outside: Outside {
            sinks: runners,
            listeners,
        },
        places,
    }
}

// Takes the listeners out of those of sources, in order. The list has room for them.
fn bare<N: Drop>(named: Vec<SourceListener<N>>, listeners: &mut Vec<N>)
    requires none { listeners.old.items ≡ [] }
    requires room { length named.items ≤ vec_capacity listeners.old }
    ensures bare { listeners.new.items ≡ map (λ l. l.listener) named.items }
    ensures room { vec_capacity listeners.old ≤ vec_capacity listeners.new }
{
    let mut others = named;
    let Some(
        SourceListener {
            source: _,
            listener,
        },
    ) = others.pop()
    else {
        return;
    };
    bare(others, listeners);
    listeners.push_reserved(listener);
}

// Puts each listener together with the place of its source, in order. The list has room for them.
fn with_places<N: Drop>(places: &[usize], listeners: Vec<N>, named: &mut Vec<SourceListener<N>>)
    requires many { length listeners.items ≡ length places.now }
    requires none { named.old.items ≡ [] }
    requires room { length listeners.items ≤ vec_capacity named.old }
    ensures with { WithPlaces places.now listeners.items named.new.items }
    ensures room { vec_capacity named.old ≤ vec_capacity named.new }
{
    let mut others = listeners;
    let Some(listener) = others.pop() else {
        return;
    };
    let Some((source, front)) = places.split_last() else {
        return;
    };
    with_places(front, others, named);
    named.push_reserved(SourceListener {
        source: *source,
        listener,
    });
}

/// Opens the sinks of a plan, which take these objects, the last sink's first in the list, and then its listeners, of the sources at these
/// places. At a refusal all that was opened is given back, unused; `Failed` comes only where the host has counted a fault. The list has
/// room for the listeners.
pub fn open_outside<H: Host, B: Drop>(
    alloc: Global,
    host: &mut H,
    plan: &Plan,
    objects: Vec<Option<B>>,
    places: &[usize],
    room: Vec<H::Listener>,
) -> Result<Outside<AgentSink<H::Roll, AvroSink<H::Dialer>, B>, H::Listener>, NameRefused>
    requires have { HaveObjects plan.now.sinks.items (reverse objects.items) }
    requires listen { All (ListensAt plan.now.sources.items) places.now }
    requires room { IsEmptyFor (length places.now) room }
    ensures opened { IfOk result (λ outside. IsOutside H.Roll.rolled H.Roll.faults
        ⟦<AvroSink<H::Dialer> as HasDialer>⟧.dial
        (IsFresh H.Listener.told H.Listener.endpoint H.Listener.waits H.Listener.faults)
        plan.now (reverse objects.items) places.now
        (record { state = H.state host.old; folders = H.folders host.old })
        (record { state = H.state host.new; folders = H.folders host.new })
        outside.sinks.items outside.listeners.items) }
    ensures refused { IfErr result (λ refused. OutsideRefused plan.now places.now refused
        (record { state = H.state host.old; folders = H.folders host.old })
        (record { state = H.state host.new; folders = H.folders host.new })) }
    ensures disks { LeavesDisks (H.folders host.old) (H.folders host.new) }
{
    let plans = plan.sinks.as_slice();
    let sinks = match open_sinks(alloc, host, plans, objects) {
        Ok(sinks) => sinks,
        Err(refused) => return Err(refused),
    };
    match open_listeners(alloc, host, plan.sources.as_slice(), places) {
        Ok(named) => {
            let mut listeners = room;
            bare(named, &mut listeners);
            Ok(Outside { sinks, listeners })
        }
        Err(refused) => {
            give_back_sinks(host, plans, sinks);
            Err(refused)
        }
    }
}

/// Gives the listeners of the sources at these places back. The list has room for them.
pub fn give_listeners<H: Host>(
    host: &mut H,
    sources: &[SourcePlan],
    places: &[usize],
    listeners: Vec<H::Listener>,
    room: Vec<SourceListener<H::Listener>>,
)
    requires from { AreFrom H.Listener.endpoint sources.now places.now listeners.items }
    requires listen { All (ListensAt sources.now) places.now }
    requires out { AreOut (map (end_at sources.now) places.now) (H.state host.old).listeners }
    requires room { IsEmptyFor (length places.now) room }
    ensures back { AreBack H.Listener.told H.Listener.waits H.Listener.faults sources.now places.now
        listeners.items (H.state host.old) (H.state host.new) }
    ensures folders { H.folders host.new ≡ H.folders host.old }
{
    let mut named = room;
    with_places(places, listeners, &mut named);
    give_back_listeners(host, sources, named);
}
