// The workers of a run are made of what was opened, each with a pass of each of its channels.
ghost use Rattle.std.specs.Prelude.{◌≡◌, ◌≤◌, [], All, flat_map, length, map};
ghost use Rattle.std.specs.Vec.{vec_capacity};
ghost use Rattle.agent_drafts.specs.Drafts.{TakesLines};
ghost use Rattle.run_tracks.specs.Deals.{Deals, DealsEach, Suffice, hands_of};
ghost use Rattle.run_tracks.specs.Places.{Zips};
ghost use Rattle.run_opening.specs.Staff.{IsKeepOf, IsLineOf, IsListenOf, IsRoomy, IsSinkOf, keep_channels, keep_ports, line_channels, line_ports, listen_channels, listen_ports, own_talk, seat_channels, sink_channels, sink_ports};

use crate::seats::{KeepSeat, Seat};
use agent_drafts::SourceDraft;
use grouped_sinks::SinkRow;
use keep_worker::KeepWorker;
use line_worker::LineWorker;
use run_staff::LineEnded;
use run_tracks::{deal, draw};
use shared_channel::Pass;
use sink_worker::SinkWorker;
use source_worker::{ListenWorker, SessionRules};
use std::alloc::Global;
use std::marker::PhantomData;

/// Makes the workers of channels on disks, in order, each with a pass of its channel. The list has room for them: so it takes no memory,
/// and no pass is lost.
pub(crate) fn staff_keepers<C: Drop>(
    hands: &mut [Vec<Pass>],
    seats: Vec<KeepSeat<C>>,
    jobs: &mut Vec<KeepWorker<Pass, C>>,
)
    requires enough { Suffice (hands_of hands.old) (map (λ seat. seat.channel) seats.items) }
    requires none { jobs.old.items ≡ [] }
    requires room { length seats.items ≤ vec_capacity jobs.old }
    ensures dealt { DealsEach keep_channels keep_ports (hands_of hands.old) jobs.new.items
        (hands_of hands.new) }
    ensures of { Zips IsKeepOf seats.items jobs.new.items }
    ensures room { vec_capacity jobs.old ≤ vec_capacity jobs.new }
{
    let mut others = seats;
    let Some(seat) = others.pop() else {
        return;
    };
    staff_keepers(hands, others, jobs);
    let KeepSeat {
        channel,
        interval,
        clock,
    } = seat;
    let port = draw(hands, channel);
    jobs.push_reserved(KeepWorker {
        port,
        channel,
        interval,
        clock,
    });
}

/// Makes the workers of the rows of sinks of a plan, in order, each with a pass of its channel. The list has room for them: so it takes no
/// memory, and no pass is lost.
pub(crate) fn staff_sinks<S: Drop, C: Drop>(
    alloc: Global,
    hands: &mut [Vec<Pass>],
    plans: &[SinkRow],
    sinks: Vec<S>,
    clocks: Vec<C>,
    jobs: &mut Vec<SinkWorker<Pass, S, C>>,
)
    requires sinks { length sinks.items ≡ length plans.now }
    requires clocks { length clocks.items ≡ length plans.now }
    requires some { All (λ plan. 1 ≤ plan.batch) plans.now }
    requires enough { Suffice (hands_of hands.old) (map (λ plan. plan.channel) plans.now) }
    requires none { jobs.old.items ≡ [] }
    requires room { length plans.now ≤ vec_capacity jobs.old }
    ensures dealt { DealsEach sink_channels sink_ports (hands_of hands.old) jobs.new.items
        (hands_of hands.new) }
    ensures of { Zips IsSinkOf plans.now jobs.new.items }
    ensures sinks { map (λ job. job.sink) jobs.new.items ≡ sinks.items }
    ensures room { vec_capacity jobs.old ≤ vec_capacity jobs.new }
{
    let Some((plan, front)) = plans.split_last() else {
        return;
    };
    let mut others = sinks;
    let mut left = clocks;
    let Some(sink) = others.pop() else {
        unreachable!()
    };
    let Some(clock) = left.pop() else {
        unreachable!()
    };
    staff_sinks(alloc, hands, front, others, left, jobs);
    let port = draw(hands, plan.channel);
    jobs.push_reserved(SinkWorker {
        alloc,
        port,
        channel: plan.channel,
        sink,
        batch: plan.batch,
        clock,
    });
}

// Makes the worker of a listener, with a pass of each of its channels.
fn staff_listener<N: Drop, C: Drop, K: Drop>(
    alloc: Global,
    hands: &mut [Vec<Pass>],
    seat: Seat<K, C>,
    listener: N,
) -> ListenWorker<Pass, N, C, K>
    requires room { IsRoomy seat }
    requires enough { Suffice (hands_of hands.old) (seat_channels seat) }
    ensures dealt { Deals (hands_of hands.old) (listen_channels result) (listen_ports result)
        (hands_of hands.new) }
    ensures of { IsListenOf seat result }
    ensures listener { result.listener ≡ listener }
{
    let Seat {
        draft,
        ports,
        clock,
    } = seat;
    let SourceDraft {
        source: _,
        place: _,
        channels,
        plan,
        selector,
        host,
        rules,
    } = draft;
    let mut ports = ports;
    deal(hands, channels.as_slice(), &mut ports);
    ListenWorker {
        alloc,
        ports,
        channels,
        plan,
        selector,
        host,
        rules,
        listener,
        clock,
        of: PhantomData,
    }
}

/// Makes the workers of listeners, in order, each with a pass of each of its channels. The list has room for them: so it takes no
/// memory, and no pass is lost.
pub(crate) fn staff_listeners<N: Drop, C: Drop, K: Drop>(
    alloc: Global,
    hands: &mut [Vec<Pass>],
    seats: Vec<Seat<K, C>>,
    listeners: Vec<N>,
    jobs: &mut Vec<ListenWorker<Pass, N, C, K>>,
)
    requires listeners { length listeners.items ≡ length seats.items }
    requires rooms { All IsRoomy seats.items }
    requires enough { Suffice (hands_of hands.old) (flat_map seat_channels seats.items) }
    requires none { jobs.old.items ≡ [] }
    requires room { length seats.items ≤ vec_capacity jobs.old }
    ensures dealt { DealsEach listen_channels listen_ports (hands_of hands.old) jobs.new.items
        (hands_of hands.new) }
    ensures of { Zips IsListenOf seats.items jobs.new.items }
    ensures listeners { map (λ job. job.listener) jobs.new.items ≡ listeners.items }
    ensures room { vec_capacity jobs.old ≤ vec_capacity jobs.new }
{
    let mut others = seats;
    let mut rest = listeners;
    let Some(seat) = others.pop() else {
        return;
    };
    let Some(listener) = rest.pop() else {
        unreachable!()
    };
    staff_listeners(alloc, hands, others, rest, jobs);
    jobs.push_reserved(staff_listener(alloc, hands, seat, listener));
}

// Makes a worker of lines, with a pass of each of its channels.
fn staff_line<I: Drop, O: Drop, C: Drop, K: Drop>(
    alloc: Global,
    hands: &mut [Vec<Pass>],
    seat: Seat<K, C>,
    talk: LineEnded<I, O>,
) -> LineWorker<Pass, I, O, C, K>
    requires room { IsRoomy seat }
    requires lines { TakesLines seat.draft.rules }
    requires enough { Suffice (hands_of hands.old) (seat_channels seat) }
    ensures dealt { Deals (hands_of hands.old) (line_channels result) (line_ports result)
        (hands_of hands.new) }
    ensures of { IsLineOf seat result }
    ensures talk { own_talk result ≡ talk }
{
    let Seat {
        draft,
        ports,
        clock,
    } = seat;
    let SourceDraft {
        source: _,
        place: _,
        channels,
        plan,
        selector,
        host,
        rules,
    } = draft;
    let SessionRules::Lines(rules) = rules else {
        unreachable!()
    };
    let LineEnded { input, output, end } = talk;
    let mut ports = ports;
    deal(hands, channels.as_slice(), &mut ports);
    LineWorker {
        alloc,
        ports,
        channels,
        plan,
        selector,
        host,
        rules,
        input,
        output,
        clock: Some(clock),
        end,
        of: PhantomData,
    }
}

/// Makes the workers of lines, in order, each with a pass of each of its channels. The list has room for them: so it takes no
/// memory, and no pass is lost.
pub(crate) fn staff_lines<I: Drop, O: Drop, C: Drop, K: Drop>(
    alloc: Global,
    hands: &mut [Vec<Pass>],
    seats: Vec<Seat<K, C>>,
    talks: Vec<LineEnded<I, O>>,
    jobs: &mut Vec<LineWorker<Pass, I, O, C, K>>,
)
    requires talks { length talks.items ≡ length seats.items }
    requires rooms { All IsRoomy seats.items }
    requires lines { All (λ seat. TakesLines seat.draft.rules) seats.items }
    requires enough { Suffice (hands_of hands.old) (flat_map seat_channels seats.items) }
    requires none { jobs.old.items ≡ [] }
    requires room { length seats.items ≤ vec_capacity jobs.old }
    ensures dealt { DealsEach line_channels line_ports (hands_of hands.old) jobs.new.items
        (hands_of hands.new) }
    ensures of { Zips IsLineOf seats.items jobs.new.items }
    ensures talks { map (λ job. own_talk job) jobs.new.items ≡ talks.items }
    ensures room { vec_capacity jobs.old ≤ vec_capacity jobs.new }
{
    let mut others = seats;
    let mut rest = talks;
    let Some(seat) = others.pop() else {
        return;
    };
    let Some(talk) = rest.pop() else {
        unreachable!()
    };
    staff_lines(alloc, hands, others, rest, jobs);
    jobs.push_reserved(staff_line(alloc, hands, seat, talk));
}
