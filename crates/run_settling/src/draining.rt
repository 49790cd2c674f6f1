// Each sink empties its channel through the pass at home.
ghost use Rattle.std.specs.Prelude.{◌≡◌, ◌≤◌, All, true};
ghost use Rattle.std.specs.Vec.{vec_capacity};
ghost use Rattle.sink_worker.specs.Rounds.{told};
ghost use Rattle.channel_lock.specs.Calls.{has};
ghost use Rattle.channel_lock.specs.Turns.{HasAll};
ghost use Rattle.two_channels.specs.Shares.{table_of};
ghost use Rattle.run_tracks.specs.Homes.{AreHomes};
ghost use Rattle.run_settling.specs.Draining.{AreDrained, EachGoesOn, HasOwn, IsDrainedAt, IsDrainedHome, IsSinkHome, HasRoom};

use crate::at_home::AtHome;
use agent_end::ChannelDrain;
use channel_face::{Channel, Reopen};
use flume_host::Clock;
use plug_in::EventSink;
use run_tracks::{DrainedSink, drain_home};
use shared_channel::Pass;
use sink_worker::SinkWorker;
use std::sync::Wait;
use two_channels::EitherShared;

// A sink empties its channel through the pass at home, under the number of its worker. The pass then carries its own number again.
fn drain_through<R: Wait, A: Reopen, B: Channel, S: EventSink, C: Clock>(
    rt: &R,
    share: &EitherShared<A, B>,
    home: Pass,
    worker: SinkWorker<AtHome, S, C>,
) -> DrainedSink<S, C>
    requires table { home.table_id ≡ table_of share.now }
    requires own { HasOwn home }
    requires number { has home.view.numbers worker.port.number ≡ true }
    ensures { IsDrainedHome (told S.delivers S.faults) C.moments worker home result.end result.sink
        result.pass }
{
    let SinkWorker {
        alloc,
        port,
        channel: _,
        sink,
        batch,
        clock,
    } = worker;
    let own = home.number();
    let mut pass = home;
    pass.turn_to(port.number);
    let DrainedSink {
        end,
        pass: mut later,
        sink,
        clock,
    } = drain_home(rt, alloc, share, pass, sink, batch, clock);
    later.turn_to(own);
    DrainedSink {
        end,
        pass: later,
        sink,
        clock,
    }
}

// A sink that was run to empty its channel.
#[derive(Drop)]
struct Drained<S> {
    // How the draining ended.
    end: ChannelDrain,
    // The sink.
    sink: S,
}

// A sink empties its channel through the pass at home, which then is at its place again.
fn drain_at<R: Wait, A: Reopen, B: Channel, S: EventSink, C: Clock + Drop>(
    rt: &R,
    shares: &[EitherShared<A, B>],
    homes: &mut Vec<Pass>,
    worker: SinkWorker<AtHome, S, C>,
) -> Drained<S>
    requires homes { AreHomes table_of shares.now homes.old.items }
    requires own { All HasOwn homes.old.items }
    requires worker { IsSinkHome homes.old.items worker }
    ensures { IsDrainedAt (told S.delivers S.faults) C.moments worker homes.old.items result.end
        result.sink homes.new.items }
{
    let place = worker.channel as usize;
    let home = homes.remove(place);
    let DrainedSink {
        end,
        pass,
        sink,
        clock: _,
    } = drain_through(rt, &shares[place], home, worker);
    let Ok(()) = homes.insert(place, pass) else {
        unreachable!()
    };
    Drained { end, sink }
}

/// Each sink empties its channel, one after the other: it repeats its run through the pass at home, under the number of its
/// worker, until the channel is empty or a run doesn't deliver. How each ended and the sinks come back in their order, and the
/// passes at home keep their places and their own numbers. Both lists have room: so it takes no memory but that of the runs, and
/// no sink is lost.
pub fn drain_sinks<R: Wait, A: Reopen, B: Channel, S: EventSink, C: Clock + Drop>(
    rt: &R,
    shares: &[EitherShared<A, B>],
    homes: &mut Vec<Pass>,
    sinks: Vec<SinkWorker<AtHome, S, C>>,
    ends: &mut Vec<ChannelDrain>,
    back: &mut Vec<S>,
)
    requires homes { AreHomes table_of shares.now homes.old.items }
    requires all { All (λ p. HasAll p.view) homes.old.items }
    requires own { All HasOwn homes.old.items }
    requires sinks { All (IsSinkHome homes.old.items) sinks.items }
    requires ends { HasRoom sinks.items ends.old }
    requires back { HasRoom sinks.items back.old }
    ensures homes { AreHomes table_of shares.now homes.new.items }
    ensures all { All (λ p. HasAll p.view) homes.new.items }
    ensures own { All HasOwn homes.new.items }
    ensures later { EachGoesOn homes.old.items homes.new.items }
    ensures drained { AreDrained (IsDrainedAt (told S.delivers S.faults) C.moments)
        sinks.items homes.old.items ends.new.items back.new.items homes.new.items }
    ensures room { (vec_capacity ends.old ≤ vec_capacity ends.new)
        × (vec_capacity back.old ≤ vec_capacity back.new) }
{
    let mut others = sinks;
    let Some(worker) = others.pop() else {
        return;
    };
    drain_sinks(rt, shares, homes, others, ends, back);
    let Drained { end, sink } = drain_at(rt, shares, homes, worker);
    ends.push_reserved(end);
    back.push_reserved(sink);
}
