// A sink empties its channel through the pass at home.
ghost use Rattle.std.specs.Prelude.{◌≡◌, ◌≤◌, []};
ghost use Rattle.agent_end.specs.declared.draining.ChannelDrain.TheVariants as drains;
ghost use Rattle.run_tracks.specs.Drained.{IsDrainedInTrack};
ghost use Rattle.shared_channel.specs.Calls.{state_seen};
ghost use Rattle.shared_channel.specs.Ports.{Later};
ghost use Rattle.sink_worker.specs.Rounds.{told};
ghost use Rattle.two_channels.specs.Shares.{table_of};

use agent_end::{ChannelDrain, drain_channel};
use channel_face::{Channel, Reopen};
use flume_host::Clock;
use plug_in::EventSink;
use shared_channel::{Carries, Pass};
use sink_worker::SinkWorker;
use std::alloc::Global;
use std::sync::Wait;
use two_channels::EitherShared;

/// A sink that was run to empty its channel, and the pass through which it was.
#[derive(Drop)]
pub struct DrainedSink<S, C> {
    /// How the draining ended.
    pub end: ChannelDrain,
    /// The pass.
    pub pass: Pass,
    /// The sink.
    pub sink: S,
    /// The clock that gave the runs' moments.
    pub clock: C,
}

/// A sink empties its channel through a pass that may have further numbers, as [`drain_channel`]. Its runs carry the number that
/// the pass carries, and are all calls with that number since then, in order and no others.
pub fn drain_home<R: Wait, A: Reopen, B: Channel, S: EventSink, C: Clock>(
    rt: &R,
    alloc: Global,
    share: &EitherShared<A, B>,
    home: Pass,
    sink: S,
    batch: u32,
    clock: C,
) -> DrainedSink<S, C>
    requires table { home.table_id ≡ table_of share.now }
    requires some { 1 ≤ batch }
    ensures later { Later home result.pass }
    ensures track { IsDrainedInTrack (told S.delivers S.faults) batch result.end
        (record { from = home; sink = sink; moments = C.moments clock })
        (record { from = result.pass; sink = result.sink; moments = C.moments result.clock }) }
    ensures none { result.end ≡ drains.Emptied → (state_seen result.pass.view).items ≡ [] }
{
    let mut worker = SinkWorker {
        alloc,
        port: share.port(rt, home),
        channel: 0,
        sink,
        batch,
        clock,
    };
    let end = drain_channel(rt, &mut worker);
    let SinkWorker {
        alloc: _,
        port,
        channel: _,
        sink,
        batch: _,
        clock,
    } = worker;
    DrainedSink {
        end,
        pass: port.into_pass(),
        sink,
        clock,
    }
}
