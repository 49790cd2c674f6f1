// A sink empties its channel.
ghost use Rattle.std.specs.Prelude.{◌≡◌};
ghost use Rattle.agent_end.specs.Drains.{Drains, LooksOnce, is_delivery};
ghost use Rattle.sink_worker.specs.Rounds.{TurnsOnce, face, told};
ghost use Rattle.sink_worker.specs.Workers.{taking};

use channel_face::{MendFace, TakeFace};
use flume_host::Clock;
use plug_in::EventSink;
use sink_runner::Turn;
use sink_worker::SinkWorker;
use std::sync::Wait;

/// How the draining of a channel by one of its sinks ended.
#[derive(Clone, Copy, Debug, PartialEq, Eq)]
pub enum ChannelDrain {
    /// No event was left in the channel.
    Emptied,
    /// A run of the sink came to this, and delivered nothing.
    Stopped(Turn),
}

fn is_delivery(turn: &Turn) -> bool
    ensures { result ≡ is_delivery turn.now }
{
    matches!(turn, Turn::Delivered { .. })
}

/// Runs the sink while events are left in its channel, up to its first run that doesn't deliver. Before each run it asks how
/// many events are left. It makes no pause, and no other call of the channel.
pub fn drain_channel<R: Wait, F: TakeFace + MendFace, S: EventSink, C: Clock>(
    rt: &R,
    worker: &mut SinkWorker<F, S, C>,
) -> ChannelDrain
    ensures drained { Drains
        (TurnsOnce
        (face F.own F.saw F.seen F.kept)
        (told S.delivers S.faults) worker.old.batch)
        (LooksOnce
        (face F.own F.saw F.seen F.kept))
        result (taking C.moments worker.old) (taking C.moments worker.new) }
    ensures same { (worker.new.channel ≡ worker.old.channel)
        × (worker.new.batch ≡ worker.old.batch) }
{
    for _ in rt.forever() {
        if worker.port.size() == 0 {
            return ChannelDrain::Emptied;
        }
        let turn = worker.run_once();
        if !is_delivery(&turn) {
            return ChannelDrain::Stopped(turn);
        }
    }
    unreachable!()
}
