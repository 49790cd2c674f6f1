// One round of a sink's worker.
ghost use Rattle.std.specs.Prelude.{◌≡◌};
ghost use Rattle.sink_worker.specs.Rounds.{MendsOnce, Round, TurnsOnce, face, told};
ghost use Rattle.sink_worker.specs.Workers.{taking};

use crate::answers::needs_mend;
use crate::worker::SinkWorker;
use channel_face::{MendFace, TakeFace, mend};
use flume_host::Clock;
use plug_in::EventSink;
use sink_runner::{Turn, drain_turn};

impl<F: TakeFace + MendFace, S: EventSink, C: Clock> SinkWorker<F, S, C> {
    /// One run of the sink at the next moment.
    pub fn run_once(&mut self) -> Turn
        ensures turns { TurnsOnce
            (face F.own F.saw F.seen F.kept)
            (told S.delivers S.faults) self.old.batch
            (taking C.moments self.old) result (taking C.moments self.new) }
        ensures same { (self.new.channel ≡ self.old.channel) × (self.new.batch ≡ self.old.batch) }
    {
        let moment = self.clock.now();
        drain_turn(
            self.alloc,
            &mut self.port,
            &mut self.sink,
            self.batch,
            moment,
        )
    }

    /// One run of the sink, and a mend of its channel where the run met a broken one or left its
    /// commit in doubt.
    pub(crate) fn round(&mut self) -> Turn
        ensures round { Round
            (TurnsOnce
            (face F.own F.saw F.seen F.kept)
            (told S.delivers S.faults) self.old.batch)
            (MendsOnce
            (face F.own F.saw F.seen F.kept)
            F.on_disk)
            (taking C.moments self.old) result (taking C.moments self.new) }
        ensures same { (self.new.channel ≡ self.old.channel) × (self.new.batch ≡ self.old.batch) }
    {
        let turn = self.run_once();
        if needs_mend(&turn) {
            let _mended = mend(&mut self.port);
        }
        turn
    }
}
