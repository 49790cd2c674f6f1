// What a sink's worker does.
ghost use Rattle.flume_host.specs.Causes.{Rose};
ghost use Rattle.sink_worker.specs.Rounds.{MendsOnce, TurnsOnce, face, told};
ghost use Rattle.sink_worker.specs.Workers.{SinkRan};

use crate::answers::pause_after;
use crate::worker::SinkWorker;
use channel_face::{MendFace, TakeFace};
use crew::{Stop, Watch, Work, rest};
use flume_host::{Clock, Halt};
use plug_in::EventSink;
use std::sync::Wait;

impl<F: TakeFace + MendFace, S: EventSink, C: Clock> SinkWorker<F, S, C> {
    /// Makes one round after the other until it is told to stop: it asks before each, and between the pieces of each pause, and
    /// ends for nothing else. A round that delivered is followed by no pause, one that found no event by 100 milliseconds, and
    /// each other by 1,000.
    pub fn work_until<R: Wait, H: Halt>(&mut self, rt: &R, halt: &mut H)
        ensures ran { SinkRan
            (TurnsOnce
            (face F.own F.saw F.seen F.kept)
            (told S.delivers S.faults) self.old.batch)
            (MendsOnce
            (face F.own F.saw F.seen F.kept)
            F.on_disk)
            C.moments self.old self.new }
        ensures stop { Rose (H.yes halt.old) (H.yes halt.new) }
    {
        for _ in rt.forever() {
            if halt.asked() {
                return;
            }
            let turn = self.round();
            if rest(&mut self.clock, halt, pause_after(&turn)) {
                return;
            }
        }
        unreachable!()
    }
}

/// It works until it finds the stop set, as [`SinkWorker::work_until`].
impl<F: TakeFace + MendFace, S: EventSink, C: Clock> Work for SinkWorker<F, S, C> {
    ghost ready = { λ w. Unit {0} };

    ghost ran = { λ old new. SinkRan
        (TurnsOnce
        (face F.own F.saw F.seen F.kept)
        (told S.delivers S.faults) old.batch)
        (MendsOnce
        (face F.own F.saw F.seen F.kept)
        F.on_disk)
        C.moments old new };

    fn work<R: Wait>(&mut self, rt: &R, stop: &Stop) {
        let mut watch = Watch::new(stop);
        self.work_until(rt, &mut watch);
    }
}
