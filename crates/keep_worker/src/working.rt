// What the worker of a channel on a disk does.
ghost use Rattle.flume_host.specs.Causes.{Rose};
ghost use Rattle.keep_worker.specs.Rounds.{face};
ghost use Rattle.keep_worker.specs.Workers.{CanKeep, KeepRan};

use crate::worker::KeepWorker;
use channel_face::KeepFace;
use crew::{Stop, Watch, Work, rest};
use flume_host::{Clock, Halt};
use std::sync::Wait;

impl<F: KeepFace, C: Clock> KeepWorker<F, C> {
    /// Makes one round after the other until it is told to stop: it pauses for the interval before each, asks between the
    /// pieces of each pause, and ends for nothing else.
    pub fn work_until<R: Wait, H: Halt>(&mut self, rt: &R, halt: &mut H)
        requires { CanKeep F.on_disk F.kept self.old }
        ensures ran { KeepRan (face F.own F.saw F.seen F.kept F.on_disk F.saw_laid F.saw_pruned)
            self.old self.new }
        ensures stop { Rose (H.yes halt.old) (H.yes halt.new) }
    {
        for _ in rt.forever() {
            if rest(&mut self.clock, halt, self.interval) {
                return;
            }
            let _upkeep = self.round();
        }
        unreachable!()
    }
}

/// It works until it finds the stop set, as [`KeepWorker::work_until`].
impl<F: KeepFace, C: Clock> Work for KeepWorker<F, C> {
    ghost ready = { λ w. CanKeep F.on_disk F.kept w };

    ghost ran = { λ old new. KeepRan
        (face F.own F.saw F.seen F.kept F.on_disk F.saw_laid F.saw_pruned) old new };

    fn work<R: Wait>(&mut self, rt: &R, stop: &Stop) {
        let mut watch = Watch::new(stop);
        self.work_until(rt, &mut watch);
    }
}
