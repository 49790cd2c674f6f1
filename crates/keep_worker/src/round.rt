// One round of the worker of a channel on a disk.
ghost use Rattle.std.specs.Prelude.{◌≡◌};
ghost use Rattle.keep_worker.specs.Rounds.{Round, face};
ghost use Rattle.keep_worker.specs.Workers.{CanKeep};

use crate::answers::needs_mend;
use crate::keeping::{Upkeep, keep};
use crate::worker::KeepWorker;
use channel_face::{KeepFace, mend};

impl<F: KeepFace, C> KeepWorker<F, C> {
    /// A checkpoint, the removal of old files, and a mend of the channel where one of them met a broken channel or broke it.
    pub(crate) fn round(&mut self) -> Upkeep
        requires { CanKeep F.on_disk F.kept self.old }
        ensures round { Round (face F.own F.saw F.seen F.kept F.on_disk F.saw_laid F.saw_pruned)
            self.old.port result self.new.port }
        ensures can { CanKeep F.on_disk F.kept self.new }
        ensures same { (self.new.channel ≡ self.old.channel)
            × (self.new.interval ≡ self.old.interval) }
    {
        let upkeep = keep(&mut self.port);
        if needs_mend(&upkeep) {
            let _mended = mend(&mut self.port);
        }
        upkeep
    }
}
