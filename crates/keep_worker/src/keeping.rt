// A checkpoint, and the removal of old files after it.
ghost use Rattle.keep_worker.specs.Rounds.{Keeps, face};

use channel_face::{CheckRefused, KeepFace, PruneRefused};

/// What a channel answered those who keep it.
#[derive(Clone, Copy, Debug, PartialEq, Eq)]
pub struct Upkeep {
    /// Whether a checkpoint was laid.
    pub checked: Result<(), CheckRefused>,
    /// How many files were then removed.
    pub pruned: Result<u64, PruneRefused>,
}

/// Lays a checkpoint, and then removes the files that the newest one does not need, whatever the first was answered: files
/// that an earlier removal left may be there. The channel is on a disk, and no call takes it from there.
pub fn keep<F: KeepFace>(port: &mut F) -> Upkeep
    requires here { F.on_disk port.old }
    requires stays { (first second : F) → F.kept first second → F.on_disk first → F.on_disk second }
    ensures { Keeps (face F.own F.saw F.seen F.kept F.on_disk F.saw_laid F.saw_pruned)
        port.old result port.new }
{
    let checked = port.checkpoint();
    let pruned = port.prune();
    Upkeep { checked, pruned }
}
