// A file channel as those see it who mend it, and have it checkpointed and pruned.
ghost use Rattle.flume_host.specs.Told.{moment_of};
ghost use Rattle.channel_face.specs.Machine.{is_some_of};
ghost use Rattle.file_channel.specs.Stands.{StandsOver};

use crate::FileChannel;
use channel_face::{CheckRefused, Durable, OpenCause, PruneRefused, Reopen};
use flume_host::{Disk, Steps};
use std::sync::ledger::Ledger;

/// It is opened anew, as [`FileChannel::reopen`] says.
impl<D: Disk + Drop> Reopen for FileChannel<D> {
    fn reopen<L: Ledger>(&mut self, steps: &mut Steps<L>) -> Result<(), OpenCause> {
        FileChannel::reopen(self, steps)
    }
}

/// It lays checkpoints, and removes old files, as [`FileChannel::checkpoint`] and [`FileChannel::prune`] say.
impl<D: Disk + Drop> Durable for FileChannel<D> {
    ghost use Rattle.flume_host.specs.Told.{WhereTold};
    ghost use Rattle.file_channel.specs.Pruned.{HasOld, IsPrunedBy};
    ghost use Rattle.file_channel.specs.Laid.{HasLaid};

    ghost is_laid = { λ c s. WhereTold (D.told c.0) (HasLaid s) };

    ghost is_pruned = { λ c. WhereTold (D.told c.0) (IsPrunedBy c.1.checks.laid) };

    ghost has_old = { λ c n. WhereTold (D.told c.0) (HasOld c.1.checks.laid n) };

    fn checkpoint(&mut self) -> Result<(), CheckRefused> {
        FileChannel::checkpoint(self)
    }

    fn prune(&mut self) -> Result<u64, PruneRefused> {
        FileChannel::prune(self)
    }
}
