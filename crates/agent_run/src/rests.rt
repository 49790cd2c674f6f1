// What closed channels leave on their disks.
ghost use Rattle.std.specs.Prelude.{All};
ghost use Rattle.agent_run.specs.Run.{IsAtRest};

use file_channel::FileChannel;
use flume_host::Disk;
use memory_channel::MemoryChannel;
use shared_channel::Closed;
use two_channels::EitherClosed;

// So it is of one of them.
fn channel_rests<D: Disk + Drop>(closed: &EitherClosed<FileChannel<D>, MemoryChannel>)
    ensures { IsAtRest D.told D.faults closed.now }
{
    if let EitherClosed::Disk(Closed { channel, pass: _ }) = closed {
        channel.rests();
    }
}

/// Unless a closed channel is broken, whatever a crash now leaves of its folder opens to just what is settled. It does nothing: each
/// channel on a disk knows it of itself.
pub(crate) fn channels_rest<D: Disk + Drop>(closed: &[EitherClosed<FileChannel<D>, MemoryChannel>])
    ensures { All (IsAtRest D.told D.faults) closed.now }
{
    for channel in closed {
        channel_rests(channel);
    }
}
