// Channels that were closed are given back.
ghost use Rattle.std.specs.Prelude.{◌≡◌, ◌+◌, ◌++◌, ◌≤◌, length, map};
ghost use Rattle.std.specs.Vec.{vec_capacity};
ghost use Rattle.two_channels.specs.Shares.{pass_of};
ghost use Rattle.channel_wishes.specs.Places.{AreOfWishes, IsInFolder, IsOfPlace};
ghost use Rattle.agent_channels.specs.Closings.{DisksBack, back_of, backs_of, disk_back};

use channel_wishes::{ChannelPlace, ChannelWish};
use file_channel::FileChannel;
use flume_host::Host;
use memory_channel::MemoryChannel;
use shared_channel::{Closed, Pass};
use two_channels::EitherClosed;

// Gives the disk of a channel in a folder back.
fn give_disk<H: Host>(host: &mut H, place: &ChannelPlace, disk: H::Disk)
    requires { IsInFolder (H.folders host.old) place.now }
    ensures { DisksBack (disk_back place.now (H.Disk.told disk) (H.Disk.faults disk))
        (record { state = H.state host.old; folders = H.folders host.old })
        (record { state = H.state host.new; folders = H.folders host.new }) }
{
    let ChannelPlace::Folder(path) = place else {
        unreachable!()
    };
    host.keep_disk(path.as_str(), disk);
}

// Gives the disk of a closed channel back, if it is on one, and hands its pass on.
pub(crate) fn give_back<H: Host>(
    host: &mut H,
    place: &ChannelPlace,
    closed: EitherClosed<FileChannel<H::Disk>, MemoryChannel>,
) -> Pass
    requires { IsOfPlace (H.folders host.old) place.now closed }
    ensures pass { result ≡ pass_of closed }
    ensures back { DisksBack (back_of H.Disk.told H.Disk.faults place.now closed)
        (record { state = H.state host.old; folders = H.folders host.old })
        (record { state = H.state host.new; folders = H.folders host.new }) }
{
    match closed {
        EitherClosed::Disk(Closed { channel, pass }) => {
            give_disk(host, place, channel.close());
            pass
        }
        EitherClosed::Memory(Closed { channel: _, pass }) => pass,
    }
}

/// Gives the disk of each closed channel that is on one back to the host, for the folder of its wish, the last first, and puts the
/// passes into the list, in order. The list has room for them: so it takes no memory, and can't fail.
pub fn close_channels<H: Host>(
    host: &mut H,
    wishes: &[ChannelWish],
    closed: Vec<EitherClosed<FileChannel<H::Disk>, MemoryChannel>>,
    passes: &mut Vec<Pass>,
)
    requires of { AreOfWishes (H.folders host.old) wishes.now closed.items }
    requires room { length passes.old.items + length closed.items ≤ vec_capacity passes.old }
    ensures passes { passes.new.items ≡ passes.old.items ++ map (λ c. pass_of c) closed.items }
    ensures back { DisksBack (backs_of H.Disk.told H.Disk.faults wishes.now closed.items)
        (record { state = H.state host.old; folders = H.folders host.old })
        (record { state = H.state host.new; folders = H.folders host.new }) }
    ensures room { vec_capacity passes.new ≡ vec_capacity passes.old }
{
    let mut left = closed;
    let Some(last) = left.pop() else {
        return;
    };
    let Some((wish, front)) = wishes.split_last() else {
        unreachable!()
    };
    let pass = give_back(host, &wish.place, last);
    close_channels(host, front, left, passes);
    passes.push_reserved(pass);
}
