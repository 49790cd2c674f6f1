// The channels of a run are opened in order.
ghost use Rattle.std.specs.Prelude.{◌≡◌, ◌<◌, ◌≤◌, [], All, IfErr, IfOk, OnErr, OnOk, length};
ghost use Rattle.std.specs.Vec.{vec_capacity};
ghost use Rattle.channel_wishes.specs.Openings.{Refuses};
ghost use Rattle.channel_wishes.specs.Places.{AreOut};
ghost use Rattle.channel_wishes.specs.Opened.{AddsOpened, AreOpened, WereOpened};
ghost use Rattle.agent_channels.specs.Several.{RefusesAt, RefusesLast};

use crate::one::open_one;
use crate::unused::give_all_unused;
use channel_face::OpenCause;
use channel_wishes::{ChannelRefused, ChannelWish, OpenedChannel};
use file_channel::FileChannel;
use flume_host::Host;
use memory_channel::MemoryChannel;
use std::alloc::Global;
use std::sync::Wait;

// Opens the channel that a run wants, and adds it to those that are open.
fn add_one<H: Host>(
    alloc: Global,
    host: &mut H,
    wish: &ChannelWish,
    channels: &mut Vec<OpenedChannel<FileChannel<H::Disk>, MemoryChannel>>,
) -> Result<(), OpenCause>
    requires users { wish.now.users < 4_294_967_295 }
    requires room { length channels.old.items < vec_capacity channels.old }
    ensures added { OnOk result (AddsOpened wish.now
        (record { state = H.state host.old; folders = H.folders host.old })
        (record { state = H.state host.new; folders = H.folders host.new })
        channels.old.items channels.new.items) }
    ensures same { OnErr result (channels.new.items ≡ channels.old.items) }
    ensures refused { IfErr result (λ cause. Refuses wish.now.place wish.now.limits.capacity
        (record { state = H.state host.old; folders = H.folders host.old })
        (record { state = H.state host.new; folders = H.folders host.new }) cause) }
    ensures room { OnOk result (vec_capacity channels.new ≡ vec_capacity channels.old) }
{
    match open_one(alloc, host, wish) {
        Ok(channel) => {
            channels.push_reserved(channel);
            Ok(())
        }
        Err(cause) => Err(cause),
    }
}

// Opens the channel that is wanted after those that are open. Where it is refused, those are given back.
fn add_behind<H: Host, R: Wait>(
    rt: &R,
    alloc: Global,
    host: &mut H,
    front: &[ChannelWish],
    wish: &ChannelWish,
    channels: &mut Vec<OpenedChannel<FileChannel<H::Disk>, MemoryChannel>>,
) -> Result<(), ChannelRefused>
    requires users { wish.now.users < 4_294_967_295 }
    requires room { length channels.old.items < vec_capacity channels.old }
    requires opened { WereOpened front.now channels.old.items }
    requires out { AreOut (H.folders host.old) front.now }
    ensures added { OnOk result (AddsOpened wish.now
        (record { state = H.state host.old; folders = H.folders host.old })
        (record { state = H.state host.new; folders = H.folders host.new })
        channels.old.items channels.new.items) }
    ensures refused { IfErr result (λ refused. RefusesLast front.now channels.old.items wish.now
        (record { state = H.state host.old; folders = H.folders host.old })
        (record { state = H.state host.new; folders = H.folders host.new })
        refused.place refused.cause) }
    ensures room { OnOk result (vec_capacity channels.new ≡ vec_capacity channels.old) }
{
    match add_one(alloc, host, wish, channels) {
        Ok(()) => Ok(()),
        Err(cause) => {
            give_all_unused(rt, host, front, channels);
            Err(ChannelRefused {
                place: front.len(),
                cause,
            })
        }
    }
}

// Opens the channels that are wanted, in order, and adds them to a list that has room for them.
fn add_all<H: Host, R: Wait>(
    rt: &R,
    alloc: Global,
    host: &mut H,
    wishes: &[ChannelWish],
    channels: &mut Vec<OpenedChannel<FileChannel<H::Disk>, MemoryChannel>>,
) -> Result<(), ChannelRefused>
    requires users { All (λ wish. wish.users < 4_294_967_295) wishes.now }
    requires none { channels.old.items ≡ [] }
    requires room { length wishes.now ≤ vec_capacity channels.old }
    ensures opened { OnOk result (AreOpened wishes.now channels.new.items
        (record { state = H.state host.old; folders = H.folders host.old })
        (record { state = H.state host.new; folders = H.folders host.new })) }
    ensures refused { IfErr result (λ refused. RefusesAt wishes.now
        (record { state = H.state host.old; folders = H.folders host.old })
        (record { state = H.state host.new; folders = H.folders host.new })
        refused.place refused.cause) }
    ensures room { OnOk result (vec_capacity channels.new ≡ vec_capacity channels.old) }
{
    let Some((wish, front)) = wishes.split_last() else {
        return Ok(());
    };
    match add_all(rt, alloc, host, front, channels) {
        Ok(()) => add_behind(rt, alloc, host, front, wish, channels),
        Err(refused) => Err(refused),
    }
}

/// Opens the channels that a run wants, in order, each as [`open_one`] does. Where one is refused, its place and the cause come
/// back; then those before it were closed, and their disks were given back, the last first, and they are as a channel without a
/// call leaves them. To close a channel it may wait for its turn, which nobody has. Without memory for the list the first one is
/// refused, and nothing was asked of the host.
pub fn open_channels<H: Host, R: Wait>(
    rt: &R,
    alloc: Global,
    host: &mut H,
    wishes: &[ChannelWish],
) -> Result<Vec<OpenedChannel<FileChannel<H::Disk>, MemoryChannel>>, ChannelRefused>
    requires users { All (λ wish. wish.users < 4_294_967_295) wishes.now }
    ensures opened { IfOk result (λ channels. AreOpened wishes.now channels.items
        (record { state = H.state host.old; folders = H.folders host.old })
        (record { state = H.state host.new; folders = H.folders host.new })) }
    ensures out { OnOk result (AreOut (H.folders host.new) wishes.now) }
    ensures refused { IfErr result (λ refused. RefusesAt wishes.now
        (record { state = H.state host.old; folders = H.folders host.old })
        (record { state = H.state host.new; folders = H.folders host.new })
        refused.place refused.cause) }
{
    let mut channels = match Vec::with_capacity(alloc, wishes.len()) {
        Ok(channels) => channels,
        Err(_) => {
            return Err(ChannelRefused {
                place: 0,
                cause: OpenCause::NoMemory,
            });
        }
    };
    match add_all(rt, alloc, host, wishes, &mut channels) {
        Ok(()) => Ok(channels),
        Err(refused) => Err(refused),
    }
}
