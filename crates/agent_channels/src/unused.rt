// Channels that were opened, and that no worker used, are closed and given back.
ghost use Rattle.std.specs.Prelude.{◌≡◌, ◌+◌, [], ◌∷◌, length};
ghost use Rattle.shared_channel.specs.Passes.{new_passes};
ghost use Rattle.two_channels.specs.Shares.{StandsClosed, table_of};
ghost use Rattle.channel_wishes.specs.Openings.{IsOfKind};
ghost use Rattle.channel_wishes.specs.Places.{AreOut, IsOutIn};
ghost use Rattle.channel_wishes.specs.Opened.{WereOpened};
ghost use Rattle.agent_channels.specs.Several.{AreNew, AreUnused, IsUnused, TookOthers};

use crate::close::give_back;
use channel_face::Channel;
use channel_wishes::{ChannelPlace, ChannelWish, OpenedChannel};
use file_channel::FileChannel;
use flume_host::Host;
use memory_channel::MemoryChannel;
use shared_channel::{Joins, Pass};
use std::sync::Wait;
use two_channels::{EitherClosed, EitherShared};

// The first pass of a channel takes in the others, of which none has made a call.
fn join_others<A: Channel, B: Channel>(
    share: &EitherShared<A, B>,
    home: Pass,
    others: Vec<Pass>,
) -> Pass
    requires { home ∷ others.items ≡ new_passes (table_of share.now) home.view.base
        home.view.passes (length others.items + 1) }
    ensures { TookOthers (table_of share.now) home (length others.items + 1) result }
{
    let mut rest = others;
    let Some(pass) = rest.pop() else {
        return home;
    };
    let mut joined = join_others(share, home, rest);
    share.join_pass(&mut joined, pass);
    joined
}

// Closes a channel that made no call.
fn unshare<A: Channel + Drop, B: Channel + Drop, R: Wait>(
    rt: &R,
    channel: OpenedChannel<A, B>,
) -> EitherClosed<A, B>
    requires { AreNew (table_of channel.share) channel.home channel.others.items }
    ensures { StandsClosed A.stands B.stands channel.share channel.home.view.base [] result }
{
    let OpenedChannel {
        share,
        home,
        others,
    } = channel;
    let pass = join_others(&share, home, others);
    share.close(rt, pass)
}

// Closes a channel that made no call, and gives its disk back, if it is on one.
fn give_unused<H: Host, R: Wait>(
    rt: &R,
    host: &mut H,
    place: &ChannelPlace,
    channel: OpenedChannel<FileChannel<H::Disk>, MemoryChannel>,
)
    requires kind { IsOfKind place.now channel.share }
    requires new { AreNew (table_of channel.share) channel.home channel.others.items }
    requires out { IsOutIn (H.folders host.old) place.now }
    ensures { IsUnused place.now channel.home.view.base
        (record { state = H.state host.old; folders = H.folders host.old })
        (record { state = H.state host.new; folders = H.folders host.new }) }
{
    let closed = unshare(rt, channel);
    let _ = give_back(host, place, closed);
}

/// Closes channels that made no call, and gives their disks back, the last first.
pub fn give_all_unused<H: Host, R: Wait>(
    rt: &R,
    host: &mut H,
    wishes: &[ChannelWish],
    channels: &mut Vec<OpenedChannel<FileChannel<H::Disk>, MemoryChannel>>,
)
    requires opened { WereOpened wishes.now channels.old.items }
    requires out { AreOut (H.folders host.old) wishes.now }
    ensures { AreUnused wishes.now channels.old.items
        (record { state = H.state host.old; folders = H.folders host.old })
        (record { state = H.state host.new; folders = H.folders host.new }) }
{
    let Some(channel) = channels.pop() else {
        return;
    };
    let Some((wish, front)) = wishes.split_last() else {
        unreachable!()
    };
    give_unused(rt, host, &wish.place, channel);
    give_all_unused(rt, host, front, channels);
}
