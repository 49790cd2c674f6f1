// The workers of a run over its channels.
ghost use Rattle.std.specs.Prelude.{length};
ghost use Rattle.channel_wishes.specs.Opened.{WereOpened};
ghost use Rattle.run_tracks.specs.Deals.{hands_of};
ghost use Rattle.run_opening.specs.Assembled.{AreFit, ArePartsOf, AreUndealt, AreUsed, IsCrew, IsStaff};
ghost use Rattle.run_opening.specs.Lists.{IsEmptyFor};
ghost use Rattle.run_opening.specs.Keepers.{AreWantedInFolders};
ghost use Rattle.run_opening.specs.Prepared.{uses_of};

use crate::outside::Outside;
use crate::seats::{KeepSeat, Seat};
use crate::staff::{staff_keepers, staff_lines, staff_listeners, staff_sinks};
use channel_face::Channel;
use channel_wishes::{ChannelWish, OpenedChannel, take_apart};
use grouped_sinks::SinkRow;
use run_staff::{LineEnded, Workers};
use shared_channel::Pass;
use std::alloc::Global;
use two_channels::EitherShared;

/// What the workers of a run are made of, beside their passes.
#[derive(Drop)]
pub(crate) struct Parts<S, N, I, O, C, K> {
    /// The workers of the channels on disks.
    pub keepers: Vec<KeepSeat<C>>,
    /// The sinks and the listeners.
    pub outside: Outside<S, N>,
    /// The workers of the listeners.
    pub listeners: Vec<Seat<K, C>>,
    /// The workers of lines.
    pub lines: Vec<Seat<K, C>>,
    /// The clocks of the sinks.
    pub clocks: Vec<C>,
    /// The inputs and outputs of the workers of lines.
    pub talks: Vec<LineEnded<I, O>>,
    /// Room for the workers, among which is that which drains standard input, if it is no source.
    pub room: Workers<Pass, S, N, I, O, C, K>,
}

/// Makes the workers of a run, each with a pass of each of its channels.
pub(crate) fn assemble<S: Drop, N: Drop, I: Drop, O: Drop, C: Drop, K: Drop>(
    alloc: Global,
    plans: &[SinkRow],
    hands: &mut [Vec<Pass>],
    parts: Parts<S, N, I, O, C, K>,
) -> Workers<Pass, S, N, I, O, C, K>
    requires parts { ArePartsOf plans.now parts }
    requires hands { AreUndealt plans.now parts (hands_of hands.old) }
    ensures staff { IsStaff plans.now parts (hands_of hands.old) result }
{
    let Parts {
        keepers: keep_seats,
        outside,
        listeners: listen_seats,
        lines: line_seats,
        clocks,
        talks,
        room,
    } = parts;
    let Outside { sinks, listeners } = outside;
    let Workers {
        keepers: mut keep_jobs,
        sinks: mut sink_jobs,
        listeners: mut listen_jobs,
        drains,
        lines: mut line_jobs,
    } = room;
    staff_keepers(hands, keep_seats, &mut keep_jobs);
    staff_sinks(alloc, hands, plans, sinks, clocks, &mut sink_jobs);
    staff_listeners(alloc, hands, listen_seats, listeners, &mut listen_jobs);
    staff_lines(alloc, hands, line_seats, talks, &mut line_jobs);
    Workers {
        keepers: keep_jobs,
        sinks: sink_jobs,
        listeners: listen_jobs,
        drains,
        lines: line_jobs,
    }
}

/// The channels of a run, shared among its workers.
#[derive(Drop)]
pub struct Crew<A: Channel, B: Channel, S, N, I, O, C, K> {
    /// The channels.
    pub shares: Vec<EitherShared<A, B>>,
    /// The passes that stay with the caller.
    pub homes: Vec<Pass>,
    /// The workers.
    pub jobs: Workers<Pass, S, N, I, O, C, K>,
}

/// Shares the channels that were opened for these wishes among the workers of a run. The lists have room for the channels, their
/// passes at home and those that are dealt.
pub(crate) fn crew_of<
    A: Channel + Drop,
    B: Channel + Drop,
    S: Drop,
    N: Drop,
    I: Drop,
    O: Drop,
    C: Drop,
    K: Drop,
>(
    alloc: Global,
    plans: &[SinkRow],
    wishes: &[ChannelWish],
    opened: Vec<OpenedChannel<A, B>>,
    parts: Parts<S, N, I, O, C, K>,
    shares: Vec<EitherShared<A, B>>,
    homes: Vec<Pass>,
    hands: Vec<Vec<Pass>>,
) -> Crew<A, B, S, N, I, O, C, K>
    requires opened { WereOpened wishes.now opened.items }
    requires parts { ArePartsOf plans.now parts }
    requires used { AreUsed wishes.now (uses_of parts.keepers.items plans.now parts.listeners.items
        parts.lines.items) }
    requires folders { AreWantedInFolders wishes.now parts.keepers.items }
    requires fit { AreFit (length wishes.now) parts }
    requires shares { IsEmptyFor (length opened.items) shares }
    requires homes { IsEmptyFor (length opened.items) homes }
    requires hands { IsEmptyFor (length opened.items) hands }
    ensures crew { IsCrew plans.now opened.items parts result }
{
    let mut shares = shares;
    let mut homes = homes;
    let mut hands = hands;
    take_apart(opened, &mut shares, &mut homes, &mut hands);
    let jobs = assemble(alloc, plans, hands.as_mut_slice(), parts);
    Crew {
        shares,
        homes,
        jobs,
    }
}
