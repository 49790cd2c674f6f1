// What the caller does with the channels of a run after its workers.
ghost use Rattle.std.specs.Prelude.{◌≡◌, ◌≤◌, [], All, length};
ghost use Rattle.std.specs.Vec.{vec_capacity};
ghost use Rattle.run_tracks.specs.Homes.{AreHomes};
ghost use Rattle.sink_worker.specs.Rounds.{told};
ghost use Rattle.channel_lock.specs.Turns.{HasAll};
ghost use Rattle.two_channels.specs.Shares.{table_of};
ghost use Rattle.run_settling.specs.Draining.{HasOwn, HasRoom, IsDrainedAt, IsSinkHome};
ghost use Rattle.run_settling.specs.Settling.{AreMendedAndCounted, AreSettled};
ghost use Rattle.run_tracks.specs.Closes.{IsClosed};
ghost use Rattle.run_tracks.specs.Stops.{IsKept, IsMended};

use crate::at_home::AtHome;
use crate::draining::drain_sinks;
use agent_end::ChannelDrain;
use channel_face::{Channel, Counts, Durable, OpenCause, Reopen};
use flume_host::Clock;
use plug_in::EventSink;
use run_tracks::{close_all, count_all, keep_all, mend_all};
use shared_channel::Pass;
use sink_worker::SinkWorker;
use std::sync::Wait;
use two_channels::{EitherClosed, EitherShared};

/// What the settling of a run's channels leaves: each list is of the channels, or of the sinks, in order.
#[derive(Drop)]
pub struct Settled<S, A, B> {
    /// How each sink's draining ended.
    pub ends: Vec<ChannelDrain>,
    /// The sinks.
    pub sinks: Vec<S>,
    /// What each channel's mend was answered.
    pub mends: Vec<Result<bool, OpenCause>>,
    /// Each channel's name, and what is counted of it.
    pub report: Vec<(String, Counts)>,
    /// The channels, which nobody shares any more.
    pub closed: Vec<EitherClosed<A, B>>,
}

// Mends each channel with its pass at home, and then counts it.
fn mend_and_count<R: Wait, A: Reopen, B: Channel>(
    rt: &R,
    shares: &[EitherShared<A, B>],
    homes: &mut [Pass],
    mends: &mut [Result<bool, OpenCause>],
    report: &mut [(String, Counts)],
)
    requires homes { AreHomes table_of shares.now homes.old }
    requires all { All (λ p. HasAll p.view) homes.old }
    requires mends { length mends.old ≡ length homes.old }
    requires report { length report.old ≡ length homes.old }
    ensures homes { AreHomes table_of shares.now homes.new }
    ensures all { All (λ p. HasAll p.view) homes.new }
    ensures counted { AreMendedAndCounted (IsMended A.stands A.tells A.moment)
        shares.now homes.old report.old mends.new report.new homes.new }
{
    mend_all(rt, shares, homes, mends);
    count_all(rt, shares, homes, report);
}

/// After the join of the workers each sink empties its channel, one after the other; then each channel of which it is said so lays a
/// checkpoint and removes old files; then each channel is mended, counted and closed. The lists of `room` have room, and one mend and one
/// entry of the report for each channel: so it takes no memory but that of the sinks' runs, of the checkpoints and of the mends.
pub fn settle<R: Wait, A: Durable + Drop, B: Channel + Drop, S: EventSink + Drop, C: Clock + Drop>(
    rt: &R,
    shares: Vec<EitherShared<A, B>>,
    homes: Vec<Pass>,
    sinks: Vec<SinkWorker<AtHome, S, C>>,
    keeps: &[bool],
    room: Settled<S, A, B>,
) -> Settled<S, A, B>
    requires homes { AreHomes table_of shares.items homes.items }
    requires all { All (λ p. HasAll p.view) homes.items }
    requires own { All HasOwn homes.items }
    requires sinks { All (IsSinkHome homes.items) sinks.items }
    requires ends { HasRoom sinks.items room.ends }
    requires back { HasRoom sinks.items room.sinks }
    requires mends { length room.mends.items ≡ length homes.items }
    requires report { length room.report.items ≡ length homes.items }
    requires keeps { length keeps.now ≡ length homes.items }
    requires closed { HasRoom homes.items room.closed }
    ensures settled { AreSettled (IsDrainedAt (told S.delivers S.faults) C.moments)
        (IsKept A.stands A.tells A.moment A.is_laid A.is_pruned)
        (IsMended A.stands A.tells A.moment) (IsClosed A.stands A.tells B.stands B.tells)
        shares.items homes.items sinks.items keeps.now room.report.items result }
{
    let mut homes = homes;
    let Settled {
        mut ends,
        sinks: mut back,
        mut mends,
        mut report,
        mut closed,
    } = room;
    drain_sinks(
        rt,
        shares.as_slice(),
        &mut homes,
        sinks,
        &mut ends,
        &mut back,
    );
    keep_all(rt, shares.as_slice(), homes.as_mut_slice(), keeps);
    mend_and_count(
        rt,
        shares.as_slice(),
        homes.as_mut_slice(),
        mends.as_mut_slice(),
        report.as_mut_slice(),
    );
    close_all(rt, shares, homes, &mut closed);
    Settled {
        ends,
        sinks: back,
        mends,
        report,
        closed,
    }
}
