// Channels are kept, mended and counted once a run has stopped.
ghost use Rattle.std.specs.Prelude.{◌≡◌, All, length};
ghost use Rattle.run_tracks.specs.Homes.{AreHomes};
ghost use Rattle.run_tracks.specs.Stops.{AreCounted, AreKept, AreMended, IsKept, IsMended};
ghost use Rattle.channel_lock.specs.Turns.{HasAll};
ghost use Rattle.two_channels.specs.Shares.{table_of};

use channel_face::{Channel, Counts, Durable, OpenCause, Reopen};
use shared_channel::Pass;
use std::sync::Wait;
use two_channels::EitherShared;

/// Has each channel of which it is said so lay a checkpoint and remove old files with its pass at home, which keeps its number, and
/// calls no other.
pub fn keep_all<A: Durable, B: Channel, R: Wait>(
    rt: &R,
    shares: &[EitherShared<A, B>],
    homes: &mut [Pass],
    closes: &[bool],
)
    requires homes { AreHomes table_of shares.now homes.old }
    requires closes { length closes.now ≡ length homes.old }
    ensures homes { AreHomes table_of shares.now homes.new }
    ensures kept { AreKept (IsKept A.stands A.tells A.moment A.is_laid A.is_pruned)
        shares.now closes.now homes.old homes.new }
{
    for (place, share) in shares.iter().enumerate() {
        if closes[place] {
            share.keep(rt, &mut homes[place]);
        }
    }
}

/// Mends each channel with its pass at home, which keeps its number, and notes what each mend was answered.
pub fn mend_all<A: Reopen, B: Channel, R: Wait>(
    rt: &R,
    shares: &[EitherShared<A, B>],
    homes: &mut [Pass],
    answers: &mut [Result<bool, OpenCause>],
)
    requires homes { AreHomes table_of shares.now homes.old }
    requires answers { length answers.old ≡ length homes.old }
    ensures homes { AreHomes table_of shares.now homes.new }
    ensures mended { AreMended (IsMended A.stands A.tells A.moment) shares.now homes.old answers.new
        homes.new }
{
    for (place, share) in shares.iter().enumerate() {
        answers[place] = share.mend(rt, &mut homes[place]);
    }
}

/// Notes the counts of each channel: those of all that its pass at home, which has each number, has seen. It calls nothing.
pub fn count_all<A: Channel, B: Channel, R: Wait>(
    rt: &R,
    shares: &[EitherShared<A, B>],
    homes: &mut [Pass],
    report: &mut [(String, Counts)],
)
    requires homes { AreHomes table_of shares.now homes.old }
    requires all { All (λ p. HasAll p.view) homes.old }
    requires report { length report.old ≡ length homes.old }
    ensures homes { AreHomes table_of shares.now homes.new }
    ensures all { All (λ p. HasAll p.view) homes.new }
    ensures counted { AreCounted homes.old report.old report.new homes.new }
{
    for (place, share) in shares.iter().enumerate() {
        report[place].1 = share.look(rt, &mut homes[place]).counts;
    }
}
