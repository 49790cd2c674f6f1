// Channels are closed after a run.
ghost use Rattle.std.specs.Prelude.{◌≡◌, ◌≤◌, [], All, length};
ghost use Rattle.std.specs.Vec.{vec_capacity};
ghost use Rattle.channel_lock.specs.Turns.{HasAll};
ghost use Rattle.two_channels.specs.Shares.{table_of};
ghost use Rattle.run_tracks.specs.Homes.{AreHomes};
ghost use Rattle.run_tracks.specs.Closes.{AreClosed, IsClosed};

use channel_face::Channel;
use shared_channel::Pass;
use std::sync::Wait;
use two_channels::{EitherClosed, EitherShared};

/// Closes each channel with its pass at home, which has each number. Each then stands for what that pass had seen, which is all
/// calls that were made, and the pass comes back. The list has room for them: so it takes no memory, and no channel is lost.
pub fn close_all<A: Channel + Drop, B: Channel + Drop, R: Wait>(
    rt: &R,
    shares: Vec<EitherShared<A, B>>,
    homes: Vec<Pass>,
    ends: &mut Vec<EitherClosed<A, B>>,
)
    requires none { ends.old.items ≡ [] }
    requires room { length homes.items ≤ vec_capacity ends.old }
    requires homes { AreHomes table_of shares.items homes.items }
    requires all { All (λ p. HasAll p.view) homes.items }
    ensures closed { AreClosed (IsClosed A.stands A.tells B.stands B.tells)
        shares.items homes.items ends.new.items }
    ensures room { vec_capacity ends.old ≤ vec_capacity ends.new }
{
    let mut others = shares;
    let mut passes = homes;
    let Some(share) = others.pop() else {
        return;
    };
    let Some(pass) = passes.pop() else {
        return;
    };
    close_all(rt, others, passes, ends);
    ends.push_reserved(share.close(rt, pass));
}
