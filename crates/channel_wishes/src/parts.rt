// Channels that were opened are taken apart.
ghost use Rattle.std.specs.Prelude.{◌≡◌, ◌+◌, ◌++◌, ◌≤◌, length, map};
ghost use Rattle.std.specs.Vec.{vec_capacity};

use crate::opened::OpenedChannel;
use channel_face::Channel;
use shared_channel::Pass;
use two_channels::EitherShared;

/// Puts the shared channels, the passes that stay with the caller and those of the workers into a list each, in order. The lists
/// have room for them: so it takes no memory.
pub fn take_apart<A: Channel + Drop, B: Channel + Drop>(
    channels: Vec<OpenedChannel<A, B>>,
    shares: &mut Vec<EitherShared<A, B>>,
    homes: &mut Vec<Pass>,
    others: &mut Vec<Vec<Pass>>,
)
    requires shares { length shares.old.items + length channels.items ≤ vec_capacity shares.old }
    requires homes { length homes.old.items + length channels.items ≤ vec_capacity homes.old }
    requires others { length others.old.items + length channels.items ≤ vec_capacity others.old }
    ensures shares { shares.new.items ≡ shares.old.items ++ map (λ c. c.share) channels.items }
    ensures homes { homes.new.items ≡ homes.old.items ++ map (λ c. c.home) channels.items }
    ensures others { others.new.items ≡ others.old.items ++ map (λ c. c.others) channels.items }
    ensures room { (vec_capacity shares.new ≡ vec_capacity shares.old)
        × (vec_capacity homes.new ≡ vec_capacity homes.old)
        × (vec_capacity others.new ≡ vec_capacity others.old) }
{
    let mut front = channels;
    let Some(channel) = front.pop() else {
        return;
    };
    take_apart(front, shares, homes, others);
    let OpenedChannel {
        share,
        home,
        others: users,
    } = channel;
    shares.push_reserved(share);
    homes.push_reserved(home);
    others.push_reserved(users);
}
