// Ports are made of passes.
ghost use Rattle.std.specs.Prelude.{◌≡◌, ◌≤◌, [], length};
ghost use Rattle.std.specs.Vec.{vec_capacity};
ghost use Rattle.run_tracks.specs.Places.{AreAt, AreKinds, Zips};
ghost use Rattle.two_channels.specs.Ports.{pass_of};
ghost use Rattle.two_channels.specs.Shares.{table_of};

use channel_face::Channel;
use shared_channel::Pass;
use std::sync::Wait;
use two_channels::{EitherPort, EitherShared};

/// Gives each pass a port of the channel at its place and of its kind, in order. The list has room for them: so it takes no
/// memory, and no pass is lost.
pub fn open_ports<'a, R: Wait + 'a, A: Channel + 'a, B: Channel + 'a>(
    rt: &'a R,
    shares: &'a [EitherShared<A, B>],
    places: &[u32],
    passes: Vec<Pass>,
    ports: &mut Vec<EitherPort<'a, R, A, B>>,
)
    requires at { AreAt table_of shares.now (λ p. p) places.now passes.items }
    requires none { ports.old.items ≡ [] }
    requires room { length passes.items ≤ vec_capacity ports.old }
    ensures ports { Zips (λ pass port. pass_of port ≡ pass) passes.items ports.new.items }
    ensures kinds { AreKinds shares.now places.now ports.new.items }
    ensures room { vec_capacity ports.old ≤ vec_capacity ports.new }
{
    let mut others = passes;
    let Some(pass) = others.pop() else {
        return;
    };
    let last = others.len();
    open_ports(rt, shares, &places[..last], others, ports);
    let share = &shares[places[last] as usize];
    ports.push_reserved(share.port(rt, pass));
}
