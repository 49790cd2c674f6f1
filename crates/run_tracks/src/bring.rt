// Passes come home.
ghost use Rattle.std.specs.Prelude.{[], ◌∷◌};
ghost use Rattle.run_tracks.specs.Homes.{AreHomes, EachTook, IsAt, StayElsewhere, TookAt};
ghost use Rattle.run_tracks.specs.Places.{AreAt, TookEach};

use shared_channel::{Carries, Joins, Pass};

/// The pass at home at this place takes another one in, and keeps its own number; the others stay as they are. It takes no
/// memory, and can't fail.
pub fn bring_home<S: Joins>(shares: &[S], homes: &mut [Pass], place: usize, pass: Pass)
    requires homes { AreHomes S.table shares.now homes.old }
    requires pass { IsAt S.table shares.now place pass }
    ensures homes { AreHomes S.table shares.now homes.new }
    ensures kept { EachTook homes.old homes.new }
    ensures others { StayElsewhere (place ∷ []) homes.old homes.new }
    ensures took { TookAt homes.new place pass }
{
    shares[place].join_pass(&mut homes[place], pass);
}

/// The passes at home take in those of ports, each of the channel at its place, and keep their own numbers. It takes no
/// memory.
pub fn end_ports<S: Joins, F: Carries + Drop>(
    shares: &[S],
    homes: &mut [Pass],
    channels: Vec<u32>,
    ports: Vec<F>,
)
    requires homes { AreHomes S.table shares.now homes.old }
    requires ports { AreAt S.table shares.now F.pass channels.items ports.items }
    ensures homes { AreHomes S.table shares.now homes.new }
    ensures kept { EachTook homes.old homes.new }
    ensures others { StayElsewhere channels.items homes.old homes.new }
    ensures took { TookEach homes.new F.pass channels.items ports.items }
{
    let mut places = channels;
    let mut left = ports;
    while let Some(port) = left.pop() {
        let Some(place) = places.pop() else {
            return;
        };
        bring_home(shares, homes, place as usize, port.into_pass());
    }
}
