// The passes of channels are dealt to workers.
ghost use Rattle.std.specs.Prelude.{◌≡◌, ◌<◌, ◌≤◌, ◌+◌, ◌++◌, List, length};
ghost use Rattle.std.specs.Vec.{vec_capacity};
ghost use Rattle.shared_channel.specs.Passes.{Known};
ghost use Rattle.run_tracks.specs.Deals.{Deals, Draws, Suffice, hand_at, hands_of};

use shared_channel::Pass;

/// Takes the last pass of the channel at this place.
pub fn draw(hands: &mut [Vec<Pass>], place: u32) -> Pass
    requires there { place < length hands.old }
    requires some { 0 < length (hand_at (hands_of hands.old) place) }
    ensures { Draws (hands_of hands.old) place result (hands_of hands.new) }
{
    match hands[place as usize].pop() {
        Some(pass) => pass,
        None => unreachable!(),
    }
}

/// Takes a pass for each of these channels, in order, and adds it to the list, which has room for them.
pub fn deal(hands: &mut [Vec<Pass>], channels: &[u32], ports: &mut Vec<Pass>)
    requires enough { Suffice (hands_of hands.old) channels.now }
    requires room { length ports.old.items + length channels.now ≤ vec_capacity ports.old }
    ensures dealt { (passes : List Known) × (ports.new.items ≡ ports.old.items ++ passes)
        × Deals (hands_of hands.old) channels.now passes (hands_of hands.new) }
{
    let Some((first, rest)) = channels.split_first() else {
        return;
    };
    ports.push_reserved(draw(hands, *first));
    deal(hands, rest, ports);
}
