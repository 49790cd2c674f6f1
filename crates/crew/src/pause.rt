// Pauses of a worker.
ghost use Rattle.std.specs.Prelude.{◌≡◌, ◌≤◌, IsFalse, IsTrue};
ghost use Rattle.flume_host.specs.Causes.{Rose};

use flume_host::{Clock, Halt};

/// The longest piece of a pause, in milliseconds.
const PIECE: u32 = 200;

/// Pauses about so many milliseconds, in pieces of at most 200, and asks before each whether to stop. True means that it
/// was told to stop, and then the rest of the pause is left out; false, that it was not told so.
pub fn rest<C: Clock, H: Halt>(clock: &mut C, halt: &mut H, ms: u32) -> bool
    ensures moments { C.moments clock.new ≡ C.moments clock.old }
    ensures stop { IsTrue result → Rose (H.yes halt.old) (H.yes halt.new) }
    ensures still { IsFalse result → H.yes halt.new ≡ H.yes halt.old }
    ensures later { H.yes halt.old ≤ H.yes halt.new }
{
    let mut left = ms;
    while left > 0 {
        if halt.asked() {
            return true;
        }
        let piece = left.min(PIECE);
        clock.pause(piece);
        left -= piece;
    }
    false
}
