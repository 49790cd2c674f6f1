// The channels of a source are mended.
ghost use Rattle.std.specs.Prelude.{◌≡◌, List};
ghost use Rattle.source_worker.specs.Rounds.{Answer, MendsEach, MendsPort, any_refused};

use channel_face::{MendFace, PutFace, mend};
use plug_in::Interceptor;
use source_put::Intake;

/// Mends each channel, in order, and says whether one was refused.
pub fn mend_all<F: PutFace + MendFace + Drop, B: Interceptor>(intake: &mut Intake<F, B>) -> bool
    ensures mends { (answers : List Answer) × MendsEach
        (MendsPort F.own F.saw F.seen F.kept F.on_disk)
        intake.old.ports answers intake.new.ports × (result ≡ any_refused answers) }
    ensures same { intake.new ≡ record intake.old { ports = intake.new.ports } }
{
    let mut refused = false;
    for place in 0..intake.port_count() {
        if mend(intake.port(place)).is_err() {
            refused = true;
        }
    }
    refused
}
