// What follows on what a channel answered.
ghost use Rattle.std.specs.Prelude.{◌≡◌};
ghost use Rattle.keep_worker.specs.Answers.{needs_mend};

use crate::keeping::Upkeep;
use channel_face::{CheckRefused, PruneRefused};

/// Whether a call met a broken channel, or broke it.
pub(crate) fn needs_mend(upkeep: &Upkeep) -> bool
    ensures { result ≡ needs_mend upkeep.now.checked upkeep.now.pruned }
{
    match upkeep.checked {
        Err(CheckRefused::Broken | CheckRefused::DiskFault) => true,
        _ => matches!(upkeep.pruned, Err(PruneRefused::Broken)),
    }
}
