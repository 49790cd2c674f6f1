// What follows on what became of a line.
ghost use Rattle.std.specs.Prelude.{◌≡◌};
ghost use Rattle.line_worker.specs.Turns.{is_broken, is_due, needs_mend};

use channel_face::{BeginRefused, FaceRefused, PutRefused, StageCause, TakeRefused};
use source_put::Verdict;

// Whether the channel was broken.
fn is_broken(refused: &FaceRefused) -> bool
    ensures { result ≡ is_broken refused.now }
{
    matches!(
        refused,
        FaceRefused::Begin(BeginRefused::Broken)
            | FaceRefused::Put(PutRefused::Broken)
            | FaceRefused::Take(TakeRefused::Broken)
            | FaceRefused::Stage(StageCause::Broken)
    )
}

// Whether a line met a broken channel, or was left in doubt.
fn needs_mend(verdict: &Verdict) -> bool
    ensures { result ≡ needs_mend verdict.now }
{
    match verdict {
        Verdict::Refused {
            channel: _,
            cause: FaceRefused::InDoubt,
        } => true,
        Verdict::Refused { channel: _, cause } => is_broken(cause),
        Verdict::Taken | Verdict::TooLarge { .. } | Verdict::NoMemory => false,
    }
}

/// Whether the channels are to be mended after a line, by whether a mend was refused just before it.
pub(crate) fn is_due(refused: bool, verdict: &Verdict) -> bool
    ensures { result ≡ is_due refused verdict.now }
{
    !refused && needs_mend(verdict)
}
