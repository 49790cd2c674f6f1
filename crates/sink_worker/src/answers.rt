// What follows on what a sink run came to.
ghost use Rattle.std.specs.Prelude.{◌≡◌};
ghost use Rattle.sink_worker.specs.Answers.{is_broken, needs_mend, pause_after};

use channel_face::{BeginRefused, FaceRefused, PutRefused, StageCause, TakeRefused};
use sink_runner::{Turn, TurnCause};

// Whether the channel was broken.
fn is_broken(refused: &FaceRefused) -> bool
    ensures { result ≡ is_broken refused.now }
{
    matches!(
        refused,
        FaceRefused::Begin(BeginRefused::Broken)
            | FaceRefused::Put(PutRefused::Broken)
            | FaceRefused::Take(TakeRefused::Broken)
            | FaceRefused::Stage(StageCause::Broken)
    )
}

/// Whether a run met a broken channel, or left its commit in doubt.
pub(crate) fn needs_mend(turn: &Turn) -> bool
    ensures { result ≡ needs_mend turn.now }
{
    match turn {
        Turn::InDoubt => true,
        Turn::Failed {
            cause: TurnCause::Channel(refused),
        } => is_broken(refused),
        _ => false,
    }
}

/// How long to pause after a run, in milliseconds.
pub(crate) fn pause_after(turn: &Turn) -> u32
    ensures { result ≡ pause_after turn.now }
{
    match turn {
        Turn::Delivered { .. } => 0,
        Turn::Empty => 100,
        Turn::Failed { .. } | Turn::InDoubt | Turn::NoMemory => 1_000,
    }
}
