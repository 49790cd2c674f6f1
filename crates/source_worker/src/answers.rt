// What follows on what a round came to.
ghost use Rattle.std.specs.Prelude.{◌≡◌, IsTrue, IsFalse};
ghost use Rattle.source_worker.specs.Rounds.{IsStopped, is_due};

use crate::ends::LinkEnd;
use avro_ends::AvroEnd;
use flume_host::Failed;
use netcat_source::SessionEnd;

/// Whether the channels are to be mended.
pub(crate) fn is_due(due: bool, found: &Result<Option<LinkEnd>, Failed>) -> bool
    ensures { result ≡ is_due due found.now }
{
    match found {
        Ok(Some(_)) => true,
        Ok(None) | Err(_) => due,
    }
}

/// Whether a session was told to stop.
pub(crate) fn is_stopped(found: &Result<Option<LinkEnd>, Failed>) -> bool
    ensures yes { IsTrue result → IsStopped found.now }
    ensures no { IsFalse result → IsStopped found.now → ⊥ }
{
    match found {
        Ok(Some(LinkEnd::Lines(end))) => matches!(end, SessionEnd::Stopped),
        Ok(Some(LinkEnd::Avro(end))) => matches!(end, AvroEnd::Stopped),
        Ok(None) | Err(_) => false,
    }
}

/// How long to pause after a round, in milliseconds, by whether a mend was refused.
pub(crate) fn pause_after(refused: bool, found: &Result<Option<LinkEnd>, Failed>) -> u32 {
    if refused || found.is_err() { 1_000 } else { 0 }
}
