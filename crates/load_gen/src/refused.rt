// Why a run of the generator ended before its end.
use channel_face::{CheckRefused, FaceRefused, PruneRefused};

/// Why a run of the generator ended before its end.
#[derive(Clone, Copy, Debug, PartialEq, Eq)]
pub enum LoadRefused {
    /// The channel refused a call of a transaction: this is what it answered.
    Face(FaceRefused),
    /// It refused to lay a checkpoint: this is what it answered.
    Check(CheckRefused),
    /// It refused to remove old files: this is what it answered.
    Prune(PruneRefused),
    /// There was no memory for an event's text or for the summary.
    NoMemory,
}
