// A checkpoint as it was read.
use crate::place::{Next, Place};
use event_ring::Ring;
use open_table::OpenTable;

/// A checkpoint: the number of its file, the place after which the log goes on, the next numbers, the events that are left,
/// and the open transactions. What these take is held in the ring, and nothing else.
#[derive(Drop)]
pub struct Check {
    pub number: u32,
    pub place: Place,
    pub next: Next,
    pub ring: Ring,
    pub table: OpenTable,
}
