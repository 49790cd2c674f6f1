// What a run of the generator counts.
ghost use Rattle.std.specs.Prelude.{◌*◌, ◌≤◌};

use md5::Md5;

/// What a run of the generator has done so far.
#[derive(Drop)]
pub(crate) struct Tally {
    // Batches, and the transactions of takes after them that were committed.
    pub(crate) batches: u32,
    pub(crate) committed: u32,
    // The events that these took, and the digest of their bodies, each as a line.
    pub(crate) taken: u64,
    pub(crate) digest: Md5,
    ghost fewer: { committed ≤ batches },
    ghost few: { taken ≤ 50 * batches },
}
