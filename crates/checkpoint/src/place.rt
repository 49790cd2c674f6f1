// The numbers that a checkpoint has beside its lists.

/// The place of a commit byte in a log: the number of its file, and its offset there.
#[derive(Clone, Copy, Debug, PartialEq, Eq)]
pub struct Place {
    pub file: u32,
    pub at: u64,
}

/// The numbers of the next event and of the next transaction.
#[derive(Clone, Copy, Debug, PartialEq, Eq)]
pub struct Next {
    pub number: u64,
    pub txn: u64,
}
