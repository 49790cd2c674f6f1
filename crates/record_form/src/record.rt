// Records, and what reading one answers.
use event_core::Event;

/// The greatest size of an event in a PUT record, in bytes.
pub const MAX_PUT_SIZE: u32 = 1_048_576;

// The kind bytes.
pub(crate) const PUT: u8 = 1;

pub(crate) const TAKE: u8 = 2;

pub(crate) const ROLLBACK: u8 = 3;

pub(crate) const COMMIT_PUT: u8 = 4;

pub(crate) const COMMIT_TAKE: u8 = 5;

pub(crate) const END: u8 = 6;

// Where a PUT has its event's length, its event, and the event's headers.
pub(crate) const SIZE_AT: usize = 9;

pub(crate) const EVENT_AT: usize = 13;

pub(crate) const HEADERS_AT: usize = 17;

/// A record of the log.
#[derive(Drop)]
pub enum Rec {
    /// An event that a transaction puts.
    Put { txn: u64, event: Event },
    /// The number of an event that a transaction takes.
    Take { txn: u64, number: u64 },
    /// The end of a transaction without effect.
    Rollback { txn: u64 },
    /// The commit of a transaction's puts: the number of the first event, and how many there are.
    CommitPut { txn: u64, first: u64, count: u32 },
    /// The commit of a transaction's takes, and how many there are.
    CommitTake { txn: u64, count: u32 },
    /// The end of a frame, and how many records stand before it there.
    End { count: u32 },
}

/// What a record says, with the length of its event in place of the event.
#[derive(Clone, Copy, Debug, PartialEq, Eq)]
pub enum Outline {
    /// The length of an event that a transaction puts.
    Put { txn: u64, length: u32 },
    /// The number of an event that a transaction takes.
    Take { txn: u64, number: u64 },
    /// The end of a transaction without effect.
    Rollback { txn: u64 },
    /// The commit of a transaction's puts: the number of the first event, and how many there are.
    CommitPut { txn: u64, first: u64, count: u32 },
    /// The commit of a transaction's takes, and how many there are.
    CommitTake { txn: u64, count: u32 },
    /// The end of a frame, and how many records stand before it there.
    End { count: u32 },
}

/// What the bytes from some place on begin with.
#[derive(Clone, Copy, Debug, PartialEq, Eq)]
pub enum Read {
    /// A record of this kind (its first byte) and this length.
    Whole { kind: u8, length: u32 },
    /// The front of a record: the bytes end within a field, and no field before is at fault.
    Part,
    /// No record: the field at this offset is the first at fault.
    Bad { at: u32 },
}

/// Where a PUT record stands: its file, the offset of its kind byte, and the length of its event.
#[derive(Clone, Copy, Debug, PartialEq, Eq)]
pub struct Pointer {
    pub file: u32,
    pub at: u64,
    pub length: u32,
}
