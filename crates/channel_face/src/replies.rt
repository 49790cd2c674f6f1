// What the calls of a channel answer, and what they refuse.
use event_core::Event;

/// What a channel keeps its events in.
#[derive(Clone, Copy, Debug, PartialEq, Eq)]
pub enum Kind {
    /// A folder of files.
    File,
    /// Memory alone.
    Memory,
}

/// The limits of a channel (Flume User Guide, "File Channel" and "Memory Channel").
#[derive(Clone, Copy, Debug, PartialEq, Eq)]
pub struct Limits {
    /// The most events (`capacity`).
    pub capacity: u32,
    /// The most puts or takes of one transaction (`transactionCapacity`).
    pub txn_capacity: u32,
    /// From this length on, in bytes, a log file is followed by a new one (`maxFileSize`). A memory channel does not read it.
    pub max_file: u64,
}

/// What a staged transaction is known by until it is settled.
#[derive(Clone, Copy, Debug, PartialEq, Eq)]
pub struct Ticket {
    /// The channel's life: 1 once it was opened, and one more with each reopen.
    pub life: u64,
    /// The number of the frame that is to carry the transaction, or 0 where it has no puts and no takes.
    pub frame: u64,
    /// The number of its first event, for puts. For takes it is 0.
    pub first: u64,
    /// How many puts or takes it has.
    pub count: u32,
}

/// Whether what a ticket stands for is settled. It goes by the ticket's life and frame alone.
#[derive(Clone, Copy, Debug, PartialEq, Eq)]
pub enum Settled {
    /// The flush that carried it answered Ok.
    Yes,
    /// It is staged, and no flush has carried it.
    No,
    /// The flush that carried it failed, or the channel broke or was reopened before one.
    InDoubt,
}

/// A number that counts up and has come to its last value.
#[derive(Clone, Copy, Debug, PartialEq, Eq)]
pub enum Counter {
    /// Of transactions.
    Txn,
    /// Of events.
    Number,
    /// Of log files.
    File,
    /// Of checkpoints.
    Check,
    /// Of lives.
    Life,
    /// Of the calls of a shared channel.
    Calls,
}

/// An event was put.
#[derive(Clone, Copy, Debug, PartialEq, Eq)]
pub struct Put {
    /// The put flushed first, because the frame had no room for the event. Every staged transaction is then settled.
    pub spilled: bool,
}

/// What a take gave.
#[derive(Drop)]
pub struct Taken {
    /// The event, or none where each event that is left is held by a transaction.
    pub event: Option<Event>,
    /// The take flushed first, because the frame had no room for it. Every staged transaction is then settled.
    pub spilled: bool,
}

/// Why no transaction was begun.
#[derive(Clone, Copy, Debug, PartialEq, Eq)]
pub enum BeginRefused {
    /// The channel is broken until it is reopened.
    Broken,
    /// So many transactions are open, which is the most.
    TooManyOpen { held: u32 },
    /// A number has come to its end.
    Spent { counter: Counter },
    /// Out of memory.
    NoMemory,
}

/// Why an event was not put.
#[derive(Clone, Copy, Debug, PartialEq, Eq)]
pub enum PutRefused {
    /// The token's transaction is not open in this life of the channel.
    Stale,
    /// The channel is broken until it is reopened.
    Broken,
    /// A number has come to its end.
    Spent { counter: Counter },
    /// The transaction has so many puts, which is the most.
    TxnFull { count: u32 },
    /// The event has this size in bytes, which is more than a channel keeps.
    TooLarge { size: u64 },
    /// The channel has so many events, those of open and staged puts counted, which is its capacity.
    Full { count: u32 },
    /// The device failed, and the channel is broken.
    DiskFault,
    /// Out of memory.
    NoMemory,
}

/// Why no event was taken.
#[derive(Clone, Copy, Debug, PartialEq, Eq)]
pub enum TakeRefused {
    /// The token's transaction is not open in this life of the channel.
    Stale,
    /// The channel is broken until it is reopened.
    Broken,
    /// A number has come to its end.
    Spent { counter: Counter },
    /// The transaction has so many takes, which is the most.
    TxnFull { count: u32 },
    /// The device failed in a read. The channel is as before.
    ReadFault,
    /// The event's size as kept, and the size of the event that is spelled at its place, if there is one. They differ.
    Damaged { kept: u32, found: Option<u32> },
    /// Out of memory.
    NoMemory,
    /// The device failed, and the channel is broken.
    DiskFault,
}

/// Why a transaction was not staged.
#[derive(Clone, Copy, Debug, PartialEq, Eq)]
pub enum StageCause {
    /// The token's transaction is not open in this life of the channel.
    Stale,
    /// The channel is broken until it is reopened.
    Broken,
    /// The channel has so many events, those of staged puts counted, and the transaction's puts pass its capacity.
    Full { count: u32 },
    /// A number has come to its end.
    Spent { counter: Counter },
}

/// A transaction that was not staged. It hands the token back, which still has to be spent.
pub struct StageRefused<T> {
    pub txn: T,
    pub cause: StageCause,
}

/// A transaction that was not committed.
pub enum CommitRefused<T> {
    /// It was not staged, and its token comes back.
    Stage(StageRefused<T>),
    /// It was staged, and its flush was refused.
    InDoubt,
}

/// Why nothing was flushed.
#[derive(Clone, Copy, Debug, PartialEq, Eq)]
pub enum FlushRefused {
    /// The channel is broken until it is reopened.
    Broken,
    /// The device failed, and the channel is broken.
    DiskFault,
    /// A number has come to its end.
    Spent { counter: Counter },
}

/// What is counted of a channel (Flume User Guide, "Monitoring"). Each count stops at 2^64 - 1.
#[derive(Clone, Copy, Debug, PartialEq, Eq)]
pub struct Counts {
    /// The calls of put, whatever they answered (`EventPutAttemptCount`).
    pub put_attempts: u64,
    /// The events of put transactions that were settled (`EventPutSuccessCount`).
    pub put_successes: u64,
    /// The calls of take, whatever they answered (`EventTakeAttemptCount`).
    pub take_attempts: u64,
    /// The events of take transactions that were settled (`EventTakeSuccessCount`).
    pub take_successes: u64,
    /// The events that are left (`ChannelSize`).
    pub size: u64,
    /// The most events (`ChannelCapacity`).
    pub capacity: u64,
}

/// Why a whole transaction of a source or a sink was refused.
#[derive(Clone, Copy, Debug, PartialEq, Eq)]
pub enum FaceRefused {
    /// It was not begun.
    Begin(BeginRefused),
    /// An event was not put. The transaction was rolled back.
    Put(PutRefused),
    /// No event was taken.
    Take(TakeRefused),
    /// It was not staged, and was rolled back.
    Stage(StageCause),
    /// It was staged, and is not known to be settled.
    InDoubt,
}

/// Why a channel was not opened or reopened.
#[derive(Clone, Copy, Debug, PartialEq, Eq)]
pub enum OpenCause {
    /// The device failed.
    DiskFault,
    /// A checkpoint file is at fault from this byte on.
    BadCheck { file: u32, at: u64 },
    /// A log file is at fault from this byte on.
    BadLog { file: u32, at: u64 },
    /// So many events are left, which is more than the capacity.
    OverCapacity { count: u64 },
    /// A number has come to its end.
    Spent { counter: Counter },
    /// Out of memory.
    NoMemory,
}

/// Why no checkpoint was laid.
#[derive(Clone, Copy, Debug, PartialEq, Eq)]
pub enum CheckRefused {
    /// The channel is broken until it is reopened.
    Broken,
    /// A number has come to its end.
    Spent { counter: Counter },
    /// The flush failed, and the channel is broken.
    DiskFault,
    /// The checkpoint's own file failed. What was staged is settled, and the channel is not broken.
    CheckFault,
}

/// Why no files were removed.
#[derive(Clone, Copy, Debug, PartialEq, Eq)]
pub enum PruneRefused {
    /// The channel is broken until it is reopened.
    Broken,
    /// The device failed. The channel is not broken.
    DiskFault,
    /// A number has come to its end.
    Spent { counter: Counter },
}
