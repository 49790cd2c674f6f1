// Why a folder was not opened.

/// Why a folder was not opened from its newest checkpoint.
#[derive(Clone, Copy, Debug, PartialEq, Eq)]
pub enum OpeningRefused {
    /// A fault of the disk.
    DiskFault,
    /// The newest checkpoint has this number, and its first fault at this offset.
    BadCheck { file: u32, at: u64 },
    /// The log after the checkpoint's place has its first fault in this file at this offset.
    BadLog { file: u32, at: u64 },
    /// So many events are left, more than the capacity.
    OverCapacity { count: u64 },
    /// Out of memory.
    NoMemory,
}
