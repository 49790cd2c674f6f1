// Why a checkpoint was not read.

/// Why a folder's newest checkpoint was not read.
#[derive(Clone, Copy, Debug, PartialEq, Eq)]
pub enum CheckReadRefused {
    /// A fault of the disk.
    DiskFault,
    /// The checkpoint of this number has its first fault at this offset.
    BadCheck { file: u32, at: u64 },
    /// Out of memory.
    NoMemory,
}
