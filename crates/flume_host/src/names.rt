// The names of a disk's files, and what the outside refuses.
ghost use Rattle.std.specs.Prelude.{◌≡◌};
ghost use Rattle.flume_host.specs.Folder.{name_below, same_name};

/// A file that is read whole has at most this many bytes.
pub const FILE_LIMIT: u64 = 1_048_576;

/// A fault of the outside, which the object that met it has counted.
#[derive(Clone, Copy, Debug, PartialEq, Eq)]
pub struct Failed;

/// Out of memory. What was asked for is as before.
#[derive(Clone, Copy, Debug, PartialEq, Eq)]
pub struct NoMemory;

/// The name of a file in a channel's folder. All log files come before all checkpoints, and each kind goes by number.
#[derive(Clone, Copy, Debug, PartialEq, Eq)]
pub enum FileName {
    /// A log file.
    Log(u32),
    /// A checkpoint.
    Check(u32),
}

impl FileName {
    /// Whether two names are the same.
    pub fn is_same(self, other: FileName) -> bool
        ensures { result ≡ same_name self other }
    {
        match (self, other) {
            (FileName::Log(m), FileName::Log(n)) => m == n,
            (FileName::Check(m), FileName::Check(n)) => m == n,
            _ => false,
        }
    }

    /// Whether a name comes before another: logs first, each kind by its numbers.
    pub fn is_below(self, other: FileName) -> bool
        ensures { result ≡ name_below self other }
    {
        match (self, other) {
            (FileName::Log(m), FileName::Log(n)) => m < n,
            (FileName::Log(_), FileName::Check(_)) => true,
            (FileName::Check(_), FileName::Log(_)) => false,
            (FileName::Check(m), FileName::Check(n)) => m < n,
        }
    }
}

/// Why an object could not be opened by its name.
#[derive(Clone, Copy, Debug, PartialEq, Eq)]
pub enum NameRefused {
    /// A fault of the outside, which the host has counted.
    Failed,
    /// Out of memory.
    NoMemory,
}

/// Why a file could not be read whole.
#[derive(Clone, Copy, Debug, PartialEq, Eq)]
pub enum FileRefused {
    /// A fault of the outside, which the host has counted.
    Failed,
    /// The file has more than 1,048,576 bytes.
    TooLarge {
        /// How many it has.
        size: u64,
    },
    /// Out of memory.
    NoMemory,
}
