// Why log files can't be recovered.
ghost use Rattle.std.specs.Prelude.{◌≡◌};
ghost use Rattle.channel_replay.specs.Replay.{as_frame, as_record};

use channel_log::FrameRefused;

/// Why whole log files could not be recovered.
#[derive(Clone, Copy, Debug, PartialEq, Eq)]
pub enum RecoverRefused {
    /// The first fault of the log: its file and offset. The offset is 0 for a wrong header, the commit byte's for an open one
    /// without a whole frame, and the record's for one that breaks its rule.
    BadLog { file: u32, at: u64 },
    /// Out of memory.
    NoMemory,
}

/// Why a folder could not be replayed.
#[derive(Clone, Copy, Debug, PartialEq, Eq)]
pub enum ReplayRefused {
    /// A fault of the disk.
    DiskFault,
    /// The first fault of the log: its file and offset, as in [`RecoverRefused::BadLog`].
    BadLog { file: u32, at: u64 },
    /// More events are left than the capacity: this many.
    OverCapacity { count: u64 },
    /// Out of memory.
    NoMemory,
}

/// The refusal of a file that can't be read.
pub fn of_frame(refused: FrameRefused) -> ReplayRefused
    ensures { result ≡ as_frame refused }
{
    match refused {
        FrameRefused::DiskFault => ReplayRefused::DiskFault,
        FrameRefused::BadLog { file, at } => ReplayRefused::BadLog { file, at },
        FrameRefused::NoMemory => ReplayRefused::NoMemory,
    }
}

/// The refusal of a record that can't be applied.
pub fn of_record(refused: RecoverRefused) -> ReplayRefused
    ensures { result ≡ as_record refused }
{
    match refused {
        RecoverRefused::BadLog { file, at } => ReplayRefused::BadLog { file, at },
        RecoverRefused::NoMemory => ReplayRefused::NoMemory,
    }
}
