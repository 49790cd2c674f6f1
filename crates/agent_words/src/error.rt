//! Why a run ended otherwise than well.

ghost use Rattle.std.specs.Prelude.{◌≡◌};
ghost use Rattle.agent_words.specs.Statuses.{cause_status, status_of};
ghost use Rattle.agent_words.specs.Unopened.{unopened};
ghost use Rattle.agent_words.specs.declared.error.RunError.TheVariants as errors;

use channel_face::OpenCause;
use plan_refused::PlanRefused;
use prop_text::PropRefused;
use std::alloc::AllocError;
use thiserror::Error;

/// Why a run ended otherwise than well. Its text is the line on standard error.
#[derive(Debug, Drop, Error)]
pub enum RunError {
    /// The words are no command.
    #[error("usage: flume pipe DIR | agent -n NAME -f FILE | check -n NAME -f FILE | load N DIR")]
    Usage,
    /// The configuration file has more bytes than it may.
    #[error("flume: configuration too large")]
    FileTooLarge,
    /// The configuration file's bytes have a fault.
    #[error("flume: {0}")]
    Text(PropRefused),
    /// The configuration file has no agent of this name.
    #[error("flume: no agent {name}")]
    NoAgent {
        name: String,
    },
    /// The agent's configuration has a fault.
    #[error("flume: {0}")]
    Plan(PlanRefused),
    /// A count of faults of the outside rose.
    #[error("flume: fault outside")]
    Fault,
    /// The newest checkpoint of a folder is not right.
    #[error("flume: {dir}: bad checkpoint {file} at {at}")]
    BadCheckpoint {
        dir: String,
        file: u32,
        at: u64,
    },
    /// A log file of a folder is not right.
    #[error("flume: {dir}: bad log {file} at {at}")]
    BadLog {
        dir: String,
        file: u32,
        at: u64,
    },
    /// A folder holds more events than the channel may, or would hold more.
    #[error("flume: {dir}: holds {count}, more than {capacity}")]
    OverCapacity {
        dir: String,
        count: u64,
        capacity: u32,
    },
    /// A number of a folder has come to its last value.
    #[error("flume: {dir}: number at its end")]
    Spent {
        dir: String,
    },
    /// An event of a folder reads otherwise than it was written.
    #[error("flume: {dir}: damaged event")]
    Damaged {
        dir: String,
    },
    #[error("flume: no memory")]
    NoMemory,
    /// As many bytes of standard input were taken as may be.
    #[error("flume: input too long")]
    InputTooLong,
    /// A line of standard input was too long.
    #[error("flume: line too long")]
    LineTooLong,
}

impl From<AllocError> for RunError {
    ghost from_gives = { λ _ e. e ≡ errors.NoMemory };

    fn from(_refused: AllocError) -> RunError {
        RunError::NoMemory
    }
}

impl RunError {
    /// Why a run ended whose channel, in this folder and of this capacity, was not opened for this cause.
    pub fn unopened(dir: String, capacity: u32, cause: OpenCause) -> RunError
        ensures error { result ≡ unopened dir capacity cause }
        ensures status { status_of result ≡ cause_status cause }
    {
        match cause {
            OpenCause::DiskFault => RunError::Fault,
            OpenCause::BadCheck { file, at } => RunError::BadCheckpoint { dir, file, at },
            OpenCause::BadLog { file, at } => RunError::BadLog { dir, file, at },
            OpenCause::OverCapacity { count } => RunError::OverCapacity {
                dir,
                count,
                capacity,
            },
            OpenCause::Spent { .. } => RunError::Spent { dir },
            OpenCause::NoMemory => RunError::NoMemory,
        }
    }

    /// The exit status.
    pub fn status(&self) -> u8
        ensures { result ≡ status_of self.now }
    {
        match self {
            RunError::Usage => 1,
            RunError::Text(PropRefused::NoMemory) => 5,
            RunError::Plan(PlanRefused::NoMemory) => 5,
            RunError::FileTooLarge
            | RunError::Text(_)
            | RunError::NoAgent { .. }
            | RunError::Plan(_) => 2,
            RunError::Fault => 3,
            RunError::BadCheckpoint { .. }
            | RunError::BadLog { .. }
            | RunError::OverCapacity { .. }
            | RunError::Spent { .. }
            | RunError::Damaged { .. } => 4,
            RunError::NoMemory => 5,
            RunError::InputTooLong => 6,
            RunError::LineTooLong => 7,
        }
    }
}
