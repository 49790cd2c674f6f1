//! Why an agent has no plan.

ghost use Rattle.std.specs.Prelude.{◌≡◌};
ghost use Rattle.plan_refused.specs.declared.refused.PlanRefused.TheVariants.{NoMemory};

use std::alloc::{AllocError, AllocFailed};
use thiserror::Error;

/// The first fault of an agent's configuration, or out of memory. Its text is the line that a user reads; who knows the agent's
/// name puts it after that of `NoAgent`.
#[derive(Debug, Drop, Error)]
pub enum PlanRefused {
    /// No key begins with the agent's name and a dot.
    #[error("no agent")]
    NoAgent,
    /// A type that is not in the table of components.
    #[error("line {line}: unknown type")]
    UnknownType { line: u32 },
    /// A name that is not in the list in which it has to be.
    #[error("line {line}: unknown name")]
    UnknownName { line: u32 },
    /// Neither a number nor a truth value where one is wanted, or a number out of its limits.
    #[error("line {line}: bad number")]
    BadNumber { line: u32 },
    /// A text that is no pattern.
    #[error("line {line}: bad pattern")]
    BadPattern { line: u32 },
    /// What Flume has and this agent has not.
    #[error("line {line}: unsupported")]
    Unsupported { line: u32 },
    /// Two components claim what only one can have; the later line.
    #[error("line {line}: clash")]
    Clash { line: u32 },
    /// A required key is not there.
    #[error("missing {key}")]
    Missing { key: String },
    #[error("no memory")]
    NoMemory,
}

impl From<AllocError> for PlanRefused {
    ghost from_gives = { λ _ e. e ≡ NoMemory };

    fn from(_e: AllocError) -> PlanRefused {
        PlanRefused::NoMemory
    }
}

impl<T: Drop> From<AllocFailed<T>> for PlanRefused {
    ghost from_gives = { λ _ e. e ≡ NoMemory };

    fn from(_e: AllocFailed<T>) -> PlanRefused {
        PlanRefused::NoMemory
    }
}
