// Why a call was refused.
use std::alloc::{AllocError, AllocFailed};

/// Out of memory. What was asked for is as before.
#[derive(Clone, Copy, Debug, PartialEq, Eq)]
pub struct NoMemory;

impl From<AllocError> for NoMemory {
    fn from(_refused: AllocError) -> NoMemory {
        NoMemory
    }
}

impl<T: Drop> From<AllocFailed<T>> for NoMemory {
    fn from(_refused: AllocFailed<T>) -> NoMemory {
        NoMemory
    }
}

/// Why an event or its headers were refused.
#[derive(Debug, Drop)]
pub enum EventRefused {
    /// The first key that stands a second time.
    RepeatedKey { key: String },
    /// The size in bytes, which is more than an event may have.
    TooLarge { size: u64 },
    /// Out of memory.
    NoMemory,
}

impl From<AllocError> for EventRefused {
    ghost use Rattle.std.specs.Prelude.{◌≡◌};
    ghost use Rattle.event_core.specs.declared.refused.EventRefused.TheVariants.{NoMemory};

    ghost from_gives = { λ _ e. e ≡ NoMemory };

    fn from(_refused: AllocError) -> EventRefused {
        EventRefused::NoMemory
    }
}

impl From<NoMemory> for EventRefused {
    ghost use Rattle.std.specs.Prelude.{◌≡◌};
    ghost use Rattle.event_core.specs.declared.refused.EventRefused.TheVariants.{NoMemory};

    ghost from_gives = { λ _ e. e ≡ NoMemory };

    fn from(_refused: NoMemory) -> EventRefused {
        EventRefused::NoMemory
    }
}
