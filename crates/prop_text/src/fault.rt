//! Why a text has no properties.

ghost use Rattle.std.specs.Prelude.{◌≡◌};
ghost use Rattle.prop_text.specs.declared.fault.PropRefused.TheVariants.{NoMemory};

use std::alloc::{AllocError, AllocFailed};
use thiserror::Error;

/// The first fault of a properties text, or out of memory. Its text is the line that a user reads.
#[derive(Clone, Copy, PartialEq, Eq, Debug, Error)]
pub enum PropRefused {
    /// No text goes on with the byte at this offset, or the bytes end within a character and this is their length.
    #[error("byte {at}: not UTF-8")]
    NotUtf8 { at: usize },
    /// A `\u` without four hexadecimal digits or half a surrogate pair, on the logical line that begins on this line.
    #[error("line {line}: bad escape")]
    BadEscape { line: u32 },
    #[error("no memory")]
    NoMemory,
}

impl From<AllocError> for PropRefused {
    ghost from_gives = { λ _ e. e ≡ NoMemory };

    fn from(_e: AllocError) -> PropRefused {
        PropRefused::NoMemory
    }
}

impl<T: Drop> From<AllocFailed<T>> for PropRefused {
    ghost from_gives = { λ _ e. e ≡ NoMemory };

    fn from(_e: AllocFailed<T>) -> PropRefused {
        PropRefused::NoMemory
    }
}
