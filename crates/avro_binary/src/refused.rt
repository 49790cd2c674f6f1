// Why no value is read.
use event_core::NoMemory;
use std::alloc::AllocError;

/// Why no value is read. Offsets count from the first of the bytes that were passed.
#[derive(Clone, Copy, Debug, PartialEq, Eq)]
pub enum ValueRefused {
    /// The bytes end within the field at this offset, which could be whole with `need` bytes.
    Short { at: u64, need: u64 },
    /// The field at this offset is whole, and is the first at fault.
    Bad { at: u64 },
    /// The value is whole, its first event above 33,554,432 bytes has this size, and `end` is the offset after it.
    TooLarge { size: u64, end: u64 },
    /// Memory ran out.
    NoMemory,
}

impl From<AllocError> for ValueRefused {
    ghost use Rattle.std.specs.Prelude.{◌≡◌};
    ghost use Rattle.avro_binary.specs.declared.refused.ValueRefused.TheVariants.{NoMemory};

    ghost from_gives = { λ _ e. e ≡ NoMemory };

    fn from(_refused: AllocError) -> ValueRefused {
        ValueRefused::NoMemory
    }
}

impl From<NoMemory> for ValueRefused {
    ghost use Rattle.std.specs.Prelude.{◌≡◌};
    ghost use Rattle.avro_binary.specs.declared.refused.ValueRefused.TheVariants as refusals;

    ghost from_gives = { λ _ e. e ≡ refusals.NoMemory };

    fn from(_refused: NoMemory) -> ValueRefused {
        ValueRefused::NoMemory
    }
}
