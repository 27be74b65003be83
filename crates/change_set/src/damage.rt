//! Why bytes are not read as changes.
ghost use Rattle.std.specs.Prelude.{◌≡◌};
ghost use Rattle.change_set.specs.declared.damage.Damage.TheVariants.{NoMemory};

use std::alloc::{AllocError, AllocFailed};

/// What is wrong with the bytes, or that memory ran out.
#[derive(Clone, Copy, Debug, PartialEq, Eq)]
pub enum Damage {
    /// The offset of the first change that can't be read, does not fit the schema, or does not
    /// stand behind the one before it; 0 where the number of changes is cut short or 0; the end of
    /// the last change where bytes are left over.
    Bad(u64),
    NoMemory,
}

impl From<AllocError> for Damage {
    ghost from_gives = { λ _ e. e ≡ NoMemory };

    fn from(_e: AllocError) -> Damage {
        Damage::NoMemory
    }
}

impl<T: Drop> From<AllocFailed<T>> for Damage {
    ghost from_gives = { λ _ e. e ≡ NoMemory };

    fn from(_e: AllocFailed<T>) -> Damage {
        Damage::NoMemory
    }
}
