//! Why a field is not read.
ghost use Rattle.std.specs.Prelude.{◌≡◌};
ghost use Rattle.change_set.specs.declared.fault.Fault.TheVariants.{NoMemory};
ghost use Rattle.change_set.specs.Reading.{damage_at};

use crate::damage::Damage;
use std::alloc::{AllocError, AllocFailed};

/// The bytes are no such field, or memory ran out.
#[derive(Clone, Copy, Debug)]
pub(crate) enum Fault {
    Unreadable,
    NoMemory,
}

impl Fault {
    /// What is wrong with the bytes, where the field stands at this place.
    pub(crate) fn at(self, place: usize) -> Damage
        ensures { result ≡ damage_at place self }
    {
        match self {
            Fault::Unreadable => Damage::Bad(place as u64),
            Fault::NoMemory => Damage::NoMemory,
        }
    }
}

impl From<AllocError> for Fault {
    ghost from_gives = { λ _ e. e ≡ NoMemory };

    fn from(_e: AllocError) -> Fault {
        Fault::NoMemory
    }
}

impl<T: Drop> From<AllocFailed<T>> for Fault {
    ghost from_gives = { λ _ e. e ≡ NoMemory };

    fn from(_e: AllocFailed<T>) -> Fault {
        Fault::NoMemory
    }
}
