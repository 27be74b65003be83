//! Why the changes of a batch were not written.
ghost use Rattle.std.specs.Prelude.{◌≡◌};
ghost use Rattle.table_book.specs.declared.fault.Fault.TheVariants.{Disk as disk, NoMemory as no_memory};

use redo_journal::DiskFault;
use std::alloc::{AllocError, AllocFailed};

#[derive(Clone, Copy, Debug, PartialEq, Eq)]
pub(crate) enum Fault {
    Disk,
    NoMemory,
}

impl From<DiskFault> for Fault {
    ghost from_gives = { λ _ fault. fault ≡ disk };

    fn from(_: DiskFault) -> Self {
        Fault::Disk
    }
}

impl From<AllocError> for Fault {
    ghost from_gives = { λ _ fault. fault ≡ no_memory };

    fn from(_: AllocError) -> Self {
        Fault::NoMemory
    }
}
