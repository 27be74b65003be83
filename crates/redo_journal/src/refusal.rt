//! Why a journal is not opened, or a record not appended.
ghost use Rattle.std.specs.Prelude.{◌≡◌};
ghost use Rattle.redo_journal.specs.declared.refusal.Refusal.TheVariants.{DiskFault as disk_fault, NoMemory};

use hs_disk::Failed;
use std::alloc::{AllocError, AllocFailed};
use thiserror::Error;

/// A call of the disk failed.
#[derive(Clone, Copy, Debug, PartialEq, Eq, Error)]
#[error("the disk failed")]
pub struct DiskFault;

impl From<Failed> for DiskFault {
    fn from(_: Failed) -> Self {
        DiskFault
    }
}

/// Why a journal is not opened.
#[derive(Clone, Copy, Debug, PartialEq, Eq, Error)]
pub enum Refusal {
    #[error("the journal has another schema")]
    OtherSchema,
    /// The place of the gate, from 0.
    #[error("the journal is damaged at {0}")]
    Damaged(u64),
    #[error("the disk failed")]
    DiskFault,
    #[error("out of memory")]
    NoMemory,
}

impl From<Failed> for Refusal {
    ghost from_gives = { λ _ refusal. refusal ≡ disk_fault };

    fn from(_: Failed) -> Self {
        Refusal::DiskFault
    }
}

impl From<DiskFault> for Refusal {
    ghost from_gives = { λ _ refusal. refusal ≡ disk_fault };

    fn from(_: DiskFault) -> Self {
        Refusal::DiskFault
    }
}

impl From<AllocError> for Refusal {
    ghost from_gives = { λ _ refusal. refusal ≡ NoMemory };

    fn from(_: AllocError) -> Self {
        Refusal::NoMemory
    }
}

impl<T: Drop> From<AllocFailed<T>> for Refusal {
    ghost from_gives = { λ _ refusal. refusal ≡ NoMemory };

    fn from(_: AllocFailed<T>) -> Self {
        Refusal::NoMemory
    }
}
