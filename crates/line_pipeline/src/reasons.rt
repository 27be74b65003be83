//! Why a connection is closed, or isn't added.
use std::alloc::AllocError;
use thiserror::Error;

/// Why a connection is closed.
#[derive(Clone, Copy, Debug, PartialEq, Eq)]
pub enum Reason {
    /// The peer has ended, and all that it asked for was answered.
    Ended,
    LinkFault,
    /// A line is longer than a line may be.
    TooLong,
    BatchDisk,
    BatchMemory,
}

/// Whether a connection is closed, and why.
#[derive(Clone, Copy, Debug, PartialEq, Eq)]
pub enum ConnState {
    Live,
    Closed(Reason),
}

/// Why a connection isn't added.
#[derive(Debug, Drop, Error)]
pub enum AddFault {
    /// As many as may be are held, or the last generation was given out.
    #[error("no further connection can be held")]
    Full,
    #[error("memory ran out")]
    NoMemory,
}

impl From<AllocError> for AddFault {
    ghost use Rattle.std.specs.Prelude.{◌≡◌};
    ghost use Rattle.line_pipeline.specs.declared.reasons.AddFault.TheVariants.{NoMemory};

    ghost from_gives = { λ _ fault. fault ≡ NoMemory };

    fn from(_error: AllocError) -> AddFault {
        AddFault::NoMemory
    }
}
