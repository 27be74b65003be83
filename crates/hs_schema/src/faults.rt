//! Why a table line is refused.
ghost use Rattle.std.specs.Prelude.{◌≡◌};

use std::alloc::{AllocError, AllocFailed};
use thiserror::Error;

/// The rules that a table line may break.
#[derive(Clone, Copy, Debug, PartialEq, Eq)]
pub enum SchemaRule {
    /// A name isn't one or is that of no column, or the primary index isn't named PRIMARY, or
    /// another is.
    BadName,
    /// A token is missing or isn't what its place asks for.
    BadKind,
    DuplicateName,
    NoPrimary,
    /// More tables, columns, indexes, parts or bytes of a row than there may be.
    TooMany,
}

/// Why a table wasn't added.
#[derive(Debug, Drop, Error)]
pub enum SchemaFault {
    /// The line's fault: the first rule that is broken, and the numbers of the table and of the
    /// token, both from 0. A missing token has the number of tokens.
    #[error("table {table} breaks the rule {rule:?} at token {token}")]
    Broken {
        rule: SchemaRule,
        table: u32,
        token: u32,
    },
    #[error("memory ran out")]
    NoMemory,
}

/// The same of one line.
#[derive(Debug, Drop)]
pub(crate) enum LineFault {
    Broken(SchemaRule, u32),
    NoMemory,
}

impl From<AllocError> for LineFault {
    ghost use Rattle.hs_schema.specs.declared.faults.LineFault.TheVariants.{NoMemory};

    ghost from_gives = { λ _ fault. fault ≡ NoMemory };

    fn from(_error: AllocError) -> LineFault {
        LineFault::NoMemory
    }
}

impl<T: Drop> From<AllocFailed<T>> for LineFault {
    ghost use Rattle.hs_schema.specs.declared.faults.LineFault.TheVariants.{NoMemory};

    ghost from_gives = { λ _ fault. fault ≡ NoMemory };

    fn from(_failed: AllocFailed<T>) -> LineFault {
        LineFault::NoMemory
    }
}

impl From<AllocError> for SchemaFault {
    ghost use Rattle.hs_schema.specs.declared.faults.SchemaFault.TheVariants.{NoMemory};

    ghost from_gives = { λ _ fault. fault ≡ NoMemory };

    fn from(_error: AllocError) -> SchemaFault {
        SchemaFault::NoMemory
    }
}
