//! The order of rows, and how many of them count.
ghost use Rattle.std.specs.Prelude.{◌≡◌, IfOk};

use row_types::List;
use std::alloc::{AllocError, Global};

/// A column of ORDER BY. NULL comes first, and with `down` last.
#[derive(Clone, Copy, Debug, PartialEq, Eq)]
pub struct OrderKey {
    pub column: u32,
    pub down: bool,
}

/// Of the rows in order the first `offset` are passed over, and at most `count` are taken.
#[derive(Clone, Copy, Debug, PartialEq, Eq)]
pub struct Limit {
    pub offset: u64,
    pub count: u64,
}

/// Equal keys with memory of their own.
pub(crate) fn copy_order(
    alloc: Global,
    order: &List<OrderKey>,
) -> Result<List<OrderKey>, AllocError>
    ensures { IfOk result (λ copies. copies ≡ order.now) }
{
    Ok(List::of_vec(Vec::from_slice(alloc, order.as_slice())?))
}
