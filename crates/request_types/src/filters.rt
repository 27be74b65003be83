//! Conditions on a row's columns.
ghost use Rattle.std.specs.Prelude.{◌≡◌, IfOk};

use row_types::{List, Value, copy_value};
use std::alloc::{AllocError, Global};

/// How a cell has to stand to a filter's value. NULL equals NULL and stands before every other
/// value.
#[derive(Clone, Copy, Debug, PartialEq, Eq)]
pub enum FilterOp {
    Equal,
    NotEqual,
    Greater,
    GreaterEqual,
    Less,
    LessEqual,
}

/// A condition on a column. `stop` says what a row that fails it does: it ends the request, or is
/// passed over alone.
#[derive(Debug, Drop)]
pub struct FilterSpec {
    pub stop: bool,
    pub op: FilterOp,
    pub column: u32,
    pub value: Value,
}

impl FilterSpec {
    /// An equal filter with memory of its own.
    pub fn copy(&self, alloc: Global) -> Result<FilterSpec, AllocError>
        ensures { IfOk result (λ copy. copy ≡ self.now) }
    {
        Ok(FilterSpec {
            stop: self.stop,
            op: self.op,
            column: self.column,
            value: copy_value(alloc, &self.value)?,
        })
    }
}

/// Equal filters in the same order, with memory of their own.
pub(crate) fn copy_filters(
    alloc: Global,
    filters: &List<FilterSpec>,
) -> Result<List<FilterSpec>, AllocError>
    ensures { IfOk result (λ copies. copies ≡ filters.now) }
{
    let filters = filters.as_slice();
    let mut copies = Vec::with_capacity(alloc, filters.len())?;
    for filter in filters {
        copies.push(filter.copy(alloc)?)?;
    }
    Ok(List::of_vec(copies))
}
