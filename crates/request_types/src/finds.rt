//! Which rows a find selects, and what it answers of them.
ghost use Rattle.std.specs.Prelude.{◌≡◌, IfOk};

use crate::filters::{FilterSpec, copy_filters};
use row_types::{List, RowKey, Value, copy_row};
use std::alloc::{AllocError, Global};

/// How the index columns of a selected row stand to the key.
#[derive(Clone, Copy, Debug, PartialEq, Eq)]
pub enum FindOp {
    Equal,
    Greater,
    GreaterEqual,
    Less,
    LessEqual,
}

/// The values that stand for the `part`-th value of the key, one after the other. A repeated value
/// counts once.
#[derive(Debug, Drop)]
pub struct InSpec {
    pub part: u32,
    pub values: List<Value>,
}

impl InSpec {
    /// An equal list with memory of its own.
    pub fn copy(&self, alloc: Global) -> Result<InSpec, AllocError>
        ensures { IfOk result (λ copy. copy ≡ self.now) }
    {
        Ok(InSpec {
            part: self.part,
            values: copy_row(alloc, &self.values)?,
        })
    }
}

fn copy_within(alloc: Global, within: &Option<InSpec>) -> Result<Option<InSpec>, AllocError>
    ensures { IfOk result (λ copy. copy ≡ within.now) }
{
    match within {
        None => Ok(None),
        Some(list) => Ok(Some(list.copy(alloc)?)),
    }
}

/// A find on an index. The key has a value for each of the index's first parts.
///
/// Of the rows that meet every filter the first `offset` are passed over, and at most `limit` are
/// selected.
#[derive(Debug, Drop)]
pub struct FindSpec {
    pub table: u32,
    /// A place in the table's list of indexes.
    pub index: u32,
    pub op: FindOp,
    pub key: RowKey,
    pub within: Option<InSpec>,
    pub limit: u32,
    pub offset: u32,
    pub filters: List<FilterSpec>,
    /// The columns that are answered, in this order.
    pub columns: List<u32>,
}

impl FindSpec {
    /// An equal find with memory of its own.
    pub fn copy(&self, alloc: Global) -> Result<FindSpec, AllocError>
        ensures { IfOk result (λ copy. copy ≡ self.now) }
    {
        let columns = Vec::from_slice(alloc, self.columns.as_slice())?;
        Ok(FindSpec {
            table: self.table,
            index: self.index,
            op: self.op,
            key: copy_row(alloc, &self.key)?,
            within: copy_within(alloc, &self.within)?,
            limit: self.limit,
            offset: self.offset,
            filters: copy_filters(alloc, &self.filters)?,
            columns: List::of_vec(columns),
        })
    }
}
