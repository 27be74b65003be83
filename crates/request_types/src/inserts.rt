//! A row to be inserted.
ghost use Rattle.std.specs.Prelude.{◌≡◌, IfOk};

use row_types::{List, Value, copy_row};
use std::alloc::{AllocError, Global};

/// A row to be inserted. The other columns take their presets.
#[derive(Debug, Drop)]
pub struct InsertSpec {
    pub table: u32,
    /// Places in the table's list of columns. The values go with them by place, and are as many.
    pub columns: List<u32>,
    pub values: List<Value>,
}

impl InsertSpec {
    /// An equal row with memory of its own.
    pub fn copy(&self, alloc: Global) -> Result<InsertSpec, AllocError>
        ensures { IfOk result (λ copy. copy ≡ self.now) }
    {
        let columns = Vec::from_slice(alloc, self.columns.as_slice())?;
        Ok(InsertSpec {
            table: self.table,
            columns: List::of_vec(columns),
            values: copy_row(alloc, &self.values)?,
        })
    }
}
