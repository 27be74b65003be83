//! What happens to the selected rows.
ghost use Rattle.std.specs.Prelude.{◌≡◌, IfOk};

use row_types::{List, Value, copy_row};
use std::alloc::{AllocError, Global};

/// How a selected row is changed.
#[derive(Clone, Copy, Debug, PartialEq, Eq)]
pub enum ModKind {
    /// The first answered columns take the values.
    Update,
    /// The values are added to the first answered columns.
    Add,
    /// The values are taken off the first answered columns, but for a cell whose sign would turn.
    Subtract,
    /// The row is deleted.
    Remove,
}

/// A change of the selected rows. `show` says whether the rows are answered, from before the
/// change, or their number.
#[derive(Debug, Drop)]
pub struct ModSpec {
    pub kind: ModKind,
    pub values: List<Value>,
    pub show: bool,
}

impl ModSpec {
    /// An equal change with memory of its own.
    pub fn copy(&self, alloc: Global) -> Result<ModSpec, AllocError>
        ensures { IfOk result (λ copy. copy ≡ self.now) }
    {
        Ok(ModSpec {
            kind: self.kind,
            values: copy_row(alloc, &self.values)?,
            show: self.show,
        })
    }
}
