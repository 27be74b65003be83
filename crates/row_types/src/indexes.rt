//! An index of a table.
ghost use Rattle.std.specs.Prelude.{◌≡◌, IfOk};

use crate::byte_text::ByteText;
use crate::lists::List;
use std::alloc::{AllocError, Global};

/// Whether rows may share an index's key.
#[derive(Clone, Copy, Debug, PartialEq, Eq)]
pub enum IndexKind {
    /// No two rows share it, and no part is NULL.
    Primary,
    /// No two rows share it, but for keys with a NULL part.
    Unique,
    Plain,
}

/// An index over some columns. `parts` are places in the table's list of columns, from 0.
#[derive(Debug, Drop)]
pub struct IndexDef {
    pub name: ByteText,
    pub kind: IndexKind,
    pub parts: List<u32>,
}

impl IndexDef {
    /// An equal index with memory of its own.
    pub fn copy(&self, alloc: Global) -> Result<IndexDef, AllocError>
        ensures { IfOk result (λ copy. copy ≡ self.now) }
    {
        Ok(IndexDef {
            name: self.name.copy(alloc)?,
            kind: self.kind,
            parts: List::of_vec(Vec::from_slice(alloc, self.parts.as_slice())?),
        })
    }
}

/// Equal indexes with memory of their own.
pub(crate) fn copy_indexes(
    alloc: Global,
    indexes: &[IndexDef],
) -> Result<List<IndexDef>, AllocError>
    ensures { IfOk result (λ copy. copy ≡ indexes.now) }
{
    let mut copies = Vec::with_capacity(alloc, indexes.len())?;
    for index in indexes {
        copies.push(index.copy(alloc)?)?;
    }
    Ok(List::of_vec(copies))
}
