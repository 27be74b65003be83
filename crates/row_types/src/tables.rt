//! The shape of a table, and of all tables.
ghost use Rattle.std.specs.Prelude.{◌≡◌, IfOk};

use crate::byte_text::ByteText;
use crate::columns::{Column, copy_columns};
use crate::indexes::{IndexDef, copy_indexes};
use crate::lists::List;
use std::alloc::{AllocError, Global};

/// A table's name, within that of its database, its columns and its indexes.
#[derive(Debug, Drop)]
pub struct TableDef {
    pub db: ByteText,
    pub name: ByteText,
    pub columns: List<Column>,
    pub indexes: List<IndexDef>,
}

impl TableDef {
    /// An equal table with memory of its own.
    pub fn copy(&self, alloc: Global) -> Result<TableDef, AllocError>
        ensures { IfOk result (λ copy. copy ≡ self.now) }
    {
        Ok(TableDef {
            db: self.db.copy(alloc)?,
            name: self.name.copy(alloc)?,
            columns: copy_columns(alloc, self.columns.as_slice())?,
            indexes: copy_indexes(alloc, self.indexes.as_slice())?,
        })
    }
}

/// The tables that a server keeps. A table's number is its place here, from 0.
#[derive(Debug, Drop)]
pub struct Schema {
    pub tables: List<TableDef>,
}

impl Schema {
    /// An equal schema with memory of its own.
    pub fn copy(&self, alloc: Global) -> Result<Schema, AllocError>
        ensures { IfOk result (λ copy. copy ≡ self.now) }
    {
        let tables = self.tables.as_slice();
        let mut copies = Vec::with_capacity(alloc, tables.len())?;
        for table in tables {
            copies.push(table.copy(alloc)?)?;
        }
        Ok(Schema {
            tables: List::of_vec(copies),
        })
    }
}
