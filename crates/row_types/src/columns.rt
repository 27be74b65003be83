//! A column, and whether it holds a value.
ghost use Rattle.std.specs.Prelude.{◌≡◌, IfOk};
ghost use Rattle.row_types.specs.Fit.{fit_of};

use crate::byte_text::ByteText;
use crate::lists::List;
use crate::rows::copy_value;
use crate::values::Value;
use std::alloc::{AllocError, Global};

/// What a column's values are: integers of 64 bits, or texts of at most so many bytes.
#[derive(Clone, Copy, Debug, PartialEq, Eq)]
pub enum Kind {
    Int,
    Bytes(u32),
}

/// A column of a table. `null` says whether it may hold NULL; an insert that leaves it out puts
/// `preset` there. In the column that is `auto` it puts the next number of the table's counter.
#[derive(Debug, Drop)]
pub struct Column {
    pub name: ByteText,
    pub kind: Kind,
    pub null: bool,
    pub auto: bool,
    pub preset: Value,
}

impl Column {
    /// An equal column with memory of its own.
    pub fn copy(&self, alloc: Global) -> Result<Column, AllocError>
        ensures { IfOk result (λ copy. copy ≡ self.now) }
    {
        Ok(Column {
            name: self.name.copy(alloc)?,
            kind: self.kind,
            null: self.null,
            auto: self.auto,
            preset: copy_value(alloc, &self.preset)?,
        })
    }
}

/// Equal columns with memory of their own.
pub(crate) fn copy_columns(alloc: Global, columns: &[Column]) -> Result<List<Column>, AllocError>
    ensures { IfOk result (λ copy. copy ≡ columns.now) }
{
    let mut copies = Vec::with_capacity(alloc, columns.len())?;
    for column in columns {
        copies.push(column.copy(alloc)?)?;
    }
    Ok(List::of_vec(copies))
}

/// Whether a column holds a value, and if not, why.
#[derive(Clone, Copy, Debug, PartialEq, Eq)]
pub enum Fit {
    Fine,
    /// An integer in a column of texts, or a text in a column of integers.
    WrongKind,
    /// A text longer than its column.
    Long,
    /// NULL in a column that forbids it.
    NullHere,
}

/// Whether the column holds the value.
pub fn fits(column: &Column, value: &Value) -> Fit
    ensures { result ≡ fit_of column.now value.now }
{
    match (value, column.kind) {
        (Value::Null, _) => {
            if column.null {
                Fit::Fine
            } else {
                Fit::NullHere
            }
        }
        (Value::Int(_), Kind::Int) => Fit::Fine,
        (Value::Text(text), Kind::Bytes(most)) => {
            if text.as_slice().len() > most as usize {
                Fit::Long
            } else {
                Fit::Fine
            }
        }
        (_, _) => Fit::WrongKind,
    }
}
