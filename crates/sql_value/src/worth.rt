//! What an expression is worth.
ghost use Rattle.std.specs.Prelude.{◌≡◌, IfOk};
ghost use Rattle.sql_value.specs.Worth.{evaluated};
ghost use Rattle.sql_value.specs.declared.worth.Evaluated.TheVariants.{Value as ValueOf};

use crate::truths::Truth;
use row_types::{ByteText, Value};
use std::alloc::{AllocError, Global};

/// What an expression is worth on a row.
#[derive(Debug, Drop)]
pub enum Evaluated {
    /// A condition is worth this.
    Truth(Truth),
    /// A value is worth this.
    Value(Value),
    /// A number in it is outside 64 bits.
    Overflow,
}

/// The same, with a text that lies elsewhere.
#[derive(Clone, Copy)]
pub(crate) enum Worth<'a> {
    Truth(Truth),
    Null,
    Int(i64),
    Text(&'a [u8]),
    Overflow,
}

impl<'a> Worth<'a> {
    /// A cell is worth itself.
    pub(crate) fn of_cell(cell: &'a Value) -> Worth<'a>
        ensures { evaluated result ≡ ValueOf cell.now }
    {
        match cell {
            Value::Null => Worth::Null,
            Value::Int(number) => Worth::Int(*number),
            Value::Text(text) => Worth::Text(text.as_slice()),
        }
    }

    /// The same with memory of its own.
    pub(crate) fn copy(self, alloc: Global) -> Result<Evaluated, AllocError>
        ensures { IfOk result (λ copy. copy ≡ evaluated self.entry) }
    {
        match self {
            Worth::Truth(truth) => Ok(Evaluated::Truth(truth)),
            Worth::Null => Ok(Evaluated::Value(Value::Null)),
            Worth::Int(number) => Ok(Evaluated::Value(Value::Int(number))),
            Worth::Text(text) => Ok(Evaluated::Value(Value::Text(ByteText::of(alloc, text)?))),
            Worth::Overflow => Ok(Evaluated::Overflow),
        }
    }
}
