//! The row that an insert makes.
ghost use Rattle.std.specs.Prelude.{◌≡◌, ◌<◌, ◌^◌, length, IfOk};
ghost use Rattle.row_insert.specs.Insert.{value_for, new_row};

use request_types::InsertSpec;
use row_types::{Column, List, Row, Value, copy_value};
use std::alloc::{AllocError, Global};

/// A row with the values that an insert names. All other columns take their presets.
pub(crate) fn new_row(
    alloc: Global,
    columns: &[Column],
    spec: &InsertSpec,
) -> Result<Row, AllocError>
    requires count { length spec.now.values ≡ length spec.now.columns }
    requires few { length columns.now < 2 ^ 32 }
    ensures { IfOk result (λ row. row ≡ new_row columns.now spec.now) }
{
    let numbers = spec.columns.as_slice();
    let named = spec.values.as_slice();
    let mut values = Vec::with_capacity(alloc, columns.len())?;
    for (number, column) in columns.iter().enumerate() {
        let value = value_for(numbers, named, number as u32, &column.preset);
        values.push(copy_value(alloc, value)?)?;
    }
    Ok(List::of_vec(values))
}

// The value that is named for a column, or else its preset.
fn value_for<'a>(numbers: &[u32], values: &'a [Value], column: u32, preset: &'a Value) -> &'a Value
    requires { length values.now ≡ length numbers.now }
    ensures { result.now ≡ value_for numbers.now values.now column preset.now }
{
    for (place, number) in numbers.iter().enumerate() {
        let value = &values[place];
        if *number == column {
            return value;
        }
    }
    preset
}
