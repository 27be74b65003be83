//! The cells of a row, as a change leaves them.
ghost use Rattle.std.specs.Prelude.{◌≡◌, ◌≤◌, ◌<◌, length};
ghost use Rattle.std.specs.List.{All};
ghost use Rattle.request_types.specs.Refusal.{Gives};
ghost use Rattle.find_modify.specs.Cells.{turns, added, taken_off, changed_cell, changed_row};

use request_types::{Code, Fault, ModKind, ModSpec};
use row_types::{List, Row, Value, copy_row, copy_value};
use std::alloc::Global;
use std::mem::replace;

/// The row whose first columns are changed by the values.
pub(crate) fn changed_row(
    alloc: Global,
    row: &Row,
    columns: &[u32],
    change: &ModSpec,
) -> Result<Row, Fault>
    requires few { length change.now.values ≤ length columns.now }
    requires within { All (λ column. column < length row.now) columns.now }
    ensures { Gives (λ made. made) result
        (changed_row change.now.kind columns.now change.now.values row.now) }
{
    let mut cells = copy_row(alloc, row)?.into_vec();
    let values = change.values.as_slice();
    for (place, value) in values.iter().enumerate() {
        let number = columns[place] as usize;
        let cell = replace(&mut cells[number], Value::Null);
        match changed_cell(alloc, change.kind, cell, value) {
            Ok(made) => cells[number] = made,
            Err(fault) => return Err(fault),
        }
    }
    Ok(List::of_vec(cells))
}

// What a cell becomes by a value.
pub(crate) fn changed_cell(
    alloc: Global,
    kind: ModKind,
    cell: Value,
    value: &Value,
) -> Result<Value, Fault>
    ensures { Gives (λ made. made) result (changed_cell kind cell value.now) }
{
    match kind {
        ModKind::Update => Ok(copy_value(alloc, value)?),
        ModKind::Add => added(cell, value),
        ModKind::Subtract => taken_off(cell, value),
        ModKind::Remove => Ok(cell),
    }
}

// A number is added to the cell's.
fn added(cell: Value, value: &Value) -> Result<Value, Fault>
    ensures { Gives (λ made. made) result (added cell value.now) }
{
    match (cell, value) {
        (Value::Int(number), Value::Int(more)) => match number.checked_add(*more) {
            None => Err(Fault::Refused(Code::Range)),
            Some(sum) => Ok(Value::Int(sum)),
        },
        (cell, _) => Ok(cell),
    }
}

// A number is taken off the cell's, which stays where its sign would turn.
fn taken_off(cell: Value, value: &Value) -> Result<Value, Fault>
    ensures { Gives (λ made. made) result (taken_off cell value.now) }
{
    match (cell, value) {
        (Value::Int(number), Value::Int(less)) => match number.checked_sub(*less) {
            None => Err(Fault::Refused(Code::Range)),
            Some(rest) => Ok(Value::Int(if turns(number, rest) { number } else { rest })),
        },
        (cell, _) => Ok(cell),
    }
}

// Whether the sign turns from the one number to the other. Zero has none.
fn turns(before: i64, after: i64) -> bool
    ensures { result ≡ turns before after }
{
    (before > 0 && after < 0) || (before < 0 && after > 0)
}
