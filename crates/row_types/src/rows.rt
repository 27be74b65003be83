//! Rows and keys: their order, their size, a copy.
ghost use Rattle.std.specs.Prelude.{◌≡◌, ◌<◌, ◌≤◌, ◌^◌, length, IfOk};
ghost use Rattle.row_types.specs.Order.{key_cmp, prefix_cmp};
ghost use Rattle.row_types.specs.Size.{value_size, row_size};

use crate::lists::List;
use crate::values::{Value, cmp_values};
use std::alloc::{AllocError, Global};
use std::cmp::Ordering;

/// The values of a table's columns, in the order of the columns.
pub type Row = List<Value>;

/// The values of an index's parts, in the order of the parts; or the first few of them.
pub type RowKey = List<Value>;

/// The first part that differs decides, and a key stands after each proper front of it.
pub fn cmp_keys(a: &RowKey, b: &RowKey) -> Ordering
    ensures { result ≡ key_cmp a.now b.now }
{
    a.as_slice().cmp(b.as_slice())
}

/// Compares as many parts as the prefix has.
pub fn cmp_prefix(key: &RowKey, prefix: &RowKey) -> Ordering
    requires { length prefix.now ≤ length key.now }
    ensures { result ≡ prefix_cmp key.now prefix.now }
{
    let parts = prefix.as_slice();
    key.as_slice()[..parts.len()].cmp(parts)
}

/// The bytes that a row counts against the limit on all rows. It is what the limit speaks of, and
/// not what a row takes in memory.
pub fn row_size(row: &Row) -> u64
    requires { row_size row.now < 2 ^ 64 }
    ensures { result ≡ row_size row.now }
{
    let mut size: u64 = 64;
    for value in row.as_slice() {
        size += value_size(value);
    }
    size
}

fn value_size(value: &Value) -> u64
    requires { value_size value.now < 2 ^ 64 }
    ensures { result ≡ value_size value.now }
{
    match value {
        Value::Null => 1,
        Value::Int(_) => 8,
        Value::Text(text) => 4 + text.as_slice().len() as u64,
    }
}

/// An equal row with memory of its own.
pub fn copy_row(alloc: Global, row: &Row) -> Result<Row, AllocError>
    ensures { IfOk result (λ copy. copy ≡ row.now) }
{
    let values = row.as_slice();
    let mut copies = Vec::with_capacity(alloc, values.len())?;
    for value in values {
        copies.push(copy_value(alloc, value)?)?;
    }
    Ok(List::of_vec(copies))
}

/// An equal value with memory of its own.
pub fn copy_value(alloc: Global, value: &Value) -> Result<Value, AllocError>
    ensures { IfOk result (λ copy. copy ≡ value.now) }
{
    match value {
        Value::Null => Ok(Value::Null),
        Value::Int(number) => Ok(Value::Int(*number)),
        Value::Text(text) => Ok(Value::Text(text.copy(alloc)?)),
    }
}
