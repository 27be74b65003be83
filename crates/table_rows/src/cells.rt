//! The order of rows by their cells at some columns.
ghost use Rattle.std.specs.Prelude.{◌≡◌};
ghost use Rattle.row_types.specs.Order.{value_cmp, key_cmp, prefix_cmp};
ghost use Rattle.table_rows.specs.Entries.{cell_at, cells, has_key};

use row_types::{Row, Value, cmp_values};
use std::cmp::Ordering;

// A row is NULL past its end.
fn cmp_cell(row: &[Value], column: u32, value: &Value) -> Ordering
    ensures { result ≡ value_cmp (cell_at row.now column) value.now }
{
    match row.get(column as usize) {
        None => cmp_values(&Value::Null, value),
        Some(cell) => cmp_values(cell, value),
    }
}

fn cmp_cells(a: &Row, b: &Row, column: u32) -> Ordering
    ensures { result ≡ value_cmp (cell_at a.now column) (cell_at b.now column) }
{
    match b.as_slice().get(column as usize) {
        None => cmp_cell(a.as_slice(), column, &Value::Null),
        Some(cell) => cmp_cell(a.as_slice(), column, cell),
    }
}

/// The first column whose cells differ decides.
pub(crate) fn cmp_rows(a: &Row, b: &Row, columns: &[u32]) -> Ordering
    ensures { result ≡ key_cmp (cells columns.now a.now) (cells columns.now b.now) }
{
    match columns {
        [] => Ordering::Equal,
        [column, columns @ ..] => match cmp_cells(a, b, *column) {
            Ordering::Equal => cmp_rows(a, b, columns),
            order => order,
        },
    }
}

/// Compares as many cells as the key has.
pub(crate) fn cmp_with_key(row: &[Value], columns: &[u32], key: &[Value]) -> Ordering
    ensures { result ≡ prefix_cmp (cells columns.now row.now) key.now }
{
    match (columns, key) {
        (_, []) => Ordering::Equal,
        ([], _) => Ordering::Less,
        ([column, columns @ ..], [value, key @ ..]) => match cmp_cell(row, *column, value) {
            Ordering::Equal => cmp_with_key(row, columns, key),
            order => order,
        },
    }
}

/// Whether a row has these values at the first of the columns.
pub fn has_key(columns: &[u32], key: &[Value], row: &[Value]) -> bool
    ensures { result ≡ has_key columns.now key.now row.now }
{
    cmp_with_key(row, columns, key).is_eq()
}
