//! How rows compare.
ghost use Rattle.std.specs.Prelude.{◌≡◌};
ghost use Rattle.row_types.specs.Order.{value_cmp, key_cmp, prefix_cmp};
ghost use Rattle.table_rows.specs.Entries.{cell_at, cells};
ghost use Rattle.sql_plan.specs.Sorted.{key_cmp_by, row_cmp};

use row_types::{Value, cmp_values};
use sql_value::OrderKey;
use std::cmp::Ordering;

// A row is NULL past its end.
fn cmp_cell(row: &[Value], column: u32, value: &Value) -> Ordering
    ensures { result ≡ value_cmp (cell_at row.now column) value.now }
{
    match row.get(column as usize) {
        None => cmp_values(&Value::Null, value),
        Some(cell) => cmp_values(cell, value),
    }
}

fn cmp_cells(a: &[Value], b: &[Value], column: u32) -> Ordering
    ensures { result ≡ value_cmp (cell_at a.now column) (cell_at b.now column) }
{
    match b.get(column as usize) {
        None => cmp_cell(a, column, &Value::Null),
        Some(cell) => cmp_cell(a, column, cell),
    }
}

// The first column whose cells differ decides.
fn cmp_all(a: &[Value], b: &[Value], columns: &[u32]) -> Ordering
    ensures { result ≡ key_cmp (cells columns.now a.now) (cells columns.now b.now) }
{
    match columns {
        [] => Ordering::Equal,
        [column, columns @ ..] => match cmp_cells(a, b, *column) {
            Ordering::Equal => cmp_all(a, b, columns),
            order => order,
        },
    }
}

/// Compares as many cells as the key has.
pub(crate) fn cmp_with_key(row: &[Value], columns: &[u32], key: &[Value]) -> Ordering
    ensures { result ≡ prefix_cmp (cells columns.now row.now) key.now }
{
    match (columns, key) {
        (_, []) => Ordering::Equal,
        ([], _) => Ordering::Less,
        ([column, columns @ ..], [value, key @ ..]) => match cmp_cell(row, *column, value) {
            Ordering::Equal => cmp_with_key(row, columns, key),
            order => order,
        },
    }
}

// NULL stands first, or, downward, last.
fn cmp_by(key: OrderKey, a: &[Value], b: &[Value]) -> Ordering
    ensures { result ≡ key_cmp_by key a.now b.now }
{
    if key.down {
        cmp_cells(b, a, key.column)
    } else {
        cmp_cells(a, b, key.column)
    }
}

/// Compares rows by some columns, and where they are the same there by the primary key.
pub(crate) fn cmp_rows(order: &[OrderKey], primary: &[u32], a: &[Value], b: &[Value]) -> Ordering
    ensures { result ≡ row_cmp order.now primary.now a.now b.now }
{
    match order {
        [] => cmp_all(a, b, primary),
        [key, order @ ..] => match cmp_by(*key, a, b) {
            Ordering::Equal => cmp_rows(order, primary, a, b),
            found => found,
        },
    }
}
