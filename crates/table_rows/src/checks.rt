//! Whether a row may stand in a table.
ghost use Rattle.std.specs.Prelude.{◌≡◌, ◌<◌, ◌≤◌, ◌^◌, length, Option, Some, None, true, false};
ghost use Rattle.std.specs.List.{list_any};
ghost use Rattle.table_rows.specs.Entries.{cells, cell_at};
ghost use Rattle.table_rows.specs.Checks.{is_null, null_column, is_barred, first_found};
ghost use Rattle.table_rows.specs.Sizes.{is_full};

use crate::verdict::Verdict;
use row_types::{Column, IndexDef, IndexKind, Row, Value};

/// The first column that forbids NULL and has it.
pub(crate) fn null_column(columns: &[Column], row: &Row) -> Option<u32>
    requires each { length row.now ≡ length columns.now }
    requires few { length columns.now < 2 ^ 32 }
    ensures { result ≡ null_column columns.now row.now }
{
    let values = row.as_slice();
    for (i, column) in columns.iter().enumerate() {
        if is_null(&values[i]) && !column.null {
            return Some(i as u32);
        }
    }
    None
}

/// Whether an index keeps rows apart that have the cells of this one.
pub(crate) fn is_barred(index: &IndexDef, row: &Row) -> bool
    ensures { result ≡ is_barred index.now.kind (cells index.now.parts row.now) }
{
    match index.kind {
        IndexKind::Primary => true,
        IndexKind::Unique => !has_null(index.parts.as_slice(), row.as_slice()),
        IndexKind::Plain => false,
    }
}

// Whether a row has NULL in one of these columns.
fn has_null(columns: &[u32], row: &[Value]) -> bool
    ensures { result ≡ list_any is_null (cells columns.now row.now) }
{
    for column in columns {
        if is_null_at(row, *column) {
            return true;
        }
    }
    false
}

// Whether a row has NULL in this column. There is no other value where the row is too short.
fn is_null_at(row: &[Value], column: u32) -> bool
    ensures { result ≡ is_null (cell_at row.now column) }
{
    match row.get(column as usize) {
        None => true,
        Some(value) => is_null(value),
    }
}

fn is_null(value: &Value) -> bool
    ensures { result ≡ is_null value.now }
{
    matches!(value, Value::Null)
}

/// Whether a change makes the rows more than they were, and more than may be.
pub(crate) fn is_full(bytes_max: u64, before: u64, after: u64) -> bool
    ensures { result ≡ is_full bytes_max before after }
{
    before < after && bytes_max < after
}

/// NULL is found first, then a clash, then want of space.
pub(crate) fn first_found(null: Option<u32>, dup: Option<u32>, full: bool) -> Verdict
    ensures { result ≡ first_found null dup full }
{
    if let Some(column) = null {
        return Verdict::Null(column);
    }
    if let Some(index) = dup {
        return Verdict::Dup(index);
    }
    if full { Verdict::Full } else { Verdict::Fine }
}
