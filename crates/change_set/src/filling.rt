//! The second part of putting changes on tables: each new row comes in.
ghost use Rattle.std.specs.Prelude.{◌≡◌, ◌<◌, ℕ, [], ◌∷◌, length, Ok, true, false};
ghost use Rattle.std.specs.List.{AllByRecursion};
ghost use Rattle.table_rows.specs.Checks.{IsRow};
ghost use Rattle.table_rows.specs.GoingBack.{CanGoBack};
ghost use Rattle.table_rows.specs.Rows.{columns_of};
ghost use Rattle.change_set.specs.declared.change.Change.TheVariants.{Put};
ghost use Rattle.change_set.specs.Fitting.{FitsSchema};
ghost use Rattle.change_set.specs.Steps.{AreFilled, CanStand, CanCome, IsBarred};

use crate::change::Change;
use crate::counting::counter_of;
use row_types::{Row, copy_row, row_size};
use std::alloc::{AllocError, Global};
use table_rows::{Tables, UndoList, Verdict};

// The most bytes that all rows may count.
const MOST_BYTES: u64 = 268_435_456;

// Puts a row where nothing bars it and its table's counter is above it. A limit of the server's own
// does not bar it.
fn put_in(
    tables: &mut Tables,
    table: u32,
    row: Row,
    undo: &mut UndoList,
) -> Result<bool, AllocError>
    requires table { table < length tables.old.tables }
    requires row { IsRow (columns_of tables.old table) row }
    ensures filled { result ≡ Ok true → AreFilled (Put table row ∷ []) tables.old tables.new }
    ensures refused { result ≡ Ok false → (CanStand tables.old table row → ⊥) }
    ensures back { CanGoBack tables.old tables.new undo.old.entries undo.new.entries }
{
    // A proof knows that the tables are valid where it has asked for their shape.
    let _ = tables.schema();
    match tables.check_put(table, &row, None) {
        Verdict::Fine | Verdict::Full => {}
        Verdict::Dup(_) | Verdict::Null(_) => return Ok(false),
    }
    if tables.bytes_total() + row_size(&row) > MOST_BYTES {
        return Ok(false);
    }
    let before = counter_of(tables, table);
    tables.reserve(table, 1, undo)?;
    tables.put(table, row, undo);
    Ok(counter_of(tables, table) == before)
}

// Puts the row of a change, if it puts one. False where something bars it.
fn put_one(
    alloc: Global,
    change: &Change,
    tables: &mut Tables,
    undo: &mut UndoList,
) -> Result<bool, AllocError>
    requires { FitsSchema tables.old.schema change.now }
    ensures filled { result ≡ Ok true → AreFilled (change.now ∷ []) tables.old tables.new }
    ensures refused { result ≡ Ok false → (CanCome tables.old change.now → ⊥) }
    ensures back { CanGoBack tables.old tables.new undo.old.entries undo.new.entries }
{
    // A proof knows that the tables are valid where it has asked for their shape, and so below.
    let _ = tables.schema();
    match change {
        Change::Put(table, row) => put_in(tables, *table, copy_row(alloc, row)?, undo),
        Change::Delete(..) | Change::Count(..) => Ok(true),
    }
}

/// Puts the rows of changes. False where something bars one.
pub(crate) fn put_all(
    alloc: Global,
    changes: &[Change],
    tables: &mut Tables,
    undo: &mut UndoList,
) -> Result<bool, AllocError>
    requires { AllByRecursion (FitsSchema tables.old.schema) changes.now }
    ensures filled { result ≡ Ok true → AreFilled changes.now tables.old tables.new }
    ensures refused { result ≡ Ok false → IsBarred changes.now tables.old }
    ensures back { CanGoBack tables.old tables.new undo.old.entries undo.new.entries }
{
    for change in changes {
        let _ = tables.schema();
        let is_in = put_one(alloc, change, tables, undo)?;
        if !is_in {
            return Ok(false);
        }
    }
    Ok(true)
}
