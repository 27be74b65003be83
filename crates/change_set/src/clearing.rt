//! The first part of putting changes on tables: each row that a change is of goes, and the counters
//! go up. So two rows may change places in a unique index.
ghost use Rattle.std.specs.Prelude.{◌≡◌, ◌<◌, ◌≤◌, ◌^◌, ℕ, [], ◌∷◌, length, Ok, true, false, OnOk, IsSome};
ghost use Rattle.std.specs.List.{AllByRecursion};
ghost use Rattle.table_rows.specs.Database.{database_of};
ghost use Rattle.table_rows.specs.GoingBack.{CanGoBack};
ghost use Rattle.table_rows.specs.Rows.{counted_at, counter_of};
ghost use Rattle.table_rows.specs.Slots.{is_live_in, without_at};
ghost use Rattle.change_set.specs.declared.change.Change.TheVariants.{Put, Delete, Count};
ghost use Rattle.change_set.specs.Fitting.{FitsSchema, AreChanges};
ghost use Rattle.change_set.specs.Net.{has_key, has_row};
ghost use Rattle.change_set.specs.Putting.{IsChange, Applies};
ghost use Rattle.change_set.specs.Sets.{key_columns};
ghost use Rattle.change_set.specs.Steps.{rows_in, AreCleared, AreChanging, IsLow};

use crate::change::Change;
use crate::net::key_of;
use row_types::{Row, Value, cmp_keys};
use std::alloc::{AllocError, Global};
use table_rows::{SlotRef, Tables, UndoList};

// The most that a counter may be.
const MOST_COUNTER: u64 = 1 << 63;

// Takes the row of a slot out.
fn take_out(
    tables: &mut Tables,
    table: u32,
    slot: SlotRef,
    undo: &mut UndoList,
) -> Result<(), AllocError>
    requires table { table < length tables.old.tables }
    requires live { is_live_in tables.old table slot.0 ≡ true }
    ensures gone { OnOk result (tables.new ≡ without_at tables.old table slot.0) }
    ensures back { CanGoBack tables.old tables.new undo.old.entries undo.new.entries }
{
    undo.reserve(1)?;
    tables.delete(table, slot, undo);
    Ok(())
}

// Takes out the row that has the primary key of a new one, unless it is the same row.
fn clear_put(
    alloc: Global,
    tables: &mut Tables,
    table: u32,
    row: &Row,
    undo: &mut UndoList,
) -> Result<bool, AllocError>
    requires { table < length tables.old.tables }
    ensures cleared { result ≡ Ok true → AreCleared (Put table row.now ∷ []) tables.old tables.new
        × (has_row (rows_in tables.old table) row.now ≡ false) }
    ensures refused { result ≡ Ok false → has_row (rows_in tables.old table) row.now ≡ true }
    ensures back { CanGoBack tables.old tables.new undo.old.entries undo.new.entries }
{
    let key = key_of(alloc, tables.schema(), table, row)?;
    match tables.find_key(table, key.as_slice()) {
        None => Ok(true),
        Some(slot) => {
            if cmp_keys(tables.row(table, slot), row).is_eq() {
                return Ok(false);
            }
            take_out(tables, table, slot, undo)?;
            Ok(true)
        }
    }
}

// Takes out the row that has a primary key.
fn clear_key(
    tables: &mut Tables,
    table: u32,
    key: &[Value],
    undo: &mut UndoList,
) -> Result<bool, AllocError>
    requires table { table < length tables.old.tables }
    requires key { length key.now ≡ length (key_columns tables.old.schema table) }
    ensures cleared { result ≡ Ok true → AreCleared (Delete table key.now ∷ []) tables.old tables.new
        × (has_key (key_columns tables.old.schema table) (rows_in tables.old table) key.now ≡ true) }
    ensures refused { result ≡ Ok false
        → has_key (key_columns tables.old.schema table) (rows_in tables.old table) key.now ≡ false }
    ensures back { CanGoBack tables.old tables.new undo.old.entries undo.new.entries }
{
    // A proof knows that the tables are valid where it has asked for their shape.
    let _ = tables.schema();
    match tables.find_key(table, key) {
        None => Ok(false),
        Some(slot) => {
            take_out(tables, table, slot, undo)?;
            Ok(true)
        }
    }
}

// Raises the counter of a table that has one which is lower.
fn count_up(
    tables: &mut Tables,
    table: u32,
    to: u64,
    undo: &mut UndoList,
) -> Result<bool, AllocError>
    requires { table < length tables.old.tables }
    ensures cleared { result ≡ Ok true → AreCleared (Count table to ∷ []) tables.old tables.new
        × IsSome (counted_at tables.old table) × (counter_of tables.old table < to) }
    ensures refused { result ≡ Ok false → IsSome (counted_at tables.old table)
        → counter_of tables.old table < to → to ≤ 2 ^ 63 → ⊥ }
    ensures back { CanGoBack tables.old tables.new undo.old.entries undo.new.entries }
{
    match tables.counter(table) {
        None => Ok(false),
        Some(before) => {
            if to <= before || to > MOST_COUNTER {
                return Ok(false);
            }
            undo.reserve(1)?;
            tables.raise_counter(table, to, undo);
            Ok(true)
        }
    }
}

// Clears the way for a change. False where it would change nothing.
fn clear_one(
    alloc: Global,
    change: &Change,
    tables: &mut Tables,
    undo: &mut UndoList,
) -> Result<bool, AllocError>
    requires { FitsSchema tables.old.schema change.now }
    ensures cleared { result ≡ Ok true → AreCleared (change.now ∷ []) tables.old tables.new
        × IsChange (database_of tables.old) change.now }
    ensures refused { result ≡ Ok false → IsChange (database_of tables.old) change.now
        → IsLow change.now → ⊥ }
    ensures back { CanGoBack tables.old tables.new undo.old.entries undo.new.entries }
{
    // A proof knows that the tables are valid where it has asked for their shape.
    let _ = tables.schema();
    match change {
        Change::Put(table, row) => clear_put(alloc, tables, *table, row, undo),
        Change::Delete(table, key) => clear_key(tables, *table, key.as_slice(), undo),
        Change::Count(table, to) => count_up(tables, *table, *to, undo),
    }
}

/// Clears the way for changes. False where one of them would change nothing.
pub(crate) fn clear_all(
    alloc: Global,
    changes: &[Change],
    tables: &mut Tables,
    undo: &mut UndoList,
) -> Result<bool, AllocError>
    requires { AreChanges tables.old.schema changes.now }
    ensures cleared { result ≡ Ok true → AreCleared changes.now tables.old tables.new
        × AreChanging (database_of tables.old) changes.now }
    ensures refused { result ≡ Ok false → (Applies (database_of tables.old) changes.now → ⊥) }
    ensures back { CanGoBack tables.old tables.new undo.old.entries undo.new.entries }
{
    // And so here.
    let _ = tables.schema();
    for change in changes {
        let is_clear = clear_one(alloc, change, tables, undo)?;
        if !is_clear {
            return Ok(false);
        }
    }
    Ok(true)
}
