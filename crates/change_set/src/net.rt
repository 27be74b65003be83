//! The net changes of a batch, out of the notes by which it could be taken back.
ghost use Rattle.std.specs.Prelude.{◌≡◌, ◌<◌, ◌++◌, length, map, IfOk, OnOk, IfSome};
ghost use Rattle.std.specs.List.{flat_map};
ghost use Rattle.std.specs.List.Sorted.{IsSortedBy};
ghost use Rattle.std.specs.Ordering.{is_lt};
ghost use Rattle.table_rows.specs.Database.{database_of};
ghost use Rattle.table_rows.specs.Entries.{cell_at, cells};
ghost use Rattle.table_rows.specs.Undoing.{since, AreUndoable, undone_all};
ghost use Rattle.change_set.specs.Sets.{key_columns};
ghost use Rattle.change_set.specs.Net.{changes};
ghost use Rattle.change_set.specs.Touched.{AreOfTables, AreOlds, IsOrderOf, old_seen, old_cmp, deletion_of, put_if, puts_of};

use crate::change::{Change, ChangeSet};
use crate::counting::push_counts;
use crate::order::{cmp_changes, key_columns};
use crate::touched::{OldRow, is_among, olds, rows_before, slot_of};
use row_types::{List, Row, RowKey, Schema, Value, copy_row, copy_value};
use std::alloc::{AllocError, Global};
use table_rows::{SlotRef, Tables, UndoList};

// The value of a row at a column, which is NULL where the row is too short.
fn cell_of(alloc: Global, row: &[Value], column: u32) -> Result<Value, AllocError>
    ensures { IfOk result (λ value. value ≡ cell_at row.now column) }
{
    match row.get(column as usize) {
        None => Ok(Value::Null),
        Some(value) => copy_value(alloc, value),
    }
}

/// The primary key of a row.
pub(crate) fn key_of(
    alloc: Global,
    schema: &Schema,
    table: u32,
    row: &Row,
) -> Result<RowKey, AllocError>
    ensures { IfOk result (λ key. key ≡ cells (key_columns schema.now table) row.now) }
{
    let columns = key_columns(schema, table);
    let mut key = Vec::with_capacity(alloc, columns.len())?;
    for column in columns {
        key.push(cell_of(alloc, row.as_slice(), *column)?)?;
    }
    Ok(List::of_vec(key))
}

// Appends the deletion of a row from before, where no row has its primary key now.
fn push_deletion(
    alloc: Global,
    tables: &Tables,
    old: &OldRow<'_>,
    changes: &mut Vec<Change>,
) -> Result<(), AllocError>
    requires { old.now.table < length tables.now.tables }
    ensures { OnOk result (changes.new.items
        ≡ changes.old.items ++ deletion_of tables.now (old_seen old.now)) }
{
    let key = key_of(alloc, tables.schema(), old.table, old.row)?;
    match tables.find_key(old.table, key.as_slice()) {
        None => {
            changes.push(Change::Delete(old.table, key))?;
            Ok(())
        }
        Some(_) => Ok(()),
    }
}

// Appends the deletions of rows from before.
fn push_deletions(
    alloc: Global,
    tables: &Tables,
    olds: &[OldRow<'_>],
    changes: &mut Vec<Change>,
) -> Result<(), AllocError>
    requires { AreOlds tables.now (map old_seen olds.now) }
    ensures { OnOk result (changes.new.items
        ≡ changes.old.items ++ flat_map (deletion_of tables.now) (map old_seen olds.now)) }
{
    for old in olds {
        push_deletion(alloc, tables, old, changes)?;
    }
    Ok(())
}

// Appends the put of the row of a slot, if one is named and it has a row that is none of those from
// before.
fn push_put(
    alloc: Global,
    tables: &Tables,
    slot: Option<(u32, u32)>,
    olds: &[OldRow<'_>],
    changes: &mut Vec<Change>,
) -> Result<(), AllocError>
    requires table { IfSome slot (λ slot. slot.0 < length tables.now.tables) }
    requires sorted { IsSortedBy (λ a b. is_lt (old_cmp (old_seen a) (old_seen b))) olds.now }
    ensures { OnOk result (changes.new.items
        ≡ changes.old.items ++ put_if tables.now (map old_seen olds.now) slot) }
{
    if let Some((table, slot)) = slot {
        if let Some(row) = tables.get(table, SlotRef(slot)) {
            if !is_among(olds, table, row) {
                changes.push(Change::Put(table, copy_row(alloc, row)?))?;
            }
        }
    }
    Ok(())
}

// Appends the puts of the slots that were touched. A slot with several notes comes again.
fn push_puts(
    alloc: Global,
    tables: &Tables,
    undo: &UndoList,
    olds: &[OldRow<'_>],
    changes: &mut Vec<Change>,
) -> Result<(), AllocError>
    requires tables { AreOfTables tables.now undo.now.entries }
    requires sorted { IsSortedBy (λ a b. is_lt (old_cmp (old_seen a) (old_seen b))) olds.now }
    ensures { OnOk result (changes.new.items
        ≡ changes.old.items ++ puts_of tables.now (map old_seen olds.now) undo.now.entries) }
{
    for at in 0..undo.mark() {
        push_put(alloc, tables, slot_of(undo.entry(at)), olds, changes)?;
    }
    Ok(())
}

// Puts changes in order, each of them once.
fn put_in_order(schema: &Schema, changes: &mut Vec<Change>) -> Result<(), AllocError>
    ensures { OnOk result (IsOrderOf schema.now changes.old.items changes.new.items) }
{
    changes.sort_by(|a, b| cmp_changes(schema, a, b))?;
    changes.dedup_by(|a, b| cmp_changes(schema, a, b).is_eq());
    Ok(())
}

/// The net changes of which these are the notes.
pub fn from_undo(alloc: Global, tables: &Tables, undo: &UndoList) -> Result<ChangeSet, AllocError>
    requires { AreUndoable (since 0 undo.now.entries) tables.now }
    ensures { IfOk result (λ set. set.changes
        ≡ changes (database_of (undone_all (since 0 undo.now.entries) tables.now))
        (database_of tables.now)) }
{
    let schema = tables.schema();
    let befores = rows_before(alloc, undo)?;
    let rows = olds(alloc, tables, undo, &befores)?;
    let olds = rows.as_slice();
    let mut changes = Vec::new(alloc);
    push_deletions(alloc, tables, olds, &mut changes)?;
    push_puts(alloc, tables, undo, olds, &mut changes)?;
    push_counts(alloc, tables, undo, &mut changes)?;
    put_in_order(schema, &mut changes)?;
    Ok(ChangeSet {
        changes: List::of_vec(changes),
    })
}
