//! The counters that changes raised, out of the notes of the changes.
ghost use Rattle.std.specs.Prelude.{◌≡◌, ◌<◌, ◌++◌, length, IfOk, OnOk};
ghost use Rattle.table_rows.specs.Rows.{counter_of};
ghost use Rattle.table_rows.specs.Undoing.{since, undone_all};
ghost use Rattle.change_set.specs.Net.{counter_changes};
ghost use Rattle.change_set.specs.Touched.{AreOfTables, counter_before, counters, counts_of};

use crate::change::Change;
use std::alloc::{AllocError, Global};
use table_rows::{Tables, Undo, UndoList};

// The table and its counter from before a change, where the note has it.
fn counter_before(undo: &Undo) -> Option<(u32, u64)>
    ensures { result ≡ counter_before undo.now }
{
    match undo {
        Undo::Put(table, _, counter)
        | Undo::Replaced(table, _, _, counter)
        | Undo::Count(table, counter) => Some((*table, *counter)),
        Undo::Deleted(..) => None,
    }
}

/// The counter of a table, which is 0 where no column is counted.
pub(crate) fn counter_of(tables: &Tables, table: u32) -> u64
    requires { table < length tables.now.tables }
    ensures { result ≡ counter_of tables.now table }
{
    // A proof knows that the tables are valid where it has asked for their shape.
    let _ = tables.schema();
    match tables.counter(table) {
        None => 0,
        Some(counter) => counter,
    }
}

// The counters of all tables.
fn counters_now(alloc: Global, tables: &Tables) -> Result<Vec<u64>, AllocError>
    ensures { IfOk result (λ all. all.items ≡ counters tables.now) }
{
    let count = tables.schema().tables.as_slice().len();
    let mut counters = Vec::with_capacity(alloc, count)?;
    for table in 0..count {
        counters.push(counter_of(tables, table as u32))?;
    }
    Ok(counters)
}

// The counters from before all changes: the oldest note of a table that has one says it.
fn counters_before(alloc: Global, tables: &Tables, undo: &UndoList) -> Result<Vec<u64>, AllocError>
    requires { AreOfTables tables.now undo.now.entries }
    ensures { IfOk result (λ befores.
        befores.items ≡ counters (undone_all (since 0 undo.now.entries) tables.now)) }
{
    let mut counters = counters_now(alloc, tables)?;
    let mut at = undo.mark();
    while at > 0 {
        at -= 1;
        if let Some((table, counter)) = counter_before(undo.entry(at)) {
            counters[table as usize] = counter;
        }
    }
    Ok(counters)
}

// Appends the counter of a table, if it is another than before.
fn push_count(
    table: u32,
    before: u64,
    now: u64,
    changes: &mut Vec<Change>,
) -> Result<(), AllocError>
    ensures { OnOk result
        (changes.new.items ≡ changes.old.items ++ counter_changes table before now) }
{
    if before != now {
        changes.push(Change::Count(table, now))?;
    }
    Ok(())
}

/// Appends the counters that are others than before.
pub(crate) fn push_counts(
    alloc: Global,
    tables: &Tables,
    undo: &UndoList,
    changes: &mut Vec<Change>,
) -> Result<(), AllocError>
    requires { AreOfTables tables.now undo.now.entries }
    ensures { OnOk result (changes.new.items ≡ changes.old.items
        ++ counts_of (undone_all (since 0 undo.now.entries) tables.now) tables.now
        (length tables.now.tables)) }
{
    let befores = counters_before(alloc, tables, undo)?;
    // A proof knows that the tables are few where it has asked for their shape.
    let _ = tables.schema();
    for table in 0..befores.len() {
        let now = counter_of(tables, table as u32);
        push_count(table as u32, befores[table], now, changes)?;
    }
    Ok(())
}
