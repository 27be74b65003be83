//! Changing the rows in some slots.
ghost use Rattle.std.specs.Prelude.{◌≡◌, ◌≢◌, ℕ, ◌≤◌, ◌<◌, ◌^◌, length, Ok, IfOk};
ghost use Rattle.request_types.specs.Refusal.{Gives};
ghost use Rattle.request_types.specs.Fits.{AreNumbers, ModFits, ModFitsTable};
ghost use Rattle.table_rows.specs.Rows.{def_of, columns_of};
ghost use Rattle.table_rows.specs.GoingBack.{IsNoted};
ghost use Rattle.table_rows.specs.Named.{AreSlots};
ghost use Rattle.find_modify.specs.declared.modifies.Modified.TheVariants.{Done};
ghost use Rattle.find_modify.specs.Change.{changed_all, answer_to};
ghost use Rattle.find_modify.specs.Steps.{IsAnswer};

use crate::one_row::change_one;
use request_types::{Fault, ModSpec};
use std::alloc::{AllocError, Global};
use table_rows::{SlotRef, Tables, UndoList};

/// What became of a change.
#[derive(Clone, Copy, Debug, PartialEq, Eq)]
pub enum Modified {
    /// So many rows were changed.
    Done(u32),
    /// The number of the code that says why a row was refused.
    Refused(u32),
}

/// Changes the rows in these slots, one after the other: all of them, or none.
pub fn modify(
    alloc: Global,
    tables: &mut Tables,
    table: u32,
    slots: &[SlotRef],
    columns: &[u32],
    change: &ModSpec,
    undo: &mut UndoList,
) -> Result<Modified, AllocError>
    requires slots { AreSlots tables.old table slots.now }
    requires columns { AreNumbers (columns_of tables.old table) columns.now }
    requires change { ModFits tables.old.schema table columns.now change.now }
    ensures answer { IfOk result (λ answer. answer
        ≡ answer_to slots.now (changed_all table columns.now change.now slots.now tables.old)) }
    ensures done { (count : ℕ) → result ≡ Ok (Done count)
        → changed_all table columns.now change.now slots.now tables.old ≡ Ok tables.new }
    ensures noted { IsNoted tables.old tables.new undo.old.entries undo.new.entries }
    // Where a row is refused, or memory is wanting, all rows are as they were, and no change is
    // noted.
    ensures unchanged { ((count : ℕ) → result ≢ Ok (Done count))
        → (tables.new ≡ tables.old) × (undo.new.entries ≡ undo.old.entries) }
{
    // A proof knows that the rows are valid where it has asked for their shape.
    let _ = tables.schema();
    let mark = undo.mark();
    undo.reserve(slots.len() as u32)?;
    match change_all(alloc, tables, table, slots, columns, change, undo) {
        Ok(()) => Ok(Modified::Done(slots.len() as u32)),
        Err(fault) => {
            tables.undo_to(undo, mark);
            answer_to(fault)
        }
    }
}

// Changes rows until one is refused or memory is wanting.
fn change_all(
    alloc: Global,
    tables: &mut Tables,
    table: u32,
    slots: &[SlotRef],
    columns: &[u32],
    change: &ModSpec,
    undo: &mut UndoList,
) -> Result<(), Fault>
    requires table { table < length tables.old.tables }
    requires slots { AreSlots tables.old table slots.now }
    requires columns { AreNumbers (columns_of tables.old table) columns.now }
    requires change { ModFitsTable (def_of tables.old table) columns.now change.now }
    requires spare { length slots.now ≤ undo.old.spare }
    ensures gives { Gives (λ nothing. tables.new) result
        (changed_all table columns.now change.now slots.now tables.old) }
    ensures noted { IsNoted tables.old tables.new undo.old.entries undo.new.entries }
{
    for slot in slots {
        change_one(alloc, tables, table, *slot, columns, change, undo)?;
    }
    Ok(())
}

// What is answered where a row wasn't changed.
fn answer_to(fault: Fault) -> Result<Modified, AllocError>
    ensures { IsAnswer fault result }
{
    match fault {
        Fault::Refused(code) => Ok(Modified::Refused(code.number())),
        Fault::NoMemory => Err(AllocError),
    }
}
