//! One row, as a change leaves it.
ghost use Rattle.std.specs.Prelude.{◌≡◌, ◌≢◌, ◌+◌, ◌≤◌, ◌<◌, length, true};
ghost use Rattle.request_types.specs.Refusal.{Gives};
ghost use Rattle.request_types.specs.Fits.{AreNumbers, ModFitsTable};
ghost use Rattle.table_rows.specs.declared.slot_ref.SlotRef.{SlotRef as Slot};
ghost use Rattle.table_rows.specs.Rows.{def_of, columns_of};
ghost use Rattle.table_rows.specs.Slots.{is_live_in};
ghost use Rattle.table_rows.specs.GoingBack.{IsNoted};
ghost use Rattle.find_modify.specs.Change.{deletes, changed_one};

use crate::cells::changed_row;
use request_types::{Fault, ModKind, ModSpec};
use row_insert::refusal_of;
use std::alloc::Global;
use table_rows::{SlotRef, Tables, UndoList};

/// Changes the row in a slot, or leaves all rows as they are.
pub(crate) fn change_one(
    alloc: Global,
    tables: &mut Tables,
    table: u32,
    slot: SlotRef,
    columns: &[u32],
    change: &ModSpec,
    undo: &mut UndoList,
) -> Result<(), Fault>
    requires table { table < length tables.old.tables }
    requires live { is_live_in tables.old table slot.0 ≡ true }
    requires columns { AreNumbers (columns_of tables.old table) columns.now }
    requires change { ModFitsTable (def_of tables.old table) columns.now change.now }
    requires spare { 0 < undo.old.spare }
    ensures gives { Gives (λ nothing. tables.new) result
        (changed_one table columns.now change.now slot tables.old) }
    ensures noted { IsNoted tables.old tables.new undo.old.entries undo.new.entries }
    ensures others { (other : Slot) → other.0 ≢ slot.0
        → is_live_in tables.old table other.0 ≡ true → is_live_in tables.new table other.0 ≡ true }
    ensures spare { undo.old.spare ≤ undo.new.spare + 1 }
{
    // A proof knows that the rows are valid where it has asked for their shape.
    let _ = tables.schema();
    if deletes(change.kind) {
        tables.delete(table, slot, undo);
        return Ok(());
    }
    let row = match changed_row(alloc, tables.row(table, slot), columns, change) {
        Ok(row) => row,
        Err(fault) => return Err(fault),
    };
    if let Some(code) = refusal_of(tables, table, &row, Some(slot)) {
        return Err(Fault::Refused(code));
    }
    tables.replace(table, slot, row, undo);
    Ok(())
}

fn deletes(kind: ModKind) -> bool
    ensures { result ≡ deletes kind }
{
    match kind {
        ModKind::Update | ModKind::Add | ModKind::Subtract => false,
        ModKind::Remove => true,
    }
}
