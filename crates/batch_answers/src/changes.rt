//! A change, as an item of a batch.
ghost use Rattle.std.specs.Prelude.{◌≡◌, ℕ, List, ◌++◌, length, true, false, IfOk, OnOk, Ok};
ghost use Rattle.request_types.specs.Fits.{FindFits, ModFits};
ghost use Rattle.std.specs.List.{All};
ghost use Rattle.table_rows.specs.declared.slot_ref.SlotRef.{SlotRef as Slot};
ghost use Rattle.table_rows.specs.Slots.{is_live_in};
ghost use Rattle.table_rows.specs.Named.{AreDistinct};
ghost use Rattle.find_scan.specs.Select.{selected, slots_of};
ghost use Rattle.find_modify.specs.declared.modifies.Modified.TheVariants.{Done};
ghost use Rattle.table_rows.specs.Database.{database_of};
ghost use Rattle.batch_answers.specs.Answers.{chosen, changed, unless_refused, change_answered};
ghost use Rattle.table_rows.specs.GoingBack.{CanGoBack};
ghost use Rattle.batch_answers.specs.Steps.{reply_of};

use crate::codes::{push_code, push_count};
use find_modify::{Modified, modify};
use find_scan::{Rendered, render, select};
use request_types::{Code, FindSpec, ModSpec};
use std::alloc::{AllocError, Global};
use table_rows::{SlotRef, Tables, UndoList};

/// Changes rows and appends the reply, or a part of it where memory runs out.
pub(crate) fn answer_change(
    alloc: Global,
    tables: &mut Tables,
    find: &FindSpec,
    change: &ModSpec,
    undo: &mut UndoList,
    out: &mut Vec<u8>,
) -> Result<(), AllocError>
    requires find { FindFits tables.old.schema find.now }
    requires change { ModFits tables.old.schema find.now.table find.now.columns change.now }
    ensures reply { OnOk result (out.new.items
        ≡ out.old.items ++ (change_answered (database_of tables.old) find.now change.now).0) }
    ensures rows { OnOk result (database_of tables.new
        ≡ (change_answered (database_of tables.old) find.now change.now).1) }
    ensures back { CanGoBack tables.old tables.new undo.old.entries undo.new.entries }
{
    if change.show {
        show_and_change(alloc, tables, find, change, undo, out)
    } else {
        change_and_count(alloc, tables, find, change, undo, out)
    }
}

// Shows the rows from before the change, unless they are too many bytes.
fn show_and_change(
    alloc: Global,
    tables: &mut Tables,
    find: &FindSpec,
    change: &ModSpec,
    undo: &mut UndoList,
    out: &mut Vec<u8>,
) -> Result<(), AllocError>
    requires find { FindFits tables.old.schema find.now }
    requires change { ModFits tables.old.schema find.now.table find.now.columns change.now }
    requires shows { change.now.show ≡ true }
    ensures reply { OnOk result (out.new.items
        ≡ out.old.items ++ (change_answered (database_of tables.old) find.now change.now).0) }
    ensures rows { OnOk result (database_of tables.new
        ≡ (change_answered (database_of tables.old) find.now change.now).1) }
    ensures back { CanGoBack tables.old tables.new undo.old.entries undo.new.entries }
{
    // A proof knows that the rows are valid where it has asked for their shape; so below.
    let _ = tables.schema();
    let slots = select(alloc, tables, find)?;
    let columns = find.columns.as_slice();
    let len = out.len();
    match render(tables, find.table, slots.as_slice(), columns, out)? {
        Rendered::TooBig => push_code(out, Code::Big.number()),
        Rendered::Fits => match change_rows(alloc, tables, find, slots.as_slice(), change, undo)? {
            Modified::Done(_) => Ok(()),
            Modified::Refused(code) => {
                out.truncate(len);
                push_code(out, code)
            }
        },
    }
}

// Tells how many rows were changed.
fn change_and_count(
    alloc: Global,
    tables: &mut Tables,
    find: &FindSpec,
    change: &ModSpec,
    undo: &mut UndoList,
    out: &mut Vec<u8>,
) -> Result<(), AllocError>
    requires find { FindFits tables.old.schema find.now }
    requires change { ModFits tables.old.schema find.now.table find.now.columns change.now }
    requires counts { change.now.show ≡ false }
    ensures reply { OnOk result (out.new.items
        ≡ out.old.items ++ (change_answered (database_of tables.old) find.now change.now).0) }
    ensures rows { OnOk result (database_of tables.new
        ≡ (change_answered (database_of tables.old) find.now change.now).1) }
    ensures back { CanGoBack tables.old tables.new undo.old.entries undo.new.entries }
{
    let slots = select(alloc, tables, find)?;
    match change_rows(alloc, tables, find, slots.as_slice(), change, undo)? {
        Modified::Done(count) => push_count(out, count),
        Modified::Refused(code) => push_code(out, code),
    }
}

// Changes the selected rows, or leaves all as they are.
fn change_rows(
    alloc: Global,
    tables: &mut Tables,
    find: &FindSpec,
    slots: &[SlotRef],
    change: &ModSpec,
    undo: &mut UndoList,
) -> Result<Modified, AllocError>
    requires find { FindFits tables.old.schema find.now }
    requires change { ModFits tables.old.schema find.now.table find.now.columns change.now }
    requires slots { slots.now ≡ slots_of (selected tables.old find.now) }
    requires live { All (λ (slot : Slot). is_live_in tables.old find.now.table slot.0 ≡ true) slots.now }
    requires distinct { AreDistinct slots.now }
    ensures made { IfOk result (λ answer. (reply : List ℕ) → unless_refused (database_of tables.old)
        reply (changed (database_of tables.old) find.now change.now)
        ≡ (reply_of reply answer, database_of tables.new)) }
    ensures count { (count : ℕ) → result ≡ Ok (Done count)
        → count ≡ length (chosen (database_of tables.old) find.now) }
    ensures back { CanGoBack tables.old tables.new undo.old.entries undo.new.entries }
{
    let _ = tables.schema();
    let columns = find.columns.as_slice();
    modify(alloc, tables, find.table, slots, columns, change, undo)
}
