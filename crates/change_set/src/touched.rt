//! The rows that slots had before changes, out of the notes of the changes.
ghost use Rattle.std.specs.Prelude.{◌≡◌, ◌<◌, ◌++◌, length, map, IfOk, OnOk, IfSome, option_copied};
ghost use Rattle.std.specs.BTreeMap.{get};
ghost use Rattle.std.specs.List.Sorted.{IsPermutation, IsSortedBy};
ghost use Rattle.std.specs.Ordering.{is_lt};
ghost use Rattle.table_rows.specs.Slots.{row_found};
ghost use Rattle.table_rows.specs.Undoing.{since};
ghost use Rattle.change_set.specs.Touched.{AreOfTables, slot_of, row_before, slot_cmp, told_or, old_told, TellsBefore, olds_of, old_cmp, old_seen, is_among};

use row_types::{Row, cmp_keys};
use std::alloc::{AllocError, Global};
use std::cmp::Ordering;
use std::collections::BTreeMap;
use table_rows::{SlotRef, Tables, Undo, UndoList};

/// What the slots that were touched had before. A slot is behind the number of its table.
pub(crate) type Befores<'a> = BTreeMap<(u32, u32), Option<&'a Row>>;

/// A row that a table had before.
#[derive(Clone, Copy, Drop)]
pub(crate) struct OldRow<'a> {
    pub(crate) table: u32,
    pub(crate) row: &'a Row,
}

/// The slot that a change is of.
pub(crate) fn slot_of(undo: &Undo) -> Option<(u32, u32)>
    ensures { result ≡ slot_of undo.now }
{
    match undo {
        Undo::Put(table, slot, _)
        | Undo::Replaced(table, slot, _, _)
        | Undo::Deleted(table, slot, _) => Some((*table, slot.0)),
        Undo::Count(..) => None,
    }
}

// The row that the slot had before the change.
fn row_before(undo: &Undo) -> Option<&Row>
    ensures { option_copied result ≡ row_before undo.now }
{
    match undo {
        Undo::Replaced(_, _, row, _) | Undo::Deleted(_, _, row) => Some(row),
        Undo::Put(..) | Undo::Count(..) => None,
    }
}

/// What each slot that was touched had before all changes: its oldest note says it.
pub(crate) fn rows_before<'a>(alloc: Global, undo: &'a UndoList) -> Result<Befores<'a>, AllocError>
    ensures { IfOk result (λ befores.
        TellsBefore (get slot_cmp befores) (since 0 undo.now.entries)) }
{
    let mut befores = BTreeMap::new(alloc);
    let mut at = undo.mark();
    while at > 0 {
        at -= 1;
        let note = undo.entry(at);
        if let Some(slot) = slot_of(note) {
            befores.insert(slot, row_before(note))?;
        }
    }
    Ok(befores)
}

/// The row that a slot had before all changes. One that was not touched has it still.
pub(crate) fn row_once<'a>(
    befores: &Befores<'a>,
    tables: &'a Tables,
    slot: (u32, u32),
) -> Option<&'a Row>
    requires { slot.0 < length tables.now.tables }
    ensures { option_copied result
        ≡ told_or (get slot_cmp befores.now slot) (row_found tables.now slot.0 slot.1) }
{
    match befores.get(&slot) {
        None => tables.get(slot.0, SlotRef(slot.1)),
        Some(row) => *row,
    }
}

// Rows by table, and then by their values.
fn cmp_olds(a: &OldRow<'_>, b: &OldRow<'_>) -> Ordering
    ensures { result ≡ old_cmp (old_seen a.now) (old_seen b.now) }
{
    a.table.cmp(&b.table).then(cmp_keys(a.row, b.row))
}

// Appends the row from before of a slot, if one is named and it had one.
fn push_old<'a>(
    tables: &'a Tables,
    slot: Option<(u32, u32)>,
    befores: &Befores<'a>,
    olds: &mut Vec<OldRow<'a>>,
) -> Result<(), AllocError>
    requires { IfSome slot (λ slot. slot.0 < length tables.now.tables) }
    ensures { OnOk result (map old_seen olds.new.items ≡ map old_seen olds.old.items
        ++ old_told tables.now (get slot_cmp befores.now) slot) }
{
    if let Some(slot) = slot {
        if let Some(row) = row_once(befores, tables, slot) {
            olds.push(OldRow { table: slot.0, row })?;
        }
    }
    Ok(())
}

// The rows from before of all slots that were touched. A slot with several notes comes again.
fn push_olds<'a>(
    tables: &'a Tables,
    undo: &UndoList,
    befores: &Befores<'a>,
    olds: &mut Vec<OldRow<'a>>,
) -> Result<(), AllocError>
    requires tables { AreOfTables tables.now undo.now.entries }
    requires befores { TellsBefore (get slot_cmp befores.now) (since 0 undo.now.entries) }
    ensures { OnOk result (map old_seen olds.new.items ≡ map old_seen olds.old.items
        ++ olds_of tables.now (since 0 undo.now.entries) undo.now.entries) }
{
    for at in 0..undo.mark() {
        push_old(tables, slot_of(undo.entry(at)), befores, olds)?;
    }
    Ok(())
}

/// The same in order.
pub(crate) fn olds<'a>(
    alloc: Global,
    tables: &'a Tables,
    undo: &UndoList,
    befores: &Befores<'a>,
) -> Result<Vec<OldRow<'a>>, AllocError>
    requires tables { AreOfTables tables.now undo.now.entries }
    requires befores { TellsBefore (get slot_cmp befores.now) (since 0 undo.now.entries) }
    ensures rows { IfOk result (λ olds. IsPermutation
        (olds_of tables.now (since 0 undo.now.entries) undo.now.entries) (map old_seen olds.items)) }
    ensures sorted { IfOk result (λ olds.
        IsSortedBy (λ a b. is_lt (old_cmp (old_seen a) (old_seen b))) olds.items) }
{
    let mut olds = Vec::new(alloc);
    push_olds(tables, undo, befores, &mut olds)?;
    olds.sort_unstable_by(|a, b| cmp_olds(a, b));
    Ok(olds)
}

/// Whether a row of a table is one of these.
pub(crate) fn is_among(olds: &[OldRow<'_>], table: u32, row: &Row) -> bool
    requires { IsSortedBy (λ a b. is_lt (old_cmp (old_seen a) (old_seen b))) olds.now }
    ensures { result ≡ is_among (map old_seen olds.now) table row.now }
{
    let wanted = OldRow { table, row };
    olds.binary_search_by(|old| cmp_olds(old, &wanted)).is_ok()
}
