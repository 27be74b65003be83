//! Whether an index keeps a row out of a table.
ghost use Rattle.std.specs.Prelude.{◌≡◌, ◌<◌, ◌≤◌, ◌^◌, length, Option, Some, None, true, false};
ghost use Rattle.std.specs.List.{AllByRecursion};
ghost use Rattle.table_rows.specs.Indexes.{parts_of};
ghost use Rattle.table_rows.specs.Checks.{clashes, dup_index, others};
ghost use Rattle.table_rows.specs.Valid.{AreUniqueIn};
ghost use Rattle.table_rows.specs.Table.{parts_by, is_named};

use crate::checks::is_barred;
use crate::one_table::OneTable;
use crate::slot_ref::SlotRef;
use row_types::{IndexDef, Row};

/// The first index in which the row can't stand beside the others.
pub(crate) fn dup_index(
    table: &OneTable,
    indexes: &[IndexDef],
    row: &Row,
    instead: Option<SlotRef>,
) -> Option<u32>
    requires orders { table.now.orders ≡ parts_of indexes.now }
    requires unique { AllByRecursion (AreUniqueIn table.now.rows.entries) indexes.now }
    requires few { length indexes.now < 2 ^ 32 }
    ensures { result ≡ dup_index indexes.now row.now (others instead table.now.rows.entries) }
{
    for (i, index) in indexes.iter().enumerate() {
        if clashes(table, i as u32, index, row, instead) {
            return Some(i as u32);
        }
    }
    None
}

// Whether the index keeps the row away from one of the others. In a table that it keeps apart
// already the first row that is alike is the only one.
fn clashes(
    table: &OneTable,
    number: u32,
    index: &IndexDef,
    row: &Row,
    instead: Option<SlotRef>,
) -> bool
    requires number { number < length table.now.orders }
    requires parts { parts_by table.now number ≡ index.now.parts }
    requires unique { AreUniqueIn table.now.rows.entries index.now }
    ensures { result ≡ clashes (others instead table.now.rows.entries) row.now index.now }
{
    if !is_barred(index, row) {
        return false;
    }
    match table.first_like(number, row) {
        None => false,
        Some(slot) => !is_named(instead, slot),
    }
}

// Whether this slot is the one that is meant.
fn is_named(instead: Option<SlotRef>, slot: u32) -> bool
    ensures { result ≡ is_named instead slot }
{
    match instead {
        None => false,
        Some(meant) => meant.0 == slot,
    }
}
