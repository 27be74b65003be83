//! Rows by their slots, by their primary key, and in the order of an index.
ghost use Rattle.std.specs.Prelude.{◌≡◌, ℕ, ◌<◌, ◌≤◌, length, true, Option, IfSome, option_copied, option_map};
ghost use Rattle.table_rows.specs.Rows.{indexes_of, entries_of};
ghost use Rattle.table_rows.specs.Indexes.{primary_of, parts_at, index_columns};
ghost use Rattle.table_rows.specs.Slots.{is_live_in, row_at, row_found};
ghost use Rattle.table_rows.specs.Walks.{walk_of, begun, gone_on, walked, keyed, first_keyed, slot_of};
ghost use Rattle.table_rows.specs.Valid.{IsValidState};

use super::Tables;
use crate::bound::Bound;
use crate::cells::has_key;
use crate::edge::Edge;
use crate::one_table::{primary_index, primary_of};
use crate::slot_ref::SlotRef;
use crate::walk::Walk;
use row_types::{Row, RowKey, Value};

impl Tables {
    /// Where the walk of an index begins: at the first row from the edge on, or, `down`, at the
    /// last one up to it.
    pub fn seek(&self, table: u32, index: u32, edge: &Edge<RowKey>, down: bool) -> Option<SlotRef>
        requires table { table < length self.now.tables }
        requires index { index < length (indexes_of self.now table) }
        ensures begun { result ≡ slot_of (begun down
            (index_columns (indexes_of self.now table) index)
            edge.now (walk_of self.now table index)) }
        ensures live { IfSome result (λ slot. is_live_in self.now table slot.0 ≡ true) }
    {
        let found = self.store(table).begin(index, edge, down);
        slot_ref(found)
    }

    /// The row behind that of a slot in the order of an index, or, `down`, in front of it.
    pub fn step(&self, table: u32, index: u32, slot: SlotRef, down: bool) -> Option<SlotRef>
        requires table { table < length self.now.tables }
        requires index { index < length (indexes_of self.now table) }
        requires live { is_live_in self.now table slot.0 ≡ true }
        ensures gone_on { result ≡ slot_of (gone_on down slot.0 (walk_of self.now table index)) }
        ensures live { IfSome result (λ slot. is_live_in self.now table slot.0 ≡ true) }
    {
        let found = self.store(table).go_on(index, slot.0, down);
        slot_ref(found)
    }

    /// The rows of an index, from a bound at a key of some of its first cells. Takes no memory.
    pub fn walk<'a>(&'a self, table: u32, index: u32, key: &'a [Value], bound: Bound) -> Walk<'a>
        requires table { table < length self.now.tables }
        requires index { index < length (indexes_of self.now table) }
        ensures { result ≡ walked bound (index_columns (indexes_of self.now table) index)
            key.now (walk_of self.now table index) }
    {
        self.store(table).walk(index, key, bound)
    }

    /// The row in a slot.
    pub fn row(&self, table: u32, slot: SlotRef) -> &Row
        requires table { table < length self.now.tables }
        requires live { is_live_in self.now table slot.0 ≡ true }
        ensures { result.now ≡ row_at self.now table slot.0 }
    {
        self.store(table).row(slot.0)
    }

    /// The row in a slot, or None where it has none.
    pub fn get(&self, table: u32, slot: SlotRef) -> Option<&Row>
        requires { table < length self.now.tables }
        ensures { option_copied result ≡ row_found self.now table slot.0 }
    {
        self.store(table).get(slot.0)
    }

    /// All rows of a table, in the order of its primary key. Takes no memory.
    pub fn rows<'a>(&'a self, table: u32) -> Walk<'a>
        requires { table < length self.now.tables }
        ensures { result ≡ entries_of self.now table }
    {
        let index = self.primary(table);
        self.walk(table, index, &[], Bound::From)
    }

    /// The slot of the row with this primary key, or of the first one whose key begins so. Takes no
    /// memory.
    pub fn find_key(&self, table: u32, key: &[Value]) -> Option<SlotRef>
        requires table { table < length self.now.tables }
        requires key { length key.now ≤ length (primary_of (indexes_of self.now table)) }
        ensures keyed { result ≡ slot_of
            (keyed (indexes_of self.now table) key.now (entries_of self.now table)) }
        ensures live { IfSome result (λ slot. is_live_in self.now table slot.0 ≡ true) }
    {
        let index = self.primary(table);
        let parts = primary_of(self.def(table).indexes.as_slice());
        first_keyed(self.walk(table, index, key, Bound::From), parts, key)
    }

    // The number of a table's primary index.
    fn primary(&self, table: u32) -> u32
        requires { table < length self.now.tables }
        ensures within { result < length (indexes_of self.now table) }
        ensures parts { parts_at (indexes_of self.now table) result
            ≡ primary_of (indexes_of self.now table) }
        ensures valid { IsValidState self.now }
    {
        let _ = self.schema();
        primary_index(self.def(table).indexes.as_slice())
    }
}

// The name of a slot, if there is one.
fn slot_ref(found: Option<u32>) -> Option<SlotRef>
    ensures { result ≡ option_map (λ (slot : ℕ). record { 0 = slot }) found }
{
    match found {
        None => None,
        Some(slot) => Some(SlotRef(slot)),
    }
}

// The slot of the first row of a walk, if it has the key.
fn first_keyed(walk: Walk<'_>, columns: &[u32], key: &[Value]) -> Option<SlotRef>
    ensures { result ≡ slot_of (first_keyed columns.now key.now walk.entry) }
{
    let mut walk = walk;
    match walk.next() {
        None => None,
        Some((slot, row)) => {
            if has_key(columns, key, row.as_slice()) {
                Some(slot)
            } else {
                None
            }
        }
    }
}
