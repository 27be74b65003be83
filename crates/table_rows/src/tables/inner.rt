//! Changes of the rows, without a note of them.
ghost use Rattle.std.specs.Prelude.{◌≡◌, ◌+◌, ◌<◌, ◌≤◌, length, true, None, OnOk, OnErr};
ghost use Rattle.table_rows.specs.Rows.{def_of, entries_of, rows_of, room_of, with_entries, with_counted, with_counter};
ghost use Rattle.table_rows.specs.Slots.{IsVacant, is_live_in, row_at, entries_with, with_row_at, without_at};
ghost use Rattle.table_rows.specs.Sizes.{total_with, most_bytes};
ghost use Rattle.table_rows.specs.Checks.{IsPlaceable};
ghost use Rattle.table_rows.specs.Valid.{IsValidState};
ghost use Rattle.table_rows.specs.Widths.{with_slots};

use super::Tables;
use row_types::{Row, row_size};
use std::alloc::AllocError;

impl Tables {
    /// Sees to it that `rows` more rows find a slot.
    pub(super) fn widen(&mut self, table: u32, rows: u32) -> Result<(), AllocError>
        requires { table < length self.old.tables }
        ensures ok { OnOk result (self.new ≡ with_slots self.old table rows) }
        ensures room { OnOk result
            (length (entries_of self.new table) + rows ≤ room_of self.new table) }
        ensures err { OnErr result (self.new ≡ self.old) }
    {
        let store = &mut self.stores[table as usize];
        store.reserve(rows)
    }

    /// Puts a new row into a slot without one, and answers the slot.
    pub(super) fn put_new(&mut self, table: u32, row: Row) -> u32
        requires table { table < length self.old.tables }
        requires row { IsPlaceable (def_of self.old table) row (entries_of self.old table) }
        requires bytes { total_with self.old table row None ≤ most_bytes }
        requires room { length (entries_of self.old table) < room_of self.old table }
        ensures valid { IsValidState self.old }
        ensures vacant { IsVacant result (rows_of self.old table) }
        ensures put { self.new ≡ with_row_at self.old table result row }
    {
        let size = row_size(&row);
        let store = &mut self.stores[table as usize];
        let counter = store.raised(&row);
        let slot = store.put(row);
        store.set_counter(counter);
        self.total += size;
        slot
    }

    /// Puts a row back into its slot, which has none.
    pub(super) fn put_back(&mut self, table: u32, slot: u32, row: Row)
        requires table { table < length self.old.tables }
        requires vacant { IsVacant slot (rows_of self.old table) }
        requires valid { IsValidState
            (with_entries self.old table (entries_with self.old table slot row)) }
        ensures { self.new ≡ with_entries self.old table (entries_with self.old table slot row) }
    {
        let size = row_size(&row);
        let store = &mut self.stores[table as usize];
        store.put_at(slot, row);
        self.total += size;
    }

    /// Puts another row into a slot, and hands the old one back. The counter becomes this one.
    pub(super) fn exchange(&mut self, table: u32, slot: u32, row: Row, counter: u64) -> Row
        requires table { table < length self.old.tables }
        requires live { is_live_in self.old table slot ≡ true }
        requires valid { IsValidState
            (with_counted self.old table (entries_with self.old table slot row) counter) }
        ensures handed { result ≡ row_at self.old table slot }
        ensures exchanged { self.new
            ≡ with_counted self.old table (entries_with self.old table slot row) counter }
    {
        let size = row_size(&row);
        let store = &mut self.stores[table as usize];
        let old = store.replace(slot, row);
        store.set_counter(counter);
        self.total = self.total - row_size(&old) + size;
        old
    }

    /// Takes a row out of its slot, and hands it back.
    pub(super) fn take_out(&mut self, table: u32, slot: u32) -> Row
        requires table { table < length self.old.tables }
        requires live { is_live_in self.old table slot ≡ true }
        ensures valid { IsValidState self.old }
        ensures handed { result ≡ row_at self.old table slot }
        ensures gone { self.new ≡ without_at self.old table slot }
    {
        let store = &mut self.stores[table as usize];
        let old = store.take(slot);
        self.total -= row_size(&old);
        old
    }

    /// Sets the counter of a table.
    pub(super) fn count_to(&mut self, table: u32, counter: u64)
        requires table { table < length self.old.tables }
        requires valid { IsValidState (with_counter self.old table counter) }
        ensures { self.new ≡ with_counter self.old table counter }
    {
        let store = &mut self.stores[table as usize];
        store.set_counter(counter);
    }
}
