//! Changes of the rows, each noted so that it can be taken back.
ghost use Rattle.std.specs.Prelude.{◌≡◌, ℕ, ◌+◌, ◌<◌, ◌≤◌, ◌^◌, [], ◌∷◌, ◌++◌, length, take, true, Some, None, IsSome};
ghost use Rattle.table_rows.specs.Rows.{def_of, entries_of, rows_of, room_of, counted_at, counter_of, with_counter};
ghost use Rattle.table_rows.specs.Slots.{IsVacant, is_live_in, row_at, with_row_at, without, without_at};
ghost use Rattle.table_rows.specs.Sizes.{total_with, most_bytes};
ghost use Rattle.table_rows.specs.Checks.{IsPlaceable};
ghost use Rattle.table_rows.specs.Undoing.{since, CanUndo, AreUndoable, undone, undone_all, LeadsBack};
ghost use Rattle.table_rows.specs.declared.undo.Undo.TheVariants.{Put, Replaced, Deleted, Count};

use super::Tables;
use crate::slot_ref::SlotRef;
use crate::undo::Undo;
use crate::undo_list::UndoList;
use row_types::Row;

impl Tables {
    /// Puts a new row into a slot without one, and raises the counter above it. Takes no memory.
    pub fn put(&mut self, table: u32, row: Row, undo: &mut UndoList)
        requires table { table < length self.old.tables }
        requires row { IsPlaceable (def_of self.old table) row (entries_of self.old table) }
        requires bytes { total_with self.old table row None ≤ most_bytes }
        requires room { length (entries_of self.old table) < room_of self.old table }
        requires spare { 0 < undo.old.spare }
        ensures put { (slot : ℕ) × IsVacant slot (rows_of self.old table)
            × (self.new ≡ with_row_at self.old table slot row)
            × (undo.new.entries ≡ undo.old.entries
            ++ Put table (record { 0 = slot }) (counter_of self.old table) ∷ []) }
        ensures spare { undo.new.spare + 1 ≡ undo.old.spare }
        ensures back { LeadsBack
            (since (length undo.old.entries) undo.new.entries) self.new self.old }
    {
        let before = self.store(table).counter();
        let slot = self.put_new(table, row);
        undo.push_reserved(Undo::Put(table, SlotRef(slot), before));
    }

    /// Puts another row into a slot that has one, and raises the counter above it. Takes no memory.
    pub fn replace(&mut self, table: u32, slot: SlotRef, row: Row, undo: &mut UndoList)
        requires table { table < length self.old.tables }
        requires live { is_live_in self.old table slot.0 ≡ true }
        requires row { IsPlaceable (def_of self.old table) row
            (without slot.0 (entries_of self.old table)) }
        requires bytes { total_with self.old table row (Some slot) ≤ most_bytes }
        requires spare { 0 < undo.old.spare }
        ensures replaced { self.new ≡ with_row_at self.old table slot.0 row }
        ensures pushed { undo.new.entries
            ≡ undo.old.entries
            ++ Replaced table slot (row_at self.old table slot.0) (counter_of self.old table) ∷ [] }
        ensures spare { undo.new.spare + 1 ≡ undo.old.spare }
        ensures back { LeadsBack
            (since (length undo.old.entries) undo.new.entries) self.new self.old }
    {
        let _ = &self.stores;
        let before = self.store(table).counter();
        let counter = self.store(table).raised(&row);
        let old = self.exchange(table, slot.0, row, counter);
        undo.push_reserved(Undo::Replaced(table, slot, old, before));
    }

    /// Lets a row go, and its slot have none. The counter stays. Takes no memory.
    pub fn delete(&mut self, table: u32, slot: SlotRef, undo: &mut UndoList)
        requires table { table < length self.old.tables }
        requires live { is_live_in self.old table slot.0 ≡ true }
        requires spare { 0 < undo.old.spare }
        ensures deleted { self.new ≡ without_at self.old table slot.0 }
        ensures pushed { undo.new.entries
            ≡ undo.old.entries ++ Deleted table slot (row_at self.old table slot.0) ∷ [] }
        ensures spare { undo.new.spare + 1 ≡ undo.old.spare }
        ensures back { LeadsBack
            (since (length undo.old.entries) undo.new.entries) self.new self.old }
    {
        let old = self.take_out(table, slot.0);
        undo.push_reserved(Undo::Deleted(table, slot, old));
    }

    /// Raises the counter of a table with a counted column. Takes no memory.
    pub fn raise_counter(&mut self, table: u32, to: u64, undo: &mut UndoList)
        requires table { table < length self.old.tables }
        requires counted { IsSome (counted_at self.old table) }
        requires above { counter_of self.old table < to }
        requires most { to ≤ 2 ^ 63 }
        requires spare { 0 < undo.old.spare }
        ensures raised { self.new ≡ with_counter self.old table to }
        ensures pushed { undo.new.entries
            ≡ undo.old.entries ++ Count table (counter_of self.old table) ∷ [] }
        ensures spare { undo.new.spare + 1 ≡ undo.old.spare }
        ensures back { LeadsBack
            (since (length undo.old.entries) undo.new.entries) self.new self.old }
    {
        let _ = &self.stores;
        let before = self.store(table).counter();
        self.count_to(table, to);
        undo.push_reserved(Undo::Count(table, before));
    }

    /// Takes back all changes since a mark. Takes no memory.
    pub fn undo_to(&mut self, undo: &mut UndoList, mark: usize)
        requires mark { mark ≤ length undo.old.entries }
        requires undoable { AreUndoable (since mark undo.old.entries) self.old }
        ensures state { self.new ≡ undone_all (since mark undo.old.entries) self.old }
        ensures entries { undo.new.entries ≡ take mark undo.old.entries }
        ensures spare { undo.new.spare + mark ≡ undo.old.spare + length undo.old.entries }
    {
        while undo.mark() > mark {
            let last = undo.pop();
            self.undo_one(last);
        }
    }

    // Takes a change back.
    fn undo_one(&mut self, undo: Undo)
        requires { CanUndo undo self.old }
        ensures { self.new ≡ undone undo self.old }
    {
        match undo {
            Undo::Put(table, slot, counter) => {
                let _ = self.take_out(table, slot.0);
                self.count_to(table, counter);
            }
            Undo::Replaced(table, slot, row, counter) => {
                let _ = self.exchange(table, slot.0, row, counter);
            }
            Undo::Deleted(table, slot, row) => self.put_back(table, slot.0, row),
            Undo::Count(table, counter) => self.count_to(table, counter),
        }
    }
}
