//! What is to be said of a row before it comes in.
ghost use Rattle.std.specs.Prelude.{◌≡◌, ◌+◌, ◌-◌, ◌<◌, ◌≤◌, length, true, Option, IfSome};
ghost use Rattle.row_types.specs.Size.{row_size};
ghost use Rattle.table_rows.specs.Rows.{def_of, columns_of, entries_of};
ghost use Rattle.table_rows.specs.Slots.{is_live_in};
ghost use Rattle.table_rows.specs.Sizes.{total, total_with, size_instead, most_bytes};
ghost use Rattle.table_rows.specs.Checks.{IsRow, IsPlaceable, IsAllowed, others, verdict_of};
ghost use Rattle.table_rows.specs.declared.verdict.Verdict.TheVariants.{Fine, Full};

use super::Tables;
use crate::checks::{first_found, is_full, null_column};
use crate::dups::dup_index;
use crate::slot_ref::SlotRef;
use crate::verdict::Verdict;
use row_types::{Row, row_size};

impl Tables {
    /// What is to be said of a row, in place of that in the slot `instead` or of none. Takes no
    /// memory.
    pub fn check_put(&self, table: u32, row: &Row, instead: Option<SlotRef>) -> Verdict
        requires table { table < length self.now.tables }
        requires row { IsRow (columns_of self.now table) row.now }
        requires instead { IfSome instead (λ slot. is_live_in self.now table slot.0 ≡ true) }
        ensures verdict { result ≡ verdict_of self.now table row.now instead }
        ensures fine { result ≡ Fine → IsAllowed self.now table row.now instead }
        // Where it is only too large it may be put all the same, as long as a greater limit is
        // kept.
        ensures full { result ≡ Full → IsPlaceable (def_of self.now table) row.now
            (others instead (entries_of self.now table)) }
    {
        // A proof knows that the rows are valid where it has seen the fields; so below.
        let _ = &self.stores;
        self.verdict(table, row, instead)
    }

    // What is to be said of a row.
    fn verdict(&self, table: u32, row: &Row, instead: Option<SlotRef>) -> Verdict
        requires table { table < length self.now.tables }
        requires row { IsRow (columns_of self.now table) row.now }
        requires instead { IfSome instead (λ slot. is_live_in self.now table slot.0 ≡ true) }
        ensures { result ≡ verdict_of self.now table row.now instead }
    {
        let def = self.def(table);
        let null = null_column(def.columns.as_slice(), row);
        let dup = dup_index(self.store(table), def.indexes.as_slice(), row, instead);
        let full = is_full(
            self.bytes_max,
            self.total,
            self.total_with(table, row, instead),
        );
        first_found(null, dup, full)
    }

    // The bytes of all rows once this row is in a table, in place of that in a slot or of none.
    fn total_with(&self, table: u32, row: &Row, instead: Option<SlotRef>) -> u64
        requires table { table < length self.now.tables }
        requires size { row_size row.now ≤ 16384 }
        requires instead { IfSome instead (λ slot. is_live_in self.now table slot.0 ≡ true) }
        ensures { result ≡ total_with self.now table row.now instead }
    {
        self.total - self.size_instead(table, instead) + row_size(row)
    }

    // The bytes of the row that is to go, which are among those of all rows.
    fn size_instead(&self, table: u32, instead: Option<SlotRef>) -> u64
        requires table { table < length self.now.tables }
        requires instead { IfSome instead (λ slot. is_live_in self.now table slot.0 ≡ true) }
        ensures size { result ≡ size_instead instead (entries_of self.now table) }
        ensures most { result ≤ total self.now }
        ensures bytes { total self.now ≤ most_bytes }
    {
        let _ = &self.stores;
        match instead {
            None => 0,
            Some(slot) => row_size(self.row(table, slot)),
        }
    }
}
