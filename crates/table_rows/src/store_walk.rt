//! The rows of an index, one after another.
ghost use Rattle.std.specs.Prelude.{◌≡◌, [], ◌∷◌, MatchOption};

use crate::cuts::row_in;
use crate::mark::Mark;
use row_types::Row;
use std::marker::Model;

/// The rows that are left, each beside its slot, and the next one first. A step costs no search.
#[derive(Drop)]
pub struct StoreWalk<'a> {
    pub(crate) rows: &'a [Option<Row>],
    pub(crate) marks: index_tree::Walk<'a, Mark>,
}

impl<'a> Model for StoreWalk<'a> {
    ghost use Rattle.std.specs.Prelude.{List};
    ghost use Rattle.std.specs.List.{AllByRecursion};
    ghost use Rattle.table_rows.specs.Entries.{Entry, IsTaken};
    ghost use Rattle.table_rows.specs.Marks.{slots_of};
    ghost use Rattle.table_rows.specs.Walked.{entries_under};

    ghost Value = { List Entry };

    ghost view = { λ walk. entries_under walk.rows.now (slots_of walk.marks) };

    ghost invariant = { λ walk. AllByRecursion (IsTaken walk.rows.now) (slots_of walk.marks) };
}

impl<'a> StoreWalk<'a> {
    /// The next slot and its row, or None at the end. Takes no memory.
    pub fn next(&mut self) -> Option<(u32, &'a Row)>
        ensures { MatchOption result (self.old ≡ [] × self.new ≡ [])
            (λ found. self.old ≡ (found.1.now, found.0) ∷ self.new) }
    {
        let slot = self.marks.next()?.slot;
        match row_in(self.rows, slot) {
            None => unreachable!(),
            Some(row) => Some((slot, row)),
        }
    }
}
