//! The rows of an index, one after another.
ghost use Rattle.std.specs.Prelude.{◌≡◌, [], ◌∷◌, MatchOption};

use crate::slot_ref::SlotRef;
use crate::store_walk::StoreWalk;
use row_types::Row;
use std::marker::Model;

/// The rows that are left, each with its slot, the next one first. A step costs no search.
#[derive(Drop)]
pub struct Walk<'a> {
    rows: StoreWalk<'a>,
}

impl<'a> Model for Walk<'a> {
    ghost use Rattle.std.specs.Prelude.{List};
    ghost use Rattle.table_rows.specs.Entries.{Entry};

    ghost Value = { List Entry };

    ghost view = { λ walk. walk.rows };
}

impl<'a> Walk<'a> {
    pub(crate) fn of(rows: StoreWalk<'a>) -> Walk<'a>
        ensures { result ≡ rows.entry }
    {
        Walk { rows }
    }

    /// The next row with its slot, or None at the end. Takes no memory.
    pub fn next(&mut self) -> Option<(SlotRef, &'a Row)>
        ensures { MatchOption result (self.old ≡ [] × self.new ≡ [])
            (λ found. self.old ≡ (found.1.now, found.0.0) ∷ self.new) }
    {
        let (slot, row) = self.rows.next()?;
        Some((SlotRef(slot), row))
    }
}
