//! The tables, and how often they were looked at.
ghost use Rattle.std.specs.Prelude.{◌≡◌, ◌<◌, [], ◌∷◌, length, nat_eq, MatchOption};
ghost use Rattle.table_rows.specs.Rows.{indexes_of, entries_of};
ghost use Rattle.table_rows.specs.Indexes.{index_columns};
ghost use Rattle.table_rows.specs.Walks.{walk_of, walked};
ghost use Rattle.table_rows.specs.Valid.{IsValidState};
ghost use Rattle.sql_plan.specs.Looking.{one_more};

use row_types::{IndexDef, Row, Value};
use std::marker::Model;
use table_rows::{Bound, SlotRef, Tables, Walk};

/// The tables, and a count of the steps that were taken in them. Each search for a place in an
/// index is a step, and so is each row that is gone to from there, or the end.
#[derive(Drop)]
pub struct Looker<'a> {
    tables: &'a Tables,
    looked: u64,
}

impl<'a> Model for Looker<'a> {
    ghost use Rattle.sql_plan.specs.Looking.{Looking};

    ghost Value = { Looking };

    ghost view = { λ looker. record { state = looker.tables.now; looked = looker.looked } };
}

impl<'a> Looker<'a> {
    /// No step was taken yet.
    pub fn of(tables: &'a Tables) -> Looker<'a>
        ensures { result ≡ record { state = tables.now; looked = 0 } }
    {
        Looker { tables, looked: 0 }
    }

    /// How many steps were taken.
    pub fn looked(&self) -> u64
        ensures { result ≡ self.now.looked }
    {
        self.looked
    }

    /// The indexes of a table.
    pub(crate) fn indexes(&self, table: u32) -> &'a [IndexDef]
        requires { table < length self.now.state.tables }
        ensures indexes { result.now ≡ indexes_of self.now.state table }
        ensures valid { IsValidState self.now.state }
    {
        // A proof knows that the rows are valid where it has seen the schema.
        let _ = self.tables.schema();
        self.tables.def(table).indexes.as_slice()
    }

    /// Whether a table has no row.
    pub(crate) fn is_empty(&self, table: u32) -> bool
        requires { table < length self.now.state.tables }
        ensures { result ≡ nat_eq (length (entries_of self.now.state table)) 0 }
    {
        self.tables.count(table) == 0
    }

    /// All rows of a table, in the order of its primary key.
    pub(crate) fn rows(&mut self, table: u32) -> Walk<'a>
        requires { table < length self.old.state.tables }
        ensures rows { result ≡ entries_of self.old.state table }
        ensures after { self.new
            ≡ record { state = self.old.state; looked = one_more self.old.looked } }
    {
        self.looked = self.looked.saturating_add(1);
        self.tables.rows(table)
    }

    /// The rows of an index, from a bound at a key of some of its first cells.
    pub(crate) fn walk(
        &mut self,
        table: u32,
        index: u32,
        key: &'a [Value],
        bound: Bound,
    ) -> Walk<'a>
        requires table { table < length self.old.state.tables }
        requires index { index < length (indexes_of self.old.state table) }
        ensures rows { result ≡ walked bound (index_columns (indexes_of self.old.state table) index)
            key.now (walk_of self.old.state table index) }
        ensures after { self.new
            ≡ record { state = self.old.state; looked = one_more self.old.looked } }
    {
        self.looked = self.looked.saturating_add(1);
        self.tables.walk(table, index, key, bound)
    }

    /// The next row of a walk with its slot, or None at the end.
    pub(crate) fn next<'b>(&mut self, walk: &mut Walk<'b>) -> Option<(SlotRef, &'b Row)>
        ensures next { MatchOption result (walk.old ≡ [] × walk.new ≡ [])
            (λ found. walk.old ≡ (found.1.now, found.0.0) ∷ walk.new) }
        ensures after { self.new
            ≡ record { state = self.old.state; looked = one_more self.old.looked } }
    {
        self.looked = self.looked.saturating_add(1);
        walk.next()
    }
}
