//! The rows of a store in the order of one index.
ghost use Rattle.std.specs.Prelude.{◌≡◌, ℕ, ◌+◌, ◌<◌, ◌≤◌, ◌^◌, ◌++◌, [], not, length, set, find, reverse, Option, Some, None, slice_get, option_and_then, OnOk, IfOk, IfSome};
ghost use Rattle.index_tree.specs.Contents.{IsInside, Finds};
ghost use Rattle.index_tree.specs.Parts.{IsParted};
ghost use Rattle.table_rows.specs.Entries.{IsTaken, kept, walk};
ghost use Rattle.table_rows.specs.Marks.{slot_marked};
ghost use Rattle.table_rows.specs.StoreWalks.{IsNew, first_from, last_to, first_like, behind, in_front, slot_in};
ghost use Rattle.table_rows.specs.Walked.{upward, downward};
ghost use Rattle.table_rows.specs.StoreInside.{IsOrder, BeginsWithOwn, HasRoom, HasAt, columns_in, is_ahead_of, is_past};

use crate::cuts::{KeyCut, RowCut, is_same, row_in};
use crate::edge::Edge;
use crate::mark::Mark;
use crate::store_walk::StoreWalk;
use index_tree::{Cut, Place, Tree};
use row_types::{Row, RowKey, Value};
use std::alloc::{AllocError, Global};

/// The columns of an index, the columns that its walk goes by, and the marks of all rows in that
/// order.
#[derive(Drop)]
pub(crate) struct RowOrder {
    own: Vec<u32>,
    whole: Vec<u32>,
    tree: Tree<Mark>,
}

impl RowOrder {
    /// An order over no row, with room for so many slots.
    pub(crate) fn new(
        alloc: Global,
        own: Vec<u32>,
        key: &[u32],
        slots: u32,
    ) -> Result<RowOrder, AllocError>
        ensures own { IfOk result (λ order. order.own.items ≡ own.items) }
        ensures whole { IfOk result (λ order. order.whole.items ≡ own.items ++ key.now) }
        ensures items { IfOk result (λ order. order.tree.items ≡ []) }
        ensures room { IfOk result (λ order. slots ≤ order.tree.spare) }
    {
        let mut whole = Vec::new(alloc);
        whole.extend_from_slice(own.as_slice())?;
        whole.extend_from_slice(key)?;
        let mut tree = Tree::new(alloc);
        tree.reserve(slots)?;
        Ok(RowOrder { own, whole, tree })
    }

    /// Makes room for so many slots more than there are.
    pub(crate) fn grow(&mut self, rows: &[Option<Row>], more: u32) -> Result<(), AllocError>
        requires order { IsOrder rows.now self.old }
        requires fits { length rows.now + more < 2 ^ 32 }
        ensures order { IsOrder rows.now self.new }
        ensures room { OnOk result (HasRoom (length rows.now + more) self.new) }
        ensures columns { columns_in self.new ≡ columns_in self.old }
    {
        let slots = rows.len() as u32 + more;
        self.tree.reserve(slots - self.tree.len() as u32)
    }

    /// Lets in the row that is to stand in a slot, where the order is that of the rows in all other
    /// slots.
    pub(crate) fn enter(&mut self, rows: &[Option<Row>], slot: u32, row: &Row)
        requires slot { slot < length rows.now }
        requires order { IsOrder (set rows.now slot None) self.old }
        requires new { IsNew self.old.whole.items row.now (kept (set rows.now slot None)) }
        ensures order { IsOrder (set rows.now slot (Some row.now)) self.new }
        ensures columns { columns_in self.new ≡ columns_in self.old }
    {
        let cut = RowCut::of(rows, self.whole.as_slice(), row);
        self.tree.insert(&cut, Mark::of(cut.digest, slot));
    }

    /// Lets the row in a slot go.
    pub(crate) fn leave(&mut self, rows: &[Option<Row>], slot: u32)
        requires live { IsTaken rows.now slot }
        requires order { IsOrder rows.now self.old }
        ensures order { IsOrder (set rows.now slot None) self.new }
        ensures columns { columns_in self.new ≡ columns_in self.old }
    {
        let place = self.place_of(rows, slot);
        self.tree.remove_at(place);
    }

    /// Lets in another row in place of the one in a slot. Where their cells are equal nothing is
    /// touched.
    pub(crate) fn shift(&mut self, rows: &[Option<Row>], slot: u32, row: &Row)
        requires live { IsTaken rows.now slot }
        requires order { IsOrder rows.now self.old }
        requires new { IsNew self.old.whole.items row.now (kept (set rows.now slot None)) }
        ensures order { IsOrder (set rows.now slot (Some row.now)) self.new }
        ensures columns { columns_in self.new ≡ columns_in self.old }
    {
        if is_same(rows, slot, self.whole.as_slice(), row) {
            return;
        }
        self.leave(rows, slot);
        self.enter(rows, slot, row);
    }

    /// The slot of the first row at or after the edge.
    pub(crate) fn first_from(&self, rows: &[Option<Row>], edge: &Edge<RowKey>) -> Option<u32>
        requires { IsOrder rows.now self.now }
        ensures { result ≡ slot_in
            (first_from self.now.whole.items edge.now (walk self.now.whole.items rows.now)) }
    {
        match edge {
            Edge::Open => self.first_at(rows, &[], false),
            Edge::With(key) => self.first_at(rows, key.as_slice(), false),
            Edge::Without(key) => self.first_at(rows, key.as_slice(), true),
        }
    }

    /// The slot of the last row at or before the edge.
    pub(crate) fn last_to(&self, rows: &[Option<Row>], edge: &Edge<RowKey>) -> Option<u32>
        requires { IsOrder rows.now self.now }
        ensures { result ≡ slot_in
            (last_to self.now.whole.items edge.now (walk self.now.whole.items rows.now)) }
    {
        match edge {
            Edge::Open => self.last_at(rows, &[], true),
            Edge::With(key) => self.last_at(rows, key.as_slice(), true),
            Edge::Without(key) => self.last_at(rows, key.as_slice(), false),
        }
    }

    /// The slot of the first row with the cells of this one at the index's own columns.
    pub(crate) fn first_like(&self, rows: &[Option<Row>], row: &Row) -> Option<u32>
        requires order { IsOrder rows.now self.now }
        requires columns { BeginsWithOwn self.now }
        ensures { result ≡ slot_in
            (first_like self.now.own.items row.now (walk self.now.whole.items rows.now)) }
    {
        let columns = self.own.as_slice();
        let slot = self.first_behind(&RowCut::of(rows, columns, row))?;
        if is_same(rows, slot, columns, row) {
            Some(slot)
        } else {
            None
        }
    }

    /// The slot of the row behind the one in a slot.
    pub(crate) fn next(&self, rows: &[Option<Row>], slot: u32) -> Option<u32>
        requires order { IsOrder rows.now self.now }
        requires live { IsTaken rows.now slot }
        ensures { result ≡ slot_in (behind slot (walk self.now.whole.items rows.now)) }
    {
        self.slot_at(self.tree.next(self.place_of(rows, slot)))
    }

    /// The slot of the row in front of the one in a slot.
    pub(crate) fn prev(&self, rows: &[Option<Row>], slot: u32) -> Option<u32>
        requires order { IsOrder rows.now self.now }
        requires live { IsTaken rows.now slot }
        ensures { result ≡ slot_in (in_front slot (walk self.now.whole.items rows.now)) }
    {
        self.slot_at(self.tree.prev(self.place_of(rows, slot)))
    }

    /// The rows from a key on.
    pub(crate) fn up<'a>(
        &'a self,
        rows: &'a [Option<Row>],
        key: &'a [Value],
        through: bool,
    ) -> StoreWalk<'a>
        requires { IsOrder rows.now self.now }
        ensures { result
            ≡ upward self.now.whole.items key.now through (walk self.now.whole.items rows.now) }
    {
        let cut = KeyCut::of(rows, self.whole.as_slice(), key, through);
        StoreWalk {
            rows,
            marks: self.tree.up(&cut),
        }
    }

    /// The rows up to a key, the last one first.
    pub(crate) fn down<'a>(
        &'a self,
        rows: &'a [Option<Row>],
        key: &'a [Value],
        through: bool,
    ) -> StoreWalk<'a>
        requires { IsOrder rows.now self.now }
        ensures { result
            ≡ downward self.now.whole.items key.now through (walk self.now.whole.items rows.now) }
    {
        let cut = KeyCut::of(rows, self.whole.as_slice(), key, through);
        StoreWalk {
            rows,
            marks: self.tree.down(&cut),
        }
    }

    // The slot of the first row that does not stand before a cut.
    fn first_at(&self, rows: &[Option<Row>], key: &[Value], through: bool) -> Option<u32>
        requires { IsOrder rows.now self.now }
        ensures { result ≡ slot_in
            (find (is_past self.now.whole.items key.now through)
            (walk self.now.whole.items rows.now)) }
    {
        let columns = self.whole.as_slice();
        self.first_behind(&KeyCut::of(rows, columns, key, through))
    }

    // The slot of the last row that stands before a cut.
    fn last_at(&self, rows: &[Option<Row>], key: &[Value], through: bool) -> Option<u32>
        requires { IsOrder rows.now self.now }
        ensures { result ≡ slot_in (find (is_ahead_of self.now.whole.items key.now through)
            (reverse (walk self.now.whole.items rows.now))) }
    {
        let columns = self.whole.as_slice();
        self.last_before(&KeyCut::of(rows, columns, key, through))
    }

    // Where the tree has a slot.
    fn place_of(&self, rows: &[Option<Row>], slot: u32) -> Place
        requires order { IsOrder rows.now self.now }
        requires live { IsTaken rows.now slot }
        ensures { HasAt self.now.tree result slot }
    {
        match row_in(rows, slot) {
            None => unreachable!(),
            Some(row) => {
                let columns = self.whole.as_slice();
                match self.tree.first_behind(&RowCut::of(rows, columns, row)) {
                    None => unreachable!(),
                    Some(place) => place,
                }
            }
        }
    }

    fn first_behind<C: Cut<Mark>>(&self, cut: &C) -> Option<u32>
        requires { IsParted (C.before cut.now) self.now.tree.items }
        ensures { result
            ≡ slot_marked (find (λ mark. not (C.before cut.now mark)) self.now.tree.items) }
    {
        self.slot_at(self.tree.first_behind(cut))
    }

    fn last_before<C: Cut<Mark>>(&self, cut: &C) -> Option<u32>
        requires { IsParted (C.before cut.now) self.now.tree.items }
        ensures { result ≡ slot_marked (find (C.before cut.now) (reverse self.now.tree.items)) }
    {
        self.slot_at(self.tree.last_before(cut))
    }

    fn slot_at(&self, place: Option<Place>) -> Option<u32>
        requires { IfSome place (IsInside self.now.tree) }
        ensures { (found : Option ℕ) → Finds self.now.tree found place →
            result ≡ slot_marked (option_and_then (slice_get self.now.tree.items) found) }
    {
        Some(self.tree.item_at(place?).slot)
    }
}
