//! The rows of one table, by their entries.
ghost use Rattle.std.specs.Prelude.{◌≡◌, ◌+◌, ◌<◌, ◌≤◌, ◌^◌, [], length, true, false, Option, Some, None, OnOk, OnErr, IfOk, IfSome, map, option_copied};
ghost use Rattle.row_types.specs.declared.tables.TableDef.{TableDef};
ghost use Rattle.table_rows.specs.StoreWalks.{first_like, slot_in, IsNew};
ghost use Rattle.table_rows.specs.Rows.{Rows};
ghost use Rattle.std.specs.List.{All, list_any};
ghost use Rattle.table_rows.specs.Counters.{raised};
ghost use Rattle.row_types.specs.Valid.{is_primary};
ghost use Rattle.row_types.specs.declared.indexes.IndexDef.{IndexDef};
ghost use Rattle.table_rows.specs.Indexes.{primary_of, parts_of, parts_at};
ghost use Rattle.table_rows.specs.Slots.{IsVacant, is_live, row_of, row_if, without};
ghost use Rattle.table_rows.specs.Table.{Table, empty_table, with_room, with_count, with_row_in, without_in, parts_by, columns_by, walk_by};
ghost use Rattle.table_rows.specs.Walks.{begun, gone_on, walked};
ghost use Rattle.table_rows.specs.Widths.{room_for};

use crate::bound::Bound;
use crate::counters::{above_row, counted_of, first_counter};
use crate::edge::Edge;
use crate::store::RowStore;
use crate::walk::Walk;
use row_types::{IndexDef, IndexKind, Row, RowKey, TableDef, Value};
use std::alloc::{AllocError, Global};
use std::marker::Model;

/// A table's rows, in the order of its primary key and of each index, and its counter.
#[derive(Drop)]
pub(crate) struct OneTable {
    store: RowStore,
    counted: Option<u32>,
    counter: u64,
}

impl Model for OneTable {
    ghost use Rattle.table_rows.specs.Table.{Table, table_in};

    ghost Value = { Table };

    ghost view = { λ table. table_in table.store table.counted table.counter };
}

impl OneTable {
    /// A table of this shape, and no row.
    pub(crate) fn new(alloc: Global, def: &TableDef) -> Result<OneTable, AllocError>
        requires { length def.now.columns < 2 ^ 32 }
        ensures { IfOk result (λ table. table ≡ empty_table def.now) }
    {
        let indexes = def.indexes.as_slice();
        let key = Vec::from_slice(alloc, primary_of(indexes))?;
        let mut store = RowStore::new(alloc, key);
        for index in indexes {
            store.add_order(alloc, Vec::from_slice(alloc, index.parts.as_slice())?)?;
        }
        let counted = counted_of(def.columns.as_slice());
        Ok(OneTable {
            store,
            counted,
            counter: first_counter(counted),
        })
    }

    /// Sees to it that `n` more rows find a slot.
    pub(crate) fn reserve(&mut self, n: u32) -> Result<(), AllocError>
        ensures ok { OnOk result (self.new ≡ with_room self.old (room_for n self.old.rows)) }
        ensures err { OnErr result (self.new ≡ self.old) }
    {
        self.store.reserve(n)
    }

    /// Puts a row into a slot that had none, and answers the slot. Takes no memory.
    pub(crate) fn put(&mut self, row: Row) -> u32
        requires room { length self.old.rows.entries < self.old.rows.room }
        requires new { IsNew self.old.key row self.old.rows.entries }
        ensures vacant { IsVacant result self.old.rows }
        ensures row { self.new ≡ with_row_in self.old result row }
    {
        // A proof knows that the rows differ in their keys where it has counted them; so below.
        let _ = self.store.count();
        self.store.put(row)
    }

    /// Puts a row into this slot, which has none. Takes no memory.
    pub(crate) fn put_at(&mut self, slot: u32, row: Row)
        requires vacant { IsVacant slot self.old.rows }
        requires new { IsNew self.old.key row self.old.rows.entries }
        ensures { self.new ≡ with_row_in self.old slot row }
    {
        let _ = self.store.count();
        self.store.put_at(slot, row);
    }

    /// Puts another row into a slot, and hands the old one back. Takes no memory.
    pub(crate) fn replace(&mut self, slot: u32, row: Row) -> Row
        requires live { is_live slot self.old.rows.entries ≡ true }
        requires new { IsNew self.old.key row (without slot self.old.rows.entries) }
        ensures handed { result ≡ row_of slot self.old.rows.entries }
        ensures row { self.new ≡ with_row_in self.old slot row }
    {
        let _ = self.store.count();
        self.store.replace(slot, row)
    }

    /// Sets the counter.
    pub(crate) fn set_counter(&mut self, counter: u64)
        ensures { self.new ≡ with_count self.old counter }
    {
        let _ = self.store.count();
        self.counter = counter;
    }

    /// The counted column, if there is one.
    pub(crate) fn counted(&self) -> Option<u32>
        ensures { result ≡ self.now.counted }
    {
        self.counted
    }

    /// The counter.
    pub(crate) fn counter(&self) -> u64
        ensures { result ≡ self.now.rows.counter }
    {
        self.counter
    }

    /// The counter once this row stands in the table.
    pub(crate) fn raised(&self, row: &Row) -> u64
        ensures raised { result ≡ raised self.now.counted row.now self.now.rows.counter }
        ensures most { self.now.rows.counter ≤ 2 ^ 63 → result ≤ 2 ^ 63 }
    {
        self.counter.max(above_row(self.counted, row))
    }

    /// Takes a row out of its slot, and hands it back. Takes no memory.
    pub(crate) fn take(&mut self, slot: u32) -> Row
        requires { is_live slot self.old.rows.entries ≡ true }
        ensures handed { result ≡ row_of slot self.old.rows.entries }
        ensures gone { self.new ≡ without_in self.old slot }
    {
        let _ = self.store.count();
        self.store.take(slot)
    }

    /// The row in a slot.
    pub(crate) fn row(&self, slot: u32) -> &Row
        requires { is_live slot self.now.rows.entries ≡ true }
        ensures { result.now ≡ row_of slot self.now.rows.entries }
    {
        self.store.row(slot)
    }

    /// The row in a slot, if it has one.
    pub(crate) fn get(&self, slot: u32) -> Option<&Row>
        ensures { option_copied result ≡ row_if slot self.now.rows.entries }
    {
        let _ = self.store.count();
        self.store.get(slot)
    }

    /// Where the walk of an index begins.
    pub(crate) fn begin(&self, index: u32, edge: &Edge<RowKey>, down: bool) -> Option<u32>
        requires { index < length self.now.orders }
        ensures begun { result
            ≡ slot_in (begun down (columns_by self.now index) edge.now (walk_by self.now index)) }
        ensures live { IfSome result (λ slot. is_live slot self.now.rows.entries ≡ true) }
    {
        let _ = self.store.count();
        if down {
            self.store.last_to(index, edge)
        } else {
            self.store.first_from(index, edge)
        }
    }

    /// How the walk of an index goes on from a slot.
    pub(crate) fn go_on(&self, index: u32, slot: u32, down: bool) -> Option<u32>
        requires index { index < length self.now.orders }
        requires live { is_live slot self.now.rows.entries ≡ true }
        ensures gone_on { result ≡ slot_in (gone_on down slot (walk_by self.now index)) }
        ensures live { IfSome result (λ slot. is_live slot self.now.rows.entries ≡ true) }
    {
        let _ = self.store.count();
        if down {
            self.store.prev(index, slot)
        } else {
            self.store.next(index, slot)
        }
    }

    /// The rows of an index from a bound on.
    pub(crate) fn walk<'a>(&'a self, index: u32, key: &'a [Value], bound: Bound) -> Walk<'a>
        requires { index < length self.now.orders }
        ensures { result
            ≡ walked bound (columns_by self.now index) key.now (walk_by self.now index) }
    {
        let _ = self.store.count();
        match bound {
            Bound::From => Walk::of(self.store.up(index, key, false)),
            Bound::Behind => Walk::of(self.store.up(index, key, true)),
            Bound::To => Walk::of(self.store.down(index, key, true)),
            Bound::Before => Walk::of(self.store.down(index, key, false)),
        }
    }

    /// The first row, in the order of an index, with the same cells in it.
    pub(crate) fn first_like(&self, index: u32, row: &Row) -> Option<u32>
        requires { index < length self.now.orders }
        ensures { result
            ≡ slot_in (first_like (parts_by self.now index) row.now (walk_by self.now index)) }
    {
        let _ = self.store.count();
        self.store.first_like(index, row)
    }

    /// How many rows there are.
    pub(crate) fn count(&self) -> usize
        ensures { result ≡ length self.now.rows.entries }
    {
        self.store.count()
    }
}

/// A table for each of these, without a row.
pub(crate) fn empty_tables(alloc: Global, defs: &[TableDef]) -> Result<Vec<OneTable>, AllocError>
    requires { All (λ (d : TableDef). length d.columns < 2 ^ 32) defs.now }
    ensures { IfOk result (λ tables. tables.items ≡ map empty_table defs.now) }
{
    let mut tables = Vec::new(alloc);
    for def in defs {
        tables.push(OneTable::new(alloc, def)?)?;
    }
    Ok(tables)
}

/// The parts of the primary index, which is the first of its kind.
pub(crate) fn primary_of<'a>(indexes: &'a [IndexDef]) -> &'a [u32]
    ensures { result.now ≡ primary_of indexes.now }
{
    for index in indexes {
        if index.kind == IndexKind::Primary {
            return index.parts.as_slice();
        }
    }
    &[]
}

/// The number of that index.
pub(crate) fn primary_index(indexes: &[IndexDef]) -> u32
    requires few { length indexes.now ≤ 16 }
    requires some { list_any (λ (i : IndexDef). is_primary i.kind) indexes.now ≡ true }
    ensures within { result < length indexes.now }
    ensures parts { parts_at indexes.now result ≡ primary_of indexes.now }
{
    for (number, index) in indexes.iter().enumerate() {
        if index.kind == IndexKind::Primary {
            return number as u32;
        }
    }
    unreachable!()
}
