//! The rows of all tables.
ghost use Rattle.std.specs.Prelude.{◌≡◌, ◌+◌, ◌<◌, ◌≤◌, length, OnOk, OnErr, IfOk};
ghost use Rattle.row_types.specs.Valid.{IsValid, IsTable};
ghost use Rattle.table_rows.specs.Counters.{counter_if, next_if};
ghost use Rattle.table_rows.specs.Rows.{State, def_of, entries_of, rows_of, room_of, counted_at, counter_of};
ghost use Rattle.table_rows.specs.Sizes.{total, most_bytes};
ghost use Rattle.table_rows.specs.Valid.{AreValidRows, IsValidState};
ghost use Rattle.table_rows.specs.Widths.{with_slots, empty_state};

mod changes;
mod checking;
mod inner;
mod walks;

use crate::counters::FULL;
use crate::one_table::{OneTable, empty_tables};
use crate::undo_list::UndoList;
use row_types::{Schema, TableDef};
use std::alloc::{AllocError, Global};
use std::marker::Model;

/// The rows of each table of a schema, by primary key and by every other index.
#[derive(Drop)]
pub struct Tables {
    schema: Schema,
    bytes_max: u64,
    total: u64,
    stores: Vec<OneTable>,
}

impl Model for Tables {
    ghost use Rattle.table_rows.specs.Rows.{State};

    ghost Value = { State };

    ghost use Rattle.table_rows.specs.Inside.{seen, IsInside};

    ghost view = { seen };

    ghost invariant = { IsInside };
}

impl Tables {
    ghost use Rattle.table_rows.specs.Table.{kept_of};

    /// No row in any table of the schema.
    pub fn new(alloc: Global, schema: &Schema, bytes_max: u64) -> Result<Tables, AllocError>
        requires schema { IsValid schema.now }
        requires bytes { bytes_max ≤ most_bytes }
        ensures { IfOk result (λ tables. tables ≡ empty_state schema.now bytes_max) }
    {
        let stores = empty_tables(alloc, schema.tables.as_slice())?;
        let copy = schema.copy(alloc)?;
        Ok(Tables {
            schema: copy,
            bytes_max,
            total: 0,
            stores,
        })
    }

    /// Sees to it that `rows` more rows find a slot in this table, and their changes a place in the
    /// list.
    pub fn reserve(&mut self, table: u32, rows: u32, undo: &mut UndoList) -> Result<(), AllocError>
        requires { table < length self.old.tables }
        ensures ok { OnOk result (self.new ≡ with_slots self.old table rows) }
        ensures room { OnOk result
            (length (entries_of self.new table) + rows ≤ room_of self.new table) }
        ensures err { OnErr result (self.new ≡ self.old) }
        ensures entries { undo.new.entries ≡ undo.old.entries }
        ensures spare { OnOk result (rows ≤ undo.new.spare) }
        ensures keeps_spare { undo.old.spare ≤ undo.new.spare }
    {
        undo.reserve(rows)?;
        self.widen(table, rows)
    }

    /// The shape of the tables.
    pub fn schema(&self) -> &Schema
        ensures schema { result.now ≡ self.now.schema }
        ensures valid { IsValidState self.now }
    {
        &self.schema
    }

    /// How many rows a table has.
    pub fn count(&self, table: u32) -> u64
        requires { table < length self.now.tables }
        ensures { result ≡ length (entries_of self.now table) }
    {
        self.store(table).count() as u64
    }

    /// The counted column of a table, if it has one.
    pub fn counted(&self, table: u32) -> Option<u32>
        requires { table < length self.now.tables }
        ensures { result ≡ counted_at self.now table }
    {
        self.store(table).counted()
    }

    /// The counter of a table, or None where it has no counted column.
    pub fn counter(&self, table: u32) -> Option<u64>
        requires { table < length self.now.tables }
        ensures { result ≡ counter_if (counted_at self.now table) (counter_of self.now table) }
    {
        match self.store(table).counted() {
            None => None,
            Some(_) => Some(self.store(table).counter()),
        }
    }

    /// The number that is drawn next, or None where the table has no counted column or its counter
    /// is 2^63.
    pub fn next_number(&self, table: u32) -> Option<i64>
        requires { table < length self.now.tables }
        ensures { result ≡ next_if (counted_at self.now table) (counter_of self.now table) }
    {
        let counter = self.counter(table)?;
        if counter < FULL {
            Some(counter as i64)
        } else {
            None
        }
    }

    /// The bytes that all rows count.
    pub fn bytes_total(&self) -> u64
        ensures { result ≡ total self.now }
    {
        self.total
    }

    /// The bytes that rows may count.
    pub fn bytes_max(&self) -> u64
        ensures { result ≡ self.now.bytes_max }
    {
        self.bytes_max
    }

    /// The shape of a table, which is a valid one, as are its rows.
    pub fn def(&self, table: u32) -> &TableDef
        requires { table < length self.now.tables }
        ensures def { result.now ≡ def_of self.now table }
        ensures valid { IsTable (def_of self.now table) }
        ensures rows { AreValidRows (def_of self.now table) (rows_of self.now table) }
    {
        let _ = &self.stores;
        &self.schema.tables.as_slice()[table as usize]
    }

    // The table with this number, as it is kept.
    fn store(&self, table: u32) -> &OneTable
        requires { table < length self.now.tables }
        ensures { result.now ≡ kept_of self.now table }
    {
        &self.stores[table as usize]
    }
}
