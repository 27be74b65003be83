//! The rows of one table.
ghost use Rattle.std.specs.Prelude.{◌≡◌, ◌-◌, ◌<◌, ◌≤◌, [], ◌∷◌, ◌++◌, length, replicate, set, Option, Some, None, OnOk, OnErr, IsOk, IfSome, option_copied};

use crate::cuts::row_in;
use crate::edge::Edge;
use crate::orders::RowOrder;
use crate::room::make_room;
use crate::rounds::{enter_all, leave_all, shift_all};
use crate::store_walk::StoreWalk;
use crate::vacant::{add_slots, drop_slot};
use row_types::{Row, RowKey, Value};
use std::alloc::{AllocError, Global};
use std::marker::Model;

/// Rows under slots, and the orders of the indexes over them.
#[derive(Drop)]
pub struct RowStore {
    key: Vec<u32>,
    orders: Vec<RowOrder>,
    rows: Vec<Option<Row>>,
    vacant: Vec<u32>,
}

impl Model for RowStore {
    ghost use Rattle.table_rows.specs.Contents.{Contents};

    ghost Value = { Contents };

    ghost use Rattle.table_rows.specs.StoreInside.{contents, IsStore};

    ghost view = { contents };

    ghost invariant = { IsStore };
}

impl RowStore {
    ghost use Rattle.table_rows.specs.Contents.{order_of, walk_columns, store_walk, with_slot};
    ghost use Rattle.table_rows.specs.Entries.{kept, vacancies, row_under, IsTaken, IsFree};
    ghost use Rattle.table_rows.specs.Walked.{upward, downward};
    ghost use Rattle.table_rows.specs.StoreWalks.{first_from, last_to, first_like, behind, in_front, slot_in, IsNew, IsKeyed};

    /// No index and no slot, for rows whose primary key has these columns. Takes no memory.
    pub fn new(alloc: Global, key: Vec<u32>) -> RowStore
        ensures key { result.key ≡ key.items }
        ensures orders { result.orders ≡ [] }
        ensures slots { result.slots ≡ [] }
    {
        RowStore {
            key,
            orders: Vec::new(alloc),
            rows: Vec::new(alloc),
            vacant: Vec::new(alloc),
        }
    }

    /// Adds an index over these columns, while no row is kept.
    pub fn add_order(&mut self, alloc: Global, columns: Vec<u32>) -> Result<(), AllocError>
        requires { kept self.old.slots ≡ [] }
        ensures orders { OnOk result (self.new.orders ≡ self.old.orders ++ columns.items ∷ []) }
        ensures key { self.new.key ≡ self.old.key }
        ensures slots { self.new.slots ≡ self.old.slots }
        ensures refused { OnErr result (self.new ≡ self.old) }
    {
        let slots = self.rows.len() as u32;
        let order = RowOrder::new(alloc, columns, self.key.as_slice(), slots)?;
        self.orders.push(order)?;
        Ok(())
    }

    /// Sees to it that `n` slots are vacant.
    pub fn reserve(&mut self, n: u32) -> Result<(), AllocError>
        ensures key { self.new.key ≡ self.old.key }
        ensures orders { self.new.orders ≡ self.old.orders }
        ensures slots { OnOk result
            (self.new.slots ≡ self.old.slots ++ replicate (n - vacancies self.old.slots) None) }
        ensures room { OnOk result (n ≤ vacancies self.new.slots) }

        // Where so many are vacant no memory is asked for. It is wanting too where a slot would not
        // fit 32 bits.
        ensures at_hand { n ≤ vacancies self.old.slots → IsOk result × (self.new ≡ self.old) }
        ensures refused { OnErr result (self.new ≡ self.old) }
    {
        let vacant = self.vacant.len();
        if n as usize <= vacant {
            return Ok(());
        }
        let more = n - vacant as u32;
        if self.rows.len() + more as usize > u32::MAX as usize {
            return Err(AllocError);
        }
        make_room(&mut self.orders, &mut self.rows, &mut self.vacant, more)?;
        add_slots(&mut self.rows, &mut self.vacant, more);
        Ok(())
    }

    /// Keeps a new row under a slot that was vacant, and answers the slot. Takes no memory.
    pub fn put(&mut self, row: Row) -> u32
        requires room { 0 < vacancies self.old.slots }
        requires new { IsNew self.old.key row (kept self.old.slots) }
        ensures vacant { IsFree self.old.slots result }
        ensures row { self.new ≡ with_slot self.old result (Some row) }
    {
        match self.vacant.pop() {
            None => unreachable!(),
            Some(slot) => {
                enter_all(&mut self.orders, self.rows.as_slice(), slot, &row);
                self.rows[slot as usize] = Some(row);
                slot
            }
        }
    }

    /// Keeps a new row under this vacant slot. Takes no memory.
    pub fn put_at(&mut self, slot: u32, row: Row)
        requires vacant { IsFree self.old.slots slot }
        requires new { IsNew self.old.key row (kept self.old.slots) }
        ensures { self.new ≡ with_slot self.old slot (Some row) }
    {
        drop_slot(self.rows.as_slice(), &mut self.vacant, slot);
        enter_all(&mut self.orders, self.rows.as_slice(), slot, &row);
        self.rows[slot as usize] = Some(row);
    }

    /// Keeps another row under a slot, and hands the old one back. Takes no memory.
    pub fn replace(&mut self, slot: u32, row: Row) -> Row
        requires live { IsTaken self.old.slots slot }
        requires new { IsNew self.old.key row (kept (set self.old.slots slot None)) }
        ensures handed { row_under self.old.slots slot ≡ Some result }
        ensures row { self.new ≡ with_slot self.old slot (Some row) }
    {
        shift_all(&mut self.orders, self.rows.as_slice(), slot, &row);
        match std::mem::replace(&mut self.rows[slot as usize], Some(row)) {
            None => unreachable!(),
            Some(old) => old,
        }
    }

    /// Lets a row go from its slot, which is vacant then, and hands it back. Takes no memory.
    pub fn take(&mut self, slot: u32) -> Row
        requires { IsTaken self.old.slots slot }
        ensures handed { row_under self.old.slots slot ≡ Some result }
        ensures vacant { self.new ≡ with_slot self.old slot None }
    {
        leave_all(&mut self.orders, self.rows.as_slice(), slot);
        self.vacant.push_reserved(slot);
        match std::mem::replace(&mut self.rows[slot as usize], None) {
            None => unreachable!(),
            Some(row) => row,
        }
    }

    /// The row under a slot.
    pub fn row(&self, slot: u32) -> &Row
        requires { IsTaken self.now.slots slot }
        ensures row { row_under self.now.slots slot ≡ Some result.now }
        ensures keyed { IsKeyed self.now.key self.now.slots }
    {
        match row_in(self.rows.as_slice(), slot) {
            None => unreachable!(),
            Some(row) => row,
        }
    }

    /// The row under a slot, if there is one.
    pub fn get(&self, slot: u32) -> Option<&Row>
        ensures { option_copied result ≡ row_under self.now.slots slot }
    {
        row_in(self.rows.as_slice(), slot)
    }

    /// The first row of an index at or after the edge.
    pub fn first_from(&self, index: u32, edge: &Edge<RowKey>) -> Option<u32>
        requires { index < length self.now.orders }
        ensures first { result ≡ slot_in
            (first_from (walk_columns self.now index) edge.now (store_walk self.now index)) }
        ensures live { IfSome result (IsTaken self.now.slots) }
    {
        self.orders[index as usize].first_from(self.rows.as_slice(), edge)
    }

    /// The last row of an index at or before the edge.
    pub fn last_to(&self, index: u32, edge: &Edge<RowKey>) -> Option<u32>
        requires { index < length self.now.orders }
        ensures last { result ≡ slot_in
            (last_to (walk_columns self.now index) edge.now (store_walk self.now index)) }
        ensures live { IfSome result (IsTaken self.now.slots) }
    {
        self.orders[index as usize].last_to(self.rows.as_slice(), edge)
    }

    /// The first row of an index with the cells of this one at the index's own columns. Takes no
    /// memory.
    pub fn first_like(&self, index: u32, row: &Row) -> Option<u32>
        requires { index < length self.now.orders }
        ensures first { result ≡ slot_in
            (first_like (order_of self.now index) row.now (store_walk self.now index)) }
        ensures live { IfSome result (IsTaken self.now.slots) }
    {
        self.orders[index as usize].first_like(self.rows.as_slice(), row)
    }

    /// The row behind the one under a slot, in the order of an index.
    pub fn next(&self, index: u32, slot: u32) -> Option<u32>
        requires index { index < length self.now.orders }
        requires live { IsTaken self.now.slots slot }
        ensures behind { result ≡ slot_in (behind slot (store_walk self.now index)) }
        ensures live { IfSome result (IsTaken self.now.slots) }
    {
        self.orders[index as usize].next(self.rows.as_slice(), slot)
    }

    /// The row in front of the one under a slot, in the order of an index.
    pub fn prev(&self, index: u32, slot: u32) -> Option<u32>
        requires index { index < length self.now.orders }
        requires live { IsTaken self.now.slots slot }
        ensures in_front { result ≡ slot_in (in_front slot (store_walk self.now index)) }
        ensures live { IfSome result (IsTaken self.now.slots) }
    {
        self.orders[index as usize].prev(self.rows.as_slice(), slot)
    }

    /// The rows of an index from a key on, all that begin with it, or, `through` them, those
    /// behind. Takes no memory.
    pub fn up<'a>(&'a self, index: u32, key: &'a [Value], through: bool) -> StoreWalk<'a>
        requires { index < length self.now.orders }
        ensures { result
            ≡ upward (walk_columns self.now index) key.now through (store_walk self.now index) }
    {
        self.orders[index as usize].up(self.rows.as_slice(), key, through)
    }

    /// The rows of an index up to a key, the last one first: those before it, or, `through` them,
    /// all that begin with it too. Takes no memory.
    pub fn down<'a>(&'a self, index: u32, key: &'a [Value], through: bool) -> StoreWalk<'a>
        requires { index < length self.now.orders }
        ensures { result
            ≡ downward (walk_columns self.now index) key.now through (store_walk self.now index) }
    {
        self.orders[index as usize].down(self.rows.as_slice(), key, through)
    }

    /// How many rows are kept.
    pub fn count(&self) -> usize
        ensures count { result ≡ length (kept self.now.slots) }
        ensures keyed { IsKeyed self.now.key self.now.slots }
    {
        self.rows.len() - self.vacant.len()
    }
}
