//! One change to all orders of a store.
ghost use Rattle.std.specs.Prelude.{◌≡◌, ◌+◌, ◌<◌, ◌^◌, length, map, set, Some, None, OnOk};
ghost use Rattle.std.specs.List.{AllByRecursion};
ghost use Rattle.table_rows.specs.Entries.{IsTaken, kept};
ghost use Rattle.table_rows.specs.StoreInside.{IsOrder, IsFresh, HasRoom, columns_in};

use crate::orders::RowOrder;
use row_types::Row;
use std::alloc::AllocError;

/// Makes room in each order for so many slots more than there are.
pub(crate) fn grow_all(
    orders: &mut [RowOrder],
    rows: &[Option<Row>],
    more: u32,
) -> Result<(), AllocError>
    requires each { AllByRecursion (IsOrder rows.now) orders.old }
    requires fits { length rows.now + more < 2 ^ 32 }
    ensures each { AllByRecursion (IsOrder rows.now) orders.new }
    ensures room { OnOk result (AllByRecursion (HasRoom (length rows.now + more)) orders.new) }
    ensures columns { map columns_in orders.new ≡ map columns_in orders.old }
{
    for order in orders.iter_mut() {
        order.grow(rows, more)?;
    }
    Ok(())
}

/// Lets the row that is to stand in a slot into each order.
pub(crate) fn enter_all(orders: &mut [RowOrder], rows: &[Option<Row>], slot: u32, row: &Row)
    requires slot { slot < length rows.now }
    requires each { AllByRecursion (IsOrder (set rows.now slot None)) orders.old }
    requires new { AllByRecursion (IsFresh row.now (kept (set rows.now slot None))) orders.old }
    ensures each { AllByRecursion (IsOrder (set rows.now slot (Some row.now))) orders.new }
    ensures columns { map columns_in orders.new ≡ map columns_in orders.old }
{
    for order in orders.iter_mut() {
        order.enter(rows, slot, row);
    }
}

/// Lets the row in a slot go from each order.
pub(crate) fn leave_all(orders: &mut [RowOrder], rows: &[Option<Row>], slot: u32)
    requires live { IsTaken rows.now slot }
    requires each { AllByRecursion (IsOrder rows.now) orders.old }
    ensures each { AllByRecursion (IsOrder (set rows.now slot None)) orders.new }
    ensures columns { map columns_in orders.new ≡ map columns_in orders.old }
{
    for order in orders.iter_mut() {
        order.leave(rows, slot);
    }
}

/// Lets another row into each order in place of the one in a slot.
pub(crate) fn shift_all(orders: &mut [RowOrder], rows: &[Option<Row>], slot: u32, row: &Row)
    requires live { IsTaken rows.now slot }
    requires each { AllByRecursion (IsOrder rows.now) orders.old }
    requires new { AllByRecursion (IsFresh row.now (kept (set rows.now slot None))) orders.old }
    ensures each { AllByRecursion (IsOrder (set rows.now slot (Some row.now))) orders.new }
    ensures columns { map columns_in orders.new ≡ map columns_in orders.old }
{
    for order in orders.iter_mut() {
        order.shift(rows, slot, row);
    }
}
