//! Room for more slots.
ghost use Rattle.std.specs.Prelude.{◌≡◌, ◌+◌, ◌<◌, ◌≤◌, ◌^◌, length, map, OnOk, vec_len, vec_capacity};
ghost use Rattle.std.specs.List.{AllByRecursion};
ghost use Rattle.table_rows.specs.StoreInside.{IsOrder, HasRoom, columns_in};

use crate::orders::RowOrder;
use crate::rounds::grow_all;
use row_types::Row;
use std::alloc::AllocError;

/// Takes the memory for so many slots more, and changes nothing else.
pub(crate) fn make_room(
    orders: &mut [RowOrder],
    rows: &mut Vec<Option<Row>>,
    vacant: &mut Vec<u32>,
    more: u32,
) -> Result<(), AllocError>
    requires each { AllByRecursion (IsOrder rows.old.items) orders.old }
    requires fits { length rows.old.items + more < 2 ^ 32 }
    requires vacant { length vacant.old.items ≤ length rows.old.items }
    ensures each { AllByRecursion (IsOrder rows.new.items) orders.new }
    ensures columns { map columns_in orders.new ≡ map columns_in orders.old }
    ensures rows { rows.new.items ≡ rows.old.items }
    ensures vacant { vacant.new.items ≡ vacant.old.items }
    ensures keeps_room { vec_capacity vacant.old ≤ vec_capacity vacant.new }

    // What there is room for then.
    ensures room { OnOk result
        (AllByRecursion (HasRoom (length rows.old.items + more)) orders.new) }
    ensures rows_room { OnOk result (vec_len rows.new + more ≤ vec_capacity rows.new) }
    ensures vacant_room { OnOk result (length rows.old.items + more ≤ vec_capacity vacant.new) }
{
    grow_all(orders, rows.as_slice(), more)?;
    vacant.reserve(rows.len() + more as usize - vacant.len())?;
    rows.reserve(more as usize)
}
