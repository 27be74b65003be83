//! Sorting rows.
ghost use Rattle.std.specs.Prelude.{◌≡◌, OnOk, OnErr, IsPermutation};
ghost use Rattle.index_tree.specs.Ordered.{AreApart};
ghost use Rattle.table_rows.specs.Entries.{entry_cmp};
ghost use Rattle.sql_plan.specs.Sorted.{sorted, entries_in};

use crate::comparing::cmp_rows;
use crate::picking::Picked;
use sql_value::OrderKey;
use std::alloc::AllocError;

/// Puts rows in the order of some columns, and where they are the same there of the primary key,
/// in which no two of them are the same.
pub fn sort_rows(
    picked: &mut Vec<Picked<'_>>,
    order: &[OrderKey],
    primary: &[u32],
) -> Result<(), AllocError>
    requires { AreApart (entry_cmp primary.now) (entries_in picked.old.items) }
    ensures ok { OnOk result (entries_in picked.new.items
        ≡ sorted order.now primary.now (entries_in picked.old.items)) }
    ensures err { OnErr result (picked.new.items ≡ picked.old.items) }
{
    picked.sort_by(|a, b| cmp_rows(order, primary, a.row.as_slice(), b.row.as_slice()))
}
