//! The rows in a range of an index that meet a condition.
ghost use Rattle.std.specs.Prelude.{◌≡◌, ◌+◌, ◌<◌, ◌≤◌, length, filter, false, option_copied, option_map, IfOk};
ghost use Rattle.std.specs.List.{AllByRecursion};
ghost use Rattle.table_rows.specs.Entries.{Entry};
ghost use Rattle.table_rows.specs.StoreWalks.{is_from};
ghost use Rattle.table_rows.specs.Rows.{indexes_of, entries_of};
ghost use Rattle.table_rows.specs.Indexes.{index_columns};
ghost use Rattle.table_rows.specs.Walks.{walk_of};
ghost use Rattle.table_rows.specs.Valid.{IsValidState};
ghost use Rattle.sql_plan.specs.declared.plans.Plan.TheVariants.{Range};
ghost use Rattle.sql_plan.specs.Tests.{calculates};
ghost use Rattle.sql_plan.specs.Ranges.{is_between, IsCovered, IsLookup, overflows, met_by, count_in};
ghost use Rattle.sql_plan.specs.Looking.{one_more};
ghost use Rattle.sql_plan.specs.Sorted.{entries_in};

use crate::looker::Looker;
use crate::picking::{End, Picked, is_met, pick};
use crate::serving::primary_parts;
use crate::sorting::sort_rows;
use row_types::{IndexDef, List, RowKey};
use sql_value::Expr;
use std::alloc::{AllocError, Global};
use table_rows::{Bound, Edge, Walk};

/// The rows of the table that meet the condition, all of which lie in this range, in the order of
/// the primary key; or None where it overflows on any row of the table.
pub(crate) fn pick_range<'a>(
    alloc: Global,
    looker: &mut Looker<'a>,
    table: u32,
    index: u32,
    low: &'a Edge<RowKey>,
    high: &Edge<RowKey>,
    condition: Option<&Expr>,
) -> Result<Option<Vec<Picked<'a>>>, AllocError>
    requires table { table < length looker.old.state.tables }
    requires lookup { IsLookup (option_copied condition) (indexes_of looker.old.state table) index }
    requires covers { AllByRecursion (IsCovered (option_copied condition)
        (indexes_of looker.old.state table) (Range index low.now high.now))
        (entries_of looker.old.state table) }
    ensures picked { IfOk result (λ picked. option_map (λ rows. entries_in rows.items) picked
        ≡ met_by (option_copied condition.entry) (entries_of looker.old.state table)) }
    ensures looked { looker.new.looked ≤ looker.old.looked
        + count_in (indexes_of looker.old.state table) (Range index low.now high.now)
        (entries_of looker.old.state table) + 2 }
    ensures state { looker.new.state ≡ looker.old.state }
{
    if looker.is_empty(table) {
        return Ok(Some(Vec::new(alloc)));
    }
    if overflows(alloc, condition)? {
        return Ok(None);
    }
    match pick_between(alloc, looker, table, index, low, high, condition)? {
        None => Ok(None),
        Some(mut picked) => {
            sort_rows(&mut picked, &[], primary_parts(looker.indexes(table)))?;
            Ok(Some(picked))
        }
    }
}

// The rows between the edges that meet the condition, in the order of the index.
fn pick_between<'a>(
    alloc: Global,
    looker: &mut Looker<'a>,
    table: u32,
    index: u32,
    low: &'a Edge<RowKey>,
    high: &Edge<RowKey>,
    condition: Option<&Expr>,
) -> Result<Option<Vec<Picked<'a>>>, AllocError>
    requires table { table < length looker.old.state.tables }
    requires index { index < length (indexes_of looker.old.state table) }
    ensures picked { IfOk result (λ picked. option_map (λ rows. entries_in rows.items) picked
        ≡ met_by (option_copied condition.entry)
        (filter (is_between (index_columns (indexes_of looker.old.state table) index)
        low.now high.now) (walk_of looker.old.state table index))) }
    ensures looked { looker.new.looked ≤ looker.old.looked
        + count_in (indexes_of looker.old.state table) (Range index low.now high.now)
        (entries_of looker.old.state table) + 2 }
    ensures state { looker.new.state ≡ looker.old.state }
    ensures valid { IsValidState looker.old.state }
{
    let columns = index_columns(alloc, looker.indexes(table), index)?;
    let walk = begin(looker, table, index, low);
    let end = End {
        columns: columns.as_slice(),
        edge: high,
    };
    pick(alloc, looker, walk, &end, condition)
}

// Whether a condition that doesn't calculate with a column overflows: on each row, or on none.
fn overflows(alloc: Global, condition: Option<&Expr>) -> Result<bool, AllocError>
    requires { calculates (option_copied condition) ≡ false }
    ensures { IfOk result (λ found. (entry : Entry)
        → found ≡ overflows (option_copied condition.entry) entry) }
{
    let met = is_met(alloc, condition, &List::new(alloc))?;
    Ok(met.is_none())
}

// The columns that an index goes by: its parts, and then those of the primary key.
fn index_columns(alloc: Global, indexes: &[IndexDef], index: u32) -> Result<Vec<u32>, AllocError>
    requires { index < length indexes.now }
    ensures { IfOk result (λ columns. columns.items ≡ index_columns indexes.now index) }
{
    let mut columns = Vec::from_slice(alloc, indexes[index as usize].parts.as_slice())?;
    columns.extend_from_slice(primary_parts(indexes))?;
    Ok(columns)
}

// The rows of an index from its low edge on.
fn begin<'a>(looker: &mut Looker<'a>, table: u32, index: u32, low: &'a Edge<RowKey>) -> Walk<'a>
    requires table { table < length looker.old.state.tables }
    requires index { index < length (indexes_of looker.old.state table) }
    ensures rows { result
        ≡ filter (is_from (index_columns (indexes_of looker.old.state table) index) low.now)
        (walk_of looker.old.state table index) }
    ensures after { looker.new
        ≡ record { state = looker.old.state; looked = one_more looker.old.looked } }
{
    match low {
        Edge::Open => looker.walk(table, index, &[], Bound::From),
        Edge::With(key) => looker.walk(table, index, key.as_slice(), Bound::From),
        Edge::Without(key) => looker.walk(table, index, key.as_slice(), Bound::Behind),
    }
}
