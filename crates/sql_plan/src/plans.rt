//! Where the rows of a condition are looked for.
ghost use Rattle.std.specs.Prelude.{◌≡◌, ◌<◌, ◌^◌, List, length, option_copied, IfOk};
ghost use Rattle.table_rows.specs.Entries.{Entry};
ghost use Rattle.sql_plan.specs.Tests.{tests_of};
ghost use Rattle.sql_plan.specs.Plans.{range_in, plan_of};
ghost use Rattle.sql_plan.specs.Ranges.{MayServe, Serves};

use crate::contents::calculates;
use crate::edges::{high_edge, low_edge};
use crate::serving::{best_of, key_of, served};
use row_types::{IndexDef, RowKey, TableDef};
use sql_value::Expr;
use std::alloc::{AllocError, Global};
use table_rows::Edge;

/// Where the rows of a condition are looked for: in all rows of its table, or in those between two
/// edges of an index.
#[derive(Debug, Drop)]
pub enum Plan {
    Whole,
    Range {
        index: u32,
        low: Edge<RowKey>,
        high: Edge<RowKey>,
    },
}

/// Where the rows of a condition are looked for. All of them lie there, whatever the table has.
pub fn range_of(
    alloc: Global,
    condition: Option<&Expr>,
    table: &TableDef,
) -> Result<Plan, AllocError>
    requires { length table.now.indexes < 2 ^ 32 }
    ensures plan { IfOk result (λ plan. plan
        ≡ plan_of (option_copied condition.entry) table.now.indexes) }
    ensures serves { IfOk result (λ plan. (entries : List Entry)
        → Serves (option_copied condition.entry) table.now.indexes entries plan) }
{
    plan_for(alloc, condition, table.indexes.as_slice())
}

// The range of the index that is served furthest, if there is one.
fn plan_for(
    alloc: Global,
    condition: Option<&Expr>,
    indexes: &[IndexDef],
) -> Result<Plan, AllocError>
    requires { length indexes.now < 2 ^ 32 }
    ensures plan { IfOk result (λ plan. plan ≡ plan_of (option_copied condition.entry) indexes.now) }
    ensures lookup { IfOk result (λ plan.
        MayServe (option_copied condition.entry) indexes.now plan) }
{
    let Some(expr) = condition else {
        return Ok(Plan::Whole);
    };
    if calculates(condition) {
        return Ok(Plan::Whole);
    }
    match best_of(expr, indexes) {
        None => Ok(Plan::Whole),
        Some(index) => range_in(alloc, expr, index, indexes[index as usize].parts.as_slice()),
    }
}

// The range of the index with this number, whose parts these are.
fn range_in(alloc: Global, condition: &Expr, index: u32, parts: &[u32]) -> Result<Plan, AllocError>
    ensures { IfOk result (λ plan. plan ≡ range_in (tests_of condition.now) index parts.now) }
{
    let bound = served(condition, parts).bound;
    let key = key_of(alloc, condition, parts)?;
    let low = low_edge(alloc, key.as_slice(), bound)?;
    let high = high_edge(alloc, key.as_slice(), bound)?;
    Ok(Plan::Range { index, low, high })
}
