//! The edges of a range.
ghost use Rattle.std.specs.Prelude.{◌≡◌, [], ◌∷◌, ◌++◌, option_map, IfOk};
ghost use Rattle.sql_plan.specs.Tests.{seen};
ghost use Rattle.sql_plan.specs.Plans.{edge_at, low_of, high_of};

use crate::column_tests::Test;
use request_types::FilterOp;
use row_types::{List, RowKey, Value, copy_value};
use std::alloc::{AllocError, Global};
use table_rows::Edge;

/// The low edge of the rows with this key that meet the bound, if there is one.
pub(crate) fn low_edge(
    alloc: Global,
    key: &[Value],
    bound: Option<Test<'_>>,
) -> Result<Edge<RowKey>, AllocError>
    ensures { IfOk result (λ edge. edge ≡ low_of key.now (option_map seen bound.entry)) }
{
    let Some(bound) = bound else {
        return edge_at(alloc, key);
    };
    match bound.op {
        FilterOp::Greater => Ok(Edge::Without(key_with(alloc, key, bound.value)?)),
        FilterOp::GreaterEqual => Ok(Edge::With(key_with(alloc, key, bound.value)?)),
        FilterOp::Equal | FilterOp::NotEqual | FilterOp::Less | FilterOp::LessEqual => {
            edge_at(alloc, key)
        }
    }
}

/// Their high edge.
pub(crate) fn high_edge(
    alloc: Global,
    key: &[Value],
    bound: Option<Test<'_>>,
) -> Result<Edge<RowKey>, AllocError>
    ensures { IfOk result (λ edge. edge ≡ high_of key.now (option_map seen bound.entry)) }
{
    let Some(bound) = bound else {
        return edge_at(alloc, key);
    };
    match bound.op {
        FilterOp::Less => Ok(Edge::Without(key_with(alloc, key, bound.value)?)),
        FilterOp::LessEqual => Ok(Edge::With(key_with(alloc, key, bound.value)?)),
        FilterOp::Equal | FilterOp::NotEqual | FilterOp::Greater | FilterOp::GreaterEqual => {
            edge_at(alloc, key)
        }
    }
}

// The edge at these values, with all rows that begin with them.
fn edge_at(alloc: Global, key: &[Value]) -> Result<Edge<RowKey>, AllocError>
    ensures { IfOk result (λ edge. edge ≡ edge_at key.now) }
{
    match key {
        [] => Ok(Edge::Open),
        [_, ..] => Ok(Edge::With(List::of_vec(copy_key(alloc, key)?))),
    }
}

// The key with one value more.
fn key_with(alloc: Global, key: &[Value], value: &Value) -> Result<RowKey, AllocError>
    ensures { IfOk result (λ longer. longer ≡ key.now ++ value.now ∷ []) }
{
    let mut longer = copy_key(alloc, key)?;
    longer.push(copy_value(alloc, value)?)?;
    Ok(List::of_vec(longer))
}

// The same values with memory of their own.
fn copy_key(alloc: Global, key: &[Value]) -> Result<Vec<Value>, AllocError>
    ensures { IfOk result (λ copy. copy.items ≡ key.now) }
{
    let mut copy = Vec::new(alloc);
    for value in key {
        copy.push(copy_value(alloc, value)?)?;
    }
    Ok(copy)
}
