//! How far the tests of a condition serve an index.
ghost use Rattle.std.specs.Prelude.{◌≡◌, ◌+◌, ◌*◌, ◌<◌, ◌≤◌, ◌^◌, length, option_map, IfSome, IfOk};
ghost use Rattle.table_rows.specs.Indexes.{primary_of, parts_of};
ghost use Rattle.sql_plan.specs.Tests.{seen, tests_of};
ghost use Rattle.sql_plan.specs.Plans.{key_of, bound_of, further, rank_of, best_of};

use crate::column_tests::{Test, Wanted, first_test};
use row_types::{IndexDef, IndexKind, Value, copy_value};
use sql_value::Expr;
use std::alloc::{AllocError, Global};

/// How many of an index's first parts are tested by `=`, and what bounds the part behind them.
#[derive(Clone, Copy)]
pub(crate) struct Service<'a> {
    pub(crate) depth: usize,
    pub(crate) bound: Option<Test<'a>>,
}

/// How far an index with these parts is served.
pub(crate) fn served<'a>(condition: &'a Expr, parts: &[u32]) -> Service<'a>
    ensures depth { result.depth ≡ length (key_of (tests_of condition.now) parts.now) }
    ensures most { result.depth ≤ length parts.now }
    ensures bound { option_map seen result.bound ≡ bound_of (tests_of condition.now) parts.now }
{
    for (depth, part) in parts.iter().enumerate() {
        if first_test(Wanted::Equal, *part, condition).is_none() {
            return Service {
                depth,
                bound: first_test(Wanted::Bound, *part, condition),
            };
        }
    }
    Service {
        depth: parts.len(),
        bound: None,
    }
}

/// The same as a number: the further, the greater. It is 0 where the index isn't served.
pub(crate) fn rank_of(condition: &Expr, parts: &[u32]) -> usize
    ensures { result ≡ rank_of (tests_of condition.now) parts.now }
{
    let served = served(condition, parts);
    2 * served.depth + further(served.bound)
}

fn further(bound: Option<Test<'_>>) -> usize
    ensures { result ≡ further (option_map seen bound.entry) }
{
    match bound {
        None => 0,
        Some(_) => 1,
    }
}

/// The number of the index that is served furthest, if one is.
pub(crate) fn best_of(condition: &Expr, indexes: &[IndexDef]) -> Option<u32>
    requires { length indexes.now < 2 ^ 32 }
    ensures best { result ≡ best_of (tests_of condition.now) (parts_of indexes.now) }
    ensures within { IfSome result (λ index. index < length indexes.now) }
{
    let mut best = None;
    let mut most = 0;
    for (number, index) in indexes.iter().enumerate() {
        let rank = rank_of(condition, index.parts.as_slice());
        if rank > most {
            most = rank;
            best = Some(number as u32);
        }
    }
    best
}

/// The literals that the first parts of an index are tested by, with memory of their own.
pub(crate) fn key_of(
    alloc: Global,
    condition: &Expr,
    parts: &[u32],
) -> Result<Vec<Value>, AllocError>
    ensures { IfOk result (λ key. key.items ≡ key_of (tests_of condition.now) parts.now) }
{
    let mut key = Vec::new(alloc);
    for part in parts {
        match first_test(Wanted::Equal, *part, condition) {
            None => return Ok(key),
            Some(test) => key.push(copy_value(alloc, test.value)?)?,
        }
    }
    Ok(key)
}

/// The parts of the primary index.
pub fn primary_parts(indexes: &[IndexDef]) -> &[u32]
    ensures { result.now ≡ primary_of indexes.now }
{
    for index in indexes {
        if index.kind == IndexKind::Primary {
            return index.parts.as_slice();
        }
    }
    &[]
}
