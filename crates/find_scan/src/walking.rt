//! One walk of a find: the rows that stand to one key as it asks.
ghost use Rattle.std.specs.Prelude.{◌≡◌, ◌≤◌, List, ◌++◌, length, OnOk};
ghost use Rattle.table_rows.specs.Entries.{Entry};
ghost use Rattle.request_types.specs.Fits.{FindFits};
ghost use Rattle.table_rows.specs.Rows.{indexes_of};
ghost use Rattle.table_rows.specs.Indexes.{parts_at};
ghost use Rattle.table_rows.specs.Valid.{IsValidState};
ghost use Rattle.find_scan.specs.Select.{matching};
ghost use Rattle.find_scan.specs.Gathering.{AreWideFor, gives, front_of, is_equal, bound_of};

use crate::selection::Selection;
use request_types::{FilterSpec, FindOp, FindSpec};
use row_types::Value;
use std::alloc::AllocError;
use table_rows::{Bound, Tables, Walk, has_key};

/// Offers the rows that stand to a key as the find asks, until nothing more is selected.
pub(crate) fn scan(
    tables: &Tables,
    spec: &FindSpec,
    key: &[Value],
    selection: &mut Selection,
) -> Result<(), AllocError>
    requires fits { FindFits tables.now.schema spec.now }
    requires key { length key.now ≡ length spec.now.key }
    ensures { OnOk result ((later : List Entry)
        → gives spec.now.filters selection.new later
        ≡ gives spec.now.filters selection.old (matching tables.now spec.now key.now ++ later)) }
{
    let front = Front {
        is_asked: is_equal(spec.op),
        parts: parts(tables, spec),
        key,
    };
    let walk = tables.walk(spec.table, spec.index, key, bound_of(spec.op));
    gather(walk, &front, spec.filters.as_slice(), selection)
}

/// The columns of the find's index.
fn parts<'a>(tables: &'a Tables, spec: &FindSpec) -> &'a [u32]
    requires { FindFits tables.now.schema spec.now }
    ensures parts { result.now ≡ parts_at (indexes_of tables.now spec.now.table) spec.now.index }
    ensures valid { IsValidState tables.now }
{
    let table = &tables.schema().tables.as_slice()[spec.table as usize];
    let index = &table.indexes.as_slice()[spec.index as usize];
    index.parts.as_slice()
}

/// Whether only rows with the key are asked for.
fn is_equal(op: FindOp) -> bool
    ensures { result ≡ is_equal op }
{
    matches!(op, FindOp::Equal)
}

/// Where the walk of a find begins.
fn bound_of(op: FindOp) -> Bound
    ensures { result ≡ bound_of op }
{
    match op {
        FindOp::Equal | FindOp::GreaterEqual => Bound::From,
        FindOp::Greater => Bound::Behind,
        FindOp::Less => Bound::Before,
        FindOp::LessEqual => Bound::To,
    }
}

/// The key that the rows at the front have, where only such rows are asked for.
#[derive(Clone, Copy, Drop)]
struct Front<'a> {
    is_asked: bool,
    parts: &'a [u32],
    key: &'a [Value],
}

/// Offers the rows of a walk, or those at its front that have the key, until nothing more is
/// selected.
fn gather(
    walk: Walk<'_>,
    front: &Front<'_>,
    filters: &[FilterSpec],
    selection: &mut Selection,
) -> Result<(), AllocError>
    requires { AreWideFor filters.now walk }
    ensures { OnOk result ((later : List Entry)
        → gives filters.now selection.new later
        ≡ gives filters.now selection.old
        (front_of front.now.is_asked front.now.parts.now front.now.key.now walk.entry
        ++ later)) }
{
    let mut walk = walk;
    while !selection.is_full() {
        let Some((slot, row)) = walk.next() else {
            break;
        };
        if front.is_asked && !has_key(front.parts, front.key, row.as_slice()) {
            break;
        }
        selection.offer(slot, row, filters)?;
    }
    Ok(())
}
