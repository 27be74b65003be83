//! The rows of a walk that meet a condition.
ghost use Rattle.std.specs.Prelude.{◌≡◌, ℕ, ◌+◌, ◌≤◌, length, option_copied, option_map, IfOk};
ghost use Rattle.std.specs.List.{take_while};
ghost use Rattle.table_rows.specs.StoreWalks.{is_to};
ghost use Rattle.sql_plan.specs.Ranges.{worth_on, met_at, met_by};
ghost use Rattle.sql_plan.specs.Sorted.{entries_in};

use crate::comparing::cmp_with_key;
use crate::looker::Looker;
use row_types::{Row, RowKey, Value};
use sql_value::{Evaluated, Expr, Truth, eval};
use std::alloc::{AllocError, Global};
use table_rows::{Edge, SlotRef, Walk};

/// A row that was picked, and its slot.
#[derive(Clone, Copy)]
pub struct Picked<'a> {
    pub slot: SlotRef,
    pub row: &'a Row,
}

/// The end of a range: the columns of its index, and the edge.
#[derive(Clone, Copy)]
pub(crate) struct End<'a> {
    pub(crate) columns: &'a [u32],
    pub(crate) edge: &'a Edge<RowKey>,
}

/// The rows up to the end of the range that meet a condition, or None where it overflows on any of
/// them.
pub(crate) fn pick<'a>(
    alloc: Global,
    looker: &mut Looker<'_>,
    walk: Walk<'a>,
    end: &End<'_>,
    condition: Option<&Expr>,
) -> Result<Option<Vec<Picked<'a>>>, AllocError>
    ensures picked { IfOk result (λ picked. option_map (λ rows. entries_in rows.items) picked
        ≡ met_by (option_copied condition.entry)
        (take_while (is_to end.now.columns.now end.now.edge.now) walk.entry)) }
    ensures looked { looker.new.looked ≤ looker.old.looked
        + length (take_while (is_to end.now.columns.now end.now.edge.now) walk.entry) + 1 }
    ensures state { looker.new.state ≡ looker.old.state }
{
    let mut walk = walk;
    let mut picked = Vec::new(alloc);
    while let Some((slot, row)) = looker.next(&mut walk) {
        if !is_to(end, row.as_slice()) {
            break;
        }
        let Some(is_met) = is_met(alloc, condition, row)? else {
            return Ok(None);
        };
        if is_met {
            picked.push(Picked { slot, row })?;
        }
    }
    Ok(Some(picked))
}

// Whether a row stands at or before the end of a range.
fn is_to(end: &End<'_>, row: &[Value]) -> bool
    ensures { (slot : ℕ) → result ≡ is_to end.now.columns.now end.now.edge.now (row.now, slot) }
{
    match end.edge {
        Edge::Open => true,
        Edge::With(key) => !cmp_with_key(row, end.columns, key.as_slice()).is_gt(),
        Edge::Without(key) => cmp_with_key(row, end.columns, key.as_slice()).is_lt(),
    }
}

/// Whether a row meets a condition, or None where it overflows there. Without one every row counts.
pub(crate) fn is_met(
    alloc: Global,
    condition: Option<&Expr>,
    row: &Row,
) -> Result<Option<bool>, AllocError>
    ensures { IfOk result (λ found. (slot : ℕ)
        → found ≡ met_at (worth_on (option_copied condition.entry) (row.now, slot))) }
{
    let Some(expr) = condition else {
        return Ok(Some(true));
    };
    match eval(alloc, expr, row)? {
        Evaluated::Overflow => Ok(None),
        Evaluated::Truth(Truth::Yes) => Ok(Some(true)),
        Evaluated::Truth(Truth::No | Truth::Unknown) | Evaluated::Value(_) => Ok(Some(false)),
    }
}
