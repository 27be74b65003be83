//! The rows that meet a condition.
ghost use Rattle.std.specs.Prelude.{◌≡◌, ◌+◌, ◌<◌, ◌≤◌, length, option_copied, option_map, IfOk};
ghost use Rattle.table_rows.specs.Rows.{indexes_of, entries_of};
ghost use Rattle.sql_plan.specs.Ranges.{Serves, found_of, met_by, answer_to, count_in};
ghost use Rattle.sql_plan.specs.Sorted.{entries_in};

use crate::looker::Looker;
use crate::picking::{End, Picked, pick};
use crate::plans::Plan;
use crate::ranges::pick_range;
use row_types::List;
use sql_value::Expr;
use std::alloc::{AllocError, Global};
use table_rows::{Edge, SlotRef, Tables};

/// What a scan found.
#[derive(Debug, Drop)]
pub enum Found {
    /// The rows that meet the condition, in the order of the primary key.
    Rows(List<SlotRef>),
    /// On a row of the table a number in the condition is outside 64 bits.
    Overflow,
}

/// The rows of a table that meet a condition, looked for where the plan says.
pub fn scan<'a>(
    alloc: Global,
    looker: &mut Looker<'a>,
    table: u32,
    plan: &'a Plan,
    condition: Option<&Expr>,
) -> Result<Found, AllocError>
    requires table { table < length looker.old.state.tables }
    requires serves { Serves (option_copied condition) (indexes_of looker.old.state table)
        (entries_of looker.old.state table) plan.now }
    ensures found { IfOk result (λ found. found
        ≡ found_of (option_copied condition.entry) (entries_of looker.old.state table)) }
    ensures looked { looker.new.looked ≤ looker.old.looked
        + count_in (indexes_of looker.old.state table) plan.now
        (entries_of looker.old.state table) + 2 }
    ensures state { looker.new.state ≡ looker.old.state }
{
    let picked = pick_in(alloc, looker, table, plan, condition)?;
    answer_to(alloc, picked)
}

/// The same with the rows beside their slots, or None where the condition overflows on any row of
/// the table.
pub fn look_up<'a>(
    alloc: Global,
    tables: &'a Tables,
    table: u32,
    plan: &'a Plan,
    condition: Option<&Expr>,
) -> Result<Option<Vec<Picked<'a>>>, AllocError>
    requires table { table < length tables.now.tables }
    requires serves { Serves (option_copied condition) (indexes_of tables.now table)
        (entries_of tables.now table) plan.now }
    ensures { IfOk result (λ picked. option_map (λ rows. entries_in rows.items) picked
        ≡ met_by (option_copied condition.entry) (entries_of tables.now table)) }
{
    let mut looker = Looker::of(tables);
    pick_in(alloc, &mut looker, table, plan, condition)
}

// The rows of a table that meet a condition, looked for where the plan says, or None where it
// overflows on any row of the table.
fn pick_in<'a>(
    alloc: Global,
    looker: &mut Looker<'a>,
    table: u32,
    plan: &'a Plan,
    condition: Option<&Expr>,
) -> Result<Option<Vec<Picked<'a>>>, AllocError>
    requires table { table < length looker.old.state.tables }
    requires serves { Serves (option_copied condition) (indexes_of looker.old.state table)
        (entries_of looker.old.state table) plan.now }
    ensures picked { IfOk result (λ picked. option_map (λ rows. entries_in rows.items) picked
        ≡ met_by (option_copied condition.entry) (entries_of looker.old.state table)) }
    ensures looked { looker.new.looked ≤ looker.old.looked
        + count_in (indexes_of looker.old.state table) plan.now
        (entries_of looker.old.state table) + 2 }
    ensures state { looker.new.state ≡ looker.old.state }
{
    match plan {
        Plan::Whole => pick_all(alloc, looker, table, condition),
        Plan::Range { index, low, high } => {
            pick_range(alloc, looker, table, *index, low, high, condition)
        }
    }
}

// Of all rows of a table those that meet the condition.
fn pick_all<'a>(
    alloc: Global,
    looker: &mut Looker<'a>,
    table: u32,
    condition: Option<&Expr>,
) -> Result<Option<Vec<Picked<'a>>>, AllocError>
    requires { table < length looker.old.state.tables }
    ensures picked { IfOk result (λ picked. option_map (λ rows. entries_in rows.items) picked
        ≡ met_by (option_copied condition.entry) (entries_of looker.old.state table)) }
    ensures looked { looker.new.looked
        ≤ looker.old.looked + length (entries_of looker.old.state table) + 2 }
    ensures state { looker.new.state ≡ looker.old.state }
{
    let walk = looker.rows(table);
    let open = Edge::Open;
    let end = End {
        columns: &[],
        edge: &open,
    };
    pick(alloc, looker, walk, &end, condition)
}

// The slots of the rows that were picked.
fn answer_to(alloc: Global, picked: Option<Vec<Picked<'_>>>) -> Result<Found, AllocError>
    ensures { IfOk result (λ found. found
        ≡ answer_to (option_map (λ rows. entries_in rows.items) picked.entry)) }
{
    let Some(picked) = picked else {
        return Ok(Found::Overflow);
    };
    let mut slots = Vec::with_capacity(alloc, picked.len())?;
    for row in &picked {
        slots.push(row.slot)?;
    }
    Ok(Found::Rows(List::of_vec(slots)))
}
