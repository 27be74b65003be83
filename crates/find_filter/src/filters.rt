//! What becomes of a row that fails a condition on its columns.
ghost use Rattle.std.specs.Prelude.{◌≡◌, ◌<◌, length};
ghost use Rattle.std.specs.List.{All};
ghost use Rattle.find_filter.specs.Filter.{stands, holds, failed, step_of};

use request_types::{FilterOp, FilterSpec};
use row_types::{Row, Value, cmp_values};

/// What becomes of a row, and of the request.
#[derive(Clone, Copy, Debug, PartialEq, Eq)]
pub enum Step {
    /// The row meets every filter.
    Keep,
    /// The row is passed over.
    Skip,
    /// The request ends before the row.
    Stop,
}

/// Tests the filters in order. The first that fails decides.
pub fn passes(row: &Row, filters: &[FilterSpec]) -> Step
    requires { All (λ f. f.column < length row.now) filters.now }
    ensures { result ≡ step_of row.now filters.now }
{
    let cells = row.as_slice();
    for filter in filters {
        if !holds(cells, filter) {
            return failed(filter);
        }
    }
    Step::Keep
}

/// What becomes of a row that fails a filter.
fn failed(filter: &FilterSpec) -> Step
    ensures { result ≡ failed filter.now }
{
    if filter.stop { Step::Stop } else { Step::Skip }
}

/// Whether the row meets one filter.
fn holds(cells: &[Value], filter: &FilterSpec) -> bool
    requires { filter.now.column < length cells.now }
    ensures { result ≡ holds cells.now filter.now }
{
    stands(filter.op, &cells[filter.column as usize], &filter.value)
}

/// Whether a value stands in this relation to another.
fn stands(op: FilterOp, cell: &Value, value: &Value) -> bool
    ensures { result ≡ stands op cell.now value.now }
{
    let order = cmp_values(cell, value);
    match op {
        FilterOp::Equal => order.is_eq(),
        FilterOp::NotEqual => order.is_ne(),
        FilterOp::Greater => order.is_gt(),
        FilterOp::GreaterEqual => order.is_ge(),
        FilterOp::Less => order.is_lt(),
        FilterOp::LessEqual => order.is_le(),
    }
}
