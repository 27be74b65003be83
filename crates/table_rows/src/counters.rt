//! How high a counter has to be.
ghost use Rattle.std.specs.Prelude.{◌≡◌, ◌≤◌, ◌<◌, ◌^◌, length};
ghost use Rattle.row_types.specs.Counted.{counted_of};
ghost use Rattle.table_rows.specs.Counters.{above, above_row, first_counter};

use row_types::{Column, Row, Value};

/// The counter behind the greatest number of 64 bits with a sign, from which none is drawn.
pub(crate) const FULL: u64 = 1 << 63;

/// The counted column, if there is one.
pub(crate) fn counted_of(columns: &[Column]) -> Option<u32>
    requires { length columns.now < 2 ^ 32 }
    ensures { result ≡ counted_of columns.now }
{
    for (place, column) in columns.iter().enumerate() {
        if column.auto {
            return Some(place as u32);
        }
    }
    None
}

/// The counter of a table without rows.
pub(crate) fn first_counter(counted: Option<u32>) -> u64
    ensures { result ≡ first_counter counted }
{
    match counted {
        None => 0,
        Some(_) => 1,
    }
}

/// The least counter above a row's value in the counted column.
pub(crate) fn above_row(counted: Option<u32>, row: &Row) -> u64
    ensures above { result ≡ above_row counted row.now }
    ensures most { result ≤ 2 ^ 63 }
{
    match counted {
        None => 0,
        Some(column) => match row.as_slice().get(column as usize) {
            None => 0,
            Some(value) => above(value),
        },
    }
}

fn above(value: &Value) -> u64
    ensures above { result ≡ above value.now }
    ensures most { result ≤ 2 ^ 63 }
{
    match value {
        Value::Null | Value::Text(_) => 0,
        Value::Int(number) => {
            if *number < 0 {
                0
            } else {
                number.unsigned_abs() + 1
            }
        }
    }
}
