//! The row that comes to a table, and the number that it draws.
ghost use Rattle.std.specs.Prelude.{◌≡◌, ◌<◌, length};
ghost use Rattle.table_rows.specs.Rows.{columns_of};
ghost use Rattle.row_insert.specs.Draw.{is_drawn, coming_to};

use request_types::Code;
use row_types::{List, Row, Value};
use table_rows::Tables;

/// A row, and the number in its counted column if it was drawn.
#[derive(Debug, Drop)]
pub struct Arrival {
    pub row: Row,
    pub number: Option<i64>,
}

/// The row with a number drawn for its counted column, where it has none there. Takes no memory.
pub(crate) fn coming_to(tables: &Tables, table: u32, row: Row) -> Result<Arrival, Code>
    requires table { table < length tables.now.tables }
    requires row { length row ≡ length (columns_of tables.now table) }
    ensures { result ≡ coming_to tables.now table row }
{
    let column = match tables.counted(table) {
        None => return Ok(Arrival { row, number: None }),
        Some(column) => column as usize,
    };
    if !is_drawn(&row.as_slice()[column]) {
        return Ok(Arrival { row, number: None });
    }
    match tables.next_number(table) {
        None => Err(Code::Range),
        Some(number) => {
            let mut values = row.into_vec();
            values[column] = Value::Int(number);
            Ok(Arrival {
                row: List::of_vec(values),
                number: Some(number),
            })
        }
    }
}

// Whether a number is drawn in place of a value.
fn is_drawn(value: &Value) -> bool
    ensures { result ≡ is_drawn value.now }
{
    match value {
        Value::Null => true,
        Value::Int(number) => *number == 0,
        Value::Text(_) => false,
    }
}
