//! The cells of a row, in a reply.
ghost use Rattle.std.specs.Prelude.{◌≡◌, ◌∷◌, ◌++◌, map, OnOk, OnErr};
ghost use Rattle.hs_token.specs.Spelling.{token_spelled, behind_tabs};
ghost use Rattle.hs_token.specs.Steps.{Extends};
ghost use Rattle.table_rows.specs.Entries.{cell_at};
ghost use Rattle.find_scan.specs.Show.{cell_token, row_tokens};

use hs_token::{TAB, push_integer, push_text};
use row_types::{Row, Value};
use std::alloc::AllocError;

/// Appends the cells of a row at some columns, each behind an HT, or a part of them where memory
/// runs out.
pub(crate) fn push_row(out: &mut Vec<u8>, row: &Row, columns: &[u32]) -> Result<(), AllocError>
    ensures ok { OnOk result
        (out.new.items ≡ out.old.items ++ behind_tabs (row_tokens columns.now row.now)) }
    ensures err { OnErr result (Extends out.old.items out.new.items) }
{
    let values = row.as_slice();
    for column in columns {
        push_cell_at(out, values, *column)?;
    }
    Ok(())
}

/// Appends an HT and the cell at a column.
fn push_cell_at(out: &mut Vec<u8>, values: &[Value], column: u32) -> Result<(), AllocError>
    ensures ok { OnOk result (out.new.items
        ≡ out.old.items ++ 9 ∷ token_spelled (cell_token (cell_at values.now column))) }
    ensures err { OnErr result (Extends out.old.items out.new.items) }
{
    match values.get(column as usize) {
        None => push_cell(out, &Value::Null),
        Some(value) => push_cell(out, value),
    }
}

/// Appends an HT and a cell's token, or a part of them where memory runs out.
pub fn push_cell(out: &mut Vec<u8>, cell: &Value) -> Result<(), AllocError>
    ensures ok { OnOk result
        (out.new.items ≡ out.old.items ++ 9 ∷ token_spelled (cell_token cell.now)) }
    ensures err { OnErr result (Extends out.old.items out.new.items) }
{
    out.push(TAB)?;
    match cell {
        Value::Null => Ok(out.push(0)?),
        Value::Int(number) => push_integer(out, *number),
        Value::Text(text) => push_text(out, text.as_slice()),
    }
}

/// Appends cells, each behind an HT, or a part of them where memory runs out.
pub fn push_cells(out: &mut Vec<u8>, cells: &[Value]) -> Result<(), AllocError>
    ensures ok { OnOk result
        (out.new.items ≡ out.old.items ++ behind_tabs (map cell_token cells.now)) }
    ensures err { OnErr result (Extends out.old.items out.new.items) }
{
    for cell in cells {
        push_cell(out, cell)?;
    }
    Ok(())
}
