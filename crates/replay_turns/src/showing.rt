//! The rows of a table, a line each.
ghost use Rattle.std.specs.Prelude.{◌≡◌, ◌<◌, ◌++◌, length, map, Some, OnOk};
ghost use Rattle.table_rows.specs.Entries.{Entry};
ghost use Rattle.table_rows.specs.Database.{database_of};
ghost use Rattle.hs_token.specs.Spelling.{behind_tabs};
ghost use Rattle.find_scan.specs.Show.{cell_token};
ghost use Rattle.replay_turns.specs.Shown.{row_line, rows_lines, rows_shown};

use find_scan::push_cell;
use row_types::Value;
use std::alloc::AllocError;
use table_rows::{Tables, Walk};

/// Appends a line for each row of a table, in the order of its primary key.
pub fn push_rows(tables: &Tables, table: u32, text: &mut Vec<u8>) -> Result<(), AllocError>
    requires { table < length tables.now.tables }
    ensures { OnOk result (text.new.items
        ≡ text.old.items ++ rows_shown (Some table) (database_of tables.now)) }
{
    push_walk(tables.rows(table), text)
}

/// Appends a line for each row of a walk.
fn push_walk(walk: Walk<'_>, text: &mut Vec<u8>) -> Result<(), AllocError>
    ensures { OnOk result (text.new.items
        ≡ text.old.items ++ rows_lines (map (λ (entry : Entry). entry.0) walk.entry)) }
{
    let mut walk = walk;
    while let Some((_, row)) = walk.next() {
        push_row(row.as_slice(), text)?;
    }
    Ok(())
}

/// Appends the line of a row.
fn push_row(row: &[Value], text: &mut Vec<u8>) -> Result<(), AllocError>
    ensures { OnOk result (text.new.items ≡ text.old.items ++ row_line row.now) }
{
    text.extend_from_slice(b"row")?;
    push_cells(row, text)?;
    Ok(text.push(b'\n')?)
}

/// Appends cells, each behind an HT.
fn push_cells(cells: &[Value], text: &mut Vec<u8>) -> Result<(), AllocError>
    ensures { OnOk result (text.new.items
        ≡ text.old.items ++ behind_tabs (map cell_token cells.now)) }
{
    for cell in cells {
        push_cell(text, cell)?;
    }
    Ok(())
}
