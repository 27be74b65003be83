//! Why a row may not come into a table.
ghost use Rattle.std.specs.Prelude.{◌≡◌, ◌<◌, length, IfSome, IfNone, true};
ghost use Rattle.table_rows.specs.Rows.{columns_of};
ghost use Rattle.table_rows.specs.Slots.{is_live_in};
ghost use Rattle.table_rows.specs.Checks.{IsAllowed};
ghost use Rattle.row_insert.specs.Refusal.{IsOfKinds, is_long, is_too_long, code_of, refusal_of};

use request_types::Code;
use row_types::{Column, Fit, Row, Value, fits};
use table_rows::{SlotRef, Tables, Verdict};

/// Why a row may not come in place of that in the slot `instead`, or of none. Takes no memory.
pub fn refusal_of(tables: &Tables, table: u32, row: &Row, instead: Option<SlotRef>) -> Option<Code>
    requires table { table < length tables.now.tables }
    requires row { IsOfKinds (columns_of tables.now table) row.now }
    requires instead { IfSome instead (λ slot. is_live_in tables.now table slot.0 ≡ true) }
    ensures refusal { result ≡ refusal_of tables.now table row.now instead }
    ensures fine { IfNone result (IsAllowed tables.now table row.now instead) }
{
    if is_too_long(columns_of(tables, table), row.as_slice()) {
        return Some(Code::Value);
    }
    code_of(tables.check_put(table, row, instead))
}

// The columns of a table.
fn columns_of(tables: &Tables, table: u32) -> &[Column]
    requires { table < length tables.now.tables }
    ensures { result.now ≡ columns_of tables.now table }
{
    tables.schema().tables.as_slice()[table as usize]
        .columns
        .as_slice()
}

// Whether a row has a text that is longer than its column.
fn is_too_long(columns: &[Column], row: &[Value]) -> bool
    requires { length row.now ≡ length columns.now }
    ensures { result ≡ is_too_long columns.now row.now }
{
    for (place, column) in columns.iter().enumerate() {
        if is_long(fits(column, &row[place])) {
            return true;
        }
    }
    false
}

fn is_long(fit: Fit) -> bool
    ensures { result ≡ is_long fit }
{
    match fit {
        Fit::Fine | Fit::WrongKind | Fit::NullHere => false,
        Fit::Long => true,
    }
}

// What is said of a row that the tables refuse.
fn code_of(verdict: Verdict) -> Option<Code>
    ensures { result ≡ code_of verdict }
{
    match verdict {
        Verdict::Fine => None,
        Verdict::Dup(_) => Some(Code::Dup),
        Verdict::Null(_) => Some(Code::Null),
        Verdict::Full => Some(Code::Full),
    }
}
