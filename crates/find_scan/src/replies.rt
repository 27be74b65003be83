//! The reply that shows rows.
ghost use Rattle.std.specs.Prelude.{◌≡◌, ◌<◌, ◌^◌, ◌++◌, length, true, OnOk, OnErr, IfOk};
ghost use Rattle.std.specs.List.{All};
ghost use Rattle.hs_token.specs.Spelling.{behind_tabs};
ghost use Rattle.hs_token.specs.Steps.{Extends};
ghost use Rattle.request_types.specs.Fits.{AreNumbers};
ghost use Rattle.table_rows.specs.declared.slot_ref.SlotRef.{SlotRef};
ghost use Rattle.table_rows.specs.Rows.{columns_of};
ghost use Rattle.table_rows.specs.Slots.{is_live_in};
ghost use Rattle.find_scan.specs.Show.{rows_tokens, find_reply, most_reply};
ghost use Rattle.find_scan.specs.Rendering.{rows_at, rendered, shown, below};
ghost use Rattle.find_scan.specs.declared.replies.Rendered.TheVariants.{Fits};

use crate::cells::push_row;
use crate::ends::MOST;
use hs_token::{LINE_FEED, push_head};
use std::alloc::AllocError;
use table_rows::{SlotRef, Tables};

/// Whether a reply was appended, or has too many bytes.
#[derive(Clone, Copy, Debug, PartialEq, Eq)]
pub enum Rendered {
    Fits,
    TooBig,
}

/// Appends the reply that shows these columns of the rows in these slots, if it isn't too big.
pub fn render(
    tables: &Tables,
    table: u32,
    slots: &[SlotRef],
    columns: &[u32],
    out: &mut Vec<u8>,
) -> Result<Rendered, AllocError>
    requires table { table < length tables.now.tables }
    requires live { All (λ (slot : SlotRef). is_live_in tables.now table slot.0 ≡ true) slots.now }
    requires columns { AreNumbers (columns_of tables.now table) columns.now }
    ensures size { IfOk result (λ r. r
        ≡ rendered (find_reply columns.now (rows_at tables.now table slots.now))) }
    ensures shown { IfOk result (λ r. out.new.items ≡ out.old.items
        ++ shown r (find_reply columns.now (rows_at tables.now table slots.now))) }
    ensures err { OnErr result (out.new.items ≡ out.old.items) }
{
    // A proof knows that there are few columns where it has seen the schema.
    let _ = tables.schema();
    let len = out.len();
    let rendered = append_reply(tables, table, slots, columns, out);
    if rendered != Ok(Rendered::Fits) {
        out.truncate(len);
    }
    rendered
}

/// Appends the reply, or a part of it.
fn append_reply(
    tables: &Tables,
    table: u32,
    slots: &[SlotRef],
    columns: &[u32],
    out: &mut Vec<u8>,
) -> Result<Rendered, AllocError>
    requires table { table < length tables.now.tables }
    requires live { All (λ (slot : SlotRef). is_live_in tables.now table slot.0 ≡ true) slots.now }
    requires few { length columns.now < 2 ^ 32 }
    ensures size { IfOk result (λ r. r
        ≡ rendered (find_reply columns.now (rows_at tables.now table slots.now))) }
    ensures whole { IfOk result (λ r. r ≡ Fits → out.new.items
        ≡ out.old.items ++ find_reply columns.now (rows_at tables.now table slots.now)) }
    ensures front { Extends out.old.items out.new.items }
{
    let most = out.len() + MOST;
    push_head(out, 0, columns.len() as u32)?;
    let rendered = push_rows(tables, table, slots, columns, most, out)?;
    if rendered == Rendered::Fits {
        out.push(LINE_FEED)?;
    }
    Ok(rendered)
}

/// Appends the cells of the rows, each behind an HT, as long as there are fewer than so many bytes
/// before each row.
fn push_rows(
    tables: &Tables,
    table: u32,
    slots: &[SlotRef],
    columns: &[u32],
    most: usize,
    out: &mut Vec<u8>,
) -> Result<Rendered, AllocError>
    requires table { table < length tables.now.tables }
    requires live { All (λ (slot : SlotRef). is_live_in tables.now table slot.0 ≡ true) slots.now }
    ensures size { IfOk result (λ r. r ≡ below most
        (out.old.items
        ++ behind_tabs (rows_tokens columns.now (rows_at tables.now table slots.now)))) }
    ensures whole { IfOk result (λ r. r ≡ Fits → out.new.items
        ≡ out.old.items
        ++ behind_tabs (rows_tokens columns.now (rows_at tables.now table slots.now))) }
    ensures front { Extends out.old.items out.new.items }
{
    for slot in slots {
        if out.len() >= most {
            return Ok(Rendered::TooBig);
        }
        push_row(out, tables.row(table, *slot), columns)?;
    }
    Ok(below(most, out))
}

/// Whether there are fewer than so many bytes.
fn below(most: usize, out: &[u8]) -> Rendered
    ensures { result ≡ below most out.now }
{
    if out.len() < most {
        Rendered::Fits
    } else {
        Rendered::TooBig
    }
}
