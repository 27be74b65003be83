//! A find, as an item of a batch.
ghost use Rattle.std.specs.Prelude.{◌≡◌, ◌++◌, OnOk};
ghost use Rattle.request_types.specs.Fits.{FindFits};
ghost use Rattle.table_rows.specs.Database.{database_of};
ghost use Rattle.batch_answers.specs.Answers.{find_answered};

use crate::codes::push_code;
use find_scan::{Rendered, render, select};
use request_types::{Code, FindSpec};
use std::alloc::{AllocError, Global};
use table_rows::Tables;

/// Appends the reply to a find, or a part of it where memory runs out.
pub(crate) fn answer_find(
    alloc: Global,
    tables: &Tables,
    find: &FindSpec,
    out: &mut Vec<u8>,
) -> Result<(), AllocError>
    requires { FindFits tables.now.schema find.now }
    ensures { OnOk result (out.new.items
        ≡ out.old.items ++ (find_answered (database_of tables.now) find.now).0) }
{
    // A proof knows that the rows are valid where it has seen the schema.
    let _ = tables.schema();
    let slots = select(alloc, tables, find)?;
    let columns = find.columns.as_slice();
    match render(tables, find.table, slots.as_slice(), columns, out)? {
        Rendered::Fits => Ok(()),
        Rendered::TooBig => push_code(out, Code::Big.number()),
    }
}
