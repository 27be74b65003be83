//! Inserting a row.
ghost use Rattle.std.specs.Prelude.{◌≡◌, ◌≢◌, ℤ, IfOk, Ok, Option};
ghost use Rattle.request_types.specs.Fits.{InsertFits};
ghost use Rattle.table_rows.specs.Rows.{columns_of};
ghost use Rattle.table_rows.specs.GoingBack.{CanGoBack};
ghost use Rattle.row_insert.specs.Draw.{coming_to};
ghost use Rattle.row_insert.specs.Insert.{new_row, insert_answer, IsPut};
ghost use Rattle.row_insert.specs.declared.inserts.Inserted.TheVariants.{Done};

use crate::drawing::{Arrival, coming_to};
use crate::new_rows::new_row;
use crate::refusals::refusal_of;
use request_types::InsertSpec;
use row_types::Schema;
use std::alloc::{AllocError, Global};
use table_rows::{Tables, UndoList};

/// What became of an insert.
#[derive(Clone, Copy, Debug, PartialEq, Eq)]
pub enum Inserted {
    /// The row is there. The number is the one that was drawn for it, if one was.
    Done(Option<i64>),
    /// The number of the code that says why the row was refused.
    Refused(u32),
}

/// Puts a new row, in which columns without a value have their presets. Where the counted column has
/// none, NULL or 0, the table's next number is drawn for it.
pub fn insert(
    alloc: Global,
    tables: &mut Tables,
    schema: &Schema,
    spec: &InsertSpec,
    undo: &mut UndoList,
) -> Result<Inserted, AllocError>
    requires schema { schema.now ≡ tables.old.schema }
    requires spec { InsertFits schema.now spec.now }
    ensures answer { IfOk result (λ answer. answer ≡ insert_answer tables.old spec.now.table
        (coming_to tables.old spec.now.table
        (new_row (columns_of tables.old spec.now.table) spec.now))) }
    ensures put { (number : Option ℤ) → result ≡ Ok (Done number) → IsPut spec.now.table
        (new_row (columns_of tables.old spec.now.table) spec.now) number
        tables.old tables.new undo.old.entries undo.new.entries }
    ensures schema { tables.new.schema ≡ tables.old.schema }
    ensures back { CanGoBack tables.old tables.new undo.old.entries undo.new.entries }
    // A row that is refused, or that no memory is there for, leaves all as it was, and nothing is
    // noted.
    ensures unchanged { ((number : Option ℤ) → result ≢ Ok (Done number))
        → (tables.new ≡ tables.old) × (undo.new.entries ≡ undo.old.entries) }
{
    // A proof knows that the tables are valid where it has asked for their shape.
    let _ = tables.schema();
    let columns = schema.tables.as_slice()[spec.table as usize]
        .columns
        .as_slice();
    let row = new_row(alloc, columns, spec)?;
    let coming = match coming_to(tables, spec.table, row) {
        Ok(coming) => coming,
        Err(code) => return Ok(Inserted::Refused(code.number())),
    };
    let Arrival { row, number } = coming;
    if let Some(code) = refusal_of(tables, spec.table, &row, None) {
        return Ok(Inserted::Refused(code.number()));
    }
    tables.reserve(spec.table, 1, undo)?;
    tables.put(spec.table, row, undo);
    Ok(Inserted::Done(number))
}
