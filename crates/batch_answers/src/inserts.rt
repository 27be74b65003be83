//! An insert, as an item of a batch.
ghost use Rattle.std.specs.Prelude.{◌≡◌, ◌++◌, OnOk};
ghost use Rattle.request_types.specs.Fits.{InsertFits};
ghost use Rattle.table_rows.specs.Database.{database_of};
ghost use Rattle.batch_answers.specs.Answers.{insert_answered};
ghost use Rattle.table_rows.specs.GoingBack.{CanGoBack};

use crate::codes::{push_code, push_inserted};
use request_types::InsertSpec;
use row_insert::{Inserted, insert};
use row_types::Schema;
use std::alloc::{AllocError, Global};
use table_rows::{Tables, UndoList};

/// Puts a row and appends the reply, or a part of it where memory runs out.
pub(crate) fn answer_insert(
    alloc: Global,
    tables: &mut Tables,
    schema: &Schema,
    spec: &InsertSpec,
    undo: &mut UndoList,
    out: &mut Vec<u8>,
) -> Result<(), AllocError>
    requires schema { schema.now ≡ tables.old.schema }
    requires fits { InsertFits schema.now spec.now }
    ensures reply { OnOk result (out.new.items
        ≡ out.old.items ++ (insert_answered (database_of tables.old) spec.now).0) }
    ensures rows { OnOk result (database_of tables.new
        ≡ (insert_answered (database_of tables.old) spec.now).1) }
    ensures back { CanGoBack tables.old tables.new undo.old.entries undo.new.entries }
{
    // A proof knows that the rows are valid where it has asked for their shape.
    let _ = tables.schema();
    match insert(alloc, tables, schema, spec, undo)? {
        Inserted::Done(number) => push_inserted(out, number),
        Inserted::Refused(code) => push_code(out, code),
    }
}
