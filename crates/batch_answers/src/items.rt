//! An item of a batch.
ghost use Rattle.std.specs.Prelude.{◌≡◌, ◌++◌, OnOk};
ghost use Rattle.table_rows.specs.Database.{database_of};
ghost use Rattle.batch_answers.specs.Answers.{answered};
ghost use Rattle.request_types.specs.Fits.{KindFits};
ghost use Rattle.table_rows.specs.GoingBack.{CanGoBack};

use crate::changes::answer_change;
use crate::codes::push_code;
use crate::finds::answer_find;
use crate::inserts::answer_insert;
use request_types::{ItemKind, Request};
use row_types::Schema;
use std::alloc::{AllocError, Global};
use table_rows::{Tables, UndoList};

/// Does what an item asks for and appends the reply, or a part of it where memory runs out.
pub(crate) fn answer(
    alloc: Global,
    tables: &mut Tables,
    schema: &Schema,
    kind: &ItemKind,
    undo: &mut UndoList,
    out: &mut Vec<u8>,
) -> Result<(), AllocError>
    requires schema { schema.now ≡ tables.old.schema }
    requires fits { KindFits schema.now kind.now }
    ensures reply { OnOk result (out.new.items
        ≡ out.old.items ++ (answered (database_of tables.old) kind.now).0) }
    ensures rows { OnOk result (database_of tables.new
        ≡ (answered (database_of tables.old) kind.now).1) }
    ensures back { CanGoBack tables.old tables.new undo.old.entries undo.new.entries }
{
    match kind {
        ItemKind::Ready(code) => push_code(out, *code),
        ItemKind::Hs(Request::Find(find)) => answer_find(alloc, tables, find, out),
        ItemKind::Hs(Request::Modify(find, change)) => {
            answer_change(alloc, tables, find, change, undo, out)
        }
        ItemKind::Hs(Request::Insert(spec)) => {
            answer_insert(alloc, tables, schema, spec, undo, out)
        }
    }
}
