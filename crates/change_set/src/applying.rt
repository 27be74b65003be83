//! Changes put on tables.
ghost use Rattle.std.specs.Prelude.{◌≡◌, [], Ok, true, false, OnErr};
ghost use Rattle.table_rows.specs.Database.{database_of};
ghost use Rattle.table_rows.specs.GoingBack.{CanGoBack};
ghost use Rattle.table_rows.specs.Undoing.{since, AreUndoable, undone_all};
ghost use Rattle.change_set.specs.Fitting.{AreChanges};
ghost use Rattle.change_set.specs.Putting.{put, Applies};

use crate::change::{Change, ChangeSet};
use crate::clearing::clear_all;
use crate::filling::put_all;
use std::alloc::{AllocError, Global};
use table_rows::{Tables, UndoList};

/// Carries changes out, or goes as far as it can.
pub(crate) fn carry_out(
    alloc: Global,
    changes: &[Change],
    tables: &mut Tables,
    undo: &mut UndoList,
) -> Result<bool, AllocError>
    requires { AreChanges tables.old.schema changes.now }
    ensures applied { result ≡ Ok true → Applies (database_of tables.old) changes.now
        × (database_of tables.new ≡ put (database_of tables.old) changes.now) }
    ensures refused { result ≡ Ok false → (Applies (database_of tables.old) changes.now → ⊥) }
    ensures back { CanGoBack tables.old tables.new undo.old.entries undo.new.entries }
{
    // A proof knows that the tables are valid where it has asked for their shape, and so below.
    let _ = tables.schema();
    let is_clear = clear_all(alloc, changes, tables, undo)?;
    if !is_clear {
        return Ok(false);
    }
    let are_in = put_all(alloc, changes, tables, undo)?;
    let _ = tables.schema();
    Ok(are_in)
}

// Takes all changes back.
fn take_back(tables: &mut Tables, undo: &mut UndoList)
    requires { AreUndoable (since 0 undo.old.entries) tables.old }
    ensures { tables.new ≡ undone_all (since 0 undo.old.entries) tables.old }
{
    tables.undo_to(undo, 0);
}

/// Puts a set on tables, and answers whether it applies. Where it does not, and where memory runs
/// out, they stay as they were.
pub fn apply(alloc: Global, set: &ChangeSet, tables: &mut Tables) -> Result<bool, AllocError>
    requires { AreChanges tables.old.schema set.now.changes }
    ensures applied { result ≡ Ok true → Applies (database_of tables.old) set.now.changes
        × (database_of tables.new ≡ put (database_of tables.old) set.now.changes) }
    ensures refused { result ≡ Ok false → (Applies (database_of tables.old) set.now.changes → ⊥)
        × (database_of tables.new ≡ database_of tables.old) }
    ensures err { OnErr result (database_of tables.new ≡ database_of tables.old) }
{
    let mut undo = UndoList::list_new(alloc);
    let applies = match carry_out(alloc, set.changes.as_slice(), tables, &mut undo) {
        Ok(applies) => applies,
        Err(fault) => {
            take_back(tables, &mut undo);
            return Err(fault);
        }
    };
    if applies {
        return Ok(true);
    }
    take_back(tables, &mut undo);
    Ok(false)
}
