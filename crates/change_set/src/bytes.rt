//! The payload of a set.
ghost use Rattle.std.specs.Prelude.{◌≡◌, ◌<◌, ◌^◌, ◌∷◌, ◌++◌, OnOk};
ghost use Rattle.std.specs.Int.{w16, to_be_bytes};
ghost use Rattle.std.specs.List.{AllByRecursion};
ghost use Rattle.row_types.specs.Valid.{IsHeld};
ghost use Rattle.change_set.specs.declared.change.Change.TheVariants.{Put, Count};
ghost use Rattle.change_set.specs.Fitting.{IsHeldIn, AreValuesHeld};
ghost use Rattle.change_set.specs.Payload.{HasBytes, HavePayload, change_bytes, payload};

use crate::change::{Change, ChangeSet};
use crate::values::push_values;
use row_types::Value;
use std::alloc::AllocError;

/// Appends the payload of a set.
pub fn push_bytes(set: &ChangeSet, out: &mut Vec<u8>) -> Result<(), AllocError>
    requires { HavePayload set.now.changes }
    ensures bytes { OnOk result (out.new.items ≡ out.old.items ++ payload set.now.changes) }
    // The integers are those of 64 bits that were written.
    ensures held { OnOk result (AreValuesHeld set.now.changes) }
{
    let changes = set.changes.as_slice();
    out.extend_from_slice(&(changes.len() as u32).to_be_bytes())?;
    for change in changes {
        push_change(change, out)?;
    }
    Ok(())
}

fn push_change(change: &Change, out: &mut Vec<u8>) -> Result<(), AllocError>
    requires { HasBytes change.now }
    ensures bytes { OnOk result (out.new.items ≡ out.old.items ++ change_bytes change.now) }
    ensures held { OnOk result (IsHeldIn change.now) }
{
    match change {
        Change::Put(table, row) => push_put(*table, row.as_slice(), out),
        Change::Delete(table, key) => {
            push_kind(2, *table, out)?;
            push_values(key.as_slice(), out)
        }
        Change::Count(table, counter) => push_count(*table, *counter, out),
    }
}

/// Appends that this row stands in a table.
pub fn push_put(table: u32, row: &[Value], out: &mut Vec<u8>) -> Result<(), AllocError>
    requires { HasBytes (Put table row.now) }
    ensures bytes { OnOk result (out.new.items ≡ out.old.items ++ change_bytes (Put table row.now)) }
    ensures held { OnOk result (AllByRecursion IsHeld row.now) }
{
    push_kind(1, table, out)?;
    push_values(row, out)
}

/// Appends that a table's counter is this number.
pub fn push_count(table: u32, counter: u64, out: &mut Vec<u8>) -> Result<(), AllocError>
    requires { table < 2 ^ 16 }
    ensures { OnOk result (out.new.items ≡ out.old.items ++ change_bytes (Count table counter)) }
{
    push_kind(3, table, out)?;
    out.extend_from_slice(&counter.to_be_bytes())?;
    Ok(())
}

// The kind of a change and its table.
fn push_kind(kind: u8, table: u32, out: &mut Vec<u8>) -> Result<(), AllocError>
    requires { table < 2 ^ 16 }
    ensures { OnOk result (out.new.items ≡ out.old.items ++ kind ∷ to_be_bytes w16 table) }
{
    out.push(kind)?;
    out.extend_from_slice(&(table as u16).to_be_bytes())?;
    Ok(())
}
