//! The slots that are vacant.
ghost use Rattle.std.specs.Prelude.{◌≡◌, ◌+◌, ◌<◌, ◌≤◌, ◌^◌, ◌++◌, List, length, replicate, set, Some, None, vec_len, vec_capacity};
ghost use Rattle.table_rows.specs.Entries.{IsFree};
ghost use Rattle.table_rows.specs.StoreInside.{AreVacant};
ghost use Rattle.row_types.specs.declared.values.Value.{Value};

use row_types::Row;

/// Adds so many vacant slots, in room that was reserved.
pub(crate) fn add_slots(rows: &mut Vec<Option<Row>>, vacant: &mut Vec<u32>, more: u32)
    requires fits { length rows.old.items + more < 2 ^ 32 }
    requires room { vec_len rows.old + more ≤ vec_capacity rows.old }
    requires vacant_room { vec_len vacant.old + more ≤ vec_capacity vacant.old }
    requires vacant { AreVacant rows.old.items vacant.old.items }
    ensures rows { rows.new.items ≡ rows.old.items ++ replicate more None }
    ensures vacant { AreVacant rows.new.items vacant.new.items }
    ensures capacity { vec_capacity vacant.new ≡ vec_capacity vacant.old }
{
    let first = rows.len() as u32;
    for slot in first..first + more {
        rows.push_reserved(None);
        vacant.push_reserved(slot);
    }
}

/// Takes a vacant slot off the list. It looks from the list's end, where whatever undoes changes
/// finds it: slots come back to it there in the order in which they went.
pub(crate) fn drop_slot(rows: &[Option<Row>], vacant: &mut Vec<u32>, slot: u32)
    requires slot { IsFree rows.now slot }
    requires vacant { AreVacant rows.now vacant.old.items }
    ensures vacant { (row : List Value) →
        AreVacant (set rows.now slot (Some row)) vacant.new.items }
    ensures capacity { vec_capacity vacant.new ≡ vec_capacity vacant.old }
{
    for back in 0..vacant.len() {
        let at = vacant.len() - 1 - back;
        if vacant[at] == slot {
            vacant.remove(at);
            return;
        }
    }
}
