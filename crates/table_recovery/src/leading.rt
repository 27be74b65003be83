//! The tables that an area makes and records lead to.
ghost use Rattle.std.specs.Prelude.{◌≤◌, option_copied, IfOk, IfErr, OnOk};
ghost use Rattle.row_types.specs.Valid.{IsValid};
ghost use Rattle.table_rows.specs.Database.{database_of};
ghost use Rattle.table_rows.specs.Sizes.{most_bytes};
ghost use Rattle.redo_journal.specs.Records.{payloads_of};
ghost use Rattle.table_recovery.specs.Shown.{Begins, Leads, LeadAll};
ghost use Rattle.table_recovery.specs.Answers.{RefusesArea, RefusesRecord, RefusesRecords};

use change_set::{Damage, apply, read_changes};
use check_point::read_area;
use redo_journal::{Record, Refusal};
use row_types::{ByteText, Schema};
use std::alloc::Global;
use table_rows::Tables;

/// The tables that an area makes, or empty ones. The root stands at this gate.
pub(crate) fn begin(
    alloc: Global,
    schema: &Schema,
    bytes_max: u64,
    area: Option<&ByteText>,
    gate: u64,
) -> Result<Tables, Refusal>
    requires schema { IsValid schema.now }
    requires bytes { bytes_max ≤ most_bytes }
    ensures begins { IfOk result (λ tables.
        Begins schema.now bytes_max (option_copied area.entry) (database_of tables)) }
    ensures refused { IfErr result
        (RefusesArea schema.now bytes_max (option_copied area.entry) gate) }
{
    match area {
        None => Ok(Tables::new(alloc, schema, bytes_max)?),
        Some(area) => match read_area(alloc, schema, area.as_slice(), bytes_max) {
            Ok(tables) => Ok(tables),
            Err(Damage::Bad(_)) => Err(Refusal::Damaged(gate)),
            Err(Damage::NoMemory) => Err(Refusal::NoMemory),
        },
    }
}

/// Puts what the records say on tables, one after the other.
pub(crate) fn lead_all(
    alloc: Global,
    records: &[Record],
    tables: &mut Tables,
) -> Result<(), Refusal>
    ensures leads { OnOk result
        (LeadAll (database_of tables.old) (payloads_of records.now) (database_of tables.new)) }
    ensures refused { IfErr result (RefusesRecords (database_of tables.old) records.now) }
{
    for record in records {
        lead(alloc, record, tables)?;
    }
    Ok(())
}

// Puts what a record says on tables.
fn lead(alloc: Global, record: &Record, tables: &mut Tables) -> Result<(), Refusal>
    ensures leads { OnOk result
        (Leads (database_of tables.old) record.now.payload (database_of tables.new)) }
    ensures refused { IfErr result (RefusesRecord (database_of tables.old) record.now) }
{
    let set = match read_changes(alloc, tables.schema(), record.payload.as_slice()) {
        Ok(set) => set,
        Err(Damage::Bad(_)) => return Err(Refusal::Damaged(record.place)),
        Err(Damage::NoMemory) => return Err(Refusal::NoMemory),
    };
    if apply(alloc, &set, tables)? {
        Ok(())
    } else {
        Err(Refusal::Damaged(record.place))
    }
}
