//! The reading of an area.
ghost use Rattle.std.specs.Prelude.{◌≤◌, IfOk, IfErr};
ghost use Rattle.row_types.specs.Valid.{IsValid};
ghost use Rattle.table_rows.specs.Database.{database_of};
ghost use Rattle.table_rows.specs.Sizes.{most_bytes};
ghost use Rattle.check_point.specs.Area.{Makes, IsNoArea};

use change_set::{Damage, apply, read_area_changes};
use row_types::Schema;
use std::alloc::Global;
use table_rows::Tables;

/// The tables that an area makes of empty ones. What is wrong with the bytes stands at the first
/// change that can't be read, or at 0 where all are read and don't apply.
pub fn read_area(
    alloc: Global,
    schema: &Schema,
    bytes: &[u8],
    bytes_max: u64,
) -> Result<Tables, Damage>
    requires schema { IsValid schema.now }
    requires bytes { bytes_max ≤ most_bytes }
    ensures made { IfOk result (λ tables.
        Makes schema.now bytes_max bytes.now (database_of tables)) }
    ensures refused { IfErr result (IsNoArea schema.now bytes_max bytes.now) }
{
    let set = read_area_changes(alloc, schema, bytes)?;
    let mut tables = Tables::new(alloc, schema, bytes_max)?;
    if apply(alloc, &set, &mut tables)? {
        Ok(tables)
    } else {
        Err(Damage::Bad(0))
    }
}
