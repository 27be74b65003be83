//! The writing of an area.
ghost use Rattle.std.specs.Prelude.{◌≡◌, ◌+◌, ◌++◌, ◌<◌, ◌≤◌, ◌^◌, length, take, drop, if◌then◌else◌, OnOk};
ghost use Rattle.std.specs.Int.{w32, to_be_bytes};
ghost use Rattle.std.specs.List.{AllByRecursion, flat_map};
ghost use Rattle.table_rows.specs.Database.{database_of};
ghost use Rattle.table_rows.specs.Entries.{Entry};
ghost use Rattle.table_rows.specs.Rows.{def_of, rows_of};
ghost use Rattle.table_rows.specs.Valid.{IsValidState};
ghost use Rattle.change_set.specs.Fitting.{AreValuesHeld};
ghost use Rattle.change_set.specs.Payload.{IsShort, change_bytes};
ghost use Rattle.check_point.specs.Area.{Makes, area_of, segment_of};
ghost use Rattle.check_point.specs.Written.{puts_of, count_of, made_from};

use change_set::{push_count, push_put};
use std::alloc::AllocError;
use table_rows::{Tables, Walk};

// The counter of a table that nothing was drawn from.
const FIRST_COUNTER: u64 = 1;

// A gate that is closed.
const CLOSED: u8 = 0;

/// Appends a segment without records: the number of the records before it, the area of the tables
/// behind its length, and a closed gate.
pub fn push_area(tables: &Tables, records: u64, out: &mut Vec<u8>) -> Result<(), AllocError>
    ensures bytes { OnOk result (out.new.items
        ≡ out.old.items ++ segment_of records (area_of (database_of tables.now))) }
    ensures short { OnOk result (length (area_of (database_of tables.now)) < 2 ^ 32) }
    // So it is read again.
    ensures makes { OnOk result (Makes tables.now.schema tables.now.bytes_max
        (area_of (database_of tables.now)) (database_of tables.now)) }
{
    out.extend_from_slice(&records.to_be_bytes())?;
    let place = out.len();
    out.extend_from_slice(&[0; 4])?;
    push_tables(tables, out)?;
    let len = out.len() - place - 4;
    set_four(out, place, len as u32);
    Ok(out.push(CLOSED)?)
}

// Appends the area of the tables.
fn push_tables(tables: &Tables, out: &mut Vec<u8>) -> Result<(), AllocError>
    ensures bytes { OnOk result
        (out.new.items ≡ out.old.items ++ area_of (database_of tables.now)) }
    ensures short { length (area_of (database_of tables.now)) < 2 ^ 32 }
    ensures makes { OnOk result (Makes tables.now.schema tables.now.bytes_max
        (area_of (database_of tables.now)) (database_of tables.now)) }
{
    let last = tables.schema().tables.as_slice().len() as u32;
    let count = count_changes(tables, last);
    out.extend_from_slice(&count.to_be_bytes())?;
    push_changes(tables, last, out)
}

// How many changes make the tables, of which there are so many.
fn count_changes(tables: &Tables, last: u32) -> u32
    requires valid { IsValidState tables.now }
    requires all { last ≡ length tables.now.tables }
    requires few { length (made_from 0 tables.now.schema.tables tables.now.tables) < 2 ^ 32 }
    ensures { result ≡ length (made_from 0 tables.now.schema.tables tables.now.tables) }
{
    let mut count: u64 = 0;
    for table in 0..last {
        count += tables.count(table);
        if counts(tables, table) {
            count += 1;
        }
    }
    count as u32
}

// Appends the changes that make the tables, of which there are so many.
fn push_changes(tables: &Tables, last: u32, out: &mut Vec<u8>) -> Result<(), AllocError>
    requires valid { IsValidState tables.now }
    requires all { last ≡ length tables.now.tables }
    ensures bytes { OnOk result (out.new.items ≡ out.old.items ++ flat_map change_bytes
        (made_from 0 tables.now.schema.tables tables.now.tables)) }
    ensures held { OnOk result (AreValuesHeld
        (made_from 0 tables.now.schema.tables tables.now.tables)) }
{
    for table in 0..last {
        push_rows(table, tables.rows(table), out)?;
        push_counter(tables, table, out)?;
    }
    Ok(())
}

// Whether a table has a counter that is another than that of an empty one.
fn counts(tables: &Tables, table: u32) -> bool
    requires table { table < length tables.now.tables }
    requires valid { IsValidState tables.now }
    ensures { length (count_of table (def_of tables.now table) (rows_of tables.now table))
        ≡ if result then 1 else 0 }
{
    match tables.counter(table) {
        None => false,
        Some(counter) => counter != FIRST_COUNTER,
    }
}

// Appends the counter of a table, where it is another than that of an empty one.
fn push_counter(tables: &Tables, table: u32, out: &mut Vec<u8>) -> Result<(), AllocError>
    requires table { table < length tables.now.tables }
    requires valid { IsValidState tables.now }
    ensures { OnOk result (out.new.items ≡ out.old.items ++ flat_map change_bytes
        (count_of table (def_of tables.now table) (rows_of tables.now table))) }
{
    match tables.counter(table) {
        None => Ok(()),
        Some(FIRST_COUNTER) => Ok(()),
        Some(counter) => push_count(table, counter, out),
    }
}

// Appends that these rows stand in a table.
fn push_rows(table: u32, walk: Walk<'_>, out: &mut Vec<u8>) -> Result<(), AllocError>
    requires table { table < 2 ^ 16 }
    requires short { AllByRecursion (λ (entry : Entry). AllByRecursion IsShort entry.0) walk }
    ensures bytes { OnOk result (out.new.items
        ≡ out.old.items ++ flat_map change_bytes (puts_of table walk.entry)) }
    ensures held { OnOk result (AreValuesHeld (puts_of table walk.entry)) }
{
    let mut walk = walk;
    while let Some((_, row)) = walk.next() {
        push_put(table, row.as_slice(), out)?;
    }
    Ok(())
}

// Writes a number over the four bytes at a place.
fn set_four(out: &mut Vec<u8>, place: usize, number: u32)
    requires { place + 4 ≤ length out.old.items }
    ensures { out.new.items ≡ take place out.old.items
        ++ to_be_bytes w32 number ++ drop (place + 4) out.old.items }
{
    out[place..place + 4].copy_from_slice(&number.to_be_bytes());
}
