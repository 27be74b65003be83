//! The table of a table line.
ghost use Rattle.std.specs.Prelude.{◌≡◌, ◌+◌, ◌≤◌, ◌<◌, ◌^◌, length, IfOk};
ghost use Rattle.std.specs.List.{list_any};
ghost use Rattle.row_types.specs.Counted.{begins_counted, is_led};
ghost use Rattle.row_types.specs.Valid.{is_primary, column_size, most_row_size};
ghost use Rattle.hs_schema.specs.Reading.{Gives, start_at, has_table, table_name_at, whole_table, table_at};

use crate::columns::{columns_of, has_counted};
use crate::faults::{LineFault, SchemaRule};
use crate::indexes::indexes_of;
use crate::parts::is_primary;
use crate::tokens::{is_word_at, name_at};
use hs_token::Token;
use row_types::{ByteText, Column, IndexDef, Kind, List, TableDef};
use std::alloc::Global;

/// The most tables of a schema.
const MAX_TABLES: usize = 64;

/// The most bytes of a row.
const MAX_ROW_SIZE: u64 = 16384;

/// The table of a line that stands behind these tables.
#[tactic(auto, unfolding(crate::specs::Reading::table_at))]
pub(crate) fn table_at(
    alloc: Global,
    tables: &[TableDef],
    line: &[Token],
) -> Result<TableDef, LineFault>
    ensures { Gives (λ table. table) result (table_at tables.now line.now) }
{
    start_at(tables, line)?;
    let db = name_at(line, 1)?;
    let name = table_name_at(tables, db, line)?;
    let columns = columns_of(alloc, line)?;
    let indexes = indexes_of(alloc, &columns, line)?;
    let table = TableDef {
        db: ByteText::of(alloc, db)?,
        name: ByteText::of(alloc, name)?,
        columns: List::of_vec(columns),
        indexes: List::of_vec(indexes),
    };
    whole_table(table, line.len() as u32)
}

fn start_at(tables: &[TableDef], line: &[Token]) -> Result<(), LineFault>
    ensures { Gives (λ started. started) result (start_at tables.now line.now) }
{
    if !is_word_at(b"table", line, 0) {
        return Err(LineFault::Broken(SchemaRule::BadKind, 0));
    }
    if tables.len() >= MAX_TABLES {
        return Err(LineFault::Broken(SchemaRule::TooMany, 0));
    }
    Ok(())
}

#[tactic(auto, unfolding(crate::specs::Reading::table_name_at))]
fn table_name_at<'a>(
    tables: &[TableDef],
    db: &[u8],
    line: &'a [Token],
) -> Result<&'a [u8], LineFault>
    ensures { Gives (λ name. name.now) result (table_name_at tables.now db.now line.now) }
{
    let name = name_at(line, 2)?;
    if has_table(tables, db, name) {
        return Err(LineFault::Broken(SchemaRule::DuplicateName, 2));
    }
    Ok(name)
}

fn has_table(tables: &[TableDef], db: &[u8], name: &[u8]) -> bool
    ensures { result ≡ has_table tables.now db.now name.now }
{
    tables.iter().any(|table| db == table.db.as_slice() && name == table.name.as_slice())
}

/// The table, where one index is primary, the greatest row has room, and a counted column leads an
/// index.
fn whole_table(table: TableDef, end: u32) -> Result<TableDef, LineFault>
    requires { length table.columns ≤ 64 }
    ensures { Gives (λ whole. whole) result (whole_table table end) }
{
    if !has_primary(table.indexes.as_slice()) {
        return Err(LineFault::Broken(SchemaRule::NoPrimary, end));
    }
    if most_row_size(table.columns.as_slice()) > MAX_ROW_SIZE {
        return Err(LineFault::Broken(SchemaRule::TooMany, end));
    }
    if !is_led(table.columns.as_slice(), table.indexes.as_slice()) {
        return Err(LineFault::Broken(SchemaRule::BadKind, end));
    }
    Ok(table)
}

/// Whether a counted column, if there is one, leads an index.
fn is_led(columns: &[Column], indexes: &[IndexDef]) -> bool
    ensures { result ≡ is_led columns.now indexes.now }
{
    !has_counted(columns) || one_begins_counted(columns, indexes)
}

/// Whether an index begins with a counted column.
fn one_begins_counted(columns: &[Column], indexes: &[IndexDef]) -> bool
    ensures { result ≡ list_any (λ index. begins_counted columns.now index.parts) indexes.now }
{
    indexes
        .iter()
        .any(|index| begins_counted(columns, index.parts.as_slice()))
}

/// Whether the first of these places is that of a counted column.
fn begins_counted(columns: &[Column], parts: &[u32]) -> bool
    ensures { result ≡ begins_counted columns.now parts.now }
{
    match parts {
        [] => false,
        [first, ..] => match columns.get(*first as usize) {
            Some(column) => column.auto,
            None => false,
        },
    }
}

fn has_primary(indexes: &[IndexDef]) -> bool
    ensures { result ≡ list_any (λ index. is_primary index.kind) indexes.now }
{
    indexes.iter().any(|index| is_primary(index.kind))
}

/// The size of the greatest row.
fn most_row_size(columns: &[Column]) -> u64
    requires { length columns.now ≤ 64 }
    ensures { result ≡ most_row_size columns.now }
{
    let mut size: u64 = 64;
    for column in columns {
        size += column_size(column.kind);
    }
    size
}

fn column_size(kind: Kind) -> u64
    ensures size { result ≡ column_size kind }
    ensures bound { result < 2 ^ 33 }
{
    match kind {
        Kind::Int => 8,
        Kind::Bytes(most) => u64::from(most) + 4,
    }
}
