//! Tables and columns by the names that a line gives them.
ghost use Rattle.std.specs.Prelude.{◌≡◌, min, ◌<◌, ◌≤◌, ◌^◌, length, drop, IfSome};
ghost use Rattle.std.specs.Str.{str_eq_ignore_ascii_case};
ghost use Rattle.sql_parse.specs.Names as spec;

use request_types::table_named;
use row_types::{Column, Schema, TableDef};

/// The place of what a name doesn't name: no schema has so many tables, no table so many columns.
pub(crate) const NOWHERE: u32 = 4294967295;

/// Whether two words differ by no more than ASCII case.
pub(crate) fn same_word(a: &[u8], b: &[u8]) -> bool
    ensures { result ≡ str_eq_ignore_ascii_case a.now b.now }
{
    a.eq_ignore_ascii_case(b)
}

/// A place, as statements have it.
pub(crate) fn place_of(place: usize) -> u32
    ensures { result ≡ min place spec.nowhere }
{
    if place < NOWHERE as usize {
        place as u32
    } else {
        NOWHERE
    }
}

/// The place of the column of this name, which is compared without regard to ASCII case.
pub(crate) fn column_place(columns: &[Column], name: &[u8]) -> u32
    ensures { result ≡ spec.column_place columns.now name.now }
{
    for (place, column) in columns.iter().enumerate() {
        if same_word(column.name.as_slice(), name) {
            return place_of(place);
        }
    }
    NOWHERE
}

/// The number of the table of this name in this database.
pub(crate) fn table_in(schema: &Schema, db: &[u8], name: &[u8]) -> u32
    requires { length schema.now.tables < 2 ^ 32 }
    ensures { result ≡ spec.table_in schema.now db.now name.now }
{
    match table_named(schema.tables.as_slice(), db, name) {
        None => NOWHERE,
        Some(number) => number,
    }
}

// The number of the first table of this name, from a number on.
fn named_from(tables: &[TableDef], name: &[u8], from: u32) -> Option<u32>
    requires most { length tables.now < 2 ^ 32 }
    requires from { from ≤ length tables.now }
    ensures first { result ≡ spec.named_from from (drop from tables.now) name.now }
    ensures within { IfSome result (λ number. number < length tables.now) }
{
    for number in from as usize..tables.len() {
        if tables[number].name.as_slice() == name {
            return Some(number as u32);
        }
    }
    None
}

/// The number of the one table of this name, whatever its database.
pub(crate) fn table_alone(schema: &Schema, name: &[u8]) -> u32
    requires { length schema.now.tables < 2 ^ 32 }
    ensures { result ≡ spec.table_alone schema.now name.now }
{
    let tables = schema.tables.as_slice();
    match named_from(tables, name, 0) {
        None => NOWHERE,
        Some(first) => match named_from(tables, name, first + 1) {
            None => first,
            Some(_) => NOWHERE,
        },
    }
}

/// The columns of a table; none where it isn't there.
pub(crate) fn columns_of(schema: &Schema, table: u32) -> &[Column]
    ensures { result.now ≡ spec.columns_of schema.now table }
{
    match schema.tables.as_slice().get(table as usize) {
        None => &[],
        Some(found) => found.columns.as_slice(),
    }
}
