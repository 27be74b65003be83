//! Tables, indexes and columns by their names.
ghost use Rattle.std.specs.Prelude.{◌≡◌, ◌<◌, ◌^◌, length, IfSome};
ghost use Rattle.request_types.specs.Names.{table_named, index_named, column_named};

use row_types::{Column, IndexDef, TableDef};

/// The number of the first table with these names, that of its database first.
pub fn table_named(tables: &[TableDef], db: &[u8], name: &[u8]) -> Option<u32>
    requires { length tables.now < 2 ^ 32 }
    ensures first { result ≡ table_named tables.now db.now name.now }
    ensures within { IfSome result (λ number. number < length tables.now) }
{
    for (number, table) in tables.iter().enumerate() {
        if table.db.as_slice() == db && table.name.as_slice() == name {
            return Some(number as u32);
        }
    }
    None
}

/// The number of the first index of this name.
pub fn index_named(indexes: &[IndexDef], name: &[u8]) -> Option<u32>
    requires { length indexes.now < 2 ^ 32 }
    ensures first { result ≡ index_named indexes.now name.now }
    ensures within { IfSome result (λ number. number < length indexes.now) }
{
    for (number, index) in indexes.iter().enumerate() {
        if index.name.as_slice() == name {
            return Some(number as u32);
        }
    }
    None
}

/// The number of the first column of exactly this name.
pub fn column_named(columns: &[Column], name: &[u8]) -> Option<u32>
    requires { length columns.now < 2 ^ 32 }
    ensures first { result ≡ column_named columns.now name.now }
    ensures within { IfSome result (λ number. number < length columns.now) }
{
    for (number, column) in columns.iter().enumerate() {
        if column.name.as_slice() == name {
            return Some(number as u32);
        }
    }
    None
}
