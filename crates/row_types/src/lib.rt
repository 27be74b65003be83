//! Values, rows and the shape of tables: what every other crate speaks of.
//!
//! | Type | What it is |
//! |---|---|
//! | `Value` | NULL, an integer of 64 bits with its sign, or a text of bytes |
//! | `Row`, `RowKey` | a list of values: of a table's columns, or of an index's parts |
//! | `Column`, `IndexDef`, `TableDef`, `Schema` | the shape of tables |
//! | `List`, `ByteText` | a `Vec` seen as a list by contracts; a type may hold itself in a `List` |
//!
//! A table may have one counted column, whose numbers an insert draws where it gives none.
//!
//! NULL stands before every integer, an integer before every text; texts go by their bytes. Which
//! schema is valid, and how one is spelled, is the work of `hs_schema`; how rows are kept, that of
//! `table_rows`.
#![tactic(auto)]

mod byte_text;
mod columns;
mod indexes;
mod laws;
mod lists;
mod rows;
mod tables;
#[cfg(test)]
mod tests;
mod values;

pub use byte_text::ByteText;
pub use columns::{Column, Fit, Kind, fits};
pub use indexes::{IndexDef, IndexKind};
pub use laws::{orders_are_total, orders_of_examples};
pub use lists::List;
pub use rows::{Row, RowKey, cmp_keys, cmp_prefix, copy_row, copy_value, row_size};
pub use tables::{Schema, TableDef};
pub use values::{Value, cmp_values};
