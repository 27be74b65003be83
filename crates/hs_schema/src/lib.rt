//! The valid schema, read table line by table line, and its one text.
//!
//!     table <db> <name>   c <name> <kind> <nullness> <preset> ..   i <name> <kind> <columns> ..
//!
//! A line is a list of tokens: three, then five for each column, then four for each index.
//! `add_table` reads one, and answers the first rule that it breaks with the number of the token
//! there. `spell` writes the lines of all tables, in fewer than 2^32 bytes, and what it writes is
//! read again. Which schema is valid says `Valid` in the specs of `row_types`; how a line is cut
//! into tokens is the work of `hs_token`.
#![tactic(auto)]

mod columns;
mod faults;
mod indexes;
mod laws;
mod nullness;
mod parts;
mod schemas;
mod spelling;
mod tables;
#[cfg(test)]
mod tests;
mod tokens;

pub use faults::{SchemaFault, SchemaRule};
pub use laws::{
    example_breaches, example_of_counting, example_table, lines_are_read_from_the_left,
    lines_say_the_valid_tables, texts_are_read_again, texts_are_short,
};
pub use row_types::Schema;
pub use schemas::{SchemaLines, empty};
