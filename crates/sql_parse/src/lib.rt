//! A line of SQL, read: the statement that it is, or its refusal.
//!
//! | File | What it reads |
//! |---|---|
//! | `lexing`, `quotes`, `numbers`, `token_kinds` | a token, from its first byte on |
//! | `tokens` | the tokens of a line, each cut as it is reached |
//! | `grammar`, `values`, `conditions`, `trees` | expressions, with their depth |
//! | `readings`, `clauses`, `selects`, `inserts`, `updates`, `statements` | statements |
//! | `names`, `naming`, `fitting` | which tables and columns are meant, and whether the kinds fit |
//!
//! Nothing is kept of a token but what stands in the statement. A name that names nothing is read
//! as a place that no table has, so that a line which is no statement is refused as such first.
#![tactic(auto)]

mod clauses;
mod conditions;
mod faults;
mod fitting;
mod grammar;
mod inserts;
mod laws;
mod lexing;
mod names;
mod naming;
mod numbers;
mod quotes;
mod readings;
mod selects;
mod spelling_laws;
mod statements;
#[cfg(test)]
mod tests;
mod token_kinds;
mod tokens;
mod trees;
mod updates;
mod values;

pub use laws::{
    conditions_by_examples, lines_by_examples, refusals_by_examples, values_by_examples,
};
pub use spelling_laws::{spelled_by_examples, what_is_spelled_is_read};
pub use statements::parse;
