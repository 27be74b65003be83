//! SQL's statements on one table, and what an expression is worth on a row.
//!
//! | Type | What it is |
//! |---|---|
//! | `Expr` | a value or a condition, as a tree |
//! | `Truth` | true, false, or unknown, as a comparison with NULL is |
//! | `Evaluated` | what an expression is worth on a row |
//! | `ExprKind` | what an expression gives, whatever the row |
//! | `Statement` | a SELECT, INSERT, UPDATE or DELETE, with its parts |
//!
//! `eval` goes down the tree by calls of itself, one for each level, and takes no memory but for a
//! text that it answers. Reading a line is the work of `sql_parse`, which bounds the depth of what
//! it reads; running a statement that of `sql_exec`.
#![tactic(auto)]

mod arithmetic;
mod changes;
mod comparing;
mod copies;
mod evaluating;
mod exprs;
mod kinds;
mod laws;
mod orders;
mod statements;
#[cfg(test)]
mod tests;
mod truths;
mod worth;

pub use changes::{Assign, Cell};
pub use evaluating::eval;
pub use exprs::{ArithOp, Expr};
pub use kinds::{ExprKind, kind_of};
pub use laws::{null_by_examples, overflow_by_examples, worth_by_parts};
pub use orders::{Limit, OrderKey};
pub use statements::{DeleteStmt, InsertStmt, SelectSpec, Statement, UpdateStmt};
pub use truths::Truth;
pub use worth::Evaluated;
