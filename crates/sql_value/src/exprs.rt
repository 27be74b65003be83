//! Values and conditions, as trees.
use request_types::FilterOp;
use row_types::{List, Value};
use sqlite_items::Boxed;

/// What stands between two numbers.
#[derive(Clone, Copy, Debug, PartialEq, Eq)]
pub enum ArithOp {
    Sum,
    Difference,
    Product,
}

/// A value or a condition. `a IS NOT NULL` and `a NOT IN (..)` are `Not` of the plain form.
#[derive(Debug, Drop)]
pub enum Expr {
    Literal(Value),
    /// The cell of the column with this place in its table, from 0.
    Column(u32),
    Negate(Boxed<Expr>),
    Arith(ArithOp, Boxed<Expr>, Boxed<Expr>),
    Compare(FilterOp, Boxed<Expr>, Boxed<Expr>),
    IsNull(Boxed<Expr>),
    InList(Boxed<Expr>, List<Expr>),
    Not(Boxed<Expr>),
    And(Boxed<Expr>, Boxed<Expr>),
    Or(Boxed<Expr>, Boxed<Expr>),
}
