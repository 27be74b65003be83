//! What an expression is worth on a row.
ghost use Rattle.std.specs.Prelude.{◌≡◌, map, IfOk};
ghost use Rattle.sql_value.specs.Worth.{evaluated, cell_at};
ghost use Rattle.sql_value.specs.declared.worth.Evaluated.TheVariants.{Value as ValueOf};
ghost use Rattle.sql_value.specs.Eval.{eval_of, is_among};

use crate::arithmetic::{combined, negated};
use crate::comparing::{both, compared, either, null_test, opposite};
use crate::exprs::Expr;
use crate::truths::Truth;
use crate::worth::{Evaluated, Worth};
use request_types::FilterOp;
use row_types::{List, Row, Value};
use std::alloc::{AllocError, Global};

/// What the expression is worth on the row. All of its parts are evaluated, whatever the others are
/// worth.
///
/// It goes down by calls of itself, as deep as the expression is.
pub fn eval(alloc: Global, expr: &Expr, row: &Row) -> Result<Evaluated, AllocError>
    ensures { IfOk result (λ worth. worth ≡ eval_of row.now expr.now) }
{
    worth(expr, row.as_slice()).copy(alloc)
}

/// The same without memory.
#[cycle(worth)]
fn worth<'a>(expr: &'a Expr, row: &'a [Value]) -> Worth<'a>
    ensures { evaluated result ≡ eval_of row.now expr.now }
{
    match expr {
        Expr::Literal(value) => Worth::of_cell(value),
        Expr::Column(place) => cell(row, *place),
        Expr::Negate(a) => negated(worth(a.get(), row)),
        Expr::Arith(op, a, b) => combined(*op, worth(a.get(), row), worth(b.get(), row)),
        Expr::Compare(op, a, b) => compared(*op, worth(a.get(), row), worth(b.get(), row)),
        Expr::IsNull(a) => null_test(worth(a.get(), row)),
        Expr::InList(a, all) => among(worth(a.get(), row), all, row),
        Expr::Not(a) => opposite(worth(a.get(), row)),
        Expr::And(a, b) => both(worth(a.get(), row), worth(b.get(), row)),
        Expr::Or(a, b) => either(worth(a.get(), row), worth(b.get(), row)),
    }
}

/// Whether the value is one of those of the list.
#[cycle(worth)]
fn among<'a>(a: Worth<'a>, all: &'a List<Expr>, row: &'a [Value]) -> Worth<'a>
    ensures { evaluated result ≡ is_among (evaluated a.entry) (map (eval_of row.now) all.now) }
{
    let mut found = Worth::Truth(Truth::No);
    for expr in all.as_slice() {
        found = either(found, compared(FilterOp::Equal, a, worth(expr, row)));
    }
    found
}

// The cell of a column.
fn cell<'a>(row: &'a [Value], place: u32) -> Worth<'a>
    ensures { evaluated result ≡ ValueOf (cell_at row.now place) }
{
    match row.get(place as usize) {
        None => Worth::Null,
        Some(cell) => Worth::of_cell(cell),
    }
}
