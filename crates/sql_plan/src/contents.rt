//! Whether a condition calculates with a column.
ghost use Rattle.std.specs.Prelude.{◌≡◌, map, fold, option_copied};
ghost use Rattle.sql_plan.specs.Tests.{joined, summed, contents_of, calculates};

use row_types::List;
use sql_value::Expr;

/// Whether an expression names a column, and whether it calculates with one.
#[derive(Clone, Copy)]
pub(crate) struct Contents {
    columns: bool,
    sums: bool,
}

/// Whether a condition, if there is one, calculates with a column.
pub(crate) fn calculates(condition: Option<&Expr>) -> bool
    ensures { result ≡ calculates (option_copied condition.entry) }
{
    match condition {
        None => false,
        Some(expr) => contents_of(expr).sums,
    }
}

/// What an expression holds.
///
/// It goes down by calls of itself, as deep as the expression is.
#[cycle(contents)]
fn contents_of(expr: &Expr) -> Contents
    ensures { result ≡ contents_of expr.now }
{
    match expr {
        Expr::Literal(_) => Contents {
            columns: false,
            sums: false,
        },
        Expr::Column(_) => Contents {
            columns: true,
            sums: false,
        },
        Expr::Negate(a) => summed(contents_of(a.get())),
        Expr::Arith(_, a, b) => summed(joined(contents_of(a.get()), contents_of(b.get()))),
        Expr::Compare(_, a, b) => joined(contents_of(a.get()), contents_of(b.get())),
        Expr::IsNull(a) => contents_of(a.get()),
        Expr::InList(a, all) => listed(contents_of(a.get()), all),
        Expr::Not(a) => contents_of(a.get()),
        Expr::And(a, b) => joined(contents_of(a.get()), contents_of(b.get())),
        Expr::Or(a, b) => joined(contents_of(a.get()), contents_of(b.get())),
    }
}

/// What an expression and those of a list hold.
#[cycle(contents)]
fn listed(a: Contents, all: &List<Expr>) -> Contents
    ensures { result ≡ fold joined a (map contents_of all.now) }
{
    let mut found = a;
    for expr in all.as_slice() {
        found = joined(found, contents_of(expr));
    }
    found
}

fn joined(a: Contents, b: Contents) -> Contents
    ensures { result ≡ joined a b }
{
    Contents {
        columns: a.columns || b.columns,
        sums: a.sums || b.sums,
    }
}

fn summed(a: Contents) -> Contents
    ensures { result ≡ summed a }
{
    Contents {
        columns: a.columns,
        sums: a.columns || a.sums,
    }
}
