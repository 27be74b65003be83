//! Numbers of expressions.
ghost use Rattle.std.specs.Prelude.{◌≡◌};
ghost use Rattle.sql_value.specs.Worth.{evaluated, bounded, negated, result_of, combined};

use crate::exprs::ArithOp;
use crate::worth::Worth;

/// The number with the other sign.
pub(crate) fn negated<'a>(a: Worth<'a>) -> Worth<'a>
    ensures { evaluated result ≡ negated (evaluated a.entry) }
{
    match a {
        Worth::Null => Worth::Null,
        Worth::Int(number) => match number.checked_neg() {
            None => Worth::Overflow,
            Some(negative) => Worth::Int(negative),
        },
        _ => Worth::Overflow,
    }
}

/// The sum, difference or product.
pub(crate) fn combined<'a>(op: ArithOp, a: Worth<'a>, b: Worth<'a>) -> Worth<'a>
    ensures { evaluated result ≡ combined op (evaluated a.entry) (evaluated b.entry) }
{
    match (a, b) {
        (Worth::Int(a), Worth::Int(b)) => result_of(op, a, b),
        (Worth::Null, Worth::Int(_) | Worth::Null) | (Worth::Int(_), Worth::Null) => Worth::Null,
        (_, _) => Worth::Overflow,
    }
}

// What the operation makes of two numbers.
fn result_of<'a>(op: ArithOp, a: i64, b: i64) -> Worth<'a>
    ensures { evaluated result ≡ bounded (result_of op a b) }
{
    let number = match op {
        ArithOp::Sum => a.checked_add(b),
        ArithOp::Difference => a.checked_sub(b),
        ArithOp::Product => a.checked_mul(b),
    };
    match number {
        None => Worth::Overflow,
        Some(number) => Worth::Int(number),
    }
}
