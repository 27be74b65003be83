//! Comparisons, and the logic of what they are worth.
ghost use Rattle.std.specs.Prelude.{◌≡◌};
ghost use Rattle.sql_value.specs.declared.worth.Evaluated.TheVariants.{Truth as TruthOf};
ghost use Rattle.sql_value.specs.Logic.{truth_of, meets};
ghost use Rattle.sql_value.specs.Worth.{evaluated, null_test, opposite, both, either, compared};

use crate::truths::Truth;
use crate::worth::Worth;
use request_types::FilterOp;
use std::cmp::Ordering;

/// How two values stand to each other.
pub(crate) fn compared<'a>(op: FilterOp, a: Worth<'a>, b: Worth<'a>) -> Worth<'a>
    ensures { evaluated result ≡ compared op (evaluated a.entry) (evaluated b.entry) }
{
    match (a, b) {
        (Worth::Overflow | Worth::Truth(_), _) | (_, Worth::Overflow | Worth::Truth(_)) => {
            Worth::Overflow
        }
        (Worth::Null, _) | (_, Worth::Null) => Worth::Truth(Truth::Unknown),
        (Worth::Int(a), Worth::Int(b)) => ordered(op, a.cmp(&b)),
        (Worth::Int(_), Worth::Text(_)) => ordered(op, Ordering::Less),
        (Worth::Text(_), Worth::Int(_)) => ordered(op, Ordering::Greater),
        (Worth::Text(a), Worth::Text(b)) => ordered(op, a.cmp(b)),
    }
}

// Whether two values in this order stand so to each other.
fn ordered<'a>(op: FilterOp, order: Ordering) -> Worth<'a>
    ensures { evaluated result ≡ TruthOf (truth_of (meets op order)) }
{
    Worth::Truth(Truth::of(meets(op, order)))
}

fn meets(op: FilterOp, order: Ordering) -> bool
    ensures { result ≡ meets op order }
{
    match op {
        FilterOp::Equal => order.is_eq(),
        FilterOp::NotEqual => order.is_ne(),
        FilterOp::Greater => order.is_gt(),
        FilterOp::GreaterEqual => order.is_ge(),
        FilterOp::Less => order.is_lt(),
        FilterOp::LessEqual => order.is_le(),
    }
}

/// Whether a value is NULL.
pub(crate) fn null_test<'a>(a: Worth<'a>) -> Worth<'a>
    ensures { evaluated result ≡ null_test (evaluated a.entry) }
{
    match a {
        Worth::Null => Worth::Truth(Truth::Yes),
        Worth::Int(_) | Worth::Text(_) => Worth::Truth(Truth::No),
        _ => Worth::Overflow,
    }
}

/// NOT.
pub(crate) fn opposite<'a>(a: Worth<'a>) -> Worth<'a>
    ensures { evaluated result ≡ opposite (evaluated a.entry) }
{
    match a {
        Worth::Truth(truth) => Worth::Truth(truth.negated()),
        _ => Worth::Overflow,
    }
}

/// AND.
pub(crate) fn both<'a>(a: Worth<'a>, b: Worth<'a>) -> Worth<'a>
    ensures { evaluated result ≡ both (evaluated a.entry) (evaluated b.entry) }
{
    match (a, b) {
        (Worth::Truth(a), Worth::Truth(b)) => Worth::Truth(a.and(b)),
        (_, _) => Worth::Overflow,
    }
}

/// OR.
pub(crate) fn either<'a>(a: Worth<'a>, b: Worth<'a>) -> Worth<'a>
    ensures { evaluated result ≡ either (evaluated a.entry) (evaluated b.entry) }
{
    match (a, b) {
        (Worth::Truth(a), Worth::Truth(b)) => Worth::Truth(a.or(b)),
        (_, _) => Worth::Overflow,
    }
}
