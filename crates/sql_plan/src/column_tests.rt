//! The tests of a column among the operands of a condition's outermost ANDs.
ghost use Rattle.std.specs.Prelude.{◌≡◌, option_map, option_copied};
ghost use Rattle.std.specs.Option.{option_to_list};
ghost use Rattle.sql_plan.specs.Tests.{seen, piece_of, tests_of, first_test, compared_in, beside, literal_of, turned, is_wanted};

use request_types::FilterOp;
use row_types::Value;
use sql_value::Expr;

/// A column that stands so to a literal, which isn't NULL.
#[derive(Clone, Copy)]
pub(crate) struct Test<'a> {
    pub(crate) column: u32,
    pub(crate) op: FilterOp,
    pub(crate) value: &'a Value,
}

/// Which tests are looked for: those by `=`, or those by `<`, `<=`, `>` and `>=`.
#[derive(Clone, Copy)]
pub(crate) enum Wanted {
    Equal,
    Bound,
}

/// The first such test of a column.
pub(crate) fn first_test<'a>(what: Wanted, column: u32, condition: &'a Expr) -> Option<Test<'a>>
    ensures { option_map seen result ≡ first_test what column (tests_of condition.now) }
{
    match condition {
        Expr::And(a, b) => match first_test(what, column, a.get()) {
            None => first_test(what, column, b.get()),
            Some(test) => Some(test),
        },
        Expr::Compare(op, a, b) => test_on(what, column, *op, a.get(), b.get()),
        Expr::Literal(_)
        | Expr::Column(_)
        | Expr::Negate(_)
        | Expr::Arith(_, _, _)
        | Expr::IsNull(_)
        | Expr::InList(_, _)
        | Expr::Not(_)
        | Expr::Or(_, _) => None,
    }
}

// The test that a comparison is, if it is such a one of the column.
fn test_on<'a>(
    what: Wanted,
    column: u32,
    op: FilterOp,
    a: &'a Expr,
    b: &'a Expr,
) -> Option<Test<'a>>
    ensures { option_map seen result
        ≡ first_test what column (compared_in op (piece_of a.now) (piece_of b.now)) }
{
    let test = compared_in(op, a, b)?;
    if test.column == column && is_wanted(what, test.op) {
        Some(test)
    } else {
        None
    }
}

// The test that a comparison is, if a column stands on one side and a literal on the other.
fn compared_in<'a>(op: FilterOp, a: &'a Expr, b: &'a Expr) -> Option<Test<'a>>
    ensures { option_to_list (option_map seen result)
        ≡ compared_in op (piece_of a.now) (piece_of b.now) }
{
    match beside(op, a, b) {
        None => beside(turned(op), b, a),
        Some(test) => Some(test),
    }
}

// The test that a column beside a literal is.
fn beside<'a>(op: FilterOp, a: &'a Expr, b: &'a Expr) -> Option<Test<'a>>
    ensures { option_to_list (option_map seen result)
        ≡ beside op (piece_of a.now).column (piece_of b.now).literal }
{
    let column = column_in(a)?;
    let value = literal_in(b)?;
    Some(Test { column, op, value })
}

// The column that an expression is.
fn column_in(expr: &Expr) -> Option<u32>
    ensures { result ≡ (piece_of expr.now).column }
{
    match expr {
        Expr::Column(place) => Some(*place),
        Expr::Literal(_)
        | Expr::Negate(_)
        | Expr::Arith(_, _, _)
        | Expr::Compare(_, _, _)
        | Expr::IsNull(_)
        | Expr::InList(_, _)
        | Expr::Not(_)
        | Expr::And(_, _)
        | Expr::Or(_, _) => None,
    }
}

// The literal that an expression is, but for NULL.
fn literal_in(expr: &Expr) -> Option<&Value>
    ensures { option_copied result ≡ (piece_of expr.now).literal }
{
    match expr {
        Expr::Literal(value) => known(value),
        Expr::Column(_)
        | Expr::Negate(_)
        | Expr::Arith(_, _, _)
        | Expr::Compare(_, _, _)
        | Expr::IsNull(_)
        | Expr::InList(_, _)
        | Expr::Not(_)
        | Expr::And(_, _)
        | Expr::Or(_, _) => None,
    }
}

// A value, but for NULL.
fn known(value: &Value) -> Option<&Value>
    ensures { option_copied result ≡ literal_of value.now }
{
    match value {
        Value::Null => None,
        Value::Int(_) | Value::Text(_) => Some(value),
    }
}

// A comparison, seen from its other side.
fn turned(op: FilterOp) -> FilterOp
    ensures { result ≡ turned op }
{
    match op {
        FilterOp::Equal => FilterOp::Equal,
        FilterOp::NotEqual => FilterOp::NotEqual,
        FilterOp::Greater => FilterOp::Less,
        FilterOp::GreaterEqual => FilterOp::LessEqual,
        FilterOp::Less => FilterOp::Greater,
        FilterOp::LessEqual => FilterOp::GreaterEqual,
    }
}

// Whether a test settles its column, or bounds it on one side.
fn is_wanted(what: Wanted, op: FilterOp) -> bool
    ensures { result ≡ is_wanted what op }
{
    match (what, op) {
        (Wanted::Equal, FilterOp::Equal) => true,
        (
            Wanted::Bound,
            FilterOp::Greater | FilterOp::GreaterEqual | FilterOp::Less | FilterOp::LessEqual,
        ) => true,
        (_, _) => false,
    }
}
