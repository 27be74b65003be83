//! What sort of thing an expression gives, whatever the row.
ghost use Rattle.std.specs.Prelude.{◌≡◌, map};
ghost use Rattle.sql_value.specs.Kinds.{kind_of_value, kind_of_cells, kind_at, numeric, alike, logical, listed, kind_of};

use crate::exprs::Expr;
use row_types::{Column, Kind, List, Value};

/// What an expression gives. NULL alone goes with numbers and with texts.
#[derive(Clone, Copy, Debug, PartialEq, Eq)]
pub enum ExprKind {
    Condition,
    Number,
    Text,
    Null,
}

/// What the expression gives on rows of these columns; nothing, where an operand is of another kind
/// than its operation asks for, or a column isn't there.
///
/// It goes down by calls of itself, as deep as the expression is.
#[cycle(kind)]
pub fn kind_of(columns: &[Column], expr: &Expr) -> Option<ExprKind>
    ensures { result ≡ kind_of columns.now expr.now }
{
    match expr {
        Expr::Literal(value) => Some(kind_of_value(value)),
        Expr::Column(place) => kind_at(columns, *place),
        Expr::Negate(a) => {
            let a = kind_of(columns, a.get());
            numeric(a, a)
        }
        Expr::Arith(_, a, b) => numeric(kind_of(columns, a.get()), kind_of(columns, b.get())),
        Expr::Compare(_, a, b) => alike(kind_of(columns, a.get()), kind_of(columns, b.get())),
        Expr::IsNull(a) => {
            let a = kind_of(columns, a.get());
            alike(a, a)
        }
        Expr::InList(a, all) => listed(columns, kind_of(columns, a.get()), all),
        Expr::Not(a) => {
            let a = kind_of(columns, a.get());
            logical(a, a)
        }
        Expr::And(a, b) | Expr::Or(a, b) => {
            logical(kind_of(columns, a.get()), kind_of(columns, b.get()))
        }
    }
}

/// A condition, where each listed value goes with this one.
#[cycle(kind)]
fn listed(columns: &[Column], a: Option<ExprKind>, all: &List<Expr>) -> Option<ExprKind>
    ensures { result ≡ listed a (map (kind_of columns.now) all.now) }
{
    let mut kind = alike(a, a);
    for expr in all.as_slice() {
        kind = logical(kind, alike(a, kind_of(columns, expr)));
    }
    kind
}

fn kind_of_value(value: &Value) -> ExprKind
    ensures { result ≡ kind_of_value value.now }
{
    match value {
        Value::Null => ExprKind::Null,
        Value::Int(_) => ExprKind::Number,
        Value::Text(_) => ExprKind::Text,
    }
}

// What a column's cells are.
fn kind_at(columns: &[Column], place: u32) -> Option<ExprKind>
    ensures { result ≡ kind_at columns.now place }
{
    match columns.get(place as usize) {
        None => None,
        Some(column) => Some(kind_of_cells(column.kind)),
    }
}

fn kind_of_cells(kind: Kind) -> ExprKind
    ensures { result ≡ kind_of_cells kind }
{
    match kind {
        Kind::Int => ExprKind::Number,
        Kind::Bytes(_) => ExprKind::Text,
    }
}

// A number, made of two.
fn numeric(a: Option<ExprKind>, b: Option<ExprKind>) -> Option<ExprKind>
    ensures { result ≡ numeric a b }
{
    match (a, b) {
        (Some(ExprKind::Number | ExprKind::Null), Some(ExprKind::Number | ExprKind::Null)) => Some(
            ExprKind::Number,
        ),
        (_, _) => None,
    }
}

// A condition, made of two values of one kind.
fn alike(a: Option<ExprKind>, b: Option<ExprKind>) -> Option<ExprKind>
    ensures { result ≡ alike a b }
{
    match (a, b) {
        (Some(ExprKind::Number), Some(ExprKind::Number | ExprKind::Null))
        | (Some(ExprKind::Text), Some(ExprKind::Text | ExprKind::Null))
        | (Some(ExprKind::Null), Some(ExprKind::Number | ExprKind::Text | ExprKind::Null)) => {
            Some(ExprKind::Condition)
        }
        (_, _) => None,
    }
}

// A condition, made of two.
fn logical(a: Option<ExprKind>, b: Option<ExprKind>) -> Option<ExprKind>
    ensures { result ≡ logical a b }
{
    match (a, b) {
        (Some(ExprKind::Condition), Some(ExprKind::Condition)) => Some(ExprKind::Condition),
        (_, _) => None,
    }
}
