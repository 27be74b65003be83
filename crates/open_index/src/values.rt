//! The values that tokens write for columns.
ghost use Rattle.std.specs.Prelude.{◌≡◌, ◌≤◌, length, IfOk};
ghost use Rattle.request_types.specs.Refusal.{Gives};
ghost use Rattle.open_index.specs.Values.{value_of, values_of, values_in, delta_of, deltas_of};

use crate::handles::OpenColumn;
use crate::tokens::i64_at;
use hs_token::{Token, parse_i64};
use request_types::{Code, Fault};
use row_types::{ByteText, Kind, List, Value};
use std::alloc::Global;

/// A value for a column of this kind. A text may be longer than its column.
#[tactic(auto, unfolding(crate::specs::Values::value_of))]
pub(crate) fn value_of(alloc: Global, kind: Kind, token: &Token) -> Result<Value, Fault>
    ensures { Gives (λ value. value) result (value_of kind token.now) }
{
    match (token, kind) {
        (Token::Null, _) => Ok(Value::Null),
        (Token::Text(text), Kind::Int) => match parse_i64(text.as_slice()) {
            None => Err(Fault::Refused(Code::Value)),
            Some(number) => Ok(Value::Int(number)),
        },
        (Token::Text(text), Kind::Bytes(_)) => {
            Ok(Value::Text(ByteText::of(alloc, text.as_slice())?))
        }
    }
}

/// Values for the first columns, by place.
#[tactic(auto, unfolding(crate::specs::Values::values_of))]
pub(crate) fn values_of(
    alloc: Global,
    columns: &[OpenColumn],
    tokens: &[Token],
) -> Result<List<Value>, Fault>
    requires { length tokens.now ≤ length columns.now }
    ensures gives { Gives (λ values. values) result (values_of columns.now tokens.now) }
    ensures count { IfOk result (λ values. length values ≡ length tokens.now) }
{
    let mut values = Vec::with_capacity(alloc, tokens.len())?;
    for (place, token) in tokens.iter().enumerate() {
        values.push(value_of(alloc, columns[place].kind, token)?)?;
    }
    Ok(List::of_vec(values))
}

/// Values of one kind.
#[tactic(auto, unfolding(crate::specs::Values::values_in))]
pub(crate) fn values_in(alloc: Global, kind: Kind, tokens: &[Token]) -> Result<List<Value>, Fault>
    ensures { Gives (λ values. values) result (values_in kind tokens.now) }
{
    let mut values = Vec::with_capacity(alloc, tokens.len())?;
    for token in tokens {
        values.push(value_of(alloc, kind, token)?)?;
    }
    Ok(List::of_vec(values))
}

/// What is added to a column of this kind, or taken off.
#[tactic(auto, unfolding(crate::specs::Values::delta_of))]
fn delta_of(kind: Kind, token: &Token) -> Result<Value, Fault>
    ensures { Gives (λ value. value) result (delta_of kind token.now) }
{
    match kind {
        Kind::Bytes(_) => Err(Fault::Refused(Code::Mod)),
        Kind::Int => match i64_at(token) {
            None => Err(Fault::Refused(Code::Value)),
            Some(number) => Ok(Value::Int(number)),
        },
    }
}

/// What is added to the first columns, by place, or taken off.
#[tactic(auto, unfolding(crate::specs::Values::deltas_of))]
pub(crate) fn deltas_of(
    alloc: Global,
    columns: &[OpenColumn],
    tokens: &[Token],
) -> Result<List<Value>, Fault>
    requires { length tokens.now ≤ length columns.now }
    ensures { Gives (λ values. values) result (deltas_of columns.now tokens.now) }
{
    let mut values = Vec::with_capacity(alloc, tokens.len())?;
    for (place, token) in tokens.iter().enumerate() {
        values.push(delta_of(columns[place].kind, token)?)?;
    }
    Ok(List::of_vec(values))
}
