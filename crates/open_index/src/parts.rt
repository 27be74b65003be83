//! The parts of a find, from left to right: the key, LIM, IN and the filters.
ghost use Rattle.std.specs.Prelude.{◌≡◌, ◌≤◌, length, IfOk, option_map};
ghost use Rattle.request_types.specs.Refusal.{Gives};
ghost use Rattle.open_index.specs.Find.{count_at, key_at, limit_at, part_at, list_len_at, list_at, within_at, is_filter, filter_op, filter_of, filter_at, next_filter, filters_at};

use crate::handles::OpenColumn;
use crate::tokens::{front_at, is_word, number_at, u32_at};
use crate::values::{value_of, values_in, values_of};
use hs_token::Token;
use request_types::{Code, Fault, FilterOp, FilterSpec, FindOp, InSpec};
use row_types::{List, RowKey};
use std::alloc::Global;

/// The number of values for these columns, and what follows it.
#[tactic(auto, unfolding(crate::specs::Find::count_at))]
pub(crate) fn count_at<'t>(
    columns: &[OpenColumn],
    tokens: &'t [Token],
) -> Result<(u32, &'t [Token]), Fault>
    ensures gives { Gives (λ x. (x.0, x.1.now)) result (count_at columns.now tokens.now) }
    ensures within { IfOk result (λ x. x.0 ≤ length columns.now) }
{
    let (count, rest) = number_at(tokens)?;
    if count == 0 || columns.len() < count as usize {
        return Err(Fault::Refused(Code::Vlen));
    }
    Ok((count, rest))
}

/// The key, and what follows it.
#[tactic(auto, unfolding(crate::specs::Find::key_at))]
pub(crate) fn key_at<'t>(
    alloc: Global,
    parts: &[OpenColumn],
    tokens: &'t [Token],
) -> Result<(RowKey, &'t [Token]), Fault>
    ensures gives { Gives (λ x. (x.0, x.1.now)) result (key_at parts.now tokens.now) }
    ensures within { IfOk result (λ x. length x.0 ≤ length parts.now) }
{
    let (count, rest) = count_at(parts, tokens)?;
    let (values, rest) = front_at(count, rest)?;
    let key = values_of(alloc, parts, values)?;
    Ok((key, rest))
}

/// LIM, or one row from the first on, and what follows it.
#[tactic(auto, unfolding(crate::specs::Find::limit_at))]
pub(crate) fn limit_at(tokens: &[Token]) -> Result<((u32, u32), &[Token]), Fault>
    ensures { Gives (λ x. (x.0, x.1.now)) result (limit_at tokens.now) }
{
    let [token, rest @ ..] = tokens else {
        return Ok(((1, 0), tokens));
    };
    let Some(limit) = u32_at(token) else {
        return Ok(((1, 0), tokens));
    };
    let (offset, rest) = number_at(rest)?;
    Ok(((limit, offset), rest))
}

/// The part of the key at this place, if a list of values may stand for it.
#[tactic(auto, unfolding(crate::specs::Find::part_at))]
fn part_at(op: FindOp, key_parts: &[OpenColumn], place: u32) -> Result<OpenColumn, Fault>
    ensures { Gives (λ part. part) result (part_at op key_parts.now place) }
{
    if op != FindOp::Equal {
        return Err(Fault::Refused(Code::In));
    }
    match key_parts.get(place as usize) {
        None => Err(Fault::Refused(Code::In)),
        Some(part) => Ok(*part),
    }
}

/// The number of listed values, and what follows it.
#[tactic(auto, unfolding(crate::specs::Find::list_len_at))]
fn list_len_at(tokens: &[Token]) -> Result<(u32, &[Token]), Fault>
    ensures { Gives (λ x. (x.0, x.1.now)) result (list_len_at tokens.now) }
{
    let (count, rest) = number_at(tokens)?;
    if count == 0 {
        return Err(Fault::Refused(Code::In));
    }
    Ok((count, rest))
}

/// IN behind its first token, and what follows it.
#[tactic(auto, unfolding(crate::specs::Find::list_at))]
fn list_at<'t>(
    alloc: Global,
    op: FindOp,
    key_parts: &[OpenColumn],
    tokens: &'t [Token],
) -> Result<(InSpec, &'t [Token]), Fault>
    ensures { Gives (λ x. (x.0, x.1.now)) result (list_at op key_parts.now tokens.now) }
{
    let (place, rest) = number_at(tokens)?;
    let part = part_at(op, key_parts, place)?;
    let (count, rest) = list_len_at(rest)?;
    let (listed, rest) = front_at(count, rest)?;
    let values = values_in(alloc, part.kind, listed)?;
    let within = InSpec {
        part: place,
        values,
    };
    Ok((within, rest))
}

/// IN, where the next token begins one, and what follows it.
#[tactic(auto, unfolding(crate::specs::Find::within_at))]
pub(crate) fn within_at<'t>(
    alloc: Global,
    op: FindOp,
    key_parts: &[OpenColumn],
    tokens: &'t [Token],
) -> Result<(Option<InSpec>, &'t [Token]), Fault>
    ensures { Gives (λ x. (x.0, x.1.now)) result (within_at op key_parts.now tokens.now) }
{
    let [token, rest @ ..] = tokens else {
        return Ok((None, tokens));
    };
    if !is_word(token, b"@") {
        return Ok((None, tokens));
    }
    let (within, rest) = list_at(alloc, op, key_parts, rest)?;
    Ok((Some(within), rest))
}

fn is_filter(token: &Token) -> bool
    ensures { result ≡ is_filter token.now }
{
    is_word(token, b"F") || is_word(token, b"W")
}

fn filter_op(token: &Token) -> Option<FilterOp>
    ensures { result ≡ filter_op token.now }
{
    if is_word(token, b"=") {
        Some(FilterOp::Equal)
    } else if is_word(token, b"!=") {
        Some(FilterOp::NotEqual)
    } else if is_word(token, b">") {
        Some(FilterOp::Greater)
    } else if is_word(token, b">=") {
        Some(FilterOp::GreaterEqual)
    } else if is_word(token, b"<") {
        Some(FilterOp::Less)
    } else if is_word(token, b"<=") {
        Some(FilterOp::LessEqual)
    } else {
        None
    }
}

/// The filter that its operator, the place of its column and its value make.
#[tactic(auto, unfolding(crate::specs::Find::filter_of))]
fn filter_of(
    alloc: Global,
    columns: &[OpenColumn],
    stop: bool,
    op: &Token,
    place: &Token,
    value: &Token,
) -> Result<FilterSpec, Fault>
    ensures { Gives (λ filter. filter) result
        (filter_of columns.now stop op.now place.now value.now) }
{
    let Some(op) = filter_op(op) else {
        return Err(Fault::Refused(Code::Filter));
    };
    let Some(place) = u32_at(place) else {
        return Err(Fault::Refused(Code::Args));
    };
    let Some(column) = columns.get(place as usize) else {
        return Err(Fault::Refused(Code::Filter));
    };
    let value = value_of(alloc, column.kind, value)?;
    Ok(FilterSpec {
        stop,
        op,
        column: column.number,
        value,
    })
}

/// A filter behind its first token, and what follows it.
#[tactic(auto, unfolding(crate::specs::Find::filter_at))]
fn filter_at<'t>(
    alloc: Global,
    columns: &[OpenColumn],
    stop: bool,
    tokens: &'t [Token],
) -> Result<(FilterSpec, &'t [Token]), Fault>
    ensures { Gives (λ x. (x.0, x.1.now)) result (filter_at columns.now stop tokens.now) }
{
    let [op, place, value, rest @ ..] = tokens else {
        return Err(Fault::Refused(Code::Args));
    };
    let filter = filter_of(alloc, columns, stop, op, place, value)?;
    Ok((filter, rest))
}

/// The next filter and what follows it, where the next token begins one.
#[tactic(auto, unfolding(crate::specs::Find::next_filter))]
fn next_filter<'t>(
    alloc: Global,
    columns: &[OpenColumn],
    tokens: &'t [Token],
) -> Result<Option<(FilterSpec, &'t [Token])>, Fault>
    ensures { Gives (option_map (λ x. (x.0, x.1.now))) result (next_filter columns.now tokens.now) }
{
    let [token, rest @ ..] = tokens else {
        return Ok(None);
    };
    if !is_filter(token) {
        return Ok(None);
    }
    let found = filter_at(alloc, columns, is_word(token, b"W"), rest)?;
    Ok(Some(found))
}

/// Filters, as long as the next token begins one, and what follows them.
pub(crate) fn filters_at<'t>(
    alloc: Global,
    columns: &[OpenColumn],
    tokens: &'t [Token],
) -> Result<(List<FilterSpec>, &'t [Token]), Fault>
    ensures { Gives (λ x. (x.0, x.1.now)) result
        (filters_at (length tokens.now) columns.now tokens.now) }
{
    let mut filters = Vec::new(alloc);
    let mut rest = tokens;
    // There are no more filters than tokens.
    for _ in 0..tokens.len() {
        let Some((filter, behind)) = next_filter(alloc, columns, rest)? else {
            break;
        };
        filters.push(filter)?;
        rest = behind;
    }
    Ok((List::of_vec(filters), rest))
}
