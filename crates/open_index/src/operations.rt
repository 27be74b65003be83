//! Finds and inserts on an open id.
ghost use Rattle.std.specs.Prelude.{◌≡◌, IfOk, length};
ghost use Rattle.request_types.specs.Refusal.{Gives};
ghost use Rattle.open_index.specs.Find.{numbers, asked, find_op, find_of};
ghost use Rattle.open_index.specs.Insert.{rest_of, insert_of};
ghost use Rattle.open_index.specs.Line.{operation_of, request_of};

use crate::changes::{is_reading, mod_of};
use crate::handles::{Handle, Handles, OpenColumn};
use crate::parts::{count_at, filters_at, key_at, limit_at, within_at};
use crate::tokens::is_word;
use crate::values::values_of;
use hs_token::Token;
use request_types::{Code, Fault, FindOp, FindSpec, InsertSpec, ModSpec, Port, Request};
use row_types::List;
use std::alloc::{AllocError, Global};

/// The numbers of columns.
fn numbers(alloc: Global, columns: &[OpenColumn]) -> Result<List<u32>, AllocError>
    ensures { IfOk result (λ listed. listed ≡ numbers columns.now) }
{
    let listed = columns.iter().map(|column| column.number).collect(alloc)?;
    Ok(List::of_vec(listed))
}

fn find_op(token: &Token) -> Option<FindOp>
    ensures { result ≡ find_op token.now }
{
    if is_word(token, b"=") {
        Some(FindOp::Equal)
    } else if is_word(token, b">") {
        Some(FindOp::Greater)
    } else if is_word(token, b">=") {
        Some(FindOp::GreaterEqual)
    } else if is_word(token, b"<") {
        Some(FindOp::Less)
    } else if is_word(token, b"<=") {
        Some(FindOp::LessEqual)
    } else {
        None
    }
}

fn asked(find: FindSpec, change: Option<ModSpec>) -> Request
    ensures { result ≡ asked find change }
{
    match change {
        None => Request::Find(find),
        Some(change) => Request::Modify(find, change),
    }
}

/// A find, or a change of the rows that it selects, behind its operator.
#[tactic(auto, unfolding(crate::specs::Find::find_of))]
fn find_of(
    alloc: Global,
    port: Port,
    handle: &Handle,
    op: FindOp,
    tokens: &[Token],
) -> Result<Request, Fault>
    ensures { Gives (λ request. request) result (find_of port handle.now op tokens.now) }
{
    let parts = handle.parts.as_slice();
    let columns = handle.columns.as_slice();
    let (key, rest) = key_at(alloc, parts, tokens)?;
    let ((limit, offset), rest) = limit_at(rest)?;
    let key_parts = &parts[..key.as_slice().len()];
    let (within, rest) = within_at(alloc, op, key_parts, rest)?;
    let (filters, rest) = filters_at(alloc, handle.filter_columns.as_slice(), rest)?;
    let change = mod_of(alloc, port, columns, rest)?;
    let find = FindSpec {
        table: handle.table,
        index: handle.index,
        op,
        key,
        within,
        limit,
        offset,
        filters,
        columns: numbers(alloc, columns)?,
    };
    Ok(asked(find, change))
}

/// The tokens, which are as many as this.
#[tactic(auto, unfolding(crate::specs::Insert::rest_of))]
fn rest_of(tokens: &[Token], count: u32) -> Result<&[Token], Fault>
    ensures gives { Gives (λ x. x.now) result (rest_of tokens.now count) }
    ensures count { IfOk result (λ x. length x.now ≡ count) }
{
    if tokens.len() != count as usize {
        return Err(Fault::Refused(Code::Args));
    }
    Ok(tokens)
}

/// An insert behind its operator.
#[tactic(auto, unfolding(crate::specs::Insert::insert_of))]
fn insert_of(alloc: Global, port: Port, handle: &Handle, tokens: &[Token]) -> Result<Request, Fault>
    ensures { Gives (λ request. request) result (insert_of port handle.now tokens.now) }
{
    if is_reading(port) {
        return Err(Fault::Refused(Code::ReadOnly));
    }
    let columns = handle.columns.as_slice();
    let (count, rest) = count_at(columns, tokens)?;
    let tokens = rest_of(rest, count)?;
    let values = values_of(alloc, columns, tokens)?;
    let columns = numbers(alloc, &columns[..count as usize])?;
    Ok(Request::Insert(InsertSpec {
        table: handle.table,
        columns,
        values,
    }))
}

/// What is asked of what the id stands for, behind the operator.
#[tactic(auto, unfolding(crate::specs::Line::operation_of))]
fn operation_of(
    alloc: Global,
    port: Port,
    handle: &Handle,
    op: &Token,
    tokens: &[Token],
) -> Result<Request, Fault>
    ensures { Gives (λ request. request) result (operation_of port handle.now op.now tokens.now) }
{
    if is_word(op, b"+") {
        return insert_of(alloc, port, handle, tokens);
    }
    let Some(op) = find_op(op) else {
        return Err(Fault::Refused(Code::Op));
    };
    find_of(alloc, port, handle, op, tokens)
}

/// What is asked of an id, behind it.
#[tactic(auto, unfolding(crate::specs::Line::request_of))]
pub(crate) fn request_of(
    alloc: Global,
    port: Port,
    handles: &Handles,
    id: u32,
    tokens: &[Token],
) -> Result<Request, Fault>
    ensures { Gives (λ request. request) result (request_of port handles.now id tokens.now) }
{
    let [op, rest @ ..] = tokens else {
        return Err(Fault::Refused(Code::Args));
    };
    let Some(handle) = handles.get(id) else {
        return Err(Fault::Refused(Code::NoIndex));
    };
    operation_of(alloc, port, handle, op, rest)
}
