//! Opening an index: its names, and the columns that lists name.
ghost use Rattle.std.specs.Prelude.{◌≡◌, ◌<◌, ◌^◌, length, map, IfOk, IfSome, option_map, ◌==◌};
ghost use Rattle.std.specs.List.{All};
ghost use Rattle.request_types.specs.Refusal.{Gives};
ghost use Rattle.open_index.specs.Open.{IsNumbered, IsTableNumbered, table_at, index_at, column_at, names_of, is_listed, column_onto, columns_onto, columns_of, filter_columns_of, lists_of, part_of, handle_of, has_room, open_of};

use crate::handles::{Handle, Handles, MOST_OPEN, OpenColumn};
use crate::tokens::u32_at;
use hs_token::Token;
use request_types::{Code, Fault, column_named, index_named, table_named};
use row_types::{Column, IndexDef, Kind, List, Schema, TableDef};
use std::alloc::{AllocError, Global};

/// The first table with these names, and its number.
fn table_at<'s>(tables: &'s [TableDef], db: &Token, name: &Token) -> Option<(u32, &'s TableDef)>
    requires few { length tables.now < 2 ^ 32 }
    requires each { All IsTableNumbered tables.now }
    ensures first { option_map (λ x. (x.0, x.1.now)) result ≡ table_at tables.now db.now name.now }
    ensures numbered { IfSome result (λ x. IsTableNumbered x.1.now) }
{
    let (Token::Text(db), Token::Text(name)) = (db, name) else {
        return None;
    };
    let number = table_named(tables, db.as_slice(), name.as_slice())?;
    Some((number, &tables[number as usize]))
}

/// The first index of this name, and its number.
fn index_at<'s>(indexes: &'s [IndexDef], name: &Token) -> Option<(u32, &'s IndexDef)>
    requires { length indexes.now < 2 ^ 32 }
    ensures { option_map (λ x. (x.0, x.1.now)) result ≡ index_at indexes.now name.now }
{
    let Token::Text(name) = name else {
        return None;
    };
    let number = index_named(indexes, name.as_slice())?;
    Some((number, &indexes[number as usize]))
}

/// The first column of this name.
fn column_at(columns: &[Column], name: &[u8]) -> Option<OpenColumn>
    requires { length columns.now < 2 ^ 32 }
    ensures { result ≡ column_at columns.now name.now }
{
    let number = column_named(columns, name)?;
    let kind = columns[number as usize].kind;
    Some(OpenColumn { number, kind })
}

/// The names between the commas of a text, and none of the empty text.
fn names_of(alloc: Global, text: &[u8]) -> Result<Vec<&[u8]>, AllocError>
    ensures { IfOk result (λ names. map (λ name. name.now) names.items ≡ names_of text.now) }
{
    if text.is_empty() {
        return Ok(Vec::new(alloc));
    }
    text.split(|byte| *byte == b',').collect(alloc)
}

/// Whether the column with this number is among those that were found.
fn is_listed(found: &[OpenColumn], number: u32) -> bool
    ensures { result ≡ is_listed found.now number }
{
    found.iter().any(|column| column.number == number)
}

/// Puts the column of this name behind those that were found.
#[tactic(auto, unfolding(crate::specs::Open::column_onto))]
fn column_onto(columns: &[Column], found: &mut Vec<OpenColumn>, name: &[u8]) -> Result<(), Fault>
    requires { length columns.now < 2 ^ 32 }
    ensures { Gives (λ _. found.new.items) result
        (column_onto columns.now found.old.items name.now) }
{
    let Some(column) = column_at(columns, name) else {
        return Err(Fault::Refused(Code::Column));
    };
    if is_listed(found, column.number) {
        return Err(Fault::Refused(Code::Column));
    }
    found.push(column)?;
    Ok(())
}

/// Puts the columns of these names behind those that were found.
fn columns_onto(
    columns: &[Column],
    found: &mut Vec<OpenColumn>,
    names: &[&[u8]],
) -> Result<(), Fault>
    requires { length columns.now < 2 ^ 32 }
    ensures { Gives (λ _. found.new.items) result
        (columns_onto columns.now found.old.items (map (λ name. name.now) names.now)) }
{
    for name in names {
        column_onto(columns, found, name)?;
    }
    Ok(())
}

/// The columns that a list of names names.
#[tactic(auto, unfolding(crate::specs::Open::columns_of))]
fn columns_of(alloc: Global, columns: &[Column], list: &Token) -> Result<List<OpenColumn>, Fault>
    requires { length columns.now < 2 ^ 32 }
    ensures { Gives (λ found. found) result (columns_of columns.now list.now) }
{
    let Token::Text(text) = list else {
        return Err(Fault::Refused(Code::Column));
    };
    let names = names_of(alloc, text.as_slice())?;
    let mut found = Vec::with_capacity(alloc, names.len())?;
    columns_onto(columns, &mut found, names.as_slice())?;
    Ok(List::of_vec(found))
}

/// The columns for filters, whose list may be left out.
#[tactic(auto, unfolding(crate::specs::Open::filter_columns_of))]
fn filter_columns_of(
    alloc: Global,
    columns: &[Column],
    lists: &[Token],
) -> Result<List<OpenColumn>, Fault>
    requires { length columns.now < 2 ^ 32 }
    ensures { Gives (λ found. found) result (filter_columns_of columns.now lists.now) }
{
    match lists {
        [] => Ok(List::new(alloc)),
        [list, ..] => columns_of(alloc, columns, list),
    }
}

/// The columns of both lists.
#[tactic(auto, unfolding(crate::specs::Open::lists_of))]
fn lists_of(
    alloc: Global,
    columns: &[Column],
    lists: &[Token],
) -> Result<(List<OpenColumn>, List<OpenColumn>), Fault>
    requires { length columns.now < 2 ^ 32 }
    ensures { Gives (λ found. found) result (lists_of columns.now lists.now) }
{
    let [list, rest @ ..] = lists else {
        return Err(Fault::Refused(Code::Args));
    };
    let listed = columns_of(alloc, columns, list)?;
    let filtered = filter_columns_of(alloc, columns, rest)?;
    Ok((listed, filtered))
}

fn part_of(columns: &[Column], number: u32) -> OpenColumn
    ensures { result ≡ part_of columns.now number }
{
    let kind = match columns.get(number as usize) {
        None => Kind::Int,
        Some(column) => column.kind,
    };
    OpenColumn { number, kind }
}

/// The columns of an index.
fn parts_of(
    alloc: Global,
    columns: &[Column],
    numbers: &[u32],
) -> Result<List<OpenColumn>, AllocError>
    ensures { IfOk result (λ parts. parts ≡ map (part_of columns.now) numbers.now) }
{
    let mut parts = Vec::with_capacity(alloc, numbers.len())?;
    for number in numbers {
        parts.push(part_of(columns, *number))?;
    }
    Ok(List::of_vec(parts))
}

/// What an id will stand for, by the tokens behind it.
#[tactic(auto, unfolding(crate::specs::Open::handle_of))]
fn handle_of(
    alloc: Global,
    schema: &Schema,
    db: &Token,
    name: &Token,
    index: &Token,
    lists: &[Token],
) -> Result<Handle, Fault>
    requires { IsNumbered schema.now }
    ensures { Gives (λ handle. handle) result
        (handle_of schema.now db.now name.now index.now lists.now) }
{
    let Some((table, def)) = table_at(schema.tables.as_slice(), db, name) else {
        return Err(Fault::Refused(Code::Table));
    };
    let Some((index, index_def)) = index_at(def.indexes.as_slice(), index) else {
        return Err(Fault::Refused(Code::Index));
    };
    let all = def.columns.as_slice();
    let (columns, filter_columns) = lists_of(alloc, all, lists)?;
    let parts = parts_of(alloc, all, index_def.parts.as_slice())?;
    Ok(Handle {
        table,
        index,
        parts,
        columns,
        filter_columns,
    })
}

/// Whether one more id may be opened, or this one once more.
fn has_room(handles: &Handles, id: u32) -> bool
    ensures { result ≡ has_room handles.now id }
{
    handles.len() < MOST_OPEN || handles.get(id).is_some()
}

/// The id that a line opens and what it will stand for, by the tokens behind the `P`.
#[tactic(auto, unfolding(crate::specs::Open::open_of))]
pub(crate) fn open_of(
    alloc: Global,
    schema: &Schema,
    handles: &Handles,
    tokens: &[Token],
) -> Result<(u32, Handle), Fault>
    requires { IsNumbered schema.now }
    ensures { Gives (λ opening. opening) result (open_of schema.now handles.now tokens.now) }
{
    let [id, db, name, index, lists @ ..] = tokens else {
        return Err(Fault::Refused(Code::Args));
    };
    if lists.len() != 1 && lists.len() != 2 {
        return Err(Fault::Refused(Code::Args));
    }
    let Some(id) = u32_at(id) else {
        return Err(Fault::Refused(Code::Args));
    };
    let handle = handle_of(alloc, schema, db, name, index, lists)?;
    if !has_room(handles, id) {
        return Err(Fault::Refused(Code::Ids));
    }
    Ok((id, handle))
}
