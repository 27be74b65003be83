//! INSERT.
ghost use Rattle.std.specs.Prelude.{◌≡◌, ◌<◌, ◌^◌, length, IfOk};
ghost use Rattle.sql_parse.specs.Input.{Reads};
ghost use Rattle.sql_parse.specs.Statements as spec;

use crate::clauses::table;
use crate::faults::Unread;
use crate::names::{column_place, columns_of, place_of};
use crate::readings::Reading;
use crate::token_kinds::TokenKind;
use crate::tokens::Tokens;
use row_types::{Column, List, Schema};
use sql_value::{Cell, InsertStmt};
use std::alloc::{AllocError, Global};

/// insert = INSERT [INTO] table ["(" name {"," name} ")"] VALUES group {"," group}
#[tactic(auto, unfolding(crate::specs::Statements::insert))]
pub(crate) fn insert(
    alloc: Global,
    schema: &Schema,
    tokens: &mut Tokens<'_>,
) -> Result<InsertStmt, Unread>
    requires { length schema.now.tables < 2 ^ 32 }
    ensures { Reads (spec.insert schema.now tokens.old) result tokens.new }
{
    tokens.eat(TokenKind::Into);
    let number = table(schema, tokens)?;
    insert_of(alloc, schema, tokens, number)
}

// ["(" name {"," name} ")"] VALUES group {"," group}
#[tactic(auto, unfolding(crate::specs::Statements::insert_of))]
fn insert_of(
    alloc: Global,
    schema: &Schema,
    tokens: &mut Tokens<'_>,
    number: u32,
) -> Result<InsertStmt, Unread>
    ensures { Reads (spec.insert_of schema.now number tokens.old) result tokens.new }
{
    let columns = columns_of(schema, number);
    let reading = Reading { alloc, columns };
    let has_list = tokens.eat(TokenKind::Open);
    let places = columns_by(&reading, tokens, has_list)?;
    tokens.expect(TokenKind::Values)?;
    let width = places.as_slice().len();
    let is_asked = is_counted(schema, number, has_list);
    Ok(InsertStmt {
        table: number,
        columns: places,
        groups: groups(&reading, tokens, is_asked, width)?,
    })
}

// The groups of a table that isn't there are as long as they like, unless columns are listed.
fn is_counted(schema: &Schema, number: u32, has_list: bool) -> bool
    ensures { result ≡ spec.is_counted schema.now number has_list }
{
    has_list || (number as usize) < schema.tables.as_slice().len()
}

// The columns of a list behind its parenthesis, or all columns.
fn columns_by(
    reading: &Reading<'_>,
    tokens: &mut Tokens<'_>,
    has_list: bool,
) -> Result<List<u32>, Unread>
    ensures { Reads (spec.columns_by reading.now.columns.now has_list
        tokens.old) result tokens.new }
{
    if has_list {
        let places = column_list(reading, tokens)?;
        tokens.expect(TokenKind::Close)?;
        Ok(places)
    } else {
        Ok(all_places(reading.alloc, reading.columns)?)
    }
}

fn all_places(alloc: Global, columns: &[Column]) -> Result<List<u32>, AllocError>
    ensures { IfOk result (λ places. places ≡ spec.all_places columns.now) }
{
    let mut places = List::new(alloc);
    for place in 0..columns.len() {
        places.push(place_of(place))?;
    }
    Ok(places)
}

// name {"," name}
fn column_list(reading: &Reading<'_>, tokens: &mut Tokens<'_>) -> Result<List<u32>, Unread>
    ensures { Reads (spec.column_list reading.now.columns.now tokens.old) result tokens.new }
{
    let mut found = List::new(reading.alloc);
    for _turn in 0..tokens.left() {
        let place = column(reading, tokens)?;
        found.push(place)?;
        if !tokens.eat(TokenKind::Comma) {
            return Ok(found);
        }
    }
    Err(Unread::Syntax)
}

/// The place of the column that is named.
#[tactic(auto, unfolding(crate::specs::Statements::column))]
pub(crate) fn column(reading: &Reading<'_>, tokens: &mut Tokens<'_>) -> Result<u32, Unread>
    ensures { Reads (spec.column reading.now.columns.now tokens.old) result tokens.new }
{
    let name = tokens.name()?;
    Ok(column_place(reading.columns, name))
}

// group {"," group}
fn groups(
    reading: &Reading<'_>,
    tokens: &mut Tokens<'_>,
    is_asked: bool,
    width: usize,
) -> Result<List<List<Cell>>, Unread>
    ensures { Reads (spec.groups reading.now.columns.now is_asked width
        tokens.old) result tokens.new }
{
    let mut found = List::new(reading.alloc);
    for _turn in 0..tokens.left() {
        let cells = wide_group(reading, tokens, is_asked, width)?;
        found.push(cells)?;
        if !tokens.eat(TokenKind::Comma) {
            return Ok(found);
        }
    }
    Err(Unread::Syntax)
}

// A group, which has so many cells, if that is asked.
#[tactic(auto, unfolding(crate::specs::Statements::wide_group))]
fn wide_group(
    reading: &Reading<'_>,
    tokens: &mut Tokens<'_>,
    is_asked: bool,
    width: usize,
) -> Result<List<Cell>, Unread>
    ensures { Reads (spec.wide_group reading.now.columns.now is_asked width
        tokens.old) result tokens.new }
{
    let found = group(reading, tokens)?;
    if !is_asked || found.as_slice().len() == width {
        Ok(found)
    } else {
        Err(Unread::Syntax)
    }
}

// group = "(" cell {"," cell} ")"
#[tactic(auto, unfolding(crate::specs::Statements::group))]
fn group(reading: &Reading<'_>, tokens: &mut Tokens<'_>) -> Result<List<Cell>, Unread>
    ensures { Reads (spec.group reading.now.columns.now tokens.old) result tokens.new }
{
    tokens.expect(TokenKind::Open)?;
    let found = cells(reading, tokens)?;
    tokens.expect(TokenKind::Close)?;
    Ok(found)
}

// cell {"," cell}
fn cells(reading: &Reading<'_>, tokens: &mut Tokens<'_>) -> Result<List<Cell>, Unread>
    ensures { Reads (spec.cells reading.now.columns.now tokens.old) result tokens.new }
{
    let mut found = List::new(reading.alloc);
    for _turn in 0..tokens.left() {
        let cell = reading.cell(tokens, 1)?;
        found.push(cell)?;
        if !tokens.eat(TokenKind::Comma) {
            return Ok(found);
        }
    }
    Err(Unread::Syntax)
}
