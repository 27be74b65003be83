//! SELECT.
ghost use Rattle.std.specs.Prelude.{◌≡◌, ◌<◌, ◌^◌, length, IfOk};
ghost use Rattle.sql_parse.specs.Input.{Reads};
ghost use Rattle.sql_parse.specs.Statements as spec;

use crate::clauses::{filter, order, page, table};
use crate::faults::Unread;
use crate::names::{columns_of, place_of};
use crate::readings::Reading;
use crate::token_kinds::TokenKind;
use crate::tokens::Tokens;
use row_types::{Column, List, Schema};
use sql_value::{Expr, SelectSpec};
use std::alloc::{AllocError, Global};

/// select = SELECT ("*" | value {"," value}) FROM table [WHERE cond] [order] [LIMIT ..]
///
/// The table behind the next FROM comes first, since its columns stand before it.
#[tactic(auto, unfolding(crate::specs::Statements::select))]
pub(crate) fn select(
    alloc: Global,
    schema: &Schema,
    tokens: &mut Tokens<'_>,
) -> Result<SelectSpec, Unread>
    requires { length schema.now.tables < 2 ^ 32 }
    ensures { Reads (spec.select schema.now tokens.old) result tokens.new }
{
    let number = table_ahead(schema, tokens)?;
    select_of(alloc, schema, tokens, number)
}

#[tactic(auto, unfolding(crate::specs::Statements::select_of))]
fn select_of(
    alloc: Global,
    schema: &Schema,
    tokens: &mut Tokens<'_>,
    number: u32,
) -> Result<SelectSpec, Unread>
    requires { length schema.now.tables < 2 ^ 32 }
    ensures { Reads (spec.select_of schema.now number tokens.old) result tokens.new }
{
    let columns = columns_of(schema, number);
    let reading = Reading { alloc, columns };
    let items = items(&reading, tokens)?;
    tokens.expect(TokenKind::From)?;
    table(schema, tokens)?;
    Ok(SelectSpec {
        table: number,
        items,
        condition: filter(&reading, tokens)?,
        order: order(&reading, tokens)?,
        limit: page(tokens)?,
    })
}

// The table behind the next FROM; nothing is taken.
#[tactic(auto, unfolding(crate::specs::Statements::table_ahead))]
fn table_ahead(schema: &Schema, tokens: &Tokens<'_>) -> Result<u32, Unread>
    requires { length schema.now.tables < 2 ^ 32 }
    ensures { Reads (spec.table_ahead schema.now tokens.now) result tokens.now }
{
    let mut ahead = tokens.copy();
    next_table(schema, &mut ahead)
}

fn next_table(schema: &Schema, tokens: &mut Tokens<'_>) -> Result<u32, Unread>
    requires { length schema.now.tables < 2 ^ 32 }
    ensures { Reads (spec.next_table schema.now tokens.old) result tokens.new }
{
    for _turn in 0..tokens.left() {
        match tokens.peek() {
            TokenKind::From => {
                tokens.take();
                return table(schema, tokens);
            }
            TokenKind::End | TokenKind::Bad => return Err(Unread::Syntax),
            _ => {
                tokens.take();
            }
        }
    }
    Err(Unread::Syntax)
}

// "*", which is all columns, or value {"," value}
#[tactic(auto, unfolding(crate::specs::Statements::items))]
fn items(reading: &Reading<'_>, tokens: &mut Tokens<'_>) -> Result<List<Expr>, Unread>
    ensures { Reads (spec.items reading.now.columns.now tokens.old) result tokens.new }
{
    if tokens.eat(TokenKind::Star) {
        Ok(all_columns(reading.alloc, reading.columns)?)
    } else {
        values(reading, tokens)
    }
}

fn all_columns(alloc: Global, columns: &[Column]) -> Result<List<Expr>, AllocError>
    ensures { IfOk result (λ all. all ≡ spec.all_columns columns.now) }
{
    let mut all = List::new(alloc);
    for place in 0..columns.len() {
        all.push(Expr::Column(place_of(place)))?;
    }
    Ok(all)
}

// value {"," value}
fn values(reading: &Reading<'_>, tokens: &mut Tokens<'_>) -> Result<List<Expr>, Unread>
    ensures { Reads (spec.values reading.now.columns.now tokens.old) result tokens.new }
{
    let mut found = List::new(reading.alloc);
    for _turn in 0..tokens.left() {
        let value = reading.value(tokens, 0)?;
        found.push(value)?;
        if !tokens.eat(TokenKind::Comma) {
            return Ok(found);
        }
    }
    Err(Unread::Syntax)
}
