//! UPDATE and DELETE.
ghost use Rattle.std.specs.Prelude.{◌<◌, ◌^◌, length};
ghost use Rattle.sql_parse.specs.Input.{Reads};
ghost use Rattle.sql_parse.specs.Statements as spec;

use crate::clauses::{count, filter, order, table};
use crate::faults::Unread;
use crate::inserts::column;
use crate::names::columns_of;
use crate::readings::Reading;
use crate::token_kinds::TokenKind;
use crate::tokens::Tokens;
use row_types::{List, Schema};
use sql_value::{Assign, DeleteStmt, UpdateStmt};
use std::alloc::Global;

/// update = UPDATE table SET name "=" cell {"," name "=" cell} [WHERE cond] [order] [LIMIT num]
#[tactic(auto, unfolding(crate::specs::Statements::update))]
pub(crate) fn update(
    alloc: Global,
    schema: &Schema,
    tokens: &mut Tokens<'_>,
) -> Result<UpdateStmt, Unread>
    requires { length schema.now.tables < 2 ^ 32 }
    ensures { Reads (spec.update schema.now tokens.old) result tokens.new }
{
    let number = table(schema, tokens)?;
    let columns = columns_of(schema, number);
    let reading = Reading { alloc, columns };
    tokens.expect(TokenKind::Set)?;
    Ok(UpdateStmt {
        table: number,
        assigns: assigns(&reading, tokens)?,
        condition: filter(&reading, tokens)?,
        order: order(&reading, tokens)?,
        limit: count(tokens)?,
    })
}

// name "=" cell {"," name "=" cell}
fn assigns(reading: &Reading<'_>, tokens: &mut Tokens<'_>) -> Result<List<Assign>, Unread>
    ensures { Reads (spec.assigns reading.now.columns.now tokens.old) result tokens.new }
{
    let mut found = List::new(reading.alloc);
    for _turn in 0..tokens.left() {
        let made = assign(reading, tokens)?;
        found.push(made)?;
        if !tokens.eat(TokenKind::Comma) {
            return Ok(found);
        }
    }
    Err(Unread::Syntax)
}

// name "=" cell
#[tactic(auto, unfolding(crate::specs::Statements::assign))]
fn assign(reading: &Reading<'_>, tokens: &mut Tokens<'_>) -> Result<Assign, Unread>
    ensures { Reads (spec.assign reading.now.columns.now tokens.old) result tokens.new }
{
    let column = column(reading, tokens)?;
    tokens.expect(TokenKind::Equal)?;
    let cell = reading.cell(tokens, 0)?;
    Ok(Assign { column, cell })
}

/// delete = DELETE FROM table [WHERE cond] [order] [LIMIT num]
#[tactic(auto, unfolding(crate::specs::Statements::delete))]
pub(crate) fn delete(
    alloc: Global,
    schema: &Schema,
    tokens: &mut Tokens<'_>,
) -> Result<DeleteStmt, Unread>
    requires { length schema.now.tables < 2 ^ 32 }
    ensures { Reads (spec.delete schema.now tokens.old) result tokens.new }
{
    tokens.expect(TokenKind::From)?;
    let number = table(schema, tokens)?;
    let columns = columns_of(schema, number);
    let reading = Reading { alloc, columns };
    Ok(DeleteStmt {
        table: number,
        condition: filter(&reading, tokens)?,
        order: order(&reading, tokens)?,
        limit: count(tokens)?,
    })
}
