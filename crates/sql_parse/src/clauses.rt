//! The parts that statements share: the table, the condition, the order, the limit.
ghost use Rattle.std.specs.Prelude.{◌<◌, ◌^◌, length};
ghost use Rattle.sql_parse.specs.Input.{Reads, Makes};
ghost use Rattle.sql_parse.specs.Statements as spec;

use crate::faults::Unread;
use crate::names::{column_place, table_alone, table_in};
use crate::numbers::number_of;
use crate::readings::Reading;
use crate::token_kinds::TokenKind;
use crate::tokens::Tokens;
use row_types::{List, Schema};
use sql_value::{Expr, Limit, OrderKey};

/// table = name ["." name]. A name alone names the one table that has it.
#[tactic(auto, unfolding(crate::specs::Statements::table))]
pub(crate) fn table(schema: &Schema, tokens: &mut Tokens<'_>) -> Result<u32, Unread>
    requires { length schema.now.tables < 2 ^ 32 }
    ensures { Reads (spec.table schema.now tokens.old) result tokens.new }
{
    let first = tokens.name()?;
    if tokens.eat(TokenKind::Dot) {
        let second = tokens.name()?;
        Ok(table_in(schema, first, second))
    } else {
        Ok(table_alone(schema, first))
    }
}

/// [WHERE cond]
#[tactic(auto, unfolding(crate::specs::Statements::filter))]
pub(crate) fn filter(reading: &Reading<'_>, tokens: &mut Tokens<'_>) -> Result<Option<Expr>, Unread>
    ensures { Reads (spec.filter reading.now.columns.now tokens.old) result tokens.new }
{
    if tokens.eat(TokenKind::Where) {
        Ok(Some(reading.condition(tokens)?))
    } else {
        Ok(None)
    }
}

/// [ORDER BY name [ASC | DESC] {"," name [ASC | DESC]}]
#[tactic(auto, unfolding(crate::specs::Statements::order))]
pub(crate) fn order(
    reading: &Reading<'_>,
    tokens: &mut Tokens<'_>,
) -> Result<List<OrderKey>, Unread>
    ensures { Reads (spec.order reading.now.columns.now tokens.old) result tokens.new }
{
    if tokens.eat(TokenKind::Order) {
        tokens.expect(TokenKind::By)?;
        order_keys(reading, tokens)
    } else {
        Ok(List::new(reading.alloc))
    }
}

// name [ASC | DESC] {"," name [ASC | DESC]}
fn order_keys(reading: &Reading<'_>, tokens: &mut Tokens<'_>) -> Result<List<OrderKey>, Unread>
    ensures { Reads (spec.order_keys reading.now.columns.now tokens.old) result tokens.new }
{
    let mut found = List::new(reading.alloc);
    for _turn in 0..tokens.left() {
        let key = order_key(reading, tokens)?;
        found.push(key)?;
        if !tokens.eat(TokenKind::Comma) {
            return Ok(found);
        }
    }
    Err(Unread::Syntax)
}

// name [ASC | DESC]
#[tactic(auto, unfolding(crate::specs::Statements::order_key))]
fn order_key(reading: &Reading<'_>, tokens: &mut Tokens<'_>) -> Result<OrderKey, Unread>
    ensures { Reads (spec.order_key reading.now.columns.now tokens.old) result tokens.new }
{
    let name = tokens.name()?;
    let column = column_place(reading.columns, name);
    if tokens.eat(TokenKind::Desc) {
        return Ok(OrderKey { column, down: true });
    }
    tokens.eat(TokenKind::Asc);
    Ok(OrderKey {
        column,
        down: false,
    })
}

/// [LIMIT num]
#[tactic(auto, unfolding(crate::specs::Statements::count))]
pub(crate) fn count(tokens: &mut Tokens<'_>) -> Result<Option<Limit>, Unread>
    ensures { Reads (spec.count tokens.old) result tokens.new }
{
    if tokens.eat(TokenKind::Limit) {
        Ok(Some(counted(tokens)?))
    } else {
        Ok(None)
    }
}

#[tactic(auto, unfolding(crate::specs::Statements::counted))]
fn counted(tokens: &mut Tokens<'_>) -> Result<Limit, Unread>
    ensures { Reads (spec.counted tokens.old) result tokens.new }
{
    Ok(Limit {
        offset: 0,
        count: number(tokens)?,
    })
}

/// [LIMIT num ["," num | OFFSET num]]
#[tactic(auto, unfolding(crate::specs::Statements::page))]
pub(crate) fn page(tokens: &mut Tokens<'_>) -> Result<Option<Limit>, Unread>
    ensures { Reads (spec.page tokens.old) result tokens.new }
{
    if tokens.eat(TokenKind::Limit) {
        Ok(Some(paged(tokens)?))
    } else {
        Ok(None)
    }
}

// Of two with a comma the first is the offset.
#[tactic(auto, unfolding(crate::specs::Statements::paged))]
fn paged(tokens: &mut Tokens<'_>) -> Result<Limit, Unread>
    ensures { Reads (spec.paged tokens.old) result tokens.new }
{
    let first = number(tokens)?;
    if tokens.eat(TokenKind::Comma) {
        Ok(Limit {
            offset: first,
            count: number(tokens)?,
        })
    } else {
        let offset = offset(tokens)?;
        Ok(Limit {
            offset,
            count: first,
        })
    }
}

// [OFFSET num], where 0 is what is meant.
#[tactic(auto, unfolding(crate::specs::Statements::offset))]
fn offset(tokens: &mut Tokens<'_>) -> Result<u64, Unread>
    ensures { Reads (spec.offset tokens.old) result tokens.new }
{
    if tokens.eat(TokenKind::Offset) {
        number(tokens)
    } else {
        Ok(0)
    }
}

// A number of up to 64 bits.
#[tactic(auto, unfolding(crate::specs::Statements::number))]
fn number(tokens: &mut Tokens<'_>) -> Result<u64, Unread>
    ensures { Reads (spec.number tokens.old) result tokens.new }
{
    match tokens.peek() {
        TokenKind::Number => number_in(number_of(tokens.take())),
        _ => Err(Unread::Syntax),
    }
}

fn number_in(number: Option<u64>) -> Result<u64, Unread>
    ensures { Makes number result }
{
    match number {
        None => Err(Unread::Syntax),
        Some(number) => Ok(number),
    }
}
