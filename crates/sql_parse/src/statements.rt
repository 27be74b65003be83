//! A line of SQL.
ghost use Rattle.std.specs.Prelude.{◌<◌, ◌^◌, length, IfOk};
ghost use Rattle.row_types.specs.Valid.{IsValid};
ghost use Rattle.sql_value.specs.Fits.{StatementFits};
ghost use Rattle.request_types.specs.Refusal.{Gives};
ghost use Rattle.sql_parse.specs.Input.{Reads};
ghost use Rattle.sql_parse.specs.Statements as spec;
ghost use Rattle.sql_parse.specs.Reading.{checked, parse_of};

use crate::faults::Unread;
use crate::fitting::kinds_fit;
use crate::inserts::insert;
use crate::naming::names_stand;
use crate::selects::select;
use crate::token_kinds::TokenKind;
use crate::tokens::Tokens;
use crate::updates::{delete, update};
use request_types::{Code, Fault};
use row_types::Schema;
use sql_value::Statement;
use std::alloc::Global;

/// The statement that a line is. It is refused with `Syntax` where it is none, then with `Name`
/// where it names a table or a column that isn't there, and then with `WrongKind`.
///
/// Expressions nest at most 100 deep, and what reads them calls itself no deeper; what is deeper
/// than 1,000 parts is refused.
pub fn parse(alloc: Global, schema: &Schema, line: &[u8]) -> Result<Statement, Fault>
    requires { length schema.now.tables < 2 ^ 32 }
    ensures read { Gives (λ s. s) result (parse_of schema.now line.now) }
    ensures fits { IsValid schema.now → IfOk result (StatementFits schema.now) }
{
    read_line(alloc, schema, line)
}

#[tactic(auto, unfolding(crate::specs::Reading::parse_of))]
fn read_line(alloc: Global, schema: &Schema, line: &[u8]) -> Result<Statement, Fault>
    requires { length schema.now.tables < 2 ^ 32 }
    ensures { Gives (λ s. s) result (parse_of schema.now line.now) }
{
    let mut tokens = Tokens::new(line);
    match statement(alloc, schema, &mut tokens) {
        Ok(statement) => check(schema, statement),
        Err(Unread::Syntax) => Err(Fault::Refused(Code::Syntax)),
        Err(Unread::NoMemory) => Err(Fault::NoMemory),
    }
}

// The same, if its names are there and its kinds go together.
fn check(schema: &Schema, statement: Statement) -> Result<Statement, Fault>
    ensures { Gives (λ s. s) result (checked schema.now statement) }
{
    if !names_stand(schema, &statement) {
        return Err(Fault::Refused(Code::Name));
    }
    if !kinds_fit(schema, &statement) {
        return Err(Fault::Refused(Code::WrongKind));
    }
    Ok(statement)
}

// statement = (select | insert | update | delete) [";"]
#[tactic(auto, unfolding(crate::specs::Statements::statement))]
fn statement(alloc: Global, schema: &Schema, tokens: &mut Tokens<'_>) -> Result<Statement, Unread>
    requires { length schema.now.tables < 2 ^ 32 }
    ensures { Reads (spec.statement schema.now tokens.old) result tokens.new }
{
    let found = any_statement(alloc, schema, tokens)?;
    tokens.eat(TokenKind::Semicolon);
    tokens.expect(TokenKind::End)?;
    Ok(found)
}

#[tactic(auto, unfolding(crate::specs::Statements::any_statement))]
fn any_statement(
    alloc: Global,
    schema: &Schema,
    tokens: &mut Tokens<'_>,
) -> Result<Statement, Unread>
    requires { length schema.now.tables < 2 ^ 32 }
    ensures { Reads (spec.any_statement schema.now tokens.old) result tokens.new }
{
    let begins = tokens.peek();
    tokens.take();
    match begins {
        TokenKind::Select => Ok(Statement::Select(select(alloc, schema, tokens)?)),
        TokenKind::Insert => Ok(Statement::Insert(insert(alloc, schema, tokens)?)),
        TokenKind::Update => Ok(Statement::Update(update(alloc, schema, tokens)?)),
        TokenKind::Delete => Ok(Statement::Delete(delete(alloc, schema, tokens)?)),
        _ => Err(Unread::Syntax),
    }
}
