//! Expressions of a table, as statements have them.
ghost use Rattle.std.specs.Prelude.{◌≤◌};
ghost use Rattle.sql_parse.specs.Input.{Reads};
ghost use Rattle.sql_parse.specs.Statements as spec;

use crate::faults::Unread;
use crate::grammar::{Level, MOST_NESTING, expr};
use crate::token_kinds::TokenKind;
use crate::tokens::Tokens;
use crate::trees::{Tree, as_condition};
use row_types::Column;
use sql_value::{Cell, Expr};
use std::alloc::Global;

/// What a statement's expressions are read with: the columns that they may name.
#[derive(Clone, Copy)]
pub(crate) struct Reading<'a> {
    pub alloc: Global,
    pub columns: &'a [Column],
}

impl<'a> Reading<'a> {
    /// A value inside so many parentheses.
    #[tactic(auto, unfolding(crate::specs::Statements::value))]
    pub(crate) fn value(&self, tokens: &mut Tokens<'_>, inside: u32) -> Result<Expr, Unread>
        requires { inside ≤ 100 }
        ensures { Reads (spec.value self.now.columns.now inside tokens.old) result tokens.new }
    {
        let nest = MOST_NESTING + 1 - inside;
        let Tree { expr, .. } = expr(self.alloc, self.columns, tokens, nest, Level::Worth)?;
        Ok(expr)
    }

    /// A condition.
    #[tactic(auto, unfolding(crate::specs::Statements::condition))]
    pub(crate) fn condition(&self, tokens: &mut Tokens<'_>) -> Result<Expr, Unread>
        ensures { Reads (spec.condition self.now.columns.now tokens.old) result tokens.new }
    {
        let nest = MOST_NESTING + 1;
        let read = expr(self.alloc, self.columns, tokens, nest, Level::Condition)?;
        let Tree { expr, .. } = as_condition(read)?;
        Ok(expr)
    }

    /// cell = DEFAULT | value
    #[tactic(auto, unfolding(crate::specs::Statements::cell))]
    pub(crate) fn cell(&self, tokens: &mut Tokens<'_>, inside: u32) -> Result<Cell, Unread>
        requires { inside ≤ 100 }
        ensures { Reads (spec.cell self.now.columns.now inside tokens.old) result tokens.new }
    {
        if tokens.eat(TokenKind::Default) {
            Ok(Cell::Preset)
        } else {
            Ok(Cell::Of(self.value(tokens, inside)?))
        }
    }
}
