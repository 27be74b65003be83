//! Values: sums of products of what stands alone.
ghost use Rattle.std.specs.Prelude.{◌≡◌, IfOk};
ghost use Rattle.sql_parse.specs.Input.{Reads, Makes};
ghost use Rattle.sql_parse.specs.Strings as strings;
ghost use Rattle.sql_parse.specs.declared.quotes.Within.TheVariants.{Bytes};
ghost use Rattle.sql_parse.specs.Grammar as spec;
ghost use Rattle.sql_parse.specs.Trees as trees;
ghost use Rattle.sql_parse.specs.Nests.{Nests};

use crate::faults::Unread;
use crate::grammar::{Grammar, Level};
use crate::lexing::inside;
use crate::names::column_place;
use crate::numbers::{negative, number_of, positive};
use crate::quotes::{unhexed, unquoted};
use crate::token_kinds::TokenKind;
use crate::tokens::Tokens;
use crate::trees::{Tree, arith, as_worth, leaf, negate};
use row_types::{ByteText, Column, Value};
use sql_value::{ArithOp, Expr};
use std::alloc::{AllocError, Global};

// A literal of this number, if it is one.
fn literal_of(number: Option<i64>) -> Result<Tree, Unread>
    ensures { Makes (spec.literal_of number) result }
{
    match number {
        None => Err(Unread::Syntax),
        Some(number) => Ok(leaf(Expr::Literal(Value::Int(number)))),
    }
}

fn text_literal(text: ByteText) -> Tree
    ensures { result ≡ spec.text_literal text }
{
    leaf(Expr::Literal(Value::Text(text)))
}

fn string(alloc: Global, spelled: &[u8]) -> Result<Tree, AllocError>
    ensures { IfOk result (λ tree. tree ≡ spec.text_literal (strings.unquoted Bytes
        (strings.inside 1 spelled.now))) }
{
    Ok(text_literal(unquoted(alloc, inside(1, spelled))?))
}

fn hex_string(alloc: Global, spelled: &[u8]) -> Result<Tree, AllocError>
    ensures { IfOk result (λ tree. tree ≡ spec.text_literal (strings.unhexed (strings.inside 2
        spelled.now))) }
{
    Ok(text_literal(unhexed(alloc, inside(2, spelled))?))
}

fn times_of(kind: TokenKind) -> Option<ArithOp>
    ensures { result ≡ spec.times_of kind }
{
    match kind {
        TokenKind::Star => Some(ArithOp::Product),
        _ => None,
    }
}

fn sign_of(kind: TokenKind) -> Option<ArithOp>
    ensures { result ≡ spec.sign_of kind }
{
    match kind {
        TokenKind::Plus => Some(ArithOp::Sum),
        TokenKind::Minus => Some(ArithOp::Difference),
        _ => None,
    }
}

impl<'a, F: Fn(Global, &[Column], &mut Tokens<'_>, u32, Level) -> Result<Tree, Unread>> Grammar<
    'a,
    F,
> {
    // "(" .. ")"
    #[tactic(auto, unfolding(crate::specs::Grammar::group))]
    fn group(&self, tokens: &mut Tokens<'_>) -> Result<Tree, Unread>
        requires { Nests self.now.nest (F.pre self.now.inner) (F.post self.now.inner) }
        ensures { Reads (spec.group self.now.columns.now
            (spec.expr self.now.columns.now self.now.nest) tokens.old) result tokens.new }
    {
        tokens.take();
        let a = self.deeper(tokens, Level::Condition)?;
        tokens.expect(TokenKind::Close)?;
        Ok(a)
    }

    // atom = num | string | NULL | name | "(" .. ")"
    #[tactic(auto, unfolding(crate::specs::Grammar::atom))]
    fn atom(&self, tokens: &mut Tokens<'_>) -> Result<Tree, Unread>
        requires { Nests self.now.nest (F.pre self.now.inner) (F.post self.now.inner) }
        ensures { Reads (spec.atom self.now.columns.now
            (spec.expr self.now.columns.now self.now.nest) tokens.old) result tokens.new }
    {
        match tokens.peek() {
            TokenKind::Number => literal_of(number_of(tokens.take()).and_then(positive)),
            TokenKind::Text => Ok(string(self.alloc, tokens.take())?),
            TokenKind::Hex => Ok(hex_string(self.alloc, tokens.take())?),
            TokenKind::Null => {
                tokens.take();
                Ok(leaf(Expr::Literal(Value::Null)))
            }
            TokenKind::Open => self.group(tokens),
            _ => {
                let name = tokens.name()?;
                Ok(leaf(Expr::Column(column_place(self.columns, name))))
            }
        }
    }

    // unary = "-" unary | atom
    #[tactic(auto, unfolding(crate::specs::Grammar::unary))]
    fn unary(&self, tokens: &mut Tokens<'_>) -> Result<Tree, Unread>
        requires { Nests self.now.nest (F.pre self.now.inner) (F.post self.now.inner) }
        ensures { Reads (spec.unary self.now.columns.now
            (spec.expr self.now.columns.now self.now.nest) tokens.old) result tokens.new }
    {
        if tokens.eat(TokenKind::Minus) {
            self.deeper(tokens, Level::Signed)
        } else {
            self.atom(tokens)
        }
    }

    /// What stands behind a sign. With a number there the two are one literal.
    #[tactic(auto, unfolding(crate::specs::Grammar::signed))]
    pub(crate) fn signed(&self, tokens: &mut Tokens<'_>) -> Result<Tree, Unread>
        requires { Nests self.now.nest (F.pre self.now.inner) (F.post self.now.inner) }
        ensures { Reads (spec.signed self.now.columns.now
            (spec.expr self.now.columns.now self.now.nest) tokens.old) result tokens.new }
    {
        match tokens.peek() {
            TokenKind::Number => literal_of(number_of(tokens.take()).and_then(negative)),
            _ => {
                let a = self.unary(tokens)?;
                negate(self.alloc, a)
            }
        }
    }

    // {"*" unary}, behind an operand.
    fn products(&self, tokens: &mut Tokens<'_>, mut a: Tree) -> Result<Tree, Unread>
        requires { Nests self.now.nest (F.pre self.now.inner) (F.post self.now.inner) }
        ensures { Reads (spec.grouped_rest spec.times_of trees.arith
            (spec.unary self.now.columns.now
            (spec.expr self.now.columns.now self.now.nest))
            a tokens.old) result tokens.new }
    {
        for _turn in 0..tokens.left() {
            let Some(op) = times_of(tokens.peek()) else {
                return Ok(a);
            };
            tokens.take();
            let b = self.unary(tokens)?;
            a = arith(self.alloc, op, a, b)?;
        }
        Ok(a)
    }

    // term = unary {"*" unary}
    #[tactic(auto, unfolding(crate::specs::Grammar::term))]
    fn term(&self, tokens: &mut Tokens<'_>) -> Result<Tree, Unread>
        requires { Nests self.now.nest (F.pre self.now.inner) (F.post self.now.inner) }
        ensures { Reads (spec.term self.now.columns.now
            (spec.expr self.now.columns.now self.now.nest) tokens.old) result tokens.new }
    {
        let a = self.unary(tokens)?;
        self.products(tokens, a)
    }

    // {("+" | "-") term}, behind an operand.
    fn sums(&self, tokens: &mut Tokens<'_>, mut a: Tree) -> Result<Tree, Unread>
        requires { Nests self.now.nest (F.pre self.now.inner) (F.post self.now.inner) }
        ensures { Reads (spec.grouped_rest spec.sign_of trees.arith
            (spec.term self.now.columns.now
            (spec.expr self.now.columns.now self.now.nest))
            a tokens.old) result tokens.new }
    {
        for _turn in 0..tokens.left() {
            let Some(op) = sign_of(tokens.peek()) else {
                return Ok(a);
            };
            tokens.take();
            let b = self.term(tokens)?;
            a = arith(self.alloc, op, a, b)?;
        }
        Ok(a)
    }

    /// value = term {("+" | "-") term}. It may be a condition in parentheses.
    #[tactic(auto, unfolding(crate::specs::Grammar::value))]
    pub(crate) fn value(&self, tokens: &mut Tokens<'_>) -> Result<Tree, Unread>
        requires { Nests self.now.nest (F.pre self.now.inner) (F.post self.now.inner) }
        ensures { Reads (spec.value self.now.columns.now
            (spec.expr self.now.columns.now self.now.nest) tokens.old) result tokens.new }
    {
        let a = self.term(tokens)?;
        self.sums(tokens, a)
    }

    /// A value, and no condition.
    #[tactic(auto, unfolding(crate::specs::Grammar::worth))]
    pub(crate) fn worth(&self, tokens: &mut Tokens<'_>) -> Result<Tree, Unread>
        requires { Nests self.now.nest (F.pre self.now.inner) (F.post self.now.inner) }
        ensures { Reads (spec.worth self.now.columns.now
            (spec.expr self.now.columns.now self.now.nest) tokens.old) result tokens.new }
    {
        as_worth(self.value(tokens)?)
    }
}
