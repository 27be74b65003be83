//! Conditions: comparisons, tests and what AND, OR and NOT make of them.
ghost use Rattle.std.specs.Prelude.{◌≡◌};
ghost use Rattle.sql_parse.specs.Input.{Reads};
ghost use Rattle.sql_parse.specs.Grammar as spec;
ghost use Rattle.sql_parse.specs.Trees as trees;
ghost use Rattle.sql_parse.specs.Nests.{Nests};

use crate::faults::Unread;
use crate::grammar::{Grammar, Level};
use crate::token_kinds::TokenKind;
use crate::tokens::Tokens;
use crate::trees::{Tree, both, compare, either, in_list, is_null, opposite};
use request_types::FilterOp;
use row_types::{Column, List};
use sql_value::Expr;
use std::alloc::Global;

fn and_of(kind: TokenKind) -> Option<()>
    ensures { result ≡ spec.and_of kind }
{
    match kind {
        TokenKind::And => Some(()),
        _ => None,
    }
}

fn or_of(kind: TokenKind) -> Option<()>
    ensures { result ≡ spec.or_of kind }
{
    match kind {
        TokenKind::Or => Some(()),
        _ => None,
    }
}

fn comparison_of(kind: TokenKind) -> Option<FilterOp>
    ensures { result ≡ spec.comparison_of kind }
{
    match kind {
        TokenKind::Equal => Some(FilterOp::Equal),
        TokenKind::NotEqual => Some(FilterOp::NotEqual),
        TokenKind::Less => Some(FilterOp::Less),
        TokenKind::LessEqual => Some(FilterOp::LessEqual),
        TokenKind::Greater => Some(FilterOp::Greater),
        TokenKind::GreaterEqual => Some(FilterOp::GreaterEqual),
        _ => None,
    }
}

impl<'a, F: Fn(Global, &[Column], &mut Tokens<'_>, u32, Level) -> Result<Tree, Unread>> Grammar<
    'a,
    F,
> {
    // {OR conj}, behind an operand.
    fn ors(&self, tokens: &mut Tokens<'_>, mut a: Tree) -> Result<Tree, Unread>
        requires { Nests self.now.nest (F.pre self.now.inner) (F.post self.now.inner) }
        ensures { Reads (spec.grouped_rest spec.or_of (λ _. trees.either)
            (spec.conjunction self.now.columns.now
            (spec.expr self.now.columns.now self.now.nest))
            a tokens.old) result tokens.new }
    {
        for _turn in 0..tokens.left() {
            let Some(()) = or_of(tokens.peek()) else {
                return Ok(a);
            };
            tokens.take();
            let b = self.conjunction(tokens)?;
            a = either(self.alloc, a, b)?;
        }
        Ok(a)
    }

    /// cond = conj {OR conj}. Where no operator of conditions stands it may be a value.
    #[tactic(auto, unfolding(crate::specs::Grammar::condition))]
    pub(crate) fn condition(&self, tokens: &mut Tokens<'_>) -> Result<Tree, Unread>
        requires { Nests self.now.nest (F.pre self.now.inner) (F.post self.now.inner) }
        ensures { Reads (spec.condition self.now.columns.now
            (spec.expr self.now.columns.now self.now.nest) tokens.old) result tokens.new }
    {
        let a = self.conjunction(tokens)?;
        self.ors(tokens, a)
    }

    // {AND neg}, behind an operand.
    fn ands(&self, tokens: &mut Tokens<'_>, mut a: Tree) -> Result<Tree, Unread>
        requires { Nests self.now.nest (F.pre self.now.inner) (F.post self.now.inner) }
        ensures { Reads (spec.grouped_rest spec.and_of (λ _. trees.both)
            (spec.negation self.now.columns.now
            (spec.expr self.now.columns.now self.now.nest))
            a tokens.old) result tokens.new }
    {
        for _turn in 0..tokens.left() {
            let Some(()) = and_of(tokens.peek()) else {
                return Ok(a);
            };
            tokens.take();
            let b = self.negation(tokens)?;
            a = both(self.alloc, a, b)?;
        }
        Ok(a)
    }

    // conj = neg {AND neg}
    #[tactic(auto, unfolding(crate::specs::Grammar::conjunction))]
    fn conjunction(&self, tokens: &mut Tokens<'_>) -> Result<Tree, Unread>
        requires { Nests self.now.nest (F.pre self.now.inner) (F.post self.now.inner) }
        ensures { Reads (spec.conjunction self.now.columns.now
            (spec.expr self.now.columns.now self.now.nest) tokens.old) result tokens.new }
    {
        let a = self.negation(tokens)?;
        self.ands(tokens, a)
    }

    /// neg = NOT neg | test
    #[tactic(auto, unfolding(crate::specs::Grammar::negation))]
    pub(crate) fn negation(&self, tokens: &mut Tokens<'_>) -> Result<Tree, Unread>
        requires { Nests self.now.nest (F.pre self.now.inner) (F.post self.now.inner) }
        ensures { Reads (spec.negation self.now.columns.now
            (spec.expr self.now.columns.now self.now.nest) tokens.old) result tokens.new }
    {
        if tokens.eat(TokenKind::Not) {
            self.deeper(tokens, Level::Turned)
        } else {
            self.test(tokens)
        }
    }

    // test = "(" cond ")" | value cmp value | value IS [NOT] NULL | value [NOT] IN "(" .. ")"
    #[tactic(auto, unfolding(crate::specs::Grammar::test))]
    fn test(&self, tokens: &mut Tokens<'_>) -> Result<Tree, Unread>
        requires { Nests self.now.nest (F.pre self.now.inner) (F.post self.now.inner) }
        ensures { Reads (spec.test self.now.columns.now
            (spec.expr self.now.columns.now self.now.nest) tokens.old) result tokens.new }
    {
        let a = self.value(tokens)?;
        match tokens.peek() {
            TokenKind::Is => self.null_test(tokens, a),
            TokenKind::Not => {
                tokens.take();
                let among = self.membership(tokens, a)?;
                opposite(self.alloc, among)
            }
            TokenKind::In => self.membership(tokens, a),
            kind => self.against(tokens, a, comparison_of(kind)),
        }
    }

    // A comparison by this operator, if it is one.
    #[tactic(auto, unfolding(crate::specs::Grammar::against))]
    fn against(
        &self,
        tokens: &mut Tokens<'_>,
        a: Tree,
        op: Option<FilterOp>,
    ) -> Result<Tree, Unread>
        requires { Nests self.now.nest (F.pre self.now.inner) (F.post self.now.inner) }
        ensures { Reads (spec.against self.now.columns.now
            (spec.expr self.now.columns.now self.now.nest) a op tokens.old) result tokens.new }
    {
        match op {
            None => Ok(a),
            Some(op) => {
                tokens.take();
                let b = self.value(tokens)?;
                compare(self.alloc, op, a, b)
            }
        }
    }

    // IS [NOT] NULL, behind a value.
    #[tactic(auto, unfolding(crate::specs::Grammar::null_test))]
    fn null_test(&self, tokens: &mut Tokens<'_>, a: Tree) -> Result<Tree, Unread>
        requires { Nests self.now.nest (F.pre self.now.inner) (F.post self.now.inner) }
        ensures { Reads (spec.null_test self.now.columns.now
            (spec.expr self.now.columns.now self.now.nest) a tokens.old) result tokens.new }
    {
        tokens.take();
        let is_turned = tokens.eat(TokenKind::Not);
        tokens.expect(TokenKind::Null)?;
        let tested = is_null(self.alloc, a)?;
        if is_turned {
            opposite(self.alloc, tested)
        } else {
            Ok(tested)
        }
    }

    // IN "(" value {"," value} ")", behind a value.
    #[tactic(auto, unfolding(crate::specs::Grammar::membership))]
    fn membership(&self, tokens: &mut Tokens<'_>, a: Tree) -> Result<Tree, Unread>
        requires { Nests self.now.nest (F.pre self.now.inner) (F.post self.now.inner) }
        ensures { Reads (spec.membership self.now.columns.now
            (spec.expr self.now.columns.now self.now.nest) a tokens.old) result tokens.new }
    {
        tokens.expect(TokenKind::In)?;
        tokens.expect(TokenKind::Open)?;
        let (all, deepest) = self.members(tokens)?;
        tokens.expect(TokenKind::Close)?;
        in_list(self.alloc, a, all, deepest)
    }

    // value {"," value}, and the depth of the deepest.
    #[tactic(auto, unfolding(crate::specs::Grammar::members))]
    fn members(&self, tokens: &mut Tokens<'_>) -> Result<(List<Expr>, u32), Unread>
        requires { Nests self.now.nest (F.pre self.now.inner) (F.post self.now.inner) }
        ensures { Reads (spec.members self.now.columns.now
            (spec.expr self.now.columns.now self.now.nest) tokens.old) result tokens.new }
    {
        let mut found = List::new(self.alloc);
        let mut deepest = 0;
        for _turn in 0..tokens.left() {
            let Tree { expr, depth, .. } = self.deeper(tokens, Level::Worth)?;
            found.push(expr)?;
            deepest = deepest.max(depth);
            if !tokens.eat(TokenKind::Comma) {
                return Ok((found, deepest));
            }
        }
        Err(Unread::Syntax)
    }
}
