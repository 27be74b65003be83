//! A cursor over the tokens of a line, which cuts each as it is reached.
ghost use Rattle.std.specs.Prelude.{◌≡◌, length, Some, None, IfOk, IfErr};
ghost use Rattle.sql_parse.specs.declared.faults.Unread.TheVariants.{Syntax};
ghost use Rattle.sql_parse.specs.Input as spec;
ghost use Rattle.sql_parse.specs.Input.{Reads};
ghost use Rattle.sql_parse.specs.Lex.{skip};
ghost use Rattle.sql_parse.specs.Names.{name};

use crate::faults::Unread;
use crate::lexing::{Token, inside, skip, token_at};
use crate::token_kinds::{TokenKind, same_kind};
use std::marker::Model;

/// The line from its next token on, and that token.
#[derive(Drop)]
pub(crate) struct Tokens<'a> {
    ahead: &'a [u8],
    token: Token,
}

impl<'a> Model for Tokens<'a> {
    ghost use Rattle.std.specs.Prelude.{List, ℕ};
    ghost use Rattle.sql_parse.specs.Cursor.{ahead_of, IsReady};

    ghost Value = { List ℕ };

    ghost view = { ahead_of };

    ghost invariant = { IsReady };
}

impl<'a> Tokens<'a> {
    pub(crate) fn new(text: &'a [u8]) -> Tokens<'a>
        ensures { result ≡ skip text.now }
    {
        let ahead = skip(text);
        Tokens {
            ahead,
            token: token_at(ahead),
        }
    }

    /// Another cursor at the same place.
    pub(crate) fn copy(&self) -> Tokens<'a>
        ensures { result ≡ self.now }
    {
        Tokens {
            ahead: self.ahead,
            token: self.token,
        }
    }

    /// How many bytes there are from the next token on.
    pub(crate) fn left(&self) -> usize
        ensures { result ≡ length self.now }
    {
        self.ahead.len()
    }

    #[tactic(auto, unfolding(crate::specs::Input::kind))]
    pub(crate) fn peek(&self) -> TokenKind
        ensures { result ≡ spec.kind self.now }
    {
        self.token.0
    }

    /// Goes on to the next token, and answers how this one was spelled.
    #[tactic(auto, unfolding(crate::specs::Input::spelling, crate::specs::Input::next))]
    pub(crate) fn take(&mut self) -> &'a [u8]
        ensures spelled { result.now ≡ spec.spelling self.old }
        ensures next { self.new ≡ spec.next self.old }
    {
        let (spelling, text) = self.ahead.split_at(self.token.1);
        self.ahead = skip(text);
        self.token = token_at(self.ahead);
        spelling
    }

    /// Goes on behind a token of this kind, if it comes next.
    #[tactic(auto, unfolding(crate::specs::Input::sees, crate::specs::Input::after, crate::specs::Input::kind))]
    pub(crate) fn eat(&mut self, kind: TokenKind) -> bool
        ensures found { result ≡ spec.sees kind self.old }
        ensures after { self.new ≡ spec.after kind self.old }
    {
        let found = same_kind(self.token.0, kind);
        if found {
            self.take();
        }
        found
    }

    /// Goes on behind a token of this kind, which has to come next.
    #[tactic(auto, unfolding(crate::specs::Input::expect, crate::specs::Input::after))]
    pub(crate) fn expect(&mut self, kind: TokenKind) -> Result<(), Unread>
        ensures { Reads (spec.expect kind self.old) result self.new }
    {
        if self.eat(kind) {
            Ok(())
        } else {
            Err(Unread::Syntax)
        }
    }

    /// The name that comes next.
    #[tactic(auto, unfolding(crate::specs::Names::name))]
    pub(crate) fn name(&mut self) -> Result<&'a [u8], Unread>
        ensures ok { IfOk result (λ called. name self.old ≡ Some (called.now, self.new)) }
        ensures err { IfErr result (λ fault. (fault ≡ Syntax) × (name self.old ≡ None)) }
    {
        match self.peek() {
            TokenKind::Name | TokenKind::Offset => Ok(self.take()),
            TokenKind::Quoted => {
                let quoted = self.take();
                Ok(inside(1, quoted))
            }
            _ => Err(Unread::Syntax),
        }
    }
}
