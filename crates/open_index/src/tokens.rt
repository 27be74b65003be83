//! Tokens as words and numbers, and the next tokens of a line.
ghost use Rattle.std.specs.Prelude.{◌≡◌, IfOk, length};
ghost use Rattle.request_types.specs.Refusal.{Gives};
ghost use Rattle.open_index.specs.Tokens.{is_word, u32_at, i64_at, number_at, front_at};

use hs_token::{Token, parse_i64, parse_u32};
use request_types::{Code, Fault};

/// Whether a token is this text.
pub(crate) fn is_word(token: &Token, word: &[u8]) -> bool
    ensures { result ≡ is_word word.now token.now }
{
    match token {
        Token::Null => false,
        Token::Text(text) => text.as_slice() == word,
    }
}

pub(crate) fn u32_at(token: &Token) -> Option<u32>
    ensures { result ≡ u32_at token.now }
{
    match token {
        Token::Null => None,
        Token::Text(text) => parse_u32(text.as_slice()),
    }
}

pub(crate) fn i64_at(token: &Token) -> Option<i64>
    ensures { result ≡ i64_at token.now }
{
    match token {
        Token::Null => None,
        Token::Text(text) => parse_i64(text.as_slice()),
    }
}

/// The next token, which is a number, and what follows it.
#[tactic(auto, unfolding(crate::specs::Tokens::number_at))]
pub(crate) fn number_at(tokens: &[Token]) -> Result<(u32, &[Token]), Fault>
    ensures { Gives (λ x. (x.0, x.1.now)) result (number_at tokens.now) }
{
    match tokens {
        [] => Err(Fault::Refused(Code::Args)),
        [token, rest @ ..] => match u32_at(token) {
            None => Err(Fault::Refused(Code::Args)),
            Some(number) => Ok((number, rest)),
        },
    }
}

/// The next so many tokens, and what follows them.
#[tactic(auto, unfolding(crate::specs::Tokens::front_at))]
pub(crate) fn front_at(count: u32, tokens: &[Token]) -> Result<(&[Token], &[Token]), Fault>
    ensures gives { Gives (λ x. (x.0.now, x.1.now)) result (front_at count tokens.now) }
    ensures count { IfOk result (λ x. length x.0.now ≡ count) }
{
    let count = count as usize;
    if tokens.len() < count {
        return Err(Fault::Refused(Code::Args));
    }
    Ok(tokens.split_at(count))
}
