//! What one token of a table line has to be.
ghost use Rattle.std.specs.Prelude.{◌≡◌, slice_get};
ghost use Rattle.std.specs.List.{list_all};
ghost use Rattle.row_types.specs.Valid.{is_name_byte, is_name};
ghost use Rattle.hs_schema.specs.Reading.{Gives, is_word, text_at, name_at};

use crate::faults::{LineFault, SchemaRule};
use hs_token::Token;

/// The most bytes of a name.
const MAX_NAME_LEN: usize = 64;

/// Whether the token at this place is the word.
pub(crate) fn is_word_at(word: &[u8], line: &[Token], place: u32) -> bool
    ensures { result ≡ is_word word.now (slice_get line.now place) }
{
    match line.get(place as usize) {
        Some(Token::Text(text)) => text.as_slice() == word,
        _ => false,
    }
}

/// The text at this place.
pub(crate) fn text_at(line: &[Token], place: u32) -> Result<&[u8], LineFault>
    ensures { Gives (λ text. text.now) result (text_at line.now place) }
{
    match line.get(place as usize) {
        Some(Token::Text(text)) => Ok(text.as_slice()),
        _ => Err(LineFault::Broken(SchemaRule::BadKind, place)),
    }
}

/// The name at this place.
#[tactic(auto, unfolding(crate::specs::Reading::name_at))]
pub(crate) fn name_at(line: &[Token], place: u32) -> Result<&[u8], LineFault>
    ensures { Gives (λ name. name.now) result (name_at line.now place) }
{
    let text = text_at(line, place)?;
    if !is_name(text) {
        return Err(LineFault::Broken(SchemaRule::BadName, place));
    }
    Ok(text)
}

fn is_name(text: &[u8]) -> bool
    ensures { result ≡ is_name text.now }
{
    1 <= text.len()
        && text.len() <= MAX_NAME_LEN
        && !text[0].is_ascii_digit()
        && are_name_bytes(text)
}

fn are_name_bytes(text: &[u8]) -> bool
    ensures { result ≡ list_all is_name_byte text.now }
{
    text.iter().all(|byte| is_name_byte(*byte))
}

fn is_name_byte(byte: u8) -> bool
    ensures { result ≡ is_name_byte byte }
{
    byte.is_ascii_alphanumeric() || byte == b'_'
}
