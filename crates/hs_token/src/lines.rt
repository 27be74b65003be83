//! Reading the tokens of a line.
ghost use Rattle.std.specs.Prelude.{◌≡◌, ◌≢◌, ◌+◌, ◌^◌, ◌≤◌, ◌<◌, ◌==◌, ◌||◌, ◌↔◌, ℕ, List, [], ◌∷◌, length, drop, map, slice_range, slice_index_or, false, Some, None, if◌then◌else◌, OnOk, IfOk, IfErr, IsTrue, MatchOption};
ghost use Rattle.std.specs.List.{AllByRecursion};
ghost use Rattle.hs_token.specs.declared.tokens.Token.{Token};
ghost use Rattle.hs_token.specs.Spelling.{line_spelled, IsToken};
ghost use Rattle.hs_token.specs.Reading.{Gives, is_bad, IsFirstBad, first_bad, fields_of, text_of, is_null, token_of, line_at};
ghost use Rattle.hs_token.specs.Steps.{EndsPiece, has_escape};

use crate::tokens::{ESCAPE, PLAIN, SHIFT, TAB, Token};
use bytes::Bytes;
use memchr::memchr;
use std::alloc::{AllocError, Global};
use thiserror::Error;

/// Why a line has no tokens.
#[derive(Debug, Drop, Error)]
pub enum TokenFault {
    /// The line's fault: no tokens are spelled so, and this is the place of the first bad byte,
    /// counted from 0.
    #[error("no token is spelled so: byte {0} of the line")]
    BadToken(usize),
    #[error("memory ran out")]
    NoMemory,
}

impl From<AllocError> for TokenFault {
    ghost use Rattle.hs_token.specs.declared.lines.TokenFault.TheVariants.{NoMemory};

    ghost from_gives = { λ _ fault. fault ≡ NoMemory };

    fn from(_error: AllocError) -> TokenFault {
        TokenFault::NoMemory
    }
}

/// The tokens of a line without its LF. The texts share one copy of the line where they can.
///
/// An LF in the line is a bad byte, as any other below 0x10.
pub fn decode_line(alloc: Global, line: &[u8]) -> Result<Vec<Token>, TokenFault>
    // What is read is spelled so.
    ensures found { IfOk result (λ tokens. (tokens.items ≢ []) × AllByRecursion IsToken tokens.items
        × (line.now ≡ line_spelled tokens.items)) }
    // What is spelled so is read, unless memory runs out.
    ensures only { (tokens : List Token) → tokens ≢ [] → line.now ≡ line_spelled tokens
        → Gives (λ v. v.items) result (Ok tokens) }
    // A line is refused at its first bad place, and for nothing else.
    ensures bad { (place : ℕ) →
        (result ≡ Err (TokenFault.BadToken place)) ↔ IsFirstBad line.now place }
    ensures exact { Gives (λ v. v.items) result (line_at line.now) }
{
    match shape_of(line) {
        Err(place) => Err(TokenFault::BadToken(place)),
        Ok(shape) => Ok(split_copy(alloc, line, shape)?),
    }
}

/// The same of a line whose memory is shared: a text that has no escape is a part of it, of which
/// no byte is copied.
pub fn decode_shared(alloc: Global, line: &Bytes) -> Result<Vec<Token>, TokenFault>
    // What is read is spelled so.
    ensures found { IfOk result (λ tokens. (tokens.items ≢ []) × AllByRecursion IsToken tokens.items
        × (line.now ≡ line_spelled tokens.items)) }
    // What is spelled so is read, unless memory runs out.
    ensures only { (tokens : List Token) → tokens ≢ [] → line.now ≡ line_spelled tokens
        → Gives (λ v. v.items) result (Ok tokens) }
    // A line is refused at its first bad place, and for nothing else.
    ensures bad { (place : ℕ) →
        (result ≡ Err (TokenFault.BadToken place)) ↔ IsFirstBad line.now place }
    ensures exact { Gives (λ v. v.items) result (line_at line.now) }
{
    match shape_of(line.as_slice()) {
        Err(place) => Err(TokenFault::BadToken(place)),
        Ok(shape) => Ok(split(alloc, line, shape)?),
    }
}

/// What the tokens of a line without a bad byte need.
#[derive(Clone, Copy)]
struct Shape {
    /// How many they are.
    tokens: usize,
    /// Whether any byte of the line is an `ESCAPE`.
    has_escape: bool,
}

/// The shape of a line, or the place of its first bad byte.
fn shape_of(line: &[u8]) -> Result<Shape, usize>
    ensures bad { IfErr result (λ place. first_bad line.now ≡ Some place) }
    ensures good { OnOk result (first_bad line.now ≡ None) }
    ensures tokens { IfOk result (λ shape. shape.tokens ≡ length (fields_of line.now)) }
    ensures escape { IfOk result (λ shape. shape.has_escape ≡ has_escape line.now) }
    ensures bytes { AllByRecursion (λ b. b < 256) line.now }
{
    let mut shape = Shape {
        tokens: 1,
        has_escape: false,
    };
    let mut before = TAB;
    for (place, byte) in line.iter().enumerate() {
        // Most bytes stand for themselves, and tell nothing of the shape.
        if *byte < PLAIN {
            if is_bad(before, *byte, byte_after(line, place)) {
                return Err(place);
            }
            shape = with_byte(shape, *byte);
        }
        before = *byte;
    }
    Ok(shape)
}

/// The shape of a line with a byte more.
fn with_byte(mut shape: Shape, byte: u8) -> Shape
    requires { shape.tokens + 1 < 2 ^ 64 }
    ensures tokens { result.tokens ≡ shape.tokens + (if byte == 9 then 1 else 0) }
    ensures escape { result.has_escape ≡ (shape.has_escape || byte == 1) }
{
    match byte {
        TAB => shape.tokens += 1,
        ESCAPE => shape.has_escape = true,
        _ => {}
    }
    shape
}

/// The byte behind a place, and a tab at the line's end, since a token ends at both.
fn byte_after(line: &[u8], place: usize) -> u8
    requires { place < length line.now }
    ensures { result ≡ slice_index_or line.now (place + 1) 9 }
{
    if place + 1 < line.len() {
        line[place + 1]
    } else {
        TAB
    }
}

/// Whether a byte is bad between these two.
fn is_bad(before: u8, byte: u8, after: u8) -> bool
    ensures { result ≡ is_bad before byte after }
{
    match byte {
        ESCAPE => !(SHIFT <= after && after < SHIFT + PLAIN),
        0 => !(before == TAB && after == TAB),
        _ => byte < PLAIN && byte != TAB,
    }
}

/// The tokens of a line without a bad byte, with a copy of it.
fn split_copy(alloc: Global, line: &[u8], shape: Shape) -> Result<Vec<Token>, AllocError>
    requires tokens { shape.tokens ≡ length (fields_of line.now) }
    requires escape { shape.has_escape ≡ has_escape line.now }
    ensures { IfOk result (λ tokens. tokens.items ≡ map token_of (fields_of line.now)) }
{
    split(alloc, &Bytes::copy_from_slice(alloc, line)?, shape)
}

/// The tokens of a line without a bad byte.
fn split(alloc: Global, line: &Bytes, shape: Shape) -> Result<Vec<Token>, AllocError>
    requires tokens { shape.tokens ≡ length (fields_of line.now) }
    requires escape { shape.has_escape ≡ has_escape line.now }
    ensures { IfOk result (λ tokens. tokens.items ≡ map token_of (fields_of line.now)) }
{
    let bytes = line.as_slice();
    let mut tokens = Vec::with_capacity(alloc, shape.tokens)?;
    let mut start = 0;
    while let Some(end) = next_tab(bytes, start) {
        tokens.push_reserved(token(alloc, line, start, end, shape.has_escape)?);
        start = end + 1;
    }
    tokens.push_reserved(token(alloc, line, start, bytes.len(), shape.has_escape)?);
    Ok(tokens)
}

/// The place of the first tab from `start` on.
fn next_tab(bytes: &[u8], start: usize) -> Option<usize>
    requires { start ≤ length bytes.now }
    ensures { MatchOption result (fields_of (drop start bytes.now) ≡ drop start bytes.now ∷ [])
        (λ end. EndsPiece bytes.now start end) }
{
    match memchr(TAB, &bytes[start..]) {
        None => None,
        Some(len) => Some(start + len),
    }
}

/// The token that stands from `start` to `end` in a line without a bad byte.
fn token(
    alloc: Global,
    line: &Bytes,
    start: usize,
    end: usize,
    line_has_escape: bool,
) -> Result<Token, AllocError>
    requires order { start ≤ end }
    requires within { end ≤ length line.now }
    requires escape { line_has_escape ≡ has_escape line.now }
    ensures { IfOk result (λ token. token ≡ token_of (slice_range line.now start end)) }
{
    let field = &line.as_slice()[start..end];
    if is_null(field) {
        return Ok(Token::Null);
    }
    if is_plain(field, line_has_escape) {
        return Ok(Token::Text(line.slice(start..end)?));
    }
    Ok(Token::Text(Bytes::from_vec(text(alloc, field)?)?))
}

/// Whether the bytes of a text are those that stand for it. Only a line that has an escape is
/// looked at for one.
fn is_plain(field: &[u8], line_has_escape: bool) -> bool
    requires { line_has_escape ≡ false → text_of false field.now ≡ field.now }
    ensures { IsTrue result → text_of false field.now ≡ field.now }
{
    !line_has_escape || memchr(ESCAPE, field).is_none()
}

/// Whether a piece is a 0x00 alone.
fn is_null(field: &[u8]) -> bool
    ensures { result ≡ is_null field.now }
{
    field.len() == 1 && field[0] == 0
}

/// The text of a piece without a bad byte.
fn text(alloc: Global, field: &[u8]) -> Result<Vec<u8>, AllocError>
    ensures { IfOk result (λ text. text.items ≡ text_of false field.now) }
{
    let mut text = Vec::with_capacity(alloc, field.len())?;
    let mut is_escaped = false;
    for byte in field {
        if is_escaped {
            // The line was checked, so that the byte is from `SHIFT` on.
            text.push_reserved(byte.saturating_sub(SHIFT));
            is_escaped = false;
        } else if *byte == ESCAPE {
            is_escaped = true;
        } else {
            text.push_reserved(*byte);
        }
    }
    Ok(text)
}
