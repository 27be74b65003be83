//! The token at the front of a text.
ghost use Rattle.std.specs.Prelude.{◌≡◌, ◌≤◌, ◌<◌, ◌+◌, length, map, drop, slice_index};
ghost use Rattle.std.specs.List.{prefix_len};
ghost use Rattle.std.specs.Char.{is_ascii_digit};
ghost use Rattle.sql_parse.specs.Strings as strings;
ghost use Rattle.sql_parse.specs.Lex as spec;

use crate::names::same_word;
use crate::quotes::{hex_len, string_len};
use crate::token_kinds::{KEYWORDS, TokenKind};

/// A kind, and the number of bytes that spell it.
pub(crate) type Token = (TokenKind, usize);

/// The text behind its white space.
pub(crate) fn skip(text: &[u8]) -> &[u8]
    ensures { result.now ≡ spec.skip text.now }
{
    for place in 0..text.len() {
        if !is_blank(text[place]) {
            return &text[place..];
        }
    }
    &text[text.len()..]
}

/// The longest token that the text begins with.
#[tactic(auto, unfolding(crate::specs::Lex::token))]
pub(crate) fn token_at(text: &[u8]) -> Token
    ensures token { result ≡ spec.token text.now }
    ensures within { result.1 ≤ length text.now }
{
    if text.is_empty() {
        return (TokenKind::End, 0);
    }
    let first = byte(text, 0);
    if is_word_start(first) {
        word_at(text)
    } else if first.is_ascii_digit() {
        number_at(text)
    } else if first == b'`' {
        quoted_at(text)
    } else if first == b'\'' {
        string_at(text)
    } else {
        symbol_at(first, byte(text, 1))
    }
}

fn is_blank(byte: u8) -> bool
    ensures { result ≡ spec.is_blank byte }
{
    byte == b' ' || byte == b'\t' || byte == b'\r'
}

fn is_word_start(byte: u8) -> bool
    ensures { result ≡ spec.is_word_start byte }
{
    byte.is_ascii_alphabetic() || byte == b'_'
}

fn is_word_byte(byte: u8) -> bool
    ensures { result ≡ spec.is_word_byte byte }
{
    byte.is_ascii_alphanumeric() || byte == b'_'
}

// The byte at a place; 0 behind the end.
fn byte(text: &[u8], place: usize) -> u8
    ensures value { result ≡ slice_index text.now place }
    ensures inside { 0 < result → place < length text.now }
{
    if place < text.len() { text[place] } else { 0 }
}

// The place of the first byte from `from` on that is in no word.
fn word_end(text: &[u8], from: usize) -> usize
    requires { from ≤ length text.now }
    ensures end { result ≡ from + prefix_len spec.is_word_byte (drop from text.now) }
    ensures within { result ≤ length text.now }
{
    for place in from..text.len() {
        if !is_word_byte(text[place]) {
            return place;
        }
    }
    text.len()
}

// The place of the first byte that is no digit.
fn digits_end(text: &[u8]) -> usize
    ensures end { result ≡ prefix_len is_ascii_digit text.now }
    ensures within { result ≤ length text.now }
{
    for place in 0..text.len() {
        if !text[place].is_ascii_digit() {
            return place;
        }
    }
    text.len()
}

// A keyword, a name, or a string of hexadecimal digits.
fn word_at(text: &[u8]) -> Token
    requires { 0 < length text.now }
    ensures token { result ≡ spec.word_at text.now }
    ensures within { result.1 ≤ length text.now }
{
    if begins_hex(text) {
        return of_len(TokenKind::Hex, hex_len(text));
    }
    let end = word_end(text, 0);
    (keyword(&text[..end]), end)
}

fn begins_hex(text: &[u8]) -> bool
    ensures { result ≡ spec.begins_hex text.now }
{
    let first = byte(text, 0);
    (first == b'x' || first == b'X') && byte(text, 1) == b'\''
}

// The kind of the first word of the table that is this one but for ASCII case.
fn lookup(mut table: &[(&[u8], TokenKind)], word: &[u8]) -> TokenKind
    ensures { result ≡ spec.among (map (λ k. (k.0.now, k.1)) table.entry.now) word.now }
{
    while let [entry, rest @ ..] = table {
        if same_word(entry.0, word) {
            return entry.1;
        }
        table = rest;
    }
    TokenKind::Name
}

fn keyword(word: &[u8]) -> TokenKind
    ensures { result ≡ spec.keyword word.now }
{
    lookup(&KEYWORDS, word)
}

// Digits, which no letter follows.
fn number_at(text: &[u8]) -> Token
    requires { 0 < length text.now }
    ensures token { result ≡ spec.number_at text.now }
    ensures within { result.1 ≤ length text.now }
{
    let end = digits_end(text);
    if is_word_byte(byte(text, end)) {
        (TokenKind::Bad, 0)
    } else {
        (TokenKind::Number, end)
    }
}

// A word between backquotes.
fn quoted_at(text: &[u8]) -> Token
    requires { 0 < length text.now }
    ensures token { result ≡ spec.quoted_at text.now }
    ensures within { result.1 ≤ length text.now }
{
    let end = word_end(text, 1);
    if is_word_start(byte(text, 1)) && byte(text, end) == b'`' {
        (TokenKind::Quoted, end + 1)
    } else {
        (TokenKind::Bad, 0)
    }
}

// A token of this kind that is so long, if there is one.
fn of_len(kind: TokenKind, len: Option<usize>) -> Token
    ensures { result ≡ spec.of_len kind len }
{
    match len {
        None => (TokenKind::Bad, 0),
        Some(len) => (kind, len),
    }
}

fn string_at(text: &[u8]) -> Token
    requires { 0 < length text.now }
    ensures token { result ≡ spec.string_at text.now }
    ensures within { result.1 ≤ length text.now }
{
    of_len(TokenKind::Text, string_len(text))
}

// A symbol of one byte.
fn single(byte: u8) -> Token
    ensures { result ≡ spec.single byte }
{
    match byte {
        b'(' => (TokenKind::Open, 1),
        b')' => (TokenKind::Close, 1),
        b',' => (TokenKind::Comma, 1),
        b';' => (TokenKind::Semicolon, 1),
        b'.' => (TokenKind::Dot, 1),
        b'*' => (TokenKind::Star, 1),
        b'+' => (TokenKind::Plus, 1),
        b'-' => (TokenKind::Minus, 1),
        b'=' => (TokenKind::Equal, 1),
        b'<' => (TokenKind::Less, 1),
        b'>' => (TokenKind::Greater, 1),
        _ => (TokenKind::Bad, 0),
    }
}

// One of two bytes comes before one of one.
fn symbol_at(byte: u8, next: u8) -> Token
    ensures { result ≡ spec.symbol_at byte next }
{
    match (byte, next) {
        (b'<', b'>') | (b'!', b'=') => (TokenKind::NotEqual, 2),
        (b'<', b'=') => (TokenKind::LessEqual, 2),
        (b'>', b'=') => (TokenKind::GreaterEqual, 2),
        (_, _) => single(byte),
    }
}

/// The bytes of a token without its first so many and its last one.
pub(crate) fn inside(front: usize, spelled: &[u8]) -> &[u8]
    ensures { result.now ≡ strings.inside front spelled.now }
{
    let end = spelled.len().saturating_sub(1);
    if front <= end {
        &spelled[front..end]
    } else {
        &[]
    }
}
