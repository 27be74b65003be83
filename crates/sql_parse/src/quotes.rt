//! Strings: how far one goes, and the bytes that it stands for.
ghost use Rattle.std.specs.Prelude.{◌≡◌, ◌≤◌, length, drop, IfOk, IfSome};
ghost use Rattle.sql_parse.specs.declared.quotes.Within.TheVariants.{Bytes as BytesFirst};
ghost use Rattle.sql_parse.specs.Strings as spec;

use row_types::ByteText;
use std::alloc::{AllocError, Global};

// Where a string is, behind some of its bytes.
#[derive(Clone, Copy, Debug, PartialEq, Eq)]
enum Within {
    Bytes,
    /// Behind `\`.
    Escape,
    /// Behind a quote: it ends the string, unless another one follows.
    Quote,
}

/// The number of bytes of the string that begins with this quote, its quotes included; nothing,
/// where it isn't closed or has an escape that there isn't.
pub(crate) fn string_len(text: &[u8]) -> Option<usize>
    ensures len { result ≡ spec.closing BytesFirst 1 (drop 1 text.now) }
    ensures within { IfSome result (λ len. len ≤ length text.now) }
{
    let mut within = Within::Bytes;
    for place in 1..text.len() {
        let byte = text[place];
        match within {
            Within::Quote if byte != b'\'' => return Some(place),
            Within::Escape if escaped(byte).is_none() => return None,
            Within::Bytes => within = behind(byte),
            _ => within = Within::Bytes,
        }
    }
    if within == Within::Quote {
        Some(text.len())
    } else {
        None
    }
}

fn behind(byte: u8) -> Within
    ensures { result ≡ spec.behind byte }
{
    match byte {
        b'\'' => Within::Quote,
        b'\\' => Within::Escape,
        _ => Within::Bytes,
    }
}

// The byte that stands behind `\` for another one.
fn escaped(byte: u8) -> Option<u8>
    ensures { result ≡ spec.escaped byte }
{
    match byte {
        b'0' => Some(0),
        b'\'' | b'"' | b'\\' => Some(byte),
        b'b' => Some(8),
        b'n' => Some(10),
        b'r' => Some(13),
        b't' => Some(9),
        b'Z' => Some(26),
        _ => None,
    }
}

/// What the string stands for, of whose spelling the outer quotes are taken off.
pub(crate) fn unquoted(alloc: Global, inner: &[u8]) -> Result<ByteText, AllocError>
    ensures { IfOk result (λ text. text ≡ spec.unquoted BytesFirst inner.now) }
{
    let mut bytes = Vec::with_capacity(alloc, inner.len())?;
    let mut within = Within::Bytes;
    for place in 0..inner.len() {
        let byte = inner[place];
        match within {
            Within::Bytes => match behind(byte) {
                Within::Bytes => bytes.push(byte)?,
                other => within = other,
            },
            Within::Escape => {
                bytes.push(escaped(byte).unwrap_or(byte))?;
                within = Within::Bytes;
            }
            Within::Quote => {
                bytes.push(byte)?;
                within = Within::Bytes;
            }
        }
    }
    Ok(ByteText::of_vec(bytes))
}

/// The number of bytes of the string that begins with `X'`; nothing, where it isn't closed, or has
/// an odd number of digits or another byte in it.
pub(crate) fn hex_len(text: &[u8]) -> Option<usize>
    ensures len { result ≡ spec.hex_closing 2 (drop 2 text.now) }
    ensures within { IfSome result (λ len. len ≤ length text.now) }
{
    for place in 2..text.len() {
        let byte = text[place];
        if byte == b'\'' && place % 2 == 0 {
            return Some(place + 1);
        }
        if !byte.is_ascii_hexdigit() {
            return None;
        }
    }
    None
}

fn digit(byte: u8) -> u8
    ensures value { result ≡ spec.digit byte }
    ensures small { result ≤ 15 }
{
    match byte {
        b'0'..=b'9' => byte - b'0',
        b'a'..=b'f' => byte - b'a' + 10,
        b'A'..=b'F' => byte - b'A' + 10,
        _ => 0,
    }
}

/// The bytes of these digits, two for each.
pub(crate) fn unhexed(alloc: Global, digits: &[u8]) -> Result<ByteText, AllocError>
    ensures { IfOk result (λ text. text ≡ spec.unhexed digits.now) }
{
    let count = digits.len() / 2;
    let mut bytes = Vec::with_capacity(alloc, count)?;
    for place in 0..count {
        bytes.push(digit(digits[2 * place]) * 16 + digit(digits[2 * place + 1]))?;
    }
    Ok(ByteText::of_vec(bytes))
}
