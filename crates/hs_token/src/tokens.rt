//! A token, and how its bytes are written.
ghost use Rattle.std.specs.Prelude.{◌≡◌, ◌+◌, ◌≤◌, ◌++◌, length, OnOk, OnErr, vec_len, vec_capacity};
ghost use Rattle.hs_token.specs.Spelling.{byte_spelled, text_spelled, token_spelled};
ghost use Rattle.hs_token.specs.Steps.{escapes_in};

use bytes::Bytes;
use std::alloc::AllocError;

/// What stands between two tokens of a line.
pub const TAB: u8 = 0x09;

/// What ends a line, and stands in none.
pub const LINE_FEED: u8 = 0x0A;

/// The byte before a byte of a text that would not stand for itself.
pub(crate) const ESCAPE: u8 = 0x01;

/// The first byte that stands for itself.
pub(crate) const PLAIN: u8 = 0x10;

/// What is added to a byte below `PLAIN`, so that it stands behind an `ESCAPE`.
pub(crate) const SHIFT: u8 = 0x40;

/// What stands between two tabs: a text may hold any bytes.
#[derive(Debug, PartialEq, Eq, Drop)]
pub enum Token {
    Null,
    Text(Bytes),
}

/// Appends the spelling of a token.
pub fn push_token(out: &mut Vec<u8>, token: &Token) -> Result<(), AllocError>
    ensures ok { OnOk result (out.new.items ≡ out.old.items ++ token_spelled token.now) }
    ensures err { OnErr result (out.new.items ≡ out.old.items) }
{
    match token {
        Token::Null => Ok(out.push(0)?),
        Token::Text(text) => push_text(out, text.as_slice()),
    }
}

/// Appends the spelling of a text.
pub fn push_text(out: &mut Vec<u8>, text: &[u8]) -> Result<(), AllocError>
    ensures ok { OnOk result (out.new.items ≡ out.old.items ++ text_spelled text.now) }
    ensures err { OnErr result (out.new.items ≡ out.old.items) }
{
    let escapes = count_escapes(text);
    if escapes == 0 {
        return out.extend_from_slice(text);
    }
    // All the memory is taken first, so that no part of a text is ever left.
    out.reserve(text.len() + escapes)?;
    for byte in text {
        append_byte(out, *byte);
    }
    Ok(())
}

/// How many bytes of a text don't stand for themselves.
fn count_escapes(text: &[u8]) -> usize
    ensures { result ≡ escapes_in text.now }
{
    let mut escapes = 0;
    for byte in text {
        if *byte < PLAIN {
            escapes += 1;
        }
    }
    escapes
}

/// Appends what stands for a byte, which there is room for.
fn append_byte(out: &mut Vec<u8>, byte: u8)
    requires { vec_len out.old + length (byte_spelled byte) ≤ vec_capacity out.old }
    ensures items { out.new.items ≡ out.old.items ++ byte_spelled byte }
    ensures len { vec_len out.new ≡ vec_len out.old + length (byte_spelled byte) }
    ensures capacity { vec_capacity out.new ≡ vec_capacity out.old }
{
    if byte < PLAIN {
        out.push_reserved(ESCAPE);
        out.push_reserved(byte + SHIFT);
    } else {
        out.push_reserved(byte);
    }
}
