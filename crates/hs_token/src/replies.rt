//! Writing a reply.
ghost use Rattle.std.specs.Prelude.{◌≡◌, ◌++◌, OnOk, OnErr, decimal};
ghost use Rattle.hs_token.specs.Spelling.{reply_head, reply_line};
ghost use Rattle.hs_token.specs.Steps.{Extends};

use crate::spelling::append_behind_tabs;
use crate::tokens::{LINE_FEED, TAB, Token};
use itoa::Buffer;
use std::alloc::AllocError;

/// Appends a reply: the code, the number of columns, the tokens and the LF.
pub fn push_reply(
    out: &mut Vec<u8>,
    code: u32,
    columns: u32,
    tokens: &[Token],
) -> Result<(), AllocError>
    ensures ok { OnOk result (out.new.items ≡ out.old.items ++ reply_line code columns tokens.now) }
    ensures err { OnErr result (out.new.items ≡ out.old.items) }
{
    let len = out.len();
    let pushed = append_reply(out, code, columns, tokens);
    if pushed.is_err() {
        out.truncate(len);
    }
    pushed
}

fn append_reply(
    out: &mut Vec<u8>,
    code: u32,
    columns: u32,
    tokens: &[Token],
) -> Result<(), AllocError>
    ensures ok { OnOk result (out.new.items ≡ out.old.items ++ reply_line code columns tokens.now) }
    ensures err { OnErr result (Extends out.old.items out.new.items) }
{
    append_head(out, code, columns)?;
    append_behind_tabs(out, tokens)?;
    Ok(out.push(LINE_FEED)?)
}

/// Appends what a reply begins with, or a part of it where memory runs out.
pub(crate) fn append_head(out: &mut Vec<u8>, code: u32, columns: u32) -> Result<(), AllocError>
    ensures ok { OnOk result (out.new.items ≡ out.old.items ++ reply_head code columns) }
    ensures err { OnErr result (Extends out.old.items out.new.items) }
{
    append_number(out, code)?;
    out.push(TAB)?;
    append_number(out, columns)
}

fn append_number(out: &mut Vec<u8>, number: u32) -> Result<(), AllocError>
    ensures ok { OnOk result (out.new.items ≡ out.old.items ++ decimal number) }
    ensures err { OnErr result (out.new.items ≡ out.old.items) }
{
    let mut buffer = Buffer::new();
    out.extend_from_slice(buffer.format(number).as_bytes())
}
