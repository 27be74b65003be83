//! The replies that show no rows.
ghost use Rattle.std.specs.Prelude.{◌≡◌, ◌++◌, OnOk, Some};
ghost use Rattle.batch_answers.specs.Replies.{code_reply, count_reply, insert_reply};

use hs_token::{push_head, push_integer, push_text};
use request_types::text_of;
use std::alloc::AllocError;

const TAB: u8 = 0x09;

const LINE_FEED: u8 = 0x0A;

/// Appends the reply that is a code alone, or a part of it where memory runs out.
pub(crate) fn push_code(out: &mut Vec<u8>, code: u32) -> Result<(), AllocError>
    ensures { OnOk result (out.new.items ≡ out.old.items ++ code_reply code) }
{
    push_head(out, code, 1)?;
    if code == 0 {
        return Ok(out.push(LINE_FEED)?);
    }
    out.push(TAB)?;
    push_text(out, text_of(code).as_bytes())?;
    Ok(out.push(LINE_FEED)?)
}

/// Appends the reply to an insert, or a part of it where memory runs out.
pub(crate) fn push_inserted(out: &mut Vec<u8>, number: Option<i64>) -> Result<(), AllocError>
    ensures { OnOk result (out.new.items ≡ out.old.items ++ insert_reply number) }
{
    match number {
        None => push_code(out, 0),
        Some(number) => push_number(out, number),
    }
}

// Appends the reply to an insert that drew this number.
fn push_number(out: &mut Vec<u8>, number: i64) -> Result<(), AllocError>
    ensures { OnOk result (out.new.items ≡ out.old.items ++ insert_reply (Some number)) }
{
    push_head(out, 0, 1)?;
    out.push(TAB)?;
    push_integer(out, number)?;
    Ok(out.push(LINE_FEED)?)
}

/// Appends the reply to a change that shows no rows, or a part of it where memory runs out.
pub(crate) fn push_count(out: &mut Vec<u8>, count: u32) -> Result<(), AllocError>
    ensures { OnOk result (out.new.items ≡ out.old.items ++ count_reply count) }
{
    push_head(out, 0, 1)?;
    out.push(TAB)?;
    push_integer(out, i64::from(count))?;
    Ok(out.push(LINE_FEED)?)
}
