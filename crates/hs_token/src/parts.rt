//! The parts of a reply that are numbers, for callers that don't make tokens of them.
ghost use Rattle.std.specs.Prelude.{◌≡◌, ◌++◌, OnOk, OnErr, decimal};
ghost use Rattle.std.specs.Fmt.{signed_decimal};
ghost use Rattle.hs_token.specs.Spelling.{text_spelled, reply_head};

use crate::replies::append_head;
use itoa::Buffer;
use std::alloc::AllocError;

/// Appends what a reply begins with: the code, HT and the number of columns. HT and a token follow
/// for each cell, then LF.
pub fn push_head(out: &mut Vec<u8>, code: u32, columns: u32) -> Result<(), AllocError>
    ensures ok { OnOk result (out.new.items ≡ out.old.items ++ reply_head code columns) }
    ensures err { OnErr result (out.new.items ≡ out.old.items) }
{
    let len = out.len();
    let pushed = append_head(out, code, columns);
    if pushed.is_err() {
        out.truncate(len);
    }
    pushed
}

/// Appends an integer in its printed form, which stands for itself.
pub fn push_integer(out: &mut Vec<u8>, number: i64) -> Result<(), AllocError>
    ensures ok { OnOk result
        (out.new.items ≡ out.old.items ++ text_spelled (signed_decimal number)) }
    ensures err { OnErr result (out.new.items ≡ out.old.items) }
{
    let mut buffer = Buffer::new();
    out.extend_from_slice(buffer.format(number).as_bytes())?;
    Ok(())
}

/// Appends a number in its printed form, which stands for itself.
pub fn push_u64(out: &mut Vec<u8>, number: u64) -> Result<(), AllocError>
    ensures ok { OnOk result (out.new.items ≡ out.old.items ++ text_spelled (decimal number)) }
    ensures err { OnErr result (out.new.items ≡ out.old.items) }
{
    let mut buffer = Buffer::new();
    out.extend_from_slice(buffer.format(number).as_bytes())?;
    Ok(())
}
