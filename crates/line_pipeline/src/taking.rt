//! Taking whole lines.
ghost use Rattle.std.specs.Prelude.{◌≡◌, [], ◌∷◌, ◌++◌, take, IfOk, IfSome, IfNone};
ghost use Rattle.hs_line.specs.Lines.{whole_lines};
ghost use Rattle.line_pipeline.specs.Live.{behind};

use bytes::Bytes;
use hs_line::LineBuf;
use std::alloc::{AllocError, Global};

/// Takes the first line, unless it is too long.
fn take_whole(held: &mut LineBuf) -> Result<Option<Bytes>, AllocError>
    ensures line { IfOk result (λ taken. IfSome taken (λ line. held.old ≡ line ++ 10 ∷ held.new)) }
    ensures first { IfOk result (λ taken. IfSome taken (λ line.
        whole_lines held.old ≡ line ∷ whole_lines held.new)) }
    ensures none { IfOk result (λ taken. IfNone taken (whole_lines held.old ≡ [])) }
    ensures kept { IfOk result (λ taken. IfNone taken (held.new ≡ held.old)) }
{
    let ends_here = held.is_too_long();
    if ends_here {
        return Ok(None);
    }
    let Some(line) = held.take_line()? else {
        return Ok(None);
    };
    Ok(Some(line))
}

/// Takes the first lines, as many as are asked for, up to the first that is too long.
pub fn take_lines(alloc: Global, held: &mut LineBuf, most: usize) -> Result<Vec<Bytes>, AllocError>
    ensures lines { IfOk result (λ lines. lines.items ≡ take most (whole_lines held.old)) }
    ensures rest { IfOk result (λ lines. held.new ≡ behind lines.items held.old) }
{
    let mut lines = Vec::new(alloc);
    for _ in 0..most {
        lines.reserve(1)?;
        let Some(line) = take_whole(held)? else {
            return Ok(lines);
        };
        lines.push_reserved(line);
    }
    Ok(lines)
}
