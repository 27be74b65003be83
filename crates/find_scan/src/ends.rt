//! The end of a reply: its LF, or its removal where it has too many bytes.
ghost use Rattle.std.specs.Prelude.{◌≡◌, ◌-◌, ◌≤◌, [], ◌∷◌, ◌++◌, length, take, drop, nat_lt, OnErr, IfOk};
ghost use Rattle.find_scan.specs.Show.{most_reply};
ghost use Rattle.find_scan.specs.Rendering.{rendered, shown};

use crate::replies::Rendered;
use hs_token::LINE_FEED;
use std::alloc::AllocError;

/// The most bytes that a reply may have, its LF with them.
pub(crate) const MOST: usize = 16_777_216;

/// Whether a reply that begins at a place has room for its LF. Without that it is too big, whatever
/// else follows.
pub fn has_room(out: &[u8], start: usize) -> bool
    requires { start ≤ length out.now }
    ensures { result ≡ nat_lt (length out.now - start) most_reply }
{
    out.len() - start < MOST
}

/// Ends the reply that begins at a place with its LF. One of too many bytes is taken away, and so
/// is one for whose LF there is no memory.
pub fn end_reply(out: &mut Vec<u8>, start: usize) -> Result<Rendered, AllocError>
    requires { start ≤ length out.old.items }
    ensures size { IfOk result (λ r. r ≡ rendered (drop start out.old.items ++ 10 ∷ [])) }
    ensures shown { IfOk result (λ r. out.new.items ≡ take start out.old.items
        ++ shown r (drop start out.old.items ++ 10 ∷ [])) }
    ensures err { OnErr result (out.new.items ≡ take start out.old.items) }
{
    if !has_room(out, start) {
        out.truncate(start);
        return Ok(Rendered::TooBig);
    }
    match out.push(LINE_FEED) {
        Ok(()) => Ok(Rendered::Fits),
        Err(_) => {
            out.truncate(start);
            Err(AllocError)
        }
    }
}
