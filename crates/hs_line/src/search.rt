//! Where the first LF and the last stand.
ghost use Rattle.std.specs.Prelude.{◌≡◌, ◌+◌, ◌<◌, ◌^◌, ℕ, List, ◌++◌, length};
ghost use Rattle.hs_line.specs.Held.{FirstLine};
ghost use Rattle.hs_line.specs.Lines.{rest_of};

use memchr::{memchr, memrchr};

/// The length of the first line, where an LF is there.
pub fn first_line_len(bytes: &[u8]) -> Option<usize>
    ensures { FirstLine bytes.now result }
{
    memchr(b'\n', bytes)
}

/// The same after a piece was appended to so many bytes. Only the piece is searched, and only where
/// no line was held.
pub fn first_line_len_with(line_len: Option<usize>, held_len: usize, piece: &[u8]) -> Option<usize>
    requires { held_len + length piece.now < 2 ^ 64 }
    ensures { (held : List ℕ) → length held ≡ held_len → FirstLine held line_len →
        FirstLine (held ++ piece.now) result }
{
    if let Some(len) = line_len {
        return Some(len);
    }
    match first_line_len(piece) {
        Some(len) => Some(held_len + len),
        None => None,
    }
}

/// How many bytes follow the last LF.
pub fn rest_len(bytes: &[u8]) -> usize
    ensures { result ≡ length (rest_of bytes.now) }
{
    match memrchr(b'\n', bytes) {
        Some(last) => bytes.len() - (last + 1),
        None => bytes.len(),
    }
}
