//! The bytes that were received and not taken yet, under a limit of the caller's.
ghost use Rattle.std.specs.Prelude.{◌≡◌, ◌+◌, ◌*◌, ◌≤◌, [], ◌∷◌, ◌++◌, length, IfOk, OnErr, IfSome, IfNone};
ghost use Rattle.hs_line.specs.Lines.{has_lf, lines_of, rest_of, starts_longer};

use crate::search::{first_line_len, first_line_len_with, rest_len};
use crate::space::{remove_front, restart};
use bytes::Bytes;
use std::alloc::{AllocError, Global};
use std::marker::Model;

/// Bytes of a stream that were received and not taken yet, at most twice as many as a line may
/// have.
///
/// All its memory is taken by `new`. Each byte is looked at once in the search for an LF, and is
/// copied out once when its line is taken.
#[derive(Drop)]
pub struct SizedLineBuf {
    bytes: Vec<u8>,
    // How many bytes at the front were taken.
    taken: usize,
    // The length of the first line after them, where an LF is held.
    line_len: Option<usize>,
    // How many bytes a line may have.
    most: usize,
}

impl Model for SizedLineBuf {
    ghost use Rattle.std.specs.Prelude.{List, ℕ, ◌+◌, ◌*◌, ◌≤◌, ◌<◌, ◌^◌, drop, vec_len, vec_capacity};
    ghost use Rattle.hs_line.specs.Held.{FirstLine, Held};

    ghost Value = { Held };

    ghost view = { λ b. record { bytes = drop b.taken b.bytes.items; most = b.most } };

    // The room stays reserved, no more was taken than came and no more is held than may be, the
    // first line is known, and the limit is one that `new` takes.
    ghost invariant = { λ b. (2 * b.most ≤ vec_capacity b.bytes)
        × (b.taken ≤ vec_len b.bytes)
        × (vec_len b.bytes ≤ b.taken + 2 * b.most)
        × FirstLine (drop b.taken b.bytes.items) b.line_len
        × (b.most < 2 ^ 32) };
}

impl SizedLineBuf {
    /// An empty buffer for lines of at most so many bytes.
    pub fn new(alloc: Global, most: u32) -> Result<SizedLineBuf, AllocError>
        ensures bytes { IfOk result (λ buffer. buffer.bytes ≡ []) }
        ensures most { IfOk result (λ buffer. buffer.most ≡ most) }
    {
        let most = most as usize;
        // With this much more than is ever held, held bytes are moved to the front only once more
        // than half as many were taken since the last move. So a stream costs time in proportion to
        // its bytes, however it is pushed and taken.
        let reserved = 3 * most;
        Ok(SizedLineBuf {
            bytes: Vec::with_capacity(alloc, reserved)?,
            taken: 0,
            line_len: None,
            most,
        })
    }

    /// How many more bytes can be pushed.
    pub fn room(&self) -> usize
        ensures { length self.now.bytes + result ≡ 2 * self.now.most }
    {
        2 * self.most - (self.bytes.len() - self.taken)
    }

    /// Appends a piece of the stream, and takes no memory.
    pub fn push(&mut self, piece: &[u8])
        requires { length self.old.bytes + length piece.now ≤ 2 * self.old.most }
        ensures bytes { self.new.bytes ≡ self.old.bytes ++ piece.now }
        ensures most { self.new.most ≡ self.old.most }
    {
        if self.bytes.capacity() - self.bytes.len() < piece.len() {
            remove_front(&mut self.bytes, self.taken);
            self.taken = 0;
        }
        self.line_len = first_line_len_with(self.line_len, self.bytes.len() - self.taken, piece);
        if self.bytes.extend_from_slice(piece).is_err() {
            unreachable!();
        }
    }

    /// Takes the first line, without its LF.
    pub fn take_line(&mut self) -> Result<Option<Bytes>, AllocError>
        // The line and its LF are gone, and nothing else.
        ensures line { IfOk result (λ taken. IfSome taken (λ line.
            self.old.bytes ≡ line ++ 10 ∷ self.new.bytes)) }
        ensures first { IfOk result (λ taken. IfSome taken (λ line.
            lines_of self.old.bytes ≡ line ∷ lines_of self.new.bytes)) }

        // None comes exactly where no LF is held. Then nothing changes, nor does it without memory.
        ensures none { IfOk result (λ taken. IfNone taken (lines_of self.old.bytes ≡ [])) }
        ensures none_kept { IfOk result (λ taken. IfNone taken (self.new ≡ self.old)) }
        ensures err { OnErr result (self.new ≡ self.old) }
        ensures rest { rest_of self.new.bytes ≡ rest_of self.old.bytes }
        ensures most { self.new.most ≡ self.old.most }
    {
        let Some(len) = self.line_len else {
            return Ok(None);
        };
        let end = self.taken + len;
        let line = Bytes::copy_from_slice(*self.bytes.allocator(), &self.bytes[self.taken..end])?;
        self.taken = restart(&mut self.bytes, end + 1);
        self.line_len = first_line_len(&self.bytes[self.taken..]);
        Ok(Some(line))
    }

    /// Whether an LF is held.
    pub fn has_line(&self) -> bool
        ensures { result ≡ has_lf self.now.bytes }
    {
        self.line_len.is_some()
    }

    /// How many bytes follow the last LF.
    pub fn rest_len(&self) -> usize
        ensures { result ≡ length (rest_of self.now.bytes) }
    {
        let held = &self.bytes[self.taken..];
        if self.line_len.is_none() {
            return held.len();
        }
        rest_len(held)
    }

    /// Whether the first line has more bytes than a line may have, even if its LF is still to come.
    pub fn is_too_long(&self) -> bool
        ensures { result ≡ starts_longer self.now.most self.now.bytes }
    {
        match self.line_len {
            Some(len) => len > self.most,
            None => self.bytes.len() - self.taken > self.most,
        }
    }
}
