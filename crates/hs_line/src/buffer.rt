//! The bytes that were received and not taken yet, under the limit of a server.
ghost use Rattle.std.specs.Prelude.{◌≡◌, ◌+◌, ◌≤◌, [], ◌∷◌, ◌++◌, length, IfOk, OnErr, IfSome, IfNone};
ghost use Rattle.hs_line.specs.Lines.{has_lf, lines_of, rest_of, is_too_long};

use crate::limits::{BUFFER_SIZE, MAX_LINE_LEN};
use crate::sized::SizedLineBuf;
use bytes::Bytes;
use std::alloc::{AllocError, Global};
use std::marker::Model;

/// Bytes of a stream that were received and not taken yet, at most `BUFFER_SIZE` of them: a
/// `SizedLineBuf` for lines of at most `MAX_LINE_LEN` bytes.
#[derive(Drop)]
pub struct LineBuf {
    held: SizedLineBuf,
}

impl Model for LineBuf {
    ghost use Rattle.std.specs.Prelude.{◌≡◌, List, ℕ};
    ghost use Rattle.hs_line.specs.declared.limits.TheConstants.{MAX_LINE_LEN};

    ghost Value = { List ℕ };

    ghost view = { λ b. b.held.bytes };

    ghost invariant = { λ b. b.held.most ≡ MAX_LINE_LEN };
}

impl LineBuf {
    pub fn new(alloc: Global) -> Result<LineBuf, AllocError>
        ensures { IfOk result (λ buffer. buffer ≡ []) }
    {
        Ok(LineBuf {
            held: SizedLineBuf::new(alloc, MAX_LINE_LEN as u32)?,
        })
    }

    /// How many more bytes can be pushed.
    pub fn room(&self) -> usize
        ensures { length self.now + result ≡ BUFFER_SIZE }
    {
        self.held.room()
    }

    /// Appends a piece of the stream, and takes no memory.
    pub fn push(&mut self, piece: &[u8])
        requires { length self.old + length piece.now ≤ BUFFER_SIZE }
        ensures { self.new ≡ self.old ++ piece.now }
    {
        self.held.push(piece);
    }

    /// Takes the first line, without its LF.
    pub fn take_line(&mut self) -> Result<Option<Bytes>, AllocError>
        // The line and its LF are gone, and nothing else.
        ensures line { IfOk result (λ taken. IfSome taken (λ line.
            self.old ≡ line ++ 10 ∷ self.new)) }
        ensures first { IfOk result (λ taken. IfSome taken (λ line.
            lines_of self.old ≡ line ∷ lines_of self.new)) }

        // None comes exactly where no LF is held. Then nothing changes, nor does it without memory.
        ensures none { IfOk result (λ taken. IfNone taken (lines_of self.old ≡ [])) }
        ensures none_kept { IfOk result (λ taken. IfNone taken (self.new ≡ self.old)) }
        ensures err { OnErr result (self.new ≡ self.old) }
        ensures rest { rest_of self.new ≡ rest_of self.old }
    {
        self.held.take_line()
    }

    /// Whether an LF is held.
    pub fn has_line(&self) -> bool
        ensures { result ≡ has_lf self.now }
    {
        self.held.has_line()
    }

    /// How many bytes follow the last LF.
    pub fn rest_len(&self) -> usize
        ensures { result ≡ length (rest_of self.now) }
    {
        self.held.rest_len()
    }

    /// Whether the first line has more than `MAX_LINE_LEN` bytes, even if its LF is still to come.
    pub fn is_too_long(&self) -> bool
        ensures { result ≡ is_too_long self.now }
    {
        self.held.is_too_long()
    }
}
