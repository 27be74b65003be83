//! A stream in pieces, pushed one after another, with lines taken in between.
ghost use Rattle.std.specs.Prelude.{◌≡◌, ◌+◌, ◌<◌, ◌≤◌, [], ◌++◌, length, min, take, vec_len, slice_get, IfOk, OnOk, IfSome};
ghost use Rattle.std.specs.List.{AllByRecursion};
ghost use Rattle.hs_line.specs.Lines.{lines_of, rest_of};
ghost use Rattle.hs_line.specs.Pieces.{stream_of, held_after, IsDrained};

use crate::buffer::LineBuf;
use crate::limits::BUFFER_SIZE;
use bytes::Bytes;
use std::alloc::{AllocError, Global};

/// A piece of a stream, and how many lines are asked for once it has come.
#[derive(Drop)]
pub struct Piece {
    pub bytes: Bytes,
    pub takes: usize,
}

/// What a run over pieces took, and what it holds.
#[derive(Drop)]
pub struct Cut {
    pub lines: Vec<Bytes>,
    pub held: LineBuf,
    /// How many of the pieces were pushed.
    pub pushed: usize,
}

/// Takes lines until none is held, or as many as are asked for.
fn take_lines(held: &mut LineBuf, lines: &mut Vec<Bytes>, asked: usize) -> Result<(), AllocError>
    ensures lines { lines.new.items ++ lines_of held.new ≡ lines.old.items ++ lines_of held.old }
    ensures rest { rest_of held.new ≡ rest_of held.old }
    ensures count { OnOk result (length lines.new.items
        ≡ length lines.old.items + min asked (length (lines_of held.old))) }
{
    for _ in 0..asked {
        lines.reserve(1)?;
        match held.take_line()? {
            Some(line) => lines.push_reserved(line),
            None => return Ok(()),
        }
    }
    Ok(())
}

/// Pushes the pieces in their order, each whole, up to the first that does not fit what is still
/// held, and takes lines after each as it asks.
pub fn cut_pieces(alloc: Global, pieces: &[Piece]) -> Result<Cut, AllocError>
    // However the stream was cut and taken, the lines and the rest are those of the whole stream.
    ensures lines { IfOk result (λ cut. cut.lines.items ++ lines_of cut.held
        ≡ lines_of (stream_of (take cut.pushed pieces.now))) }
    ensures rest { IfOk result (λ cut. rest_of cut.held
        ≡ rest_of (stream_of (take cut.pushed pieces.now))) }

    // After each piece as many lines are taken as it asks for, or all that are held.
    ensures held { IfOk result (λ cut. length (lines_of cut.held)
        ≡ held_after 0 (take cut.pushed pieces.now)) }
    ensures drained { IfOk result (λ cut. AllByRecursion IsDrained pieces.now →
        lines_of cut.held ≡ []) }

    // Only a piece that does not fit ends it early.
    ensures pushed { IfOk result (λ cut. cut.pushed ≤ length pieces.now) }
    ensures stops { IfOk result (λ cut. IfSome (slice_get pieces.now cut.pushed) (λ piece.
        BUFFER_SIZE < length cut.held + length piece.bytes)) }
{
    let mut held = LineBuf::new(alloc)?;
    let mut lines = Vec::new(alloc);
    for (pushed, piece) in pieces.iter().enumerate() {
        if held.room() < piece.bytes.len() {
            return Ok(Cut {
                lines,
                held,
                pushed,
            });
        }
        held.push(&piece.bytes);
        take_lines(&mut held, &mut lines, piece.takes)?;
    }
    Ok(Cut {
        lines,
        held,
        pushed: pieces.len(),
    })
}
