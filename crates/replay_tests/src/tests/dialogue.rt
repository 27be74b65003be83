//! Scripts and what they print, as dialogues.
use super::*;
use hs_outside::{MemSink, MemSource};
use hs_token::push_text;
use std::alloc::{AllocError, Global};
use std::test::Fail;

/// The table of most scripts.
pub const TABLE: &[u8] =
    b"table test t c id int not \x00 c name bytes:32 null \x00 c n int not 0 i PRIMARY primary id i by_n index n i by_name unique name";

/// A part of a dialogue. A blank stands for a tab.
#[derive(Clone, Copy)]
pub enum Part {
    /// A line of the script.
    Line(&'static [u8]),
    /// The peer of a connection sends a piece.
    Says(u32, &'static [u8]),
    /// It is printed that a connection was sent a piece.
    Sent(u32, &'static [u8]),
    /// A line is printed.
    Prints(&'static [u8]),
}

/// Appends a text with tabs in the place of blanks.
pub fn push_tabbed(out: &mut Vec<u8>, text: &[u8]) -> Result<(), AllocError> {
    for byte in text {
        out.push(if *byte == b' ' { b'\t' } else { *byte })?;
    }
    Ok(())
}

/// A script of these lines, behind the table or not, with blanks for tabs.
pub fn script_of(alloc: Global, with_table: bool, lines: &[u8]) -> Result<Vec<u8>, AllocError> {
    let mut script = Vec::new(alloc);
    if with_table {
        push_tabbed(&mut script, TABLE)?;
        script.push(b'\n')?;
    }
    push_tabbed(&mut script, lines)?;
    Ok(script)
}

/// Appends a line whose last token is a piece.
fn push_piece(
    alloc: Global,
    out: &mut Vec<u8>,
    word: &[u8],
    conn: u32,
    piece: &[u8],
) -> Result<(), AllocError> {
    let mut tabbed = Vec::new(alloc);
    push_tabbed(&mut tabbed, piece)?;
    out.extend_from_slice(word)?;
    let mut digits = itoa::Buffer::new();
    out.extend_from_slice(digits.format(conn).as_bytes())?;
    out.push(b'\t')?;
    push_text(out, &tabbed)?;
    out.push(b'\n')?;
    Ok(())
}

/// Appends what a part says to the script, or to what it is to print.
pub fn push_part(
    alloc: Global,
    script: &mut Vec<u8>,
    printed: &mut Vec<u8>,
    part: Part,
) -> Result<(), AllocError> {
    match part {
        Part::Line(line) => {
            push_tabbed(script, line)?;
            script.push(b'\n')?;
            Ok(())
        }
        Part::Says(conn, piece) => push_piece(alloc, script, b"bytes\t", conn, piece),
        Part::Sent(conn, piece) => push_piece(alloc, printed, b"sent\t", conn, piece),
        Part::Prints(line) => {
            push_tabbed(printed, line)?;
            printed.push(b'\n')?;
            Ok(())
        }
    }
}

/// What a run ended with.
#[derive(Drop)]
pub struct Ran {
    pub status: u8,
    pub out: MemSink,
    pub err: MemSink,
}

/// Runs a script, of which so many bytes are read at once.
pub fn run_script(alloc: Global, script: &[u8], pieces: usize) -> Result<Ran, AllocError> {
    let mut words = Vec::new(alloc);
    words.push(String::from_str(alloc, "replay")?)?;
    words.push(String::from_str(alloc, "j")?)?;
    let mut script = MemSource::new(alloc, script, &[])?.in_pieces(pieces);
    let mut out = MemSink::new(alloc, &[])?;
    let mut err = MemSink::new(alloc, &[])?;
    let status = top(alloc, &words, &mut script, &mut out, &mut err);
    Ok(Ran { status, out, err })
}

/// Holds a dialogue, and looks whether all that it says is printed, and nothing else.
pub fn holds(rt: &HostRuntime, dialogue: &[Part]) -> Result<bool, Fail> {
    let alloc = rt.alloc();
    let mut script = Vec::new(alloc);
    let mut printed = Vec::new(alloc);
    for part in dialogue {
        push_part(alloc, &mut script, &mut printed, *part)?;
    }
    let ran = run_script(alloc, &script, 4096)?;
    Ok(ran.status == 0 && ran.out.bytes() == printed.as_slice() && ran.err.bytes().is_empty())
}
