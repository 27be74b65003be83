//! However the bytes are cut, the answers are the same.
use super::dialogue::{run_script, script_of};
use hs_token::push_text;
use std::alloc::{AllocError, Global};
use std::test::Fail;

/// The lines that open id 1, insert a row and find it.
const ASKS: &[u8] = b"P\t1\ttest\tt\tPRIMARY\tid,name,n\n1\t+\t3\t1\tann\t5\n1\t=\t1\t1\n";

/// Appends a line whose last token is a piece.
fn push_line(out: &mut Vec<u8>, before: &[u8], piece: &[u8]) -> Result<(), AllocError> {
    out.extend_from_slice(before)?;
    push_text(out, piece)?;
    out.push(b'\n')?;
    Ok(())
}

/// Whether a script, read in pieces of so many bytes, is carried out to its end and prints this.
fn prints(alloc: Global, script: &[u8], pieces: usize, printed: &[u8]) -> Result<bool, AllocError> {
    let ran = run_script(alloc, script, pieces)?;
    Ok(ran.status == 0 && ran.out.bytes() == printed && ran.err.bytes().is_empty())
}

/// The script of one turn that answers a whole piece, and what it prints.
const PRINTED: &[u8] = b"sent\t1\t0\x01I1\x01J0\x01I1\x01J0\x01I3\x01I1\x01Iann\x01I5\x01J\n";

#[test]
fn a_script_is_read_in_any_pieces(rt: HostRuntime) -> Result<(), Fail> {
    let alloc = rt.alloc();
    let mut script = script_of(alloc, true, b"open 1 w\n")?;
    push_line(&mut script, b"bytes\t1\t", ASKS)?;
    script.extend_from_slice(b"turn\tw\t1\n")?;
    for pieces in [1, 2, 3, 5, 8, 64, 128, 65_536, 1_000_000] {
        assert!(rt; prints(alloc, &script, pieces, PRINTED)?);
    }
    Ok(())
}

/// The script of a peer that says all of it in two pieces, before its turn.
fn in_two(alloc: Global, at: usize) -> Result<Vec<u8>, AllocError> {
    let (first, second) = ASKS.split_at(at.min(ASKS.len()));
    let mut script = script_of(alloc, true, b"open 1 w\n")?;
    push_line(&mut script, b"bytes\t1\t", first)?;
    push_line(&mut script, b"bytes\t1\t", second)?;
    script.extend_from_slice(b"turn\tw\t1\n")?;
    Ok(script)
}

#[test]
fn a_peer_sends_two_pieces_that_are_cut_anywhere(rt: HostRuntime) -> Result<(), Fail> {
    let alloc = rt.alloc();
    for at in 0..52 {
        let script = in_two(alloc, at)?;
        assert!(rt; prints(alloc, &script, 4096, PRINTED)?);
    }
    Ok(())
}

/// Appends the replies to the lines that end in a piece, where so many ended before it.
/// Answers how many ended so far.
fn push_replies(out: &mut Vec<u8>, piece: &[u8], ended: u32) -> Result<u32, AllocError> {
    let mut ended = ended;
    for byte in piece {
        if *byte == b'\n' {
            let reply: &[u8] = if ended < 2 {
                b"0\t1\n"
            } else {
                b"0\t3\t1\tann\t5\n"
            };
            out.extend_from_slice(reply)?;
            ended = ended.saturating_add(1);
        }
    }
    Ok(ended)
}

/// Whether pieces of so many bytes, with a turn behind each, are answered by the replies to
/// the lines that end in them.
fn is_answered_in_pieces(alloc: Global, len: usize) -> Result<bool, AllocError> {
    let mut script = script_of(alloc, true, b"open 1 w\n")?;
    let mut printed = Vec::new(alloc);
    let mut ended = 0;
    for piece in ASKS.chunks(len.max(1)) {
        push_line(&mut script, b"bytes\t1\t", piece)?;
        script.extend_from_slice(b"turn\tw\t1\n")?;
        let mut replies = Vec::new(alloc);
        ended = push_replies(&mut replies, piece, ended)?;
        push_line(&mut printed, b"sent\t1\t", &replies)?;
    }
    prints(alloc, &script, 4096, &printed)
}

#[test]
fn a_turn_answers_the_lines_that_are_whole_by_then(rt: HostRuntime) -> Result<(), Fail> {
    let alloc = rt.alloc();
    for len in 1..52 {
        assert!(rt; is_answered_in_pieces(alloc, len)?);
    }
    Ok(())
}
