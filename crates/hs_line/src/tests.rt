//! Streams in pieces, and buffers of many sizes: that memory is had for them, and that they move
//! between threads.
use crate::{Cut, LineBuf, Piece, SizedLineBuf, cut_pieces};
use bytes::Bytes;
use std::alloc::{AllocError, Global};

fn piece(alloc: Global, text: &[u8], takes: usize) -> Result<Piece, AllocError> {
    Ok(Piece {
        bytes: Bytes::copy_from_slice(alloc, text)?,
        takes,
    })
}

#[test]
fn pieces_are_cut_where_an_lf_stands(rt: HostRuntime) -> Result<(), AllocError> {
    let alloc = rt.alloc();
    let pieces = vec![in alloc;
        piece(alloc, b"one\ntw", 0)?,
        piece(alloc, b"", 3)?,
        piece(alloc, b"o\r\n\n\nfi", 2)?,
        piece(alloc, b"ve\nsix", 9)?,
    ]?;
    let Cut {
        lines,
        held,
        pushed,
    } = cut_pieces(alloc, &pieces)?;
    let wanted: [&[u8]; 5] = [b"one", b"two\r", b"", b"", b"five"];
    assert_eq!(rt; (pushed, lines.len(), held.rest_len()), (4, 5, 3));
    for (line, want) in lines.iter().zip(wanted) {
        assert_eq!(rt; line.as_slice(), want);
    }
    Ok(())
}

#[test]
fn the_longest_line_is_taken_at_any_size(rt: HostRuntime) -> Result<(), AllocError> {
    let alloc = rt.alloc();
    for most in [1, 2, 65_536, 16_777_215] {
        let mut buffer = SizedLineBuf::new(alloc, most)?;
        let line = vec![in alloc; b'x'; most as usize]?;
        buffer.push(&line);
        buffer.push(b"\n");
        assert!(rt; !buffer.is_too_long(), "lines of {most} bytes");
        let taken = buffer.take_line()?.unwrap_or_default();
        assert_eq!(rt; taken.len(), line.len());
    }
    Ok(())
}

fn crosses_threads<T: Send>(_value: &T) {}

#[test]
fn a_buffer_crosses_threads(rt: HostRuntime) -> Result<(), AllocError> {
    crosses_threads(&LineBuf::new(rt.alloc())?);
    crosses_threads(&SizedLineBuf::new(rt.alloc(), 1)?);
    Ok(())
}
