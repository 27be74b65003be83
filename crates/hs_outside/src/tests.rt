//! That bytes are had, taken and kept, in memory and over streams that do little a call.
use super::*;
use std::io;
use std::io::ErrorKind;
use std::test::Fail;

/// A writer that takes one byte a call.
#[derive(Drop)]
struct OneByteWriter {
    taken: Vec<u8>,
}

impl io::Write for OneByteWriter {
    fn write(&mut self, buf: &[u8]) -> io::Result<usize> {
        let count = buf.len().min(1);
        self.taken.extend_from_slice(&buf[..count])?;
        Ok(count)
    }

    fn flush(&mut self) -> io::Result<()> {
        Ok(())
    }
}

/// A reader that gives one byte a call, and fails its second call.
#[derive(Drop)]
struct OneByteReader {
    left: &'static [u8],
    calls: u8,
}

impl io::Read for OneByteReader {
    fn read(&mut self, buf: &mut [u8]) -> io::Result<usize> {
        self.calls = self.calls.saturating_add(1);
        if self.calls == 2 {
            return Err(ErrorKind::Interrupted.into());
        }
        let count = self.left.len().min(buf.len()).min(1);
        buf[..count].copy_from_slice(&self.left[..count]);
        self.left = &self.left[count..];
        Ok(count)
    }
}

#[test]
fn all_bytes_are_taken_in_as_many_writes_as_it_needs(rt: HostRuntime) -> Result<(), Fail> {
    let mut memory = MemSink::new(rt.alloc(), &[])?.in_pieces(2);
    let mut stream = StreamSink::new(OneByteWriter {
        taken: Vec::new(rt.alloc()),
    });
    assert_eq!(rt; write_all(&mut memory, b"hello"), Ok(()));
    assert_eq!(rt; write_all(&mut stream, b"hello"), Ok(()));
    assert_eq!(rt; memory.bytes(), b"hello".as_slice());
    assert_eq!(rt; stream.writer.taken.as_slice(), b"hello".as_slice());
    Ok(())
}

#[test]
fn a_read_that_fails_can_be_asked_again(rt: HostRuntime) -> Result<(), Fail> {
    let mut memory = MemSource::new(rt.alloc(), b"ab", &[2])?.in_pieces(1);
    let mut stream = StreamSource::new(OneByteReader {
        left: b"ab",
        calls: 0,
    });
    for (answer, front) in [
        (Read::Got(1), b'a'),
        (Read::Failed, 0),
        (Read::Got(1), b'b'),
        (Read::End, 0),
    ] {
        let mut buffers = [[0; 2], [0; 2]];
        assert_eq!(rt; memory.read(&mut buffers[0]), answer);
        assert_eq!(rt; stream.read(&mut buffers[1]), answer);
        assert_eq!(rt; buffers, [[front, 0], [front, 0]]);
    }
    assert!(rt; memory.ended() && stream.ended());
    assert_eq!(rt; (memory.faults(), stream.faults()), (1, 1));
    Ok(())
}

#[test]
fn a_link_keeps_what_was_sent_both_ways(rt: HostRuntime) -> Result<(), Fail> {
    let mut link = MemLink::new(rt.alloc());
    let mut buffer = [0; 4];
    link.peer_bytes(b"ab")?;
    link.peer_bytes(b"c")?;
    assert_eq!(rt; link.recv(&mut buffer), Recv::Got(3));
    assert_eq!(rt; buffer, [b'a', b'b', b'c', 0]);
    assert_eq!(rt; link.send(b"de"), Sent::Took(2));
    assert_eq!(rt; link.send(b"f"), Sent::Took(1));
    assert_eq!(rt; link.sent(), b"def".as_slice());
    Ok(())
}
