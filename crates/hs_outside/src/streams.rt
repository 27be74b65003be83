//! Sources and sinks over the readers and writers of std, which may tell their bytes or not.
ghost use Rattle.std.specs.Prelude.{◌≡◌, ◌<◌, ◌≤◌, [], None, OnOk, length, false};
ghost use Rattle.std.specs.Io.KnownBytes.{Keeps};
ghost use Rattle.hs_outside.specs.Streams.{ReadDoes, WriteDoes, SendDoes};
ghost use Rattle.hs_outside.specs.Told.{unknown_source, unknown_sink, ReadTells, WriteTells};

use crate::sinks::{Failed, Sink, Wrote};
use crate::sources::{Read, Source};
use fault_count::raised;
use std::io;

/// Reads from any reader. As a source it tells no bytes, since a reader may begin or cease to tell
/// them: its own calls say what the reader tells.
#[derive(Drop)]
pub struct StreamSource<R> {
    pub reader: R,
    pub faults: u64,
    pub is_ended: bool,
}

/// Writes to any writer. As a sink it tells no bytes, as a `StreamSource`.
#[derive(Drop)]
pub struct StreamSink<W> {
    pub writer: W,
    pub faults: u64,
}

impl<R> StreamSource<R> {
    pub fn new(reader: R) -> StreamSource<R>
        ensures { result ≡ record { reader = reader; faults = 0; is_ended = false } }
    {
        StreamSource {
            reader,
            faults: 0,
            is_ended: false,
        }
    }
}

impl<W> StreamSink<W> {
    pub fn new(writer: W) -> StreamSink<W>
        ensures { result ≡ record { writer = writer; faults = 0 } }
    {
        StreamSink { writer, faults: 0 }
    }
}

impl<R: io::Read> Source for StreamSource<R> {
    ghost giver = { unknown_source };

    fn faults(&self) -> u64 {
        self.faults
    }

    fn ended(&self) -> bool {
        self.is_ended
    }

    fn read(&mut self, buffer: &mut [u8]) -> Read
        requires { 0 < length buffer.old }
        ensures gives { ReadDoes result (unknown_source self.old) (unknown_source self.new)
            buffer.new }
        ensures later { self.old.faults ≤ self.new.faults }
        ensures tells { ReadTells result (R.remaining self.old.reader) (R.remaining self.new.reader)
            buffer.new }
    {
        match self.reader.read(buffer) {
            Ok(0) => {
                self.is_ended = true;
                Read::End
            }
            Ok(count) => Read::Got(count),
            Err(_) => {
                self.faults = raised(self.faults);
                Read::Failed
            }
        }
    }
}

impl<W: io::Write> Sink for StreamSink<W> {
    ghost taker = { unknown_sink };

    fn faults(&self) -> u64 {
        self.faults
    }

    /// A writer that takes nothing has failed: to go on would be to wait for ever.
    fn write(&mut self, bytes: &[u8]) -> Wrote
        requires { 0 < length bytes.now }
        ensures takes { WriteDoes result (unknown_sink self.old) (unknown_sink self.new) bytes.now }
        ensures later { self.old.faults ≤ self.new.faults }
        ensures tells { WriteTells result (W.contents self.old.writer) (W.contents self.new.writer)
            bytes.now }
    {
        match self.writer.write(bytes) {
            Ok(count) if count > 0 => Wrote::Took(count),
            _ => {
                self.faults = raised(self.faults);
                Wrote::Failed
            }
        }
    }

    fn flush(&mut self) -> Result<(), Failed>
        ensures sends { SendDoes result (unknown_sink self.old) (unknown_sink self.new) [] }
        ensures later { self.old.faults ≤ self.new.faults }
        ensures tells { Keeps (W.contents self.old.writer) (W.contents self.new.writer) }
    {
        if self.writer.flush().is_err() {
            self.faults = raised(self.faults);
            return Err(Failed);
        }
        Ok(())
    }
}
