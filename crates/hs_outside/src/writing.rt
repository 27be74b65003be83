//! Bytes that are to be taken whole.
ghost use Rattle.std.specs.Prelude.{◌≤◌};
ghost use Rattle.hs_outside.specs.Streams.{SendDoes};

use crate::sinks::{Failed, Sink, Wrote};

/// Has all the bytes taken, in as many writes as the sink needs, and passed on. After a failure a
/// front of them was taken.
pub fn write_all<K: Sink>(sink: &mut K, bytes: &[u8]) -> Result<(), Failed>
    ensures sends { SendDoes result (K.taker sink.old) (K.taker sink.new) bytes.now }
    ensures later { (K.taker sink.old).faults ≤ (K.taker sink.new).faults }
{
    write_each(sink, bytes)?;
    sink.flush()
}

fn write_each<K: Sink>(sink: &mut K, bytes: &[u8]) -> Result<(), Failed>
    ensures sends { SendDoes result (K.taker sink.old) (K.taker sink.new) bytes.now }
    ensures later { (K.taker sink.old).faults ≤ (K.taker sink.new).faults }
{
    let mut rest = bytes;
    while !rest.is_empty() {
        match sink.write(rest) {
            Wrote::Took(count) => rest = &rest[count..],
            Wrote::Failed => return Err(Failed),
        }
    }
    Ok(())
}
