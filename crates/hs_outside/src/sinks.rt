//! Where bytes go.
ghost use Rattle.std.specs.Prelude.{◌≡◌, ◌<◌, ◌≤◌, [], length};
ghost use Rattle.hs_outside.specs.Streams.{Taker, WriteDoes, SendDoes};

/// What came of a write.
#[derive(Clone, Copy, Debug, PartialEq, Eq)]
pub enum Wrote {
    /// So many bytes of the front were taken: at least one.
    Took(usize),
    /// The write failed, and the sink's count of faults rose.
    Failed,
}

/// A call of a sink failed, and its count of faults rose.
#[derive(Clone, Copy, Debug, PartialEq, Eq)]
pub struct Failed;

/// Something that takes bytes.
pub trait Sink {
    /// What is known of it.
    ghost taker: { Self → Taker };

    /// How many calls failed. A count at its type's end stands still.
    fn faults(&self) -> u64
        ensures { result ≡ (taker self.now).faults };

    /// Takes bytes from the front.
    fn write(&mut self, bytes: &[u8]) -> Wrote
        requires { 0 < length bytes.now }
        ensures takes { WriteDoes result (taker self.old) (taker self.new) bytes.now }
        ensures later { (taker self.old).faults ≤ (taker self.new).faults };

    /// Passes on what was taken, so that it doesn't wait in a buffer.
    fn flush(&mut self) -> Result<(), Failed>
        ensures sends { SendDoes result (taker self.old) (taker self.new) [] }
        ensures later { (taker self.old).faults ≤ (taker self.new).faults };
}
