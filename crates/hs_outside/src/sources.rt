//! Where bytes come from.
ghost use Rattle.std.specs.Prelude.{◌≡◌, ◌<◌, ◌≤◌, length};
ghost use Rattle.hs_outside.specs.Streams.{Giver, ReadDoes};

/// What came of a read.
#[derive(Clone, Copy, Debug, PartialEq, Eq)]
pub enum Read {
    /// So many bytes stand at the front of the buffer: at least one.
    Got(usize),
    /// Nothing is left, and nothing will come.
    End,
    /// The read failed, and the source's count of faults rose. A later read may succeed.
    Failed,
}

/// Something that gives bytes, one piece a read.
pub trait Source {
    /// What is known of it.
    ghost giver: { Self → Giver };

    /// How many reads failed. A count at its type's end stands still.
    fn faults(&self) -> u64
        ensures { result ≡ (giver self.now).faults };

    /// Whether a read has answered the end.
    fn ended(&self) -> bool
        ensures { result ≡ (giver self.now).is_ended };

    /// Reads bytes to the front of the buffer.
    fn read(&mut self, buffer: &mut [u8]) -> Read
        requires { 0 < length buffer.old }
        ensures gives { ReadDoes result (giver self.old) (giver self.new) buffer.new }
        ensures later { (giver self.old).faults ≤ (giver self.new).faults };
}
