//! A peer's bytes both ways.
ghost use Rattle.std.specs.Prelude.{◌≡◌, ◌<◌, ◌≤◌, length};
ghost use Rattle.hs_outside.specs.Links.{Peer, RecvDoes, SentDoes};

/// What came of asking a link for the peer's bytes.
#[derive(Clone, Copy, Debug, PartialEq, Eq)]
pub enum Recv {
    /// So many bytes stand at the front of the buffer: at least one.
    Got(usize),
    /// No byte is there now, and the link's count of such answers rose.
    NotYet,
    /// The peer has ended, and all its bytes were received.
    End,
    /// The call failed, and the link's count of faults rose.
    Failed,
}

/// What came of handing a link bytes for the peer.
#[derive(Clone, Copy, Debug, PartialEq, Eq)]
pub enum Sent {
    /// So many bytes of the front were taken: at least one.
    Took(usize),
    /// The link takes no byte now, and its count of such answers rose.
    NotYet,
    /// The call failed, and the link's count of faults rose.
    Failed,
}

/// A connection's other side. No call waits.
pub trait Link {
    /// What is known of it.
    ghost peer: { Self → Peer };

    /// How many calls failed. A count at its type's end stands still.
    fn faults(&self) -> u64
        ensures { result ≡ (peer self.now).faults };

    /// How many calls answered that nothing can be done yet. A count at its type's end stands
    /// still.
    fn idle(&self) -> u64
        ensures { result ≡ (peer self.now).idle };

    /// Whether a call has answered the peer's end.
    fn ended(&self) -> bool
        ensures { result ≡ (peer self.now).is_ended };

    /// Receives bytes to the front of the buffer.
    fn recv(&mut self, buffer: &mut [u8]) -> Recv
        requires { 0 < length buffer.old }
        ensures gives { RecvDoes result (peer self.old) (peer self.new) buffer.new }
        ensures later { (peer self.old).faults ≤ (peer self.new).faults };

    /// Sends bytes from the front.
    fn send(&mut self, bytes: &[u8]) -> Sent
        requires { 0 < length bytes.now }
        ensures takes { SentDoes result (peer self.old) (peer self.new) bytes.now }
        ensures later { (peer self.old).faults ≤ (peer self.new).faults };
}
