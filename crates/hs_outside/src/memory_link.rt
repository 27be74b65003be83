//! A link whose peer is in memory: what it sends, takes and fails is said beforehand.
ghost use Rattle.std.specs.Prelude.{ℕ, true, false, min, ◌≡◌, ◌≢◌, ◌↔◌, ◌⊎◌, ◌<◌, ◌≤◌, ◌++◌, [], OnOk, OnErr, IsTrue, IsFalse, IfSome, Some, length, ◌+◌, option_map};
ghost use Rattle.fault_count.specs.Cause.{next_count};
ghost use Rattle.hs_outside.specs.Links.{RecvDoes, SentDoes};
ghost use Rattle.hs_outside.specs.MemoryLink.{known_link, fresh_link, room_for};
ghost use Rattle.hs_outside.specs.declared.links.Recv.TheVariants as recvs;
ghost use Rattle.hs_outside.specs.declared.links.Sent.TheVariants as sends;

use crate::copying::copy_at;
use crate::links::{Link, Recv, Sent};
use fault_count::raised;
use std::alloc::{AllocError, Global};
use std::marker::Model;

/// A peer that does what it was told to, and keeps what was sent to it.
#[derive(Drop)]
pub struct MemLink {
    // All bytes of the peer, of which so many were received.
    peer: Vec<u8>,
    place: usize,
    sent: Vec<u8>,
    peer_ended: bool,
    room: Option<u64>,
    is_ended: bool,
    idle: u64,
    faults: u64,
    fails_next: bool,
    is_short: bool,
}

impl Model for MemLink {
    ghost use Rattle.std.specs.Prelude.{◌≤◌, drop, take, length};
    ghost use Rattle.hs_outside.specs.MemoryLink.{LinkInMemory};

    ghost Value = { LinkInMemory };

    ghost view = { λ l. record {
      received = take l.place l.peer.items;
      sent = l.sent.items;
      left = drop l.place l.peer.items;
      peer_ended = l.peer_ended;
      room = l.room;
      is_ended = l.is_ended;
      idle = l.idle;
      faults = l.faults;
      fails_next = l.fails_next;
      is_short = l.is_short;
    } };

    ghost invariant = { λ l. l.place ≤ length l.peer.items };
}

impl MemLink {
    /// A peer that has sent nothing yet. Takes no memory.
    pub fn new(alloc: Global) -> MemLink
        ensures { result ≡ fresh_link }
    {
        MemLink {
            peer: Vec::new(alloc),
            place: 0,
            sent: Vec::new(alloc),
            peer_ended: false,
            room: None,
            is_ended: false,
            idle: 0,
            faults: 0,
            fails_next: false,
            is_short: false,
        }
    }

    /// The peer sends a piece.
    pub fn peer_bytes(&mut self, piece: &[u8]) -> Result<(), AllocError>
        ensures ok { OnOk result
            (self.new ≡ record self.old { left = self.old.left ++ piece.now }) }
        ensures err { OnErr result (self.new ≡ record self.old { is_short = true }) }
    {
        if self.peer.extend_from_slice(piece).is_err() {
            self.is_short = true;
            return Err(AllocError);
        }
        Ok(())
    }

    /// The peer ends.
    pub fn peer_end(&mut self)
        ensures { self.new ≡ record self.old { peer_ended = true } }
    {
        self.peer_ended = true;
    }

    /// From now on so many more bytes are taken, whatever was said before.
    pub fn room(&mut self, n: u64)
        ensures { self.new ≡ record self.old { room = Some n } }
    {
        self.room = Some(n);
    }

    /// The next call fails.
    pub fn fail_next(&mut self)
        ensures { self.new ≡ record self.old { fails_next = true } }
    {
        self.fails_next = true;
    }

    /// Whether the peer has ended.
    pub fn peer_ended(&self) -> bool
        ensures { result ≡ self.now.peer_ended }
    {
        self.peer_ended
    }

    /// Whether memory was refused when it had to grow. From then on each call fails.
    pub fn short(&self) -> bool
        ensures { result ≡ self.now.is_short }
    {
        self.is_short
    }

    /// The bytes sent so far.
    pub fn sent(&self) -> &[u8]
        ensures { result.now ≡ self.now.sent }
    {
        self.sent.as_slice()
    }
}

impl MemLink {
    /// Whether a call is to fail, which is counted.
    fn fails(&mut self) -> bool
        ensures named { IsTrue result ↔ (IsTrue self.old.fails_next ⊎ IsTrue self.old.is_short) }
        ensures fails { IsTrue result → self.new
            ≡ record self.old { fails_next = false; faults = next_count self.old.faults } }
        ensures goes { IsFalse result → self.new ≡ self.old }
        ensures later { self.old.faults ≤ self.new.faults }
    {
        if !self.fails_next && !self.is_short {
            return false;
        }
        self.fails_next = false;
        self.faults = raised(self.faults);
        true
    }
}

impl Link for MemLink {
    ghost peer = { known_link };

    fn faults(&self) -> u64 {
        self.faults
    }

    fn idle(&self) -> u64 {
        self.idle
    }

    fn ended(&self) -> bool {
        self.is_ended
    }

    fn recv(&mut self, buffer: &mut [u8]) -> Recv
        requires { 0 < length buffer.old }
        ensures gives { RecvDoes result (known_link self.old) (known_link self.new) buffer.new }
        ensures later { self.old.faults ≤ self.new.faults }

        // It fails where it was told to. Else it gives all that it has and the buffer takes.
        ensures fails { (result ≡ recvs.Failed)
            ↔ (IsTrue self.old.fails_next ⊎ IsTrue self.old.is_short) }
        ensures waits { result ≢ recvs.Failed →
            (result ≡ recvs.NotYet) ↔ ((self.old.left ≡ []) × (self.old.peer_ended ≡ false)) }
        ensures most { (count : ℕ) → result ≡ recvs.Got count →
            count ≡ min (length self.old.left) (length buffer.new) }
        ensures next { self.new.fails_next ≡ false }
        ensures counted { result ≡ recvs.Failed → self.new.faults ≡ next_count self.old.faults }
        ensures short { self.new.is_short ≡ self.old.is_short }
    {
        if self.fails() {
            return Recv::Failed;
        }
        let left = self.peer.len() - self.place;
        if left > 0 {
            let count = left.min(buffer.len());
            copy_at(&self.peer, self.place, count, buffer);
            self.place += count;
            return Recv::Got(count);
        }
        if self.peer_ended {
            self.is_ended = true;
            return Recv::End;
        }
        self.idle = raised(self.idle);
        Recv::NotYet
    }

    fn send(&mut self, bytes: &[u8]) -> Sent
        requires { 0 < length bytes.now }
        ensures takes { SentDoes result (known_link self.old) (known_link self.new) bytes.now }
        ensures later { self.old.faults ≤ self.new.faults }

        // It fails where it was told to, or memory is refused. Else it takes all that it has room
        // for.
        ensures fails { (result ≡ sends.Failed)
            ↔ (IsTrue self.old.fails_next ⊎ IsTrue self.new.is_short) }
        ensures waits { result ≢ sends.Failed → (result ≡ sends.NotYet) ↔ (self.old.room ≡ Some 0) }
        ensures most { (count : ℕ) → result ≡ sends.Took count →
            count ≡ room_for self.old.room (length bytes.now) }
        ensures next { self.new.fails_next ≡ false }
        ensures counted { result ≡ sends.Failed → self.new.faults ≡ next_count self.old.faults }

        // A failure by name says nothing of memory, and once it was refused it stays so.
        ensures named { IsTrue self.old.fails_next → self.new.is_short ≡ self.old.is_short }
        ensures short { IsTrue self.old.is_short → IsTrue self.new.is_short }
    {
        if self.fails() {
            return Sent::Failed;
        }
        let count = room_for(self.room, bytes.len());
        if count == 0 {
            self.idle = raised(self.idle);
            return Sent::NotYet;
        }
        if self.sent.extend_from_slice(&bytes[..count]).is_err() {
            self.is_short = true;
            self.faults = raised(self.faults);
            return Sent::Failed;
        }
        self.room = room_after(self.room, count);
        Sent::Took(count)
    }
}

/// How many of so many bytes fit the room.
fn room_for(room: Option<u64>, len: usize) -> usize
    ensures { result ≡ room_for room len }
{
    match room {
        None => len,
        Some(room) => (room as usize).min(len),
    }
}

/// The room after so many bytes.
fn room_after(room: Option<u64>, count: usize) -> Option<u64>
    requires { IfSome room (λ n. count ≤ n) }
    ensures { room ≡ option_map (λ n. n + count) result }
{
    match room {
        None => None,
        Some(room) => Some(room - count as u64),
    }
}
