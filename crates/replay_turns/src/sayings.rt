//! What is asked of connections, and what is said beforehand of their peers and links.
ghost use Rattle.std.specs.Prelude.{◌≡◌, length, option_map, OnOk};
ghost use Rattle.replay_turns.specs.Linked.{Linked, on, linked_at, has_ended, peer_sent};
ghost use Rattle.replay_turns.specs.Sayings.{said, link_said};

use crate::connections::Connections;
use crate::entries::place_of;
use hs_outside::MemLink;
use request_types::Port;
use std::alloc::AllocError;

/// What a peer or a link will do.
#[derive(Clone, Copy)]
pub enum Saying {
    PeerEnds,
    Room(u64),
    FailsNext,
}

impl Connections {
    /// How many there are.
    pub fn count(&self) -> usize
        ensures { result ≡ length self.now.conns }
    {
        self.entries.len()
    }

    /// The port that a connection came to.
    pub fn port_of(&self, number: u32) -> Option<Port>
        ensures { result ≡ option_map (λ (l : Linked). l.port) (linked_at number self.now.conns) }
    {
        match place_of(&self.entries, number) {
            Some(at) => Some(self.entries[at].port),
            None => None,
        }
    }

    /// Whether there is a connection of this number whose peer has ended.
    pub fn has_ended(&self, number: u32) -> bool
        ensures { result ≡ has_ended number self.now.conns }
    {
        match place_of(&self.entries, number) {
            Some(at) => self.links.link(self.entries[at].id).peer_ended(),
            None => false,
        }
    }

    /// The peer has sent a piece.
    pub fn peer_bytes(&mut self, number: u32, piece: &[u8]) -> Result<(), AllocError>
        ensures sent { OnOk result (self.new ≡ record self.old {
          conns = on number (peer_sent piece.now) self.old.conns;
        }) }
        ensures schema { self.new.schema ≡ self.old.schema }
    {
        let Some(at) = place_of(&self.entries, number) else {
            return Ok(());
        };
        let id = self.entries[at].id;
        let mut link = self.links.replace_link(id, MemLink::new(self.alloc));
        let taken = link.peer_bytes(piece);
        self.links.replace_link(id, link);
        taken
    }

    /// What a peer or a link will do.
    pub fn say(&mut self, number: u32, saying: Saying)
        ensures { self.new ≡ record self.old { conns = on number (said saying) self.old.conns } }
    {
        let Some(at) = place_of(&self.entries, number) else {
            return;
        };
        let id = self.entries[at].id;
        let mut link = self.links.replace_link(id, MemLink::new(self.alloc));
        say(&mut link, saying);
        self.links.replace_link(id, link);
    }
}

fn say(link: &mut MemLink, saying: Saying)
    ensures { link.new ≡ link_said saying link.old }
{
    match saying {
        Saying::PeerEnds => link.peer_end(),
        Saying::Room(count) => link.room(count),
        Saying::FailsNext => link.fail_next(),
    }
}
