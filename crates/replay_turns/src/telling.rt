//! The lines of a turn, and the connections that it lets go.
ghost use Rattle.std.specs.Prelude.{◌≡◌, ◌++◌, length, OnOk, IfOk};
ghost use Rattle.replay_turns.specs.Linked.{linked_at};
ghost use Rattle.replay_turns.specs.Told.{sent_so_far, told, left_by, all_left};
ghost use Rattle.replay_turns.specs.Telling.{counts_of, told_each};

use crate::connections::Connections;
use crate::entries::place_of;
use crate::lines::{push_line, reason_word};
use line_pipeline::ConnState;
use std::alloc::{AllocError, Global};

impl Connections {
    /// How many bytes the connections of these numbers were sent so far.
    pub fn counts(&self, alloc: Global, listed: &[u32]) -> Result<Vec<usize>, AllocError>
        ensures { IfOk result (λ counts. counts.items ≡ counts_of self.now.conns listed.now) }
    {
        let mut counts = Vec::with_capacity(alloc, listed.len())?;
        for number in listed {
            counts.push(self.count_of(*number))?;
        }
        Ok(counts)
    }

    fn count_of(&self, number: u32) -> usize
        ensures { result ≡ sent_so_far (linked_at number self.now.conns) }
    {
        match place_of(&self.entries, number) {
            Some(at) => self.links.link(self.entries[at].id).sent().len(),
            None => 0,
        }
    }

    /// Tells what the connections of these numbers were sent behind so many bytes each, and which
    /// of them closed.
    pub fn tell_all(
        &self,
        listed: &[u32],
        counts: &[usize],
        text: &mut Vec<u8>,
    ) -> Result<(), AllocError>
        requires { length counts.now ≡ length listed.now }
        ensures { OnOk result (text.new.items
            ≡ text.old.items ++ told_each listed.now counts.now self.now.conns) }
    {
        for (at, number) in listed.iter().enumerate() {
            self.tell(*number, counts[at], text)?;
        }
        Ok(())
    }

    fn tell(&self, number: u32, count: usize, text: &mut Vec<u8>) -> Result<(), AllocError>
        ensures { OnOk result (text.new.items
            ≡ text.old.items ++ told count (linked_at number self.now.conns)) }
    {
        let Some(at) = place_of(&self.entries, number) else {
            return Ok(());
        };
        let id = self.entries[at].id;
        let sent = self.links.link(id).sent();
        push_line(text, b"sent", number, &sent[count.min(sent.len())..])?;
        match self.links.state(id) {
            ConnState::Live => Ok(()),
            ConnState::Closed(reason) => push_line(text, b"closed", number, reason_word(reason)),
        }
    }

    /// Lets go those connections of these numbers that are closed.
    pub fn let_go_all(&mut self, listed: &[u32])
        ensures { self.new ≡ record self.old { conns = all_left listed.now self.old.conns } }
    {
        for number in listed {
            self.let_go(*number);
        }
    }

    fn let_go(&mut self, number: u32)
        ensures { self.new ≡ record self.old { conns = left_by number self.old.conns } }
    {
        let Some(at) = place_of(&self.entries, number) else {
            return;
        };
        let id = self.entries[at].id;
        if let ConnState::Closed(_) = self.links.state(id) {
            self.links.remove(id);
            self.entries.remove(at);
        }
    }
}
