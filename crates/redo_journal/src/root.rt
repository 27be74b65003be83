//! The root: a record that names the place of a journal's live segment.
ghost use Rattle.std.specs.Prelude.{◌≡◌, ◌+◌, ◌^◌, ◌<◌, ◌∷◌, ◌++◌, []};
ghost use Rattle.std.specs.Int.{w64, to_be_bytes};
ghost use Rattle.redo_journal.specs.Root.{cell_number, cell_place, root_end, segment_place};

use crate::doubt::Doubt;

/// A root: the place of its gate, the cell that its selector names, the first or the second, and
/// the place of the live segment, which this cell holds.
#[derive(Clone, Copy, Debug, PartialEq, Eq)]
pub struct Root {
    pub gate: u64,
    pub second: bool,
    pub live: u64,
}

impl Root {
    // The place of its selector.
    pub(crate) fn selector(&self) -> u64
        requires { self.now.gate < 2 ^ 63 }
        ensures { result ≡ self.now.gate + 9 }
    {
        self.gate + 9
    }

    // The place of the cell.
    pub(crate) fn cell(&self) -> u64
        requires { self.now.gate < 2 ^ 63 }
        ensures { result ≡ cell_place self.now.gate self.now.second }
    {
        if self.second {
            self.gate + 18
        } else {
            self.gate + 10
        }
    }

    // The number of the cell.
    pub(crate) fn number(&self) -> u8
        ensures { result ≡ cell_number self.now.second }
    {
        if self.second { 1 } else { 0 }
    }

    // The selector in doubt, where it named this cell before.
    pub(crate) fn doubt(&self) -> Doubt
        requires { self.now.gate < 2 ^ 63 }
        ensures { result
            ≡ record { place = self.now.gate + 9; byte = cell_number self.now.second } }
    {
        Doubt {
            place: self.selector(),
            byte: self.number(),
        }
    }

    // Where a segment of so many bytes goes: behind the root, where it ends before the live one,
    // and else behind the last gate.
    pub(crate) fn place_of(&self, last_gate: u64, len: u64) -> u64
        requires before { root_end self.now < self.now.live }
        requires last_gate { last_gate < 2 ^ 63 }
        ensures { result ≡ segment_place self.now last_gate len }
    {
        let behind = self.gate + 27;
        if len <= self.live - behind {
            behind
        } else {
            last_gate + 1
        }
    }

    // A new root whose cells both hold this place, without its gate and with a closed one behind
    // it.
    pub(crate) fn new_bytes(live: u64) -> [u8; 26]
        ensures { result ≡ 0 ∷ 0 ∷ 0 ∷ 21 ∷ 255 ∷ 255 ∷ 255 ∷ 255 ∷ 0 ∷
            (to_be_bytes w64 live ++ to_be_bytes w64 live ++ 0 ∷ []) }
    {
        let [a, b, c, d, e, f, g, h] = live.to_be_bytes();
        [
            0, 0, 0, 21, 255, 255, 255, 255, 0, a, b, c, d, e, f, g, h, a, b, c, d, e, f, g, h, 0,
        ]
    }
}
