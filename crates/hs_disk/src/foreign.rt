//! Files that are no journal, and are not to be written over.
ghost use Rattle.std.specs.Prelude.{◌↔◌, IsTrue};
ghost use Rattle.hs_disk.specs.Foreign.{IsForeign};

/// What stands behind the first byte of a journal.
pub const MARK: [u8; 8] = *b"HSJRNL01";

/// How many bytes of a file's front tell whether it is foreign.
pub(crate) const FRONT: usize = 9;

/// Whether the first bytes of a file, `FRONT` of them where it has so many, are of no journal.
pub(crate) fn is_foreign(front: &[u8]) -> bool
    ensures { IsTrue result ↔ IsForeign front.now }
{
    front.len() >= 2 && front[0] > 1 && &front[1..] != MARK.as_slice()
}
