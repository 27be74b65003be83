//! How long a disk may be.
ghost use Rattle.std.specs.Prelude.{◌≡◌, ◌++◌, length, true, false, MatchOption};
ghost use Rattle.hs_disk.specs.Length.{past_end};

/// The greatest length of a disk.
pub(crate) const MAX_LEN: u64 = (1 << 63) - 1;

/// Whether a write of so many bytes at this place would pass the greatest length.
pub(crate) fn passes_end(at: u64, len: u64) -> bool
    ensures { result ≡ past_end at len }
{
    at > MAX_LEN || len > MAX_LEN - at
}

/// How many bytes three pieces have together, unless a write of them at this place would pass the
/// greatest length.
pub(crate) fn joined_len(at: u64, head: &[u8], body: &[u8], tail: &[u8]) -> Option<u64>
    ensures { MatchOption result (past_end at (length (head.now ++ body.now ++ tail.now)) ≡ true)
        (λ len. (len ≡ length (head.now ++ body.now ++ tail.now)) × (past_end at len ≡ false)) }
{
    let front = (head.len() as u64).checked_add(body.len() as u64)?;
    let len = front.checked_add(tail.len() as u64)?;
    if passes_end(at, len) { None } else { Some(len) }
}
