//! A segment that is handed in: the number of the records before it, its area and a closed gate.
ghost use Rattle.std.specs.Prelude.{◌≡◌, ◌+◌, ◌-◌, ◌^◌, ◌<◌, ◌≤◌, length, take, drop};
ghost use Rattle.std.specs.Int.{w64, from_be_bytes};
ghost use Rattle.redo_journal.specs.Segment.{number_of};

// The place of its gate, where it stands at this one.
pub(crate) fn last_gate(place: u64, segment: &[u8]) -> u64
    requires some { 0 < length segment.now }
    requires bound { place + length segment.now < 2 ^ 63 }
    ensures { result ≡ place + (length segment.now - 1) }
{
    place + (segment.len() as u64 - 1)
}

// The number that it begins with.
pub(crate) fn number_of(segment: &[u8]) -> u64
    requires { 8 ≤ length segment.now }
    ensures { result ≡ number_of segment.now }
{
    number_at(segment, 0)
}

// The number in the eight bytes at a place, the highest first.
pub(crate) fn number_at(bytes: &[u8], at: usize) -> u64
    requires { at + 8 ≤ length bytes.now }
    ensures { result ≡ from_be_bytes w64 (take 8 (drop at bytes.now)) }
{
    match &bytes[at..] {
        [a, b, c, d, e, f, g, h, ..] => u64::from_be_bytes([*a, *b, *c, *d, *e, *f, *g, *h]),
        _ => 0,
    }
}
