//! The next bytes of a list in memory, handed out.
ghost use Rattle.std.specs.Prelude.{◌≡◌, ◌+◌, ◌≤◌, ◌++◌, take, drop, length};

/// Copies so many bytes from a place on to the front of the buffer.
pub fn copy_at(bytes: &[u8], place: usize, count: usize, buffer: &mut [u8])
    requires held { place + count ≤ length bytes.now }
    requires fits { count ≤ length buffer.old }
    ensures given { take (place + count) bytes.now ≡ take place bytes.now ++ take count buffer.new }
    ensures left { drop place bytes.now ≡ take count buffer.new ++ drop (place + count) bytes.now }
{
    buffer[..count].copy_from_slice(&bytes[place..place + count]);
}
