//! The room of a buffer, made again from what was taken at its front.
ghost use Rattle.std.specs.Prelude.{◌≡◌, ◌+◌, ◌≤◌, drop, vec_len, vec_capacity};

/// Removes the first bytes in place. The cost is that of a move of the others.
pub fn remove_front(bytes: &mut Vec<u8>, count: usize)
    requires within { count ≤ vec_len bytes.old }
    ensures items { bytes.new.items ≡ drop count bytes.old.items }
    ensures len { vec_len bytes.new + count ≡ vec_len bytes.old }
    ensures capacity { vec_capacity bytes.new ≡ vec_capacity bytes.old }
{
    let len = bytes.len();
    bytes.copy_within(count..len, 0);
    bytes.truncate(len - count);
}

/// Where the bytes begin that were not taken: at the front again, at no cost, where all were.
pub fn restart(bytes: &mut Vec<u8>, taken: usize) -> usize
    requires within { taken ≤ vec_len bytes.old }
    ensures items { drop result bytes.new.items ≡ drop taken bytes.old.items }
    ensures within { result ≤ vec_len bytes.new }
    ensures front { taken ≡ vec_len bytes.old → result ≡ 0 }
    ensures len { vec_len bytes.new + taken ≡ vec_len bytes.old + result }
    ensures capacity { vec_capacity bytes.new ≡ vec_capacity bytes.old }
{
    if taken < bytes.len() {
        return taken;
    }
    bytes.clear();
    0
}
