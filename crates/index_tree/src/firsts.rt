//! The first items of the chunks, in a list of their own for the search over the chunks.
ghost use Rattle.std.specs.Prelude.{◌≡◌, ◌<◌, ◌≤◌, List, length, set, remove, vec_len, vec_capacity};
ghost use Rattle.std.specs.List.{insert};
ghost use Rattle.index_tree.specs.Chunked.{chunk_at, AreFirsts};

use crate::chunk::Chunk;
use crate::spot::Spot;

/// Writes down an item that was put at the spot, where it comes first. No chunk is looked at.
pub(crate) fn note_insert<T: Copy>(firsts: &mut Vec<T>, spot: Spot, item: T)
    requires { spot.chunk < vec_len firsts.old }
    ensures firsts { (chunks : List (List T)) → AreFirsts firsts.old.items chunks →
        spot.offset ≤ length (chunk_at chunks spot.chunk) → AreFirsts firsts.new.items
        (set chunks spot.chunk (insert (chunk_at chunks spot.chunk) spot.offset item)) }
    ensures len { vec_len firsts.new ≡ vec_len firsts.old }
    ensures capacity { vec_capacity firsts.new ≡ vec_capacity firsts.old }
{
    if spot.offset == 0 {
        firsts[spot.chunk] = item;
    }
}

/// Writes down the first item of a chunk that has lost the one at the spot, where that was first.
pub(crate) fn note_removal<T: Copy>(firsts: &mut Vec<T>, chunk: &Chunk<T>, spot: Spot)
    requires { spot.chunk < vec_len firsts.old }
    ensures firsts { (chunks : List (List T)) → AreFirsts firsts.old.items chunks →
        chunk.now ≡ remove (chunk_at chunks spot.chunk) spot.offset →
        AreFirsts firsts.new.items (set chunks spot.chunk chunk.now) }
    ensures len { vec_len firsts.new ≡ vec_len firsts.old }
    ensures capacity { vec_capacity firsts.new ≡ vec_capacity firsts.old }
{
    if spot.offset == 0 {
        renew_first(firsts, chunk, spot.chunk);
    }
}

/// Writes down the first item of a chunk that may have another one now. An empty chunk's stays.
pub(crate) fn renew_first<T: Copy>(firsts: &mut Vec<T>, chunk: &Chunk<T>, number: usize)
    requires { number < vec_len firsts.old }
    ensures firsts { (chunks : List (List T)) → AreFirsts firsts.old.items chunks →
        AreFirsts firsts.new.items (set chunks number chunk.now) }
    ensures len { vec_len firsts.new ≡ vec_len firsts.old }
    ensures capacity { vec_capacity firsts.new ≡ vec_capacity firsts.old }
{
    match chunk.as_slice().first() {
        None => {}
        Some(first) => firsts[number] = *first,
    }
}
