//! The chunks in use: the spot of a cut, and room for an item at a spot.
ghost use Rattle.std.specs.Prelude.{◌≡◌, ◌+◌, ◌-◌, ◌*◌, ◌<◌, ◌≤◌, [], ◌∷◌, length, take, drop, set, IfOk, count_by, replicate, vec_len, vec_capacity};
ghost use Rattle.std.specs.List.{insert};
ghost use Rattle.index_tree.specs.Parts.{IsParted};
ghost use Rattle.index_tree.specs.Chunked.{joined, chunk_at, start, AreFirsts, IsShaped, IsSpent, IsCutAt, IsFree};

use crate::Cut;
use crate::chunk::{Chunk, FULL};
use crate::pool::take_spare;
use crate::spot::Spot;

/// The spot behind all items before the cut.
pub(crate) fn find<T: Copy, C: Cut<T>>(chunks: &[Chunk<T>], firsts: &[T], cut: &C) -> Spot
    requires parted { IsParted (C.before cut.now) (joined chunks.now) }
    requires shaped { IsShaped chunks.now }
    requires firsts { AreFirsts firsts.now chunks.now }
    ensures { IsCutAt (C.before cut.now) chunks.now result.chunk result.offset }
{
    let chunk = chunk_of(firsts, cut);
    match chunks.get(chunk) {
        None => Spot { chunk, offset: 0 },
        Some(found) => Spot {
            chunk,
            offset: found.count_before(cut),
        },
    }
}

// The last chunk whose first item is before the cut, and else the first chunk.
fn chunk_of<T: Copy, C: Cut<T>>(firsts: &[T], cut: &C) -> usize
    requires { IsParted (C.before cut.now) firsts.now }
    ensures { result ≡ count_by (C.before cut.now) firsts.now - 1 }
{
    let begun = firsts.partition_point(
        |first: &T| -> bool
            ensures { result ≡ C.before cut.entry.now first.now }
        { cut.is_before(first) },
    );
    begun.saturating_sub(1)
}

/// Makes room for an item at the spot, and says where the spot is then.
pub(crate) fn make_room<T: Copy>(
    chunks: &mut Vec<Chunk<T>>,
    firsts: &mut Vec<T>,
    pool: &mut Vec<Chunk<T>>,
    spot: Spot,
    item: T,
) -> Spot
    requires shaped { IsShaped chunks.old.items }
    requires firsts { AreFirsts firsts.old.items chunks.old.items }
    requires spent { IsSpent pool.old.items }
    requires inside { 0 < vec_len chunks.old → spot.chunk < vec_len chunks.old }
    requires within { spot.offset ≤ length (chunk_at chunks.old.items spot.chunk) }
    requires first { spot.offset ≡ 0 → spot.chunk ≡ 0 }
    requires few { vec_len chunks.old ≤ 4294967296 }
    requires spare { length (joined chunks.old.items)
        < 128 * (vec_len chunks.old + vec_len pool.old) }
    requires room { vec_len chunks.old + vec_len pool.old ≤ vec_capacity chunks.old }
    requires firsts_room { vec_len chunks.old + vec_len pool.old ≤ vec_capacity firsts.old }
    ensures items { joined chunks.new.items ≡ joined chunks.old.items }
    ensures shaped { IsShaped chunks.new.items }
    ensures firsts { AreFirsts firsts.new.items chunks.new.items }
    ensures spent { IsSpent pool.new.items }
    ensures free { IsFree chunks.new.items result.chunk result.offset
        (start chunks.old.items spot.chunk + spot.offset) }
    ensures total { vec_len chunks.new + vec_len pool.new ≡ vec_len chunks.old + vec_len pool.old }

    // No memory is given back.
    ensures capacity { vec_capacity chunks.old ≤ vec_capacity chunks.new }
    ensures firsts_capacity { vec_capacity firsts.old ≤ vec_capacity firsts.new }
    ensures pool_capacity { vec_capacity pool.old ≤ vec_capacity pool.new }
{
    if chunks.is_empty() {
        open_first(chunks, firsts, pool, item);
        return spot;
    }
    if chunks[spot.chunk].len() < FULL {
        return spot;
    }
    split(chunks, firsts, pool, spot.chunk);
    spot.beside_split()
}

// Takes a chunk of the pool into use where none is, for an item that comes first.
fn open_first<T: Copy>(
    chunks: &mut Vec<Chunk<T>>,
    firsts: &mut Vec<T>,
    pool: &mut Vec<Chunk<T>>,
    item: T,
)
    requires none { chunks.old.items ≡ [] }
    requires no_firsts { firsts.old.items ≡ [] }
    requires some { 0 < vec_len pool.old }
    requires spent { IsSpent pool.old.items }
    requires room { 0 < vec_capacity chunks.old }
    requires firsts_room { 0 < vec_capacity firsts.old }
    ensures opened { chunks.new.items ≡ [] ∷ [] }
    ensures firsts { firsts.new.items ≡ item ∷ [] }
    ensures spent { IsSpent pool.new.items }
    ensures pool_len { vec_len pool.new + 1 ≡ vec_len pool.old }
    ensures capacity { vec_capacity chunks.old ≤ vec_capacity chunks.new }
    ensures firsts_capacity { vec_capacity firsts.old ≤ vec_capacity firsts.new }
    ensures pool_capacity { vec_capacity pool.old ≤ vec_capacity pool.new }
{
    let fresh = take_spare(pool);
    match chunks.push(fresh) {
        Ok(()) => {}
        Err(_) => unreachable!(),
    }
    match firsts.push(item) {
        Ok(()) => {}
        Err(_) => unreachable!(),
    }
}

// Puts the upper half of a full chunk into one of the pool, which comes to stand behind it.
fn split<T: Copy>(
    chunks: &mut Vec<Chunk<T>>,
    firsts: &mut Vec<T>,
    pool: &mut Vec<Chunk<T>>,
    at: usize,
)
    requires inside { at < vec_len chunks.old }
    requires firsts { AreFirsts firsts.old.items chunks.old.items }
    requires full { length (chunk_at chunks.old.items at) ≡ 256 }
    requires some { 0 < vec_len pool.old }
    requires spent { IsSpent pool.old.items }
    requires room { vec_len chunks.old < vec_capacity chunks.old }
    requires firsts_room { vec_len chunks.old < vec_capacity firsts.old }
    ensures parted { chunks.new.items ≡ insert
        (set chunks.old.items at (take 128 (chunk_at chunks.old.items at)))
        (at + 1) (drop 128 (chunk_at chunks.old.items at)) }
    ensures firsts { AreFirsts firsts.new.items chunks.new.items }
    ensures spent { IsSpent pool.new.items }
    ensures pool_len { vec_len pool.new + 1 ≡ vec_len pool.old }
    ensures capacity { vec_capacity chunks.old ≤ vec_capacity chunks.new }
    ensures firsts_capacity { vec_capacity firsts.old ≤ vec_capacity firsts.new }
    ensures pool_capacity { vec_capacity pool.old ≤ vec_capacity pool.new }
{
    let mut upper = take_spare(pool);
    chunks[at].split_into(&mut upper);
    let first = upper.as_slice()[0];
    match firsts.insert(at + 1, first) {
        Ok(()) => {}
        Err(_) => unreachable!(),
    }
    match chunks.insert(at + 1, upper) {
        Ok(()) => {}
        Err(_) => unreachable!(),
    }
}
