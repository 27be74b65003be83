//! What evens out two chunks that stand side by side: an item moves over, or both become one.
ghost use Rattle.std.specs.Prelude.{◌≡◌, ℕ, ◌+◌, ◌-◌, ◌<◌, ◌≤◌, length, remove, vec_len, vec_capacity};
ghost use Rattle.std.specs.List.{AllByRecursion};
ghost use Rattle.index_tree.specs.Chunked.{joined, chunk_at, AllBut, IsShaped, IsNearlyShaped, IsSpent, AreFirsts};

use crate::chunk::{Chunk, FULL, HALF};
use crate::firsts::renew_first;

/// Brings a chunk that has lost an item back to its half, from a neighbour or with it.
pub(crate) fn settle<T: Copy>(
    chunks: &mut Vec<Chunk<T>>,
    firsts: &mut Vec<T>,
    pool: &mut Vec<Chunk<T>>,
    short: usize,
)
    requires nearly { IsNearlyShaped chunks.old.items short }
    requires firsts { AreFirsts firsts.old.items chunks.old.items }
    requires spent { IsSpent pool.old.items }
    requires room { vec_len chunks.old + vec_len pool.old ≤ vec_capacity pool.old }
    ensures items { joined chunks.new.items ≡ joined chunks.old.items }
    ensures shaped { IsShaped chunks.new.items }
    ensures firsts { AreFirsts firsts.new.items chunks.new.items }
    ensures spent { IsSpent pool.new.items }
    ensures total { vec_len chunks.new + vec_len pool.new ≡ vec_len chunks.old + vec_len pool.old }

    // No memory is given back.
    ensures capacity { vec_capacity chunks.old ≤ vec_capacity chunks.new }
    ensures firsts_capacity { vec_capacity firsts.old ≤ vec_capacity firsts.new }
    ensures pool_capacity { vec_capacity pool.old ≤ vec_capacity pool.new }
{
    if chunks.len() == 1 {
        return;
    }
    if HALF <= chunks[short].len() {
        return;
    }
    if short == 0 {
        fill_from_behind(chunks, firsts, pool, short);
    } else {
        fill_from_front(chunks, firsts, pool, short - 1);
    }
}

// Brings a chunk to its half, from the one behind it or with it.
fn fill_from_behind<T: Copy>(
    chunks: &mut Vec<Chunk<T>>,
    firsts: &mut Vec<T>,
    pool: &mut Vec<Chunk<T>>,
    left: usize,
)
    requires inside { left + 1 < vec_len chunks.old }
    requires nearly { IsNearlyShaped chunks.old.items left }
    requires firsts { AreFirsts firsts.old.items chunks.old.items }
    requires short { length (chunk_at chunks.old.items left) < 128 }
    requires spent { IsSpent pool.old.items }
    requires room { vec_len chunks.old + vec_len pool.old ≤ vec_capacity pool.old }
    ensures items { joined chunks.new.items ≡ joined chunks.old.items }
    ensures shaped { IsShaped chunks.new.items }
    ensures firsts { AreFirsts firsts.new.items chunks.new.items }
    ensures spent { IsSpent pool.new.items }
    ensures total { vec_len chunks.new + vec_len pool.new ≡ vec_len chunks.old + vec_len pool.old }
    ensures capacity { vec_capacity chunks.old ≤ vec_capacity chunks.new }
    ensures firsts_capacity { vec_capacity firsts.old ≤ vec_capacity firsts.new }
    ensures pool_capacity { vec_capacity pool.old ≤ vec_capacity pool.new }
{
    if chunks[left].len() + chunks[left + 1].len() <= FULL {
        merge(chunks, firsts, pool, left);
    } else {
        shift_down(chunks, firsts, left);
    }
}

// Brings a chunk to its half, from the one in front of it or with it.
fn fill_from_front<T: Copy>(
    chunks: &mut Vec<Chunk<T>>,
    firsts: &mut Vec<T>,
    pool: &mut Vec<Chunk<T>>,
    left: usize,
)
    requires inside { left + 1 < vec_len chunks.old }
    requires nearly { IsNearlyShaped chunks.old.items (left + 1) }
    requires firsts { AreFirsts firsts.old.items chunks.old.items }
    requires short { length (chunk_at chunks.old.items (left + 1)) < 128 }
    requires spent { IsSpent pool.old.items }
    requires room { vec_len chunks.old + vec_len pool.old ≤ vec_capacity pool.old }
    ensures items { joined chunks.new.items ≡ joined chunks.old.items }
    ensures shaped { IsShaped chunks.new.items }
    ensures firsts { AreFirsts firsts.new.items chunks.new.items }
    ensures spent { IsSpent pool.new.items }
    ensures total { vec_len chunks.new + vec_len pool.new ≡ vec_len chunks.old + vec_len pool.old }
    ensures capacity { vec_capacity chunks.old ≤ vec_capacity chunks.new }
    ensures firsts_capacity { vec_capacity firsts.old ≤ vec_capacity firsts.new }
    ensures pool_capacity { vec_capacity pool.old ≤ vec_capacity pool.new }
{
    if chunks[left].len() + chunks[left + 1].len() <= FULL {
        merge(chunks, firsts, pool, left);
    } else {
        shift_up(chunks, firsts, left);
    }
}

// The items of two chunks go into the first, and the second goes to the pool.
fn merge<T: Copy>(
    chunks: &mut Vec<Chunk<T>>,
    firsts: &mut Vec<T>,
    pool: &mut Vec<Chunk<T>>,
    left: usize,
)
    requires inside { left + 1 < vec_len chunks.old }
    requires firsts { AreFirsts firsts.old.items chunks.old.items }
    requires fits { AllByRecursion (λ xs. length xs ≤ 256) chunks.old.items }
    requires others { AllBut (λ xs. 128 ≤ length xs) (remove chunks.old.items (left + 1)) left }
    requires half { 128 ≤ length (chunk_at chunks.old.items left)
        + length (chunk_at chunks.old.items (left + 1)) }
    requires both { length (chunk_at chunks.old.items left)
        + length (chunk_at chunks.old.items (left + 1)) ≤ 256 }
    requires spent { IsSpent pool.old.items }
    requires room { vec_len pool.old < vec_capacity pool.old }
    ensures items { joined chunks.new.items ≡ joined chunks.old.items }
    ensures shaped { IsShaped chunks.new.items }
    ensures firsts { AreFirsts firsts.new.items chunks.new.items }
    ensures spent { IsSpent pool.new.items }
    ensures len { vec_len chunks.new + 1 ≡ vec_len chunks.old }
    ensures pool_len { vec_len pool.new ≡ vec_len pool.old + 1 }
    ensures capacity { vec_capacity chunks.old ≤ vec_capacity chunks.new }
    ensures firsts_capacity { vec_capacity firsts.old ≤ vec_capacity firsts.new }
    ensures pool_capacity { vec_capacity pool.old ≤ vec_capacity pool.new }
{
    let mut emptied = chunks.remove(left + 1);
    firsts.remove(left + 1);
    chunks[left].append(&mut emptied);
    renew_first(firsts, &chunks[left], left);
    match pool.push(emptied) {
        Ok(()) => {}
        Err(_) => unreachable!(),
    }
}

// The last item of a chunk becomes the first of the next one.
fn shift_up<T: Copy>(chunks: &mut Vec<Chunk<T>>, firsts: &mut Vec<T>, left: usize)
    requires inside { left + 1 < vec_len chunks.old }
    requires nearly { IsNearlyShaped chunks.old.items (left + 1) }
    requires firsts { AreFirsts firsts.old.items chunks.old.items }
    requires short { length (chunk_at chunks.old.items (left + 1)) < 128 }
    requires both { 256 < length (chunk_at chunks.old.items left)
        + length (chunk_at chunks.old.items (left + 1)) }
    ensures items { joined chunks.new.items ≡ joined chunks.old.items }
    ensures shaped { IsShaped chunks.new.items }
    ensures firsts { AreFirsts firsts.new.items chunks.new.items }
    ensures len { vec_len chunks.new ≡ vec_len chunks.old }
    ensures capacity { vec_capacity chunks.old ≤ vec_capacity chunks.new }
    ensures firsts_capacity { vec_capacity firsts.old ≤ vec_capacity firsts.new }
{
    let lower = &mut chunks[left];
    let item = lower.remove(lower.len() - 1);
    chunks[left + 1].insert(0, item);
    renew_first(firsts, &chunks[left], left);
    renew_first(firsts, &chunks[left + 1], left + 1);
}

// The first item of a chunk becomes the last of the one in front.
fn shift_down<T: Copy>(chunks: &mut Vec<Chunk<T>>, firsts: &mut Vec<T>, left: usize)
    requires inside { left + 1 < vec_len chunks.old }
    requires nearly { IsNearlyShaped chunks.old.items left }
    requires firsts { AreFirsts firsts.old.items chunks.old.items }
    requires short { length (chunk_at chunks.old.items left) < 128 }
    requires both { 256 < length (chunk_at chunks.old.items left)
        + length (chunk_at chunks.old.items (left + 1)) }
    ensures items { joined chunks.new.items ≡ joined chunks.old.items }
    ensures shaped { IsShaped chunks.new.items }
    ensures firsts { AreFirsts firsts.new.items chunks.new.items }
    ensures len { vec_len chunks.new ≡ vec_len chunks.old }
    ensures capacity { vec_capacity chunks.old ≤ vec_capacity chunks.new }
    ensures firsts_capacity { vec_capacity firsts.old ≤ vec_capacity firsts.new }
{
    let item = chunks[left + 1].remove(0);
    let lower = &mut chunks[left];
    lower.insert(lower.len(), item);
    renew_first(firsts, &chunks[left + 1], left + 1);
    renew_first(firsts, &chunks[left], left);
}
