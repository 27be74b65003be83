//! Turns of several threads over a counter, which stands for the entries that it has counted.
ghost use Rattle.std.specs.Prelude.{◌≡◌, ◌+◌, ◌%◌, ◌^◌, [], ◌∷◌, ◌++◌, length};
ghost use mathlib.Core.List.{IsPrefix};

use crate::{Keeps, Pass, Turns};
use std::sync::Wait;
use std::test::Fail;
use std::thread::{Threads, join, sleep};
use std::time::{Clock, Duration};

/// How many entries there were, what each pass's next one is to be, and whether all were that.
#[derive(Drop)]
struct Counter {
    entries: u64,
    next: [u64; 4],
    in_order: bool,
}

/// The pass that made an entry, and which of its own it is.
#[derive(Drop)]
struct Entry {
    by: u32,
    place: u64,
}

impl Keeps for Counter {
    type Entry = Entry;

    ghost stands = { λ opened history now. now.entries ≡ (opened.entries + length history) % 2 ^ 64 };

    ghost maker = { λ e. e.by };

    ghost place = { λ c. c.entries };

    ghost faults = { λ _. 0 };

    fn next_number(&self) -> u64 {
        self.entries
    }
}

impl Counter {
    fn count(&mut self, entry: &Entry)
        ensures { self.new.entries ≡ (self.old.entries + 1) % 2 ^ 64 }
    {
        self.entries = self.entries.wrapping_add(1);
        let by = (entry.by % 4) as usize;
        self.in_order = self.in_order && self.next[by] == entry.place;
        self.next[by] = entry.place.wrapping_add(1);
    }
}

// So many turns of one pass, in each of which it sleeps for so long.
fn take_turns<R: Wait + Clock>(
    rt: &R,
    turns: &Turns<Counter>,
    pass: Pass<Counter>,
    times: u64,
    nap: Option<Duration>,
) -> Pass<Counter>
    requires { pass.lock ≡ turns.now.id }
    ensures pass { (result.lock ≡ pass.lock) × (result.passes ≡ pass.passes) }
    ensures own { length result.mine ≡ length pass.mine + times }
    ensures seen { IsPrefix pass.seen result.seen }
{
    let mut pass = pass;
    for place in 0..times {
        let by = pass.number();
        let mut held = turns.enter(rt, pass);
        let entry = Entry { by, place };
        held.value.count(&entry);
        if let Some(nap) = nap {
            sleep(rt, nap);
        }
        pass = turns.leave(held, Some(&entry));
    }
    pass
}

// The turns of two passes, each in a thread of its own.
fn in_two_threads<R: Threads + Wait + Clock + Sync>(
    rt: &R,
    turns: &Turns<Counter>,
    a: Pass<Counter>,
    b: Pass<Counter>,
    times: u64,
    nap: Option<Duration>,
) -> Pass<Counter>
    requires { (a.lock ≡ turns.now.id) × (b.lock ≡ turns.now.id) }
    ensures pass { (result.lock ≡ a.lock) × (result.passes ≡ a.passes + b.passes) }
    ensures own { length result.mine ≡ length a.mine + times }
    ensures seen { IsPrefix a.seen result.seen × IsPrefix b.seen result.seen }
{
    let (a, b) = join(
        rt,
        || -> Pass<Counter>
            requires { a.lock ≡ turns.now.id }
            ensures pass { (result.lock ≡ a.lock) × (result.passes ≡ a.passes) }
            ensures own { length result.mine ≡ length a.mine + times }
            ensures seen { IsPrefix a.seen result.seen }
        { take_turns(rt, turns, a, times, nap) },
        || -> Pass<Counter>
            requires { b.lock ≡ turns.now.id }
            ensures pass { (result.lock ≡ b.lock) × (result.passes ≡ b.passes) }
            ensures own { length result.mine ≡ length b.mine + times }
            ensures seen { IsPrefix b.seen result.seen }
        { take_turns(rt, turns, b, times, nap) },
    );
    turns.join(a, b)
}

// The turns of four.
fn in_four_threads<R: Threads + Wait + Clock + Sync>(
    rt: &R,
    turns: &Turns<Counter>,
    first: (Pass<Counter>, Pass<Counter>),
    second: (Pass<Counter>, Pass<Counter>),
    times: u64,
) -> Pass<Counter>
    requires { (first.0.lock ≡ turns.now.id) × (first.1.lock ≡ turns.now.id) × (second.0.lock ≡ turns.now.id) × (second.1.lock ≡ turns.now.id) }
    ensures { result.lock ≡ turns.now.id }
{
    let (a, b) = first;
    let (c, d) = second;
    let (left, right) = join(
        rt,
        || -> Pass<Counter>
            requires { (a.lock ≡ turns.now.id) × (b.lock ≡ turns.now.id) }
            ensures { result.lock ≡ a.lock }
        { in_two_threads(rt, turns, a, b, times, None) },
        || -> Pass<Counter>
            requires { (c.lock ≡ turns.now.id) × (d.lock ≡ turns.now.id) }
            ensures { result.lock ≡ c.lock }
        { in_two_threads(rt, turns, c, d, times, None) },
    );
    turns.join(left, right)
}

// Three passes joined in one of the six orders.
fn all_joined(
    turns: &Turns<Counter>,
    order: u8,
    a: Pass<Counter>,
    b: Pass<Counter>,
    c: Pass<Counter>,
) -> Pass<Counter>
    requires { (a.lock ≡ turns.now.id) × (b.lock ≡ turns.now.id) × (c.lock ≡ turns.now.id) }
    ensures { result.lock ≡ turns.now.id }
{
    match order {
        0 => turns.join(turns.join(a, b), c),
        1 => turns.join(turns.join(a, c), b),
        2 => turns.join(turns.join(b, a), c),
        3 => turns.join(turns.join(b, c), a),
        4 => turns.join(turns.join(c, a), b),
        _ => turns.join(turns.join(c, b), a),
    }
}

fn fresh() -> Counter
    ensures { result.entries ≡ 0 }
{
    Counter {
        entries: 0,
        next: [0; 4],
        in_order: true,
    }
}

#[test]
fn four_threads_count_each_turn_once(rt: HostRuntime) -> Result<(), Fail> {
    let (turns, mut passes) = Turns::new(rt.alloc(), fresh(), 4)?;
    let (Some(d), Some(c)) = (passes.pop(), passes.pop()) else {
        unreachable!()
    };
    let (Some(b), Some(a)) = (passes.pop(), passes.pop()) else {
        unreachable!()
    };
    let pass = in_four_threads(&rt, &turns, (a, b), (c, d), 10_000);
    let Ok(counter) = turns.close(pass) else {
        panic!(rt; "all passes were joined")
    };
    assert!(rt; counter.entries == 40_000 && counter.in_order);
    Ok(())
}

#[test]
fn two_threads_count_each_turn_once(rt: HostRuntime) -> Result<(), Fail> {
    let (turns, mut passes) = Turns::new(rt.alloc(), fresh(), 2)?;
    let (Some(b), Some(a)) = (passes.pop(), passes.pop()) else {
        unreachable!()
    };
    let pass = in_two_threads(&rt, &turns, a, b, 10_000, None);
    let Ok(counter) = turns.close(pass) else {
        panic!(rt; "both passes were joined")
    };
    assert!(rt; counter.entries == 20_000 && counter.in_order);
    Ok(())
}

#[test]
fn closes_after_the_last_join_in_any_order(rt: HostRuntime) -> Result<(), Fail> {
    for order in 0..6 {
        let (turns, mut passes) = Turns::new(rt.alloc(), fresh(), 3)?;
        let (Some(c), Some(b)) = (passes.pop(), passes.pop()) else {
            unreachable!()
        };
        let Some(a) = passes.pop() else {
            unreachable!()
        };
        let a = take_turns(&rt, &turns, a, 2, None);
        let Err((turns, a)) = turns.close(a) else {
            panic!(rt; "two passes are out")
        };
        let c = take_turns(&rt, &turns, c, 3, None);
        let pass = all_joined(&turns, order, a, b, c);
        let Ok(counter) = turns.close(pass) else {
            panic!(rt; "all passes were joined")
        };
        assert!(rt;
            counter.entries == 5 && counter.in_order,
            "in order {order}"
        );
    }
    Ok(())
}

// The turns are so long that who waits for one sleeps, and would sleep for ever if nobody woke it.
#[test]
fn a_pass_that_waits_for_long_is_woken(rt: HostRuntime) -> Result<(), Fail> {
    let (turns, mut passes) = Turns::new(rt.alloc(), fresh(), 2)?;
    let (Some(b), Some(a)) = (passes.pop(), passes.pop()) else {
        unreachable!()
    };
    let nap = Duration::from_millis(100);
    let pass = in_two_threads(&rt, &turns, a, b, 3, Some(nap));
    let Ok(counter) = turns.close(pass) else {
        panic!(rt; "both passes were joined")
    };
    assert!(rt; counter.entries == 6 && counter.in_order);
    Ok(())
}
