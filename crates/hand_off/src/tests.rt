//! Values that go from hand to hand.
ghost use Rattle.std.specs.Prelude.{◌≡◌};

use crate::{HandOff, HandPass};
use std::sync::Wait;
use std::test::Fail;
use std::thread::{join, yield_now};

#[test]
fn a_full_queue_hands_a_value_back(rt: HostRuntime) -> Result<(), Fail> {
    let (line, mut pass) = HandOff::new(rt.alloc(), 1)?;
    assert_eq!(rt; line.offer(&rt, &mut pass, 7u32), Ok(()));
    assert_eq!(rt; line.offer(&rt, &mut pass, 8u32), Err(8));
    assert_eq!(rt; line.take(&rt, &mut pass), Some(7));
    assert_eq!(rt; line.take(&rt, &mut pass), None);
    Ok(())
}

const COUNT: u32 = 10_000;

// Offers the numbers in order, each until it is taken in.
fn offer_all<R: Wait>(rt: &R, line: &HandOff<u32>, mut pass: HandPass<u32>) -> HandPass<u32>
    requires { pass.line ≡ line.now.id }
    ensures { result.line ≡ line.now.id }
{
    let mut next = 0;
    for _ in rt.forever() {
        if next == COUNT {
            break;
        }
        match line.offer(rt, &mut pass, next) {
            Ok(()) => next += 1,
            Err(_) => yield_now(),
        }
    }
    pass
}

// Takes as many, and says whether each was the next.
fn take_all<R: Wait>(rt: &R, line: &HandOff<u32>, mut pass: HandPass<u32>) -> (bool, HandPass<u32>)
    requires { pass.line ≡ line.now.id }
    ensures { result.1.line ≡ line.now.id }
{
    let mut next = 0;
    for _ in rt.forever() {
        if next == COUNT {
            break;
        }
        match line.take(rt, &mut pass) {
            Some(value) if value == next => next += 1,
            Some(_) => return (false, pass),
            None => yield_now(),
        }
    }
    let is_empty = line.take(rt, &mut pass).is_none();
    (is_empty, pass)
}

#[test]
fn one_thread_takes_what_another_offers(rt: HostRuntime) -> Result<(), Fail> {
    let (line, mut pass) = HandOff::new(rt.alloc(), 4)?;
    let line = &line;
    let other = line.split(&mut pass);
    let (_, (in_order, _)) = join(
        &rt,
        || offer_all(&rt, line, other),
        || take_all(&rt, line, pass),
    );
    assert!(rt; in_order);
    Ok(())
}
