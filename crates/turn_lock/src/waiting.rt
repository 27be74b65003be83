//! Waiting for a turn.
ghost use Rattle.std.specs.Prelude.{◌≡◌, ◌%◌, ◌^◌, ℕ};
ghost use Rattle.turn_lock.specs.declared.view.Stage.TheVariants.{Waits};
ghost use Rattle.turn_lock.specs.Steps.{Turn};

use crate::keeps::Keeps;
use crate::pass::Place;
use crate::rule::{Look, Serial};
use crate::turns::{SERVING, TICKET};
use crate::view::{Dealt, View};
use atomic_table::Shared;
use std::sync::Wait;
use std::thread::yield_now;

pub(crate) type Board<B, E> = Shared<Option<B>, View<B, E>, Dealt<B>, Serial<B>>;

// How often a pass looks whether no ticket is out, before it draws one all the same.
const LOOKS: u32 = 8;

// How often a pass with a ticket looks before it sleeps.
const PATIENCE: u32 = 100;

// Waits for a while for a moment when no ticket is out. A pass that has a ticket and isn't running holds up all behind it;
// one that has none holds up nobody.
pub(crate) fn hold_back<B: Keeps>(shared: &Board<B, B::Entry>)
    requires { shared.now.table_id.words ≡ 33 }
{
    for doublings in 0..LOOKS {
        if is_free(shared) {
            return;
        }
        pause(1 << doublings);
    }
}

// Looks until the ticket is served, and sleeps between looks once it has looked often.
pub(crate) fn await_turn<B: Keeps, R: Wait>(
    rt: &R,
    shared: &Board<B, B::Entry>,
    seat: &mut Place<B, B::Entry>,
    ticket: u64,
)
    requires table { (seat.old.table_id ≡ shared.now.table_id) × (shared.now.table_id.words ≡ 33) × (shared.now.table_id.slots ≡ 1) }
    requires waits { (n : ℕ) × (ticket ≡ n % 2 ^ 64) × (seat.old.me.0.stage ≡ Waits n) }
    ensures table { seat.new.table_id ≡ seat.old.table_id }
    ensures turn { (n : ℕ) × Turn B.stands B.maker B.faults n seat.old.me seat.new.me }
{
    let mut looks = 0;
    for _ in rt.forever() {
        let served = shared.load::<Look<B>>(seat, SERVING);
        if served == ticket {
            return;
        }
        if looks < PATIENCE {
            looks += 1;
            yield_now();
        } else {
            shared.park(rt, SERVING, (served & 0xffff_ffff) as u32);
        }
    }
    unreachable!()
}

// Wakes those that sleep, where a ticket is out. Who sleeps had drawn its ticket when it saw that another's was served.
pub(crate) fn wake_waiting<B: Keeps>(shared: &Board<B, B::Entry>)
    requires { shared.now.table_id.words ≡ 33 }
{
    if !is_free(shared) {
        shared.wake_all(SERVING);
    }
}

// Whether no ticket seems to be out.
fn is_free<B: Keeps>(shared: &Board<B, B::Entry>) -> bool
    requires { shared.now.table_id.words ≡ 33 }
{
    shared.peek(SERVING) == shared.peek(TICKET)
}

// Leaves the processor to others this many times.
fn pause(times: u32) {
    for _ in 0..times {
        yield_now();
    }
}
