//! The lock.
ghost use Rattle.std.specs.Prelude.{◌≡◌, ◌≢◌, ◌^◌, ◌<◌, ◌≤◌, [], ◌∷◌, IfOk, IfErr, IfSome, Some};
ghost use Rattle.turn_lock.specs.Serial.{starting};
ghost use Rattle.turn_lock.specs.Known.{Lock, IsLock};

use crate::handing::hand_in;
use crate::keeps::Keeps;
use crate::pass::{Held, Pass, Place, Turn};
use crate::rule::{Both, Deal, Draw, PassOn, Serial, Settle};
use crate::view::{Dealt, View};
use crate::waiting::{await_turn, hold_back, wake_waiting};
use atomic_table::{Refused, Table};
use std::alloc::{AllocFailed, Global};
use std::marker::Model;
use std::snapshot::Snapshot;
use std::sync::Wait;

// The words, each on cache lines of its own.
pub(crate) const TICKET: usize = 0;

pub(crate) const SERVING: usize = 16;

pub(crate) const COUNT: usize = 32;

const WORDS: usize = 33;

type Board<B, E, P> = Table<Option<B>, View<B, E>, Dealt<B>, P, Global>;

/// The lock. To a contract it is which one it is, and how many passes it has.
#[derive(Drop)]
pub struct Turns<B: Keeps> {
    table: Board<B, B::Entry, Serial<B>>,
    passes: u32,
}

impl<B: Keeps> Model for Turns<B> {
    ghost Value = { Lock };

    ghost view = { λ t. record { id = t.table.shared.table_id; passes = t.passes } };

    ghost invariant = { λ t. IsLock t.table.shared.table_id.words t.table.shared.table_id.slots t.passes t.table.shared.key.passes };
}

impl<B: Keeps> Turns<B> {
    ghost use Rattle.turn_lock.specs.Turns.{StandsFor, fresh_passes, added, lent, Begins, Joined, ended};

    /// A lock over this value, and its passes.
    pub fn new(
        alloc: Global,
        value: B,
        passes: u32,
    ) -> Result<(Turns<B>, Vec<Pass<B>>), AllocFailed<B>>
        requires some { 0 < passes }
        requires opened { B.stands value [] value }
        ensures ok { IfOk result (λ made. (made.0.passes ≡ passes) × (made.1.items ≡ fresh_passes made.0.id value (B.faults value) passes)) }
        ensures err { IfErr result (λ failed. failed.value ≡ value) }
    {
        let Ok(mut all) = Vec::with_capacity(alloc, passes as usize) else {
            return Err(AllocFailed { value });
        };
        let dealt = Dealt {
            opened: Snapshot::of(&value),
            passes: u64::from(passes),
        };
        let (table, mut dealer) = match lay(alloc, value, &dealt) {
            Ok(made) => made,
            Err(failed) => {
                all.destroy_empty();
                return Err(failed);
            }
        };
        for number in 0..passes {
            let seat = table.shared.split_seat::<Deal>(&mut dealer);
            all.push_reserved(Pass {
                number,
                passes: 1,
                seat,
            });
        }
        Ok((Turns { table, passes }, all))
    }

    /// Waits for the pass's turn, and begins it.
    pub fn enter<R: Wait>(&self, rt: &R, pass: Pass<B>) -> Held<B>
        requires { pass.lock ≡ self.now.id }
        ensures value { StandsFor B.stands pass.opened result.turn.seen result.value }
        ensures turn { Begins B.maker pass (B.faults result.value) result.turn }
    {
        let Pass {
            number,
            passes,
            mut seat,
        } = pass;
        let shared = &self.table.shared;
        hold_back(shared);
        let ticket = shared.fetch_add::<Draw>(&mut seat, TICKET, 1);
        await_turn(rt, shared, &mut seat, ticket);
        let Some(value) = shared.exchange(&mut seat, 0, None) else {
            unreachable!()
        };
        let turn = Turn {
            number,
            passes,
            seat,
        };
        Held { value, turn }
    }

    /// Ends the turn. The history has grown by the entry, or not at all.
    pub fn leave(&self, held: Held<B>, entry: Option<&B::Entry>) -> Pass<B>
        requires lock { held.turn.lock ≡ self.now.id }
        requires maker { IfSome entry (λ e. B.maker e.now ≡ held.turn.number) }
        requires stands { StandsFor B.stands held.turn.opened (added held.turn.seen (lent entry)) held.value }
        requires faults { held.turn.faults ≤ B.faults held.value }
        ensures { result ≡ ended (lent entry.entry) (B.faults held.value) held.turn }
    {
        let Held { value, turn } = held;
        let Turn {
            number,
            passes,
            mut seat,
        } = turn;
        let shared = &self.table.shared;
        hand_in(shared, &mut seat, value, entry);
        shared.fetch_add::<PassOn<B>>(&mut seat, SERVING, 1);
        wake_waiting(shared);
        Pass {
            number,
            passes,
            seat,
        }
    }

    /// Joins the second pass into the first, whose number and entries stay.
    pub fn join(&self, pass: Pass<B>, other: Pass<B>) -> Pass<B>
        requires { (pass.lock ≡ self.now.id) × (other.lock ≡ self.now.id) }
        ensures { Joined B.maker pass other result }
    {
        let Pass {
            number,
            passes,
            mut seat,
        } = pass;
        let Pass {
            number: _,
            passes: others,
            seat: other,
        } = other;
        let shared = &self.table.shared;
        shared.join_seat::<Both>(&mut seat, other);
        shared.load::<Settle<B>>(&mut seat, SERVING);
        Pass {
            number,
            passes: passes + others,
            seat,
        }
    }

    /// Gives the value back where all passes were joined into this one, and else hands all back.
    pub fn close(self, pass: Pass<B>) -> Result<B, (Turns<B>, Pass<B>)>
        requires { pass.lock ≡ self.id }
        ensures ok { IfOk result (λ value. (pass.passes ≡ self.passes) × StandsFor B.stands pass.opened pass.seen value) }
        ensures err { IfErr result (λ back. (pass.passes ≢ self.passes) × (back.0 ≡ self) × (back.1 ≡ pass)) }
    {
        if pass.passes != self.passes {
            return Err((self, pass));
        }
        let Turns { table, passes: _ } = self;
        let Pass {
            number: _,
            passes: _,
            seat,
        } = pass;
        let mut closed = table.close_with(seat);
        let Some(value) = closed.take(0) else {
            unreachable!()
        };
        closed.free();
        Ok(value)
    }
}

// The table, and the seat from which its passes are dealt.
fn lay<B: Keeps>(
    alloc: Global,
    value: B,
    dealt: &Dealt<B>,
) -> Result<(Board<B, B::Entry, Serial<B>>, Place<B, B::Entry>), AllocFailed<B>>
    requires dealt { (dealt.now.opened.value ≡ value) × (dealt.now.passes < 2 ^ 32) }
    requires opened { B.stands value [] value }
    ensures sizes { IfOk result (λ made. (made.0.shared.table_id.words ≡ 33) × (made.0.shared.table_id.slots ≡ 1) × (made.0.shared.key ≡ dealt.now)) }
    ensures seat { IfOk result (λ made. (made.1.table_id ≡ made.0.shared.table_id) × (made.1.me ≡ (starting B.stands B.maker B.place B.faults dealt.now, []))) }
    ensures err { IfErr result (λ failed. failed.value ≡ value) }
{
    let Ok(mut slots) = Vec::with_capacity(alloc, 1) else {
        return Err(AllocFailed { value });
    };
    let mut words = [0u64; WORDS];
    words[COUNT] = value.next_number();
    slots.push_reserved(Some(value));
    match Table::new(alloc, &words, slots, dealt) {
        Ok(made) => Ok(made),
        Err(Refused { slots }) => Err(AllocFailed {
            value: taken_out(slots),
        }),
    }
}

// The value out of the slots that the table was to have.
fn taken_out<B>(mut slots: Vec<Option<B>>) -> B
    requires { (value : B) × (slots.items ≡ Some value ∷ []) }
    ensures { (value : B) → slots.items ≡ Some value ∷ [] → result ≡ value }
{
    let Some(Some(value)) = slots.pop() else {
        unreachable!()
    };
    slots.destroy_empty();
    value
}
