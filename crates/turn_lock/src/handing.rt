//! Handing the value in at the end of a turn.
ghost use Rattle.std.specs.Prelude.{◌≡◌, ℕ, [], ◌∷◌, None, Some, IfSome};
ghost use Rattle.turn_lock.specs.declared.view.Stage.TheVariants.{Holds};
ghost use Rattle.turn_lock.specs.Steps.{HandedIn, grown};
ghost use Rattle.turn_lock.specs.Turns.{lent};

use crate::keeps::Keeps;
use crate::pass::Place;
use crate::rule::{Count, Names};
use crate::turns::COUNT;
use crate::waiting::Board;
use std::marker::Brand;

// Puts the value into its slot, and then counts the entry.
pub(crate) fn hand_in<B: Keeps>(
    shared: &Board<B, B::Entry>,
    seat: &mut Place<B, B::Entry>,
    value: B,
    entry: Option<&B::Entry>,
)
    requires table { (seat.old.table_id ≡ shared.now.table_id) × (shared.now.table_id.words ≡ 33) }
    requires holds { (n : ℕ) × (seat.old.me.0.stage ≡ Holds n) × (seat.old.me.1 ≡ (0, None) ∷ []) }
    requires maker { IfSome entry (λ e. B.maker e.now ≡ seat.old.me.0.number) }
    ensures table { seat.new.table_id ≡ seat.old.table_id }
    ensures handed { HandedIn value (lent entry.entry) seat.old.me seat.new.me }
{
    put(shared, seat, value);
    if let Some(e) = entry {
        count::<B, Brand>(shared, seat, e);
    }
}

// Puts the value into the slot, which is empty.
fn put<B: Keeps>(shared: &Board<B, B::Entry>, seat: &mut Place<B, B::Entry>, value: B)
    requires { (seat.old.table_id ≡ shared.now.table_id) × (seat.old.me.1 ≡ (0, None) ∷ []) }
    ensures { (seat.new.table_id ≡ seat.old.table_id) × (seat.new.me ≡ (seat.old.me.0, (0, Some value) ∷ [])) }
{
    match shared.exchange(seat, 0, Some(value)) {
        None => {}
        Some(_other) => unreachable!(),
    }
}

// Counts the entry.
fn count<B: Keeps, J: Names<B::Entry>>(
    shared: &Board<B, B::Entry>,
    seat: &mut Place<B, B::Entry>,
    _entry: &B::Entry,
)
    requires table { (seat.old.table_id ≡ shared.now.table_id) × (shared.now.table_id.words ≡ 33) }
    requires holds { (n : ℕ) × (seat.old.me.0.stage ≡ Holds n) }
    requires maker { B.maker _entry.now ≡ seat.old.me.0.number }
    requires named { J.named ≡ Some _entry.now }
    ensures { (seat.new.table_id ≡ seat.old.table_id) × (seat.new.me ≡ (grown _entry.now seat.old.me.0, seat.old.me.1)) }
{
    shared.fetch_add::<Count<J>>(seat, COUNT, 1);
}
