//! What follows for passes that look at each other.
ghost use Rattle.std.specs.Prelude.{Option};
ghost use Rattle.atomic_table.specs.Table.{State};
ghost use Rattle.turn_lock.specs.declared.view.View.{View};
ghost use Rattle.turn_lock.specs.declared.view.Dealt.{Dealt};
ghost use Rattle.turn_lock.specs.Agreement.{OneBegins, SeenAgree};
ghost use Rattle.turn_lock.specs.Serial.{IsSerial};
ghost use Rattle.turn_lock.specs.Known.{Known};
ghost use Rattle.turn_lock.specs.Turns.{Joined};

use crate::keeps::Keeps;

/// Of two passes one has seen a beginning of what the other has.
pub fn one_history<B: Keeps>()
    // So it is between any two steps, whatever turns they are in.
    ensures between_steps { (dealt : Dealt B) (table : State (Option B) (View B B.Entry)) → IsSerial B.stands B.maker B.place B.faults dealt table → SeenAgree table.views }
    // So it was of two passes that are joined.
    ensures joined { (a b both : Known B B.Entry) → Joined B.maker a b both → OneBegins a.seen b.seen }
{}
