//! From a connection's output to its link.
ghost use Rattle.std.specs.Prelude.{◌≡◌, true};
ghost use Rattle.line_pipeline.specs.Table.{is_held};
ghost use Rattle.batch_worker.specs.Sending.{Sends, Passes};
ghost use Rattle.batch_worker.specs.Steps.{with, Keeps, SendStep};

use hs_outside::{Link, Sent};
use line_pipeline::ConnTable;
use request_types::ConnId;

/// Sends what waits, and then closes the connection where it has an end of its own.
pub fn pass<L: Link>(table: &mut ConnTable, id: ConnId, link: &mut L)
    requires held { is_held table.old.conns id ≡ true }
    ensures keeps { Keeps id table.old table.new }
    ensures passes { Passes (with L.peer table.old id link.old) (with L.peer table.new id link.new) }
{
    send(table, id, link);
    table.finish(&[id]);
}

/// Sends what waits, as much as the link takes.
fn send<L: Link>(table: &mut ConnTable, id: ConnId, link: &mut L)
    requires held { is_held table.old.conns id ≡ true }
    ensures keeps { Keeps id table.old table.new }
    ensures sends { Sends (with L.peer table.old id link.old) (with L.peer table.new id link.new) }
{
    loop {
        if !send_once(table, id, link) {
            return;
        }
    }
}

/// Hands the link the first bytes that wait. Answers whether it took some.
fn send_once<L: Link>(table: &mut ConnTable, id: ConnId, link: &mut L) -> bool
    requires held { is_held table.old.conns id ≡ true }
    ensures keeps { Keeps id table.old table.new }
    ensures step { SendStep result (with L.peer table.old id link.old) (with L.peer table.new id link.new) }
{
    let piece = table.unsent(id);
    if piece.is_empty() {
        return false;
    }
    match link.send(piece) {
        Sent::Took(count) => {
            table.sent(id, count);
            true
        }
        Sent::NotYet => false,
        Sent::Failed => {
            table.fail(id);
            false
        }
    }
}
