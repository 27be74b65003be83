//! From a link to the bytes that its connection holds.
ghost use Rattle.std.specs.Prelude.{◌≡◌, true, length};
ghost use Rattle.hs_line.specs.declared.limits.TheConstants.{BUFFER_SIZE};
ghost use Rattle.line_pipeline.specs.Table.{is_held};
ghost use Rattle.batch_worker.specs.Receiving.{Receives};
ghost use Rattle.batch_worker.specs.Steps.{with, Keeps, HearStep};

use hs_outside::{Link, Recv};
use line_pipeline::ConnTable;
use request_types::ConnId;

/// Receives until the connection holds as much as it may, or the link gives no more.
pub fn receive<L: Link>(table: &mut ConnTable, id: ConnId, link: &mut L, buffer: &mut [u8])
    requires held { is_held table.old.conns id ≡ true }
    requires buffer { length buffer.old ≡ BUFFER_SIZE }
    ensures keeps { Keeps id table.old table.new }
    ensures receives { Receives (with L.peer table.old id link.old) (with L.peer table.new id link.new) }
{
    loop {
        if !pull(table, id, link, buffer) {
            return;
        }
    }
}

/// Asks the link once for as many bytes as the connection has room for. Answers whether it gave
/// some.
fn pull<L: Link>(table: &mut ConnTable, id: ConnId, link: &mut L, buffer: &mut [u8]) -> bool
    requires held { is_held table.old.conns id ≡ true }
    requires buffer { length buffer.old ≡ BUFFER_SIZE }
    ensures keeps { Keeps id table.old table.new }
    ensures step { HearStep result (with L.peer table.old id link.old) (with L.peer table.new id link.new) }
{
    let room = table.room(id);
    if room == 0 {
        return false;
    }
    let piece = &mut buffer[..room];
    match link.recv(piece) {
        Recv::Got(count) => {
            table.feed(id, &piece[..count]);
            true
        }
        Recv::NotYet => false,
        Recv::End => {
            table.end(id);
            false
        }
        Recv::Failed => {
            table.fail(id);
            false
        }
    }
}
