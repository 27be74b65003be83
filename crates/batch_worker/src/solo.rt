//! One whole turn of some connections.
ghost use Rattle.std.specs.Prelude.{◌≡◌, true};
ghost use Rattle.request_types.specs.Ids.{are_once};
ghost use Rattle.batch_worker.specs.Solo.{Turned, end_of};

use crate::ends::TurnEnd;
use crate::links::Links;
use batch_answers::RunsBatches;
use hs_outside::Link;
use line_pipeline::Outcome;
use request_types::ConnId;
use std::alloc::Global;

/// One turn of the listed connections: they receive, their whole lines are run as one batch, and
/// they are sent what waits for them. An id that none has is passed over.
pub fn solo_turn<B: RunsBatches, L: Link>(
    alloc: Global,
    book: &mut B,
    links: &mut Links<L>,
    ready: &[ConnId],
) -> TurnEnd
    requires once { are_once ready.now ≡ true }
    requires schema { links.old.table.schema ≡ (B.rows book.old).schema }
    requires sound { B.sound book.old }
    ensures turned { Turned L.peer B.rows B.ran result ready.now links.old links.new book.old
        book.new }
    ensures schema { (B.rows book.new).schema ≡ (B.rows book.old).schema }
    ensures sound { B.sound book.new }
{
    let Ok(batch) = links.begin_turn(alloc, ready) else {
        links.end_refused_turn(ready);
        return TurnEnd::NoBatch;
    };
    let outcome = book.run_batch(alloc, &batch);
    let end = end_of(&outcome);
    links.end_turn(ready, &batch, outcome);
    end
}

// How a turn ends whose batch came to this.
fn end_of(outcome: &Outcome) -> TurnEnd
    ensures { result ≡ end_of outcome.now }
{
    match outcome {
        Outcome::Done(_) => TurnEnd::Done,
        Outcome::DiskFault => TurnEnd::DiskFault,
        Outcome::NoMemory => TurnEnd::NoMemory,
    }
}
