//! What comes of an event, and of the text that it prints.
ghost use Rattle.std.specs.Prelude.{◌≡◌, ◌≤◌, OnOk, OnErr};
ghost use Rattle.hs_replay.specs.Running.{PrintDoes};

use crate::ends::Outcome;
use hs_outside::{Sink, write_all};
use std::alloc::AllocError;

// What came of an event that prints nothing.
pub(super) fn outcome_of(done: Result<(), AllocError>) -> Outcome
    ensures ok { OnOk done (result ≡ Outcome.Done) }
    ensures err { OnErr done (result ≡ Outcome.Memory) }
{
    match done {
        Ok(()) => Outcome::Done,
        Err(AllocError) => Outcome::Memory,
    }
}

// Prints a text, unless memory ran out over it.
pub(super) fn print<K: Sink>(out: &mut K, done: Result<(), AllocError>, text: &[u8]) -> Outcome
    ensures ok { OnOk done (PrintDoes result text.now (K.taker out.old) (K.taker out.new)) }
    ensures err { OnErr done ((result ≡ Outcome.Memory) × (K.taker out.new ≡ K.taker out.old)) }
    ensures later { (K.taker out.old).faults ≤ (K.taker out.new).faults }
{
    if done.is_err() {
        return Outcome::Memory;
    }
    match write_all(out, text) {
        Ok(()) => Outcome::Done,
        Err(_) => Outcome::Unwritten,
    }
}
