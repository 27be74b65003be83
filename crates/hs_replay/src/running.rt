//! A script that is read in pieces, line by line.
ghost use Rattle.std.specs.Prelude.{◌≡◌, ◌+◌, ◌<◌, ◌≤◌, [], true, false, length, min, IfOk};
ghost use Rattle.hs_line.specs.Lines.{has_lf};
ghost use Rattle.hs_replay.specs.Script.{bad_line};
ghost use Rattle.hs_replay.specs.Running.{start, step_of, StepDoes, RestIs, NextBad, HeldEnds};
ghost use Rattle.hs_replay.specs.Ends.{Ends};

use crate::ends::{BadLine, Ending, Flaw, Outcome, Step};
use crate::replays::Replay;
use bytes::Bytes;
use hs_line::{BUFFER_SIZE, LineBuf, MAX_LINE_LEN};
use hs_outside::{Read, Sink, Source};
use replay_script::event_of;
use std::alloc::{AllocError, Global};
use std::marker::Model;

/// How many bytes of a script are read at once: with a line that is not whole yet they fit the buffer.
const PIECE_SIZE: usize = BUFFER_SIZE - MAX_LINE_LEN;

/// What is held of a script that was read in part.
#[derive(Drop)]
struct Runner {
    held: LineBuf,
    lines: u64,
    replay: Replay,
    // What an event prints. Its memory is used again and again.
    text: Vec<u8>,
}

impl Model for Runner {
    ghost use Rattle.hs_replay.specs.Running.{Held};

    ghost Value = { Held };

    ghost view = { λ r. record { bytes = r.held; lines = r.lines; state = r.replay } };
}

impl Runner {
    fn new(alloc: Global) -> Result<Runner, AllocError>
        ensures { IfOk result (λ runner. runner ≡ start) }
    {
        Ok(Runner {
            held: LineBuf::new(alloc)?,
            lines: 0,
            replay: Replay::new(alloc),
            text: Vec::new(alloc),
        })
    }

    /// Carries out the first line that is held.
    fn take_line<K: Sink>(&mut self, alloc: Global, out: &mut K) -> Step
        requires { has_lf self.old.bytes ≡ true }
        ensures does { StepDoes result self.old self.new (K.taker out.old) (K.taker out.new) [] }
        ensures shorter { result ≡ Step.Done → length self.new.bytes < length self.old.bytes }
        ensures later { (K.taker out.old).faults ≤ (K.taker out.new).faults }
    {
        let Some(number) = self.lines.checked_add(1) else {
            return Step::Memory;
        };
        let Ok(Some(line)) = self.held.take_line() else {
            return Step::Memory;
        };
        let Ok(event) = event_of(alloc, &line) else {
            return Step::Memory;
        };
        let Some(event) = event else {
            return no_event(number);
        };
        self.lines = number;
        let outcome = self.replay.take_event(alloc, out, &mut self.text, event);
        step_of(number, outcome)
    }

    /// Carries out the lines that are held, up to one that is not whole yet.
    fn take_lines<K: Sink>(&mut self, alloc: Global, out: &mut K) -> Step
        ensures does { StepDoes result self.old self.new (K.taker out.old) (K.taker out.new) [] }
        ensures drained { result ≡ Step.Done → has_lf self.new.bytes ≡ false }
        ensures later { (K.taker out.old).faults ≤ (K.taker out.new).faults }
    {
        while self.held.has_line() {
            match self.take_line(alloc, out) {
                Step::Done => {}
                step => return step,
            }
        }
        Step::Done
    }

    /// Takes the next bytes of the script. What its lines print is printed before more is read.
    fn take_piece<K: Sink>(&mut self, alloc: Global, out: &mut K, piece: &[u8]) -> Step
        requires { length self.old.bytes + length piece.now ≤ BUFFER_SIZE }
        ensures does { StepDoes result self.old self.new (K.taker out.old) (K.taker out.new) piece.now }
        ensures drained { result ≡ Step.Done → has_lf self.new.bytes ≡ false }
        ensures room { result ≡ Step.Done → length self.new.bytes ≤ MAX_LINE_LEN }
        ensures later { (K.taker out.old).faults ≤ (K.taker out.new).faults }
    {
        self.held.push(piece);
        match self.take_lines(alloc, out) {
            Step::Done => self.check_rest(),
            step => step,
        }
    }

    /// A line that is too long already is bad, whatever its end.
    fn check_rest(&self) -> Step
        requires { has_lf self.now.bytes ≡ false }
        ensures { RestIs result self.now }
    {
        if !self.held.is_too_long() {
            return Step::Done;
        }
        match self.lines.checked_add(1) {
            Some(number) => no_event(number),
            None => Step::Memory,
        }
    }

    /// How a script ends of which no more comes.
    fn ending(&self) -> Ending
        requires { has_lf self.now.bytes ≡ false }
        ensures { HeldEnds result self.now }
    {
        if self.held.room() == BUFFER_SIZE {
            return Ending::Whole;
        }
        self.next_bad()
    }

    /// The line behind those that were taken is no event.
    fn next_bad(&self) -> Ending
        ensures { NextBad result self.now }
    {
        match self.lines.checked_add(1) {
            Some(number) => Ending::Bad(BadLine {
                number,
                flaw: Flaw::NoEvent,
            }),
            None => Ending::Memory,
        }
    }
}

/// The line of this number is no event.
fn no_event(number: u64) -> Step
    ensures { result ≡ Step.Bad (bad_line number Flaw.NoEvent) }
{
    Step::Bad(BadLine {
        number,
        flaw: Flaw::NoEvent,
    })
}

/// What came of a line, by what came of its event.
fn step_of(number: u64, outcome: Outcome) -> Step
    ensures { result ≡ step_of number outcome }
{
    match outcome {
        Outcome::Done => Step::Done,
        Outcome::Refused(flaw) => Step::Bad(BadLine { number, flaw }),
        Outcome::Unwritten => Step::Unwritten,
        Outcome::Memory => Step::Memory,
    }
}

/// How many of the bytes that were read still count.
fn fitting(count: usize, left: u64) -> usize
    ensures { result ≡ min count left }
{
    if count as u64 > left {
        left as usize
    } else {
        count
    }
}

/// Runs the script to its end, or to what keeps it from its end. A byte beyond the most that a script may have is no
/// event's, and so makes its line a bad one.
pub fn run<S: Source, K: Sink>(alloc: Global, script: &mut S, out: &mut K) -> Ending
    ensures ends { Ends result (S.giver script.old) (S.giver script.new) (K.taker out.old) (K.taker out.new) }
    ensures script_later { (S.giver script.old).faults ≤ (S.giver script.new).faults }
    ensures out_later { (K.taker out.old).faults ≤ (K.taker out.new).faults }
{
    let Ok(mut runner) = Runner::new(alloc) else {
        return Ending::Memory;
    };
    let mut buffer = [0u8; PIECE_SIZE];
    let mut left = u64::MAX;
    loop {
        match script.read(&mut buffer) {
            Read::Got(count) => {
                let fits = fitting(count, left);
                match runner.take_piece(alloc, out, &buffer[..fits]) {
                    Step::Done => {}
                    Step::Bad(line) => return Ending::Bad(line),
                    Step::Unwritten => return Ending::Unwritten,
                    Step::Memory => return Ending::Memory,
                }
                if fits < count {
                    return runner.next_bad();
                }
                left -= count as u64;
            }
            Read::End => return runner.ending(),
            Read::Failed => return Ending::Unread,
        }
    }
}
