//! Replays a script of standard input on tables in memory: `hs_tool replay <journal>`.
#![tactic(auto)]

use hs_outside::{Sink, StreamSink, StreamSource, write_all};
use hs_replay::{asks_help, top};
use std::alloc::{AllocError, Global};
use std::process::ExitCode;
use std::{env, io};

const WRITE_FAULT: u8 = 6;

const NO_MEMORY: u8 = 8;

const HELP: &[u8] = b"usage: hs_tool replay <journal>

Reads a script from standard input and carries out its events on tables in memory:
connections whose peers send pieces of request lines, and turns that answer them.
Prints for each turn what its connections were sent and which of them closed, and
the rows of a table where the script says show. The journal is not opened yet.

A script is lines of tokens with one tab between neighbours. docs/FORMATS.md has its form,
examples/shop.script is one.

Statuses: 0 whole, 2 no command, 3 a table line that breaks a rule, 4 a line that is no
event in its place, 5 a read failed, 6 a write failed, 8 no memory. A line on standard
error says which line, or what failed.
";

/// The words behind the program's name. Words that aren't text are no command, as none are.
fn words_of(rt: &HostRuntime) -> Result<Vec<String>, AllocError> {
    match env::args(rt) {
        Ok(args) => args.skip(1).collect(rt.alloc()),
        Err(_) => Ok(Vec::new(rt.alloc())),
    }
}

fn main(rt: HostRuntime) -> ExitCode {
    let mut out = StreamSink::new(rt.stdout());
    let mut err = StreamSink::new(rt.stderr());
    let Ok(words) = words_of(&rt) else {
        let _ = write_all(&mut err, b"memory\n");
        return ExitCode::from(NO_MEMORY);
    };
    if asks_help(&words) {
        return match write_all(&mut out, HELP) {
            Ok(()) => ExitCode::from(0),
            Err(_) => ExitCode::from(WRITE_FAULT),
        };
    }
    let mut script = StreamSource::new(rt.stdin());
    ExitCode::from(top(rt.alloc(), &words, &mut script, &mut out, &mut err))
}
