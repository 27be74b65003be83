//! The outside of the program, as traits: where bytes come from, where they go, and connections,
//! which do both.
//!
//! | Trait | In memory, for tests | Over a real stream |
//! |---|---|---|
//! | `Source` | `MemSource` | `StreamSource` over any reader |
//! | `Sink` | `MemSink` | `StreamSink` over any writer |
//! | `Link` | `MemLink` | |
//!
//! Each counts its failed calls, and answers a failure only where that count rose. A version in
//! memory also tells its bytes, so that contracts can speak of them. A stream tells none as a source
//! or a sink, and nothing is claimed of them there; its own calls say of them what its reader or its
//! writer tells. `write_all` gives bytes to a sink whole. `Port` names a server's three ports, and
//! `ConnId` a connection. What the bytes mean is left to the crates above.
#![tactic(auto)]

mod copying;
mod links;
mod memory_link;
mod memory_sink;
mod memory_source;
mod sinks;
mod sources;
mod streams;
#[cfg(test)]
mod tests;
mod writing;

pub use links::{Link, Recv, Sent};
pub use memory_link::MemLink;
pub use memory_sink::MemSink;
pub use memory_source::MemSource;
pub use request_types::{ConnId, Port};
pub use sinks::{Failed, Sink, Wrote};
pub use sources::{Read, Source};
pub use streams::{StreamSink, StreamSource};
pub use writing::write_all;
