//! Cuts a stream of bytes into lines, however its bytes come.
//!
//!     P 1 test t PRIMARY id,n LF 1 = 1 1 LF 1 + 2
//!     |--- first line ---|       |-line-|   |rest|          LF is the byte 0x0A
//!
//! An LF ends a line, and nothing else does: no CR, no end of a piece. `LineBuf` holds up to
//! 131,072 bytes that were received and not taken yet. `push` appends a piece that fits the `room`
//! and takes no memory, and `take_line` hands out the first line. `has_line` and `rest_len` look at
//! what is held, and `is_too_long` says that the first line is longer than 65,536 bytes, whether or
//! not its LF has come. `SizedLineBuf` does the same under a limit of the caller's. `cut_pieces`
//! pushes a list of pieces, and says what single calls come to.
//!
//! What a line means is left to the crates above.
#![tactic(auto)]

mod buffer;
mod laws;
mod limits;
mod pieces;
mod search;
mod sized;
mod space;
#[cfg(test)]
mod tests;

pub use buffer::LineBuf;
pub use laws::{lines_and_the_rest, lines_as_they_come, lines_of_examples, whole_lines_one_by_one};
pub use limits::{BUFFER_SIZE, MAX_LINE_LEN};
pub use pieces::{Cut, Piece, cut_pieces};
pub use search::first_line_len;
pub use sized::SizedLineBuf;
