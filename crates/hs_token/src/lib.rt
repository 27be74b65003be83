//! Tokens of a request or reply line, and their one spelling.
//!
//! | Token | Spelling |
//! |---|---|
//! | NULL | the byte 0x00 alone |
//! | a text | its bytes in order: 0x10 to 0xFF as they are, a byte b below as 0x01 and b + 0x40 |
//!
//! A line is its tokens with one HT (0x09) between neighbours, so the empty line is one empty text.
//! No two tokens share a spelling, and what is written is read again. `decode_line` reads a line,
//! and refuses any other spelling at its first bad byte; `decode_shared` reads one whose memory the
//! texts may share. `push_line`, `push_token` and `push_reply` write, as `push_head`, `push_text`,
//! `push_integer` and `push_u64` do without tokens; `parse_u32`, `parse_u64` and `parse_i64` read
//! the numbers that texts write in decimal.
//! Cutting a stream into lines is the work of `hs_line`, what a token means that of `open_index`.
#![tactic(auto)]

mod laws;
mod lines;
mod numbers;
mod parts;
mod replies;
mod spelling;
#[cfg(test)]
mod tests;
mod tokens;

pub use laws::{
    example_faults, example_lines, example_numbers, lines_are_bad_or_spelled,
    printed_numbers_are_read, replies_have_parts, spellings_are_lines, spellings_are_unique,
};
pub use lines::{TokenFault, decode_line, decode_shared};
pub use numbers::{parse_i64, parse_u32, parse_u64};
pub use parts::{push_head, push_integer, push_u64};
pub use replies::push_reply;
pub use spelling::push_line;
pub use tokens::{LINE_FEED, TAB, Token, push_text, push_token};
