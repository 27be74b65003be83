//! The lines that a turn prints.
ghost use Rattle.std.specs.Prelude.{◌≡◌, ◌++◌, OnOk};
ghost use Rattle.replay_turns.specs.Told.{line_of, reason_word};

use hs_token::push_text;
use itoa::Buffer;
use line_pipeline::Reason;
use std::alloc::AllocError;

/// Appends a line of a word, a number and a text.
pub fn push_line(
    text: &mut Vec<u8>,
    word: &[u8],
    number: u32,
    last: &[u8],
) -> Result<(), AllocError>
    ensures { OnOk result (text.new.items ≡ text.old.items ++ line_of word.now number last.now) }
{
    let mut digits = Buffer::new();
    push_text(text, word)?;
    text.push(b'\t')?;
    push_text(text, digits.format(number).as_bytes())?;
    text.push(b'\t')?;
    push_text(text, last)?;
    Ok(text.push(b'\n')?)
}

/// The word for the reason of a closing.
pub fn reason_word(reason: Reason) -> &'static [u8]
    ensures { result.now ≡ reason_word reason }
{
    match reason {
        Reason::Ended => b"ended",
        Reason::LinkFault => b"link",
        Reason::TooLong => b"long",
        Reason::BatchDisk => b"disk",
        Reason::BatchMemory => b"memory",
    }
}
