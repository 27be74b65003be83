//! The command: a script is read, and what its events print is printed.
ghost use Rattle.std.specs.Prelude.{◌≡◌, ◌≤◌, ◌++◌, [], ◌↔◌, ◌⊎◌, ℕ, List, Some, IsSome, IsTrue, map, string_bytes, codes, decimal};
ghost use Rattle.hs_outside.specs.Streams.{Rose, SendDoes};
ghost use Rattle.hs_replay.specs.Script.{bad_line_of, script_text};
ghost use Rattle.hs_schema.specs.declared.faults.SchemaRule.{SchemaRule as Rule};
ghost use Rattle.hs_replay.specs.declared.ends.Flaw.TheVariants as flaws;
ghost use Rattle.hs_replay.specs.Script.{bad_line};
ghost use Rattle.hs_replay.specs.Ends.{IsCommand, IsWhole, HasBadLine, IsUnread, IsCut, Said, status_of, flaw_status, is_status, usage_line, flaw_line, script_line, schema_line, rule_word, read_line, write_line, memory_line};

use crate::commands::path_of;
use crate::ends::{BadLine, Ending, Flaw};
use crate::running::run;
use hs_outside::{Failed, Sink, Source, write_all};
use hs_schema::SchemaRule;
use itoa::Buffer;
use std::alloc::Global;

// Has two texts taken, one behind the other.
fn write_two<E: Sink>(err: &mut E, first: &[u8], second: &[u8]) -> Result<(), Failed>
    ensures sends { SendDoes result (E.taker err.old) (E.taker err.new) (first.now ++ second.now) }
    ensures later { (E.taker err.old).faults ≤ (E.taker err.new).faults }
{
    match write_all(err, first) {
        Ok(()) => write_all(err, second),
        Err(failed) => Err(failed),
    }
}

// Has a text and a number taken.
fn write_number<E: Sink>(err: &mut E, text: &[u8], number: u64) -> Result<(), Failed>
    ensures sends { SendDoes result (E.taker err.old) (E.taker err.new) (text.now ++ decimal number) }
    ensures later { (E.taker err.old).faults ≤ (E.taker err.new).faults }
{
    let mut digits = Buffer::new();
    write_two(err, text, digits.format(number).as_bytes())
}

/// Says which line of the script is no event. It takes no memory.
fn say_no_event<E: Sink>(err: &mut E, number: u64) -> Result<(), Failed>
    ensures sends { SendDoes result (E.taker err.old) (E.taker err.new) (script_line number) }
    ensures later { (E.taker err.old).faults ≤ (E.taker err.new).faults }
{
    match write_number(err, b"script line ", number) {
        Ok(()) => write_all(err, b"\n"),
        Err(failed) => Err(failed),
    }
}

/// The word of a schema's rule, between blanks.
fn rule_word(rule: SchemaRule) -> &'static [u8]
    ensures { result.now ≡ rule_word rule }
{
    match rule {
        SchemaRule::BadName => b" badname ",
        SchemaRule::BadKind => b" badkind ",
        SchemaRule::DuplicateName => b" duplicate ",
        SchemaRule::NoPrimary => b" noprimary ",
        SchemaRule::TooMany => b" toomany ",
    }
}

/// Says which table line breaks a rule, which rule, and at which token. It takes no memory.
fn say_bad_table<E: Sink>(
    err: &mut E,
    number: u64,
    rule: SchemaRule,
    token: u32,
) -> Result<(), Failed>
    ensures sends { SendDoes result (E.taker err.old) (E.taker err.new) (schema_line number rule token) }
    ensures later { (E.taker err.old).faults ≤ (E.taker err.new).faults }
{
    match write_number(err, b"schema line ", number) {
        Ok(()) => match write_number(err, rule_word(rule), token as u64) {
            Ok(()) => write_all(err, b"\n"),
            Err(failed) => Err(failed),
        },
        Err(failed) => Err(failed),
    }
}

/// Says what is bad about a line, and answers the status that it ends with. A fault of the error output changes nothing.
fn say_flaw<E: Sink>(err: &mut E, line: BadLine) -> u8
    ensures status { result ≡ flaw_status line.flaw }
    ensures said { Said (E.taker err.old) (E.taker err.new) (flaw_line line.number line.flaw) }
    ensures later { (E.taker err.old).faults ≤ (E.taker err.new).faults }
{
    match line.flaw {
        Flaw::NoEvent => {
            let _ = say_no_event(err, line.number);
            4
        }
        Flaw::BadTable(rule, token) => {
            let _ = say_bad_table(err, line.number, rule, token);
            3
        }
    }
}

/// Runs a script, prints what its events print, and answers a status.
pub fn top<S: Source, K: Sink, E: Sink>(
    alloc: Global,
    words: &[String],
    script: &mut S,
    out: &mut K,
    err: &mut E,
) -> u8
    ensures statuses { IsTrue (is_status result) }

    // 0: the script was read to its end, and its text was printed.
    ensures whole { result ≡ 0 → IsWhole (S.giver script.old) (S.giver script.new) (K.taker out.old) (K.taker out.new)
        × (E.taker err.new ≡ E.taker err.old) }

    // 2: the words are no command, and nothing was done.
    ensures command { (result ≡ 2) ↔ ¬ IsCommand (map (λ w. string_bytes w) words.now) }
    ensures usage { result ≡ 2 → (script.new ≡ script.old) × (out.new ≡ out.old)
        × Said (E.taker err.old) (E.taker err.new) usage_line }

    // 3: a table line breaks a rule, and the text of the events before it was printed.
    ensures bad_table { result ≡ 3 → (k : ℕ) × (rule : Rule) × (token : ℕ)
        × HasBadLine (bad_line k (flaws.BadTable rule token)) (S.giver script.old) (S.giver script.new) (K.taker out.old) (K.taker out.new)
        × Said (E.taker err.old) (E.taker err.new) (schema_line k rule token) }

    // 4: a line is no event in its place, and the text of the events before it was printed.
    ensures bad_line { result ≡ 4 → (k : ℕ)
        × HasBadLine (bad_line k flaws.NoEvent) (S.giver script.old) (S.giver script.new) (K.taker out.old) (K.taker out.new)
        × Said (E.taker err.old) (E.taker err.new) (script_line k) }

    // 5: a read failed, and the text of the lines that were read whole was printed.
    ensures unread { result ≡ 5 → IsUnread (S.giver script.old) (S.giver script.new) (K.taker out.old) (K.taker out.new)
        × Said (E.taker err.old) (E.taker err.new) read_line }

    // 6: a write failed, and a front of the text was printed.
    ensures unwritten { result ≡ 6 → IsCut (S.giver script.old) (S.giver script.new) (K.taker out.old) (K.taker out.new)
        × Rose (K.taker out.old).faults (K.taker out.new).faults × Said (E.taker err.old) (E.taker err.new) write_line }

    // 8: memory ran out, with no fault, and a front of the text was printed.
    ensures memory { result ≡ 8 → IsCut (S.giver script.old) (S.giver script.new) (K.taker out.old) (K.taker out.new)
        × ((K.taker out.new).faults ≡ (K.taker out.old).faults) × Said (E.taker err.old) (E.taker err.new) memory_line }

    // With no fault, the script alone decides, unless memory runs out.
    ensures completes { (bytes : List ℕ) → IsCommand (map (λ w. string_bytes w) words.now) → (S.giver script.old).left ≡ Some bytes
        → ¬ Rose (S.giver script.old).faults (S.giver script.new).faults → ¬ Rose (K.taker out.old).faults (K.taker out.new).faults
        → (result ≡ status_of (bad_line_of bytes)) ⊎ (result ≡ 8) }

    // The same in a line, where both tell: the whole of the script, and the whole of its text.
    ensures told { (bytes taken : List ℕ) → (S.giver script.old).left ≡ Some bytes → (K.taker out.old).taken ≡ Some taken → result ≡ 0
        → ((S.giver script.new).left ≡ Some []) × ((K.taker out.new).taken ≡ Some (taken ++ script_text bytes)) }
    ensures told_bad { (bytes taken : List ℕ) → (S.giver script.old).left ≡ Some bytes → (K.taker out.old).taken ≡ Some taken
        → (result ≡ 3) ⊎ (result ≡ 4)
        → IsSome (bad_line_of bytes) × ((K.taker out.new).taken ≡ Some (taken ++ script_text bytes)) }

    // No count of faults falls.
    ensures script_later { (S.giver script.old).faults ≤ (S.giver script.new).faults }
    ensures out_later { (K.taker out.old).faults ≤ (K.taker out.new).faults }
    ensures err_later { (E.taker err.old).faults ≤ (E.taker err.new).faults }
{
    if path_of(words).is_none() {
        let _ = write_all(
            err,
            b"usage: hs_tool replay <journal> or hs_tool load <n> <journal>\n",
        );
        return 2;
    }
    match run(alloc, script, out) {
        Ending::Whole => 0,
        Ending::Bad(line) => say_flaw(err, line),
        Ending::Unread => {
            let _ = write_all(err, b"read fault\n");
            5
        }
        Ending::Unwritten => {
            let _ = write_all(err, b"write fault\n");
            6
        }
        Ending::Memory => {
            let _ = write_all(err, b"memory\n");
            8
        }
    }
}
