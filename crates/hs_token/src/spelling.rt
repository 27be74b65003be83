//! Writing a line of tokens.
ghost use Rattle.std.specs.Prelude.{◌≡◌, ◌∷◌, ◌++◌, OnOk, OnErr};
ghost use Rattle.hs_token.specs.Spelling.{token_spelled, line_spelled, behind_tabs};
ghost use Rattle.hs_token.specs.Steps.{Extends};

use crate::tokens::{TAB, Token, push_token};
use std::alloc::AllocError;

/// Appends a line of tokens, without its LF. No tokens are no bytes.
pub fn push_line(out: &mut Vec<u8>, tokens: &[Token]) -> Result<(), AllocError>
    ensures ok { OnOk result (out.new.items ≡ out.old.items ++ line_spelled tokens.now) }
    ensures err { OnErr result (out.new.items ≡ out.old.items) }
{
    let len = out.len();
    let pushed = append_line(out, tokens);
    if pushed.is_err() {
        out.truncate(len);
    }
    pushed
}

/// Appends a line, or a part of it where memory runs out.
fn append_line(out: &mut Vec<u8>, tokens: &[Token]) -> Result<(), AllocError>
    ensures ok { OnOk result (out.new.items ≡ out.old.items ++ line_spelled tokens.now) }
    ensures err { OnErr result (Extends out.old.items out.new.items) }
{
    match tokens {
        [] => Ok(()),
        [first, rest @ ..] => {
            push_token(out, first)?;
            append_behind_tabs(out, rest)
        }
    }
}

/// Appends each token behind a tab, or a part of them where memory runs out.
pub(crate) fn append_behind_tabs(out: &mut Vec<u8>, tokens: &[Token]) -> Result<(), AllocError>
    ensures ok { OnOk result (out.new.items ≡ out.old.items ++ behind_tabs tokens.now) }
    ensures err { OnErr result (Extends out.old.items out.new.items) }
{
    for token in tokens {
        append_behind_tab(out, token)?;
    }
    Ok(())
}

fn append_behind_tab(out: &mut Vec<u8>, token: &Token) -> Result<(), AllocError>
    ensures ok { OnOk result (out.new.items ≡ out.old.items ++ 9 ∷ token_spelled token.now) }
    ensures err { OnErr result (Extends out.old.items out.new.items) }
{
    out.push(TAB)?;
    push_token(out, token)
}
