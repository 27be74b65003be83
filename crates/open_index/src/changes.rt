//! MOD: what happens to the rows that a find selects.
ghost use Rattle.std.specs.Prelude.{◌≡◌, ◌≤◌, length};
ghost use Rattle.request_types.specs.Refusal.{Gives};
ghost use Rattle.open_index.specs.Find.{mod_word, mod_values, is_reading, change_of, mod_of};

use crate::handles::OpenColumn;
use crate::tokens::is_word;
use crate::values::{deltas_of, values_of};
use hs_token::Token;
use request_types::{Code, Fault, ModKind, ModSpec, Port};
use row_types::{List, Value};
use std::alloc::Global;

/// Whether a port is for finds alone.
pub(crate) fn is_reading(port: Port) -> bool
    ensures { result ≡ is_reading port }
{
    match port {
        Port::Reading => true,
        Port::Writing | Port::Sql => false,
    }
}

fn mod_word(token: &Token) -> Option<(ModKind, bool)>
    ensures { result ≡ mod_word token.now }
{
    if is_word(token, b"U") {
        Some((ModKind::Update, false))
    } else if is_word(token, b"+") {
        Some((ModKind::Add, false))
    } else if is_word(token, b"-") {
        Some((ModKind::Subtract, false))
    } else if is_word(token, b"D") {
        Some((ModKind::Remove, false))
    } else if is_word(token, b"U?") {
        Some((ModKind::Update, true))
    } else if is_word(token, b"+?") {
        Some((ModKind::Add, true))
    } else if is_word(token, b"-?") {
        Some((ModKind::Subtract, true))
    } else if is_word(token, b"D?") {
        Some((ModKind::Remove, true))
    } else {
        None
    }
}

#[tactic(auto, unfolding(crate::specs::Find::mod_values))]
fn mod_values(
    alloc: Global,
    kind: ModKind,
    columns: &[OpenColumn],
    tokens: &[Token],
) -> Result<List<Value>, Fault>
    requires { length tokens.now ≤ length columns.now }
    ensures { Gives (λ values. values) result (mod_values kind columns.now tokens.now) }
{
    match kind {
        ModKind::Update => values_of(alloc, columns, tokens),
        ModKind::Add | ModKind::Subtract => deltas_of(alloc, columns, tokens),
        ModKind::Remove => Ok(List::new(alloc)),
    }
}

/// The change that a word begins, with all tokens behind it.
#[tactic(auto, unfolding(crate::specs::Find::change_of))]
fn change_of(
    alloc: Global,
    port: Port,
    columns: &[OpenColumn],
    word: (ModKind, bool),
    tokens: &[Token],
) -> Result<ModSpec, Fault>
    ensures { Gives (λ change. change) result (change_of port columns.now word tokens.now) }
{
    let (kind, show) = word;
    if is_reading(port) {
        return Err(Fault::Refused(Code::ReadOnly));
    }
    if columns.len() < tokens.len() {
        return Err(Fault::Refused(Code::Mod));
    }
    let values = mod_values(alloc, kind, columns, tokens)?;
    Ok(ModSpec { kind, values, show })
}

/// MOD, if a token is left.
#[tactic(auto, unfolding(crate::specs::Find::mod_of))]
pub(crate) fn mod_of(
    alloc: Global,
    port: Port,
    columns: &[OpenColumn],
    tokens: &[Token],
) -> Result<Option<ModSpec>, Fault>
    ensures { Gives (λ change. change) result (mod_of port columns.now tokens.now) }
{
    let [token, rest @ ..] = tokens else {
        return Ok(None);
    };
    let Some(word) = mod_word(token) else {
        return Err(Fault::Refused(Code::Args));
    };
    let change = change_of(alloc, port, columns, word, rest)?;
    Ok(Some(change))
}
