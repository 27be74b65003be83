//! What a line means, and what becomes of it.
ghost use Rattle.std.specs.Prelude.{◌≡◌, IfOk, OnErr};
ghost use Rattle.request_types.specs.Refusal.{Gives};
ghost use Rattle.open_index.specs.Open.{IsNumbered};
ghost use Rattle.row_types.specs.Valid.{IsValid};
ghost use Rattle.open_index.specs.Fits.{HandlesFit, ResolvedFits};
ghost use Rattle.open_index.specs.Line.{command_of, is_secret, tells, is_locked, command_means, tokens_mean, line_means, reads};

use crate::handles::Handles;
use crate::meanings::{Command, Meaning};
use crate::opening::open_of;
use crate::operations::request_of;
use crate::requests::{Auth, Resolved};
use crate::tokens::{is_word, u32_at};
use bytes::Bytes;
use hs_token::{Token, TokenFault, decode_shared};
use request_types::{Code, Fault, Port};
use row_types::{ByteText, Schema};
use std::alloc::{AllocError, Global};

/// What a line is, by its first token.
#[tactic(auto, unfolding(crate::specs::Line::command_of))]
fn command_of(token: &Token) -> Result<Command, Fault>
    ensures { Gives (λ command. command) result (command_of token.now) }
{
    if is_word(token, b"P") {
        return Ok(Command::Open);
    }
    if is_word(token, b"A") {
        return Ok(Command::Tell);
    }
    match u32_at(token) {
        None => Err(Fault::Refused(Code::Cmd)),
        Some(id) => Ok(Command::Use(id)),
    }
}

/// Whether a key is the secret, if there is one.
fn is_secret(secret: &Option<ByteText>, key: &Token) -> bool
    ensures { result ≡ is_secret secret.now key.now }
{
    match secret {
        None => true,
        Some(secret) => is_word(key, secret.as_slice()),
    }
}

/// Whether the key behind an `A` is the secret.
#[tactic(auto, unfolding(crate::specs::Line::tells))]
fn tells(auth: &Auth, tokens: &[Token]) -> Result<Meaning, Fault>
    ensures { Gives (λ meaning. meaning) result (tells auth.now tokens.now) }
{
    let [kind, key] = tokens else {
        return Err(Fault::Refused(Code::Args));
    };
    if !is_word(kind, b"1") {
        return Err(Fault::Refused(Code::Args));
    }
    if !is_secret(&auth.secret, key) {
        return Err(Fault::Refused(Code::AuthKey));
    }
    Ok(Meaning::Tells)
}

/// Whether lines other than `A` are refused.
fn is_locked(auth: &Auth) -> bool
    ensures { result ≡ is_locked auth.now }
{
    auth.secret.is_some() && !auth.passed
}

/// What a line's meaning depends on, beside the line.
#[derive(Drop)]
struct Context<'a> {
    schema: &'a Schema,
    port: Port,
    handles: &'a Handles,
    auth: &'a Auth,
}

/// What a command means, by the tokens behind it.
#[tactic(auto, unfolding(crate::specs::Line::command_means))]
fn command_means(
    alloc: Global,
    context: &Context,
    command: Command,
    tokens: &[Token],
) -> Result<Meaning, Fault>
    requires { IsNumbered context.now.schema.now }
    ensures { Gives (λ meaning. meaning) result (command_means context.now.schema.now
        context.now.port context.now.handles.now context.now.auth.now command tokens.now) }
{
    match command {
        Command::Tell => tells(context.auth, tokens),
        _ if is_locked(context.auth) => Err(Fault::Refused(Code::Unauth)),
        Command::Open => {
            let (id, handle) = open_of(alloc, context.schema, context.handles, tokens)?;
            Ok(Meaning::Opens(id, handle))
        }
        Command::Use(id) => {
            let request = request_of(alloc, context.port, context.handles, id, tokens)?;
            Ok(Meaning::Asks(request))
        }
    }
}

/// What the tokens of a line mean.
#[tactic(auto, unfolding(crate::specs::Line::tokens_mean))]
fn tokens_mean(alloc: Global, context: &Context, tokens: &[Token]) -> Result<Meaning, Fault>
    requires { IsNumbered context.now.schema.now }
    ensures { Gives (λ meaning. meaning) result (tokens_mean context.now.schema.now context.now.port
        context.now.handles.now context.now.auth.now tokens.now) }
{
    let [token, rest @ ..] = tokens else {
        return Err(Fault::Refused(Code::Cmd));
    };
    let command = command_of(token)?;
    command_means(alloc, context, command, rest)
}

/// What a line means.
#[tactic(auto, unfolding(crate::specs::Line::line_means))]
fn line_means(alloc: Global, context: &Context, line: &Bytes) -> Result<Meaning, Fault>
    requires { IsNumbered context.now.schema.now }
    ensures { Gives (λ meaning. meaning) result (line_means context.now.schema.now context.now.port
        context.now.handles.now context.now.auth.now line.now) }
{
    match decode_shared(alloc, line) {
        Err(TokenFault::BadToken(_)) => Err(Fault::Refused(Code::Token)),
        Err(TokenFault::NoMemory) => Err(Fault::NoMemory),
        Ok(tokens) => tokens_mean(alloc, context, tokens.as_slice()),
    }
}

/// Reads a line without its LF, and says what becomes of it.
///
/// The port is the reading or the writing one; the SQL port's lines are of another form, and are
/// read here as the writing port's. What is refused, and in which order, is `reads`: a refused line
/// changes neither the open ids nor the auth, and its reply begins with the answered number. Want
/// of memory changes neither, too.
pub fn resolve(
    alloc: Global,
    schema: &Schema,
    port: Port,
    handles: &mut Handles,
    auth: &mut Auth,
    line: &[u8],
) -> Result<Resolved, AllocError>
    requires { IsNumbered schema.now }
    ensures ok { IfOk result (λ resolved. (resolved, handles.new, auth.new)
        ≡ reads schema.now port handles.old auth.old line.now) }
    ensures err { OnErr result ((handles.new ≡ handles.old) × (auth.new ≡ auth.old)) }
    // What is asked of the tables fits their schema, and so do the open ids behind the line.
    ensures fits { IsValid schema.now → HandlesFit schema.now handles.old
        → IfOk result (ResolvedFits schema.now) }
    ensures handles_fit { IsValid schema.now → HandlesFit schema.now handles.old
        → HandlesFit schema.now handles.new }
{
    let line = Bytes::from_vec(Vec::from_slice(alloc, line)?)?;
    resolve_shared(alloc, schema, port, handles, auth, &line)
}

/// The same of a line whose memory is shared, of which no byte is copied that needn't be.
pub fn resolve_shared(
    alloc: Global,
    schema: &Schema,
    port: Port,
    handles: &mut Handles,
    auth: &mut Auth,
    line: &Bytes,
) -> Result<Resolved, AllocError>
    requires { IsNumbered schema.now }
    ensures ok { IfOk result (λ resolved. (resolved, handles.new, auth.new)
        ≡ reads schema.now port handles.old auth.old line.now) }
    ensures err { OnErr result ((handles.new ≡ handles.old) × (auth.new ≡ auth.old)) }
    // What is asked of the tables fits their schema, and so do the open ids behind the line.
    ensures fits { IsValid schema.now → HandlesFit schema.now handles.old
        → IfOk result (ResolvedFits schema.now) }
    ensures handles_fit { IsValid schema.now → HandlesFit schema.now handles.old
        → HandlesFit schema.now handles.new }
{
    let context = Context {
        schema,
        port,
        handles: &*handles,
        auth: &*auth,
    };
    match line_means(alloc, &context, line) {
        Err(Fault::NoMemory) => Err(AllocError),
        Err(Fault::Refused(code)) => Ok(Resolved::Reply(code.number())),
        Ok(Meaning::Asks(request)) => Ok(Resolved::Ask(request)),
        Ok(Meaning::Tells) => {
            auth.passed = true;
            Ok(Resolved::Authed)
        }
        Ok(Meaning::Opens(id, handle)) => {
            handles.open(id, handle)?;
            Ok(Resolved::Opened)
        }
    }
}
