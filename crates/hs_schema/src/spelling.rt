//! The text of a schema.
ghost use Rattle.std.specs.Prelude.{◌≡◌, [], ◌∷◌, ◌++◌, flat_map, slice_get, decimal, OnOk, OnErr, IfOk};
ghost use Rattle.std.specs.Fmt.{signed_decimal};
ghost use Rattle.hs_schema.specs.Spelling.{kind_text, nullness_text, index_kind_text, name_in, preset_token, column_tokens, names_text, index_tokens, table_tokens, table_line};

use bytes::Bytes;
use hs_token::{LINE_FEED, Token, push_line};
use itoa::Buffer;
use row_types::{Column, IndexDef, IndexKind, Kind, TableDef, Value};
use std::alloc::{AllocError, Global};

/// Appends the line of a table, with its LF.
pub(crate) fn push_table(
    alloc: Global,
    out: &mut Vec<u8>,
    table: &TableDef,
) -> Result<(), AllocError>
    ensures { OnOk result (out.new.items ≡ out.old.items ++ table_line table.now) }
{
    let tokens = table_tokens(alloc, table)?;
    push_line(out, &tokens)?;
    Ok(out.push(LINE_FEED)?)
}

fn table_tokens(alloc: Global, table: &TableDef) -> Result<Vec<Token>, AllocError>
    ensures { IfOk result (λ tokens. tokens.items ≡ table_tokens table.now) }
{
    let columns = table.columns.as_slice();
    let mut tokens = Vec::new(alloc);
    tokens.push(Token::Text(Bytes::from_static(b"table")))?;
    tokens.push(text_token(alloc, table.db.as_slice())?)?;
    tokens.push(text_token(alloc, table.name.as_slice())?)?;
    push_columns(alloc, &mut tokens, columns)?;
    push_indexes(alloc, &mut tokens, columns, table.indexes.as_slice())?;
    Ok(tokens)
}

fn push_columns(
    alloc: Global,
    tokens: &mut Vec<Token>,
    columns: &[Column],
) -> Result<(), AllocError>
    ensures { OnOk result (tokens.new.items
        ≡ tokens.old.items ++ flat_map column_tokens columns.now) }
{
    for column in columns {
        push_column(alloc, tokens, column)?;
    }
    Ok(())
}

fn push_indexes(
    alloc: Global,
    tokens: &mut Vec<Token>,
    columns: &[Column],
    indexes: &[IndexDef],
) -> Result<(), AllocError>
    ensures { OnOk result (tokens.new.items ≡ tokens.old.items
        ++ flat_map (index_tokens columns.now) indexes.now) }
{
    for index in indexes {
        push_index(alloc, tokens, columns, index)?;
    }
    Ok(())
}

fn text_token(alloc: Global, text: &[u8]) -> Result<Token, AllocError>
    ensures { IfOk result (λ token. token ≡ Token.Text text.now) }
{
    Ok(Token::Text(Bytes::copy_from_slice(alloc, text)?))
}

fn push_column(alloc: Global, tokens: &mut Vec<Token>, column: &Column) -> Result<(), AllocError>
    ensures { OnOk result (tokens.new.items ≡ tokens.old.items ++ column_tokens column.now) }
{
    tokens.push(Token::Text(Bytes::from_static(b"c")))?;
    tokens.push(text_token(alloc, column.name.as_slice())?)?;
    tokens.push(kind_token(alloc, column.kind)?)?;
    tokens.push(nullness_token(column.auto, column.null))?;
    tokens.push(preset_token(alloc, &column.preset)?)?;
    Ok(())
}

fn kind_token(alloc: Global, kind: Kind) -> Result<Token, AllocError>
    ensures { IfOk result (λ token. token ≡ Token.Text (kind_text kind)) }
{
    match kind {
        Kind::Int => Ok(Token::Text(Bytes::from_static(b"int"))),
        Kind::Bytes(most) => {
            let mut text = Vec::from_slice(alloc, b"bytes:".as_slice())?;
            text.extend_from_slice(Buffer::new().format(most).as_bytes())?;
            Ok(Token::Text(Bytes::from_vec(text)?))
        }
    }
}

fn nullness_token(auto: bool, null: bool) -> Token
    ensures { result ≡ Token.Text (nullness_text auto null) }
{
    if auto {
        Token::Text(Bytes::from_static(b"auto"))
    } else if null {
        Token::Text(Bytes::from_static(b"null"))
    } else {
        Token::Text(Bytes::from_static(b"not"))
    }
}

fn preset_token(alloc: Global, preset: &Value) -> Result<Token, AllocError>
    ensures { IfOk result (λ token. token ≡ preset_token preset.now) }
{
    match preset {
        Value::Null => Ok(Token::Null),
        Value::Int(number) => text_token(alloc, Buffer::new().format(*number).as_bytes()),
        Value::Text(text) => text_token(alloc, text.as_slice()),
    }
}

fn push_index(
    alloc: Global,
    tokens: &mut Vec<Token>,
    columns: &[Column],
    index: &IndexDef,
) -> Result<(), AllocError>
    ensures { OnOk result (tokens.new.items
        ≡ tokens.old.items ++ index_tokens columns.now index.now) }
{
    tokens.push(Token::Text(Bytes::from_static(b"i")))?;
    tokens.push(text_token(alloc, index.name.as_slice())?)?;
    tokens.push(index_kind_token(index.kind))?;
    tokens.push(names_token(alloc, columns, index.parts.as_slice())?)?;
    Ok(())
}

fn index_kind_token(kind: IndexKind) -> Token
    ensures { result ≡ Token.Text (index_kind_text kind) }
{
    match kind {
        IndexKind::Primary => Token::Text(Bytes::from_static(b"primary")),
        IndexKind::Unique => Token::Text(Bytes::from_static(b"unique")),
        IndexKind::Plain => Token::Text(Bytes::from_static(b"index")),
    }
}

/// The names of the columns at these places.
fn names_token(alloc: Global, columns: &[Column], parts: &[u32]) -> Result<Token, AllocError>
    ensures { IfOk result (λ token. token ≡ Token.Text (names_text columns.now parts.now)) }
{
    let mut text = Vec::new(alloc);
    push_names(&mut text, columns, parts)?;
    Ok(Token::Text(Bytes::from_vec(text)?))
}

fn push_names(text: &mut Vec<u8>, columns: &[Column], parts: &[u32]) -> Result<(), AllocError>
    ensures { OnOk result (text.new.items ≡ text.old.items ++ names_text columns.now parts.now) }
{
    match parts {
        [] => Ok(()),
        [first, rest @ ..] => {
            text.extend_from_slice(name_of(columns, *first))?;
            push_behind_commas(text, columns, rest)
        }
    }
}

fn push_behind_commas(
    text: &mut Vec<u8>,
    columns: &[Column],
    parts: &[u32],
) -> Result<(), AllocError>
    ensures { OnOk result (text.new.items ≡ text.old.items
        ++ flat_map (λ part. 44 ∷ name_in (slice_get columns.now part)) parts.now) }
{
    for part in parts {
        text.push(b',')?;
        text.extend_from_slice(name_of(columns, *part))?;
    }
    Ok(())
}

fn name_of(columns: &[Column], part: u32) -> &[u8]
    ensures { result.now ≡ name_in (slice_get columns.now part) }
{
    match columns.get(part as usize) {
        Some(column) => column.name.as_slice(),
        None => &[],
    }
}
