//! The columns of a table line.
ghost use Rattle.std.specs.Prelude.{◌≡◌, ◌+◌, ◌*◌, ◌≤◌, ◌<◌, ◌^◌, length, slice_get, IfOk, [], List};
ghost use Rattle.row_types.specs.declared.columns.Column.{Column as SeenColumn};
ghost use Rattle.row_types.specs.Counted.{has_counted};
ghost use Rattle.row_types.specs.Valid.{is_kind, same_but_case};
ghost use Rattle.hs_schema.specs.Reading.{Gives, kind_of, sized, kind_at, can_count, nullness_at, preset_of, preset_in, has_column, column_name_at, column_place, column_at, columns_of};

use crate::faults::{LineFault, SchemaRule};
use crate::nullness::Nullness;
use crate::tokens::{is_word_at, name_at, text_at};
use hs_token::{Token, parse_i64, parse_u32};
use row_types::{ByteText, Column, Kind, Value};
use std::alloc::{AllocError, Global};

/// The most columns of a table.
const MAX_COLUMNS: usize = 64;

/// The most bytes of a text in a column.
const MAX_TEXT_LEN: u32 = 16316;

/// The place of the token `c` of the column behind so many.
pub(crate) fn column_place(columns: &[Column]) -> u32
    requires { length columns.now ≤ 64 }
    ensures { result ≡ column_place columns.now }
{
    3 + 5 * columns.len() as u32
}

/// The columns of a line, one at least.
#[tactic(auto, unfolding(crate::specs::Reading::columns_of))]
pub(crate) fn columns_of(alloc: Global, line: &[Token]) -> Result<Vec<Column>, LineFault>
    ensures exact { Gives (λ columns. columns.items) result (columns_of line.now) }
    ensures most { IfOk result (λ columns. length columns.items ≤ 64) }
{
    if !is_word_at(b"c", line, 3) {
        return Err(LineFault::Broken(SchemaRule::BadKind, 3));
    }
    let mut columns = Vec::new(alloc);
    while is_word_at(b"c", line, column_place(&columns)) {
        if columns.len() == MAX_COLUMNS {
            return Err(LineFault::Broken(SchemaRule::TooMany, column_place(&columns)));
        }
        let column = column_at(alloc, &columns, line)?;
        columns.push(column)?;
    }
    Ok(columns)
}

/// The column behind those before.
#[tactic(auto, unfolding(crate::specs::Reading::column_at))]
fn column_at(alloc: Global, before: &[Column], line: &[Token]) -> Result<Column, LineFault>
    requires { length before.now < 64 }
    ensures { Gives (λ column. column) result (column_at before.now line.now) }
{
    let place = column_place(before);
    let name = column_name_at(before, line, place + 1)?;
    let kind = kind_at(line, place + 2)?;
    let nullness = nullness_at(before, kind, line, place + 3)?;
    let preset = preset_at(alloc, kind, nullness.is_counted(), line, place + 4)?;
    Ok(Column {
        name: ByteText::of(alloc, name)?,
        kind,
        null: nullness.allows_null(),
        auto: nullness.is_counted(),
        preset,
    })
}

#[tactic(auto, unfolding(crate::specs::Reading::column_name_at))]
fn column_name_at<'a>(
    before: &[Column],
    line: &'a [Token],
    place: u32,
) -> Result<&'a [u8], LineFault>
    ensures { Gives (λ name. name.now) result (column_name_at before.now line.now place) }
{
    let name = name_at(line, place)?;
    if has_column(before, name) {
        return Err(LineFault::Broken(SchemaRule::DuplicateName, place));
    }
    Ok(name)
}

/// Whether a column is so named, whatever the case.
fn has_column(columns: &[Column], name: &[u8]) -> bool
    ensures { result ≡ has_column columns.now name.now }
{
    columns
        .iter()
        .any(|column| is_same_but_case(name, column.name.as_slice()))
}

fn is_same_but_case(a: &[u8], b: &[u8]) -> bool
    ensures { result ≡ same_but_case a.now b.now }
{
    a.eq_ignore_ascii_case(b)
}

fn kind_at(line: &[Token], place: u32) -> Result<Kind, LineFault>
    ensures { Gives (λ kind. kind) result (kind_at line.now place) }
{
    match kind_of(text_at(line, place)?) {
        Some(kind) => Ok(kind),
        None => Err(LineFault::Broken(SchemaRule::BadKind, place)),
    }
}

fn kind_of(text: &[u8]) -> Option<Kind>
    ensures { result ≡ kind_of text.now }
{
    if text == b"int".as_slice() {
        return Some(Kind::Int);
    }
    let digits = text.strip_prefix(b"bytes:")?;
    if digits.first() == Some(&b'0') {
        return None;
    }
    sized(parse_u32(digits)?)
}

fn sized(most: u32) -> Option<Kind>
    ensures { result ≡ sized (Some most) }
{
    if 1 <= most && most <= MAX_TEXT_LEN {
        Some(Kind::Bytes(most))
    } else {
        None
    }
}

/// The nullness of a column of this kind behind those before.
#[tactic(auto, unfolding(crate::specs::Reading::nullness_at))]
fn nullness_at(
    before: &[Column],
    kind: Kind,
    line: &[Token],
    place: u32,
) -> Result<Nullness, LineFault>
    ensures { Gives (λ nullness. nullness) result (nullness_at before.now kind line.now place) }
{
    let text = text_at(line, place)?;
    let nullness = match Nullness::of(text) {
        Some(nullness) => nullness,
        None => return Err(LineFault::Broken(SchemaRule::BadKind, place)),
    };
    if nullness.is_counted() && !can_count(before, kind) {
        return Err(LineFault::Broken(SchemaRule::BadKind, place));
    }
    Ok(nullness)
}

/// Whether a column of this kind may be counted.
fn can_count(before: &[Column], kind: Kind) -> bool
    ensures { result ≡ can_count before.now kind }
{
    match kind {
        Kind::Int => !has_counted(before),
        Kind::Bytes(_) => false,
    }
}

/// Whether a column is counted.
pub(crate) fn has_counted(columns: &[Column]) -> bool
    ensures { result ≡ has_counted columns.now }
{
    columns.iter().any(|column| column.auto)
}

/// The preset at this place, which a column of this kind holds, and which is NULL where it is
/// counted.
fn preset_at(
    alloc: Global,
    kind: Kind,
    counted: bool,
    line: &[Token],
    place: u32,
) -> Result<Value, LineFault>
    ensures { Gives (λ preset. preset) result
        (preset_in kind counted place (slice_get line.now place)) }
{
    match line.get(place as usize) {
        Some(Token::Null) => Ok(Value::Null),
        Some(Token::Text(text)) => {
            if counted {
                return Err(LineFault::Broken(SchemaRule::BadKind, place));
            }
            match preset_of(alloc, kind, text.as_slice())? {
                Some(preset) => Ok(preset),
                None => Err(LineFault::Broken(SchemaRule::BadKind, place)),
            }
        }
        None => Err(LineFault::Broken(SchemaRule::BadKind, place)),
    }
}

fn preset_of(alloc: Global, kind: Kind, text: &[u8]) -> Result<Option<Value>, AllocError>
    ensures { IfOk result (λ preset. preset ≡ preset_of kind text.now) }
{
    match kind {
        Kind::Int => match parse_i64(text) {
            Some(number) => Ok(Some(Value::Int(number))),
            None => Ok(None),
        },
        Kind::Bytes(most) => {
            if text.len() > most as usize {
                return Ok(None);
            }
            Ok(Some(Value::Text(ByteText::of(alloc, text)?)))
        }
    }
}
