//! The indexes of a table line.
ghost use Rattle.std.specs.Prelude.{◌≡◌, ◌+◌, ◌≤◌, ◌<◌, ◌^◌, [], length, OnOk};
ghost use Rattle.hs_schema.specs.Reading.{Gives, index_kind_of, suits, has_index, index_name_at, index_kind_at, index_place, index_at, indexes_at};

use crate::columns::column_place;
use crate::faults::{LineFault, SchemaRule};
use crate::parts::{fine_parts, is_primary, parts_of};
use crate::tokens::{is_word_at, name_at, text_at};
use hs_token::Token;
use row_types::{ByteText, Column, IndexDef, IndexKind, List};
use std::alloc::Global;

/// The most indexes of a table.
const MAX_INDEXES: usize = 16;

/// The indexes of a line up to its end.
pub(crate) fn indexes_of(
    alloc: Global,
    columns: &[Column],
    line: &[Token],
) -> Result<Vec<IndexDef>, LineFault>
    requires { length columns.now ≤ 64 }
    ensures exact { Gives (λ indexes. indexes.items) result
        (indexes_at 16 columns.now [] line.now) }
    // So the line's end is the place of a token, too.
    ensures end { OnOk result (length line.now < 2 ^ 32) }
{
    let mut indexes = Vec::new(alloc);
    while (index_place(columns, &indexes) as usize) < line.len() {
        let place = index_place(columns, &indexes);
        if !is_word_at(b"i", line, place) {
            return Err(LineFault::Broken(SchemaRule::BadKind, place));
        }
        if indexes.len() == MAX_INDEXES {
            return Err(LineFault::Broken(SchemaRule::TooMany, place));
        }
        let index = index_at(alloc, columns, &indexes, line)?;
        indexes.push(index)?;
    }
    Ok(indexes)
}

/// The place of the token `i` of the index behind so many.
fn index_place(columns: &[Column], indexes: &[IndexDef]) -> u32
    requires columns { length columns.now ≤ 64 }
    requires indexes { length indexes.now ≤ 16 }
    ensures { result ≡ index_place columns.now indexes.now }
{
    column_place(columns) + 4 * indexes.len() as u32
}

/// The index behind those before.
#[tactic(auto, unfolding(crate::specs::Reading::index_at))]
fn index_at(
    alloc: Global,
    columns: &[Column],
    before: &[IndexDef],
    line: &[Token],
) -> Result<IndexDef, LineFault>
    requires columns { length columns.now ≤ 64 }
    requires indexes { length before.now < 16 }
    ensures { Gives (λ index. index) result (index_at columns.now before.now line.now) }
{
    let place = index_place(columns, before);
    let name = index_name_at(before, line, place + 1)?;
    let kind = index_kind_at(name, line, place + 2)?;
    let text = text_at(line, place + 3)?;
    let parts = parts_of(alloc, columns, text)?;
    let parts = fine_parts(columns, kind, place + 3, parts)?;
    Ok(IndexDef {
        name: ByteText::of(alloc, name)?,
        kind,
        parts: List::of_vec(parts),
    })
}

#[tactic(auto, unfolding(crate::specs::Reading::index_name_at))]
fn index_name_at<'a>(
    before: &[IndexDef],
    line: &'a [Token],
    place: u32,
) -> Result<&'a [u8], LineFault>
    ensures { Gives (λ name. name.now) result (index_name_at before.now line.now place) }
{
    let name = name_at(line, place)?;
    if has_index(before, name) {
        return Err(LineFault::Broken(SchemaRule::DuplicateName, place));
    }
    Ok(name)
}

fn has_index(indexes: &[IndexDef], name: &[u8]) -> bool
    ensures { result ≡ has_index indexes.now name.now }
{
    indexes.iter().any(|index| name == index.name.as_slice())
}

/// The kind of the index of this name.
#[tactic(auto, unfolding(crate::specs::Reading::index_kind_at))]
fn index_kind_at(name: &[u8], line: &[Token], place: u32) -> Result<IndexKind, LineFault>
    ensures { Gives (λ kind. kind) result (index_kind_at name.now line.now place) }
{
    let text = text_at(line, place)?;
    let kind = match index_kind_of(text) {
        Some(kind) => kind,
        None => return Err(LineFault::Broken(SchemaRule::BadKind, place)),
    };
    if !suits(kind, name) {
        return Err(LineFault::Broken(SchemaRule::BadName, place));
    }
    Ok(kind)
}

fn index_kind_of(text: &[u8]) -> Option<IndexKind>
    ensures { result ≡ index_kind_of text.now }
{
    if text == b"primary".as_slice() {
        Some(IndexKind::Primary)
    } else if text == b"unique".as_slice() {
        Some(IndexKind::Unique)
    } else if text == b"index".as_slice() {
        Some(IndexKind::Plain)
    } else {
        None
    }
}

/// The primary index is named PRIMARY, and no other.
fn suits(kind: IndexKind, name: &[u8]) -> bool
    ensures { result ≡ suits kind name.now }
{
    let is_named = name == b"PRIMARY".as_slice();
    if is_primary(kind) {
        is_named
    } else {
        !is_named
    }
}
