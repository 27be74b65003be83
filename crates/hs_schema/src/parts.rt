//! The parts of an index: the columns that a token lists.
ghost use Rattle.std.specs.Prelude.{◌≡◌, ◌≤◌, length, nat_eq, nat_lt, IfOk};
ghost use Rattle.std.specs.List.{list_all, list_any};
ghost use Rattle.row_types.specs.Valid.{are_distinct, may_be_null, is_primary};
ghost use Rattle.hs_schema.specs.Reading.{Gives, place_of, parts_of, fine_parts};

use crate::faults::{LineFault, SchemaRule};
use row_types::{Column, IndexKind};
use std::alloc::{AllocError, Global};

/// The most parts of an index.
const MAX_PARTS: usize = 8;

/// The places of the columns that a text lists, past the last where there is none of a name.
pub(crate) fn parts_of(
    alloc: Global,
    columns: &[Column],
    text: &[u8],
) -> Result<Vec<u32>, AllocError>
    requires { length columns.now ≤ 64 }
    ensures { IfOk result (λ parts. parts.items ≡ parts_of columns.now text.now) }
{
    let mut parts = Vec::new(alloc);
    let mut start = 0;
    for (end, byte) in text.iter().enumerate() {
        if *byte == b',' {
            parts.push(place_of(columns, &text[start..end]))?;
            start = end + 1;
        }
    }
    parts.push(place_of(columns, &text[start..]))?;
    Ok(parts)
}

/// The place of the column of exactly this name, past the last one where there is none.
fn place_of(columns: &[Column], name: &[u8]) -> u32
    requires { length columns.now ≤ 64 }
    ensures { result ≡ place_of columns.now name.now }
{
    for (place, column) in columns.iter().enumerate() {
        if column.name.as_slice() == name {
            return place as u32;
        }
    }
    columns.len() as u32
}

/// The parts of an index, in the order of the rules at one token.
#[tactic(auto, unfolding(crate::specs::Reading::fine_parts))]
pub(crate) fn fine_parts(
    columns: &[Column],
    kind: IndexKind,
    place: u32,
    parts: Vec<u32>,
) -> Result<Vec<u32>, LineFault>
    ensures { Gives (λ fine. fine.items) result (fine_parts columns.now kind place parts.items) }
{
    if is_primary(kind) && has_null(columns, &parts) {
        return Err(LineFault::Broken(SchemaRule::BadKind, place));
    }
    if !are_within(columns, &parts) {
        return Err(LineFault::Broken(SchemaRule::BadName, place));
    }
    if !are_distinct(&parts) {
        return Err(LineFault::Broken(SchemaRule::DuplicateName, place));
    }
    if parts.len() > MAX_PARTS {
        return Err(LineFault::Broken(SchemaRule::TooMany, place));
    }
    Ok(parts)
}

pub(crate) fn is_primary(kind: IndexKind) -> bool
    ensures { result ≡ is_primary kind }
{
    match kind {
        IndexKind::Primary => true,
        IndexKind::Unique | IndexKind::Plain => false,
    }
}

/// Whether one of these columns may hold NULL.
fn has_null(columns: &[Column], parts: &[u32]) -> bool
    ensures { result ≡ list_any (may_be_null columns.now) parts.now }
{
    parts.iter().any(|part| may_be_null(columns, *part))
}

fn may_be_null(columns: &[Column], part: u32) -> bool
    ensures { result ≡ may_be_null columns.now part }
{
    match columns.get(part as usize) {
        Some(column) => column.null,
        None => false,
    }
}

fn are_within(columns: &[Column], parts: &[u32]) -> bool
    ensures { result ≡ list_all (λ part. nat_lt part (length columns.now)) parts.now }
{
    parts.iter().all(|part| (*part as usize) < columns.len())
}

/// Whether no column is listed twice. It stops at the first that is, and is called once each part
/// is a column, so that it goes no deeper than there are columns, and one.
fn are_distinct(parts: &[u32]) -> bool
    ensures { result ≡ are_distinct nat_eq parts.now }
{
    match parts {
        [] => true,
        [first, rest @ ..] => !rest.contains(first) && are_distinct(rest),
    }
}
