//! The order of changes.
ghost use Rattle.std.specs.Prelude.{◌≡◌, [], ◌∷◌, MatchOption, option_copied};
ghost use Rattle.row_types.specs.Order.{value_cmp, key_cmp};
ghost use Rattle.table_rows.specs.Indexes.{primary_of};
ghost use Rattle.change_set.specs.Sets.{table_of, rank, key_of, key_columns, change_cmp};
ghost use Rattle.change_set.specs.Keys.{value_or_null, key_seen};

use crate::change::Change;
use row_types::{IndexDef, IndexKind, Schema, Value, cmp_values};
use std::cmp::Ordering;

/// A primary key, in its row or by itself.
#[derive(Clone, Copy)]
pub(crate) enum Key<'a> {
    Within(&'a [Value], &'a [u32]),
    Alone(&'a [Value]),
}

impl<'a> Key<'a> {
    // The first value and those behind it. What a row is too short for is NULL.
    fn split(self) -> Option<(Option<&'a Value>, Key<'a>)>
        ensures { MatchOption result (key_seen self.entry ≡ [])
            (λ parts. key_seen self.entry ≡ value_or_null (option_copied parts.0) ∷ key_seen parts.1) }
    {
        match self {
            Key::Within(_, []) | Key::Alone([]) => None,
            Key::Within(row, [column, columns @ ..]) => {
                Some((row.get(*column as usize), Key::Within(row, columns)))
            }
            Key::Alone([value, values @ ..]) => Some((Some(value), Key::Alone(values))),
        }
    }
}

fn cmp_cells(a: Option<&Value>, b: Option<&Value>) -> Ordering
    ensures { result ≡ value_cmp (value_or_null (option_copied a.entry)) (value_or_null (option_copied b.entry)) }
{
    match (a, b) {
        (None, None) => Ordering::Equal,
        (None, Some(b)) => cmp_values(&Value::Null, b),
        (Some(a), None) => cmp_values(a, &Value::Null),
        (Some(a), Some(b)) => cmp_values(a, b),
    }
}

/// The first values that differ decide, and a key stands after each proper front of it.
pub(crate) fn cmp_keys(a: Key<'_>, b: Key<'_>) -> Ordering
    ensures { result ≡ key_cmp (key_seen a.entry) (key_seen b.entry) }
{
    match (a.split(), b.split()) {
        (None, None) => Ordering::Equal,
        (None, Some(_)) => Ordering::Less,
        (Some(_), None) => Ordering::Greater,
        (Some((first, a)), Some((other, b))) => match cmp_cells(first, other) {
            Ordering::Equal => cmp_keys(a, b),
            order => order,
        },
    }
}

/// The parts of the primary index.
pub(crate) fn primary_of<'a>(indexes: &'a [IndexDef]) -> &'a [u32]
    ensures { result.now ≡ primary_of indexes.now }
{
    for index in indexes {
        if index.kind == IndexKind::Primary {
            return index.parts.as_slice();
        }
    }
    &[]
}

/// The columns of a table's primary key.
pub(crate) fn key_columns<'a>(schema: &'a Schema, table: u32) -> &'a [u32]
    ensures { result.now ≡ key_columns schema.now table }
{
    match schema.tables.as_slice().get(table as usize) {
        None => &[],
        Some(def) => primary_of(def.indexes.as_slice()),
    }
}

/// The table that a change is of.
pub(crate) fn table_of(change: &Change) -> u32
    ensures { result ≡ table_of change.now }
{
    match change {
        Change::Put(table, _) | Change::Delete(table, _) | Change::Count(table, _) => *table,
    }
}

// Rows come before the counter.
fn rank(change: &Change) -> u8
    ensures { result ≡ rank change.now }
{
    match change {
        Change::Put(..) | Change::Delete(..) => 0,
        Change::Count(..) => 1,
    }
}

// The primary key of a change's row.
fn key_of<'a>(schema: &'a Schema, change: &'a Change) -> Key<'a>
    ensures { key_seen result ≡ key_of schema.now change.now }
{
    match change {
        Change::Put(table, row) => Key::Within(row.as_slice(), key_columns(schema, *table)),
        Change::Delete(_, key) => Key::Alone(key.as_slice()),
        Change::Count(..) => Key::Alone(&[]),
    }
}

/// By table, in a table rows by primary key, and then the counter.
pub(crate) fn cmp_changes(schema: &Schema, a: &Change, b: &Change) -> Ordering
    ensures { result ≡ change_cmp schema.now a.now b.now }
{
    table_of(a)
        .cmp(&table_of(b))
        .then(rank(a).cmp(&rank(b)))
        .then(cmp_keys(key_of(schema, a), key_of(schema, b)))
}
