//! The reading of a payload.
ghost use Rattle.std.specs.Prelude.{◌≡◌, ◌≢◌, None, IfOk, Ok, option_copied, List, []};
ghost use Rattle.row_types.specs.Valid.{IsValid};
ghost use Rattle.change_set.specs.declared.change.Change.{Change};
ghost use Rattle.change_set.specs.Sets.{def_in};
ghost use Rattle.change_set.specs.Fitting.{AreChanges};
ghost use Rattle.change_set.specs.Forms.{DeletesNone};
ghost use Rattle.change_set.specs.Payload.{payload};
ghost use Rattle.change_set.specs.Reading.{Gives, Answers, table_at, put_at, delete_at, count_at, change_at, is_behind, next_at, changes_at, set_in, set_of, area_set};

use crate::change::{Change, ChangeSet};
use crate::damage::Damage;
use crate::fault::Fault;
use crate::form::Form;
use crate::order::{cmp_changes, key_columns};
use crate::values::{key_of, row_of, u16_at, u32_at, u64_at};
use row_types::{List, Schema, TableDef};
use std::alloc::Global;

// The number of a table, and its shape.
#[tactic(auto, unfolding(crate::specs::Reading::table_at))]
fn table_of<'a, 'b>(
    schema: &'a Schema,
    bytes: &'b [u8],
) -> Result<(u32, &'a TableDef, &'b [u8]), Fault>
    ensures table { Gives (λ x. (x.0, x.2.now)) result (table_at schema.now bytes.now) }
    ensures def { IfOk result (λ x. x.1.now ≡ def_in schema.now x.0) }
{
    let (table, rest) = u16_at(bytes)?;
    let table = table as u32;
    match schema.tables.as_slice().get(table as usize) {
        None => Err(Fault::Unreadable),
        Some(def) => Ok((table, def, rest)),
    }
}

#[tactic(auto, unfolding(crate::specs::Reading::put_at))]
fn put_of<'a>(alloc: Global, schema: &Schema, bytes: &'a [u8]) -> Result<(Change, &'a [u8]), Fault>
    ensures { Gives (λ x. (x.0, x.1.now)) result (put_at schema.now bytes.now) }
{
    let (table, def, rest) = table_of(schema, bytes)?;
    let (row, rest) = row_of(alloc, def.columns.as_slice(), rest)?;
    Ok((Change::Put(table, row), rest))
}

#[tactic(auto, unfolding(crate::specs::Reading::delete_at))]
fn delete_of<'a>(
    alloc: Global,
    schema: &Schema,
    bytes: &'a [u8],
) -> Result<(Change, &'a [u8]), Fault>
    requires { IsValid schema.now }
    ensures { Gives (λ x. (x.0, x.1.now)) result (delete_at schema.now bytes.now) }
{
    let (table, def, rest) = table_of(schema, bytes)?;
    let parts = key_columns(schema, table);
    let (key, rest) = key_of(alloc, def.columns.as_slice(), parts, rest)?;
    Ok((Change::Delete(table, key), rest))
}

#[tactic(auto, unfolding(crate::specs::Reading::count_at))]
fn count_of<'a>(schema: &Schema, bytes: &'a [u8]) -> Result<(Change, &'a [u8]), Fault>
    ensures { Gives (λ x. (x.0, x.1.now)) result (count_at schema.now bytes.now) }
{
    let (table, _, rest) = table_of(schema, bytes)?;
    let (counter, rest) = u64_at(rest)?;
    Ok((Change::Count(table, counter), rest))
}

#[tactic(auto, unfolding(crate::specs::Reading::change_at))]
fn change_of<'a>(
    alloc: Global,
    schema: &Schema,
    bytes: &'a [u8],
) -> Result<(Change, &'a [u8]), Fault>
    requires { IsValid schema.now }
    ensures { Gives (λ x. (x.0, x.1.now)) result (change_at schema.now bytes.now) }
{
    match bytes {
        [1, rest @ ..] => put_of(alloc, schema, rest),
        [2, rest @ ..] => delete_of(alloc, schema, rest),
        [3, rest @ ..] => count_of(schema, rest),
        _ => Err(Fault::Unreadable),
    }
}

fn is_behind(schema: &Schema, last: Option<&Change>, change: &Change) -> bool
    ensures { result ≡ is_behind schema.now (option_copied last.entry) change.now }
{
    match last {
        None => true,
        Some(last) => cmp_changes(schema, last, change).is_lt(),
    }
}

// A change that may stand there, behind the one before it.
#[tactic(auto, unfolding(crate::specs::Reading::next_at))]
fn next_of<'a>(
    alloc: Global,
    form: Form,
    schema: &Schema,
    last: Option<&Change>,
    bytes: &'a [u8],
) -> Result<(Change, &'a [u8]), Fault>
    requires { IsValid schema.now }
    ensures { Gives (λ x. (x.0, x.1.now)) result
        (next_at form schema.now (option_copied last.entry) bytes.now) }
{
    let (change, rest) = change_of(alloc, schema, bytes)?;
    if is_behind(schema, last, &change) && form.may_have(&change) {
        Ok((change, rest))
    } else {
        Err(Fault::Unreadable)
    }
}

// So many changes, where the bytes end at this place.
fn changes_of<'a>(
    alloc: Global,
    form: Form,
    schema: &Schema,
    end: usize,
    count: u32,
    bytes: &'a [u8],
) -> Result<(Vec<Change>, &'a [u8]), Damage>
    requires { IsValid schema.now }
    ensures { Answers (λ x. (x.0.items, x.1.now)) result
        (changes_at form schema.now end count None bytes.now) }
{
    let mut changes: Vec<Change> = Vec::new(alloc);
    let mut rest = bytes;
    for _ in 0..count {
        match next_of(alloc, form, schema, changes.last(), rest) {
            Ok((change, after)) => {
                changes.push(change)?;
                rest = after;
            }
            Err(fault) => return Err(fault.at(end.saturating_sub(rest.len()))),
        }
    }
    Ok((changes, rest))
}

// The set of this form behind the number of its changes.
fn set_in(alloc: Global, form: Form, schema: &Schema, bytes: &[u8]) -> Result<ChangeSet, Damage>
    requires { IsValid schema.now }
    ensures { Answers (λ set. set.changes) result (set_in form schema.now bytes.now) }
{
    let (count, rest) = match u32_at(bytes) {
        Ok(read) => read,
        Err(fault) => return Err(fault.at(0)),
    };
    if !form.may_count(count) {
        return Err(Damage::Bad(0));
    }
    let (changes, rest) = changes_of(alloc, form, schema, bytes.len(), count, rest)?;
    if !rest.is_empty() {
        return Err(Damage::Bad(bytes.len().saturating_sub(rest.len()) as u64));
    }
    Ok(ChangeSet {
        changes: List::of_vec(changes),
    })
}

/// The set that the bytes are the payload of.
pub fn read_changes(alloc: Global, schema: &Schema, bytes: &[u8]) -> Result<ChangeSet, Damage>
    requires { IsValid schema.now }
    // What is read is spelled so, and fits the schema.
    ensures found { IfOk result (λ set.
        AreChanges schema.now set.changes × (bytes.now ≡ payload set.changes)) }
    // What is spelled so is read, unless memory runs out.
    ensures only { (changes : List Change) → AreChanges schema.now changes
        → bytes.now ≡ payload changes → changes ≢ []
        → Answers (λ set. set.changes) result (Ok changes) }
    // Which fault it is.
    ensures exact { Answers (λ set. set.changes) result (set_of schema.now bytes.now) }
{
    set_in(alloc, Form::Payload, schema, bytes)
}

/// The set that the bytes are the area of.
pub fn read_area_changes(alloc: Global, schema: &Schema, bytes: &[u8]) -> Result<ChangeSet, Damage>
    requires { IsValid schema.now }
    // What is read is spelled so, fits the schema and deletes nothing.
    ensures found { IfOk result (λ set. AreChanges schema.now set.changes
        × DeletesNone set.changes × (bytes.now ≡ payload set.changes)) }
    // What is spelled so is read, unless memory runs out.
    ensures only { (changes : List Change) → AreChanges schema.now changes → DeletesNone changes
        → bytes.now ≡ payload changes
        → Answers (λ set. set.changes) result (Ok changes) }
    // Which fault it is.
    ensures exact { Answers (λ set. set.changes) result (area_set schema.now bytes.now) }
{
    set_in(alloc, Form::Area, schema, bytes)
}
