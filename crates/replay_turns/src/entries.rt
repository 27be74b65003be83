//! A connection's number and its id.
ghost use Rattle.std.specs.Prelude.{◌≡◌, ◌++◌, option_to_list, OnOk, IfOk};
ghost use Rattle.replay_turns.specs.Entries.{place_from, id_at, ids_at};

use request_types::{ConnId, Port};
use std::alloc::{AllocError, Global};

/// What is kept of a connection beside it and its link.
#[derive(Drop)]
pub struct Entry {
    pub number: u32,
    pub port: Port,
    pub id: ConnId,
}

/// The place of the entry with this number.
pub fn place_of(entries: &[Entry], number: u32) -> Option<usize>
    ensures { result ≡ place_from 0 number entries.now }
{
    for (at, entry) in entries.iter().enumerate() {
        if entry.number == number {
            return Some(at);
        }
    }
    None
}

/// The ids of the entries with these numbers. A number that none has is passed over.
pub fn ids_at(alloc: Global, entries: &[Entry], numbers: &[u32]) -> Result<Vec<ConnId>, AllocError>
    ensures { IfOk result (λ ids. ids.items ≡ ids_at entries.now numbers.now) }
{
    let mut ids = Vec::with_capacity(alloc, numbers.len())?;
    for number in numbers {
        push_id(&mut ids, entries, *number)?;
    }
    Ok(ids)
}

fn push_id(ids: &mut Vec<ConnId>, entries: &[Entry], number: u32) -> Result<(), AllocError>
    ensures { OnOk result (ids.new.items
        ≡ ids.old.items ++ option_to_list (id_at number entries.now)) }
{
    match id_at(entries, number) {
        Some(id) => Ok(ids.push(id)?),
        None => Ok(()),
    }
}

/// The id of the entry with this number.
fn id_at(entries: &[Entry], number: u32) -> Option<ConnId>
    ensures { result ≡ id_at number entries.now }
{
    for entry in entries {
        if entry.number == number {
            return Some(entry.id);
        }
    }
    None
}
