//! The steps that replay the changing calls of a disk in memory on bytes.
ghost use Rattle.std.specs.Prelude.{◌≡◌, OnOk, OnErr};
ghost use Rattle.hs_disk.specs.Disk.{written};
ghost use Rattle.hs_disk.specs.Images.{read_after};
ghost use Rattle.hs_disk.specs.Picks.{left_after};

use crate::change::Change;
use crate::pick::Pick;
use std::alloc::{AllocError, Global};

// What a read gives after a call.
pub(crate) fn read_on(change: &Change, seen: &mut Vec<u8>) -> Result<(), AllocError>
    ensures { OnOk result (seen.new.items ≡ read_after change.now seen.old.items) }
{
    match change {
        Change::Wrote(at, saved) => overwrite(seen, *at as usize, saved.as_slice()),
        Change::CutTo(len) => {
            seen.truncate(*len as usize);
            Ok(())
        }
        _ => Ok(()),
    }
}

// What is left after a call, where a read gave these bytes before it.
pub(crate) fn pick_on(
    alloc: Global,
    pick: Pick,
    change: &Change,
    seen: &[u8],
    left: &mut Vec<u8>,
) -> Result<(), AllocError>
    ensures { OnOk result (left.new.items ≡ left_after pick change.now seen.now left.old.items) }
{
    match (pick, change) {
        (_, Change::Synced) => *left = seen.to_vec(alloc)?,
        (Pick::Kept, _) => {}
        (Pick::Written, _) => read_on(change, left)?,
        (Pick::Ones, Change::Wrote(at, saved)) => {
            let ones = vec![in alloc; 1; saved.as_slice().len()]?;
            overwrite(left, *at as usize, &ones)?;
        }
        (Pick::Ones, Change::LostWrite(at, len)) => {
            let count = (*len as usize).min(left.len().saturating_sub(*at as usize));
            let ones = vec![in alloc; 1; count]?;
            overwrite(left, *at as usize, &ones)?;
        }
        (Pick::Ones, Change::CutTo(len)) => left.truncate(*len as usize),
        (Pick::Ones, _) => {}
    }
    Ok(())
}

// Writes over what is there, and past the end.
pub(crate) fn overwrite(bytes: &mut Vec<u8>, at: usize, new: &[u8]) -> Result<(), AllocError>
    ensures ok { OnOk result (bytes.new.items ≡ written at new.now bytes.old.items) }
    ensures err { OnErr result (bytes.new.items ≡ bytes.old.items) }
{
    let at = at.min(bytes.len());
    let inside = new.len().min(bytes.len() - at);
    bytes.extend_from_slice(&new[inside..])?;
    bytes[at..at + inside].copy_from_slice(&new[..inside]);
    Ok(())
}
