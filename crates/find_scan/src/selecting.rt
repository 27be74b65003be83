//! Which rows a find selects.
ghost use Rattle.std.specs.Prelude.{◌≡◌, [], true, OnOk, IfOk};
ghost use Rattle.std.specs.List.{All};
ghost use Rattle.table_rows.specs.declared.slot_ref.SlotRef.{SlotRef};
ghost use Rattle.table_rows.specs.Slots.{is_live_in};
ghost use Rattle.request_types.specs.Fits.{FindFits};
ghost use Rattle.find_scan.specs.Select.{found, keys_of, selected, slots_of};
ghost use Rattle.table_rows.specs.Named.{AreDistinct};
ghost use Rattle.find_scan.specs.Gathering.{gives};

use crate::listed::scan_each;
use crate::selection::Selection;
use crate::walking::scan;
use request_types::FindSpec;
use std::alloc::{AllocError, Global};
use table_rows::{SlotRef, Tables};

/// The selected rows, in the order in which a find gives them. One walk a key, which ends as soon
/// as no more is selected.
pub fn select(alloc: Global, tables: &Tables, spec: &FindSpec) -> Result<Vec<SlotRef>, AllocError>
    requires { FindFits tables.now.schema spec.now }
    ensures selected { IfOk result
        (λ slots. slots.items ≡ slots_of (selected tables.now spec.now)) }
    ensures live { IfOk result (λ slots.
        All (λ (slot : SlotRef). is_live_in tables.now spec.now.table slot.0 ≡ true) slots.items) }
    ensures distinct { IfOk result (λ slots. AreDistinct slots.items) }
{
    // A proof knows that the rows are valid where it has seen the schema.
    let _ = tables.schema();
    let mut selection = Selection::new(alloc, spec.offset, spec.limit);
    scan_all(alloc, tables, spec, &mut selection)?;
    Ok(selection.into_slots())
}

/// Offers the rows of each key that is looked for, until nothing more is selected.
fn scan_all(
    alloc: Global,
    tables: &Tables,
    spec: &FindSpec,
    selection: &mut Selection,
) -> Result<(), AllocError>
    requires { FindFits tables.now.schema spec.now }
    ensures { OnOk result (gives spec.now.filters selection.new []
        ≡ gives spec.now.filters selection.old
        (found tables.now spec.now (keys_of spec.now.key spec.now.within))) }
{
    match &spec.within {
        None => scan(tables, spec, spec.key.as_slice(), selection),
        Some(list) => scan_each(alloc, tables, spec, list, selection),
    }
}
