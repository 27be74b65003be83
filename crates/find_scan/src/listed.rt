//! A find with a list: one walk for each of its values, in their order.
ghost use Rattle.std.specs.Prelude.{◌≡◌, ◌<◌, List, [], ◌∷◌, length, set, Some, OnOk, IfOk, if◌then◌else◌};
ghost use Rattle.row_types.specs.declared.values.Value.{Value};
ghost use Rattle.request_types.specs.Fits.{FindFits};
ghost use Rattle.find_scan.specs.Select.{found, keys_of};
ghost use Rattle.find_scan.specs.Gathering.{gives, fresh};

use crate::selection::Selection;
use crate::walking::scan;
use request_types::{FindSpec, InSpec};
use row_types::{Value, copy_row, copy_value};
use std::alloc::{AllocError, Global};
use std::collections::BTreeSet;
use table_rows::Tables;

/// Puts each value of the list into the key in turn, but for repeats, and offers the rows of that
/// key.
pub(crate) fn scan_each(
    alloc: Global,
    tables: &Tables,
    spec: &FindSpec,
    list: &InSpec,
    selection: &mut Selection,
) -> Result<(), AllocError>
    requires fits { FindFits tables.now.schema spec.now }
    requires list { spec.now.within ≡ Some list.now }
    ensures { OnOk result (gives spec.now.filters selection.new []
        ≡ gives spec.now.filters selection.old
        (found tables.now spec.now (keys_of spec.now.key (Some list.now)))) }
{
    let mut key = copy_row(alloc, &spec.key)?.into_vec();
    let mut seen = BTreeSet::new(alloc);
    for value in list.values.as_slice() {
        if selection.is_full() {
            break;
        }
        if take(alloc, &mut seen, &mut key, list.part, value)? {
            scan(tables, spec, key.as_slice(), selection)?;
        }
    }
    Ok(())
}

/// Notes a value and, where it is a new one, puts it into the key. Answers whether it is.
fn take(
    alloc: Global,
    seen: &mut BTreeSet<Value>,
    key: &mut Vec<Value>,
    part: u32,
    value: &Value,
) -> Result<bool, AllocError>
    requires { part < length key.old.items }
    ensures fresh { IfOk result (λ is_new. (later : List Value)
        → fresh seen.old.keys (value.now ∷ later)
        ≡ (if is_new then value.now ∷ fresh seen.new.keys later else fresh seen.new.keys later)) }
    ensures key { IfOk result (λ is_new. key.new.items
        ≡ (if is_new then set key.old.items part value.now else key.old.items)) }
{
    let is_new = seen.insert(copy_value(alloc, value)?)?;
    if is_new {
        key[part as usize] = copy_value(alloc, value)?;
    }
    Ok(is_new)
}
