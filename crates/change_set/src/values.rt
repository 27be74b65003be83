//! Values as bytes.
ghost use Rattle.std.specs.Prelude.{◌≡◌, ℕ, ◌<◌, ◌++◌, length, All, OnOk};
ghost use Rattle.std.specs.Int.{w16, w32, w64};
ghost use Rattle.std.specs.List.{flat_map, AllByRecursion};
ghost use Rattle.row_types.specs.Valid.{IsHeld};
ghost use Rattle.change_set.specs.Fitting.{columns_at};
ghost use Rattle.change_set.specs.Payload.{value_bytes, IsShort};
ghost use Rattle.change_set.specs.Reading.{Gives, number_at, text_at, value_at, cell_at, cells_at};

use crate::fault::Fault;
use row_types::{ByteText, Column, Fit, List, Row, RowKey, Value, fits};
use std::alloc::{AllocError, Global};

/// Appends a value.
pub(crate) fn push_value(value: &Value, out: &mut Vec<u8>) -> Result<(), AllocError>
    requires { IsShort value.now }
    ensures bytes { OnOk result (out.new.items ≡ out.old.items ++ value_bytes value.now) }
    ensures held { OnOk result (IsHeld value.now) }
{
    match value {
        Value::Null => out.push(0)?,
        Value::Int(number) => {
            out.push(1)?;
            out.extend_from_slice(&number.to_be_bytes())?;
        }
        Value::Text(text) => {
            let text = text.as_slice();
            out.push(2)?;
            out.extend_from_slice(&(text.len() as u32).to_be_bytes())?;
            out.extend_from_slice(text)?;
        }
    }
    Ok(())
}

/// Appends values one after another.
pub(crate) fn push_values(values: &[Value], out: &mut Vec<u8>) -> Result<(), AllocError>
    requires { AllByRecursion IsShort values.now }
    ensures bytes { OnOk result
        (out.new.items ≡ out.old.items ++ flat_map value_bytes values.now) }
    ensures held { OnOk result (AllByRecursion IsHeld values.now) }
{
    for value in values {
        push_value(value, out)?;
    }
    Ok(())
}

/// Reads a number of two bytes, and hands out what follows it.
pub(crate) fn u16_at(bytes: &[u8]) -> Result<(u16, &[u8]), Fault>
    ensures { Gives (λ x. (x.0, x.1.now)) result (number_at w16 bytes.now) }
{
    if bytes.len() < 2 {
        return Err(Fault::Unreadable);
    }
    let (front, rest) = bytes.split_at(2);
    Ok((u16::from_be_bytes([front[0], front[1]]), rest))
}

/// Reads a number of four bytes.
pub(crate) fn u32_at(bytes: &[u8]) -> Result<(u32, &[u8]), Fault>
    ensures { Gives (λ x. (x.0, x.1.now)) result (number_at w32 bytes.now) }
{
    if bytes.len() < 4 {
        return Err(Fault::Unreadable);
    }
    let (front, rest) = bytes.split_at(4);
    let number = u32::from_be_bytes([front[0], front[1], front[2], front[3]]);
    Ok((number, rest))
}

/// Reads a number of eight bytes.
pub(crate) fn u64_at(bytes: &[u8]) -> Result<(u64, &[u8]), Fault>
    ensures { Gives (λ x. (x.0, x.1.now)) result (number_at w64 bytes.now) }
{
    if bytes.len() < 8 {
        return Err(Fault::Unreadable);
    }
    let (front, rest) = bytes.split_at(8);
    let number = u64::from_be_bytes([
        front[0], front[1], front[2], front[3], front[4], front[5], front[6], front[7],
    ]);
    Ok((number, rest))
}

#[tactic(auto, unfolding(crate::specs::Reading::text_at))]
fn text_of(alloc: Global, bytes: &[u8]) -> Result<(ByteText, &[u8]), Fault>
    ensures { Gives (λ x. (x.0, x.1.now)) result (text_at bytes.now) }
{
    let (len, rest) = u32_at(bytes)?;
    let len = len as usize;
    if rest.len() < len {
        return Err(Fault::Unreadable);
    }
    let (text, rest) = rest.split_at(len);
    Ok((ByteText::of(alloc, text)?, rest))
}

#[tactic(auto, unfolding(crate::specs::Reading::value_at))]
fn value_of(alloc: Global, bytes: &[u8]) -> Result<(Value, &[u8]), Fault>
    ensures { Gives (λ x. (x.0, x.1.now)) result (value_at bytes.now) }
{
    match bytes {
        [0, rest @ ..] => Ok((Value::Null, rest)),
        [1, rest @ ..] => {
            let (number, rest) = u64_at(rest)?;
            Ok((Value::Int(number.cast_signed()), rest))
        }
        [2, rest @ ..] => {
            let (text, rest) = text_of(alloc, rest)?;
            Ok((Value::Text(text), rest))
        }
        _ => Err(Fault::Unreadable),
    }
}

// A value that its column holds.
#[tactic(auto, unfolding(crate::specs::Reading::cell_at))]
fn cell_of<'a>(alloc: Global, column: &Column, bytes: &'a [u8]) -> Result<(Value, &'a [u8]), Fault>
    ensures { Gives (λ x. (x.0, x.1.now)) result (cell_at column.now bytes.now) }
{
    let (value, rest) = value_of(alloc, bytes)?;
    match fits(column, &value) {
        Fit::Fine => Ok((value, rest)),
        _ => Err(Fault::Unreadable),
    }
}

/// Reads a value for each of these columns.
pub(crate) fn row_of<'a>(
    alloc: Global,
    columns: &[Column],
    bytes: &'a [u8],
) -> Result<(Row, &'a [u8]), Fault>
    ensures { Gives (λ x. (x.0, x.1.now)) result (cells_at columns.now bytes.now) }
{
    let mut cells = Vec::with_capacity(alloc, columns.len())?;
    let mut rest = bytes;
    for column in columns {
        let (cell, after) = cell_of(alloc, column, rest)?;
        cells.push(cell)?;
        rest = after;
    }
    Ok((List::of_vec(cells), rest))
}

/// Reads a value for each of the columns at these places.
pub(crate) fn key_of<'a>(
    alloc: Global,
    columns: &[Column],
    places: &[u32],
    bytes: &'a [u8],
) -> Result<(RowKey, &'a [u8]), Fault>
    requires { All (λ (place : ℕ). place < length columns.now) places.now }
    ensures { Gives (λ x. (x.0, x.1.now)) result
        (cells_at (columns_at columns.now places.now) bytes.now) }
{
    let mut cells = Vec::with_capacity(alloc, places.len())?;
    let mut rest = bytes;
    for place in places {
        let (cell, after) = cell_of(alloc, &columns[*place as usize], rest)?;
        cells.push(cell)?;
        rest = after;
    }
    Ok((List::of_vec(cells), rest))
}
