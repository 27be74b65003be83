//! The reading of an image's header and records.
ghost use Rattle.std.specs.Prelude.{◌≡◌, ◌≢◌, ◌⊎◌, ◌+◌, ◌^◌, ◌<◌, ◌≤◌, length, drop, slice_index, MatchOption, IfOk, IfErr};
ghost use Rattle.std.specs.Bool.{OnTrue, OnFalse};
ghost use Rattle.redo_journal.specs.Bytes.{length_of, IsCutShort};
ghost use Rattle.redo_journal.specs.Image.{IsFresh};
ghost use Rattle.redo_journal.specs.Reading.{StandFrom, SkipsTo, SkipsRecord, EndsAt, ReadsHeader, ReadsRecord, RefusesHeader, RefusesRecord, RefusesRecords, RefusesSkip};

use crate::live::is_root;
use crate::record::Record;
use crate::refusal::Refusal;
use hs_disk::MARK;
use row_types::ByteText;
use std::alloc::Global;

// The place behind a text whose length stands at this one, or None where it, or the gate behind it,
// lies past the end.
pub(crate) fn end_of(image: &[u8], at: usize) -> Option<usize>
    requires { at ≤ length image.now }
    ensures { MatchOption result (IsCutShort (drop at image.now))
        (λ end. (end ≡ at + 4 + length_of (drop at image.now)) × (end < length image.now)
        × (length_of (drop at image.now) < 2 ^ 32)) }
{
    let rest = &image[at..];
    let [a, b, c, d, ..] = rest else {
        return None;
    };
    let len = u32::from_be_bytes([*a, *b, *c, *d]) as usize;
    if rest.len() - 4 <= len {
        None
    } else {
        Some(at + 4 + len)
    }
}

// Whether nothing was written yet.
pub(crate) fn is_fresh(image: &[u8]) -> bool
    ensures fresh { OnTrue result (IsFresh image.now) }
    ensures begun { OnFalse result ((slice_index image.now 0 ≡ 1) × (2 ≤ length image.now)) }
{
    match image {
        [gate, _, ..] => *gate != 1,
        _ => true,
    }
}

// The place of the first record's gate, behind a header with this schema text.
pub(crate) fn read_header(image: &[u8], text: &[u8]) -> Result<usize, Refusal>
    requires begun { (slice_index image.now 0 ≡ 1) × (2 ≤ length image.now) }
    ensures ok { IfOk result (λ first. ReadsHeader text.now image.now first) }
    ensures err { IfErr result (RefusesHeader text.now image.now) }
{
    if image.len() < 9 || &image[1..9] != MARK.as_slice() {
        return Err(Refusal::Damaged(0));
    }
    let Some(end) = end_of(image, 9) else {
        return Err(Refusal::Damaged(0));
    };
    if &image[13..end] != text {
        return Err(Refusal::OtherSchema);
    }
    Ok(end)
}

// The payload of the record whose open gate stands at this place, and the place of the next gate.
fn read_record(image: &[u8], gate: usize) -> Result<(&[u8], usize), Refusal>
    requires within { gate < length image.now }
    requires open_gate { slice_index image.now gate ≡ 1 }
    ensures ok { IfOk result (λ read. ReadsRecord image.now gate read.0.now read.1) }
    ensures err { IfErr result (RefusesRecord image.now gate) }
{
    let Some(next) = end_of(image, gate + 1) else {
        return Err(Refusal::Damaged(gate as u64));
    };
    Ok((&image[gate + 5..next], next))
}

// The place of the gate behind the record at this one, unless this gate is closed or that of a root.
fn skip_record(image: &[u8], gate: usize) -> Result<Option<usize>, Refusal>
    requires { gate < length image.now }
    ensures ok { IfOk result (λ next. MatchOption next (EndsAt gate image.now)
        (SkipsRecord image.now gate)) }
    ensures err { IfErr result (RefusesRecord image.now gate) }
{
    if image[gate] != 1 {
        return Ok(None);
    }
    if is_root(image, gate) {
        return Ok(None);
    }
    let (_payload, next) = read_record(image, gate)?;
    Ok(Some(next))
}

// The place of the gate behind whole records from this place on: a closed one, or that of a root.
pub(crate) fn skip_records(image: &[u8], first: usize) -> Result<usize, Refusal>
    requires { first < length image.now }
    ensures ok { IfOk result (λ gate. SkipsTo image.now first gate) }
    ensures last { IfOk result (λ gate. EndsAt gate image.now) }
    ensures err { IfErr result (RefusesSkip image.now first) }
{
    let mut gate = first;
    while let Some(next) = skip_record(image, gate)? {
        gate = next;
    }
    Ok(gate)
}

// The whole records from this place on, and the place of the closed gate behind them.
pub(crate) fn read_records(
    alloc: Global,
    image: &[u8],
    first: usize,
) -> Result<(Vec<Record>, usize), Refusal>
    requires { first < length image.now }
    ensures ok { IfOk result (λ read. StandFrom image.now first read.0.items read.1) }
    ensures shut { IfOk result (λ read. slice_index image.now read.1 ≢ 1) }
    ensures err { IfErr result (RefusesRecords image.now first) }
{
    let mut records = Vec::new(alloc);
    let mut gate = first;
    while image[gate] == 1 {
        let (payload, next) = read_record(image, gate)?;
        let payload = ByteText::of(alloc, payload)?;
        records.push(Record {
            place: gate as u64,
            payload,
        })?;
        gate = next;
    }
    Ok((records, gate))
}
