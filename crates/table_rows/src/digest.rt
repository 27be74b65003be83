//! Numbers for values, by which most values that differ are told apart without a look at a row.
ghost use Rattle.std.specs.Prelude.{◌≡◌, ◌≤◌, get_or, false};
ghost use Rattle.table_rows.specs.Digests.{number_digest, front, digest_of, key_digest};
ghost use Rattle.table_rows.specs.Entries.{cells};

use row_types::{Row, Value};

// The number of the integer 0.
const ZERO: u64 = 1 << 61;

// Where the numbers of texts begin.
const TEXTS: u64 = 1 << 63;

/// The digest of the first of the cells of a row.
pub(crate) fn digest_of_row(row: &Row, columns: &[u32]) -> u64
    ensures { result ≡ key_digest false (cells columns.now row.now) }
{
    match columns {
        [] => 0,
        [column, ..] => match row.as_slice().get(*column as usize) {
            None => 0,
            Some(value) => digest_of(value),
        },
    }
}

/// The digest of the first value of a key. Without one it is that of a cut in front of everything,
/// or behind it.
pub(crate) fn digest_of_key(key: &[Value], through: bool) -> u64
    ensures { result ≡ key_digest through key.now }
{
    match key {
        [] => if through { u64::MAX } else { 0 },
        [value, ..] => digest_of(value),
    }
}

fn digest_of(value: &Value) -> u64
    ensures { result ≡ digest_of value.now }
{
    match value {
        Value::Null => 0,
        Value::Int(number) => digest_of_number(*number),
        Value::Text(text) => TEXTS + front(text.as_slice()),
    }
}

fn digest_of_number(number: i64) -> u64
    ensures { result ≡ number_digest number }
{
    let size = number.unsigned_abs();
    if number < 0 {
        ZERO - size.min(ZERO - 1)
    } else {
        ZERO + size.min(ZERO)
    }
}

// The first seven bytes as digits, the first one the highest.
fn front(text: &[u8]) -> u64
    ensures { result ≡ front 7 text.now }
{
    byte_at(text, 0) * (1 << 48)
        + byte_at(text, 1) * (1 << 40)
        + byte_at(text, 2) * (1 << 32)
        + byte_at(text, 3) * (1 << 24)
        + byte_at(text, 4) * (1 << 16)
        + byte_at(text, 5) * (1 << 8)
        + byte_at(text, 6)
}

fn byte_at(text: &[u8], at: usize) -> u64
    ensures byte { result ≡ get_or text.now at 0 }
    ensures most { result ≤ 255 }
{
    match text.get(at) {
        None => 0,
        Some(byte) => *byte as u64,
    }
}
