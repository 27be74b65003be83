//! A cell of a row.
ghost use Rattle.std.specs.Prelude.{◌≡◌};
ghost use Rattle.row_types.specs.Order.{value_cmp};

use crate::byte_text::ByteText;
use std::cmp::Ordering;

/// NULL, an integer or a text. The derived order is that of `cmp_values`.
#[derive(Debug, Drop, PartialEq, Eq, PartialOrd, Ord)]
pub enum Value {
    Null,
    Int(i64),
    Text(ByteText),
}

/// NULL first, then integers by number, then texts by their bytes.
pub fn cmp_values(a: &Value, b: &Value) -> Ordering
    ensures { result ≡ value_cmp a.now b.now }
{
    a.cmp(b)
}
