//! Where a row or a key comes to stand between the rows of an order.
ghost use Rattle.std.specs.Prelude.{◌≡◌, false, option_copied};
ghost use Rattle.table_rows.specs.Cuts.{line_at, row_line, key_line, is_before};
ghost use Rattle.table_rows.specs.Entries.{row_under, cells};
ghost use Rattle.table_rows.specs.StoreInside.{stands, is_same};

use crate::cells::{cmp_rows, cmp_with_key};
use crate::digest::{digest_of_key, digest_of_row};
use crate::mark::Mark;
use index_tree::Cut;
use row_types::{Row, Value};
use std::cmp::Ordering;

/// In front of all that has the cells of a row at these columns. The digest is that of the first
/// of them.
#[derive(Clone, Copy)]
pub(crate) struct RowCut<'a> {
    rows: &'a [Option<Row>],
    columns: &'a [u32],
    row: &'a Row,
    pub(crate) digest: u64,
}

impl<'a> RowCut<'a> {
    pub(crate) fn of(rows: &'a [Option<Row>], columns: &'a [u32], row: &'a Row) -> RowCut<'a>
        ensures { row_line result ≡ line_at rows.now columns.now (cells columns.now row.now) false }
    {
        let digest = digest_of_row(row, columns);
        RowCut {
            rows,
            columns,
            row,
            digest,
        }
    }
}

impl Cut<Mark> for RowCut<'_> {
    ghost before = { λ cut mark. is_before (row_line cut) mark };

    fn is_before(&self, mark: &Mark) -> bool {
        match mark.digest().cmp(&self.digest) {
            Ordering::Less => true,
            Ordering::Equal => match row_in(self.rows, mark.slot) {
                None => false,
                Some(row) => cmp_rows(row, self.row, self.columns).is_lt(),
            },
            Ordering::Greater => false,
        }
    }
}

/// In front of all that has the cells of a key, or, `through` them, behind it. The digest is that
/// of the first of them.
#[derive(Clone, Copy)]
pub(crate) struct KeyCut<'a> {
    rows: &'a [Option<Row>],
    columns: &'a [u32],
    key: &'a [Value],
    through: bool,
    digest: u64,
}

impl<'a> KeyCut<'a> {
    pub(crate) fn of(
        rows: &'a [Option<Row>],
        columns: &'a [u32],
        key: &'a [Value],
        through: bool,
    ) -> KeyCut<'a>
        ensures { key_line result ≡ line_at rows.now columns.now key.now through }
    {
        let digest = digest_of_key(key, through);
        KeyCut {
            rows,
            columns,
            key,
            through,
            digest,
        }
    }
}

impl Cut<Mark> for KeyCut<'_> {
    ghost before = { λ cut mark. is_before (key_line cut) mark };

    fn is_before(&self, mark: &Mark) -> bool {
        match mark.digest().cmp(&self.digest) {
            Ordering::Less => true,
            Ordering::Equal => match row_in(self.rows, mark.slot) {
                None => false,
                Some(row) => {
                    let row = row.as_slice();
                    stands(self.through, cmp_with_key(row, self.columns, self.key))
                }
            },
            Ordering::Greater => false,
        }
    }
}

fn stands(through: bool, order: Ordering) -> bool
    ensures { result ≡ stands through order }
{
    if through {
        !order.is_gt()
    } else {
        order.is_lt()
    }
}

/// The row in a slot.
pub(crate) fn row_in(rows: &[Option<Row>], slot: u32) -> Option<&Row>
    ensures { option_copied result ≡ row_under rows.now slot }
{
    match rows.get(slot as usize) {
        None => None,
        Some(row) => row.as_ref(),
    }
}

/// Whether there is a row in the slot, with the cells of this one.
pub(crate) fn is_same(rows: &[Option<Row>], slot: u32, columns: &[u32], row: &Row) -> bool
    ensures { result ≡ is_same columns.now row.now (row_under rows.now slot) }
{
    match row_in(rows, slot) {
        None => false,
        Some(old) => cmp_rows(old, row, columns).is_eq(),
    }
}
