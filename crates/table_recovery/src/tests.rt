//! What no contract says: that there is memory, and which bytes lead to which.
ghost use Rattle.std.specs.Prelude.{IfOk};
ghost use Rattle.row_types.specs.Valid.{IsValid};

use crate::recover;
use check_point::push_area;
use hs_disk::MemDisk;
use hs_schema::{SchemaLines, empty};
use hs_token::decode_line;
use redo_journal::Refusal;
use row_types::Schema;
use std::alloc::Global;
use std::test::Fail;

// A table line of 122 bytes.
const LINE: &[u8] =
    b"table\ttest\tt\tc\tid\tint\tnot\t\0\tc\tname\tbytes:32\tnull\t\0\tc\tn\tint\tnot\t0\ti\tPRIMARY\tprimary\tid\ti\tby_n\tindex\tn\ti\tby_name\tunique\tname";

// A journal with the text of that line, up to the gate of its first record, which stands at 136.
const HEADER: [&[u8]; 3] = [b"\x01HSJRNL01\0\0\0\x7b", LINE, b"\n"];

// A root at 136 whose first cell is named, and the segment that it names, without a row.
const ROOT: &[u8] =
    b"\x01\0\0\0\x15\xff\xff\xff\xff\0\0\0\0\0\0\0\0\xa3\0\0\0\0\0\0\0\xa3\0\0\0\0\0\0\0\0\0\0\0\0\x04\0\0\0\0";

// The same, where the second cell is named and holds 252, and two records behind the first segment.
const TURNED: &[u8] =
    b"\x01\0\0\0\x15\xff\xff\xff\xff\x01\0\0\0\0\0\0\0\xa3\0\0\0\0\0\0\0\xfc\0\0\0\0\0\0\0\0\0\0\0\0\x04\0\0\0\0\x01\0\0\0\x1f\0\0\0\x01\x01\0\0\x01\0\0\0\0\0\0\0\x01\x02\0\0\0\x01a\x01\0\0\0\0\0\0\0\x01\x01\0\0\0\x1f\0\0\0\x01\x01\0\0\x01\0\0\0\0\0\0\0\x02\x02\0\0\0\x01b\x01\0\0\0\0\0\0\0\x02\0";

// The segment that stands there: the rows (1, a, 1) and (2, b, 2) stand for two records.
const SECOND: &[u8] =
    b"\0\0\0\0\0\0\0\x02\0\0\0\x3a\0\0\0\x02\x01\0\0\x01\0\0\0\0\0\0\0\x01\x02\0\0\0\x01a\x01\0\0\0\0\0\0\0\x01\x01\0\0\x01\0\0\0\0\0\0\0\x02\x02\0\0\0\x01b\x01\0\0\0\0\0\0\0\x02";

// A record that puts the row (3, c, 3).
const THIRD: &[u8] =
    b"\x01\0\0\0\x1f\0\0\0\x01\x01\0\0\x01\0\0\0\0\0\0\0\x03\x02\0\0\0\x01c\x01\0\0\0\0\0\0\0\x03";

// A record that puts the row (1, ann, 5), and one that takes it away.
const ANN: &[u8] =
    b"\x01\0\0\0\x21\0\0\0\x01\x01\0\0\x01\0\0\0\0\0\0\0\x01\x02\0\0\0\x03ann\x01\0\0\0\0\0\0\0\x05";

const GONE: &[u8] = b"\x01\0\0\0\x10\0\0\0\x01\x02\0\0\x01\0\0\0\0\0\0\0\x01";

// What the tables are then written as, behind the number of the records.
const NO_ROW: &[u8] = b"\0\0\0\x04\0\0\0\0\0";

const ANN_ALONE: &[u8] =
    b"\0\0\0\x21\0\0\0\x01\x01\0\0\x01\0\0\0\0\0\0\0\x01\x02\0\0\0\x03ann\x01\0\0\0\0\0\0\0\x05\0";

const THREE: &[u8] =
    b"\0\0\0\x55\0\0\0\x03\x01\0\0\x01\0\0\0\0\0\0\0\x01\x02\0\0\0\x01a\x01\0\0\0\0\0\0\0\x01\x01\0\0\x01\0\0\0\0\0\0\0\x02\x02\0\0\0\x01b\x01\0\0\0\0\0\0\0\x02\x01\0\0\x01\0\0\0\0\0\0\0\x03\x02\0\0\0\x01c\x01\0\0\0\0\0\0\0\x03\0";

fn schema(alloc: Global) -> Result<Schema, Fail>
    ensures { IfOk result IsValid }
{
    let mut schema = empty(alloc);
    schema.add_table(alloc, &decode_line(alloc, LINE)?)?;
    Ok(schema)
}

fn joined(alloc: Global, parts: &[&[u8]]) -> Result<Vec<u8>, Fail> {
    let mut bytes = Vec::new(alloc);
    for part in parts {
        bytes.extend_from_slice(part)?;
    }
    Ok(bytes)
}

// The journal with this behind its header.
fn image(alloc: Global, behind: &[&[u8]]) -> Result<Vec<u8>, Fail> {
    let mut bytes = joined(alloc, &HEADER)?;
    bytes.extend_from_slice(&joined(alloc, behind)?)?;
    Ok(bytes)
}

// What stands behind the header, the length and the changing calls behind recovery, the number of
// records, and the tables.
#[test]
fn a_disk_is_opened_to_its_rows(rt: HostRuntime) -> Result<(), Fail> {
    let alloc = rt.alloc();
    let schema = schema(alloc)?;
    for (behind, len, calls, records, area) in [
        (
            [b"\0".as_slice(), b"", b"", b""],
            180usize,
            6u64,
            0u8,
            NO_ROW,
        ),
        ([ANN, b"\0", b"", b""], 247, 6, 1, ANN_ALONE),
        ([ANN, GONE, b"\0", b""], 239, 6, 2, NO_ROW),
        ([ROOT, b"\0", b"", b""], 180, 1, 0, NO_ROW),
        ([ROOT, ANN, b"\0", b""], 218, 1, 1, ANN_ALONE),
        ([ROOT, ANN, GONE, b"\0"], 239, 1, 2, NO_ROW),
        ([TURNED, SECOND, THIRD, b"\0"], 359, 1, 3, THREE),
    ] {
        let bytes = image(alloc, &behind)?;
        let mut disk = MemDisk::of(alloc, &bytes, &[])?;
        let found = recover(alloc, &mut disk, &schema, 1000)?;
        assert_eq!(rt;
            (disk.bytes().len(), disk.changing_calls()),
            (len, calls),
            "{len}"
        );
        assert_eq!(rt; found.journal.records(), records as u64, "{len}");
        let mut written = Vec::new(alloc);
        push_area(&found.tables, found.journal.records(), &mut written)?;
        let mut want = Vec::new(alloc);
        want.extend_from_slice(&[0, 0, 0, 0, 0, 0, 0, records])?;
        want.extend_from_slice(area)?;
        assert!(rt; written == want, "{len}");
    }
    Ok(())
}

// What stands behind the header, and the gate that is named.
#[test]
fn a_disk_that_leads_nowhere_is_damaged(rt: HostRuntime) -> Result<(), Fail> {
    let alloc = rt.alloc();
    let schema = schema(alloc)?;
    for (behind, place) in [
        ([GONE, b"\0", b""], 136u64),
        ([ANN, ANN, b"\0"], 174),
        ([ROOT, b"\x01\0\0\0\0", b"\0"], 179),
        ([ROOT, ANN, b""], 179),
        ([TURNED, SECOND, b"\x01\0\0\0\x01\x07\0"], 322),
        (
            [TURNED, b"\0\0\0\0\0\0\0\x02\0\0\0\x04\0\0\0\x01", b"\0"],
            136,
        ),
    ] {
        let bytes = image(alloc, &behind)?;
        let mut disk = MemDisk::of(alloc, &bytes, &[])?;
        let failed = recover(alloc, &mut disk, &schema, 1000).err();
        assert_eq!(rt; failed, Some(Refusal::Damaged(place)));
        assert!(rt; disk.bytes() == bytes.as_slice());
    }
    Ok(())
}
