//! The bytes of a journal, and what it answers where the disk fails or its bytes are altered.
ghost use Rattle.redo_journal.specs.Journal.{IsJournalOn};
ghost use Rattle.hs_disk.specs.Sound.{images};

use crate::{Journal, Refusal, open_on};
use hs_disk::{Disk, FileDisk, MemDisk, Pick};
use std::fs;
use std::test::Fail;

// A schema text of one table line, of 123 bytes.
const TEXT: [u8; 123] =
    *b"table\ttest\tt\tc\tid\tint\tnot\t\0\tc\tname\tbytes:32\tnull\t\0\tc\tn\tint\tnot\t0\ti\tPRIMARY\tprimary\tid\ti\tby_n\tindex\tn\ti\tby_name\tunique\tname\n";

// The row (1, ann, 5) put into table 0, of 33 bytes.
const PAYLOAD: [u8; 33] =
    *b"\0\0\0\x01\x01\0\0\x01\0\0\0\0\0\0\0\x01\x02\0\0\0\x03ann\x01\0\0\0\0\0\0\0\x05";

// A segment for no records, whose area has no row.
const EMPTY: [u8; 17] = *b"\0\0\0\0\0\0\0\0\0\0\0\x04\0\0\0\0\0";

// A segment for two records, with an area of two bytes.
const SECOND: [u8; 15] = *b"\0\0\0\0\0\0\0\x02\0\0\0\x02\x07\x08\0";

// Appends the record, and says whether it was acknowledged.
fn put(journal: &mut Journal, disk: &mut MemDisk) -> bool
    requires { IsJournalOn journal.old disk.old.bytes (images disk.old) }
    ensures { IsJournalOn journal.new disk.new.bytes (images disk.new) }
{
    if journal.records() == u64::MAX {
        return false;
    }
    journal.append(disk, &PAYLOAD).is_ok()
}

// Turns the journal over with no record, or rotates it with two, and says whether it was done.
fn turn(journal: &mut Journal, disk: &mut MemDisk) -> bool
    requires { IsJournalOn journal.old disk.old.bytes (images disk.old) }
    ensures { IsJournalOn journal.new disk.new.bytes (images disk.new) }
{
    if journal.has_root() {
        return journal.rotate(disk, &SECOND).is_ok();
    }
    if journal.repair_due() {
        return false;
    }
    journal.turn_over(disk, &EMPTY).is_ok()
}

// How many times a step, a record (r) or a turn (t), is refused before it is acknowledged.
fn refusals(step: u8, journal: &mut Journal, disk: &mut MemDisk) -> u64
    requires { IsJournalOn journal.old disk.old.bytes (images disk.old) }
    ensures { IsJournalOn journal.new disk.new.bytes (images disk.new) }
{
    let mut refused: u64 = 0;
    for _ in 0..3u64 {
        let done = if step == b't' {
            turn(journal, disk)
        } else {
            put(journal, disk)
        };
        if done {
            break;
        }
        refused = refused.saturating_add(1);
    }
    refused
}

// Takes these steps, and hands out how many times one was refused.
fn run(steps: &[u8], journal: &mut Journal, disk: &mut MemDisk) -> u64
    requires { IsJournalOn journal.old disk.old.bytes (images disk.old) }
    ensures { IsJournalOn journal.new disk.new.bytes (images disk.new) }
{
    let mut refused: u64 = 0;
    for step in steps {
        refused = refused.saturating_add(refusals(*step, journal, disk));
    }
    refused
}

#[test]
fn a_new_journal_has_these_bytes(rt: HostRuntime) -> Result<(), Fail> {
    let alloc = rt.alloc();
    let mut disk = MemDisk::of(alloc, &[], &[])?;
    let (mut journal, _) = open_on(alloc, &mut disk, b"")?;
    assert_eq!(rt; disk.bytes(), b"\x01HSJRNL01\0\0\0\0\0".as_slice());
    assert_eq!(rt; disk.changing_calls(), 9);
    assert_eq!(rt; run(b"t", &mut journal, &mut disk), 0);
    assert_eq!(rt; disk.changing_calls(), 14);
    assert_eq!(rt;
        disk.bytes(),
        b"\x01HSJRNL01\0\0\0\0\x01\0\0\0\x15\xff\xff\xff\xff\0\0\0\0\0\0\0\0\x28\0\0\0\0\0\0\0\x28\0\0\0\0\0\0\0\0\0\0\0\0\x04\0\0\0\0\0".as_slice()
    );
    Ok(())
}

// The steps, and the length, the changing calls, the number of all records and of those behind the
// area that they lead to.
#[test]
fn a_run_leaves_its_records(rt: HostRuntime) -> Result<(), Fail> {
    let alloc = rt.alloc();
    for (steps, len, calls, records, since) in [
        (b"r".as_slice(), 175usize, 13u64, 1u64, 1u64),
        (b"rt", 218, 18, 0, 0),
        (b"tr", 218, 18, 1, 1),
        (b"trr", 256, 22, 2, 2),
        (b"trrt", 271, 27, 2, 0),
        (b"trrtr", 309, 31, 3, 1),
        (b"trrtrt", 309, 36, 2, 0),
        (b"trrtrtr", 309, 40, 3, 1),
    ] {
        let mut disk = MemDisk::of(alloc, &[], &[])?;
        let (mut journal, _) = open_on(alloc, &mut disk, &TEXT)?;
        assert_eq!(rt; run(steps, &mut journal, &mut disk), 0);
        assert_eq!(rt;
            (disk.bytes().len(), disk.changing_calls()),
            (len, calls),
            "{steps:?}"
        );
        assert_eq!(rt;
            (journal.records(), journal.since_area()),
            (records, since),
            "{steps:?}"
        );
        let (again, opened) = open_on(alloc, &mut disk, &TEXT)?;
        assert_eq!(rt;
            (again.records(), again.since_area()),
            (records, since),
            "{steps:?}"
        );
        assert_eq!(rt; again.root_gate(), journal.root_gate());
        assert_eq!(rt; opened.area.is_some(), journal.has_root());
        assert_eq!(rt; opened.records.len() as u64, since);
    }
    Ok(())
}

// The call that fails, how many steps are refused, and the calls made in all.
#[test]
fn a_failed_step_is_tried_again(rt: HostRuntime) -> Result<(), Fail> {
    let alloc = rt.alloc();
    for (fail_at, refused, calls) in [
        (10, 1, 24u64),
        (11, 1, 25),
        (12, 1, 26),
        // The gate of the root is in doubt, and the next record shuts it.
        (13, 3, 24),
        (14, 3, 25),
        (15, 1, 24),
        (16, 1, 25),
        (17, 1, 28),
        (18, 1, 29),
        (19, 1, 24),
        (20, 1, 25),
        (21, 1, 26),
        (22, 1, 29),
        (23, 1, 30),
    ] {
        let mut disk = MemDisk::of(alloc, &[], &[fail_at])?;
        let (mut journal, _) = open_on(alloc, &mut disk, &TEXT)?;
        assert_eq!(rt; run(b"trt", &mut journal, &mut disk), refused, "{fail_at}");
        assert_eq!(rt;
            (disk.changing_calls(), disk.faults()),
            (calls, 1),
            "{fail_at}"
        );
        assert!(rt; journal.has_root() && !journal.repair_due(), "{fail_at}");
        let (again, _) = open_on(alloc, &mut disk, &TEXT)?;
        assert_eq!(rt;
            (again.records(), again.root_gate()),
            (journal.records(), journal.root_gate())
        );
    }
    Ok(())
}

#[test]
fn a_journal_is_made_at_the_next_opening(rt: HostRuntime) -> Result<(), Fail> {
    let alloc = rt.alloc();
    for call in 1..10u64 {
        let mut disk = MemDisk::of(alloc, &[], &[call])?;
        let failed = open_on(alloc, &mut disk, &TEXT).err();
        assert_eq!(rt; failed, Some(Refusal::DiskFault), "{call}");
        assert_eq!(rt; (disk.changing_calls(), disk.faults()), (call, 1));
        let (journal, _) = open_on(alloc, &mut disk, &TEXT)?;
        assert_eq!(rt; journal.records(), 0, "{call}");
        // Before its last sync, a journal that is made is whole.
        let more = if call == 9 { 1 } else { 9 };
        assert_eq!(rt; disk.changing_calls(), call + more);
    }
    Ok(())
}

// What is left of what waited for a sync, and the moments from which on there is a root, a record,
// and the second segment.
#[test]
fn a_crash_leaves_each_step_or_none_of_it(rt: HostRuntime) -> Result<(), Fail> {
    let alloc = rt.alloc();
    let mut disk = MemDisk::of(alloc, &[], &[])?;
    let (mut journal, _) = open_on(alloc, &mut disk, &TEXT)?;
    assert_eq!(rt; run(b"trt", &mut journal, &mut disk), 0);
    for (pick, root, record, second) in [
        (Pick::Kept, 14, 18, 23),
        (Pick::Written, 13, 17, 22),
        (Pick::Ones, 13, 17, 22),
    ] {
        for moment in 0..24u64 {
            let mut left = disk.image(moment, pick)?;
            let (journal, opened) = open_on(alloc, &mut left, &TEXT)?;
            assert_eq!(rt; journal.has_root(), moment >= root, "{pick:?} {moment}");
            let stands = moment >= record && moment < second;
            assert_eq!(rt; opened.records.len() == 1, stands, "{pick:?} {moment}");
            assert_eq!(rt; opened.first == 2, moment >= second, "{pick:?} {moment}");
        }
    }
    Ok(())
}

// Whether the journal has a root, a byte that is altered, where the disk is cut, and the number of
// records or the refusal.
#[test]
fn an_altered_disk_is_read_or_refused(rt: HostRuntime) -> Result<(), Fail> {
    let alloc = rt.alloc();
    for (steps, place, byte, len, want) in [
        (b"r".as_slice(), 0usize, 0, 175usize, Ok(0)),
        (b"r", 0, 0x30, 175, Ok(0)),
        (b"r", 1, 0, 175, Err(Refusal::Damaged(0))),
        (b"r", 9, 0xff, 175, Err(Refusal::Damaged(0))),
        (b"r", 13, b'u', 175, Err(Refusal::OtherSchema)),
        (b"r", 12, 0x7c, 175, Err(Refusal::OtherSchema)),
        (b"r", 136, 0, 175, Ok(0)),
        (b"r", 140, 0x20, 175, Ok(1)),
        (b"r", 140, 0x22, 175, Err(Refusal::Damaged(136))),
        (b"r", 174, 0, 174, Err(Refusal::Damaged(136))),
        (b"r", 174, 1, 175, Err(Refusal::Damaged(174))),
        (b"r", 174, 7, 175, Ok(1)),
        (b"r", 0, 1, 136, Err(Refusal::Damaged(0))),
        (b"r", 0, 1, 2, Err(Refusal::Damaged(0))),
        (b"r", 0, 1, 1, Ok(0)),
        (b"r", 0, 1, 0, Ok(0)),
        (b"tr", 136, 0, 218, Ok(0)),
        (b"tr", 0, 1, 162, Err(Refusal::Damaged(136))),
        (b"tr", 145, 2, 218, Ok(1)),
        (b"tr", 145, 3, 218, Ok(1)),
        (b"tr", 153, 162, 218, Err(Refusal::Damaged(136))),
        (b"tr", 152, 1, 218, Err(Refusal::Damaged(136))),
        (b"tr", 146, 0xff, 218, Err(Refusal::Damaged(136))),
        (b"tr", 163, 0x80, 218, Err(Refusal::Damaged(136))),
        (b"tr", 171, 1, 218, Err(Refusal::Damaged(136))),
        (b"tr", 0, 1, 179, Err(Refusal::Damaged(136))),
        (b"tr", 0, 1, 213, Err(Refusal::Damaged(179))),
        (b"tr", 179, 0, 218, Ok(0)),
    ] {
        let mut disk = MemDisk::of(alloc, &[], &[])?;
        let (mut journal, _) = open_on(alloc, &mut disk, &TEXT)?;
        assert_eq!(rt; run(steps, &mut journal, &mut disk), 0);
        let mut bytes = disk.bytes().to_vec(alloc)?;
        assert!(rt; place < bytes.len());
        bytes[place] = byte;
        bytes.truncate(len);
        let mut altered = MemDisk::of(alloc, &bytes, &[])?;
        let read = match open_on(alloc, &mut altered, &TEXT) {
            Ok((_, opened)) => Ok(opened.records.len()),
            Err(refusal) => Err(refusal),
        };
        assert_eq!(rt;
            read,
            want,
            "{steps:?}: byte {byte} at {place}, {len} bytes"
        );
    }
    Ok(())
}

#[test]
fn a_file_keeps_its_records(rt: HostRuntime) -> Result<(), Fail> {
    let path = "redo_journal_keeps.tmp";
    let mut file = FileDisk::open(&rt, path)?;
    let (mut journal, _) = open_on(rt.alloc(), &mut file, &TEXT)?;
    assert!(rt; journal.records() == 0);
    assert!(rt; journal.append(&mut file, &PAYLOAD).is_ok());
    drop(file);
    let mut again = FileDisk::open(&rt, path)?;
    let (_, opened) = open_on(rt.alloc(), &mut again, &TEXT)?;
    fs::remove_file(&rt, path)?;
    assert_eq!(rt; opened.records.len(), 1);
    assert_eq!(rt; opened.records[0].place, 136);
    assert_eq!(rt; opened.records[0].payload.as_slice(), PAYLOAD.as_slice());
    Ok(())
}
