//! What no clause says: that calls succeed, what a file of the system keeps, and what becomes of
//! one that does little a call or fails.
use crate::{Disk, Failed, FileDisk, HostFile, MemDisk, Pick};
use std::io::ErrorKind;
use std::test::Fail;
use std::{fs, io};

/// A file in memory that reads and writes one byte a call, and fails as it is told.
#[derive(Drop)]
struct LittleFile {
    bytes: Vec<u8>,
    fails_to_cut: bool,
    fails_to_sync: bool,
}

impl HostFile for LittleFile {
    ghost use Rattle.std.specs.Prelude.{None};

    ghost holds = { λ _. None };

    ghost waits = { λ _. None };

    fn len(&mut self) -> io::Result<u64> {
        Ok(self.bytes.len() as u64)
    }

    fn read_at(&mut self, at: u64, buf: &mut [u8]) -> io::Result<usize> {
        match (self.bytes.get(at as usize), buf) {
            (Some(byte), [first, ..]) => {
                *first = *byte;
                Ok(1)
            }
            _ => Ok(0),
        }
    }

    fn write_at(&mut self, at: u64, bytes: &[u8]) -> io::Result<usize> {
        let Some(first) = bytes.first() else {
            return Ok(0);
        };
        match self.bytes.get_mut(at as usize) {
            Some(byte) => *byte = *first,
            None => self.bytes.push(*first)?,
        }
        Ok(1)
    }

    fn set_len(&mut self, len: u64) -> io::Result<()> {
        if self.fails_to_cut {
            return Err(ErrorKind::Other.into());
        }
        self.bytes.truncate(len as usize);
        Ok(())
    }

    fn sync(&mut self) -> io::Result<()> {
        if self.fails_to_sync {
            return Err(ErrorKind::Other.into());
        }
        Ok(())
    }
}

#[test]
fn a_file_that_does_little_a_call_holds_all(rt: HostRuntime) -> Result<(), Fail> {
    let mut disk = FileDisk::over(LittleFile {
        bytes: Vec::new(rt.alloc()),
        fails_to_cut: true,
        fails_to_sync: true,
    })?;
    let mut buf = [0; 8];
    assert_eq!(rt; disk.write_at(0, b"jonas"), Ok(()));
    assert_eq!(rt; disk.write_pieces(2, b"u", b"rn", b"al"), Ok(()));
    assert_eq!(rt; disk.read(0, &mut buf), Ok(7));
    assert_eq!(rt; buf, *b"journal\0");
    assert_eq!(rt; disk.cut(3), Err(Failed));
    assert_eq!(rt; disk.sync(), Err(Failed));
    assert_eq!(rt; (disk.len(), disk.faults()), (Ok(7), 2));
    Ok(())
}

#[test]
fn a_disk_in_memory_does_what_it_is_asked(rt: HostRuntime) -> Result<(), Fail> {
    let mut disk = MemDisk::of(rt.alloc(), b"abc", &[4])?;
    let mut buf = [0; 6];
    assert_eq!(rt; disk.write_at(0, b"xy"), Ok(()));
    assert_eq!(rt; disk.write_pieces(2, b"12", b"", b"3"), Ok(()));
    assert_eq!(rt; disk.cut(4), Ok(()));
    assert_eq!(rt; disk.sync(), Err(Failed));
    assert_eq!(rt; (&mut disk).read(1, &mut buf), Ok(3));
    assert_eq!(rt; buf, *b"y12\0\0\0");
    assert_eq!(rt; disk.bytes(), b"xy12".as_slice());
    assert_eq!(rt; (disk.changing_calls(), disk.faults()), (4, 1));
    assert!(rt; !disk.short());
    for (moment, pick, bytes) in [
        (0, Pick::Ones, b"abc".as_slice()),
        (2, Pick::Kept, b"abc"),
        (2, Pick::Written, b"xy123"),
        (2, Pick::Ones, b"\x01\x01\x01\x01\x01"),
        (9, Pick::Ones, b"\x01\x01\x01\x01"),
    ] {
        let left = disk.image(moment, pick)?;
        assert_eq!(rt; left.bytes(), bytes, "{moment} {pick:?}");
    }
    Ok(())
}

/// What a file holds once it is no disk any more.
fn left(rt: &HostRuntime, path: &str) -> Result<Vec<u8>, Fail> {
    Ok(fs::read(rt, path)?)
}

#[test]
fn a_file_keeps_what_was_written_and_gives_back_the_zeros(rt: HostRuntime) -> Result<(), Fail> {
    let path = "hs_disk_keeps.tmp";
    let mut disk = FileDisk::open(&rt, path)?;
    assert!(rt; FileDisk::open(&rt, path).is_err(), "opened twice");
    assert_eq!(rt; disk.write_at(0, b"\x00"), Ok(()));
    assert_eq!(rt; left(&rt, path)?.len(), 1);
    assert_eq!(rt; disk.write_pieces(1, b"jou", b"rn", b"al"), Ok(()));
    assert_eq!(rt; left(&rt, path)?.len(), 8 + (1 << 20));
    assert_eq!(rt; disk.cut(8), Ok(()));
    assert_eq!(rt; disk.sync(), Ok(()));
    drop(disk);
    assert_eq!(rt; left(&rt, path)?.as_slice(), b"\x00journal".as_slice());
    // A write in the middle adds nothing.
    let mut again = FileDisk::open(&rt, path)?;
    let mut buf = [0; 9];
    assert_eq!(rt; again.write_at(2, b"a"), Ok(()));
    assert_eq!(rt; (again.len(), again.read(0, &mut buf)), (Ok(8), Ok(8)));
    assert_eq!(rt; buf, *b"\x00jaurnal\0");
    assert_eq!(rt; left(&rt, path)?.as_slice(), b"\x00jaurnal".as_slice());
    fs::remove_file(&rt, path)?;
    Ok(())
}

#[test]
fn a_file_that_is_no_journal_is_refused_and_stays(rt: HostRuntime) -> Result<(), Fail> {
    let path = "hs_disk_foreign.tmp";
    for (bytes, is_ours) in [
        (b"".as_slice(), true),
        (b"x", true),
        (b"\x01", true),
        (b"\x00x", true),
        (b"\x01x", true),
        (b"xHSJRNL01", true),
        (b"xHSJRNL01x", true),
        (b"xHSJRNL0", false),
        (b"xy", false),
        (b"a note, and no journal", false),
    ] {
        fs::write(&rt, path, bytes)?;
        assert_eq!(rt; FileDisk::open(&rt, path).is_ok(), is_ours, "{bytes:?}");
        assert_eq!(rt; left(&rt, path)?.as_slice(), bytes);
    }
    assert!(rt; FileDisk::open(&rt, "no_such_folder/journal").is_err());
    assert!(rt; FileDisk::open(&rt, "/").is_err());
    fs::remove_file(&rt, path)?;
    Ok(())
}
