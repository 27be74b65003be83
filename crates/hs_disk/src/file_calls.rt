//! The calls of a file that a disk is kept in.
ghost use Rattle.std.specs.Prelude.{◌≡◌, ◌+◌, ◌^◌, ◌<◌, ◌≤◌, ◌++◌, length, take, IfOk, IfSome, OnOk, OnErr};
ghost use Rattle.hs_disk.specs.HostFile.{ReadsAll, Puts, Cuts, KeepsFront};
ghost use Rattle.hs_disk.specs.OpenFile.{EndsAt};

use crate::host_file::HostFile;
use crate::length::{MAX_LEN, joined_len, passes_end};
use std::io;
use std::io::ErrorKind;

/// How many zeros are written by one call, and how many such calls a file grows by, a MiB in all.
/// Larger pieces would lie in the system's memory as large pages, and each sync would go through a
/// whole one.
const PIECE: usize = 1 << 14;

const PIECES: usize = 64;

/// How many bytes are put together in memory, so that one call writes them.
const JOINED: usize = 1 << 13;

pub(crate) fn file_len<F: HostFile>(file: &mut F) -> io::Result<u64>
    ensures bound { IfOk result (λ n. n < 2 ^ 63) }
    ensures told { IfOk result (λ n. IfSome (F.holds file.old) (λ held. n ≡ length held)) }
    ensures kept { F.holds file.new ≡ F.holds file.old }
{
    let len = file.len()?;
    if len > MAX_LEN {
        return Err(ErrorKind::FileTooLarge.into());
    }
    Ok(len)
}

/// Reads until the buffer is full or the file ends.
pub(crate) fn fill<F: HostFile>(file: &mut F, at: u64, buf: &mut [u8]) -> io::Result<usize>
    requires { at + length buf.old < 2 ^ 64 }
    ensures bound { IfOk result (λ n. n ≤ length buf.old) }
    ensures told { IfOk result (λ n. IfSome (F.holds file.old) (λ held.
        ReadsAll at n held buf.new)) }
    ensures kept { F.holds file.new ≡ F.holds file.old }
    ensures len { length buf.new ≡ length buf.old }
{
    let mut got = 0;
    for _ in 0..u64::MAX {
        if got >= buf.len() {
            return Ok(got);
        }
        match file.read_at(at + got as u64, &mut buf[got..]) {
            Ok(count) => {
                if count == 0 {
                    return Ok(got);
                }
                got += count;
            }
            Err(error) if error.kind() == ErrorKind::Interrupted => {}
            Err(error) => return Err(error),
        }
    }
    Err(ErrorKind::Interrupted.into())
}

/// Writes until all is written, and says where it ends.
pub(crate) fn write_all<F: HostFile>(file: &mut F, at: u64, bytes: &[u8]) -> io::Result<u64>
    ensures ends { IfOk result (EndsAt at (length bytes.now)) }
    ensures puts { OnOk result (Puts at bytes.now (F.holds file.old) (F.holds file.new)) }
    ensures err { OnErr result (KeepsFront at (F.holds file.old) (F.holds file.new)) }
{
    if passes_end(at, bytes.len() as u64) {
        return Err(ErrorKind::FileTooLarge.into());
    }
    let mut put = 0;
    for _ in 0..u64::MAX {
        if put >= bytes.len() {
            return Ok(at + bytes.len() as u64);
        }
        match file.write_at(at + put as u64, &bytes[put..]) {
            Ok(count) => {
                if count == 0 {
                    return Err(ErrorKind::WriteZero.into());
                }
                put += count;
            }
            Err(error) if error.kind() == ErrorKind::Interrupted => {}
            Err(error) => return Err(error),
        }
    }
    Err(ErrorKind::Interrupted.into())
}

/// Writes three pieces one after another, by one call where they are short, and says where they
/// end.
pub(crate) fn write_joined<F: HostFile>(
    file: &mut F,
    at: u64,
    head: &[u8],
    body: &[u8],
    tail: &[u8],
) -> io::Result<u64>
    ensures ends { IfOk result (EndsAt at (length (head.now ++ body.now ++ tail.now))) }
    ensures puts { OnOk result (Puts at (head.now ++ body.now ++ tail.now) (F.holds file.old)
        (F.holds file.new)) }
{
    let Some(len) = joined_len(at, head, body, tail) else {
        return Err(ErrorKind::FileTooLarge.into());
    };
    if len > JOINED as u64 {
        let body_at = write_all(file, at, head)?;
        let tail_at = write_all(file, body_at, body)?;
        return write_all(file, tail_at, tail);
    }
    let mut joined = [0; JOINED];
    put_behind(&mut joined, 0, head);
    put_behind(&mut joined, head.len(), body);
    put_behind(&mut joined, head.len() + body.len(), tail);
    write_all(file, at, &joined[..len as usize])
}

/// Puts a piece into the buffer behind its first bytes.
fn put_behind(buf: &mut [u8], at: usize, piece: &[u8])
    requires { at + length piece.now ≤ length buf.old }
    ensures front { take (at + length piece.now) buf.new ≡ take at buf.old ++ piece.now }
    ensures len { length buf.new ≡ length buf.old }
{
    buf[at..at + piece.len()].copy_from_slice(piece);
}

/// Writes zeros from this place on, a whole step of them where the file takes them, and says where
/// they end.
pub(crate) fn write_ahead<F: HostFile>(file: &mut F, from: u64) -> u64
    ensures from { from ≤ result }
    ensures kept { KeepsFront from (F.holds file.old) (F.holds file.new) }
{
    let zeros = [0; PIECE];
    let mut end = from;
    for _ in 0..PIECES {
        // What is written ahead only saves time, so that a failure is none.
        let Ok(next) = write_all(file, end, &zeros) else {
            return end;
        };
        end = next;
    }
    end
}

/// Cuts the file to a length, and leaves a shorter one.
pub(crate) fn shorten<F: HostFile>(file: &mut F, len: u64) -> io::Result<()>
    ensures cuts { OnOk result (Cuts len (F.holds file.old) (F.holds file.new)) }
    ensures err { OnErr result (F.holds file.new ≡ F.holds file.old) }
{
    if file.len()? <= len {
        return Ok(());
    }
    file.set_len(len)
}
