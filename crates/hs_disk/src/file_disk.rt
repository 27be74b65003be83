//! A file as a disk. A real file is trusted: it tells nothing of what it holds.
//!
//! A sync that must also write a file's new length takes longer. So the file grows by whole steps,
//! of zeros that are really written: behind what the disk holds, the file may have zeros, which it
//! gives back when it is let go. One that a crash left has them when it is opened again, and they
//! are the disk's then. A write at place 0 adds none, so that a crash in it leaves no more than its
//! own bytes.
ghost use Rattle.std.specs.Prelude.{◌≡◌, ◌+◌, ◌^◌, ◌<◌, ◌≤◌, ◌++◌, ℕ, List, false, length, min, take, Some, Ok, IfOk, IfSome, IsErr, OnOk, OnErr};
ghost use Rattle.fault_count.specs.Cause.{HasCause};
ghost use Rattle.hs_disk.specs.HostFile.{ReadsAll, Puts};
ghost use Rattle.hs_disk.specs.Foreign.{IsForeign};
ghost use Rattle.hs_disk.specs.OpenFile.{shown, Grew, Shrank, IsAsLong, IsAsItWas, faults_after};

use crate::file_calls::{file_len, fill, shorten, write_ahead, write_all, write_joined};
use crate::foreign::{FRONT, is_foreign};
use crate::host_file::HostFile;
use crate::{Disk, Failed};
use fault_count::raised;
use std::fs::File;
use std::io;
use std::io::ErrorKind;
use std::marker::Model;
use std::path::Path;
use std::rt::Files;

/// A file that is open for reading and writing, and the count of its failed calls.
pub struct FileDisk<F: HostFile = File> {
    file: F,
    len: u64,
    // How far the file is written, zeros included.
    filled: u64,
    faults: u64,
}

impl<F: HostFile> Model for FileDisk<F> {
    ghost use Rattle.hs_disk.specs.OpenFile.{OpenFile};

    ghost Value = { OpenFile };

    ghost use Rattle.std.specs.Prelude.{◌^◌, ◌<◌, ◌≤◌};

    ghost view = { λ d. record {
      holds = F.holds d.file;
      waits = F.waits d.file;
      len = d.len;
      filled = d.filled;
      faults = d.faults;
    } };

    ghost invariant = { λ d. (d.len < 2 ^ 63) × (d.len ≤ d.filled) };
}

impl<F: HostFile + Drop> Drop for FileDisk<F> {
    /// Gives back the zeros behind what the disk holds.
    fn drop(self) {
        let FileDisk {
            mut file,
            len,
            filled,
            faults: _,
        } = self;
        if filled > len {
            let _ = shorten(&mut file, len).is_ok();
        }
    }
}

impl FileDisk<File> {
    /// Opens the file, which is made where it is missing, and syncs its folder, so that a crash
    /// keeps its name. Nothing is written to it yet. A file that another one holds open as a disk
    /// is refused, and so is one with something in it that is no journal.
    pub fn open<R: Files<File = File>>(files: &R, path: &str) -> io::Result<FileDisk<File>>
        ensures { IfOk result (λ disk. (disk.faults ≡ 0) × (disk.filled ≡ disk.len)) }
    {
        let file = File::options()
            .read(true)
            .write(true)
            .create(true)
            .open(files, path)?;
        file.try_lock()?;
        let disk = FileDisk::over(file)?;
        sync_folder(files, path)?;
        Ok(disk)
    }
}

/// Has a crash keep the names in the folder of a path.
fn sync_folder<R: Files<File = File>>(files: &R, path: &str) -> io::Result<()> {
    let folder = match Path::new(path).parent() {
        Some(folder) if !folder.as_str().is_empty() => File::open(files, folder)?,
        _ => File::open(files, ".")?,
    };
    folder.sync_all()
}

impl<F: HostFile + Drop> FileDisk<F> {
    /// A disk in a file, unless something that is no journal is in it.
    pub fn over(mut file: F) -> io::Result<FileDisk<F>>
        ensures fresh { IfOk result (λ disk. (disk.faults ≡ 0) × (disk.filled ≡ disk.len)) }
        ensures told { IfOk result (λ disk. disk.holds ≡ F.holds file) }
        ensures whole { IfOk result (λ disk. IfSome (F.holds file) (λ held.
            disk.len ≡ length held)) }
        ensures refuses { IfSome (F.holds file) (λ held. IsForeign (take 9 held) → IsErr result) }
    {
        let len = file_len(&mut file)?;
        let mut front = [0; FRONT];
        let count = fill(&mut file, 0, &mut front)?;
        if is_foreign(&front[..count]) {
            return Err(ErrorKind::InvalidData.into());
        }
        Ok(FileDisk {
            file,
            len,
            filled: len,
            faults: 0,
        })
    }
}

impl<F: HostFile> FileDisk<F> {
    ghost use Rattle.std.specs.Prelude.{true};
    ghost use Rattle.std.specs.Result.{is_err};

    // Hands an answer on, and counts a failure.
    fn counted<T>(&mut self, answer: io::Result<T>) -> Result<T, Failed>
        ensures ok { IfOk result (λ value. answer ≡ Ok value) }
        ensures err { OnErr result (is_err answer ≡ true) }
        ensures counted { self.new
            ≡ record self.old { faults = faults_after result self.old.faults } }
        ensures cause { HasCause self.old.faults self.new.faults result }
    {
        match answer {
            Ok(value) => Ok(value),
            Err(_) => {
                self.faults = raised(self.faults);
                Err(Failed)
            }
        }
    }

    // Takes note of a write from this place up to this end, and writes ahead of it where the file
    // grew.
    fn reach(&mut self, at: u64, end: u64)
        requires { end < 2 ^ 63 }
        ensures grew { Grew at end self.old self.new }
        ensures kept { (held : List ℕ) → self.old.holds ≡ Some held → end ≤ length held →
            shown self.new ≡ Some (take self.new.len held) }
        ensures faults { self.new.faults ≡ self.old.faults }
    {
        if end > self.filled {
            self.filled = if at == 0 {
                end
            } else {
                write_ahead(&mut self.file, end)
            };
        }
        self.len = self.len.max(end);
    }

    fn put(&mut self, at: u64, bytes: &[u8]) -> io::Result<()>
        ensures ok { OnOk result (Grew at (at + length bytes.now) self.old self.new) }
        ensures room { OnOk result (at + length bytes.now < 2 ^ 63) }
        ensures puts { OnOk result (Puts at bytes.now (shown self.old) (shown self.new)) }
        ensures err { OnErr result (IsAsLong self.old self.new) }
        ensures faults { self.new.faults ≡ self.old.faults }
    {
        let end = write_all(&mut self.file, at, bytes)?;
        self.reach(at, end);
        Ok(())
    }

    fn put_pieces(&mut self, at: u64, head: &[u8], body: &[u8], tail: &[u8]) -> io::Result<()>
        ensures ok { OnOk result
            (Grew at (at + length (head.now ++ body.now ++ tail.now)) self.old self.new) }
        ensures room { OnOk result (at + length (head.now ++ body.now ++ tail.now) < 2 ^ 63) }
        ensures puts { OnOk result
            (Puts at (head.now ++ body.now ++ tail.now) (shown self.old) (shown self.new)) }
        ensures err { OnErr result (IsAsLong self.old self.new) }
        ensures faults { self.new.faults ≡ self.old.faults }
    {
        let end = write_joined(&mut self.file, at, head, body, tail)?;
        self.reach(at, end);
        Ok(())
    }

    fn shorten(&mut self, len: u64) -> io::Result<()>
        ensures ok { OnOk result (Shrank len self.old self.new) }
        ensures err { OnErr result (IsAsItWas self.old self.new) }
        ensures faults { self.new.faults ≡ self.old.faults }
    {
        shorten(&mut self.file, len)?;
        self.len = self.len.min(len);
        self.filled = self.filled.min(len);
        Ok(())
    }
}

impl<F: HostFile> Disk for FileDisk<F> {
    ghost use Rattle.std.specs.Prelude.{[], ◌-◌};

    ghost tells = { ⊥ };

    ghost seen = { λ d. [] };

    ghost may_leave = { λ d image. ⊥ };

    ghost moment = { λ d. 0 };

    ghost left_at = { λ d t image. ⊥ };

    ghost fault_count = { λ d. d.faults };

    ghost calls = { λ d. 0 };

    ghost which = { λ d. 0 };

    ghost counts_now = { λ d image told. absurd told };

    ghost only_now = { λ d image told. absurd told };

    fn faults(&self) -> u64 {
        self.faults
    }

    fn len(&mut self) -> Result<u64, Failed>
        ensures length { result ≡ Ok self.old.len }
        ensures bound { IfOk result (λ n. n < 2 ^ 63) }
        ensures stays { self.new ≡ self.old }
    {
        Ok(self.len)
    }

    // Not the zeros behind what the disk holds.
    fn read(&mut self, at: u64, buf: &mut [u8]) -> Result<usize, Failed>
        ensures bytes { IfOk result (λ n. n ≤ min (length buf.old) (self.old.len - at)) }
        ensures told { IfOk result (λ n. IfSome (shown self.old) (λ seen.
            ReadsAll at n seen buf.new)) }
        ensures stays { IsAsItWas self.old self.new }
        ensures counted { self.new.faults ≡ faults_after result self.old.faults }
        ensures cause { HasCause self.old.faults self.new.faults result }
    {
        let count = buf.len().min(self.len.saturating_sub(at) as usize);
        let answer = fill(&mut self.file, at, &mut buf[..count]);
        self.counted(answer)
    }

    fn write_at(&mut self, at: u64, bytes: &[u8]) -> Result<(), Failed>
        ensures ok { OnOk result (Grew at (at + length bytes.now) self.old self.new) }
        ensures room { OnOk result (at + length bytes.now < 2 ^ 63) }
        ensures puts { OnOk result (Puts at bytes.now (shown self.old) (shown self.new)) }
        ensures err { OnErr result (IsAsLong self.old self.new) }
        ensures counted { self.new.faults ≡ faults_after result self.old.faults }
        ensures cause { HasCause self.old.faults self.new.faults result }
    {
        let answer = self.put(at, bytes);
        self.counted(answer)
    }

    fn write_pieces(&mut self, at: u64, head: &[u8], body: &[u8], tail: &[u8]) -> Result<(), Failed>
        ensures ok { OnOk result
            (Grew at (at + length (head.now ++ body.now ++ tail.now)) self.old self.new) }
        ensures room { OnOk result (at + length (head.now ++ body.now ++ tail.now) < 2 ^ 63) }
        ensures puts { OnOk result
            (Puts at (head.now ++ body.now ++ tail.now) (shown self.old) (shown self.new)) }
        ensures err { OnErr result (IsAsLong self.old self.new) }
        ensures counted { self.new.faults ≡ faults_after result self.old.faults }
        ensures cause { HasCause self.old.faults self.new.faults result }
    {
        let answer = self.put_pieces(at, head, body, tail);
        self.counted(answer)
    }

    fn cut(&mut self, len: u64) -> Result<(), Failed>
        ensures ok { OnOk result (Shrank len self.old self.new) }
        ensures err { OnErr result (IsAsItWas self.old self.new) }
        ensures counted { self.new.faults ≡ faults_after result self.old.faults }
        ensures cause { HasCause self.old.faults self.new.faults result }
    {
        let answer = self.shorten(len);
        self.counted(answer)
    }

    fn sync(&mut self) -> Result<(), Failed>
        ensures synced { OnOk result (IfSome self.new.waits (λ is. is ≡ false)) }
        ensures stays { IsAsItWas self.old self.new }
        ensures counted { self.new.faults ≡ faults_after result self.old.faults }
        ensures cause { HasCause self.old.faults self.new.faults result }
    {
        let answer = self.file.sync();
        self.counted(answer)
    }
}
