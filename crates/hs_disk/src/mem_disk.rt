//! A disk in memory, whose changing calls fail where it is told to.
ghost use Rattle.std.specs.Prelude.{◌≡◌, ◌+◌, ◌^◌, ◌<◌, ◌≤◌, [], length, min, take, IfOk, OnOk, OnErr};
ghost use Rattle.hs_disk.specs.Disk.{written};

use crate::change::Change;
use crate::length::{MAX_LEN, joined_len};
use crate::pick::Pick;
use crate::saved::Saved;
use crate::steps::{overwrite, pick_on, read_on};
use crate::{Disk, Failed};
use fault_count::raised;
use std::alloc::{AllocError, Global};
use std::marker::Model;

#[derive(Drop)]
pub struct MemDisk {
    alloc: Global,
    first: Vec<u8>,
    changes: Vec<Change>,
    bytes: Vec<u8>,
    fail_at: Vec<u64>,
    calls: u64,
    faults: u64,
    short: bool,
}

impl Model for MemDisk {
    ghost use Rattle.hs_disk.specs.Held.{Held};

    ghost Value = { Held };

    ghost use Rattle.hs_disk.specs.Sound.{IsSound};
    ghost use Rattle.hs_disk.specs.Inside.{held};

    ghost view = { held };

    ghost invariant = { λ d. IsSound (held d) };
}

impl MemDisk {
    ghost use Rattle.hs_disk.specs.declared.change.Change.TheVariants.{Wrote, CutTo, Synced};
    ghost use Rattle.hs_disk.specs.Held.{made, carried_out, out_of_memory, next_count, FailsWith, is_to_fail, IsFailed};
    ghost use Rattle.hs_disk.specs.Picks.{IsWithin, picked};
    ghost use Rattle.hs_disk.specs.Sound.{IsSound, left_at};

    /// A disk with these bytes, all of them synced, whose changing calls with these numbers fail.
    pub fn of(alloc: Global, bytes: &[u8], fail_at: &[u64]) -> Result<MemDisk, AllocError>
        ensures { IfOk result (λ disk. disk ≡ made bytes.now fail_at.now) }
    {
        if bytes.len() as u64 > MAX_LEN {
            return Err(AllocError);
        }
        Ok(MemDisk {
            alloc,
            first: bytes.to_vec(alloc)?,
            changes: Vec::new(alloc),
            bytes: bytes.to_vec(alloc)?,
            fail_at: fail_at.to_vec(alloc)?,
            calls: 0,
            faults: 0,
            short: false,
        })
    }

    /// What a read of the whole disk gives.
    pub fn bytes(&self) -> &[u8]
        ensures { result.now ≡ self.now.bytes }
    {
        &self.bytes
    }

    /// How many changing calls the disk was asked for.
    pub fn changing_calls(&self) -> u64
        ensures { result ≡ self.now.calls }
    {
        self.calls
    }

    /// Whether the disk was refused memory. From then on each changing call fails.
    pub fn short(&self) -> bool
        ensures { result ≡ self.now.short }
    {
        self.short
    }

    /// A disk with what a crash may have left of this one after so many changing calls, or after
    /// all that it remembers, where they are fewer.
    pub fn image(&self, moment: u64, pick: Pick) -> Result<MemDisk, AllocError>
        ensures picked { IfOk result (λ disk. disk ≡ made (picked pick self.now.first
            (take (min moment (length self.now.changes)) self.now.changes)) []) }
        ensures left { IfOk result (λ disk.
            left_at self.now (min moment (length self.now.changes)) disk.bytes) }
    {
        let count = (moment as usize).min(self.changes.len());
        let mut seen = self.first.as_slice().to_vec(self.alloc)?;
        let mut left = self.first.as_slice().to_vec(self.alloc)?;
        for change in &self.changes[..count] {
            pick_on(self.alloc, pick, change, &seen, &mut left)?;
            read_on(change, &mut seen)?;
        }
        MemDisk::of(self.alloc, &left, &[])
    }

    // Whether the next changing call is one of those that fail.
    fn is_to_fail(&self) -> bool
        ensures fails { result ≡ is_to_fail self.now }
        ensures sound { IsSound self.now }
    {
        let number = raised(self.calls);
        self.short || self.fail_at.as_slice().contains(&number)
    }

    // Counts a changing call that fails, and remembers it where there is memory.
    fn fail(&mut self, change: Change) -> Failed
        requires failed { IsFailed change }
        requires within { IsWithin change self.old.bytes }
        ensures new { FailsWith change self.old self.new }
        ensures calls { self.new.calls ≡ next_count self.old.calls }
        ensures was_sound { IsSound self.old }
        ensures sound { IsSound self.new }
    {
        if self.short || self.changes.push(change).is_err() {
            return self.run_short();
        }
        self.calls = raised(self.calls);
        self.faults = raised(self.faults);
        Failed
    }

    // Counts a changing call that fails for want of memory.
    fn run_short(&mut self) -> Failed
        ensures new { self.new ≡ out_of_memory self.old }
        ensures was_sound { IsSound self.old }
        ensures sound { IsSound self.new }
    {
        self.short = true;
        self.calls = raised(self.calls);
        self.faults = raised(self.faults);
        Failed
    }

    // Writes, or changes nothing.
    fn try_write(&mut self, at: u64, saved: Saved) -> Result<(), AllocError>
        requires place { at ≤ length self.old.bytes }
        requires bound { at + length saved < 2 ^ 63 }
        ensures ok { OnOk result
            (self.new ≡ carried_out self.old (Wrote at saved) (written at saved self.old.bytes)) }
        ensures err { OnErr result (self.new ≡ self.old) }
        ensures sound { IsSound self.new }
    {
        self.changes.reserve(1)?;
        overwrite(&mut self.bytes, at as usize, saved.as_slice())?;
        self.changes.push_reserved(Change::Wrote(at, saved));
        self.calls = raised(self.calls);
        Ok(())
    }

    // Cuts, or changes nothing.
    fn try_cut(&mut self, len: u64) -> Result<(), AllocError>
        ensures ok { OnOk result
            (self.new ≡ carried_out self.old (CutTo len) (take len self.old.bytes)) }
        ensures err { OnErr result (self.new ≡ self.old) }
        ensures sound { IsSound self.new }
    {
        self.changes.push(Change::CutTo(len))?;
        self.bytes.truncate(len as usize);
        self.calls = raised(self.calls);
        Ok(())
    }

    // Syncs, or changes nothing.
    fn try_sync(&mut self) -> Result<(), AllocError>
        ensures ok { OnOk result (self.new ≡ carried_out self.old Synced self.old.bytes) }
        ensures err { OnErr result (self.new ≡ self.old) }
        ensures sound { IsSound self.new }
    {
        self.changes.push(Change::Synced)?;
        self.calls = raised(self.calls);
        Ok(())
    }
}

impl Disk for MemDisk {
    ghost use Rattle.std.specs.Prelude.{◌≡◌, ◌↔◌, ◌≤◌, ◌++◌, ◌||◌, length, take, IsTrue, Ok, IsOkAnd, OnOk, OnErr};
    ghost use Rattle.std.specs.Result.{is_err};
    ghost use Rattle.hs_disk.specs.declared.change.Change.TheVariants.{CutTo, LostCut, Synced, Lost};
    ghost use Rattle.hs_disk.specs.Disk.{Cut, Fills, Follows, AddsNone, Only};
    ghost use Rattle.hs_disk.specs.Held.{carried_out, next_count, FailsWith, is_to_fail};
    ghost use Rattle.hs_disk.specs.Writes.{Writes};
    ghost use Rattle.hs_disk.specs.Sound.{IsSound, images, left_at};
    ghost use Rattle.hs_disk.specs.Sound as sound;

    ghost tells = { Unit {0} };

    ghost seen = { λ d. d.bytes };

    ghost may_leave = { images };

    ghost moment = { λ d. length d.changes };

    ghost left_at = { left_at };

    ghost fault_count = { λ d. d.faults };

    ghost calls = { λ d. d.calls };

    ghost which = { λ d. 0 };

    ghost counts_now = { λ d image told now. sound.counts_now d.first d.changes image now };

    ghost only_now = { λ d image told left. sound.only_now d.first d.changes image left };

    fn faults(&self) -> u64 {
        self.faults
    }

    // It never fails.
    fn len(&mut self) -> Result<u64, Failed>
        ensures length { result ≡ Ok (length self.old.bytes) }
        ensures stays { self.new ≡ self.old }
        ensures sound { IsSound self.old }
    {
        Ok(self.bytes.len() as u64)
    }

    // It never fails.
    fn read(&mut self, at: u64, buf: &mut [u8]) -> Result<usize, Failed>
        ensures bytes { IsOkAnd result (λ n. Fills self.old.bytes at n buf.old buf.new) }
        ensures stays { self.new ≡ self.old }
        ensures sound { IsSound self.old }
    {
        let at = (at as usize).min(self.bytes.len());
        let count = buf.len().min(self.bytes.len() - at);
        buf[..count].copy_from_slice(&self.bytes[at..at + count]);
        Ok(count)
    }

    fn write_at(&mut self, at: u64, bytes: &[u8]) -> Result<(), Failed>
        requires { at ≤ length self.old.bytes }
        ensures writes { Writes at bytes.now self.old self.new result }
        ensures calls { self.new.calls ≡ next_count self.old.calls }
    {
        self.write_pieces(at, &[], bytes, &[])
    }

    fn write_pieces(&mut self, at: u64, head: &[u8], body: &[u8], tail: &[u8]) -> Result<(), Failed>
        requires { at ≤ length self.old.bytes }
        ensures writes { Writes at (head.now ++ body.now ++ tail.now) self.old self.new result }
        ensures calls { self.new.calls ≡ next_count self.old.calls }
    {
        let Some(len) = joined_len(at, head, body, tail) else {
            return Err(self.fail(Change::Lost));
        };
        if self.is_to_fail() {
            return Err(self.fail(Change::LostWrite(at, len)));
        }
        match Saved::joined(self.alloc, head, body, tail) {
            Err(AllocError) => Err(self.run_short()),
            Ok(saved) => match self.try_write(at, saved) {
                Err(AllocError) => Err(self.run_short()),
                Ok(()) => Ok(()),
            },
        }
    }

    fn cut(&mut self, len: u64) -> Result<(), Failed>
        ensures ok { OnOk result
            (self.new ≡ carried_out self.old (CutTo len) (take len self.old.bytes)) }
        ensures err { OnErr result (FailsWith (LostCut len) self.old self.new) }
        ensures fails { IsTrue (is_err result) ↔ IsTrue (is_to_fail self.old || self.new.short) }
        ensures calls { self.new.calls ≡ next_count self.old.calls }

        // What a crash may leave.
        ensures crash { Follows (Cut len) (images self.old) (images self.new) }
        ensures was_sound { IsSound self.old }
        ensures sound { IsSound self.new }
    {
        if self.is_to_fail() {
            return Err(self.fail(Change::LostCut(len)));
        }
        match self.try_cut(len) {
            Ok(()) => Ok(()),
            Err(AllocError) => Err(self.run_short()),
        }
    }

    fn sync(&mut self) -> Result<(), Failed>
        ensures ok { OnOk result (self.new ≡ carried_out self.old Synced self.old.bytes) }
        ensures err { OnErr result (FailsWith Lost self.old self.new) }
        ensures fails { IsTrue (is_err result) ↔ IsTrue (is_to_fail self.old || self.new.short) }
        ensures calls { self.new.calls ≡ next_count self.old.calls }

        // What a crash may leave.
        ensures durable { OnOk result (Only self.old.bytes (images self.new)) }
        ensures crash { AddsNone (images self.old) (images self.new) }
        ensures was_sound { IsSound self.old }
        ensures sound { IsSound self.new }
    {
        if self.is_to_fail() {
            return Err(self.fail(Change::Lost));
        }
        match self.try_sync() {
            Ok(()) => Ok(()),
            Err(AllocError) => Err(self.run_short()),
        }
    }
}
