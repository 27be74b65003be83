//! Disks: the trait, a disk in memory that fails where it is told to, and a file.
//!
//! Between two syncs that succeed, each range that was written, and what lies past the old end, may
//! hold any bytes after a crash, and after a cut the length may be the old or the new one. All
//! other bytes stay. A call that fails leaves its range in the same doubt. After a sync that
//! succeeds, a crash leaves what a read gives.
//!
//! `Disk` says so by three facts: what a read gives, what a crash now may leave, and what a crash
//! at each moment up to now may have left. `MemDisk` meets them by replaying the calls that it
//! remembers. `FileDisk` is kept in a `HostFile`. Over a file of the system it is the trusted edge,
//! and tells none; its own calls say what they do to the bytes of a file that tells them.
#![tactic(auto)]

mod change;
mod disk;
mod file_calls;
mod file_disk;
mod foreign;
mod host_file;
mod laws;
mod length;
mod mem_disk;
mod pick;
mod saved;
mod steps;
#[cfg(test)]
mod tests;

pub use disk::{Disk, Failed};
pub use file_disk::FileDisk;
pub use foreign::MARK;
pub use host_file::HostFile;
pub use laws::worked_examples;
pub use mem_disk::MemDisk;
pub use pick::Pick;
