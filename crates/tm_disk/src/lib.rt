//! A disk of sectors: as contracts see it, in memory, and in a file.
//!
//! `specs/Disk` says what a read shows and what a crash at some moment leaves: of the writes that no sync has followed
//! any may be on the disk after a stop, or none, each sector whole; one that was synced stays. What follows from these
//! words alone stands in proofs/. `disk` has the trait, `mem_disk` the disk in memory, which fails and is cut off as it
//! is told (`plan`), and keeps each write in a record (`record`, `images`); `file_disk` has the one in a file, which
//! tells nothing of its contents and is trusted.
//!
//! Proved: a call fails exactly where the count of faults rose. The disk in memory is such a disk, exactly
//! (specs/Moments): a failed write is among what a crash may leave, and on a stopped disk nothing more is; to arm it
//! changes nothing else; only growths that were refused count as starved. Its reads and syncs fail exactly where they
//! are told to; its writes there, where its record is full, and for want of memory.
#![tactic(auto)]

mod contents;
mod disk;
mod file_disk;
mod images;
mod mem_disk;
mod plan;
mod record;
mod sector;

pub use disk::{Disk, DiskFault, Failed};
pub use file_disk::FileDisk;
pub use mem_disk::MemDisk;
pub use sector::{SECTOR_BYTES, Sector};
