//! The restart sector and the snapshots of a disk: one sector says which snapshot and which log area hold.
//!
//! Proved: what was written is read again. Sector 0 and a snapshot are refused exactly where they break a rule, with
//! the lowest rule and of it the lowest sector (specs/Restart, Snapshot). Whenever a crash comes while the restart
//! sector is written, it is the one before or the new one, whole; once it is written, each image has the new one. A
//! snapshot's writing touches its own sectors alone, and neither takes anything from the other. A fault of the disk is
//! told as such, and want of memory hides none.
#![tactic(auto)]

mod fields;
mod gathered;
mod restart;
mod restart_sector;
mod snapshot;
mod snapshot_sector;

pub use fields::{all_zero, number8};
pub use restart::{RestartFault, RestartSector, read_restart, write_restart};
pub use snapshot::{SnapshotFault, read_snapshot, write_snapshot};
