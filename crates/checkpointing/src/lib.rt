//! Checkpoints: the log is forced, changed slots and a new snapshot are written, and the restart sector names the
//! snapshot and the other log area. And the records of a snapshot.
//!
//! `writing` spells a snapshot's records from what lasts of a machine and from what open units changed, without copies
//! of messages (`codes`, `terminals`, `messages`, `replies`, `steps`, `touches`); `checkpoint` takes a checkpoint.
//!
//! Proved of the records: what they tell is the state again, but for its rows, and the next unit; where that state
//! keeps the rules they break none (proofs/Read, Whole); and an image with them, no log and blank data recovers to it
//! (proofs/Begun). The bytes fit the sectors of a snapshot area, where each region has at most 32 changed records open
//! (proofs/Fits).
//!
//! Proved of a checkpoint: whenever a crash comes while it is taken, the image recovers to what lasted before, and a
//! front of its steps was done. Once it has answered, each image that a crash may leave has the restart sector that was
//! answered, with the next checkpoint, the other areas and the sequence behind the log; the new snapshot; no log behind
//! it; and each changed slot in its sectors. It writes the log's sectors, each sector of a changed slot once, the snapshot's
//! sectors and the restart sector, and takes no memory. What an image counts on, with bounds of it, is defined here
//! (specs/Counts).
#![tactic(auto)]

mod checkpoint;
mod codes;
mod messages;
mod replies;
mod steps;
mod terminals;
mod touches;
mod writing;

pub use checkpoint::{CheckFault, PartsView, take};
pub use steps::save_snapshot;
pub use touches::OpenUnit;
pub use writing::{SnapshotView, write, write_first};
