//! The end of a unit: what it sent and that its message is completed, or that its message is discarded, is appended to
//! the log. The program doesn't call it.
//!
//! Proved: the records of a completion, or of an abend, are spelled before anything is appended, and appended behind what was
//! before. Nothing is forced: whoever answers forces the log. Want of memory changes nothing. A completion has no effect without
//! its last record, the sync point.
#![tactic(auto)]

mod appending;
mod unit_records;

pub use appending::{abend, commit};
pub use unit_records::{Abended, Finished, OutputRecords};
