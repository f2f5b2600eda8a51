//! The writer of a log area: bytes are appended, and forced to the disk in sectors of their own.
//!
//! Proved: whenever a crash comes during a force, the chain of the area has gained a front of what was appended; once a
//! force has answered, all of it (specs/ForcedLog). A fault of the disk is told, and no force that answers has met one.
#![tactic(auto)]

mod lay;
mod log_writer;
mod seal;

pub use log_writer::LogWriter;
