//! What a restart reads of a disk, step by step. Nothing is written, and each answer is told exactly of the disk as it
//! reads.
//!
//! - `text`: the first place where the text of the definition differs.
//! - `later`: the first log sector of a later life.
//! - The records of the snapshot, or the lowest rule that is broken (`read_told`).
//! - `area`, `reading`: the log's records, whether what is left behind them is cut off, and the sequence behind the
//!   log. Each sector of the area is read once, and its bytes are cut into records once.
//! - `rest`, `parts`: whether what is left of a log behind its last record is the front of the one spelling of some
//!   record, without its end, is decided exactly. A record's layout is a list of parts; each byte leads to what may
//!   stand behind it (specs/RecordParts), and what is missing has one of the lengths that are left.
//! - `giving`: what the records say of each slot, by database (proofs/Given).
//!
//! That the rest is decided, and that a snapshot's records keep their rules, holds on every disk; the former is needed
//! where a rule on the snapshot is broken, too: what an image recovers to says it of each image.
#![tactic(auto)]

mod area;
mod fault;
mod giving;
mod later;
mod parts;
mod reading;
mod rest;
mod snapshot;
mod text;

pub use fault::ReadFault;
pub use giving::given_of;
pub use later::first_later;
pub use reading::{LogFault, read_log};
pub use snapshot::read_told;
pub use text::text_difference;
