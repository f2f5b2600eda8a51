//! The log on sectors: a sector is sealed with the epoch and the sequence that belong to it (specs/SealedSector), and a
//! chain of them (specs/Chain) is read up to the first sector that isn't of it.
//!
//! Proved: that reading is exact; each fault of the disk is told as such, and want of memory hides none.
#![tactic(auto)]

mod chain;
mod log_sector;

pub use chain::{Chain, ChainFault, read_chain, read_chain_by};
pub use log_sector::{PAYLOAD_BYTES, reseal, seal};
