//! The end of a life.

use openings::Life;
use system_types::System;
use tm_disk::Disk;
use tm_types::Bytes;

/// A life that has ended, with its disk, and how often that had failed when it was opened.
#[derive(Drop)]
pub struct Closed<D: Disk> {
    pub disk: D,
    pub life: Life,
    pub system: System,
    pub text: Bytes,
    pub faults: u64,
}
