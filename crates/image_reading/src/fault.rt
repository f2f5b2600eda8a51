//! Why an image wasn't read.
use thiserror::Error;

/// Why an image wasn't read.
#[derive(Clone, Copy, Debug, Drop, Error, PartialEq, Eq)]
pub enum ReadFault {
    /// The lowest rule that is broken, and of it the lowest sector.
    #[error("rule {0} is broken in sector {1}")]
    Bad(u8, u32),
    /// The disk failed at a read, and its count of faults rose.
    #[error("the disk failed")]
    Disk,
    /// There was no memory. No read failed before.
    #[error("no memory")]
    Memory,
}
