//! Why a database isn't loaded.
use thiserror::Error;

/// Why a database isn't loaded.
#[derive(Clone, Copy, Debug, Drop, Error, PartialEq, Eq)]
pub enum LoadFault {
    /// The lowest rule that a slot breaks: 20, with its first sector that says it holds more than 4,000 bytes, has other
    /// bytes than zeros behind them, or holds some behind one that isn't full; and with the first sector of the slot 21,
    /// bytes that are no record, and 22, a later slot has a record with the same root. A lower rule that another
    /// database breaks is the caller's to find.
    #[error("rule {0} is broken in sector {1}")]
    Bad(u8, u32),
    /// The disk failed at a read, and its count of faults rose.
    #[error("the disk failed")]
    Disk,
    /// There was no memory. No read failed before.
    #[error("no memory")]
    Memory,
}
