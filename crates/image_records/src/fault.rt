//! Why records weren't taken.
use thiserror::Error;

/// Why the records of a snapshot or of a log weren't taken.
#[derive(Clone, Copy, Debug, Drop, Error, PartialEq, Eq)]
pub enum RecordsFault {
    /// The lowest rule of an image that they break: 10 to 17 of a snapshot, 18 and 19 of a log.
    #[error("rule {0} is broken")]
    Bad(u8),
    /// There was no memory.
    #[error("no memory")]
    Memory,
}
