//! Why a life doesn't begin.
use model_machine::Counter;
use thiserror::Error;

/// Why no life began.
#[derive(Debug, Drop, Error)]
pub enum OpenError {
    /// The lowest rule that the image breaks, and of it the lowest sector.
    #[error("rule {0} is broken in sector {1}")]
    BadImage(u8, u32),
    /// The image is of another definition. The first place that differs; a shorter text differs at its end.
    #[error("another definition from place {0} on")]
    WrongDefinition(u32),
    /// So many sectors are needed, and the disk has so many.
    #[error("{0} sectors are needed, and there are {1}")]
    TooSmall(u32, u32),
    /// A counter stands at 1,000,000,000,000,000,000 or above.
    #[error("a counter is spent")]
    Spent(Counter),
    /// The disk failed in the call, and its count of faults rose.
    #[error("the disk failed")]
    Disk,
    /// There was no memory. Nothing was written.
    #[error("no memory")]
    Memory,
}
