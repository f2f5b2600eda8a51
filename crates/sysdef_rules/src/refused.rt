//! Why a definition is refused.
use thiserror::Error;

/// Why a definition is refused.
#[derive(Debug, Drop, Error)]
pub enum CrossRefused {
    /// The lowest line that breaks the lowest rule that is broken, and this rule.
    #[error("line {0} breaks cross rule {1}")]
    BadCross(u32, u8),
    #[error("no memory")]
    Memory,
}
