//! Why a text is refused.
ghost use Rattle.std.specs.Prelude.{◌≡◌};
ghost use Rattle.text_rows.specs.declared.refused.LineRefused.TheVariants.{Memory};

use std::alloc::{AllocError, AllocFailed};
use thiserror::Error;

/// Why a text is refused.
#[derive(Debug, Drop, Error)]
pub enum LineRefused {
    /// The lowest line that breaks a rule, and the lowest rule that it breaks.
    #[error("line {0} breaks rule {1}")]
    BadLine(u32, u8),
    #[error("no memory")]
    Memory,
}

impl From<AllocError> for LineRefused {
    ghost from_gives = { λ _ e. e ≡ Memory };

    fn from(_error: AllocError) -> LineRefused {
        LineRefused::Memory
    }
}

impl<T: Drop> From<AllocFailed<T>> for LineRefused {
    ghost from_gives = { λ _ e. e ≡ Memory };

    fn from(_error: AllocFailed<T>) -> LineRefused {
        LineRefused::Memory
    }
}
