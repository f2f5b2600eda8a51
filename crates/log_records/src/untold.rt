//! Why a call that tells in records what it changes did nothing.
ghost use Rattle.std.specs.Prelude.{◌≡◌};
ghost use Rattle.log_records.specs.declared.untold.Untold.TheVariants.{Memory};

use std::alloc::{AllocError, AllocFailed};
use thiserror::Error;

/// Why a call that tells in records what it changes did nothing.
#[derive(Clone, Copy, Debug, Error)]
pub enum Untold {
    /// No memory was left.
    #[error("no memory")]
    Memory,
    /// The records are longer than the room that they may take.
    #[error("no room for the records")]
    Full,
}

impl From<AllocError> for Untold {
    ghost from_gives = { λ _ e. e ≡ Memory };

    fn from(_error: AllocError) -> Untold {
        Untold::Memory
    }
}

impl<T: Drop> From<AllocFailed<T>> for Untold {
    ghost from_gives = { λ _ e. e ≡ Memory };

    fn from(_error: AllocFailed<T>) -> Untold {
        Untold::Memory
    }
}
