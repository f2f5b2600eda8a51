//! Why the values of a screen are refused.
ghost use Rattle.std.specs.Prelude.{◌≡◌};
ghost use Rattle.mfs_edit.specs.declared.refused.EditRefused.TheVariants.{Memory};

use std::alloc::{AllocError, AllocFailed};
use thiserror::Error;
use tm_types::Name;

/// Why the values of a screen are refused.
#[derive(Debug, Drop, Error)]
pub enum EditRefused {
    /// The first name under which a value was given and that is no field of the format.
    #[error("{0:?} is no field")]
    UnknownField(Name),
    #[error("no memory")]
    Memory,
}

impl From<AllocError> for EditRefused {
    ghost from_gives = { λ _ e. e ≡ Memory };

    fn from(_error: AllocError) -> EditRefused {
        EditRefused::Memory
    }
}

impl<T: Drop> From<AllocFailed<T>> for EditRefused {
    ghost from_gives = { λ _ e. e ≡ Memory };

    fn from(_error: AllocFailed<T>) -> EditRefused {
        EditRefused::Memory
    }
}
