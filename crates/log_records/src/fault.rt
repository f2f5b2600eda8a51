//! Why bytes don't begin with a record.
ghost use Rattle.std.specs.Prelude.{◌≡◌};
ghost use Rattle.log_records.specs.declared.fault.ReadFault.TheVariants.{Memory};

use std::alloc::{AllocError, AllocFailed};
use thiserror::Error;

/// The bytes end before the record does. The place is their length.
pub(crate) const ENDS: u8 = 1;
/// No record has this code, or this kind. The place is that of the code or the kind.
pub(crate) const UNKNOWN: u8 = 2;
/// A field is out of its range. The place is that of the number or the byte that is.
pub(crate) const OUT_OF_RANGE: u8 = 3;
/// The length that the record names is another than that of its fields. The place is where the fields end.
pub(crate) const LENGTH: u8 = 4;

/// Why bytes don't begin with a record.
#[derive(Debug, Drop, Error)]
pub enum DecodeFault {
    /// The rule that is broken, and the lowest place where one is, counted from 0: rule 1, the
    /// bytes end before the record does; 2, an unknown code or kind; 3, a field out of its range;
    /// 4, a length that doesn't agree with the fields.
    #[error("rule {0} is broken at place {1}")]
    Bad(u8, usize),
    #[error("no memory")]
    Memory,
}

/// Why a field could not be read.
#[derive(Debug, Drop)]
pub(crate) enum ReadFault {
    /// The rule that is broken, and how many bytes there are from the fault on.
    Broken(u8, usize),
    Memory,
}

impl From<AllocError> for ReadFault {
    ghost from_gives = { λ _ e. e ≡ Memory };

    fn from(_error: AllocError) -> ReadFault {
        ReadFault::Memory
    }
}

impl<T: Drop> From<AllocFailed<T>> for ReadFault {
    ghost from_gives = { λ _ e. e ≡ Memory };

    fn from(_error: AllocFailed<T>) -> ReadFault {
        ReadFault::Memory
    }
}
