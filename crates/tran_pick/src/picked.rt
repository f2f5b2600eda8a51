//! What a region takes.

use tm_types::Name;

/// The message that a region takes.
#[derive(Clone, Copy, Debug, PartialEq, Eq)]
pub struct Pick {
    pub code: Name,
    pub id: u64,
}
