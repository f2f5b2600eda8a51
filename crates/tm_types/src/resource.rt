//! What regions ask for, and how.
use crate::Key;

/// What a region holds until its unit ends: one database record, there or not, or the sequence
/// resource of a database.
#[derive(Clone, Copy, Debug, PartialEq, Eq, PartialOrd, Ord)]
pub struct Resource {
    /// The number of the database, counted from 1.
    pub db: u8,
    /// The root key of the record; None for the sequence resource.
    pub root: Option<Key>,
}

/// How a region holds a resource.
#[derive(Clone, Copy, Debug, PartialEq, Eq)]
pub enum Mode {
    /// Beside other shared holders.
    Shared,
    /// Alone.
    Exclusive,
}
