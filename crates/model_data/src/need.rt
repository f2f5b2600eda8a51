//! What a database call needs before it is made.
use tm_types::{Key, Mode};

/// What a database call needs: a record, there or not, or the sequence of the roots of its database.
#[derive(Clone, Copy, Debug)]
pub struct Need {
    /// The root key of the record; None for the sequence of the roots.
    pub root: Option<Key>,
    pub mode: Mode,
}
