//! How a life begins.

/// How a life begins.
#[derive(Clone, Copy, Debug, PartialEq, Eq)]
pub enum How {
    /// With what the disk recovers to; an image of zeros is begun cold.
    Found,
    /// Empty, whatever the disk has.
    Cold,
}
