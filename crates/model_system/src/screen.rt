//! Message formats, and the terminals that have one.
use crate::Format;
use tm_types::Name;

/// A message format under its name.
#[derive(Debug, Drop)]
pub struct SystemFormat {
    pub name: Name,
    pub format: Format,
}

/// A terminal that has a format: a NAME with FORMAT.
#[derive(Clone, Copy, Debug)]
pub struct Screen {
    pub terminal: Name,
    /// The name of the format.
    pub format: Name,
}
