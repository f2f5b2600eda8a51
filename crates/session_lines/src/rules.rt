//! The rules of session lines, by their numbers. Of several that are broken the lowest is told.

/// A first word that the session doesn't know.
pub(crate) const UNKNOWN_WORD: u8 = 1;
/// Operands that are missing or too many.
pub(crate) const WRONG_OPERANDS: u8 = 2;
/// A word that is no number, or a number out of its range.
pub(crate) const NO_NUMBER: u8 = 3;
/// A word that is no name.
pub(crate) const NO_NAME: u8 = 4;
/// A `+` line that belongs to no line.
pub(crate) const NO_LINE: u8 = 5;
/// A byte that isn't printable.
pub(crate) const NOT_PRINTABLE: u8 = 6;
/// A field line without `=`.
pub(crate) const NO_EQUALS: u8 = 8;
