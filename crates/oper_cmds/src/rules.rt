//! The rules of commands, by their numbers. Of several that are broken the lowest is told.

/// A first word that is no command.
pub(crate) const UNKNOWN_VERB: u8 = 1;
/// A word that is none of the command's keywords.
pub(crate) const UNKNOWN_KEYWORD: u8 = 2;
/// Operands that are missing or too many.
pub(crate) const WRONG_OPERANDS: u8 = 3;
/// A word that is no name.
pub(crate) const NO_NAME: u8 = 4;
/// A word that is no number, or a number out of range.
pub(crate) const NO_NUMBER: u8 = 5;
