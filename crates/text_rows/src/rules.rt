//! The rules that texts share, by their numbers.

/// A word that is no macro's.
pub const UNKNOWN_MACRO: u8 = 1;
/// An operand that the macro doesn't have.
pub const UNKNOWN_OPERAND: u8 = 2;
/// An operand that stands twice.
pub const OPERAND_TWICE: u8 = 3;
/// An operand without a default that is missing.
pub const OPERAND_MISSING: u8 = 4;
/// A value that is no number.
pub const NO_NUMBER: u8 = 5;
/// A number out of its range.
pub const OUT_OF_RANGE: u8 = 6;
/// A value that is no name.
pub const NO_NAME: u8 = 7;
/// A value that is no list, or a list of another length.
pub const WRONG_LIST: u8 = 8;
/// A word that isn't allowed.
pub const WRONG_WORD: u8 = 9;
/// A byte that isn't printable.
pub const NOT_PRINTABLE: u8 = 11;
