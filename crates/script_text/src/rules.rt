//! The rules of a script line, by their numbers. A byte that isn't printable has the number that it
//! has in a definition.

/// The first word isn't one of the language; or, in an IF, the word between the texts, or the one
/// before the label.
pub const UNKNOWN_WORD: u8 = 1;
/// Operands are missing, or there are too many.
pub const WRONG_COUNT: u8 = 2;
/// An operand is no variable, no text or no segment search argument.
pub const WRONG_OPERAND: u8 = 3;
/// A literal isn't closed.
pub const OPEN_LITERAL: u8 = 4;
/// A label is no name, or stands nowhere.
pub const NO_LABEL: u8 = 5;
/// A label stands twice.
pub const LABEL_TWICE: u8 = 6;
/// An operand is no number, or one out of its range.
pub const WRONG_NUMBER: u8 = 7;
/// The program has more than 500 statements.
pub const TOO_MANY_STATEMENTS: u8 = 8;
/// The program has no ENDPROG.
pub const ENDPROG_MISSING: u8 = 9;
/// The function is unknown, or a PCB of this number can't have it.
pub const UNKNOWN_FUNCTION: u8 = 10;
