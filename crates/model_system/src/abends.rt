//! The numbers of the abnormal ends that a script can come to besides those that it asks for.

/// One statement more than the limit.
pub const TOO_MANY_STATEMENTS: u16 = 240;

const _: () = prove!(TOO_MANY_STATEMENTS == 240);
/// A sum or difference of texts that aren't 1 to 18 digits, or a result that has no such text.
pub const WRONG_ARITHMETIC: u16 = 901;

const _: () = prove!(WRONG_ARITHMETIC == 901);
