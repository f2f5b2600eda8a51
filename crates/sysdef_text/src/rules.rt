//! The rules of a definition's lines, by their numbers, besides those of a macro's operands.

/// A macro that may not stand where it does.
pub const OUT_OF_PLACE: u8 = 10;
/// The text passes its limit.
pub const TEXT_TOO_LONG: u8 = 12;
/// The text has no END.
pub const END_MISSING: u8 = 13;
/// IMSCTRL isn't the first macro, or stands twice.
pub const CONTROL_NOT_FIRST: u8 = 14;
