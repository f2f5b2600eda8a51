//! The rules of a format's lines that aren't those of `text_rows`, by their numbers.

/// A macro that may not stand where it does.
pub const OUT_OF_PLACE: u8 = 10;
/// The text has no END, and so the format no FMTEND.
pub const END_MISSING: u8 = 13;
