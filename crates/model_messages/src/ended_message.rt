//! A message that a program has ended.
use tm_types::{Name, Segments};

/// A message that a program has ended.
#[derive(Debug, Drop)]
pub struct EndedMessage {
    /// The terminal or the code to which it goes.
    pub to: Name,
    pub segments: Segments,
}
