//! A message that was ended.
use tm_types::{Name, Segments};

/// A message that was ended, as it is lent.
#[derive(Debug, Drop)]
pub struct Output<'a> {
    /// The terminal or the code to which it goes.
    pub to: Name,
    pub segments: &'a Segments,
}
