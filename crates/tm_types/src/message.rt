//! Messages to programs, and replies to terminals.
use crate::{Name, Segments};

/// A message on its way to a program.
#[derive(Clone, Debug, Drop)]
pub struct Message {
    /// Counted from 1 over all messages of the system.
    pub id: u64,
    /// The terminal that the message, or the one that it was switched from, came from.
    pub origin: Name,
    /// The transaction code.
    pub code: Name,
    /// Whether the message belongs to a conversation.
    pub conversation: bool,
    pub segments: Segments,
}

/// A reply to a terminal.
#[derive(Clone, Debug, Drop)]
pub struct Reply {
    /// Counted from 1 over all replies of the terminal.
    pub number: u64,
    pub segments: Segments,
}
