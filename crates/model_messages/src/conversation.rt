//! Conversations, and what the work on a message does to one.
use tm_types::{Bytes, Name};

/// A conversation.
#[derive(Debug, Drop)]
pub struct Conversation {
    /// The code that the messages of the conversation go to.
    pub code: Name,
    /// The code, padded with blanks to 8 bytes, and the work area.
    pub pad: Bytes,
}

/// A terminal with its conversation, if it has one.
#[derive(Debug, Drop)]
pub struct TerminalConversation {
    pub terminal: Name,
    pub conversation: Option<Conversation>,
}

/// What a sync point does with the scratch pad of the conversation.
#[derive(Debug, Drop)]
pub enum PadChange {
    /// The pad stays as it was, or there is none.
    Stays,
    /// The new pad: its code and work area.
    New(Bytes),
    /// The conversation ends.
    Ends,
}
