//! The messages of a conversation.
ghost use Rattle.std.specs.Prelude.{◌≡◌};
ghost use Rattle.model_messages.specs.ConversationInput.{is_conversing};

use tm_types::{Message, Name};

/// Whether a message belongs to the terminal's conversation.
pub fn is_conversing(terminal: &Name, message: &Message) -> bool
    ensures { result ≡ is_conversing terminal.now message.now }
{
    &message.origin == terminal && message.conversation
}
