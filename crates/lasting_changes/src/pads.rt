//! What becomes of conversations.
ghost use Rattle.std.specs.Prelude.{◌≡◌};
ghost use Rattle.model_machine.specs.LastingSteps.{with_begun, with_pad_changed, discarded_pad};

use conversation::Conversations;
use model_messages::{Conversation, PadChange};
use tm_types::{Message, Name};

/// A conversation begins at the terminal, if one does.
pub fn begin(conversations: &mut Conversations, terminal: &Name, begins: Option<Conversation>)
    ensures { conversations.new ≡ with_begun terminal.now begins conversations.old }
{
    match begins {
        Some(conversation) => conversations.place(terminal, conversation),
        None => {}
    }
}

/// This becomes of the pad of the origin's conversation.
pub fn change_pad(conversations: &mut Conversations, origin: &Name, change: PadChange)
    ensures { conversations.new ≡ with_pad_changed change origin.now conversations.old }
{
    match change {
        PadChange::Stays => {}
        PadChange::New(pad) => conversations.replace(origin, pad),
        PadChange::Ends => conversations.end(origin),
    }
}

/// What becomes of the pad where this message is discarded: its conversation ends, if it belongs to one.
pub fn discarded_pad(message: &Message) -> PadChange
    ensures { result ≡ discarded_pad message.now }
{
    if message.conversation {
        PadChange::Ends
    } else {
        PadChange::Stays
    }
}
