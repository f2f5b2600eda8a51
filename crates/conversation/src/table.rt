//! The terminals of a system by their names.
ghost use Rattle.std.specs.Prelude.{◌≡◌, map, position, IfOk};
ghost use Rattle.std.specs.Option.{option_copied};
ghost use Rattle.model_messages.specs.Terminals.{without_conversation, is_conversation_of, conversation_at, with_terminal, with_conversation};
ghost use Rattle.conversation.specs.Changes.{with_new_pad};

use model_messages::{Conversation, TerminalConversation};
use std::alloc::Global;
use tm_types::{Bytes, Memory, Name};

/// These terminals without conversations.
pub fn without_conversations(
    alloc: Global,
    terminals: &[Name],
) -> Result<Vec<TerminalConversation>, Memory>
    ensures { IfOk result (λ made. made.items ≡ map without_conversation terminals.now) }
{
    terminals
        .iter()
        .map(|name| without_conversation(name))
        .collect(alloc)
}

fn without_conversation(name: &Name) -> TerminalConversation
    ensures { result ≡ without_conversation name.now }
{
    TerminalConversation {
        terminal: *name,
        conversation: None,
    }
}

fn is_of(name: &Name, kept: &TerminalConversation) -> bool
    ensures { result ≡ is_conversation_of name.now kept.now }
{
    &kept.terminal == name
}

fn position(terminals: &[TerminalConversation], name: &Name) -> Option<usize>
    ensures { result ≡ position (is_conversation_of name.now) terminals.now }
{
    terminals.iter().position(|kept| is_of(name, kept))
}

/// The conversation of the terminal of this name, where it has one.
pub fn conversation_of<'a>(
    terminals: &'a [TerminalConversation],
    name: &Name,
) -> Option<&'a Conversation>
    ensures { option_copied result ≡ conversation_at name.now terminals.now }
{
    match position(terminals, name) {
        Some(place) => shown(&terminals[place]),
        None => None,
    }
}

fn shown(kept: &TerminalConversation) -> Option<&Conversation>
    ensures { option_copied result ≡ kept.now.conversation }
{
    match &kept.conversation {
        Some(conversation) => Some(conversation),
        None => None,
    }
}

/// The terminal of this name has this conversation, or none. Where there is no such terminal, nothing
/// changes.
pub fn set(
    terminals: &mut Vec<TerminalConversation>,
    name: &Name,
    conversation: Option<Conversation>,
)
    ensures { terminals.new.items ≡ with_terminal name.now (with_conversation conversation) terminals.old.items }
{
    match position(terminals, name) {
        Some(place) => put(&mut terminals[place], conversation),
        None => {}
    }
}

fn put(kept: &mut TerminalConversation, conversation: Option<Conversation>)
    ensures { kept.new ≡ with_conversation conversation kept.old }
{
    kept.conversation = conversation;
}

/// The conversation of the terminal of this name has this pad. Where there is none, nothing changes.
pub fn set_pad(terminals: &mut Vec<TerminalConversation>, name: &Name, pad: Bytes)
    ensures { terminals.new.items ≡ with_terminal name.now (with_new_pad pad) terminals.old.items }
{
    match position(terminals, name) {
        Some(place) => put_pad(&mut terminals[place], pad),
        None => {}
    }
}

fn put_pad(kept: &mut TerminalConversation, pad: Bytes)
    ensures { kept.new ≡ with_new_pad pad kept.old }
{
    match kept.conversation.take() {
        Some(conversation) => put(
            kept,
            Some(Conversation {
                code: conversation.code,
                pad,
            }),
        ),
        None => {}
    }
}
