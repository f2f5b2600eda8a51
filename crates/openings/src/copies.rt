//! Copies of what is kept.
ghost use Rattle.std.specs.Prelude.{◌≡◌, ◌++◌, ◌∷◌, [], length, slice_get, IfOk, OnOk};
ghost use Rattle.std.specs.Option.{option_copied};
ghost use Rattle.model_messages.specs.Queue.{messages_of};
ghost use Rattle.openings.specs.OpeningState.{shown_state};

use image_records::Kept;
use model_machine::{CodeSetting, DatabaseRows, Lasting, TerminalState};
use model_messages::{Conversation, Replies, TerminalConversation, TerminalReplies};
use msg_queues::Queues;
use std::alloc::Global;
use std::collections::VecDeque;
use tm_types::{Memory, Message, Reply};

/// What lasts, a copy of what is kept, with these rows. `Memory` is the only refusal.
pub fn lasting_of(alloc: Global, kept: &Kept, rows: Vec<DatabaseRows>) -> Result<Lasting, Memory>
    ensures { IfOk result (λ lasting. lasting ≡ shown_state kept.now rows.items) }
{
    Ok(Lasting {
        rows,
        messages: messages_in(alloc, &kept.queues)?,
        next_id: kept.next_id,
        terminals: terminals_like(alloc, &kept.terminals)?,
        outputs: replies_like(alloc, kept.outputs.terminals())?,
        conversations: conversations_like(alloc, kept.conversations.terminals())?,
        codes: settings_like(alloc, &kept.codes)?,
        steps: kept.steps,
    })
}

// The messages of the queues, in the order of their ids.
fn messages_in(alloc: Global, queues: &Queues) -> Result<Vec<Message>, Memory>
    ensures { IfOk result (λ copy. copy.items ≡ messages_of queues.now.queued) }
{
    let mut copy = Vec::new(alloc);
    for queued in queues.by_id().values() {
        copy.push(queued.message.clone()?)?;
    }
    Ok(copy)
}

fn terminals_like(alloc: Global, terminals: &[TerminalState]) -> Result<Vec<TerminalState>, Memory>
    ensures { IfOk result (λ copy. copy.items ≡ terminals.now) }
{
    let mut copy = Vec::new(alloc);
    for terminal in terminals {
        copy.push(terminal_like(terminal))?;
    }
    Ok(copy)
}

fn terminal_like(terminal: &TerminalState) -> TerminalState
    ensures { result ≡ terminal.now }
{
    TerminalState {
        name: terminal.name,
        last: terminal.last,
        stopped: terminal.stopped,
    }
}

fn settings_like(alloc: Global, settings: &[CodeSetting]) -> Result<Vec<CodeSetting>, Memory>
    ensures { IfOk result (λ copy. copy.items ≡ settings.now) }
{
    Ok(Vec::from_slice(alloc, settings)?)
}

fn replies_like(
    alloc: Global,
    terminals: &[TerminalReplies],
) -> Result<Vec<TerminalReplies>, Memory>
    ensures { IfOk result (λ copy. copy.items ≡ terminals.now) }
{
    let mut copy = Vec::new(alloc);
    for terminal in terminals {
        copy.push(terminal_replies_like(alloc, terminal)?)?;
    }
    Ok(copy)
}

fn terminal_replies_like(
    alloc: Global,
    terminal: &TerminalReplies,
) -> Result<TerminalReplies, Memory>
    ensures { IfOk result (λ copy. copy ≡ terminal.now) }
{
    Ok(TerminalReplies {
        terminal: terminal.terminal,
        next: terminal.next,
        replies: all_replies_like(alloc, &terminal.replies)?,
    })
}

fn all_replies_like(alloc: Global, replies: &Replies) -> Result<Replies, Memory>
    ensures { IfOk result (λ copy. copy ≡ replies.now) }
{
    let mut items = VecDeque::new(alloc);
    for place in 0..count(replies) {
        let Some(reply) = reply_at(replies, place) else {
            unreachable!()
        };
        add_copy(&mut items, reply)?;
    }
    Ok(Replies { items })
}

fn add_copy(items: &mut VecDeque<Reply>, reply: &Reply) -> Result<(), Memory>
    ensures { OnOk result (items.new.items ≡ items.old.items ++ reply.now ∷ []) }
{
    items.push_back(reply.clone()?)?;
    Ok(())
}

fn count(replies: &Replies) -> usize
    ensures { result ≡ length replies.now }
{
    replies.items.len()
}

// The reply at this place.
fn reply_at(replies: &Replies, place: usize) -> Option<&Reply>
    ensures { option_copied result ≡ slice_get replies.now place }
{
    replies.items.get(place)
}

fn conversations_like(
    alloc: Global,
    terminals: &[TerminalConversation],
) -> Result<Vec<TerminalConversation>, Memory>
    ensures { IfOk result (λ copy. copy.items ≡ terminals.now) }
{
    let mut copy = Vec::new(alloc);
    for terminal in terminals {
        copy.push(terminal_conversation_like(terminal)?)?;
    }
    Ok(copy)
}

fn terminal_conversation_like(
    terminal: &TerminalConversation,
) -> Result<TerminalConversation, Memory>
    ensures { IfOk result (λ copy. copy ≡ terminal.now) }
{
    Ok(TerminalConversation {
        terminal: terminal.terminal,
        conversation: match &terminal.conversation {
            Some(conversation) => Some(conversation_like(conversation)?),
            None => None,
        },
    })
}

fn conversation_like(conversation: &Conversation) -> Result<Conversation, Memory>
    ensures { IfOk result (λ copy. copy ≡ conversation.now) }
{
    Ok(Conversation {
        code: conversation.code,
        pad: conversation.pad.clone()?,
    })
}
