//! The conversations of all terminals.
ghost use Rattle.std.specs.Prelude.{◌≡◌, None, Some, map, IsSomeAnd, IsSome, OnOk, OnErr, IfOk, IfErr};
ghost use Rattle.std.specs.Option.{option_copied};
ghost use Rattle.model_messages.specs.Queue.{messages_of};
ghost use Rattle.model_messages.specs.Terminals.{without_conversation, conversation_at, pad_at, IsTerminal, with_terminal, with_conversation};
ghost use Rattle.model_messages.specs.Pads.{begun};
ghost use Rattle.conversation.specs.Changes.{with_new_pad};
ghost use Rattle.conversation.specs.Refusals.{RefusesPad, conversation_answer, update_fault, updated};
ghost use Rattle.model_messages.specs.ConversationInput.{busy_id};

use crate::pads::PadRefused;
use crate::{pads, table};
use model_messages::{Conversation, TerminalConversation};
use msg_queues::Queues;
use std::alloc::Global;
use std::marker::Model;
use thiserror::Error;
use tm_types::{Bytes, Memory, Name};

/// A message of the conversation is queued, or a region works on it.
#[derive(Clone, Copy, Debug, Error)]
#[error("message {id} of the conversation isn't done")]
pub struct Busy {
    pub id: u64,
}

/// The terminals of a system, each with its conversation or none.
#[derive(Debug, Drop)]
pub struct Conversations {
    terminals: Vec<TerminalConversation>,
    alloc: Global,
}

impl Model for Conversations {
    ghost use Rattle.std.specs.Prelude.{List};
    ghost use Rattle.model_messages.specs.declared.conversation.TerminalConversation.{TerminalConversation};

    ghost Value = { List TerminalConversation };

    ghost view = { λ c. c.terminals.items };
}

impl Conversations {
    /// These terminals, none of which has a conversation. `Memory` is the only refusal.
    pub fn none(alloc: Global, terminals: &[Name]) -> Result<Conversations, Memory>
        ensures { IfOk result (λ conversations. conversations ≡ map without_conversation terminals.now) }
    {
        Ok(Conversations {
            terminals: table::without_conversations(alloc, terminals)?,
            alloc,
        })
    }

    /// The terminals with their conversations, in the order of the definition.
    pub fn terminals(&self) -> &[TerminalConversation]
        ensures { result.now ≡ self.now }
    {
        &self.terminals
    }

    /// These terminals, each with its conversation or none. This takes no memory.
    pub fn of(alloc: Global, terminals: Vec<TerminalConversation>) -> Conversations
        ensures { result ≡ terminals.items }
    {
        Conversations { terminals, alloc }
    }

    /// The terminal begins a conversation of the code. Its pad is the code, padded with blanks to 8
    /// bytes, and `work` blanks. Where it answers `Memory`, nothing has changed.
    pub fn begin(&mut self, terminal: &Name, code: &Name, work: u16) -> Result<(), Memory>
        requires terminal { IsTerminal terminal.now self.old }
        requires without { conversation_at terminal.now self.old ≡ None }
        ensures ok { OnOk result (self.new ≡ with_terminal terminal.now (with_conversation (Some (begun code.now work))) self.old) }
        ensures err { OnErr result (self.new ≡ self.old) }
    {
        let begun = pads::begun(self.alloc, code, work)?;
        table::set(&mut self.terminals, terminal, Some(begun));
        Ok(())
    }

    /// The code to which an input of the terminal goes whatever its text, or None where the terminal
    /// has no conversation.
    ///
    /// While a message of the conversation is queued, or a region works on it, the input is refused
    /// with the message's id. A message is of the terminal's conversation where it came from the
    /// terminal and has the flag of conversations.
    pub fn input(&self, terminal: &Name, queues: &Queues) -> Result<Option<Name>, Busy>
        ensures { result ≡ conversation_answer (conversation_at terminal.now self.now) (busy_id terminal.now (messages_of queues.now.queued)) }
    {
        match table::conversation_of(&self.terminals, terminal) {
            Some(conversation) => answer(conversation, queues.busy_id(terminal)),
            None => Ok(None),
        }
    }

    /// The text becomes the pad of the terminal's conversation, padded with blanks or cut to the
    /// pad's length. Code and length of the conversation stay. A text with blanks in the place of the
    /// code ends the conversation.
    ///
    /// A text of fewer than 8 bytes is refused as `BadSpa(1)`, and one that begins with another code
    /// as `BadSpa(2)`. After a refusal nothing has changed.
    pub fn update(&mut self, terminal: &Name, pad: &[u8]) -> Result<(), PadRefused>
        requires terminal { IsTerminal terminal.now self.old }
        requires conversing { IsSome (conversation_at terminal.now self.old) }
        ensures ok { OnOk result (IsSomeAnd (conversation_at terminal.now self.old) (λ c. self.new ≡ with_terminal terminal.now (with_conversation (updated pad.now c)) self.old)) }
        ensures good { OnOk result (IsSomeAnd (conversation_at terminal.now self.old) (λ c. update_fault c.code pad.now ≡ None)) }
        ensures refused { IfErr result (λ refused. IsSomeAnd (conversation_at terminal.now self.old) (λ c. RefusesPad (update_fault c.code pad.now) refused)) }
        ensures err { OnErr result (self.new ≡ self.old) }
    {
        let Some(conversation) = table::conversation_of(&self.terminals, terminal) else {
            unreachable!()
        };
        let updated = pads::updated(self.alloc, conversation, pad)?;
        table::set(&mut self.terminals, terminal, updated);
        Ok(())
    }

    /// The terminal has this conversation, which was begun before. This takes no memory. Where there is
    /// no such terminal, nothing changes.
    pub fn place(&mut self, terminal: &Name, conversation: Conversation)
        ensures { self.new ≡ with_terminal terminal.now (with_conversation (Some conversation)) self.old }
    {
        table::set(&mut self.terminals, terminal, Some(conversation));
    }

    /// The conversation of the terminal has this pad, which is taken over. This takes no memory. Where
    /// there is no conversation, nothing changes.
    pub fn replace(&mut self, terminal: &Name, pad: Bytes)
        ensures { self.new ≡ with_terminal terminal.now (with_new_pad pad) self.old }
    {
        table::set_pad(&mut self.terminals, terminal, pad);
    }

    /// The conversation of the terminal; None exactly where it has none.
    pub fn conversation(&self, terminal: &Name) -> Option<&Conversation>
        ensures { option_copied result ≡ conversation_at terminal.now self.now }
    {
        table::conversation_of(&self.terminals, terminal)
    }

    /// Ends the conversation of the terminal. This takes no memory. Where it has none, nothing changes.
    pub fn end(&mut self, terminal: &Name)
        ensures { self.new ≡ with_terminal terminal.now (with_conversation None) self.old }
    {
        table::set(&mut self.terminals, terminal, None);
    }

    /// The pad of the terminal's conversation: its code and the work area. None exactly where the
    /// terminal has no conversation.
    pub fn pad(&self, terminal: &Name) -> Option<&[u8]>
        ensures { option_copied result ≡ pad_at terminal.now self.now }
    {
        match table::conversation_of(&self.terminals, terminal) {
            Some(conversation) => Some(conversation.pad.as_slice()),
            None => None,
        }
    }
}

fn answer(conversation: &Conversation, busy: Option<u64>) -> Result<Option<Name>, Busy>
    ensures { result ≡ conversation_answer (Some conversation.now) busy }
{
    match busy {
        Some(id) => Err(Busy { id }),
        None => Ok(Some(conversation.code)),
    }
}
