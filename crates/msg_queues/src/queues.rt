//! The queues of all messages.
ghost use Rattle.std.specs.Prelude.{◌≡◌, ◌+◌, ◌<◌, ◌≤◌, ◌^◌, [], Some, None, OnOk, OnErr, IfErr, IsSomeAnd, IsSome, slice_get};
ghost use Rattle.std.specs.Option.{option_copied, option_and_then};
ghost use Rattle.std.specs.Map.{values_of};
ghost use Rattle.model_messages.specs.Room.{message_bytes, messages_bytes, input_needs};
ghost use Rattle.model_messages.specs.Queue.{IsNewId, AreInOrder, messages_of, queued_at, queued_message, with_message, with_holder, without_id_queued, first_free, free_count, any_held};
ghost use Rattle.model_messages.specs.ConversationInput.{busy_id};
ghost use Rattle.msg_queues.specs.FreeMessages.{any_free};
ghost use Rattle.msg_queues.specs.RefusedInput.{RefusesInput};

use crate::id_queue::IdQueue;
use crate::{entries, index};
use model_messages::Queued;
use std::alloc::{AllocFailed, Global};
use std::collections::BTreeMap;
use std::marker::Model;
use thiserror::Error;
use tm_types::{Message, Name, Segment};

/// The bytes that are kept free for each busy region.
pub const SLOT_ROOM: u64 = 65_536;

const _: () = prove!(SLOT_ROOM == 65_536);

/// Why an input isn't taken. Either way the message comes back.
#[derive(Debug, Drop, Error)]
pub enum QueueRefused {
    /// The bytes that the input needs, and the limit, which is less.
    #[error("{0} bytes are needed, and {1} may be used")]
    Full(u64, u64, Message),
    #[error("no memory")]
    Memory(Message),
}

/// The queues: messages in the order of their ids, each with the region that has it.
#[derive(Debug, Drop)]
pub struct Queues {
    limit: u32,
    content: u64,
    // How many messages no region has.
    free: u64,
    messages: BTreeMap<u64, Queued>,
    by_code: BTreeMap<Name, IdQueue>,
    by_terminal: BTreeMap<Name, IdQueue>,
    alloc: Global,
}

impl Model for Queues {
    ghost use Rattle.std.specs.Map.{values_of};
    ghost use Rattle.model_messages.specs.Queue.{QueuesState};
    ghost use Rattle.msg_queues.specs.KeptMessages.{AreMessagesKept};

    ghost Value = { QueuesState };

    ghost view = { λ q. record { limit = q.limit; queued = values_of q.messages.entries } };

    ghost invariant = { λ q. AreMessagesKept q.messages.entries q.content q.free q.by_code.entries q.by_terminal.entries };
}

impl Queues {
    /// No messages. They and the replies may take this many bytes. This takes no memory.
    pub fn new(alloc: Global, limit: u32) -> Queues
        ensures limit { result.limit ≡ limit }
        ensures empty { result.queued ≡ [] }
    {
        Queues {
            limit,
            content: 0,
            free: 0,
            messages: BTreeMap::new(alloc),
            by_code: BTreeMap::new(alloc),
            by_terminal: BTreeMap::new(alloc),
            alloc,
        }
    }

    /// Takes an input, which no region has yet.
    ///
    /// `busy` is the number of busy regions, and `replies` the bytes of all replies. The input is
    /// refused as `Full` exactly where all these and the messages here, with 65,536 bytes for each
    /// busy region but at least for one, pass the limit. After a refusal nothing has changed.
    pub fn accept(&mut self, message: Message, busy: u32, replies: u64) -> Result<(), QueueRefused>
        requires above { IsNewId message.id self.old.queued }
        requires fits { messages_bytes (messages_of self.old.queued) + message_bytes message + replies < 2 ^ 62 }
        ensures ok { OnOk result (self.new ≡ record self.old { queued = with_message message self.old.queued }) }
        ensures room { OnOk result (input_needs (messages_bytes (messages_of self.old.queued) + replies) (message_bytes message) busy ≤ self.old.limit) }
        ensures refused { IfErr result (RefusesInput self.old message busy replies) }
        ensures err { OnErr result (self.new ≡ self.old) }
    {
        let bytes = message.segments.counted_bytes();
        let needed = self.content + replies + bytes + SLOT_ROOM * u64::from(busy.max(1));
        let limit = u64::from(self.limit);
        if needed > limit {
            return Err(QueueRefused::Full(needed, limit, message));
        }
        match self.add(message) {
            Ok(()) => Ok(()),
            Err(failed) => Err(QueueRefused::Memory(failed.value)),
        }
    }

    /// Adds a switched message, whatever the limit is. Where no memory is left the message comes
    /// back and nothing has changed.
    pub fn add(&mut self, message: Message) -> Result<(), AllocFailed<Message>>
        requires above { IsNewId message.id self.old.queued }
        requires fits { messages_bytes (messages_of self.old.queued) + message_bytes message < 2 ^ 62 }
        ensures ok { OnOk result (self.new ≡ record self.old { queued = with_message message self.old.queued }) }
        ensures back { IfErr result (λ failed. failed.value ≡ message) }
        ensures err { OnErr result (self.new ≡ self.old) }
    {
        let bytes = message.segments.counted_bytes();
        let Ok(()) = index::put(
            &mut self.by_code,
            &mut self.by_terminal,
            self.alloc,
            &message,
        ) else {
            return Err(AllocFailed { value: message });
        };
        match entries::add(&mut self.messages, message) {
            Ok(()) => {
                self.content += bytes;
                self.free += 1;
                Ok(())
            }
            Err(failed) => {
                index::take(&mut self.by_code, &mut self.by_terminal, &failed.value);
                Err(failed)
            }
        }
    }

    /// The id of the code's first message that no region has, or None where there is none.
    pub fn first_free(&self, code: &Name) -> Option<u64>
        ensures value { result ≡ first_free code.now self.now.queued }
        ensures ordered { AreInOrder self.now.queued }
    {
        index::first_free(&self.by_code, code)
    }

    /// Whether there is a message that no region has.
    pub fn has_free(&self) -> bool
        ensures { result ≡ any_free self.now.queued }
    {
        self.free > 0
    }

    /// How many messages of the code no region has.
    pub fn waiting(&self, code: &Name) -> u64
        ensures { result ≡ free_count code.now self.now.queued }
    {
        index::free_count(&self.by_code, code) as u64
    }

    /// Whether a region has a message of the code.
    pub fn has_held(&self, code: &Name) -> bool
        ensures { result ≡ any_held code.now self.now.queued }
    {
        index::has_held(&self.by_code, code)
    }

    /// The id of the first message of the terminal's conversation, whether a region has it or none.
    pub fn busy_id(&self, terminal: &Name) -> Option<u64>
        ensures { result ≡ busy_id terminal.now (messages_of self.now.queued) }
    {
        index::first_free(&self.by_terminal, terminal)
    }

    /// The bytes of all messages.
    pub fn content(&self) -> u64
        ensures value { result ≡ messages_bytes (messages_of self.now.queued) }
        ensures small { result < 2 ^ 62 }
    {
        self.content
    }

    /// How many bytes messages and replies may take.
    pub fn limit(&self) -> u32
        ensures { result ≡ self.now.limit }
    {
        self.limit
    }

    /// Gives a message to a region. This takes no memory.
    pub fn hold(&mut self, id: u64, region: u32)
        requires { IsSomeAnd (queued_at id self.old.queued) (λ q. q.holder ≡ None) }
        ensures { self.new ≡ record self.old { queued = with_holder id (Some region) self.old.queued } }
    {
        let Some(code) = entries::set_holder(&mut self.messages, id, Some(region)) else {
            unreachable!()
        };
        self.free -= 1;
        index::set_held(&mut self.by_code, &code, id, true);
    }

    /// Takes a message back from its region; it keeps its place. This takes no memory.
    pub fn give_back(&mut self, id: u64)
        requires { IsSomeAnd (queued_at id self.old.queued) (λ q. IsSome q.holder) }
        ensures value { self.new ≡ record self.old { queued = with_holder id None self.old.queued } }
        ensures ordered { AreInOrder self.old.queued }
    {
        let Some(code) = entries::set_holder(&mut self.messages, id, None) else {
            unreachable!()
        };
        self.free += 1;
        index::set_held(&mut self.by_code, &code, id, false);
    }

    /// Removes a message, whether a region has it or none. This takes no memory.
    pub fn remove(&mut self, id: u64)
        requires { IsSome (queued_at id self.old.queued) }
        ensures { self.new ≡ record self.old { queued = without_id_queued id self.old.queued } }
    {
        let Some(queued) = entries::remove(&mut self.messages, id) else {
            unreachable!()
        };
        let Queued { message, holder } = queued;
        self.free -= entries::free_weight(holder);
        index::take(&mut self.by_code, &mut self.by_terminal, &message);
        self.content -= message.segments.counted_bytes();
    }

    /// The message of this id.
    pub fn find(&self, id: u64) -> Option<&Message>
        ensures { option_copied result ≡ queued_message id self.now.queued }
    {
        match self.messages.get(&id) {
            Some(queued) => Some(&queued.message),
            None => None,
        }
    }

    /// The segment of a message at this place, counted from 0.
    pub fn segment(&self, id: u64, place: u32) -> Option<&Segment>
        ensures { option_copied result ≡ option_and_then (λ message. slice_get message.segments place) (queued_message id self.now.queued) }
    {
        match self.find(id) {
            Some(message) => message.segments.get(place as usize),
            None => None,
        }
    }

    /// The message at this place, counted from 0, in the order of the ids.
    pub fn message(&self, place: u32) -> Option<&Message>
        ensures { option_copied result ≡ slice_get (messages_of self.now.queued) place }
    {
        match self.messages.values().nth(place as usize) {
            Some(queued) => Some(&queued.message),
            None => None,
        }
    }

    /// The messages by their ids, each with the region that has it.
    pub fn by_id(&self) -> &BTreeMap<u64, Queued>
        ensures { values_of result.now.entries ≡ self.now.queued }
    {
        &self.messages
    }
}
