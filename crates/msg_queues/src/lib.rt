//! The message queues: all messages that wait for a region or are with one, in the order of their ids.
//!
//! They are one list by the definition of queues in `model_messages` (specs/Queue and Room); each call is a change of
//! that list, and no call looks at all messages.
//!
//! Proved: each message stands with the region that has it. An input is refused exactly by the byte rule, with both
//! numbers; a switched message is taken whatever the room. The first message of a terminal's conversation is found
//! among all, whether a region has it or none. After a refusal nothing changed.
#![tactic(auto)]

pub use queues::{QueueRefused, Queues, SLOT_ROOM};

mod entries;
mod id_queue;
mod index;
mod queues;
