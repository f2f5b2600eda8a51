//! The definitions of messages: queues, conversations, and the calls on messages.
//!
//! The crate holds definitions, the small types that they speak of, and what is asked of a pad's bytes.
//!
//! - Queues: messages in the order of their ids, each with the region that has it, the replies of each terminal, and
//!   the room that messages, replies and busy regions take (specs/Queue, Outputs, Room).
//! - Conversations: a code, a terminal, and a scratch pad that lasts from one input to the next (specs/Terminals,
//!   Waiting, Pads, ConversationInput).
//! - Message calls: what a program is answered by the calls on PCB 0 and on its output PCBs, and what is sent at the
//!   end (specs/MessageWork, MessageCalls).
//!
//! Proved: of a pad's bytes it is told exactly whether they may be given back; a reply that was added and taken back
//! leaves what was there (proofs/TakenBack).
#![tactic(auto)]

pub mod abends;
mod conversation;
mod ended_message;
mod open_pcb;
mod pads;
mod queued;
mod replies;

pub use conversation::{Conversation, PadChange, TerminalConversation};
pub use ended_message::EndedMessage;
pub use open_pcb::OpenPcb;
pub use pads::{CODE_BYTES, code_field, ends, fitted, has_code, is_pad};
pub use queued::Queued;
pub use replies::{Replies, TerminalReplies};
