//! The conversations of the terminals, each with its scratch pad.
//!
//! A conversation is of one code at one terminal, which has one at most. The table is the list that `model_messages`
//! defines; each call shows it or changes one terminal of it.
//!
//! Proved: a conversation begins with its code, padded with blanks to 8 bytes, and a work area of blanks. A text
//! becomes its pad, padded with blanks or cut to the length that the pad had, or ends it by blanks in the place of the
//! code, unless it is shorter than 8 bytes or begins with another code. An input of its terminal goes to its code, or
//! is refused with the id of the first message of the terminal that has the flag of conversations. No other terminal's
//! conversation changes, and a refusal changes nothing.
#![tactic(auto)]

pub use conversations::{Busy, Conversations};
pub use messages::is_conversing;
pub use model_messages::{Conversation, TerminalConversation};
pub use pads::{PadRefused, begun};
pub use table::without_conversations;

mod conversations;
mod messages;
mod pads;
mod table;
