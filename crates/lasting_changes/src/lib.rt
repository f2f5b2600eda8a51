//! Changes of what lasts that a running machine and a recovery do alike, each by a definition of `model_machine`.
//!
//! - A step's parts (`abend`, `sizes`, `pads`): the text of an abend is the one of the rules, in one segment; the bytes
//!   that are told of a message or a reply are those that it counts, and are within the limit of all counts, and none
//!   are told only of one that is past it; a conversation begins at a terminal, and its pad stays, is replaced or ends.
//! - An operator's commands (`stopping`, `assigning`, `dequeuing`): a terminal or a code is stopped or started, a code
//!   gets another class or normal priority, a terminal's first reply or all of them go. Each changes that and nothing
//!   else, and nothing at all where there is no such name. None takes memory.
//! - The empty machine (`empty`): what lasts of it is the empty state of the definition: no message, row or
//!   conversation, numbers that begin, codes as they are defined. `Memory` is the only refusal.
#![tactic(auto)]

mod abend;
mod assigning;
mod dequeuing;
mod empty;
mod pads;
mod sizes;
mod stopping;
mod terminals;

pub use abend::abend_segments;
pub use assigning::{assign_class, assign_priority};
pub use dequeuing::{dequeue_all, dequeue_first};
pub use empty::{empty_lasting, fresh_states};
pub use pads::{begin, change_pad, discarded_pad};
pub use sizes::bytes_of;
pub use stopping::{stop_code, stop_terminal, terminal_place};
pub use terminals::note_input;
