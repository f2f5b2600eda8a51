//! The small types and functions that every crate of the transaction manager speaks of: names, keys, segments, messages
//! and replies, segment search arguments, status codes, commands that last, words and digits.
//!
//! A value of such a type keeps its rule by itself: a text that breaks it is refused, with the place. The rules are the
//! definitions in specs/, one file a type.
//!
//! Proved: a name is read exactly where the bytes are one, and so is a key. A segment is made of a text, or refused
//! with its length or the place of its first bad byte, in that order. A text is read as a command that lasts exactly
//! where it spells that one (proofs/Commands).
#![tactic(auto)]

pub use abend::AbendCode;
pub use bytes::Bytes;
pub use command::LastingCommand;
pub use dbd::{Dbd, SegType, SegTypes};
pub use digits::{NUMBER_CAP, are_digits, capped_number, four_digits};
pub use function::Function;
pub use key::Key;
pub use message::{Message, Reply};
pub use name::{Name, is_name_byte};
pub use resource::{Mode, Resource};
pub use segment::{
    SEGMENT_LIMIT, Segment, SegmentRefused, Segments, are_printable, first_unprintable,
    is_printable, segment_of,
};
pub use ssa::{KeyTest, Ssa, Ssas};
pub use status::Status;
/// No memory was left. A call that answers this has changed nothing.
pub use std::alloc::AllocError as Memory;
pub use words::{first_word, operands};

mod abend;
mod bytes;
mod command;
mod dbd;
mod digits;
mod function;
mod key;
mod message;
mod name;
pub mod processing;
mod resource;
mod segment;
mod ssa;
mod status;
mod words;
