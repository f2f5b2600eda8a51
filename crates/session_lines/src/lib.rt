//! What the lines of a session ask for: a line with its `+` lines is a block, and a block asks for one thing, or breaks
//! a rule.
//!
//! Proved: `read_block` answers by the definition `asked_of` of `model_session` (specs/Lines): the lowest rule that a
//! line of the block breaks, or what the block asks for. Of an input's `+` lines the first 16 are kept and the others
//! counted, of a screen's field lines the last values for the first 1,921 names, and that is enough: it asks for what
//! all of them ask for, but that the texts of an input behind the 17th are empty, on which no answer depends
//! (`session_law`).
#![tactic(auto)]

pub use asking::read_block;
pub use block::{Block, is_further, takes_further};
pub use numbers::number_in;

mod asking;
mod block;
mod commands;
mod fields;
mod forms;
mod numbers;
mod rules;
mod values;
mod words;
