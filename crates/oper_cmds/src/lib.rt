//! Reads an operator's commands and prints what they are answered, by the definitions of `model_machine`.
//!
//! Proved: a text is read as the command that the definition gives, or refused with the lowest rule that it breaks.
//! What is printed for an answer is its text; want of memory prints nothing.
#![tactic(auto)]

pub use printing::answer_text;
pub use reading::{BadCommand, read_command};

mod printing;
mod reading;
mod rules;
mod words;
