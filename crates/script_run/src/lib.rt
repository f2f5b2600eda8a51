//! The machine that runs a script: from call to call, in place.
//!
//! Proved: a running script needs next just what its lines, its limit of statements and the answers so far say
//! (specs/Script of `model_system`): a call with the texts of its variables, the end, or an abend. After want of memory
//! it stands where it stood. An answer whose text is taken over needs none, nor does a call that is taken back. What
//! stands in a variable is always the text of a segment.
#![tactic(auto)]

pub use machine::Machine;
pub use model_system::{CallText, Need, Program};

mod arithmetic;
mod machine;
mod script;
mod statements;
mod steps;
mod texts;
