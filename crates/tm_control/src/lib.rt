//! The control region on a disk: a machine with its history and its log.
//!
//! Proved: each call that is answered adds one entry, which is the machine's answer at its place. What lasts of it waits for a force,
//! which is asked for, or comes with a checkpoint. Whatever a crash might have left since a call began recovers to what lasted behind
//! some of the entries before it, with all lasting steps that were forced then. After a disk fault the control region isn't
//! up, and its last entry has the fault in place of its answer. docs/PROVED.md says it clause by clause.
#![tactic(auto)]

pub use closed::Closed;
pub use control::Control;
pub use lasting_state::Shown;
pub use logged_machine::OpenRefused;
pub use model_machine::{
    AckRefused, Acked, Answer, CheckpointRefused, Command, CommandRefused, ControlFault, Entry,
    InputRefused, Taken, Turned,
};
pub use openings::{History, How, Life, OpenError};

mod closed;
mod control;
mod noting;
