//! What lasts of a control region: databases, messages, replies, conversations, and the numbers of inputs and steps.
//!
//! `Tables` (`tables`) does the steps that last, each as specs/LastingSteps of `model_machine` says by `applied`; it
//! keeps beside what lasts the changes of the work in each region, and which region has a message. `sending` sends a
//! message's outputs, `conversing` keeps an input with the conversation that begins with it, `commanding` does an
//! operator's commands, and `telling` spells the records of a step.
//!
//! Proved: a message that is finished goes, and all its outputs go out in their order, to terminals as replies, to
//! codes as messages; for want of memory none does, and the message stays. An input is kept as defined; a message of a
//! conversation is its terminal's only one and is given its pad, which stays as it is until the message's end; a
//! completion leaves what was given back, and an abend ends the conversation. After want of memory nothing has changed.
//!
//! The records of a lasting step are those of specs/StepRecords of `model_image`. They are told from what the step is
//! given, before anything is changed: replies and ids are counted on over the outputs as sending them would. They stand
//! behind what was told where they fit the room; after a refusal nothing of them is told.
#![tactic(auto)]

mod abend;
mod commanding;
mod conversing;
mod lending;
mod limits;
mod opening;
mod outputs;
mod sending;
mod shown;
mod step_records;
mod tables;
mod telling;

pub use conversing::{KeptInput, kept_first};
pub use limits::COUNT_LIMIT;
pub use log_records::Untold;
pub use shown::Shown;
pub use tables::{Enqueued, Tables};
