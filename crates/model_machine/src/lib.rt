//! The definitions of the machine that does one thing at a time: what the control region's calls and an operator's
//! commands mean.
//!
//! The crate holds definitions and the small types that they speak of, and almost no code. A control region is proved
//! to be this machine: each of its calls adds one entry to its history, and the history is legal.
//!
//! - What lasts and a moment of the machine (specs/Machine, LastingSteps, Flags); which message a region takes
//!   (specs/Pick); the work on one message (specs/Trial, WorkSoFar); what a region asks for before its next call
//!   (specs/Requests).
//! - What each call is answered at a moment, and what it leaves (specs/MachineCalls); what an operator's commands are
//!   answered, and which of them last (specs/CommandAnswers); legal histories (specs/History).
//! - What a text commands of the system, or the lowest rule that it breaks, and what is printed for the answer to a
//!   command (specs/CommandText, AnswerText), which `oper_cmds` carries out.
//!
//! Proved: where the flags that moved are put by the rule, all stand where it puts them, and the rule done twice is the
//! rule (proofs/Flags); a history with one entry more leads on from the moment that the others lead to
//! (proofs/Histories).
#![tactic(auto)]

mod active;
mod answer;
mod command;
mod counts;
mod entry;
mod lasting;
mod word;

pub use active::{ActiveRegion, ActiveRegions, RegionWork};
pub use answer::Answer;
pub use command::Command;
pub use counts::Counter;
pub use entry::{
    AckRefused, Acked, CheckpointRefused, CommandRefused, ControlCall, ControlFault, Entry,
    InputRefused, ShowAnswer, Taken, Turned,
};
pub use lasting::{CodeSetting, DatabaseRows, Lasting, TerminalState};
pub use word::code_word;
