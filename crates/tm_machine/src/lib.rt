//! The parts of a control region: what lasts, the codes, and what each region works on; and an operator's commands,
//! done on them.
//!
//! `Parts` (`parts`) is a machine at a moment. Each call answers what specs/MachineCalls of `model_machine` says, and
//! leaves the moment that `After` gives: `input`, `output`, `turn` with `finish` and `victims`, `quiet`, and the
//! commands (`commanding`, `answers`, `active`, `busy`). What holds among the parts stands in specs/Parts.
//!
//! Proved: a call does one lasting step at most, and the flags of all codes follow by one rule; after a fault all is as
//! before. The records of each accepted input, acknowledgement, call, completion and abend are told to the caller as
//! they stand in the log, with the numbers that the step gives (specs/ToldByCall), and what a turn does to the slots of
//! the databases is said by its answer (`TurnsSo` of specs/SlotChanges), also for each region that gives way; where
//! they are longer than the room, nothing has changed. A region whose call is blocked waits; where that closes rings,
//! of each least one the right region gives way, until none goes through the region: what it changed is taken back, it
//! holds and waits for nothing, its message keeps its place and nothing is sent. The end of a region's work ends all
//! that it holds.
//!
//! A command is answered as the machine says at its moment; what lasts of it is done, and told in its record; a refusal
//! changes and tells nothing. The region that a freeze waits for is the lowest busy one. A checkpoint and the opening
//! of a system aren't among these commands.
#![tactic(auto)]

mod active;
mod answers;
mod busy;
mod commanding;
mod finish;
mod input;
mod lasting_commands;
mod lending;
mod lookups;
mod opening;
mod output;
mod parts;
mod quiet;
mod turn;
mod victims;

pub use answers::answer_to;
pub use busy::busy_region;
pub use commanding::command;
pub use parts::Parts;
