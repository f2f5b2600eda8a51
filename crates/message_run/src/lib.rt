//! A region's work on one message: a script's calls, made one after another, and what they lead to; and why that stays
//! while others end theirs.
//!
//! `Run` (`run`) has the work, `progress` the step of it that may be taken back, `answer` the answers that a script is
//! given.
//!
//! Proved: the work goes on exactly as the trial of `model_machine` does (specs/WorkAhead): its answers, its outputs,
//! the rows that it sees, the positions and the changed records are those to which as many calls of its script lead,
//! made from the start on the rows that are committed; and it ends just where they do. Before a call what it needs is
//! asked for: where a part of it is blocked the call isn't made, that part and who blocks it are told, and the next
//! turn comes to the same call; else the region holds it. What is committed stays, and so does what other regions see.
//! The end of the work leaves the databases as they are. The records of what a call changes in slots, also of what
//! `ROLB` puts back, are told as specs/MessageChanges says. After want of memory, or of room for them, nothing has
//! changed.
//!
//! Laws (proofs/Others, Trials): a region holds all that the calls of its script asked for. So while others go on, are
//! backed out or give up, its work stays as far; and where another region's changes are committed, as many calls of the
//! script, made from the start on what is committed now, give the same answers, work, positions and changed records,
//! ask for the same, and leave the same changes over the new rows.
#![tactic(auto)]

mod answer;
mod progress;
mod run;

pub use run::{Advanced, Ending, Run};
