//! Scheduling: which message a region takes.
//!
//! Proved: `pick` answers what specs/Pick of `model_machine` says of the states of the codes and of the messages that
//! wait: the first class with an eligible code, in it the highest priority that counts, on a tie the lowest id; none
//! exactly where no code is eligible. A serial code is eligible only while no region has a message of it.
//! `specs/RegionPick` says the same in the words of the rule, and the answer is proved to be that too.
#![tactic(auto)]

pub use candidate::current_priority;
pub use picked::Pick;
pub use schedule::pick;

mod candidate;
mod picked;
mod schedule;
