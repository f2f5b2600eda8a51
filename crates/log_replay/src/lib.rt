//! The log behind a snapshot, done again.
//!
//! Each record is done on the tables of what lasts (`replaying`, `doing`, `steps`, `commanding`), beside which work in
//! doubt, a unit whose end hasn't come, waits in `Working`; the slots that records name are collected beside (`naming`,
//! `synced`, `said`).
//!
//! Proved: a record is done on the tables just as the definition of a replay (specs/Replay of `model_image`) does it,
//! or refused exactly where it breaks the rule on such records: it names what isn't there, has a number that isn't the
//! next, or leaves a state that breaks a rule. What a unit did is judged once, at its sync point. The messages of each
//! conversation are counted by terminal, and what breaks the rule on messages is counted too (`tally`), so that a step
//! is judged by the messages that come and go with it.
//!
//! The slots that a snapshot's changes or a log's records name, by database and slot, are just those of the definition,
//! each with the bytes that it says: what the last change left whose unit has a sync point, else what stood there
//! before the first. The whole answer (`replay_log`) is what lasts then, these slots, and the last unit; or rule 18 or
//! 19 where that one is broken.
#![tactic(auto)]

mod commanding;
mod doing;
mod judging;
mod naming;
mod places;
mod replaying;
mod said;
mod steps;
mod synced;
mod tally;
mod units;
mod waiting;
mod whole_log;
mod working;

pub use whole_log::replay_log;
