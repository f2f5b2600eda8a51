//! A lock whose turns are still known when it has been released.
//!
//! Who takes the lock holds a pass, which keeps what was added in its turns; when all passes are back, the value is
//! what all turns added, in some order in which each pass's own stand in turn. `specs/` has the words, and the tokens
//! of `atomic_table` keep them. It knows nothing of what the lock guards.
//!
//! Proved: after all passes were joined the value's list has under each number just what that pass has added.
#![tactic(auto)]

pub use listed::Listed;
pub use naming::Naming;
pub use pass::Pass;
pub use passes::Passes;
pub use pool::{NewPool, OpenPool, Pool, PoolParts};

mod listed;
mod locked;
mod naming;
mod pass;
mod passes;
mod pool;
mod steps;
#[cfg(test)]
mod tests;
mod views;
