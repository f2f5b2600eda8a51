//! Deadlocks: the rings of regions that wait for one another, and the region that gives way.
//!
//! The definitions are those of specs/Cycle of `model_data`. A search goes along the waits from one region, lowest
//! regions first, and ends at the first ring, which is the least one. It takes no memory. It begins only where the region
//! is reached from itself: else each way along the waits would be gone, and of these there are many where regions stand in a row.
//!
//! Proved: the least ring of waiting regions through a region is found exactly where there is one; of a ring the region
//! with the fewest changed records gives way, on a tie the highest. Laws (proofs/Breaking): breaking rings ends, and
//! leaves none.
#![tactic(auto)]

pub use choice::victim;
pub use model_data::Cycle;
pub use search::{cycle_through, least_cycle};
pub use weights::Weights;

mod choice;
mod reached;
mod search;
mod weights;
