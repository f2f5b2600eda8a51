//! The rules that the macros of a system definition keep among each other.
//!
//! Proved: `cross_rules` tells the lowest rule that is broken, with its first line. `specs/Cross` has the rules in the
//! order of their numbers.
#![tactic(auto)]

pub use cross::cross_rules;
pub use lookups::{MacroKind, front, pcbs_of, segment_number};
pub use refused::CrossRefused;
pub use sizes::control_in;

mod calls;
mod counts;
mod cross;
mod lookups;
mod named;
mod refused;
mod segments;
mod sizes;
