//! The system that a definition defines, where its macros keep the rules among each other.
//!
//! Proved: `check` answers the system that the macros define (specs/Systems) exactly where they break no rule among
//! each other, and such a system is valid; else the lowest rule that is broken, with its first line. The rules are
//! those of `sysdef_rules`.
#![tactic(auto)]

pub use sysdef_rules::CrossRefused;
pub use system_check::check;
pub use system_types::{Code, Codes, Definition, System};

mod build;
mod databases;
mod system_check;
