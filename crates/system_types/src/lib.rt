//! A system as its definition gives it, and the states of its codes.
//!
//! Proved: `System` keeps what its definition's rules give, so that no layer above tests it again (specs/ValidSystem):
//! its limits, a program for each code, a database for each PCB on one, and calls that their PCBs have, with arguments
//! in order. The program and the PCBs of a code are found by an index, and a code that is there has them; codes and
//! terminals are found so by any word, and codes have names.
#![tactic(auto)]

pub use codes::Codes;
pub use definition::{Definition, Macro, MacroLine};
pub use indexes::add_name;
pub use job::Job;
pub use model_system::Code;
pub use system::{System, SystemParts};

mod codes;
mod definition;
mod formats;
mod indexes;
mod job;
mod system;
