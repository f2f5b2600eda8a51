//! The reader of message formats, which names the first rule broken, and the rule that a format keeps among its lines.
//!
//! A format has a macro a line: DFLD lines, then MSG TYPE=INPUT with SEG and MFLD lines, then MSG TYPE=OUTPUT with the
//! same, and FMTEND. Lines that are empty or begin with `*` are passed over.
//!
//! Proved: the answer is the format exactly where no line breaks a rule; else the lowest line that breaks one with its
//! lowest rule.
#![tactic(auto)]

pub use breaks::broken_line;
pub use lines::{or_lower, stray_rule};
pub use model_system::Format;
pub use reader::read_format;

mod breaks;
mod built;
mod kinds;
mod lines;
mod reader;
mod rows;
mod rules;
mod values;
