//! The reader of system definitions, which names the first rule broken.
//!
//! A definition has one macro a line: its name, one blank, and operands `KEY=value` that commas part. Lines that are
//! empty or begin with `*` are passed over. It ends at the macro END; between PROGRAM and ENDPROG stand the lines of a
//! script, between FMT and FMTEND those of a message format.
//!
//! Proved: the answer is the definition exactly where no line breaks a rule; else the lowest line that breaks one with
//! its lowest rule. A definition's lines come one by one, up to its END or to the line past 262,144 bytes.
#![tactic(auto)]

pub use ends::DefinitionReader;
pub use modes::Mode;
pub use reader::read_definition;

mod ends;
mod formats;
mod modes;
mod places;
mod programs;
mod reader;
mod rules;
mod source;
