//! The scripts of programs: their grammar, and the reader that names the first rule broken.
//!
//! A line is a word and its operands, parted by blanks. Lines that are empty or begin with `*` are passed over. A
//! program ends at its line ENDPROG.
//!
//! Proved: the answer is the program exactly where no line breaks a rule; else the lowest line that breaks one with its
//! lowest rule.
#![tactic(auto)]

pub use lines::is_last;
pub use model_system::Program;
pub use reader::read_program;

mod labels;
mod line_word;
mod lines;
mod reader;
pub mod rules;
mod statements;
mod values;
