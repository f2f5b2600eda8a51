//! The definitions of a system: its record, its programs' scripts, and its message formats.
//!
//! The crate holds definitions and the small types that they speak of, and almost no code.
//!
//! - Systems: codes, programs, databases, terminals, classes and screens stand in the definition's order
//!   (specs/System); what a code's job is and what state each code is in (specs/Jobs, Codes, CodeStates). Which of
//!   these records are systems, with all limits, `system_types` says, and carries the record out.
//! - Scripts: what the lines of a program are, what each of them does, and what a script needs next (specs/Programs,
//!   Texts, Arithmetic, Script). A `Program` keeps by its type that it breaks no rule.
//! - Formats: what the lines of a format are, which rule one breaks by itself, what a screen's fields become as an
//!   input, and what a reply becomes as a page (specs/FormatLines, FormatRule, ValidFormat, ScreenInput, FittedValues,
//!   Pages, ScreenPage).
//!
//! Proved: where a step of a script goes on both settle alike, and where it needs something it has settled
//! (proofs/Settled).
#![tactic(auto)]

pub mod abends;
mod classes;
mod code;
mod code_state;
mod device_field;
mod fields;
mod format;
mod message_field;
mod need;
mod page;
mod pcb;
mod program;
mod screen;
mod script_ssa;
mod segment_line;
mod statement;
mod system_program;
mod text;
mod variable;

pub use classes::Classes;
pub use code::{Code, SegmentKind, Transaction};
pub use code_state::CodeState;
pub use device_field::DeviceField;
pub use fields::{FieldValue, Fields};
pub use format::Format;
pub use message_field::{Justify, MessageField, MessageFieldLine, MessageFields, Source};
pub use need::{CallText, Need};
pub use page::Page;
pub use pcb::{Pcb, Pcbs};
pub use program::{Program, ScriptLine};
pub use screen::{Screen, SystemFormat};
pub use script_ssa::{ScriptSsa, ScriptSsas};
pub use segment_line::SegmentLine;
pub use statement::{Comparison, Statement, Target};
pub use system_program::SystemProgram;
pub use text::{Text, Texts};
pub use variable::Variable;
