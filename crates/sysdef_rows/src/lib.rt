//! The macros of a system definition: their keys, and what each is with its operands.
//!
//! A macro has operands `KEY=value`. Proved: `row` tells the macro that they make, or the lowest rule that their values
//! break; `known` whether each has one of the macro's keys. Where a macro may stand is judged by `sysdef_text`.
#![tactic(auto)]

pub use kinds::{Kind, kind_of, known};
pub use rows::{format_name, program_name, row};

mod kinds;
mod pcbs;
mod rows;
mod values;
