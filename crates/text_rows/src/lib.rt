//! What the readers of the definition's texts share: pieces of a line, names and numbers, and the lowest rule that a
//! line breaks.
//!
//! Proved: a line is cut into pieces, and names, numbers and lists are read, as specs/ defines. A line that breaks
//! several rules is answered with the lowest, whichever part of it was read first: `both` and `also` join what two
//! parts say.
#![tactic(auto)]

pub use lines::{is_passed_over, printable_line, split_at};
pub use lists::{list_of, three_of, two_of};
pub use lowest::{also, both};
pub use names::name_of;
pub use numbers::{byte_between, number_between};
pub use operands::{Operands, is_word, split_macro};
pub use pieces::{Pieces, Place};
pub use refused::LineRefused;

mod lines;
mod lists;
mod lowest;
mod names;
mod numbers;
mod operands;
mod pieces;
mod refused;
pub mod rules;
