//! The output queues: for each terminal the replies that it hasn't acknowledged, under their numbers.
//!
//! Each call changes or shows the list of specs/Outputs of `model_messages`.
//!
//! Proved: the numbers of a terminal follow one another without a gap; the first reply is acknowledged alone, and the
//! last is taken back alone. After a refusal nothing changed.
#![tactic(auto)]

pub use outputs::{AckAhead, Acked, Outputs};
pub use table::fresh_terminals;

mod outputs;
mod table;
