//! The edits of message formats: the values of a screen become the segments of an input, and the segments of a reply
//! become a page.
//!
//! They carry out the definitions of formats in `model_system`. Each costs as much as the format and the texts have.
//!
//! Proved: fields become segments, of which there is one and none too long, and segments a page, as defined.
#![tactic(auto)]

pub use input::edit_in;
pub use output::edit_out;
pub use refused::EditRefused;

mod fitting;
mod indexes;
mod input;
mod output;
mod refused;
