//! The definitions of a session: how its lines make blocks, what a block asks for, what is printed for it, and for
//! which entries of which lives the blocks stand.
//!
//! The crate holds definitions and the small types that they speak of. `session_lines` reads blocks, `session_text`
//! prints answers, and `session_lives` and `tm_session` drive a session, each by these definitions.
#![tactic(auto)]

pub use asked::{Asked, Form, ImageRefused, InputStopped};
pub use others::Others;

mod asked;
mod others;
