//! Where a session stands, over lives, stops and restarts: one block served.
//!
//! `ask` asks a control region that is up for what a block asks for (`asking`, `turns`; specs/AskedControl), and before
//! the text of an answer is given out that binds, all lasting steps are forced (`forcing`). `open`
//! begins a life (`opening`), and `serve_block` (`serve`, `place`) leads by the definition of a session in
//! `model_session` (specs/Session) from one state of it to another. What is so between two blocks, of the disk too, is
//! said in specs/RunningSession. At the end of a source all is forced (`end_source`; specs/SourceEnd), and `close` ends a
//! session (specs/ClosedSession).
//!
//! Proved: a block of lines leads from one state of a session to another as the definition says, whatever disk was
//! handed in, with the text that is printed for it. What the disk then holds is what the new state allows.
//! docs/PROVED.md says it clause by clause.
#![tactic(auto)]

pub use called::{Ending, Opening, Served, Undone};
pub use closing::{Over, close};
pub use opening::open;
pub use place::{Idle, Kept, Session};
pub use serve::{end_source, serve_block};

mod asking;
mod called;
mod closing;
mod forcing;
mod opening;
mod place;
mod serve;
mod turns;
