//! A session, driven: the source is cut into the definition and blocks of lines, the control region is asked what each
//! block asks for, and its answers are printed, over lives, stops and restarts.
//!
//! `drill_session` carries out the definition of a session in `model_session` (specs/Session), by `HasLived` of
//! specs/Headline: which blocks were served, for which lives they stand, what was written, and what the end's cause is.
//!
//! Proved: blocks are served one after another, each once it is whole, and just what is printed for them is written.
//! With the source's end all blocks were served, and all that lasts is forced, or of the force that failed it is told;
//! at a limit or a read fault just the closed blocks before it; with want of memory, a spent counter or a failed sink a
//! front of them. No line past a limit is served. The definition is read and judged, the disk opened, and the lines
//! behind it are served over lives, stops and restarts. The lives are legal, the stops lie in their order, and what the
//! disk may hold as it is handed back goes by where the session stands. In each life all lasting steps up to an entry
//! whose text binds were forced, but where the disk failed in that and the life ended. Where its first opening begins a
//! life, the disk handed in has sectors enough, and could be opened where it tells its contents; once any life has
//! begun it has sectors enough, and where no block asks for a cold start it was of the definition's text as it was
//! handed in, and recovered as an image that has a state does, where it tells its contents, whatever openings had
//! failed before. That the definition breaks a rule is told, where the source tells its bytes, only if none of its
//! lines is too long.
#![tactic(auto)]

pub use outcome::{Ended, Lives, Outcome, Stops};
pub use session::drill_session;

mod driver;
mod outcome;
mod reader;
mod session;
mod source;
