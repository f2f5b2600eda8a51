//! What a region works on, and how that comes and goes.
//!
//! A region takes a message, goes on with its script call by call, and completes, discards or gives the message back;
//! behind a completion it may go on with the next message of its code (`region`, `next`, `close`). `specs/RegionWork`
//! says what a step of the work is, and `specs/WorkEnds` what comes behind it; the flags of the codes that moved follow
//! how many messages wait (`flags`).
#![tactic(auto)]

pub use close::{busy_at, code_of, complete, discard, give_up, names_moved};
pub use flags::{follow, follow_all, follow_at};
pub use next::next_message;
pub use region::{Busy, advance, count_busy, outputs_by, pad_by, take};

mod close;
mod flags;
mod next;
mod region;
