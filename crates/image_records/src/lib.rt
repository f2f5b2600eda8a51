//! The records of an image: what those of a snapshot tell of, and the rules of an image on them.
//!
//! `cutting` cuts bytes into records; `telling` takes a snapshot's records over one after another, each changing the
//! state as the definition of an image says; `order`, `rules`, `judging`, `images` and `weighing` judge; `reading` does
//! it all.
//!
//! Proved: what the records of a snapshot tell of behind the empty state is what the definition says; names are looked
//! up by the index of the system. Rules 16 and 17 are judged exactly, whatever the bytes of messages and replies come
//! to. A snapshot is read whole (`read_records`): of any bytes the answer is the tables of what lasts, the changes of
//! open units and the next unit, or the lowest rule of 10 to 17 that is broken; what is kept breaks no rule of a state.
//! What doing a log again is to answer is stated here (specs/RecordAnswers); `log_replay` does it.
#![tactic(auto)]

mod cutting;
mod fault;
mod images;
mod judging;
mod kept;
mod order;
mod reading;
mod replay;
mod rules;
mod slots;
mod snapshot;
mod tables;
mod telling;
mod terminals;
mod weighing;

pub use cutting::cut;
pub use fault::RecordsFault;
pub use images::is_image_of;
pub use judging::is_conversation;
pub use kept::Kept;
pub use log_records::Record;
pub use order::{is_next, is_small};
pub use reading::read_records;
pub use replay::Replayed;
pub use rules::{is_code, is_terminal};
pub use slots::NamedSlot;
pub use snapshot::Snapshot;
