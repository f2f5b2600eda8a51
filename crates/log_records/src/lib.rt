//! The records of the log and of a snapshot, and how each is spelled in bytes.
//!
//! Proved: each record has one spelling (specs/RecordSpelling), and no spelling begins another. What was encoded is
//! decoded again, whatever follows it (specs/DecodedRecord). Bytes are refused exactly where no front of them is a
//! record, with the first fault that reading meets, and where (specs/RecordReader). A record is spelled from borrowed
//! parts too, without a copy of them: whole, or where there is no memory not at all. What is told behind others stays
//! exactly where it is whole and fits the room (specs/ToldRecords).
#![tactic(auto)]

pub use appending::{
    append_acknowledged, append_change, append_checkpoint, append_code, append_command,
    append_completed, append_discarded, append_input, append_reply, append_sync_point,
    append_terminal,
};
pub use decoding::{decode, one_spelling};
pub use encoding::encode;
pub use fault::DecodeFault;
pub use model_messages::{Conversation, PadChange};
pub use record::Record;
pub use telling::end_telling;
pub use untold::Untold;

mod appending;
mod decoding;
mod encoding;
mod fault;
mod fields;
mod images;
mod layouts;
mod record;
mod telling;
mod untold;
mod wrong_bytes;
