//! The records of the log and of a snapshot.
use model_messages::{Conversation, PadChange};
use tm_types::{AbendCode, Bytes, Name, Segments};

/// A record of the log or of a snapshot.
#[derive(Debug, Drop)]
pub enum Record {
    /// Code 01. An input as it is kept, with its number, where `unit` is 0; else a message that
    /// the unit switched, with the number 0.
    Input {
        unit: u64,
        id: u64,
        origin: Name,
        code: Name,
        number: u64,
        conversation: bool,
        segments: Segments,
    },
    /// Code 02. A lasting command, at most 80 bytes.
    Command {
        text: Bytes,
    },
    /// Code 03. A reply of the unit; in a snapshot the unit is 0.
    Reply {
        unit: u64,
        terminal: Name,
        number: u64,
        segments: Segments,
    },
    /// Code 07. The message is discarded after the abend, a number from 1 to 4095, and its
    /// origin is told so under the number.
    Discarded {
        unit: u64,
        id: u64,
        abend: AbendCode,
        number: u64,
    },
    /// Code 36, kind 0. The message is completed.
    Completed {
        unit: u64,
        id: u64,
    },
    /// Code 36, kind 1. The reply is acknowledged.
    Acknowledged {
        terminal: Name,
        number: u64,
    },
    /// Code 37. The unit reached its sync point.
    SyncPoint {
        unit: u64,
        pad: PadChange,
    },
    /// Code 40, kind 0. What a snapshot counts.
    Checkpoint {
        checkpoint: u64,
        next_id: u64,
        next_unit: u64,
        lasting_steps: u64,
    },
    /// Code 40, kind 1. A terminal of a snapshot.
    Terminal {
        terminal: Name,
        last_input: u64,
        next_output: u64,
        stopped: bool,
        conversation: Option<Conversation>,
    },
    /// Code 40, kind 2. A transaction code of a snapshot.
    Code {
        code: Name,
        stopped: bool,
        class: u8,
        priority: u8,
    },
    /// Code 50. The unit changed a slot of a database: the record in it before and after, at most
    /// 32,000 bytes each. An empty image is no record.
    Change {
        unit: u64,
        database: u8,
        slot: u16,
        before: Bytes,
        after: Bytes,
    },
}
