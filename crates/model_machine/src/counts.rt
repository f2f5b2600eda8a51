//! What a life counts on.

use tm_types::Name;

/// What a life counts on from one to the next.
#[derive(Clone, Copy, Debug, PartialEq, Eq)]
pub enum Counter {
    /// The lives.
    Epoch,
    /// The sectors of the log.
    Sequence,
    /// The checkpoints.
    Checkpoint,
    /// The ids of messages.
    NextId,
    /// The units of work.
    NextUnit,
    /// The lasting steps.
    Steps,
    /// The replies of the terminal.
    NextOutput(Name),
}
