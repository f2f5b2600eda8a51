//! What is kept of a snapshot.

use crate::kept::Kept;
use log_records::Record;
use std::marker::Model;

/// What is kept of a snapshot: what lasts, the changes of open units, and the next unit.
#[derive(Debug, Drop)]
pub struct Snapshot {
    pub kept: Kept,
    /// The records of changed slots, in the order of the snapshot.
    pub changes: Vec<Record>,
    pub next_unit: u64,
}

impl Model for Snapshot {
    ghost use Rattle.image_records.specs.RecordAnswers.{SnapshotState};

    ghost Value = { SnapshotState };

    ghost view = { λ s. record { kept = s.kept; changes = s.changes.items; next_unit = s.next_unit } };
}
