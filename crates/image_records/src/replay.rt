//! What a snapshot and the log behind it come to.

use crate::kept::Kept;
use crate::slots::NamedSlot;
use std::marker::Model;

/// What a snapshot and the log behind it come to.
#[derive(Debug, Drop)]
pub struct Replayed {
    pub kept: Kept,
    /// The slots that a record names, by database and slot, each with the bytes of a record or of none; those of all other
    /// slots stand in their sectors.
    pub slots: Vec<NamedSlot>,
    /// The next unit is the one behind it: no lower than each unit of the log, and the one before the snapshot's next.
    pub last_unit: u64,
}

impl Model for Replayed {
    ghost use Rattle.image_records.specs.RecordAnswers.{ReplayedState};

    ghost Value = { ReplayedState };

    ghost view = { λ r. record { kept = r.kept; slots = r.slots.items; last_unit = r.last_unit } };
}
