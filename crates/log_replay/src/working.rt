//! What lasts and waits while a log is done again.
use crate::tally::Tally;
use crate::waiting::UnitRecords;
use image_records::Kept;
use std::alloc::Global;
use std::collections::BTreeMap;
use std::marker::Model;
use tm_types::Memory;

/// What lasts, the records of units that have no sync point yet, and the messages of conversations by terminal.
#[derive(Debug, Drop)]
pub struct Working {
    pub kept: Kept,
    pub units: BTreeMap<u64, UnitRecords>,
    pub tally: Tally,
}

impl Model for Working {
    ghost use Rattle.log_replay.specs.WorkState.{WorkState};

    ghost Value = { WorkState };

    ghost view = { λ w. record { kept = w.kept; units = w.units.entries; tally = w.tally } };
}

impl Working {
    ghost use Rattle.std.specs.Prelude.{◌≡◌, [], IfOk};
    ghost use Rattle.model_messages.specs.Queue.{messages_of};
    ghost use Rattle.log_replay.specs.ConversationTally.{Counts};

    /// Where a log begins: nothing waits. The messages of the tables, which break no rule, are gone over once.
    pub fn new(alloc: Global, kept: Kept) -> Result<Working, Memory>
        ensures kept { IfOk result (λ working. working.kept ≡ kept) }
        ensures units { IfOk result (λ working. working.units ≡ []) }
        ensures counts { IfOk result (λ working. Counts (messages_of kept.queues.queued) working.tally.counts) }
        ensures faults { IfOk result (λ working. working.tally.faults ≡ 0) }
    {
        let tally = Tally::of(alloc, &kept.queues)?;
        Ok(Working {
            kept,
            units: BTreeMap::new(alloc),
            tally,
        })
    }
}
