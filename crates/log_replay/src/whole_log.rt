//! A log done again.
ghost use Rattle.std.specs.Prelude.{◌≡◌, ℕ, List, true, IfOk, Decides};
ghost use Rattle.std.specs.List.{list_all};
ghost use Rattle.log_records.specs.declared.record.Record as model;
ghost use Rattle.model_image.specs.CutRecords.{cut_of, IsRecordCutOff};
ghost use Rattle.model_image.specs.Replay.{replay_of};
ghost use Rattle.model_image.specs.Slots.{is_image_of};
ghost use Rattle.image_records.specs.RecordAnswers.{IsSnapshotStateOf, TellsLog};
ghost use Rattle.log_replay.specs.ReplayRules.{AreSound, lasting_in};
ghost use Rattle.log_replay.specs.ReplayedLog.{ReplayEnds};

use crate::naming::named_slots;
use crate::replaying::replay_record;
use crate::units::last_unit;
use crate::working::Working;
use image_records::{Kept, Record, RecordsFault, Replayed, Snapshot};
use std::alloc::Global;
use system_types::System;
use tm_types::Memory;

/// Does the records of a log again that stands behind a snapshot; whether what is left of its bytes behind them is cut off
/// was decided. `Bad(18)`: it is no record that was cut off. `Bad(19)`: a record is none of a log, is about what isn't
/// there, has a number that isn't the next one, or leaves a state that breaks a rule.
pub fn replay_log(
    alloc: Global,
    system: &System,
    snapshot: Snapshot,
    log: Vec<Record>,
    is_cut_off: bool,
) -> Result<Replayed, RecordsFault>
    requires { (records : List model.Record) × IsSnapshotStateOf system.now records snapshot }
    // It is the log of all bytes that are cut so.
    ensures { (bytes : List ℕ) → log.items ≡ (cut_of bytes).records → Decides is_cut_off (IsRecordCutOff (cut_of bytes).rest) → (records : List model.Record) → list_all (is_image_of system.now) records ≡ true → IsSnapshotStateOf system.now records snapshot → TellsLog system.now records bytes result }
{
    if !is_cut_off {
        return Err(RecordsFault::Bad(18));
    }
    let Ok(slots) = named_slots(alloc, &snapshot.changes, &log) else {
        return Err(RecordsFault::Memory);
    };
    let last_unit = last_unit(snapshot.next_unit, &log);
    match replay_all(alloc, system, snapshot.kept, log) {
        Ok(Some(kept)) => Ok(Replayed {
            kept,
            slots,
            last_unit,
        }),
        Ok(None) => Err(RecordsFault::Bad(19)),
        Err(_) => Err(RecordsFault::Memory),
    }
}

fn replay_all(
    alloc: Global,
    system: &System,
    kept: Kept,
    records: Vec<Record>,
) -> Result<Option<Kept>, Memory>
    requires { AreSound system.now kept }
    ensures { IfOk result (ReplayEnds system.now (replay_of system.now records.items (lasting_in system.now kept))) }
{
    let mut working = Working::new(alloc, kept)?;
    for r in records {
        match replay_record(alloc, system, working, r)? {
            Some(next) => working = next,
            None => return Ok(None),
        }
    }
    Ok(Some(working.kept))
}
