//! The records of a snapshot, judged and kept.
ghost use Rattle.std.specs.Prelude.{◌≡◌, ◌∷◌, [], false, IfOk};
ghost use Rattle.restart_data.specs.Rules.{first_broken};
ghost use Rattle.model_image.specs.Counters.{told_unit};
ghost use Rattle.model_image.specs.Snapshot.{wrong_changes};
ghost use Rattle.model_image.specs.States.{breaks_a_rule};
ghost use Rattle.image_records.specs.RecordAnswers.{TellsSnapshotState, TellsRecords};
ghost use Rattle.image_records.specs.SnapshotRules.{AreRecordRules, IsToldByRecords, KeepsTold, rules_by};

use crate::cutting::cut;
use crate::fault::RecordsFault;
use crate::images::are_images_of;
use crate::snapshot::Snapshot;
use crate::tables::tables_of;
use crate::telling::{Told, tell_all};
use crate::weighing::is_over_full;
use crate::{judging, rules};
use log_records::Record;
use model_machine::Lasting;
use std::alloc::Global;
use system_types::System;
use tm_types::Memory;

/// Which rules on the records alone are broken.
#[derive(Clone, Copy, Debug)]
struct RecordRules {
    /// 11: their order.
    order: bool,
    /// 12: the names of terminals and codes, and the numbers that aren't of the state.
    names: bool,
    /// 15: a reply of no terminal.
    replies: bool,
    /// 17: the changes.
    changes: bool,
}

/// What a snapshot of these bytes keeps. Where the bytes break rules of an image, from 10 to 17, the lowest of these is
/// the answer. `Memory` comes from a refused growth alone.
#[tactic(auto, using(crate::proofs::ReadBack::read_steps))]
pub fn read_records(alloc: Global, system: &System, bytes: &[u8]) -> Result<Snapshot, RecordsFault>
    ensures { TellsRecords system.now bytes.now result }
{
    let Ok(cut) = cut(alloc, bytes) else {
        return Err(RecordsFault::Memory);
    };
    if cut.length < bytes.len() {
        return Err(RecordsFault::Bad(10));
    }
    judge(alloc, system, cut.records)
}

/// What a snapshot of these records keeps.
#[tactic(auto, using(crate::proofs::ReadBack::judge_steps))]
fn judge(alloc: Global, system: &System, records: Vec<Record>) -> Result<Snapshot, RecordsFault>
    ensures { TellsSnapshotState system.now records.items result }
{
    let Ok(broken) = record_rules(alloc, system, &records) else {
        return Err(RecordsFault::Memory);
    };
    let next_unit = told_unit(&records);
    let Ok(told) = told_of(alloc, system, records) else {
        return Err(RecordsFault::Memory);
    };
    match first_broken(system, broken, &told.lasting) {
        Some(rule) => Err(RecordsFault::Bad(rule)),
        None => keep(alloc, system, told, next_unit),
    }
}

fn record_rules(alloc: Global, system: &System, records: &[Record]) -> Result<RecordRules, Memory>
    ensures { IfOk result (AreRecordRules system.now records.now) }
{
    Ok(RecordRules {
        order: rules::out_of_order(alloc, system, records)?,
        names: rules::missing_or_twice(alloc, system, records)?,
        replies: rules::reply_of_none(alloc, system, records)?,
        changes: wrong_changes(alloc, system, records)?,
    })
}

fn wrong_changes(alloc: Global, system: &System, records: &[Record]) -> Result<bool, Memory>
    ensures { IfOk result (λ broken. broken ≡ wrong_changes system.now records.now) }
{
    let are = are_images_of(alloc, system, records)?;
    Ok(!are)
}

/// The next unit as a snapshot of these records counts it.
#[tactic(auto, using(crate::proofs::ReadBack::unit_first))]
fn told_unit(records: &[Record]) -> u64
    ensures { result ≡ told_unit records.now }
{
    match records.split_first() {
        Some((first, _)) => unit_told(first),
        None => 1,
    }
}

fn unit_told(r: &Record) -> u64
    ensures { result ≡ told_unit (r.now ∷ []) }
{
    match r {
        Record::Checkpoint { next_unit, .. } => *next_unit,
        _ => 1,
    }
}

fn told_of(alloc: Global, system: &System, records: Vec<Record>) -> Result<Told, Memory>
    ensures { IfOk result (IsToldByRecords system.now records.items) }
{
    tell_all(alloc, system, records)
}

/// The lowest rule that is broken, where these on the records are.
fn first_broken(system: &System, broken: RecordRules, lasting: &Lasting) -> Option<u8>
    ensures { result ≡ first_broken (rules_by system.now broken lasting.now) }
{
    if broken.order {
        return Some(11);
    }
    if broken.names || judging::wrong_values(system, lasting) {
        return Some(12);
    }
    if judging::wrong_ids(lasting) {
        return Some(13);
    }
    if judging::unknown_messages(system, lasting) {
        return Some(14);
    }
    if judging::wrong_replies(lasting) || broken.replies {
        return Some(15);
    }
    if is_over_full(system, lasting) {
        return Some(16);
    }
    if broken.changes {
        return Some(17);
    }
    None
}

fn keep(
    alloc: Global,
    system: &System,
    told: Told,
    next_unit: u64,
) -> Result<Snapshot, RecordsFault>
    requires { breaks_a_rule system.now told.lasting ≡ false }
    ensures { KeepsTold system.now told next_unit result }
{
    let changes = told.changes;
    match tables_of(alloc, system, told.lasting) {
        Ok(kept) => Ok(Snapshot {
            kept,
            changes,
            next_unit,
        }),
        Err(_) => Err(RecordsFault::Memory),
    }
}
