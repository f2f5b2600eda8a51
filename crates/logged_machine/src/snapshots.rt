//! The snapshot of a machine.
ghost use Rattle.std.specs.Prelude.{◌≡◌, [], length, map, nat_lt, if◌then◌else◌, IfOk, OnOk};
ghost use Rattle.std.specs.List.{AllByRecursion};
ghost use Rattle.disk_law.specs.Life.{LifeOnDisk};
ghost use Rattle.model_machine.specs.Machine.{IsRegion};
ghost use Rattle.journal.specs.NumberedUnits.{insert_unit, numbered_unit, units_open};
ghost use Rattle.program_rows.specs.SlotsState.{touched_in};
ghost use Rattle.checkpointing.specs.SnapshotRecords.{snapshot_records};
ghost use Rattle.checkpointing.specs.SpelledRecords.{AddsSpelled, IsWritable};
ghost use Rattle.checkpointing.specs.Touches.{AreAllSpelled, HasFewSectors, changes_of_units};
ghost use Rattle.tm_machine.specs.SlotChanges.{slots_now};
ghost use Rattle.logged_machine.specs.CarriedParts.{IsCarried};
ghost use Rattle.logged_machine.specs.UntakenCheckpoint.{IsSnapshot};

use checkpointing::{OpenUnit, SnapshotView, write};
use journal::insert;
use std::alloc::Global;
use tm_machine::Parts;
use tm_types::Memory;

/// The bytes of a snapshot under this number of a checkpoint. The open units are those of the regions, by these numbers.
#[tactic(auto, using(crate::proofs::Spelled::snapshot_of, crate::proofs::Spelled::may_spell))]
pub fn snapshot(
    alloc: Global,
    parts: &Parts,
    units: &[u64],
    next_unit: u64,
    number: u64,
) -> Result<Vec<u8>, Memory>
    requires carried { (life : LifeOnDisk) × IsCarried parts.now units.now next_unit life }
    requires counted { length units.now ≡ length parts.now.system.regions }
    ensures { IfOk result (λ bytes. IsSnapshot parts.entry.now units.entry.now next_unit number bytes.items) }
{
    let _stores = parts.stores();
    let opened = units_of(alloc, parts, units)?;
    spell(alloc, parts, opened.as_slice(), next_unit, number)
}

/// The open units of the regions, by their numbers.
fn units_of<'a>(alloc: Global, parts: &'a Parts, units: &[u64]) -> Result<Vec<OpenUnit<'a>>, Memory>
    requires counted { length units.now ≡ length parts.now.system.regions }
    ensures { IfOk result (λ opened. map numbered_unit opened.items ≡ units_open units.entry.now (slots_now parts.entry.now).touched) }
{
    let _stores = parts.stores();
    let mut opened = Vec::new(alloc);
    let mut place = units.len();
    // From the last region on, as `units_open` says.
    while place > 0 {
        place -= 1;
        add_unit(parts, place as u32 + 1, units[place], &mut opened)?;
    }
    Ok(opened)
}

/// Adds the unit of a region that has one.
fn add_unit<'a>(
    parts: &'a Parts,
    region: u32,
    number: u64,
    opened: &mut Vec<OpenUnit<'a>>,
) -> Result<(), Memory>
    requires { IsRegion parts.now.system region }
    ensures { OnOk result (map numbered_unit opened.new.items ≡ (if nat_lt 0 number then insert_unit (number, touched_in region (slots_now parts.entry.now)) (map numbered_unit opened.old.items) else map numbered_unit opened.old.items)) }
{
    if number == 0 {
        return Ok(());
    }
    let work = parts.unit(region);
    insert(opened, OpenUnit { number, work })
}

/// What lasts, and what these units touched.
#[tactic(auto, using(crate::proofs::Spelled::spelled_so))]
fn spell(
    alloc: Global,
    parts: &Parts,
    opened: &[OpenUnit<'_>],
    next_unit: u64,
    number: u64,
) -> Result<Vec<u8>, Memory>
    requires writable { IsWritable (record parts.now.moment.lasting { rows = [] }) }
    requires spelled { AreAllSpelled (slots_now parts.now).stores opened.now }
    requires few_sectors { AllByRecursion HasFewSectors (slots_now parts.now).stores }
    ensures { IfOk result (λ bytes. AddsSpelled (snapshot_records number next_unit parts.entry.now.moment.lasting (changes_of_units (slots_now parts.entry.now).stores opened.entry.now)) [] bytes.items) }
{
    write(
        alloc,
        &SnapshotView {
            checkpoint: number,
            next_unit,
            next_id: parts.next_id(),
            steps: parts.steps(),
            terminals: parts.terminals(),
            outputs: parts.outputs(),
            conversations: parts.conversations(),
            codes: parts.codes(),
            queues: parts.queues(),
            units: opened,
            stores: parts.stores(),
        },
    )
}
