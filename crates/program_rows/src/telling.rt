//! What is told of slots that are changed.
ghost use Rattle.std.specs.Prelude.{◌≡◌, ◌<◌, ◌≤◌, Some, slice_get, ◌++◌, ◌∷◌, [], length, take, map, IfErr, OnOk, OnErr};
ghost use Rattle.std.specs.List.{AllByRecursion};
ghost use Rattle.log_records.specs.declared.record.Record.TheVariants.{Change as ChangeRecord};
ghost use Rattle.log_records.specs.RecordSpelling.{record_spelling, IsLogRecord};
ghost use Rattle.log_records.specs.ToldRecords.{AddsRecords, TellsInRoom, AreRecordsUntold};
ghost use Rattle.model_data.specs.Record.{rows_spelling as rows_spelling};
ghost use Rattle.program_rows.specs.ToldChanges.{back_out_told, IsToldable};

use log_records::{Untold, append_change, end_telling};
use seg_rows::RecordImage;
use seg_store::{Store, Stores};
use tm_types::Memory;
use unit_work::Change;

/// Records that are told behind others: the number of the region's unit in them, how many bytes those of a call may come to,
/// and what was told.
#[derive(Debug, Drop)]
pub struct Telling {
    pub unit: u64,
    pub room: usize,
    pub told: Vec<u8>,
}

/// Tells of a slot's change, where there is room for that. An Err leaves what was told before.
#[tactic(auto, using(log_records::proofs::Told::one_told))]
pub fn tell(
    number: u8,
    slot: u16,
    before: &RecordImage,
    after: &RecordImage,
    telling: &mut Telling,
) -> Result<(), Untold>
    requires before { length (rows_spelling before.now) ≤ 32000 }
    requires after { length (rows_spelling after.now) ≤ 32000 }
    ensures tells { OnOk result (TellsInRoom (ChangeRecord telling.old.unit number slot (rows_spelling before.now) (rows_spelling after.now) ∷ []) telling.old.room telling.old.told.items telling.new.told.items) }
    ensures untold { OnErr result (telling.new.told.items ≡ telling.old.told.items) }
    ensures place { telling.new ≡ record telling.old { told = telling.new.told } }
    ensures full { IfErr result (AreRecordsUntold (ChangeRecord telling.old.unit number slot (rows_spelling before.now) (rows_spelling after.now) ∷ []) telling.old.room) }
{
    let start = telling.told.len();
    let written = append_change(
        &mut telling.told,
        telling.unit,
        number,
        slot,
        before.as_slice(),
        after.as_slice(),
    );
    end_telling(&mut telling.told, start, telling.room, written)
}

/// Tells of what backing out makes of these touched slots, where there is room for that. An Err leaves what was told before.
pub fn tell_slots(slots: &[Change], stores: &Stores, telling: &mut Telling) -> Result<(), Untold>
    requires { AllByRecursion (IsToldable stores.now.stores) slots.now }
    ensures tells { OnOk result (TellsInRoom (map (back_out_told telling.old.unit stores.now.stores) slots.now) telling.old.room telling.old.told.items telling.new.told.items) }
    ensures untold { OnErr result (telling.new.told.items ≡ telling.old.told.items) }
    ensures place { telling.new ≡ record telling.old { told = telling.new.told } }
    ensures full { IfErr result (AreRecordsUntold (map (back_out_told telling.old.unit stores.now.stores) slots.now) telling.old.room) }
{
    let start = telling.told.len();
    let written = append_slots(&mut telling.told, telling.unit, slots, stores);
    end_telling(&mut telling.told, start, telling.room, written)
}

// After `Memory` a part of them may be appended.
fn append_slots(
    out: &mut Vec<u8>,
    unit: u64,
    slots: &[Change],
    stores: &Stores,
) -> Result<(), Memory>
    requires { AllByRecursion (IsToldable stores.now.stores) slots.now }
    ensures adds { OnOk result (AddsRecords (map (back_out_told unit stores.now.stores) slots.now) out.old.items out.new.items) }
    ensures kept { OnErr result (take (length out.old.items) out.new.items ≡ out.old.items) }
{
    for change in slots {
        append_touched(out, unit, change, stores)?;
    }
    Ok(())
}

fn append_touched(
    out: &mut Vec<u8>,
    unit: u64,
    change: &Change,
    stores: &Stores,
) -> Result<(), Memory>
    requires { IsToldable stores.now.stores change.now }
    ensures ok { OnOk result (out.new.items ≡ out.old.items ++ record_spelling (back_out_told unit stores.now.stores change.now)) }
    ensures valid { OnOk result (IsLogRecord (back_out_told unit stores.now.stores change.now)) }
    ensures unwritten { OnErr result (out.new.items ≡ out.old.items) }
{
    let store = stores.store(change.db);
    let present = image_in(store, change.slot);
    append_change(
        out,
        unit,
        change.db,
        change.slot,
        present.as_slice(),
        change.before.as_slice(),
    )
}

/// The image in a slot that is there.
pub fn image_in(store: &Store, slot: u16) -> &RecordImage
    requires { slot < length store.now.slots }
    ensures { slice_get store.now.slots slot ≡ Some result.now }
{
    match store.image(slot) {
        Some(image) => image,
        None => unreachable!(),
    }
}
