//! The changes of open units in a snapshot.
ghost use Rattle.std.specs.Prelude.{◌≡◌, ◌≤◌, ◌++◌, length, OnOk};
ghost use Rattle.std.specs.List.{AllByRecursion};
ghost use Rattle.model_data.specs.Record.{rows_spelling as rows_spelling};
ghost use Rattle.log_records.specs.RecordSpelling.{record_spelling, IsLogRecord};
ghost use Rattle.unit_work.specs.ShownTouch.{shown_slot};
ghost use Rattle.checkpointing.specs.SpelledRecords.{AddsSpelled};
ghost use Rattle.checkpointing.specs.Touches.{image_in, touch_record, touch_records, changes_of_units, HasFewSectors, IsSpelled, AreSpelled, AreAllSpelled};

use log_records::append_change;
use model_data::Row;
use seg_store::Stores;
use tm_types::Memory;
use unit_work::{Unit, UnitSlot};

/// A unit of work that isn't done, with its number.
#[derive(Clone, Copy, Debug)]
pub struct OpenUnit<'a> {
    pub number: u64,
    pub work: &'a Unit,
}

// The rows of what stands in a slot now.
fn present_rows(stores: &Stores, db: u8, slot: u16) -> &[Row]
    requires least { 1 ≤ db }
    requires most { db ≤ length stores.now.stores }
    requires few_sectors { AllByRecursion HasFewSectors stores.now.stores }
    ensures value { result.now ≡ image_in stores.now.stores db slot }
    ensures short { length (rows_spelling (image_in stores.now.stores db slot)) ≤ 32000 }
{
    match stores.store(db).image(slot) {
        Some(image) => image.as_slice(),
        None => &[],
    }
}

// Appends the record of a slot that a unit touched: its first image, and what stands there now.
fn append_touch(
    out: &mut Vec<u8>,
    number: u64,
    slot: &UnitSlot,
    stores: &Stores,
) -> Result<(), Memory>
    requires spelled { IsSpelled stores.now.stores (shown_slot slot.now) }
    requires few_sectors { AllByRecursion HasFewSectors stores.now.stores }
    ensures ok { OnOk result (out.new.items ≡ out.old.items ++ record_spelling (touch_record number stores.entry.now.stores (shown_slot slot.entry.now))) }
    ensures valid { OnOk result (IsLogRecord (touch_record number stores.entry.now.stores (shown_slot slot.entry.now))) }
{
    let after = present_rows(stores, slot.db, slot.slot);
    append_change(
        out,
        number,
        slot.db,
        slot.slot,
        slot.before.as_slice(),
        after,
    )
}

// Appends the records of a unit, by database and slot.
fn append_unit(out: &mut Vec<u8>, unit: &OpenUnit, stores: &Stores) -> Result<(), Memory>
    requires spelled { AreSpelled stores.now.stores unit.now.work.now.slots }
    requires few_sectors { AllByRecursion HasFewSectors stores.now.stores }
    ensures { OnOk result (AddsSpelled (touch_records unit.entry.now.number stores.entry.now.stores unit.entry.now.work.now.slots) out.old.items out.new.items) }
{
    let mut place = 0;
    while let Some(slot) = unit.work.slot(place) {
        append_touch(out, unit.number, &slot, stores)?;
        place += 1;
    }
    Ok(())
}

// Appends the records of the slots that open units changed, in the order of the units, and of each by database and slot:
// the slot's first image before the unit, and the image that stands there now. A record has at most 8 sectors. After
// `Memory` a part of them may be appended.
pub(crate) fn append_touches(
    out: &mut Vec<u8>,
    units: &[OpenUnit],
    stores: &Stores,
) -> Result<(), Memory>
    requires spelled { AreAllSpelled stores.now.stores units.now }
    requires few_sectors { AllByRecursion HasFewSectors stores.now.stores }
    ensures { OnOk result (AddsSpelled (changes_of_units stores.entry.now.stores units.entry.now) out.old.items out.new.items) }
{
    for unit in units {
        append_unit(out, unit, stores)?;
    }
    Ok(())
}
