//! The record of a plan is set, and its image before kept.
ghost use Rattle.std.specs.Prelude.{◌≡◌, ◌≤◌, ◌-◌, Some, None, IfOk, IfErr, OnOk, OnErr, IfSome, false, slice_get, slice_set, map, length};
ghost use Rattle.std.specs.List.{AllByRecursion};
ghost use Rattle.model_data.specs.Rows.{IsImage, record_of};
ghost use Rattle.model_data.specs.Data.{limit_abend};
ghost use Rattle.model_data.specs.EnqueueRequests.{first_blocked};
ghost use Rattle.model_data.specs.Cycle.{IsTableRegion};
ghost use Rattle.seg_rows.specs.RowsRefused.{set_refusal};
ghost use Rattle.seg_store.specs.Slots.{AreSlots, rows_of_slots, slot_for};
ghost use Rattle.unit_work.specs.Changes.{is_full, no_changes, with_touch, AreSlotsInOrder};
ghost use Rattle.dli_calls.specs.CallPlan.{IsThere, limit_of};
ghost use Rattle.program_rows.specs.DatabasesState.{database_rows_in, rows_of_stores};
ghost use Rattle.log_records.specs.ToldRecords.{TellsInRoom, AreRecordsUntold};
ghost use Rattle.program_rows.specs.PlannedChanges.{IsPut, IsSame, IsSet, EditMade, HasAskedIn, Makes, MarksEdit, TakesSlot, IsUntoldEdit, changed_in, edit_abend, edit_told, change_kept, made_told, told_unless};

use crate::asked::{Asked, ask};
use crate::opened::{Opened, put_unit, take_unit, unit_of};
use crate::telling::{Telling, image_in, tell};
use crate::{Answered, DataAnswer};
use dli_calls::{Edit, Planned};
use log_records::Untold;
use model_data::RowsLimit;
use model_data::abends::{RECORD_TOO_LONG, TOO_MANY_RECORDS, TOO_MANY_ROOTS};
use seg_rows::{RecordImage, record_limit};
use seg_store::{Store, Stores};
use std::alloc::Global;
use tm_types::{AbendCode, Dbd, Key, Memory};
use unit_work::{Prepared, Unit};

/// Makes a planned call of a region that nothing blocks, once the record that it sets is told of.
pub fn make(
    alloc: Global,
    dbd: &Dbd,
    asked: &Asked,
    planned: Planned,
    opened: &mut Opened,
    telling: &mut Telling,
) -> Result<DataAnswer, Untold>
    requires least { 1 ≤ asked.now.region }
    requires most { asked.now.region ≤ length opened.old.units.items }
    requires region { IsTableRegion opened.old.table asked.now.region }
    requires own { AllByRecursion (λ request. request.region ≡ asked.now.region) asked.now.requests.items }
    requires free { first_blocked asked.now.requests.items opened.old.table ≡ None }
    requires number { 1 ≤ asked.now.number }
    requires database { slice_get (map (λ s. s.dbd) opened.old.stores.stores) (asked.now.number - 1) ≡ Some dbd.now }
    requires image { IfSome planned.edit (λ e. IsImage dbd.now e.root e.image) }
    requires there { IsThere (database_rows_in asked.now.number (rows_of_stores opened.old.stores.stores)) planned.edit }
    requires sectors { dbd.now.sectors ≤ 8 }
    ensures made { IfOk result (Makes asked.now dbd.now planned opened.old opened.new) }
    ensures tells { IfOk result (λ a. TellsInRoom (made_told telling.old.unit asked.now.number planned.edit opened.old.stores.stores a) telling.old.room telling.old.told.items telling.new.told.items) }
    ensures kept { OnErr result (IsSame opened.old opened.new) }
    ensures untold { OnErr result (telling.new.told.items ≡ telling.old.told.items) }
    ensures place { telling.new ≡ record telling.old { told = telling.new.told } }
    ensures full { IfErr result (IsUntoldEdit asked.now dbd.now planned.edit opened.old telling.old.unit telling.old.room) }
{
    let answered = Answered {
        status: planned.status,
        area: planned.area,
        position: planned.position,
    };
    let Some(edit) = planned.edit else {
        return match ask(asked, &mut opened.table) {
            Ok(()) => Ok(DataAnswer::Answered(answered)),
            Err(_) => Err(Untold::Memory),
        };
    };
    match change(alloc, dbd, asked, edit, opened, telling) {
        Ok(None) => Ok(DataAnswer::Answered(answered)),
        Ok(Some(code)) => Ok(DataAnswer::Abend(code)),
        Err(error) => Err(error),
    }
}

// Sets a record, once it is told of, or answers the abend to which that leads. One changed record too many goes
// before a limit of the database.
fn change(
    alloc: Global,
    dbd: &Dbd,
    asked: &Asked,
    edit: Edit,
    opened: &mut Opened,
    telling: &mut Telling,
) -> Result<Option<AbendCode>, Untold>
    requires least { 1 ≤ asked.now.region }
    requires most { asked.now.region ≤ length opened.old.units.items }
    requires region { IsTableRegion opened.old.table asked.now.region }
    requires own { AllByRecursion (λ request. request.region ≡ asked.now.region) asked.now.requests.items }
    requires free { first_blocked asked.now.requests.items opened.old.table ≡ None }
    requires number { 1 ≤ asked.now.number }
    requires database { slice_get (map (λ s. s.dbd) opened.old.stores.stores) (asked.now.number - 1) ≡ Some dbd.now }
    requires image { IsImage dbd.now edit.root edit.image }
    requires there { IsThere (database_rows_in asked.now.number (rows_of_stores opened.old.stores.stores)) (Some edit) }
    requires sectors { dbd.now.sectors ≤ 8 }
    ensures abend { IfOk result (λ o. o ≡ edit_abend asked.now dbd.now edit opened.old) }
    ensures made { IfOk result (EditMade asked.now edit opened.old opened.new) }
    ensures tells { IfOk result (λ o. TellsInRoom (told_unless o (edit_told telling.old.unit asked.now.number (Some edit) opened.old.stores.stores)) telling.old.room telling.old.told.items telling.new.told.items) }
    ensures kept { OnErr result (IsSame opened.old opened.new) }
    ensures untold { OnErr result (telling.new.told.items ≡ telling.old.told.items) }
    ensures place { telling.new ≡ record telling.old { told = telling.new.told } }
    ensures full { IfErr result (IsUntoldEdit asked.now dbd.now (Some edit) opened.old telling.old.unit telling.old.room) }
{
    if unit_of(&opened.units, asked.region).is_full(asked.number, &edit.root) {
        return Ok(Some(AbendCode {
            number: TOO_MANY_RECORDS,
        }));
    }
    match slot_to_take(dbd, &edit, opened.stores.store(asked.number)) {
        Ok(slot) => match tell_and_set(alloc, asked, dbd, slot, edit, opened, telling) {
            Ok(()) => Ok(None),
            Err(error) => Err(error),
        },
        Err(limit) => Ok(Some(limit_abend(limit))),
    }
}

// The slot that a record takes, or the limit of the database that it would pass.
fn slot_to_take(dbd: &Dbd, edit: &Edit, store: &Store) -> Result<u16, RowsLimit>
    requires database { store.now.dbd ≡ dbd.now }
    requires image { IsImage dbd.now edit.now.root edit.now.image }
    requires there { IsThere (rows_of_slots store.now.slots) (Some edit.now) }
    ensures valid { AreSlots store.now.dbd store.now.slots }
    ensures slot { IfOk result (λ slot. slot_for edit.now.root store.now.slots ≡ Some slot) }
    ensures accepted { OnOk result (set_refusal dbd.now edit.now.root edit.now.image (rows_of_slots store.now.slots) ≡ None) }
    ensures refused { IfErr result (λ limit. limit_of (set_refusal dbd.now edit.now.root edit.now.image (rows_of_slots store.now.slots)) ≡ Some limit) }
{
    match store.slot_for(&edit.root) {
        Some(slot) => {
            if !edit.image.fits(record_limit(dbd)) {
                return Err(RowsLimit::RecordLength);
            }
            Ok(slot)
        }
        None => Err(RowsLimit::Roots),
    }
}

// Tells of a record, and then sets it; where it isn't set, it isn't told of.
fn tell_and_set(
    alloc: Global,
    asked: &Asked,
    dbd: &Dbd,
    slot: u16,
    edit: Edit,
    opened: &mut Opened,
    telling: &mut Telling,
) -> Result<(), Untold>
    requires least { 1 ≤ asked.now.region }
    requires most { asked.now.region ≤ length opened.old.units.items }
    requires region { IsTableRegion opened.old.table asked.now.region }
    requires own { AllByRecursion (λ request. request.region ≡ asked.now.region) asked.now.requests.items }
    requires free { first_blocked asked.now.requests.items opened.old.table ≡ None }
    requires first { 1 ≤ asked.now.number }
    requires database { slice_get (map (λ s. s.dbd) opened.old.stores.stores) (asked.now.number - 1) ≡ Some dbd.now }
    requires takes { IfSome (slice_get opened.old.stores.stores (asked.now.number - 1)) (λ s. TakesSlot s edit slot) }
    requires room { is_full asked.now.number edit.root (changed_in asked.now.region opened.old) ≡ false }
    requires sectors { dbd.now.sectors ≤ 8 }
    ensures set { OnOk result (IsSet asked.now edit opened.old opened.new) }
    ensures tells { OnOk result (TellsInRoom (edit_told telling.old.unit asked.now.number (Some edit) opened.old.stores.stores) telling.old.room telling.old.told.items telling.new.told.items) }
    ensures kept { OnErr result (IsSame opened.old opened.new) }
    ensures untold { OnErr result (telling.new.told.items ≡ telling.old.told.items) }
    ensures place { telling.new ≡ record telling.old { told = telling.new.told } }
    ensures full { IfErr result (AreRecordsUntold (edit_told telling.old.unit asked.now.number (Some edit) opened.old.stores.stores) telling.old.room) }
{
    let length = telling.told.len();
    let store = opened.stores.store(asked.number);
    let before = image_in(store, slot);
    match tell(asked.number, slot, before, &edit.image, telling) {
        Ok(()) => match set(alloc, asked, slot, edit, opened) {
            Ok(()) => Ok(()),
            Err(_) => {
                telling.told.truncate(length);
                Err(Untold::Memory)
            }
        },
        Err(error) => Err(error),
    }
}

// Keeps the record's image in the unit, asks for what the call needs, and then sets the record.
fn set(
    alloc: Global,
    asked: &Asked,
    slot: u16,
    edit: Edit,
    opened: &mut Opened,
) -> Result<(), Memory>
    requires least { 1 ≤ asked.now.region }
    requires most { asked.now.region ≤ length opened.old.units.items }
    requires region { IsTableRegion opened.old.table asked.now.region }
    requires own { AllByRecursion (λ request. request.region ≡ asked.now.region) asked.now.requests.items }
    requires free { first_blocked asked.now.requests.items opened.old.table ≡ None }
    requires first { 1 ≤ asked.now.number }
    requires last { asked.now.number ≤ length opened.old.stores.stores }
    requires takes { IfSome (slice_get opened.old.stores.stores (asked.now.number - 1)) (λ s. TakesSlot s edit slot) }
    requires room { is_full asked.now.number edit.root (changed_in asked.now.region opened.old) ≡ false }
    ensures set { OnOk result (IsSet asked.now edit opened.old opened.new) }
    ensures kept { OnErr result (IsSame opened.old opened.new) }
{
    let unit = take_unit(alloc, &mut opened.units, asked.region);
    let store = opened.stores.store(asked.number);
    match prepare(alloc, asked.number, slot, &edit.root, unit, store) {
        Ok(prepared) => keep(asked, edit, prepared, opened),
        Err(unit) => {
            put_unit(&mut opened.units, asked.region, unit);
            Err(Memory)
        }
    }
}

// Makes the touch of a record ready, with the image that it has in the store. Where that is to come, `put_record` answers it.
fn prepare(
    alloc: Global,
    number: u8,
    slot: u16,
    root: &Key,
    unit: Unit,
    store: &Store,
) -> Result<Prepared, Unit>
    requires room { is_full number root.now unit.records ≡ false }
    ensures unit { IfOk result (λ p. p.unit ≡ unit) }
    ensures touched { IfOk result (λ p. p.touched ≡ with_touch (record { db = number; slot = slot; root = root.now; before = record_of root.now (rows_of_slots store.now.slots) }) unit) }
    ensures image { IfOk result (λ p. IfSome p.image (λ image. image ≡ record_of root.now (rows_of_slots store.now.slots))) }
    ensures kept { IfErr result (λ u. u ≡ unit) }
{
    match store.find(root) {
        Some(image) => unit.prepare(number, *root, slot, image),
        None => unit.prepare(number, *root, slot, &RecordImage::new(alloc)),
    }
}

// Asks for what the call needs, keeps the touch and sets the record; or leaves the touch.
fn keep(asked: &Asked, edit: Edit, prepared: Prepared, opened: &mut Opened) -> Result<(), Memory>
    requires least { 1 ≤ asked.now.region }
    requires most { asked.now.region ≤ length opened.old.units.items }
    requires region { IsTableRegion opened.old.table asked.now.region }
    requires own { AllByRecursion (λ request. request.region ≡ asked.now.region) asked.now.requests.items }
    requires free { first_blocked asked.now.requests.items opened.old.table ≡ None }
    requires first { 1 ≤ asked.now.number }
    requires last { asked.now.number ≤ length opened.old.stores.stores }
    requires accepted { IfSome (slice_get opened.old.stores.stores (asked.now.number - 1)) (λ s. set_refusal s.dbd edit.root edit.image (rows_of_slots s.slots) ≡ None) }
    requires image { IfSome (slice_get opened.old.stores.stores (asked.now.number - 1)) (λ s. IsImage s.dbd edit.root edit.image) }
    requires before { IfSome (slice_get opened.old.stores.stores (asked.now.number - 1)) (λ s. IfSome prepared.image (λ image. image ≡ record_of edit.root (rows_of_slots s.slots))) }
    ensures put { OnOk result (IsPut asked.now.number edit opened.old.stores.stores opened.new.stores.stores) }
    ensures units { OnOk result (opened.new.units.items ≡ slice_set opened.old.units.items (asked.now.region - 1) prepared.touched) }
    ensures asked { OnOk result (HasAskedIn asked.now opened.old.table opened.new.table) }
    ensures left { OnErr result (opened.new.units.items ≡ slice_set opened.old.units.items (asked.now.region - 1) prepared.unit) }
    ensures order { OnOk result (AreSlotsInOrder prepared.touched.slots) }
    ensures marks { OnOk result (MarksEdit asked.now.number edit opened.old.stores opened.new.stores) }
    ensures stores { OnErr result (opened.new.stores.stores ≡ opened.old.stores.stores) }
    ensures changed { OnErr result (opened.new.stores.changed ≡ opened.old.stores.changed) }
    ensures table { OnErr result (opened.new.table ≡ opened.old.table) }
{
    match ask(asked, &mut opened.table) {
        Ok(()) => {
            let before = put_record(asked.number, edit, &mut opened.stores);
            put_unit(&mut opened.units, asked.region, prepared.keep(before));
            Ok(())
        }
        Err(error) => {
            put_unit(&mut opened.units, asked.region, prepared.leave());
            Err(error)
        }
    }
}

// Sets the record, and answers the image that it had.
fn put_record(number: u8, edit: Edit, stores: &mut Stores) -> RecordImage
    requires least { 1 ≤ number }
    requires most { number ≤ length stores.old.stores }
    requires accepted { IfSome (slice_get stores.old.stores (number - 1)) (λ s. set_refusal s.dbd edit.root edit.image (rows_of_slots s.slots) ≡ None) }
    requires image { IfSome (slice_get stores.old.stores (number - 1)) (λ s. IsImage s.dbd edit.root edit.image) }
    ensures put { IsPut number edit stores.old.stores stores.new.stores }
    ensures before { IfSome (slice_get stores.old.stores (number - 1)) (λ s. result ≡ record_of edit.root (rows_of_slots s.slots)) }
    ensures marks { MarksEdit number edit stores.old stores.new }
{
    let root = edit.root;
    match stores.store_mut(number).exchange(&root, edit.image) {
        Ok(before) => before,
        Err(_) => unreachable!(),
    }
}

fn limit_abend(limit: RowsLimit) -> AbendCode
    ensures { result ≡ limit_abend limit }
{
    match limit {
        RowsLimit::Roots => AbendCode {
            number: TOO_MANY_ROOTS,
        },
        RowsLimit::RecordLength => AbendCode {
            number: RECORD_TOO_LONG,
        },
    }
}
