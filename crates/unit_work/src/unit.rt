//! The changes of a unit of work.
ghost use Rattle.std.specs.Prelude.{◌≡◌, false, [], length, slice_get, IfOk, IfErr, IfSome, OnOk, OnErr};
ghost use Rattle.std.specs.Option.{option_map};
ghost use Rattle.std.specs.List.{AllByRecursion, list_any};
ghost use Rattle.unit_work.specs.Images.{image_at};
ghost use Rattle.unit_work.specs.Marks.{AreMarked, AreAllMarked};
ghost use Rattle.unit_work.specs.Changes.{is_full, AreSlotsInOrder, AreRecordsOnce, Pairs};
ghost use Rattle.unit_work.specs.BackOut.{IsStored, CanGoBack, AreInOtherSlots, CanBackOut, is_touched, was_in, backs, cleared, backed_from, backed_out, with_record_back};
ghost use Rattle.unit_work.specs.TouchRefused.{RefusesTouch};

use crate::change::{Change, Touch, UnitSlot, add_touch, is_changed, keep, ready};
use seg_rows::RecordImage;
use seg_store::Stores;
use std::alloc::Global;
use std::marker::Model;
use thiserror::Error;
use tm_types::Key;

/// Why a record isn't touched.
#[derive(Debug, Drop, Error)]
pub enum TouchRefused {
    /// The unit would change this many records.
    #[error("{0} records are too many")]
    TooMany(u32),
    #[error("no memory")]
    Memory,
}

/// The images that the records which a unit of work changes had before it.
///
/// A unit changes at most 32 records.
#[derive(Debug, Drop)]
pub struct Unit {
    alloc: Global,
    records: Vec<Change>,
    slots: Vec<Change>,
}

impl Model for Unit {
    ghost use Rattle.unit_work.specs.Changes.{Changes, AreAllKept};

    ghost Value = { Changes };

    ghost view = { λ u. record { records = u.records.items; slots = u.slots.items } };

    ghost invariant = { λ u. AreAllKept (record { records = u.records.items; slots = u.slots.items }) };
}

/// A unit that has all the memory which its next touch takes. The touch is then kept or left.
#[derive(Debug, Drop)]
pub struct Prepared {
    alloc: Global,
    records: Vec<Change>,
    slots: Vec<Change>,
    touch: Touch,
}

impl Model for Prepared {
    ghost use Rattle.std.specs.Vec.{vec_len, vec_capacity};
    ghost use Rattle.unit_work.specs.Changes.{with_change, with_slot};
    ghost use Rattle.unit_work.specs.ReadyTouch.{Touching, HasRoomForTouch, image_to_come, with_image};

    ghost Value = { Touching };

    ghost view = { λ p. record { unit = record { records = p.records.items; slots = p.slots.items }; touched = record { records = with_change p.touch.record p.records.items; slots = with_slot (with_image p.touch.moves p.touch.record.before p.touch.slot) p.slots.items }; image = image_to_come p.touch.moves p.touch.record } };

    ghost invariant = { λ p. HasRoomForTouch (record { unit = record { records = p.records.items; slots = p.slots.items }; touched = record { records = with_change p.touch.record p.records.items; slots = with_slot (with_image p.touch.moves p.touch.record.before p.touch.slot) p.slots.items }; image = image_to_come p.touch.moves p.touch.record }) (vec_len p.records) (vec_capacity p.records) (vec_len p.slots) (vec_capacity p.slots) };
}

impl Prepared {
    /// Keeps the touch, with the image that is to come, where one is. This takes no memory.
    pub fn keep(self, before: RecordImage) -> Unit
        requires { IfSome self.image (λ image. image ≡ before) }
        ensures value { result ≡ self.touched }
        ensures order { AreSlotsInOrder self.touched.slots }
    {
        let Prepared {
            alloc,
            mut records,
            mut slots,
            touch,
        } = self;
        add_touch(&mut records, &mut slots, touch, before);
        Unit {
            alloc,
            records,
            slots,
        }
    }

    /// The unit without the touch.
    pub fn leave(self) -> Unit
        ensures { result ≡ self.unit }
    {
        Unit {
            alloc: self.alloc,
            records: self.records,
            slots: self.slots,
        }
    }
}

impl Unit {
    ghost use Rattle.unit_work.specs.Changes.{no_changes, with_touch};
    ghost use Rattle.unit_work.specs.ShownTouch.{shown_slot};

    /// A unit that has changed nothing. This takes no memory.
    pub fn new(alloc: Global) -> Unit
        ensures { result ≡ no_changes }
    {
        Unit {
            alloc,
            records: Vec::new(alloc),
            slots: Vec::new(alloc),
        }
    }

    /// Keeps the image that a record has before it is changed in this slot: of each record and of
    /// each slot the first one, and of each slot the last root.
    ///
    /// It is refused as `TooMany(33)` exactly where 32 other records are changed already, and as
    /// `Memory`, also for a 65th slot.
    pub fn touch(
        &mut self,
        db: u8,
        root: Key,
        slot: u16,
        before: RecordImage,
    ) -> Result<(), TouchRefused>
        ensures touched { OnOk result (self.new ≡ with_touch (record { db = db; slot = slot; root = root; before = before }) self.old) }
        ensures kept { OnErr result (self.new ≡ self.old) }
        ensures accepted { OnOk result (is_full db root self.old.records ≡ false) }
        ensures refused { IfErr result (RefusesTouch db root self.old.records) }
    {
        if is_full(&self.records, db, &root) {
            return Err(TouchRefused::TooMany(33));
        }
        match keep(
            self.alloc,
            &mut self.records,
            &mut self.slots,
            db,
            slot,
            root,
            before,
        ) {
            Ok(()) => Ok(()),
            Err(_) => Err(TouchRefused::Memory),
        }
    }

    /// Takes the memory that a touch of this record takes (`touch`), so that it can be kept without any. The image may be
    /// still to come, since what sets the record hands it back. Where there isn't enough memory, the unit comes back as it was.
    pub fn prepare(
        self,
        db: u8,
        root: Key,
        slot: u16,
        before: &RecordImage,
    ) -> Result<Prepared, Unit>
        requires { is_full db root self.records ≡ false }
        ensures unit { IfOk result (λ p. p.unit ≡ self) }
        ensures touched { IfOk result (λ p. p.touched ≡ with_touch (record { db = db; slot = slot; root = root; before = before.now }) self) }
        ensures image { IfOk result (λ p. IfSome p.image (λ image. image ≡ before.now)) }
        ensures kept { IfErr result (λ unit. unit ≡ self) }
    {
        let Unit {
            alloc,
            mut records,
            mut slots,
        } = self;
        match ready(alloc, &mut records, &mut slots, db, slot, root, before) {
            Ok(touch) => Ok(Prepared {
                alloc,
                records,
                slots,
                touch,
            }),
            Err(_) => Err(Unit {
                alloc,
                records,
                slots,
            }),
        }
    }

    /// Whether a change of this record would be one record more than a unit may change.
    pub fn is_full(&self, db: u8, root: &Key) -> bool
        ensures { result ≡ is_full db root.now self.now.records }
    {
        is_full(&self.records, db, root)
    }

    /// How many records are changed.
    pub fn changes(&self) -> u32
        ensures { result ≡ length self.now.records }
    {
        self.records.len() as u32
    }

    /// The touched slots, by database and slot, each with the image that it had before the unit.
    pub fn touched(&self) -> &[Change]
        ensures value { result.now ≡ self.now.slots }
        ensures order { AreSlotsInOrder self.now.slots }
    {
        &self.slots
    }

    /// The touched slot at this place, by database and slot; None exactly past the last.
    pub fn slot(&self, place: u32) -> Option<UnitSlot<'_>>
        ensures { option_map shown_slot result ≡ slice_get self.now.slots place }
    {
        match self.slots.get(place as usize) {
            Some(change) => Some(UnitSlot {
                db: change.db,
                slot: change.slot,
                root: change.root,
                before: &change.before,
            }),
            None => None,
        }
    }

    /// Takes back what the unit changed: removes the records that it touched, and puts each one that
    /// was there back into the slot that it had. No other record or slot changes, and the unit has
    /// changed nothing then. This takes no memory.
    pub fn back_out(&mut self, stores: &mut Stores)
        requires { CanBackOut self.old.records stores.old.stores }
        ensures unit { self.new ≡ no_changes }
        ensures stores { stores.new.stores ≡ backed_out self.old.records stores.old.stores }
        // The slots that it sets count as changed then.
        ensures marks { AreMarked (λ db slot. backs self.old.records db slot (image_at db slot stores.old.stores)) stores.old stores.new }
        ensures all_marked { AreAllMarked (λ db slot. backs self.old.records db slot (image_at db slot stores.old.stores)) stores.new }
    {
        remove_all(&self.records, stores);
        put_all(&mut self.records, stores);
        self.slots.clear();
    }
}

// Whether one record more would be changed than a unit may change.
fn is_full(records: &[Change], db: u8, root: &Key) -> bool
    ensures { result ≡ is_full db root.now records.now }
{
    if is_changed(records, db, root) {
        return false;
    }
    records.len() >= 32
}

fn remove_all(records: &[Change], stores: &mut Stores)
    requires { AllByRecursion (IsStored stores.old.stores) records.now }
    ensures stores { stores.new.stores ≡ cleared records.now stores.old.stores }
    ensures marks { AreMarked (λ db slot. is_touched records.now db (image_at db slot stores.old.stores)) stores.old stores.new }
    ensures all_marked { AreAllMarked (λ db slot. is_touched records.now db (image_at db slot stores.old.stores)) stores.new }
{
    for change in records {
        stores.store_mut(change.db).remove(&change.root);
    }
}

// Puts each record that was there back into its slot.
fn put_all(records: &mut Vec<Change>, stores: &mut Stores)
    requires stored { AllByRecursion (IsStored stores.old.stores) records.old.items }
    requires fits { AllByRecursion (CanGoBack stores.old.stores) records.old.items }
    requires apart { Pairs AreInOtherSlots records.old.items }
    requires once { AreRecordsOnce records.old.items }
    ensures records { records.new.items ≡ [] }
    ensures stores { stores.new.stores ≡ backed_from records.old.items 1 stores.old.stores }
    ensures marks { AreMarked (λ db slot. list_any (was_in db slot) records.old.items) stores.old stores.new }
    ensures all_marked { AreAllMarked (λ db slot. list_any (was_in db slot) records.old.items) stores.new }
{
    while let Some(change) = records.pop() {
        put_one(change, stores);
    }
}

fn put_one(change: Change, stores: &mut Stores)
    requires stored { IsStored stores.old.stores change }
    requires fits { CanGoBack stores.old.stores change }
    ensures stores { stores.new.stores ≡ with_record_back change stores.old.stores }
    ensures marks { AreMarked (λ db slot. was_in db slot change) stores.old stores.new }
    ensures all_marked { AreAllMarked (λ db slot. was_in db slot change) stores.new }
{
    if change.before.is_empty() {
        return;
    }
    let store = stores.store_mut(change.db);
    store.put_back(change.slot, change.before);
}
