//! The store of one database.
ghost use Rattle.std.specs.Prelude.{◌≡◌, ◌↔◌, ◌*◌, ◌+◌, ◌≤◌, ◌<◌, ◌≢◌, ℕ, [], ◌∷◌, IfOk, IfErr, IfSome, OnOk, OnErr, IsOk, IsNone, IsTrue, None, Some, slice_get, slice_set, length};
ghost use Rattle.std.specs.Vec.{vec_len};
ghost use Rattle.std.specs.Option.{is_some, option_copied};
ghost use Rattle.model_data.specs.Record.{IsRecord, IsLongRecord};
ghost use Rattle.model_data.specs.Rows.{record_of, with_record, IsImage, AreRows};
ghost use Rattle.seg_rows.specs.RowsRefused.{set_refusal};
ghost use Rattle.tm_disk.specs.Disk.{Stays, Within, Follows, WritesAtMost, FailedSince};
ghost use Rattle.seg_store.specs.ChangedSlots.{stored, with_number, with_changed_number, slot_changed, AreChanged};
ghost use Rattle.seg_store.specs.DataSectors.{MayPut, HasPut, PutsFront, pieces_of, bytes_of_slots};
ghost use Rattle.seg_store.specs.OneSlot.{without_number};
ghost use Rattle.seg_store.specs.WrittenSlots.{pieces_kept};
ghost use Rattle.seg_store.specs.Slots.{image_root, slot_of_root, lowest_free, slot_for, with_root, rows_of_slots, AreSlots, free_slots, without_root};

use crate::changed::{add_changed, take_changed};
use crate::copying::{copy_images, copy_list};
use crate::data_sectors::put_slots;
use crate::free::{add_slot, all_free, lowest, take_slot};
use crate::index::{add_root, next_entry, slot_of, take_root};
use seg_rows::{RecordImage, Rows, RowsRefused, record_limit};
use std::alloc::Global;
use std::marker::Model;
use std::mem;
use tm_disk::{Disk, DiskFault};
use tm_types::{Dbd, Key, Memory};

/// The rows of one database, the image of each record in a slot of its own.
///
/// There are as many slots as the database may have roots. A slot without rows is free. A slot counts as changed from
/// when a record was set, put back or taken out there until it is written, also where it then has the same again.
#[derive(Debug, Drop)]
pub struct Store {
    alloc: Global,
    dbd: Dbd,
    slots: Vec<RecordImage>,
    index: Vec<(Key, u16)>,
    free: Vec<u16>,
    changed: Vec<u16>,
}

impl Model for Store {
    ghost use Rattle.std.specs.Vec.{vec_capacity};
    ghost use Rattle.seg_store.specs.ChangedSlots.{Kept, AreChanged};
    ghost use Rattle.seg_store.specs.Store.{AreSlotsIndexed, IsStoreKept};

    ghost Value = { Kept };

    ghost view = { λ s. record { dbd = s.dbd; slots = s.slots.items; changed = s.changed.items } };

    ghost invariant = { λ s. IsStoreKept s.dbd s.slots.items s.index.items (vec_capacity s.index) s.free.items (vec_capacity s.free) s.changed.items (vec_capacity s.changed) };
}

impl Store {
    /// No rows of this database. This takes all the room that roots will need.
    pub fn empty(alloc: Global, dbd: &Dbd) -> Result<Store, Memory>
        ensures database { IfOk result (λ s. s.dbd ≡ dbd.now) }
        ensures free { IfOk result (λ s. s.slots ≡ free_slots dbd.now.roots) }
        ensures rows { IfOk result (λ s. rows_of_slots s.slots ≡ []) }
        ensures changed { IfOk result (λ s. s.changed ≡ []) }
    {
        let _types = dbd.types.as_slice();
        Ok(Store {
            alloc,
            dbd: dbd.clone()?,
            slots: no_records(alloc, dbd.roots)?,
            index: Vec::with_capacity(alloc, dbd.roots as usize)?,
            free: all_free(alloc, dbd.roots)?,
            changed: Vec::with_capacity(alloc, dbd.roots as usize)?,
        })
    }

    /// The same store once more, with the same slots changed.
    pub fn copy(&self) -> Result<Store, Memory>
        ensures { IfOk result (λ s. s ≡ self.now) }
    {
        let roots = self.dbd.roots;
        Ok(Store {
            alloc: self.alloc,
            dbd: self.dbd.clone()?,
            slots: copy_images(self.alloc, &self.slots)?,
            index: copy_list(self.alloc, &self.index, roots)?,
            free: copy_list(self.alloc, &self.free, roots)?,
            changed: copy_list(self.alloc, &self.changed, roots)?,
        })
    }

    /// How many sectors the slots have.
    pub(crate) fn sectors(&self) -> u32
        ensures { result ≡ self.now.dbd.roots * self.now.dbd.sectors }
    {
        u32::from(self.dbd.roots) * u32::from(self.dbd.sectors)
    }

    /// How many sectors each slot has.
    pub(crate) fn slot_sectors(&self) -> u32
        ensures { result ≡ self.now.dbd.sectors }
    {
        u32::from(self.dbd.sectors)
    }

    /// Whether there is a record with this root.
    pub fn has_record(&self, root: &Key) -> bool
        ensures { result ≡ is_some (slot_of_root root.now self.now.slots) }
    {
        slot_of(&self.index, root).is_some()
    }

    /// The record of this root, or None exactly where there is no such root.
    pub fn find(&self, root: &Key) -> Option<&RecordImage>
        ensures found { IfSome result (λ image. image.now ≡ record_of root.now (rows_of_slots self.now.slots)) }
        ensures none { IsNone result ↔ (record_of root.now (rows_of_slots self.now.slots) ≡ []) }
        ensures valid { AreRows self.now.dbd (rows_of_slots self.now.slots) }
    {
        match slot_of(&self.index, root) {
            Some(slot) => Some(&self.slots[slot as usize]),
            None => None,
        }
    }

    /// The image in this slot, without rows where it is free; None exactly past the last slot.
    pub fn image(&self, slot: u16) -> Option<&RecordImage>
        ensures value { option_copied result ≡ slice_get self.now.slots slot }
        ensures valid { AreSlots self.now.dbd self.now.slots }
    {
        image_at(&self.slots, slot)
    }

    /// No slot counts as changed any more: what stands in the sectors is the caller's.
    pub fn settle(&mut self)
        ensures { self.new ≡ record self.old { changed = [] } }
    {
        self.changed.clear();
    }

    /// This slot doesn't count as changed any more: what stands in its sectors is the caller's. This takes no memory.
    pub fn settle_slot(&mut self, slot: u16)
        ensures { self.new ≡ record self.old { changed = without_number slot self.old.changed } }
    {
        take_changed(&mut self.changed, slot);
    }

    /// The lowest changed slot; None exactly where none is changed.
    pub fn lowest(&self) -> Option<u16>
        ensures value { result ≡ slice_get self.now.changed 0 }
        ensures valid { AreChanged self.now.dbd.roots self.now.changed }
    {
        let _roots = self.dbd.roots;
        lowest(&self.changed)
    }

    /// How many slots are changed.
    pub fn dirty(&self) -> u32
        ensures count { result ≡ length self.now.changed }
        ensures valid { AreChanged self.now.dbd.roots self.now.changed }
    {
        let _roots = self.dbd.roots;
        self.changed.len() as u32
    }

    // How many sectors the changed slots have.
    fn dirty_sectors(&self) -> u32
        ensures { result ≡ length self.now.changed * self.now.dbd.sectors }
    {
        let _roots = self.dbd.roots;
        self.dirty() * u32::from(self.dbd.sectors)
    }

    /// Writes the records of the changed slots into their sectors, in ascending order, where slot 0 has the sector
    /// `first`; the answer is how many sectors those are, and none is changed then. Nothing is synced. `Disk` comes exactly where
    /// the disk failed in the call; then all of them still count as changed. The records and slots stay in any case.
    pub fn write_back<D: Disk>(&mut self, disk: &mut D, first: u32) -> Result<u32, DiskFault>
        requires area { first + self.old.dbd.roots * self.old.dbd.sectors ≤ (D.state disk.old).size }
        requires sectors { self.old.dbd.sectors ≤ 8 }
        ensures stays { Stays (D.state disk.old) (D.state disk.new) }
        // Whenever a crash comes, each sector is as it was or has the record of its changed slot.
        ensures any_moment { Within (MayPut first (pieces_kept self.old)) (D.state disk.old) (D.state disk.new) }
        ensures follows { Follows (MayPut first (pieces_kept self.old)) (D.state disk.old) (D.state disk.new) }
        // Then each of them is read, and a sync makes it last.
        ensures shown { OnOk result (IsTrue (D.state disk.old).tells → HasPut first (pieces_kept self.old) (D.state disk.old).shown (D.state disk.new).shown) }
        // Where the disk fails, the sectors in front are written, and none behind: so they are written in ascending order.
        ensures ascending { OnErr result (IsTrue (D.state disk.old).tells → PutsFront first (pieces_kept self.old) (D.state disk.old).shown (D.state disk.new).shown) }
        ensures count { IfOk result (λ n. n ≡ length self.old.changed * self.old.dbd.sectors) }
        ensures few { length self.old.changed * self.old.dbd.sectors ≤ self.old.dbd.roots * self.old.dbd.sectors }
        ensures written { OnOk result (self.new ≡ record self.old { changed = [] }) }
        ensures kept { OnErr result (self.new ≡ self.old) }
        ensures writes { WritesAtMost (length self.old.changed * self.old.dbd.sectors) (D.state disk.old) (D.state disk.new) }
        ensures no_fault { OnOk result ((D.state disk.new).faults ≡ (D.state disk.old).faults) }
        ensures cause { OnErr result (FailedSince (D.state disk.old) (D.state disk.new)) }
    {
        let count = self.write_changed(disk, first)?;
        self.settle();
        Ok(count)
    }

    /// Writes the records of the changed slots into their sectors, in ascending order, where slot 0 has the sector
    /// `first`; the answer is how many sectors those are. They still count as changed, until `settle`. Nothing is synced. `Disk` comes
    /// exactly where the disk failed in the call.
    pub fn write_changed<D: Disk>(&self, disk: &mut D, first: u32) -> Result<u32, DiskFault>
        requires area { first + self.now.dbd.roots * self.now.dbd.sectors ≤ (D.state disk.old).size }
        requires sectors { self.now.dbd.sectors ≤ 8 }
        ensures stays { Stays (D.state disk.old) (D.state disk.new) }
        // Whenever a crash comes, each sector is as it was or has the record of its changed slot.
        ensures any_moment { Within (MayPut first (pieces_kept self.now)) (D.state disk.old) (D.state disk.new) }
        ensures follows { Follows (MayPut first (pieces_kept self.now)) (D.state disk.old) (D.state disk.new) }
        // Then each of them is read, and a sync makes it last.
        ensures shown { OnOk result (IsTrue (D.state disk.old).tells → HasPut first (pieces_kept self.now) (D.state disk.old).shown (D.state disk.new).shown) }
        // Where the disk fails, the sectors in front are written, and none behind: so they are written in ascending order.
        ensures ascending { OnErr result (IsTrue (D.state disk.old).tells → PutsFront first (pieces_kept self.now) (D.state disk.old).shown (D.state disk.new).shown) }
        ensures count { IfOk result (λ n. n ≡ length self.now.changed * self.now.dbd.sectors) }
        ensures few { length self.now.changed * self.now.dbd.sectors ≤ self.now.dbd.roots * self.now.dbd.sectors }
        ensures writes { WritesAtMost (length self.now.changed * self.now.dbd.sectors) (D.state disk.old) (D.state disk.new) }
        ensures no_fault { OnOk result ((D.state disk.new).faults ≡ (D.state disk.old).faults) }
        ensures cause { OnErr result (FailedSince (D.state disk.old) (D.state disk.new)) }
    {
        let sectors = self.dbd.sectors;
        if put_slots(disk, first, sectors, &self.slots, &self.changed).is_err() {
            return Err(DiskFault::Disk);
        }
        Ok(self.dirty_sectors())
    }

    /// Writes the record of this slot, one below the database's ROOTS, into its sectors, in ascending order, where slot 0 has the
    /// sector `first`; that of a free slot has no bytes. Whether it counts as changed stays, until `settle_slot`. Nothing is synced. `Disk` comes exactly where the disk failed in the call.
    pub fn write_slot<D: Disk>(&self, disk: &mut D, first: u32, slot: u16) -> Result<(), DiskFault>
        requires there { slot < self.now.dbd.roots }
        requires area { first + self.now.dbd.roots * self.now.dbd.sectors ≤ (D.state disk.old).size }
        requires sectors { self.now.dbd.sectors ≤ 8 }
        ensures stays { Stays (D.state disk.old) (D.state disk.new) }
        // Whenever a crash comes, each sector is as it was or has its piece of the slot's record.
        ensures any_moment { Within (MayPut first (pieces_of self.now.dbd.sectors (bytes_of_slots self.now.slots (slot ∷ [])))) (D.state disk.old) (D.state disk.new) }
        ensures follows { Follows (MayPut first (pieces_of self.now.dbd.sectors (bytes_of_slots self.now.slots (slot ∷ [])))) (D.state disk.old) (D.state disk.new) }
        // Then each of them is read, and a sync makes it last.
        ensures shown { OnOk result (IsTrue (D.state disk.old).tells → HasPut first (pieces_of self.now.dbd.sectors (bytes_of_slots self.now.slots (slot ∷ []))) (D.state disk.old).shown (D.state disk.new).shown) }
        // Where the disk fails, the sectors in front are written, and none behind: so they are written in ascending order.
        ensures ascending { OnErr result (IsTrue (D.state disk.old).tells → PutsFront first (pieces_of self.now.dbd.sectors (bytes_of_slots self.now.slots (slot ∷ []))) (D.state disk.old).shown (D.state disk.new).shown) }
        ensures writes { WritesAtMost self.now.dbd.sectors (D.state disk.old) (D.state disk.new) }
        ensures no_fault { OnOk result ((D.state disk.new).faults ≡ (D.state disk.old).faults) }
        ensures cause { OnErr result (FailedSince (D.state disk.old) (D.state disk.new)) }
    {
        put_slots(disk, first, self.dbd.sectors, &self.slots, &[slot])
    }

    /// The slot of the record with this root, or else the lowest free slot, which the next `set` of
    /// that root takes. None exactly where no record has the root and no slot is free.
    pub fn slot_for(&self, root: &Key) -> Option<u16>
        ensures value { result ≡ slot_for root.now self.now.slots }
        ensures valid { AreSlots self.now.dbd self.now.slots }
    {
        match slot_of(&self.index, root) {
            Some(slot) => Some(slot),
            None => lowest(&self.free),
        }
    }

    /// Removes the record with this root, if there is one, and frees its slot; the answer is the image that it had, or
    /// none without rows where there was none. All other slots stay. This takes no memory.
    pub fn remove(&mut self, root: &Key) -> RecordImage
        ensures was { result ≡ record_of root.now (rows_of_slots self.old.slots) }
        ensures slots { self.new.slots ≡ with_root root.now [] self.old.slots }
        ensures freed { self.new.slots ≡ without_root root.now self.old.slots }
        ensures rows { rows_of_slots self.new.slots ≡ with_record root.now [] (rows_of_slots self.old.slots) }
        ensures changed { self.new.changed ≡ with_changed_number (slot_of_root root.now self.old.slots) self.old.changed }
        ensures database { self.new.dbd ≡ self.old.dbd }
        ensures valid { AreSlots self.new.dbd self.new.slots }
    {
        let Some(slot) = take_root(&mut self.index, root) else {
            return RecordImage::new(self.alloc);
        };
        let before = swap(&mut self.slots, slot, RecordImage::new(self.alloc));
        add_slot(&mut self.free, slot);
        add_changed(&mut self.changed, slot);
        before
    }

    /// Sets a record as `set` does; the answer is the image that it had, without rows where there was none. This takes
    /// no memory.
    pub fn exchange(&mut self, root: &Key, image: RecordImage) -> Result<RecordImage, RowsRefused>
        requires { IsImage self.old.dbd root.now image }
        ensures was { IfOk result (λ before. before ≡ record_of root.now (rows_of_slots self.old.slots)) }
        ensures replaced { OnOk result (rows_of_slots self.new.slots ≡ with_record root.now image (rows_of_slots self.old.slots)) }
        ensures kept { OnErr result (self.new ≡ self.old) }
        ensures accepted { OnOk result (set_refusal self.old.dbd root.now image (rows_of_slots self.old.slots) ≡ None) }
        ensures refused { IfErr result (λ refusal. set_refusal self.old.dbd root.now image (rows_of_slots self.old.slots) ≡ Some refusal) }
        ensures database { self.new.dbd ≡ self.old.dbd }
        ensures slots { OnOk result (self.new.slots ≡ with_root root.now image self.old.slots) }
        ensures changed { OnOk result (self.new.changed ≡ with_changed_number (slot_changed root.now image self.old.slots) self.old.changed) }
        ensures valid { AreSlots self.new.dbd self.new.slots }
        // A record is removed in any case.
        ensures removed { image ≡ [] → IsOk result }
    {
        if image.is_empty() {
            return Ok(self.remove(root));
        }
        match slot_of(&self.index, root) {
            Some(slot) => self.replace(root, slot, image),
            None => self.add(root, image),
        }
    }

    /// Puts a record into its slot. All other slots stay. This takes no memory.
    pub fn put_back(&mut self, slot: u16, image: RecordImage)
        requires free { slice_get self.old.slots slot ≡ Some [] }
        requires valid { IsRecord self.old.dbd (image_root image) image }
        requires new { slot_of_root (image_root image) self.old.slots ≡ None }
        ensures slots { self.new.slots ≡ slice_set self.old.slots slot image }
        ensures rows { rows_of_slots self.new.slots ≡ with_record (image_root image) image (rows_of_slots self.old.slots) }
        ensures changed { self.new.changed ≡ with_number slot self.old.changed }
        ensures database { self.new.dbd ≡ self.old.dbd }
        ensures valid { AreSlots self.new.dbd self.new.slots }
    {
        let Some(root) = image.root() else {
            unreachable!()
        };
        self.fill(&root, slot, image);
    }

    // Puts a record into a free slot.
    fn fill(&mut self, root: &Key, slot: u16, image: RecordImage)
        requires free { slice_get self.old.slots slot ≡ Some [] }
        requires valid { IsRecord self.old.dbd root.now image }
        requires new { slot_of_root root.now self.old.slots ≡ None }
        ensures slots { self.new.slots ≡ slice_set self.old.slots slot image }
        ensures rows { rows_of_slots self.new.slots ≡ with_record root.now image (rows_of_slots self.old.slots) }
        ensures changed { self.new.changed ≡ with_number slot self.old.changed }
        ensures database { self.new.dbd ≡ self.old.dbd }
        ensures valid { AreSlots self.new.dbd self.new.slots }
    {
        add_root(&mut self.index, root, slot);
        take_slot(&mut self.free, slot);
        put(&mut self.slots, slot, image);
        add_changed(&mut self.changed, slot);
    }

    // Adds a record in the lowest free slot; the image that it had is one without rows.
    fn add(&mut self, root: &Key, image: RecordImage) -> Result<RecordImage, RowsRefused>
        requires image { IsLongRecord self.old.dbd.types root.now image }
        requires new { slot_of_root root.now self.old.slots ≡ None }
        ensures was { IfOk result (λ before. before ≡ record_of root.now (rows_of_slots self.old.slots)) }
        ensures slots { OnOk result (self.new.slots ≡ with_root root.now image self.old.slots) }
        ensures rows { OnOk result (rows_of_slots self.new.slots ≡ with_record root.now image (rows_of_slots self.old.slots)) }
        ensures changed { OnOk result (self.new.changed ≡ with_changed_number (slot_for root.now self.old.slots) self.old.changed) }
        ensures kept { OnErr result (self.new ≡ self.old) }
        ensures accepted { OnOk result (set_refusal self.old.dbd root.now image (rows_of_slots self.old.slots) ≡ None) }
        ensures refused { IfErr result (λ refusal. set_refusal self.old.dbd root.now image (rows_of_slots self.old.slots) ≡ Some refusal) }
        ensures database { self.new.dbd ≡ self.old.dbd }
        ensures valid { AreSlots self.new.dbd self.new.slots }
    {
        let Some(slot) = lowest(&self.free) else {
            return Err(RowsRefused::RootLimit);
        };
        if !image.fits(record_limit(&self.dbd)) {
            return Err(RowsRefused::RecordTooLong);
        }
        self.fill(root, slot, image);
        Ok(RecordImage::new(self.alloc))
    }

    // Puts a record in place of the one in its slot, which is answered.
    fn replace(
        &mut self,
        root: &Key,
        slot: u16,
        image: RecordImage,
    ) -> Result<RecordImage, RowsRefused>
        requires image { IsLongRecord self.old.dbd.types root.now image }
        requires there { slot_of_root root.now self.old.slots ≡ Some slot }
        ensures was { IfOk result (λ before. before ≡ record_of root.now (rows_of_slots self.old.slots)) }
        ensures slots { OnOk result (self.new.slots ≡ with_root root.now image self.old.slots) }
        ensures rows { OnOk result (rows_of_slots self.new.slots ≡ with_record root.now image (rows_of_slots self.old.slots)) }
        ensures changed { OnOk result (self.new.changed ≡ with_number slot self.old.changed) }
        ensures kept { OnErr result (self.new ≡ self.old) }
        ensures accepted { OnOk result (set_refusal self.old.dbd root.now image (rows_of_slots self.old.slots) ≡ None) }
        ensures refused { IfErr result (λ refusal. set_refusal self.old.dbd root.now image (rows_of_slots self.old.slots) ≡ Some refusal) }
        ensures database { self.new.dbd ≡ self.old.dbd }
        ensures valid { AreSlots self.new.dbd self.new.slots }
    {
        if !image.fits(record_limit(&self.dbd)) {
            return Err(RowsRefused::RecordTooLong);
        }
        let before = swap(&mut self.slots, slot, image);
        add_changed(&mut self.changed, slot);
        Ok(before)
    }
}

impl Rows for Store {
    ghost use Rattle.std.specs.Prelude.{true};
    ghost use Rattle.seg_store.specs.Store.{store_none, store_on, store_same};

    ghost database = { λ s. s.dbd };

    ghost rows = { λ s. rows_of_slots s.slots };

    ghost tells = { λ s. true };

    ghost faults = { λ s. 0 };

    ghost reads = { λ a b. b ≡ a };

    ghost read_none = { store_none };

    ghost read_on = { store_on };

    ghost read_same = { store_same };

    fn record(&mut self, root: &Key) -> Result<Option<&RecordImage>, RowsRefused> {
        Ok(self.find(root))
    }

    fn next_root(&self, after: Option<&Key>) -> Option<Key> {
        match next_entry(&self.index, after) {
            Some(entry) => Some(entry.0),
            None => None,
        }
    }

    /// As of all rows. The record keeps its slot, or takes the lowest free one; an image without
    /// rows frees the slot. This takes no memory.
    fn set(&mut self, root: &Key, image: RecordImage) -> Result<(), RowsRefused>
        requires { IsImage self.old.dbd root.now image }
        ensures replaced { OnOk result (rows_of_slots self.new.slots ≡ with_record root.now image (rows_of_slots self.old.slots)) }
        ensures kept { OnErr result (self.new ≡ self.old) }
        ensures accepted { OnOk result (set_refusal self.old.dbd root.now image (rows_of_slots self.old.slots) ≡ None) }
        ensures refused { IfErr result (λ refusal. set_refusal self.old.dbd root.now image (rows_of_slots self.old.slots) ≡ Some refusal) }
        ensures database { self.new.dbd ≡ self.old.dbd }
        ensures valid { AreRows self.new.dbd (rows_of_slots self.new.slots) }
        // What it leaves in the slots.
        ensures slots { OnOk result (self.new.slots ≡ with_root root.now image self.old.slots) }
        ensures changed { OnOk result (self.new.changed ≡ with_changed_number (slot_changed root.now image self.old.slots) self.old.changed) }
        ensures valid_slots { AreSlots self.new.dbd self.new.slots }
        // A record is removed in any case.
        ensures removed { image ≡ [] → IsOk result }
    {
        match self.exchange(root, image) {
            Ok(_) => Ok(()),
            Err(refusal) => Err(refusal),
        }
    }
}

// A free slot for each root.
fn no_records(alloc: Global, roots: u16) -> Result<Vec<RecordImage>, Memory>
    ensures { IfOk result (λ slots. slots.items ≡ free_slots roots) }
{
    let mut slots = Vec::with_capacity(alloc, roots as usize)?;
    for _ in 0..roots {
        slots.push(RecordImage::new(alloc))?;
    }
    Ok(slots)
}

fn image_at(slots: &[RecordImage], slot: u16) -> Option<&RecordImage>
    ensures { option_copied result ≡ slice_get slots.now slot }
{
    slots.get(slot as usize)
}

fn put(slots: &mut Vec<RecordImage>, slot: u16, image: RecordImage)
    requires { slot < length slots.old.items }
    ensures { slots.new.items ≡ slice_set slots.old.items slot image }
{
    slots[slot as usize] = image;
}

// Puts an image in place of the one in the slot, which is answered.
fn swap(slots: &mut Vec<RecordImage>, slot: u16, image: RecordImage) -> RecordImage
    requires { slot < length slots.old.items }
    ensures was { slice_get slots.old.items slot ≡ Some result }
    ensures slots { slots.new.items ≡ slice_set slots.old.items slot image }
{
    mem::replace(&mut slots[slot as usize], image)
}
