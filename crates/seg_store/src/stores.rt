//! The stores of a system.
ghost use Rattle.std.specs.Prelude.{◌≡◌, ◌+◌, ◌<◌, ◌≤◌, ◌-◌, ◌^◌, IfOk, IfSome, OnOk, OnErr, None, Some, length, slice_get, IsTrue, ◌↔◌, []};
ghost use Rattle.std.specs.Borrow.{sem};
ghost use Rattle.std.specs.List.{AllByRecursion};
ghost use Rattle.tm_disk.specs.Disk.{Stays, Within, Follows, WritesAtMost, FailedSince};
ghost use Rattle.seg_store.specs.Slots.{AreSlots};
ghost use Rattle.seg_store.specs.DataSectors.{MayPut, HasPut, PutsFront};
ghost use Rattle.seg_store.specs.WrittenSlots.{sector_count, changed_sectors, changed_bytes, all_written};
ghost use Rattle.seg_store.specs.OneSlot.{lowest_changed, changed_count, without_slot, only_changed, one_written, slot_sectors_at, slot_sector, IsSlotPlace, IsMarked};

use crate::one_slot::{area_first, lowest_of, settle_of, write_of};
use crate::write_back::{settle_all, write_all};
use crate::{SlotPlace, Store};
use std::alloc::Global;
use std::marker::Model;
use tm_disk::{Disk, DiskFault};
use tm_types::{Dbd, Memory};

/// The stores of a system's databases, in their order.
#[derive(Debug, Drop)]
pub struct Stores {
    items: Vec<Store>,
}

impl Model for Stores {
    ghost use Rattle.seg_store.specs.ChangedSlots.{AllStores, all_stores};

    ghost Value = { AllStores };

    ghost view = { λ s. all_stores s.items.items };
}

impl Stores {
    ghost use Rattle.seg_store.specs.ChangedSlots.{all_stores};
    ghost use Rattle.seg_store.specs.Stores.{empty_stores, no_changed, IsStoreOf, LendsStore};

    /// A store without rows for each of these databases.
    pub fn empty(alloc: Global, dbds: &[Dbd]) -> Result<Stores, Memory>
        ensures stores { IfOk result (λ s. s.stores ≡ empty_stores dbds.now) }
        ensures changed { IfOk result (λ s. s.changed ≡ no_changed dbds.now) }
    {
        let mut items = Vec::with_capacity(alloc, dbds.len())?;
        for dbd in dbds {
            items.push(Store::empty(alloc, dbd)?)?;
        }
        Ok(Stores { items })
    }

    /// These stores. This takes no memory.
    pub fn of(items: Vec<Store>) -> Stores
        ensures { result ≡ all_stores items.items }
    {
        Stores { items }
    }

    /// The same stores once more, with the same slots changed.
    pub fn copy(&self, alloc: Global) -> Result<Stores, Memory>
        ensures { IfOk result (λ s. s ≡ self.now) }
    {
        Ok(Stores {
            items: copy_stores(alloc, &self.items)?,
        })
    }

    /// Writes the records of the changed slots of all databases into their sectors, in ascending order, where the
    /// databases' slots stand one behind the other from the sector `first` on; the answer is how many sectors those are, and none is
    /// changed then. Nothing is synced. `Disk` comes exactly where the disk failed in the call; then all of them still count
    /// as changed. The records and slots stay in any case.
    pub fn write_back<D: Disk>(&mut self, disk: &mut D, first: u32) -> Result<u32, DiskFault>
        requires area { first + sector_count self.old.stores ≤ (D.state disk.old).size }
        requires sectors { AllByRecursion (λ s. s.dbd.sectors ≤ 8) self.old.stores }
        ensures stays { Stays (D.state disk.old) (D.state disk.new) }
        // Whenever a crash comes, each sector is as it was or has the record of its changed slot.
        ensures any_moment { Within (MayPut first (changed_bytes self.old)) (D.state disk.old) (D.state disk.new) }
        ensures follows { Follows (MayPut first (changed_bytes self.old)) (D.state disk.old) (D.state disk.new) }
        // Then each of them is read, and a sync makes it last.
        ensures shown { OnOk result (IsTrue (D.state disk.old).tells → HasPut first (changed_bytes self.old) (D.state disk.old).shown (D.state disk.new).shown) }
        // Where the disk fails, the sectors in front are written, and none behind: so they are written in ascending order.
        ensures ascending { OnErr result (IsTrue (D.state disk.old).tells → PutsFront first (changed_bytes self.old) (D.state disk.old).shown (D.state disk.new).shown) }
        ensures count { IfOk result (λ n. n ≡ changed_sectors self.old.stores self.old.changed) }
        ensures written { OnOk result (self.new ≡ all_written self.old) }
        ensures kept { OnErr result (self.new ≡ self.old) }
        ensures writes { WritesAtMost (changed_sectors self.old.stores self.old.changed) (D.state disk.old) (D.state disk.new) }
        ensures no_fault { OnOk result ((D.state disk.new).faults ≡ (D.state disk.old).faults) }
        ensures cause { OnErr result (FailedSince (D.state disk.old) (D.state disk.new)) }
    {
        let count = self.write_changed(disk, first)?;
        self.settle();
        Ok(count)
    }

    /// Writes the records of the changed slots of all databases into their sectors, in ascending order, where the
    /// databases' slots stand one behind the other from the sector `first` on; the answer is how many sectors those are. They still
    /// count as changed, until `settle`: a checkpoint lends the stores while it writes. Nothing is synced. `Disk` comes exactly
    /// where the disk failed in the call.
    pub fn write_changed<D: Disk>(&self, disk: &mut D, first: u32) -> Result<u32, DiskFault>
        requires area { first + sector_count self.now.stores ≤ (D.state disk.old).size }
        requires sectors { AllByRecursion (λ s. s.dbd.sectors ≤ 8) self.now.stores }
        ensures stays { Stays (D.state disk.old) (D.state disk.new) }
        // Whenever a crash comes, each sector is as it was or has the record of its changed slot.
        ensures any_moment { Within (MayPut first (changed_bytes self.now)) (D.state disk.old) (D.state disk.new) }
        ensures follows { Follows (MayPut first (changed_bytes self.now)) (D.state disk.old) (D.state disk.new) }
        // Then each of them is read, and a sync makes it last.
        ensures shown { OnOk result (IsTrue (D.state disk.old).tells → HasPut first (changed_bytes self.now) (D.state disk.old).shown (D.state disk.new).shown) }
        // Where the disk fails, the sectors in front are written, and none behind: so they are written in ascending order.
        ensures ascending { OnErr result (IsTrue (D.state disk.old).tells → PutsFront first (changed_bytes self.now) (D.state disk.old).shown (D.state disk.new).shown) }
        ensures count { IfOk result (λ n. n ≡ changed_sectors self.now.stores self.now.changed) }
        ensures writes { WritesAtMost (changed_sectors self.now.stores self.now.changed) (D.state disk.old) (D.state disk.new) }
        ensures no_fault { OnOk result ((D.state disk.new).faults ≡ (D.state disk.old).faults) }
        ensures cause { OnErr result (FailedSince (D.state disk.old) (D.state disk.new)) }
    {
        write_all(disk, first, &self.items)
    }

    /// No slot counts as changed any more: what stands in the sectors is the caller's.
    pub fn settle(&mut self)
        ensures { self.new ≡ all_written self.old }
    {
        settle_all(&mut self.items)
    }

    /// The lowest changed slot, that of the first database that has one; None exactly where none is changed.
    pub fn lowest(&self) -> Option<SlotPlace>
        requires few { length self.now.stores ≤ 255 }
        ensures value { result ≡ lowest_changed self.now.changed }
        ensures there { IfSome result (λ place. IsSlotPlace place self.now.stores) }
        ensures marked { IfSome result (λ place. IsMarked place self.now.changed) }
        ensures none { (result ≡ None) ↔ (changed_count self.now.changed ≡ 0) }
        // Once it is settled, one fewer is changed.
        ensures fewer { IfSome result (λ place. changed_count (without_slot place self.now.changed) + 1 ≡ changed_count self.now.changed) }
    {
        lowest_of(&self.items)
    }

    /// The first sector of this slot, which is there, where the databases' slots stand one behind the other from the sector `first` on.
    pub fn slot_sector(&self, first: u32, place: SlotPlace) -> u32
        requires there { IsSlotPlace place self.now.stores }
        requires small { first + sector_count self.now.stores < 2 ^ 32 }
        ensures { result ≡ slot_sector first place self.now.stores }
    {
        let database = usize::from(place.db) - 1;
        area_first(first, &self.items, database)
            + u32::from(place.slot) * self.items[database].slot_sectors()
    }

    /// Writes the record of this slot, which is there, into its sectors, in ascending order, where the databases' slots stand one behind the other
    /// from the sector `first` on. Whether it counts as changed stays, until `settle_slot`. Nothing is synced. `Disk` comes exactly
    /// where the disk failed in the call.
    pub fn write_slot<D: Disk>(
        &self,
        disk: &mut D,
        first: u32,
        place: SlotPlace,
    ) -> Result<(), DiskFault>
        requires there { IsSlotPlace place self.now.stores }
        requires area { first + sector_count self.now.stores ≤ (D.state disk.old).size }
        requires sectors { AllByRecursion (λ s. s.dbd.sectors ≤ 8) self.now.stores }
        ensures stays { Stays (D.state disk.old) (D.state disk.new) }
        // Whenever a crash comes, each sector is as it was or has its piece of the slot's record.
        ensures any_moment { Within (MayPut first (changed_bytes (only_changed place self.now))) (D.state disk.old) (D.state disk.new) }
        ensures follows { Follows (MayPut first (changed_bytes (only_changed place self.now))) (D.state disk.old) (D.state disk.new) }
        // Then each of them is read, and a sync makes it last.
        ensures shown { OnOk result (IsTrue (D.state disk.old).tells → HasPut first (changed_bytes (only_changed place self.now)) (D.state disk.old).shown (D.state disk.new).shown) }
        // Where the disk fails, the sectors in front are written, and none behind: so they are written in ascending order.
        ensures ascending { OnErr result (IsTrue (D.state disk.old).tells → PutsFront first (changed_bytes (only_changed place self.now)) (D.state disk.old).shown (D.state disk.new).shown) }
        ensures writes { WritesAtMost (slot_sectors_at place self.now.stores) (D.state disk.old) (D.state disk.new) }
        ensures no_fault { OnOk result ((D.state disk.new).faults ≡ (D.state disk.old).faults) }
        ensures cause { OnErr result (FailedSince (D.state disk.old) (D.state disk.new)) }
    {
        write_of(disk, first, &self.items, place)
    }

    /// This slot, of a database counted from 1, doesn't count as changed any more: what stands in its sectors is the caller's.
    /// Where it didn't, or isn't there, nothing changes. This takes no memory.
    pub fn settle_slot(&mut self, place: SlotPlace)
        requires least { 1 ≤ place.db }
        ensures { self.new ≡ one_written place self.old }
    {
        settle_of(&mut self.items, place)
    }

    /// Each store has slots of its database.
    pub fn slots_valid(&self)
        ensures { AllByRecursion (λ s. AreSlots s.dbd s.slots) self.now.stores }
    {
        are_slots(&self.items);
    }

    /// How many stores these are.
    pub fn len(&self) -> usize
        ensures { result ≡ length self.now.stores }
    {
        self.items.len()
    }

    pub fn is_empty(&self) -> bool
        ensures { IsTrue result ↔ (self.now.stores ≡ []) }
    {
        self.items.is_empty()
    }

    /// The store of the database with this number, counted from 1.
    pub fn store(&self, db: u8) -> &Store
        requires least { 1 ≤ db }
        requires most { db ≤ length self.now.stores }
        ensures { IsStoreOf self.now db result.now }
    {
        &self.items[db as usize - 1]
    }

    /// The store of the database with this number, counted from 1, to change it.
    pub fn store_mut(&mut self, db: u8) -> &mut Store
        requires least { 1 ≤ db }
        requires most { db ≤ length self.old.stores }
        ensures value { IsStoreOf self.old db result.now }
        ensures* writes_back { sem 𝓛 (LendsStore self.entry db result) }
    {
        &mut self.items[db as usize - 1]
    }
}

// Each of these stores has slots of its database.
fn are_slots(stores: &[Store])
    ensures { AllByRecursion (λ k. AreSlots k.dbd k.slots) stores.now }
{
    for store in stores {
        let _image = store.image(0);
    }
}

// The same stores once more.
fn copy_stores(alloc: Global, stores: &[Store]) -> Result<Vec<Store>, Memory>
    ensures { IfOk result (λ copy. copy.items ≡ stores.now) }
{
    let mut copy = Vec::with_capacity(alloc, stores.len())?;
    for store in stores {
        copy.push(store.copy()?)?;
    }
    Ok(copy)
}
