//! One slot among those of all databases.
ghost use Rattle.std.specs.Prelude.{◌≡◌, ◌+◌, ◌-◌, ◌*◌, ◌<◌, ◌≤◌, ◌^◌, [], ◌∷◌, length, take, map, IsTrue, IfSome, OnOk, OnErr, Some, slice_get, slice_set};
ghost use Rattle.std.specs.List.{AllByRecursion};
ghost use Rattle.tm_disk.specs.Disk.{Stays, Within, Follows, WritesAtMost, FailedSince};
ghost use Rattle.seg_store.specs.ChangedSlots.{Kept, stored, all_stores, AreChanged};
ghost use Rattle.seg_store.specs.DataSectors.{MayPut, HasPut, PutsFront, pieces_of, bytes_of_slots};
ghost use Rattle.seg_store.specs.WrittenSlots.{kept_sectors, changed_bytes};
ghost use Rattle.seg_store.specs.OneSlot.{lowest_changed, without_number, only_changed, one_written, slot_sectors_at, IsSlotPlace};

use crate::{SlotPlace, Store};
use tm_disk::{Disk, DiskFault};

/// The lowest changed slot of the stores.
pub fn lowest_of(stores: &Vec<Store>) -> Option<SlotPlace>
    requires few { length stores.now.items ≤ 255 }
    ensures value { result ≡ lowest_changed (map (λ k. k.changed) stores.now.items) }
    ensures valid { AllByRecursion (λ k. AreChanged k.dbd.roots k.changed) stores.now.items }
{
    all_changed(stores);
    for place in 0..stores.len() {
        match stores[place].lowest() {
            Some(slot) => {
                return Some(SlotPlace {
                    db: place as u8 + 1,
                    slot,
                });
            }
            None => {}
        }
    }
    None
}

// The changed slots of each of these stores are slots of it, rising.
fn all_changed(stores: &[Store])
    ensures { AllByRecursion (λ k. AreChanged k.dbd.roots k.changed) stores.now }
{
    for store in stores {
        let _lowest = store.lowest();
    }
}

/// Where the slots of a database begin, which has so many others in front.
pub fn area_first(first: u32, stores: &Vec<Store>, before: usize) -> u32
    requires there { before < length stores.now.items }
    requires small { first + kept_sectors stores.now.items < 2 ^ 32 }
    ensures { result ≡ first + kept_sectors (take before stores.now.items) }
{
    let mut at = first;
    for place in 0..before {
        at += stores[place].sectors();
    }
    at
}

// Writes a slot of one of the stores, where slot 0 has the sector `first`.
fn write_at<D: Disk>(
    disk: &mut D,
    first: u32,
    stores: &Vec<Store>,
    database: usize,
    slot: u16,
) -> Result<(), DiskFault>
    requires there { database < length stores.now.items }
    requires below { (one : Kept) → slice_get stores.now.items database ≡ Some one → slot < one.dbd.roots }
    requires area { (one : Kept) → slice_get stores.now.items database ≡ Some one → first + one.dbd.roots * one.dbd.sectors ≤ (D.state disk.old).size }
    requires sectors { (one : Kept) → slice_get stores.now.items database ≡ Some one → one.dbd.sectors ≤ 8 }
    ensures stays { Stays (D.state disk.old) (D.state disk.new) }
    ensures any_moment { (one : Kept) → slice_get stores.now.items database ≡ Some one → Within (MayPut first (pieces_of one.dbd.sectors (bytes_of_slots one.slots (slot ∷ [])))) (D.state disk.old) (D.state disk.new) }
    ensures follows { (one : Kept) → slice_get stores.now.items database ≡ Some one → Follows (MayPut first (pieces_of one.dbd.sectors (bytes_of_slots one.slots (slot ∷ [])))) (D.state disk.old) (D.state disk.new) }
    ensures shown { (one : Kept) → slice_get stores.now.items database ≡ Some one → OnOk result (IsTrue (D.state disk.old).tells → HasPut first (pieces_of one.dbd.sectors (bytes_of_slots one.slots (slot ∷ []))) (D.state disk.old).shown (D.state disk.new).shown) }
    ensures ascending { (one : Kept) → slice_get stores.now.items database ≡ Some one → OnErr result (IsTrue (D.state disk.old).tells → PutsFront first (pieces_of one.dbd.sectors (bytes_of_slots one.slots (slot ∷ []))) (D.state disk.old).shown (D.state disk.new).shown) }
    ensures writes { (one : Kept) → slice_get stores.now.items database ≡ Some one → WritesAtMost one.dbd.sectors (D.state disk.old) (D.state disk.new) }
    ensures no_fault { OnOk result ((D.state disk.new).faults ≡ (D.state disk.old).faults) }
    ensures cause { OnErr result (FailedSince (D.state disk.old) (D.state disk.new)) }
{
    stores[database].write_slot(disk, first, slot)
}

/// Writes a slot of the stores, where the databases' slots stand one behind the other from the sector `first` on.
pub fn write_of<D: Disk>(
    disk: &mut D,
    first: u32,
    stores: &Vec<Store>,
    place: SlotPlace,
) -> Result<(), DiskFault>
    requires there { IsSlotPlace place (map stored stores.now.items) }
    requires area { first + kept_sectors stores.now.items ≤ (D.state disk.old).size }
    requires sectors { AllByRecursion (λ one. one.dbd.sectors ≤ 8) stores.now.items }
    ensures stays { Stays (D.state disk.old) (D.state disk.new) }
    ensures any_moment { Within (MayPut first (changed_bytes (only_changed place (all_stores stores.now.items)))) (D.state disk.old) (D.state disk.new) }
    ensures follows { Follows (MayPut first (changed_bytes (only_changed place (all_stores stores.now.items)))) (D.state disk.old) (D.state disk.new) }
    ensures shown { OnOk result (IsTrue (D.state disk.old).tells → HasPut first (changed_bytes (only_changed place (all_stores stores.now.items))) (D.state disk.old).shown (D.state disk.new).shown) }
    ensures ascending { OnErr result (IsTrue (D.state disk.old).tells → PutsFront first (changed_bytes (only_changed place (all_stores stores.now.items))) (D.state disk.old).shown (D.state disk.new).shown) }
    ensures writes { WritesAtMost (slot_sectors_at place (map stored stores.now.items)) (D.state disk.old) (D.state disk.new) }
    ensures no_fault { OnOk result ((D.state disk.new).faults ≡ (D.state disk.old).faults) }
    ensures cause { OnErr result (FailedSince (D.state disk.old) (D.state disk.new)) }
{
    let database = usize::from(place.db) - 1;
    let at = area_first(first, stores, database);
    write_at(disk, at, stores, database, place.slot)
}

// A slot of one of the stores doesn't count as changed any more.
fn settle_at(stores: &mut Vec<Store>, database: usize, slot: u16)
    requires { database < length stores.old.items }
    ensures { (one : Kept) → slice_get stores.old.items database ≡ Some one → stores.new.items ≡ slice_set stores.old.items database (record one { changed = without_number slot one.changed }) }
{
    stores[database].settle_slot(slot)
}

/// A slot of the stores doesn't count as changed any more.
pub fn settle_of(stores: &mut Vec<Store>, place: SlotPlace)
    requires least { 1 ≤ place.db }
    ensures { all_stores stores.new.items ≡ one_written place (all_stores stores.old.items) }
{
    let database = usize::from(place.db) - 1;
    if database < stores.len() {
        settle_at(stores, database, place.slot);
    }
}
