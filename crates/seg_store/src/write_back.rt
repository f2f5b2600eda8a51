//! The changed slots of all databases, written to their sectors.
ghost use Rattle.std.specs.Prelude.{◌≡◌, ◌+◌, ◌*◌, ◌<◌, ◌≤◌, [], length, take, map, IsTrue, IfOk, OnOk, OnErr, Some, slice_get, slice_set};
ghost use Rattle.std.specs.List.{AllByRecursion};
ghost use Rattle.tm_disk.specs.Disk.{Stays, Within, Follows, WritesAtMost, FailedSince};
ghost use Rattle.seg_store.specs.ChangedSlots.{Kept};
ghost use Rattle.seg_store.specs.DataSectors.{MayPut, HasPut, PutsFront};
ghost use Rattle.seg_store.specs.WrittenSlots.{kept_sectors, kept_bytes, kept_changed, pieces_kept, written_kept};

use crate::Store;
use tm_disk::{Disk, DiskFault};

// Writes the changed slots of one of the stores, where slot 0 has the sector `first`.
fn write_one<D: Disk>(
    disk: &mut D,
    first: u32,
    stores: &Vec<Store>,
    place: usize,
) -> Result<u32, DiskFault>
    requires there { place < length stores.now.items }
    requires area { (one : Kept) → slice_get stores.now.items place ≡ Some one → first + one.dbd.roots * one.dbd.sectors ≤ (D.state disk.old).size }
    requires sectors { (one : Kept) → slice_get stores.now.items place ≡ Some one → one.dbd.sectors ≤ 8 }
    ensures stays { Stays (D.state disk.old) (D.state disk.new) }
    ensures any_moment { (one : Kept) → slice_get stores.now.items place ≡ Some one → Within (MayPut first (pieces_kept one)) (D.state disk.old) (D.state disk.new) }
    ensures follows { (one : Kept) → slice_get stores.now.items place ≡ Some one → Follows (MayPut first (pieces_kept one)) (D.state disk.old) (D.state disk.new) }
    ensures shown { (one : Kept) → slice_get stores.now.items place ≡ Some one → OnOk result (IsTrue (D.state disk.old).tells → HasPut first (pieces_kept one) (D.state disk.old).shown (D.state disk.new).shown) }
    ensures ascending { (one : Kept) → slice_get stores.now.items place ≡ Some one → OnErr result (IsTrue (D.state disk.old).tells → PutsFront first (pieces_kept one) (D.state disk.old).shown (D.state disk.new).shown) }
    ensures count { (one : Kept) → slice_get stores.now.items place ≡ Some one → IfOk result (λ n. n ≡ length one.changed * one.dbd.sectors) }
    ensures few { (one : Kept) → slice_get stores.now.items place ≡ Some one → length one.changed * one.dbd.sectors ≤ one.dbd.roots * one.dbd.sectors }
    ensures writes { (one : Kept) → slice_get stores.now.items place ≡ Some one → WritesAtMost (length one.changed * one.dbd.sectors) (D.state disk.old) (D.state disk.new) }
    ensures no_fault { OnOk result ((D.state disk.new).faults ≡ (D.state disk.old).faults) }
    ensures cause { OnErr result (FailedSince (D.state disk.old) (D.state disk.new)) }
{
    stores[place].write_changed(disk, first)
}

// No slot of one of the stores counts as changed any more.
fn settle_one(stores: &mut Vec<Store>, place: usize)
    requires { place < length stores.old.items }
    ensures { (one : Kept) → slice_get stores.old.items place ≡ Some one → stores.new.items ≡ slice_set stores.old.items place (written_kept one) }
{
    stores[place].settle()
}

/// No slot of the stores counts as changed any more.
pub fn settle_all(stores: &mut Vec<Store>)
    ensures { stores.new.items ≡ map written_kept stores.old.items }
{
    for place in 0..stores.len() {
        settle_one(stores, place);
    }
}

/// Writes the changed slots of the stores in ascending order, where the databases' slots stand one behind the other from the
/// sector `first` on. The answer is how many sectors those are.
#[tactic(auto, using(tm_disk::proofs::Words::stays_on))]
pub fn write_all<D: Disk>(disk: &mut D, first: u32, stores: &Vec<Store>) -> Result<u32, DiskFault>
    requires area { first + kept_sectors stores.now.items ≤ (D.state disk.old).size }
    requires sectors { AllByRecursion (λ one. one.dbd.sectors ≤ 8) stores.now.items }
    ensures stays { Stays (D.state disk.old) (D.state disk.new) }
    ensures any_moment { Within (MayPut first (kept_bytes 0 stores.now.items)) (D.state disk.old) (D.state disk.new) }
    ensures follows { Follows (MayPut first (kept_bytes 0 stores.now.items)) (D.state disk.old) (D.state disk.new) }
    ensures shown { OnOk result (IsTrue (D.state disk.old).tells → HasPut first (kept_bytes 0 stores.now.items) (D.state disk.old).shown (D.state disk.new).shown) }
    ensures ascending { OnErr result (IsTrue (D.state disk.old).tells → PutsFront first (kept_bytes 0 stores.now.items) (D.state disk.old).shown (D.state disk.new).shown) }
    ensures count { IfOk result (λ n. n ≡ kept_changed stores.now.items) }
    ensures writes { WritesAtMost (kept_changed stores.now.items) (D.state disk.old) (D.state disk.new) }
    ensures no_fault { OnOk result ((D.state disk.new).faults ≡ (D.state disk.old).faults) }
    ensures cause { OnErr result (FailedSince (D.state disk.old) (D.state disk.new)) }
{
    let mut at = first;
    let mut count = 0;
    for place in 0..stores.len() {
        let area = stores[place].sectors();
        match write_one(disk, at, stores, place) {
            Ok(written) => count += written,
            Err(_) => return Err(DiskFault::Disk),
        }
        at += area;
    }
    Ok(count)
}
