//! A database is loaded.
ghost use Rattle.std.specs.Prelude.{◌≡◌, ◌+◌, ◌*◌, ◌≤◌, IsTrue, IfOk};
ghost use Rattle.std.specs.List.{AllByRecursion};
ghost use Rattle.tm_disk.specs.Disk.{Keeps};
ghost use Rattle.model_image.specs.Slots.{is_image};
ghost use Rattle.seg_store.specs.Slots.{rows_of_slots};
ghost use Rattle.image_loading.specs.LoadedStore.{image_slots_in, store_in, IsStoreMade, TellsSlots, LoadCause};

use crate::building::build;
use crate::reading::read_slots;
use crate::rows::all_rows;
use crate::{LoadFault, Slots};
use seg_rows::PlainRows;
use seg_store::Store;
use std::alloc::Global;
use tm_disk::Disk;
use tm_types::Dbd;

/// Loads a database whose slot 0 begins at the sector `first`: the store with each record in its slot. The slots that are
/// given are taken from there, and their sectors aren't looked at. Nothing is written.
pub fn load_store<D: Disk>(
    alloc: Global,
    disk: &mut D,
    dbd: &Dbd,
    first: u32,
    given: &Slots,
) -> Result<Store, LoadFault>
    requires area { first + dbd.now.roots * dbd.now.sectors ≤ (D.state disk.old).size }
    requires few { dbd.now.sectors ≤ 8 }
    requires given { AllByRecursion (λ s. IsTrue (is_image dbd.now s.1)) given.now }
    // A store of the database.
    ensures made { IfOk result (IsStoreMade dbd.now) }
    // It has the slots as the disk reads.
    ensures value { IsTrue (D.state disk.old).tells → TellsSlots result (image_slots_in (D.state disk.old).shown dbd.now first given.now) }
    ensures keeps { Keeps (D.state disk.old) (D.state disk.new) }
    ensures until_stop { (D.state disk.new).until_stop ≡ (D.state disk.old).until_stop }
    ensures cause { LoadCause result (D.state disk.old) (D.state disk.new) }
{
    let read = match read_slots(alloc, disk, dbd, first, given.as_slice()) {
        Ok(read) => read,
        Err(fault) => return Err(fault),
    };
    match read.broken {
        Some(at) => Err(LoadFault::Bad(21, at)),
        None => build(alloc, dbd, first, read.images),
    }
}

/// The same, with a copy of all rows beside the store. A restart needs none, and loads the store alone.
pub fn load<D: Disk>(
    alloc: Global,
    disk: &mut D,
    dbd: &Dbd,
    first: u32,
    given: &Slots,
) -> Result<(Store, PlainRows), LoadFault>
    requires area { first + dbd.now.roots * dbd.now.sectors ≤ (D.state disk.old).size }
    requires few { dbd.now.sectors ≤ 8 }
    requires given { AllByRecursion (λ s. IsTrue (is_image dbd.now s.1)) given.now }
    ensures made { IfOk result (λ loaded. IsStoreMade dbd.now loaded.0) }
    ensures rows_database { IfOk result (λ loaded. loaded.1.dbd ≡ dbd.now) }
    ensures all_rows { IfOk result (λ loaded. loaded.1.rows ≡ rows_of_slots loaded.0.slots) }
    ensures value { IsTrue (D.state disk.old).tells → TellsSlots (store_in result) (image_slots_in (D.state disk.old).shown dbd.now first given.now) }
    ensures keeps { Keeps (D.state disk.old) (D.state disk.new) }
    ensures until_stop { (D.state disk.new).until_stop ≡ (D.state disk.old).until_stop }
    ensures cause { LoadCause result (D.state disk.old) (D.state disk.new) }
{
    let store = match load_store(alloc, disk, dbd, first, given) {
        Ok(store) => store,
        Err(fault) => return Err(fault),
    };
    match all_rows(alloc, dbd, &store) {
        Ok(rows) => Ok((store, rows)),
        Err(_) => Err(LoadFault::Memory),
    }
}
