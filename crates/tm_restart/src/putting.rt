//! Slots of all databases are written.
ghost use Rattle.std.specs.Prelude.{◌≡◌, ◌≤◌, length, IsTrue, OnOk, OnErr};
ghost use Rattle.tm_disk.specs.Disk.{Stays, Within, Follows, Only, FailedSince};
ghost use Rattle.model_system.specs.Areas.{data_first};
ghost use Rattle.seg_store.specs.DataSectors.{PutsFront};
ghost use Rattle.tm_restart.specs.GivenSlots.{all_pieces, AreGiven, MayPutAll, HasPutAll};

use image_loading::{Slots, data_first, write_slots};
use system_types::System;
use tm_disk::{Disk, DiskFault};

// Writes the slots that are given, by database and slot. Nothing is synced.
#[tactic(auto, using(tm_disk::proofs::Words::stays_on))]
fn put_all<D: Disk>(disk: &mut D, system: &System, given: &[Slots]) -> Result<(), DiskFault>
    requires areas { data_first system.now (length system.now.databases) ≤ (D.state disk.old).size }
    requires given { AreGiven system.now given.now }
    ensures stays { Stays (D.state disk.old) (D.state disk.new) }
    ensures any_moment { Within (MayPutAll system.now given.now) (D.state disk.old) (D.state disk.new) }
    ensures follows { Follows (MayPutAll system.now given.now) (D.state disk.old) (D.state disk.new) }
    ensures shown { OnOk result (IsTrue (D.state disk.old).tells → HasPutAll system.now given.now (D.state disk.old).shown (D.state disk.new).shown) }
    // Where the disk fails, the sectors in front are written, and none behind: so they are written in ascending order.
    ensures ascending { OnErr result (IsTrue (D.state disk.old).tells → PutsFront 0 (all_pieces system.now given.now) (D.state disk.old).shown (D.state disk.new).shown) }
    ensures no_fault { OnOk result ((D.state disk.new).faults ≡ (D.state disk.old).faults) }
    ensures cause { OnErr result (FailedSince (D.state disk.old) (D.state disk.new)) }
{
    let databases = system.databases();
    let mut first = data_first(system);
    for place in 0..databases.len() {
        let dbd = &databases[place];
        if write_slots(disk, dbd, first, &given[place]).is_err() {
            return Err(DiskFault::Disk);
        }
        first += u32::from(dbd.roots) * u32::from(dbd.sectors);
    }
    Ok(())
}

/// Writes the slots that are given, by database and slot, and syncs.
#[tactic(auto, using(tm_disk::proofs::Words::stays_on))]
pub(crate) fn save_slots<D: Disk>(
    disk: &mut D,
    system: &System,
    given: &[Slots],
) -> Result<(), DiskFault>
    requires areas { data_first system.now (length system.now.databases) ≤ (D.state disk.old).size }
    requires given { AreGiven system.now given.now }
    ensures stays { Stays (D.state disk.old) (D.state disk.new) }
    ensures any_moment { Within (MayPutAll system.now given.now) (D.state disk.old) (D.state disk.new) }
    ensures done { OnOk result (Follows (HasPutAll system.now given.now) (D.state disk.old) (D.state disk.new)) }
    ensures no_fault { OnOk result ((D.state disk.new).faults ≡ (D.state disk.old).faults) }
    ensures cause { OnErr result (FailedSince (D.state disk.old) (D.state disk.new)) }
{
    if put_all(disk, system, given).is_err() {
        return Err(DiskFault::Disk);
    }
    match disk.sync() {
        Ok(()) => Ok(()),
        Err(_) => Err(DiskFault::Disk),
    }
}
