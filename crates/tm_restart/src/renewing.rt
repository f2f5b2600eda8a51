//! The writes of a restart.
ghost use Rattle.std.specs.Prelude.{◌≡◌, ◌*◌, ◌<◌, ◌≤◌, ◌^◌, length, OnOk, OnErr};
ghost use Rattle.tm_disk.specs.Disk.{Stays, Within, Follows, Only, FailedSince};
ghost use Rattle.restart_data.specs.Restart.{IsRestart};
ghost use Rattle.restart_data.specs.Snapshot.{snapshot_sectors_of};
ghost use Rattle.model_system.specs.Areas.{snapshot_area, data_first};
ghost use Rattle.tm_restart.specs.GivenSlots.{AreGiven};
ghost use Rattle.tm_restart.specs.LifeWrites.{ChangesUnreadSectors, WritesLifeSnapshot, IsRewritten, Rewrites};

use crate::putting::save_slots;
use checkpointing::save_snapshot;
use image_loading::{Slots, snapshot_area, snapshot_first};
use restart_data::{RestartSector, write_restart};
use system_types::System;
use tm_disk::{Disk, DiskFault};

// All but the restart sector.
#[tactic(auto, using(tm_disk::proofs::Words::stays_on))]
fn prepare<D: Disk>(
    disk: &mut D,
    system: &System,
    given: &[Slots],
    bytes: &[u8],
    now: &RestartSector,
) -> Result<(), DiskFault>
    requires areas { data_first system.now (length system.now.databases) ≤ (D.state disk.old).size }
    requires given { AreGiven system.now given.now }
    requires some { 0 < length bytes.now }
    requires fits { length bytes.now ≤ snapshot_area system.now * 4064 }
    requires now { IsRestart now.now }
    ensures stays { Stays (D.state disk.old) (D.state disk.new) }
    ensures any_moment { Within (ChangesUnreadSectors system.now given.now now.now) (D.state disk.old) (D.state disk.new) }
    ensures done { OnOk result (Follows (WritesLifeSnapshot system.now given.now bytes.now now.now) (D.state disk.old) (D.state disk.new)) }
    ensures no_fault { OnOk result ((D.state disk.new).faults ≡ (D.state disk.old).faults) }
    ensures cause { OnErr result (FailedSince (D.state disk.old) (D.state disk.new)) }
{
    if save_slots(disk, system, given).is_err() {
        return Err(DiskFault::Disk);
    }
    let first = snapshot_first(system, now.snapshot);
    let area = snapshot_area(system);
    match save_snapshot(disk, first, area, now.checkpoint, bytes) {
        Ok(_) => Ok(()),
        Err(_) => Err(DiskFault::Disk),
    }
}

/// Writes the slots that are given, by database and slot, and syncs; writes these bytes as the snapshot of the restart
/// sector `now`, and syncs; and writes that restart sector, and syncs. `Disk` comes exactly where the disk failed in the
/// call.
#[tactic(auto, using(tm_disk::proofs::Words::stays_on))]
pub fn renew<D: Disk>(
    disk: &mut D,
    system: &System,
    given: &[Slots],
    bytes: &[u8],
    now: &RestartSector,
) -> Result<(), DiskFault>
    requires areas { data_first system.now (length system.now.databases) ≤ (D.state disk.old).size }
    requires given { AreGiven system.now given.now }
    requires some { 0 < length bytes.now }
    requires fits { length bytes.now ≤ snapshot_area system.now * 4064 }
    requires now { IsRestart now.now }
    requires sectors { now.now.sectors ≡ snapshot_sectors_of (length bytes.now) }
    ensures stays { Stays (D.state disk.old) (D.state disk.new) }
    // Whenever a crash comes, only unread sectors are others, or all was written.
    ensures any_moment { Within (Rewrites system.now given.now bytes.now now.now) (D.state disk.old) (D.state disk.new) }
    ensures done { OnOk result (Follows (IsRewritten system.now given.now bytes.now now.now) (D.state disk.old) (D.state disk.new)) }
    ensures synced { OnOk result (Only (D.state disk.new).shown (D.state disk.new)) }
    ensures no_fault { OnOk result ((D.state disk.new).faults ≡ (D.state disk.old).faults) }
    ensures cause { OnErr result (FailedSince (D.state disk.old) (D.state disk.new)) }
{
    if prepare(disk, system, given, bytes, now).is_err() {
        return Err(DiskFault::Disk);
    }
    write_restart(disk, now)
}
