//! Log sectors of a later life, in both areas.
ghost use Rattle.std.specs.Prelude.{◌≡◌, ◌*◌, ◌≤◌, IsTrue, IfOk, OnOk, OnErr, length};
ghost use Rattle.tm_disk.specs.Disk.{Keeps, FailedSince};
ghost use Rattle.restart_data.specs.WrittenSectors.{IsValid};
ghost use Rattle.model_system.specs.Areas as areas;
ghost use Rattle.model_image.specs.RecoveredState as recovered;

use image_loading::log_first;
use image_reading::first_later;
use restart_data::RestartSector;
use system_types::System;
use tm_disk::{Disk, DiskFault};

/// The first sector of either log area that is of a later epoch, where the first in the area that the restart sector names is
/// known: that area was read, and isn't read again.
pub fn later_sector<D: Disk>(
    disk: &mut D,
    system: &System,
    restart: &RestartSector,
    held: Option<u32>,
) -> Result<Option<u32>, DiskFault>
    requires areas { areas.data_first system.now (length system.now.databases) ≤ (D.state disk.old).size }
    requires valid { IsValid (areas.snapshot_area system.now) restart.now }
    requires held { IsTrue (D.state disk.old).tells → held ≡ recovered.first_later system.now.logs (D.state disk.old).shown (areas.log_first system.now restart.now.log) restart.now.epoch }
    ensures value { IfOk result (λ found. IsTrue (D.state disk.old).tells → found ≡ recovered.first_later (2 * system.now.logs) (D.state disk.old).shown (areas.log_first system.now 0) restart.now.epoch) }
    ensures keeps { Keeps (D.state disk.old) (D.state disk.new) }
    ensures no_fault { OnOk result ((D.state disk.new).faults ≡ (D.state disk.old).faults) }
    ensures cause { OnErr result (FailedSince (D.state disk.old) (D.state disk.new)) }
{
    if restart.log == 0 {
        behind(disk, system, restart.epoch, held)
    } else {
        before(disk, system, restart.epoch, held)
    }
}

// The same, where the area that was read is the first.
#[tactic(auto, using(crate::proofs::LogAreas::found_in_first, crate::proofs::LogAreas::found_in_second))]
fn behind<D: Disk>(
    disk: &mut D,
    system: &System,
    epoch: u64,
    held: Option<u32>,
) -> Result<Option<u32>, DiskFault>
    requires areas { areas.data_first system.now (length system.now.databases) ≤ (D.state disk.old).size }
    requires held { IsTrue (D.state disk.old).tells → held ≡ recovered.first_later system.now.logs (D.state disk.old).shown (areas.log_first system.now 0) epoch }
    ensures value { IfOk result (λ found. IsTrue (D.state disk.old).tells → found ≡ recovered.first_later (2 * system.now.logs) (D.state disk.old).shown (areas.log_first system.now 0) epoch) }
    ensures keeps { Keeps (D.state disk.old) (D.state disk.new) }
    ensures no_fault { OnOk result ((D.state disk.new).faults ≡ (D.state disk.old).faults) }
    ensures cause { OnErr result (FailedSince (D.state disk.old) (D.state disk.new)) }
{
    if let Some(sector) = held {
        return Ok(Some(sector));
    }
    match first_later(disk, log_first(system, 1), system.logs(), epoch) {
        Ok(found) => Ok(found),
        Err(fault) => Err(fault),
    }
}

// The same, where it is the second.
#[tactic(auto, using(crate::proofs::LogAreas::found_in_first, crate::proofs::LogAreas::found_in_second))]
fn before<D: Disk>(
    disk: &mut D,
    system: &System,
    epoch: u64,
    held: Option<u32>,
) -> Result<Option<u32>, DiskFault>
    requires areas { areas.data_first system.now (length system.now.databases) ≤ (D.state disk.old).size }
    requires held { IsTrue (D.state disk.old).tells → held ≡ recovered.first_later system.now.logs (D.state disk.old).shown (areas.log_first system.now 1) epoch }
    ensures value { IfOk result (λ found. IsTrue (D.state disk.old).tells → found ≡ recovered.first_later (2 * system.now.logs) (D.state disk.old).shown (areas.log_first system.now 0) epoch) }
    ensures keeps { Keeps (D.state disk.old) (D.state disk.new) }
    ensures no_fault { OnOk result ((D.state disk.new).faults ≡ (D.state disk.old).faults) }
    ensures cause { OnErr result (FailedSince (D.state disk.old) (D.state disk.new)) }
{
    match first_later(disk, log_first(system, 0), system.logs(), epoch) {
        Ok(Some(sector)) => Ok(Some(sector)),
        Ok(None) => Ok(held),
        Err(fault) => Err(fault),
    }
}
