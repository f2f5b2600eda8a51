//! The snapshot that a restart sector names.
ghost use Rattle.std.specs.Prelude.{◌≡◌, ◌≤◌, length, IsTrue, IfOk};
ghost use Rattle.tm_disk.specs.Disk.{Keeps};
ghost use Rattle.restart_data.specs.WrittenSectors.{IsValid};
ghost use Rattle.model_system.specs.Areas.{snapshot_area, data_first};
ghost use Rattle.image_records.specs.RecordAnswers.{TellsRecords};
ghost use Rattle.image_reading.specs.ReadSnapshot.{ComesFromRecords, TellsSnapshotOf, ReadCause};

use crate::ReadFault;
use image_loading::snapshot_first;
use image_records::{RecordsFault, Snapshot, read_records};
use restart_data::{RestartSector, SnapshotFault, read_snapshot};
use std::alloc::Global;
use system_types::System;
use tm_disk::Disk;

// Keeps what the records of these bytes tell, or judges them.
fn judge(alloc: Global, system: &System, bytes: &[u8]) -> Result<Snapshot, RecordsFault>
    ensures value { TellsRecords system.now bytes.now result }
    ensures told { IfOk result (ComesFromRecords system.now) }
{
    read_records(alloc, system, bytes)
}

/// Reads the snapshot that this restart sector names, and keeps what its records tell. Rules 7 to 9 are on its sectors, 10 to
/// 17 on its records.
pub fn read_told<D: Disk>(
    alloc: Global,
    disk: &mut D,
    system: &System,
    restart: &RestartSector,
) -> Result<Snapshot, ReadFault>
    requires areas { data_first system.now (length system.now.databases) ≤ (D.state disk.old).size }
    requires valid { IsValid (snapshot_area system.now) restart.now }
    ensures told { IfOk result (ComesFromRecords system.now) }
    ensures value { IsTrue (D.state disk.old).tells → TellsSnapshotOf system.now restart.now (D.state disk.old).shown result }
    ensures keeps { Keeps (D.state disk.old) (D.state disk.new) }
    ensures cause { ReadCause result (D.state disk.old) (D.state disk.new) }
{
    let first = snapshot_first(system, restart.snapshot);
    let bytes = match read_snapshot(alloc, disk, first, restart.sectors, restart.checkpoint) {
        Ok(bytes) => bytes,
        Err(SnapshotFault::Bad(rule, sector)) => return Err(ReadFault::Bad(rule, sector)),
        Err(SnapshotFault::Disk) => return Err(ReadFault::Disk),
        Err(SnapshotFault::Memory) => return Err(ReadFault::Memory),
    };
    match judge(alloc, system, bytes.as_slice()) {
        Ok(snapshot) => Ok(snapshot),
        Err(RecordsFault::Bad(rule)) => Err(ReadFault::Bad(rule, first)),
        Err(RecordsFault::Memory) => Err(ReadFault::Memory),
    }
}
