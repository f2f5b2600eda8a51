//! The first image of a system's disk.
ghost use Rattle.std.specs.Prelude.{◌≡◌, ◌<◌, ◌≤◌, [], length, OnOk, OnErr};
ghost use Rattle.tm_disk.specs.Disk.{Stays, Within, Follows, Only, FailedSince};
ghost use Rattle.restart_data.specs.Restart.{IsRestart};
ghost use Rattle.restart_data.specs.Snapshot.{snapshot_sectors_of};
ghost use Rattle.checkpointing.specs.SpelledRecords.{AddsSpelled};
ghost use Rattle.openings.specs.FirstImage.{IsFirstRestart, IsFirstImage, BeginsImage, first_records, sectors_needed};

use crate::beginning::begin;
use crate::places::places;
use restart_data::RestartSector;
use system_types::System;
use tm_disk::{Disk, DiskFault};

/// Lays the first image of this system on the disk, with this text, the bytes of the first snapshot, and this restart
/// sector. `Disk` comes exactly where the disk failed in the call.
pub fn write_image<D: Disk>(
    disk: &mut D,
    system: &System,
    text: &[u8],
    bytes: &[u8],
    now: &RestartSector,
) -> Result<(), DiskFault>
    requires text { length text.now ≤ 262144 }
    requires size { sectors_needed system.now ≤ (D.state disk.old).size }
    requires records { AddsSpelled (first_records system.now) [] bytes.now }
    requires some { 0 < length bytes.now }
    requires few { length bytes.now ≤ 8192 }
    requires first { IsFirstRestart now.now }
    requires valid { IsRestart now.now }
    requires sectors { now.now.sectors ≡ snapshot_sectors_of (length bytes.now) }
    ensures stays { Stays (D.state disk.old) (D.state disk.new) }
    // Whenever a crash comes, it leaves the image before, one whose restart sector is all zeros, or the first image.
    ensures any_moment { Within (BeginsImage system.now text.now bytes.now now.now) (D.state disk.old) (D.state disk.new) }
    // Then it leaves the first image.
    ensures done { OnOk result (Follows (λ before after. IsFirstImage system.now text.now bytes.now now.now after) (D.state disk.old) (D.state disk.new)) }
    ensures synced { OnOk result (Only (D.state disk.new).shown (D.state disk.new)) }
    ensures no_fault { OnOk result ((D.state disk.new).faults ≡ (D.state disk.old).faults) }
    ensures cause { OnErr result (FailedSince (D.state disk.old) (D.state disk.new)) }
{
    let _terminals = system.terminals();
    let places = places(system);
    begin(disk, &places, text, bytes, now)
}
