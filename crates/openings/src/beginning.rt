//! The writes of a cold start.
ghost use Rattle.std.specs.Prelude.{◌≡◌, ◌+◌, ◌*◌, ◌≤◌, ◌<◌, ◌^◌, length, OnOk, OnErr};
ghost use Rattle.tm_disk.specs.Disk.{Stays, Within, Follows, Only, FailedSince};
ghost use Rattle.restart_data.specs.Restart.{IsRestart};
ghost use Rattle.openings.specs.ColdWrites.{BeginsCold, IsColdWritten};

use crate::clearing::clear_restart;
use crate::laying_cold::{Places, lay};
use restart_data::{RestartSector, write_restart};
use tm_disk::{Disk, DiskFault};

/// Zeroes the restart sector, lays the text, the zeros and the snapshot, and writes this restart sector, with a sync behind
/// each of the three.
#[tactic(auto, using(tm_disk::proofs::Words::stays_on))]
pub(crate) fn begin<D: Disk>(
    disk: &mut D,
    places: &Places,
    text: &[u8],
    bytes: &[u8],
    now: &RestartSector,
) -> Result<(), DiskFault>
    requires text { length text.now ≤ 262144 }
    requires first { 65 ≤ places.now.snapshot }
    requires apart { places.now.snapshot + places.now.area ≤ places.now.blanks }
    requires within { places.now.blanks + places.now.count ≤ (D.state disk.old).size }
    requires some { 0 < length bytes.now }
    requires fits { length bytes.now ≤ places.now.area * 4064 }
    requires value { IsRestart now.now }
    requires short { now.now.sectors < 2 ^ 32 }
    ensures stays { Stays (D.state disk.old) (D.state disk.new) }
    ensures any_moment { Within (BeginsCold places.now text.now bytes.now now.now) (D.state disk.old) (D.state disk.new) }
    ensures done { OnOk result (Follows (λ before after. IsColdWritten places.now text.now bytes.now now.now after) (D.state disk.old) (D.state disk.new)) }
    ensures synced { OnOk result (Only (D.state disk.new).shown (D.state disk.new)) }
    ensures no_fault { OnOk result ((D.state disk.new).faults ≡ (D.state disk.old).faults) }
    ensures cause { OnErr result (FailedSince (D.state disk.old) (D.state disk.new)) }
{
    if clear_restart(disk).is_err() {
        return Err(DiskFault::Disk);
    }
    if lay(disk, places, text, bytes).is_err() {
        return Err(DiskFault::Disk);
    }
    write_restart(disk, now)
}
