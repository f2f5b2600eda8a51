//! What a cold start lays before its restart sector.
ghost use Rattle.std.specs.Prelude.{◌≡◌, ◌+◌, ◌*◌, ◌≤◌, ◌<◌, length, IsTrue, OnOk, OnErr};
ghost use Rattle.tm_disk.specs.Disk.{Stays, Within, Follows, Only, FailedSince};
ghost use Rattle.openings.specs.ColdWrites.{KeepsRestart, IsLaid};

use crate::filling::{write_text, write_zeros};
use restart_data::write_snapshot;
use tm_disk::{Disk, DiskFault};

/// Where a cold start lays what.
#[derive(Drop)]
pub(crate) struct Places {
    /// The snapshot's area.
    pub snapshot: u32,
    /// How many sectors that has.
    pub area: u32,
    /// The first sector of the logs and of the data.
    pub blanks: u32,
    /// How many sectors these have.
    pub count: u32,
}

/// Writes the text, the zeros of the logs and of the data, and the snapshot of checkpoint 1, and syncs. The restart sector
/// stays as it is.
#[tactic(auto, using(tm_disk::proofs::Words::stays_on))]
pub(crate) fn lay<D: Disk>(
    disk: &mut D,
    places: &Places,
    text: &[u8],
    bytes: &[u8],
) -> Result<(), DiskFault>
    requires text { length text.now ≤ 262144 }
    requires first { 65 ≤ places.now.snapshot }
    requires apart { places.now.snapshot + places.now.area ≤ places.now.blanks }
    requires within { places.now.blanks + places.now.count ≤ (D.state disk.old).size }
    requires some { 0 < length bytes.now }
    requires fits { length bytes.now ≤ places.now.area * 4064 }
    ensures stays { Stays (D.state disk.old) (D.state disk.new) }
    ensures any_moment { Within KeepsRestart (D.state disk.old) (D.state disk.new) }
    ensures follows { Follows KeepsRestart (D.state disk.old) (D.state disk.new) }
    ensures shown { OnOk result (IsTrue (D.state disk.old).tells → IsLaid places.now text.now bytes.now (D.state disk.new).shown) }
    ensures synced { OnOk result (Only (D.state disk.new).shown (D.state disk.new)) }
    ensures no_fault { OnOk result ((D.state disk.new).faults ≡ (D.state disk.old).faults) }
    ensures cause { OnErr result (FailedSince (D.state disk.old) (D.state disk.new)) }
{
    if write_text(disk, text).is_err() {
        return Err(DiskFault::Disk);
    }
    if write_zeros(disk, places.blanks, places.count).is_err() {
        return Err(DiskFault::Disk);
    }
    if write_snapshot(disk, places.snapshot, places.area, 1, bytes).is_err() {
        return Err(DiskFault::Disk);
    }
    if disk.sync().is_err() {
        return Err(DiskFault::Disk);
    }
    Ok(())
}
