//! An image without a restart sector.
ghost use Rattle.std.specs.Prelude.{◌≡◌, ◌<◌, IsTrue, OnOk, OnErr};
ghost use Rattle.tm_disk.specs.Disk.{Stays, Within, Follows, Only, MayWrite, WritesAtMost, FailedSince, with_sector};
ghost use Rattle.tm_disk.specs.Sector.{blank};
ghost use Rattle.openings.specs.ColdWrites.{Clears};

use tm_disk::{Disk, DiskFault, Sector};

/// Zeroes the restart sector, and syncs. At any moment until then it is the one before, or zeros.
#[tactic(auto, using(tm_disk::proofs::Words::stays_on))]
pub(crate) fn clear_restart<D: Disk>(disk: &mut D) -> Result<(), DiskFault>
    requires has_a_sector { 0 < (D.state disk.old).size }
    ensures stays { Stays (D.state disk.old) (D.state disk.new) }
    ensures any_moment { Within (MayWrite 0 blank) (D.state disk.old) (D.state disk.new) }
    ensures done { OnOk result (Follows Clears (D.state disk.old) (D.state disk.new)) }
    ensures synced { OnOk result (Only (D.state disk.new).shown (D.state disk.new)) }
    ensures writes { WritesAtMost 1 (D.state disk.old) (D.state disk.new) }
    ensures no_fault { OnOk result ((D.state disk.new).faults ≡ (D.state disk.old).faults) }
    ensures cause { OnErr result (FailedSince (D.state disk.old) (D.state disk.new)) }
{
    if disk.write(0, &Sector::blank()).is_err() {
        return Err(DiskFault::Disk);
    }
    if disk.sync().is_err() {
        return Err(DiskFault::Disk);
    }
    Ok(())
}
