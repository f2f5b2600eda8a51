//! The restart sector on a disk.
ghost use Rattle.std.specs.Prelude.{◌≡◌, ◌<◌, IsTrue, IfOk, IfSome, OnOk, OnErr};
ghost use Rattle.tm_disk.specs.Disk.{Stays, Within, Follows, Only, Keeps, MayWrite, WritesAtMost, FailedSince};
ghost use Rattle.restart_data.specs.Restart.{IsRestart, restart_sector, restart_in};
ghost use Rattle.restart_data.specs.WrittenSectors.{IsValid, Restarts, TellsRestart, RestartCause};

use crate::restart_sector::{seal, unseal};
use thiserror::Error;
use tm_disk::{Disk, DiskFault, Sector};

/// What sector 0 of a disk says.
#[derive(Clone, Copy, Debug, Drop, PartialEq, Eq)]
pub struct RestartSector {
    /// The life that writes the log. Each restart takes the next.
    pub epoch: u64,
    /// The snapshot area that holds: 0 or 1.
    pub snapshot: u8,
    /// The log area that holds: 0 or 1.
    pub log: u8,
    /// How many sectors the snapshot has.
    pub sectors: u32,
    /// The sequence of the log area's first sector.
    pub sequence: u64,
    /// The checkpoint of the snapshot.
    pub checkpoint: u64,
    /// How many bytes the system's definition has.
    pub text: u32,
}

/// Why a restart sector wasn't read.
#[derive(Clone, Copy, Debug, Drop, Error, PartialEq, Eq)]
pub enum RestartFault {
    /// The lowest rule that it breaks: 1, the letters; 2, a version that is neither 2 nor, where each slot has
    /// one sector, 1; 3, an area above 1; 4, a snapshot of no sector or of
    /// more than its area has; 5, an epoch, sequence or checkpoint that is 0, or 2,000,000,000,000,000,000 or more;
    /// 6, bytes where zeros belong, or a definition of more than 262,144 bytes.
    #[error("rule {0} is broken")]
    Bad(u8),
    /// The disk failed at the read, and its count of faults rose.
    #[error("the disk failed")]
    Disk,
}

/// Writes the restart sector, and syncs. At any moment until then sector 0 is the one before or this one, whole. Where it
/// has answered, each image that a crash may leave has this one. `Disk` comes exactly where the disk failed in the call.
#[tactic(auto, using(tm_disk::proofs::Words::stays_on))]
pub fn write_restart<D: Disk>(disk: &mut D, value: &RestartSector) -> Result<(), DiskFault>
    requires has_a_sector { 0 < (D.state disk.old).size }
    requires value { IsRestart value.now }
    ensures stays { Stays (D.state disk.old) (D.state disk.new) }
    ensures any_moment { Within (MayWrite 0 (restart_sector value.now)) (D.state disk.old) (D.state disk.new) }
    ensures done { OnOk result (Follows (Restarts value.now) (D.state disk.old) (D.state disk.new)) }
    ensures shown { OnOk result (IsTrue (D.state disk.old).tells → Restarts value.now (D.state disk.old).shown (D.state disk.new).shown) }
    ensures synced { OnOk result (Only (D.state disk.new).shown (D.state disk.new)) }
    ensures writes { WritesAtMost 1 (D.state disk.old) (D.state disk.new) }
    ensures no_fault { OnOk result ((D.state disk.new).faults ≡ (D.state disk.old).faults) }
    ensures cause { OnErr result (FailedSince (D.state disk.old) (D.state disk.new)) }
{
    if disk.write(0, &seal(value)).is_err() {
        return Err(DiskFault::Disk);
    }
    if disk.sync().is_err() {
        return Err(DiskFault::Disk);
    }
    Ok(())
}

/// Reads the restart sector of a disk whose snapshot areas have `most` sectors each, and each of whose slots has one sector
/// where it is `single`, as the disk reads. It is nothing exactly where sector 0 is all zeros. Nothing is written.
#[tactic(auto, using(crate::proofs::Valid::found_valid))]
pub fn read_restart<D: Disk>(
    disk: &mut D,
    most: u32,
    single: bool,
) -> Result<Option<RestartSector>, RestartFault>
    requires has_a_sector { 0 < (D.state disk.old).size }
    ensures value { IsTrue (D.state disk.old).tells → TellsRestart result (restart_in most single (D.state disk.old).shown) }
    // It is judged on each disk, also on one that doesn't tell its contents.
    ensures valid { IfOk result (λ found. IfSome found (IsValid most)) }
    ensures keeps { Keeps (D.state disk.old) (D.state disk.new) }
    ensures until_stop { (D.state disk.new).until_stop ≡ (D.state disk.old).until_stop }
    ensures cause { RestartCause result (D.state disk.old) (D.state disk.new) }
{
    let mut sector = Sector::blank();
    if disk.read(0, &mut sector).is_err() {
        return Err(RestartFault::Disk);
    }
    match unseal(&sector, most, single) {
        Ok(found) => Ok(found),
        Err(rule) => Err(RestartFault::Bad(rule)),
    }
}
