//! A disk of sectors: what its calls promise.
ghost use Rattle.std.specs.Prelude.{◌≡◌, ◌<◌, ◌↔◌, IsTrue, IsFalse, OnOk, OnErr, IsErr};
ghost use Rattle.tm_disk.specs.Disk.{DiskState, IsDisk, Keeps, IsToldToStop, MayHaveWritten, HasWritten, IsCut, Only, FailedSince, sector_at, is_disk_stopped, is_stop_due, armed};
ghost use Rattle.tm_disk.specs.declared.disk.DiskFault.TheVariants.{Disk as disk_fault};

use crate::Sector;
use thiserror::Error;

/// A device failed at a call.
#[derive(Clone, Copy, Debug, Drop, Error, PartialEq, Eq)]
#[error("the device failed")]
pub struct Failed;

/// The disk failed.
#[derive(Clone, Copy, Debug, Drop, Error, PartialEq, Eq)]
pub enum DiskFault {
    #[error("the disk failed")]
    Disk,
}

impl From<Failed> for DiskFault {
    ghost from_gives = { λ _ e. e ≡ disk_fault };

    fn from(_: Failed) -> Self {
        DiskFault::Disk
    }
}

/// Sectors that are read and written whole. Until a sync a crash may leave any of the writes, or none.
/// A call answers `Failed` exactly where the count of faults rose in it.
pub trait Disk {
    /// What it shows, and what a crash may leave.
    ghost state: { Self → DiskState };

    /// How many sectors it has. No call changes that.
    fn sectors(&self) -> u32
        ensures { result ≡ (state self.now).size };

    /// How often it failed. A count that stands at the greatest `u64` counts as risen.
    fn faults(&self) -> u64
        ensures { result ≡ (state self.now).faults };

    /// Reads a sector.
    fn read(&mut self, at: u32, into: &mut Sector) -> Result<(), Failed>
        requires { at < (state self.old).size }
        ensures value { OnOk result (IsTrue (state self.old).tells → into.new ≡ sector_at (state self.old).shown at) }
        ensures keeps { Keeps (state self.old) (state self.new) }
        ensures until_stop { (state self.new).until_stop ≡ (state self.old).until_stop }
        ensures stopped { IsTrue (is_disk_stopped (state self.old).until_stop) → IsErr result }
        ensures no_fault { OnOk result ((state self.new).faults ≡ (state self.old).faults) }
        ensures failed { OnErr result (FailedSince (state self.old) (state self.new)) };

    /// Writes a sector. A write that failed may have been made or not.
    fn write(&mut self, at: u32, from: &Sector) -> Result<(), Failed>
        requires { at < (state self.old).size }
        ensures tried { MayHaveWritten at from.now (state self.old) (state self.new) }
        ensures done { OnOk result (HasWritten at from.now (state self.old) (state self.new)) }
        ensures stopped { IsTrue (is_stop_due (state self.old).until_stop) → IsErr result }
        ensures no_fault { OnOk result ((state self.new).faults ≡ (state self.old).faults) }
        ensures failed { OnErr result (FailedSince (state self.old) (state self.new)) };

    /// After it a crash leaves what reads give.
    fn sync(&mut self) -> Result<(), Failed>
        ensures synced { OnOk result (Only (state self.new).shown (state self.new)) }
        ensures keeps { Keeps (state self.old) (state self.new) }
        ensures until_stop { (state self.new).until_stop ≡ (state self.old).until_stop }
        ensures stopped { IsTrue (is_disk_stopped (state self.old).until_stop) → IsErr result }
        ensures no_fault { OnOk result ((state self.new).faults ≡ (state self.old).faults) }
        ensures failed { OnErr result (FailedSince (state self.old) (state self.new)) };

    /// Makes the `n`-th write from now fail and the disk stop: from then on each call fails, until `cut`.
    /// A disk that has stopped stays so, and a disk that is armed is armed anew. It answers false, and does
    /// nothing, where the disk can't be armed.
    fn arm(&mut self, n: u64) -> bool
        requires { 0 < n }
        ensures can { IsTrue result ↔ IsTrue (state self.old).can_arm }
        ensures told { IsToldToStop (state self.old) (state self.new) }
        ensures no_fault { (state self.new).faults ≡ (state self.old).faults }
        ensures armed { IsTrue result → (state self.new).until_stop ≡ armed n (state self.old).until_stop }
        ensures nothing { IsFalse result → self.new ≡ self.old };

    /// Leaves one of the images that a crash may leave now, the one that the pick chooses, shown and synced, and disarms.
    fn cut(&mut self, pick: u64)
        ensures { IsCut pick (state self.old) (state self.new) };

    /// It is a disk at each moment.
    ghost is_disk: { (disk : Self) → IsDisk (state disk) };
}
