//! Log sectors of a later life.
ghost use Rattle.std.specs.Prelude.{◌≡◌, ◌+◌, ◌<◌, ◌≤◌, length, IsTrue, IfOk, OnOk, OnErr};
ghost use Rattle.tm_disk.specs.Disk.{Keeps, FailedSince, sector_at};
ghost use Rattle.model_image.specs.RecoveredState as recovered;

use restart_data::number8;
use tm_disk::{Disk, DiskFault, Sector};

/// Whether the sector is one of a log with a later epoch.
fn is_later(epoch: u64, sector: &Sector) -> bool
    ensures { result ≡ recovered.is_later epoch sector.now }
{
    let bytes = sector.bytes();
    &bytes[..4] == b"IMSL".as_slice() && number8(bytes, 8) > epoch
}

/// The first of so many sectors from `first` on that is one of a log with a later epoch than this.
pub fn first_later<D: Disk>(
    disk: &mut D,
    first: u32,
    count: u32,
    epoch: u64,
) -> Result<Option<u32>, DiskFault>
    requires within { first + count ≤ (D.state disk.old).size }
    ensures value { IfOk result (λ found. IsTrue (D.state disk.old).tells → found ≡ recovered.first_later count (D.state disk.old).shown first epoch) }
    ensures keeps { Keeps (D.state disk.old) (D.state disk.new) }
    ensures no_fault { OnOk result ((D.state disk.new).faults ≡ (D.state disk.old).faults) }
    ensures cause { OnErr result (FailedSince (D.state disk.old) (D.state disk.new)) }
{
    let mut sector = Sector::blank();
    for place in 0..count {
        if disk.read(first + place, &mut sector).is_err() {
            return Err(DiskFault::Disk);
        }
        if is_later(epoch, &sector) {
            return Ok(Some(first + place));
        }
    }
    Ok(None)
}

/// The same, where the first of these sectors was read before: it isn't read again.
#[tactic(auto, using(crate::proofs::Sectors::later_first, crate::proofs::Sectors::later_behind))]
pub fn first_later_from<D: Disk>(
    disk: &mut D,
    first: u32,
    count: u32,
    epoch: u64,
    sector: &Sector,
) -> Result<Option<u32>, DiskFault>
    requires within { first + count ≤ (D.state disk.old).size }
    requires some { 0 < count }
    requires read { IsTrue (D.state disk.old).tells → sector.now ≡ sector_at (D.state disk.old).shown first }
    ensures value { IfOk result (λ found. IsTrue (D.state disk.old).tells → found ≡ recovered.first_later count (D.state disk.old).shown first epoch) }
    ensures keeps { Keeps (D.state disk.old) (D.state disk.new) }
    ensures no_fault { OnOk result ((D.state disk.new).faults ≡ (D.state disk.old).faults) }
    ensures cause { OnErr result (FailedSince (D.state disk.old) (D.state disk.new)) }
{
    if is_later(epoch, sector) {
        return Ok(Some(first));
    }
    first_later(disk, first + 1, count - 1, epoch)
}
