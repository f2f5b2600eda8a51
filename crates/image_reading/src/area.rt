//! A log area, each sector of which is read once.
ghost use Rattle.std.specs.Prelude.{◌≡◌, ◌+◌, ◌<◌, ◌≤◌, ◌^◌, IsTrue, IfOk};
ghost use Rattle.tm_disk.specs.Disk.{Keeps};
ghost use Rattle.image_reading.specs.ReadLog.{IsAreaOf, LogCause};

use crate::later::first_later_from;
use crate::reading::LogFault;
use log_sectors::{ChainFault, read_chain_by};
use std::alloc::Global;
use tm_disk::{Disk, Sector};
use tm_types::Bytes;

/// What a log area has.
#[derive(Debug, Drop)]
pub struct LogArea {
    /// The bytes of its chain.
    pub payload: Bytes,
    /// Of how many sectors that is.
    pub sectors: u32,
    /// The first of all its sectors that is of a later epoch.
    pub later: Option<u32>,
}

/// Reads the chain of an area and looks behind it for sectors of a later epoch, as the disk reads: the area begins at
/// `first` and has `count` sectors, and the chain's first sector has this sequence. Each sector is read once: those of the
/// chain are of its own epoch.
pub fn read_area<D: Disk>(
    alloc: Global,
    disk: &mut D,
    first: u32,
    count: u32,
    sequence: u64,
    epoch: u64,
) -> Result<LogArea, LogFault>
    requires within { first + count ≤ (D.state disk.old).size }
    requires sequences { sequence + count < 2 ^ 64 }
    ensures value { IfOk result (λ area. IsTrue (D.state disk.old).tells → IsAreaOf count (D.state disk.old).shown first sequence epoch area) }
    // No more sectors than the area has, on each disk.
    ensures few { IfOk result (λ area. area.sectors ≤ count) }
    ensures keeps { Keeps (D.state disk.old) (D.state disk.new) }
    ensures cause { LogCause result (D.state disk.old) (D.state disk.new) }
{
    let mut sector = Sector::blank();
    let chain = match read_chain_by(alloc, disk, &mut sector, first, count, sequence, epoch) {
        Ok(chain) => chain,
        Err(ChainFault::Disk) => return Err(LogFault::Disk),
        Err(ChainFault::Memory) => return Err(LogFault::Memory),
    };
    let sectors = chain.sectors;
    if sectors == count {
        return Ok(LogArea {
            payload: chain.payload,
            sectors,
            later: None,
        });
    }
    match first_later_from(disk, first + sectors, count - sectors, epoch, &sector) {
        Ok(later) => Ok(LogArea {
            payload: chain.payload,
            sectors,
            later,
        }),
        Err(_) => Err(LogFault::Disk),
    }
}
