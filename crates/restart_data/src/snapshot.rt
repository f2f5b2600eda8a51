//! Snapshots on a disk.
ghost use Rattle.std.specs.Prelude.{◌≡◌, ◌+◌, ◌*◌, ◌<◌, ◌≤◌, ◌^◌, length, IsTrue, IfOk, OnOk, OnErr};
ghost use Rattle.tm_disk.specs.Disk.{Stays, Within, Follows, Keeps, WritesAtMost, FailedSince, ChangesOnly};
ghost use Rattle.restart_data.specs.Snapshot.{snapshot_sectors_of, snapshot_piece, snapshot_in};
ghost use Rattle.restart_data.specs.WrittenSectors.{Saves, TellsSnapshot, SnapshotCause};

use crate::gathered::Gathered;
use crate::snapshot_sector::{PAYLOAD_BYTES, seal};
use std::alloc::Global;
use thiserror::Error;
use tm_disk::{Disk, DiskFault, Sector};
use tm_types::Bytes;

/// Why a snapshot wasn't read.
#[derive(Clone, Copy, Debug, Drop, Error, PartialEq, Eq)]
pub enum SnapshotFault {
    /// The lowest rule that one of its sectors breaks, and the lowest sector that breaks it: 7, the letters, the checkpoint
    /// or the place; 8, the count of its bytes, which is 4,064 in each but the last and 1 to 4,064 there; 9, bytes where
    /// zeros belong.
    #[error("rule {0} is broken in sector {1}")]
    Bad(u8, u32),
    /// The disk failed at a read, and its count of faults rose.
    #[error("the disk failed")]
    Disk,
    /// There was no memory for the bytes. No read failed before.
    #[error("no memory")]
    Memory,
}

// The bytes of a snapshot that its sector at a place holds.
fn piece(bytes: &[u8], place: usize) -> &[u8]
    requires { place < snapshot_sectors_of (length bytes.now) }
    ensures value { result.now ≡ snapshot_piece place bytes.now }
    ensures fits { length result.now ≤ 4064 }
{
    let rest = &bytes[place * PAYLOAD_BYTES..];
    &rest[..rest.len().min(PAYLOAD_BYTES)]
}

/// Writes bytes as the snapshot of a checkpoint into the area of `count` sectors that begins at `first`; a sync makes them
/// last. The answer is how many sectors they take. No other sector is written. `Disk` comes exactly where the disk
/// failed in the call.
#[tactic(auto, using(tm_disk::proofs::Words::stays_on))]
pub fn write_snapshot<D: Disk>(
    disk: &mut D,
    first: u32,
    count: u32,
    number: u64,
    bytes: &[u8],
) -> Result<u32, DiskFault>
    requires within { first + count ≤ (D.state disk.old).size }
    requires some { 0 < length bytes.now }
    requires fits { length bytes.now ≤ count * 4064 }
    ensures stays { Stays (D.state disk.old) (D.state disk.new) }
    ensures any_moment { Within (ChangesOnly first (snapshot_sectors_of (length bytes.now))) (D.state disk.old) (D.state disk.new) }
    ensures follows { Follows (ChangesOnly first (snapshot_sectors_of (length bytes.now))) (D.state disk.old) (D.state disk.new) }
    ensures shown { OnOk result (IsTrue (D.state disk.old).tells → Saves first number bytes.now (D.state disk.old).shown (D.state disk.new).shown) }
    ensures sectors { IfOk result (λ n. n ≡ snapshot_sectors_of (length bytes.now)) }
    ensures writes { WritesAtMost (snapshot_sectors_of (length bytes.now)) (D.state disk.old) (D.state disk.new) }
    ensures no_fault { OnOk result ((D.state disk.new).faults ≡ (D.state disk.old).faults) }
    ensures cause { OnErr result (FailedSince (D.state disk.old) (D.state disk.new)) }
{
    let sectors = bytes.len().div_ceil(PAYLOAD_BYTES) as u32;
    for place in 0..sectors {
        let sector = seal(number, place as u64, piece(bytes, place as usize));
        if disk.write(first + place, &sector).is_err() {
            return Err(DiskFault::Disk);
        }
    }
    Ok(sectors)
}

/// Reads the snapshot of a checkpoint, which has so many sectors from `first` on, as the disk reads. Nothing is written.
pub fn read_snapshot<D: Disk>(
    alloc: Global,
    disk: &mut D,
    first: u32,
    sectors: u32,
    number: u64,
) -> Result<Bytes, SnapshotFault>
    requires { first + sectors ≤ (D.state disk.old).size }
    ensures value { IsTrue (D.state disk.old).tells → TellsSnapshot result (snapshot_in sectors (D.state disk.old).shown first number) }
    ensures keeps { Keeps (D.state disk.old) (D.state disk.new) }
    ensures until_stop { (D.state disk.new).until_stop ≡ (D.state disk.old).until_stop }
    ensures cause { SnapshotCause result (D.state disk.old) (D.state disk.new) }
{
    let mut gathered = Gathered::new(alloc);
    let mut sector = Sector::blank();
    for place in 0..sectors {
        let at = first + place;
        if disk.read(at, &mut sector).is_err() {
            return Err(SnapshotFault::Disk);
        }
        let behind = sectors - place - 1;
        if gathered.add(&sector, number, place, behind, at).is_err() {
            return Err(SnapshotFault::Memory);
        }
    }
    match gathered.broken {
        Some(broken) => Err(SnapshotFault::Bad(broken.rule, broken.sector)),
        None => Ok(gathered.bytes),
    }
}
