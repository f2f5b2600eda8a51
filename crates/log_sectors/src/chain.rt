//! The chain of a log area.
ghost use Rattle.std.specs.Prelude.{◌≡◌, ◌+◌, ◌<◌, ◌≤◌, ◌^◌, length, IsTrue, IfOk, OnOk, IsErrOf};
ghost use Rattle.tm_disk.specs.Disk.{sector_at, Keeps, FailedSince};
ghost use Rattle.log_sectors.specs.Chain.{chain, joined_payloads};

use crate::log_sector::unseal;
use std::alloc::Global;
use thiserror::Error;
use tm_disk::{Disk, Sector};
use tm_types::Bytes;

/// The joined payload of a chain, and of how many sectors it is.
#[derive(Debug, Drop)]
pub struct Chain {
    pub payload: Bytes,
    pub sectors: u32,
}

/// Why a chain wasn't read.
#[derive(Clone, Copy, Debug, Drop, Error, PartialEq, Eq)]
pub enum ChainFault {
    /// The disk failed at a read, and its count of faults rose.
    #[error("the disk failed")]
    Disk,
    /// There was no memory for the payload. No read failed before.
    #[error("no memory")]
    Memory,
}

/// Reads the chain of an area of a disk, as the disk reads: the area begins at `first` and has `count` sectors, and
/// the chain's first sector has this sequence. Nothing is written.
pub fn read_chain<D: Disk>(
    alloc: Global,
    disk: &mut D,
    first: u32,
    count: u32,
    sequence: u64,
    epoch: u64,
) -> Result<Chain, ChainFault>
    requires within { first + count ≤ (D.state disk.old).size }
    requires sequences { sequence + count < 2 ^ 64 }
    ensures payload { IfOk result (λ read. IsTrue (D.state disk.old).tells → read.payload ≡ joined_payloads (chain count (D.state disk.old).shown first sequence epoch)) }
    ensures sectors { IfOk result (λ read. IsTrue (D.state disk.old).tells → read.sectors ≡ length (chain count (D.state disk.old).shown first sequence epoch)) }
    // No more sectors than the area has, on each disk.
    ensures few { IfOk result (λ read. read.sectors ≤ count) }
    ensures keeps { Keeps (D.state disk.old) (D.state disk.new) }
    ensures until_stop { (D.state disk.new).until_stop ≡ (D.state disk.old).until_stop }
    // The disk failed in the call exactly where that is told.
    ensures disk { IsErrOf result ChainFault.Disk → FailedSince (D.state disk.old) (D.state disk.new) }
    ensures no_fault { OnOk result ((D.state disk.new).faults ≡ (D.state disk.old).faults) }
    ensures memory { IsErrOf result ChainFault.Memory → (D.state disk.new).faults ≡ (D.state disk.old).faults }
{
    let mut sector = Sector::blank();
    read_chain_by(alloc, disk, &mut sector, first, count, sequence, epoch)
}

/// The same, where each sector is read into this one: a sector of the area behind the chain is the last.
pub fn read_chain_by<D: Disk>(
    alloc: Global,
    disk: &mut D,
    sector: &mut Sector,
    first: u32,
    count: u32,
    sequence: u64,
    epoch: u64,
) -> Result<Chain, ChainFault>
    requires within { first + count ≤ (D.state disk.old).size }
    requires sequences { sequence + count < 2 ^ 64 }
    ensures payload { IfOk result (λ read. IsTrue (D.state disk.old).tells → read.payload ≡ joined_payloads (chain count (D.state disk.old).shown first sequence epoch)) }
    ensures sectors { IfOk result (λ read. IsTrue (D.state disk.old).tells → read.sectors ≡ length (chain count (D.state disk.old).shown first sequence epoch)) }
    ensures behind { IfOk result (λ read. IsTrue (D.state disk.old).tells → read.sectors < count → sector.new ≡ sector_at (D.state disk.old).shown (first + read.sectors)) }
    // No more sectors than the area has, on each disk.
    ensures few { IfOk result (λ read. read.sectors ≤ count) }
    ensures keeps { Keeps (D.state disk.old) (D.state disk.new) }
    ensures until_stop { (D.state disk.new).until_stop ≡ (D.state disk.old).until_stop }
    // The disk failed in the call exactly where that is told.
    ensures disk { IsErrOf result ChainFault.Disk → FailedSince (D.state disk.old) (D.state disk.new) }
    ensures no_fault { OnOk result ((D.state disk.new).faults ≡ (D.state disk.old).faults) }
    ensures memory { IsErrOf result ChainFault.Memory → (D.state disk.new).faults ≡ (D.state disk.old).faults }
{
    let mut payload = Bytes::new(alloc);
    for place in 0..count {
        if disk.read(first + place, sector).is_err() {
            return Err(ChainFault::Disk);
        }
        match unseal(sector, epoch, sequence + place as u64) {
            Some(bytes) => {
                if payload.append(bytes).is_err() {
                    return Err(ChainFault::Memory);
                }
            }
            None => {
                return Ok(Chain {
                    payload,
                    sectors: place,
                });
            }
        }
    }
    Ok(Chain {
        payload,
        sectors: count,
    })
}
