//! Writing bytes into log sectors.
ghost use Rattle.std.specs.Prelude.{◌≡◌, ◌+◌, ◌*◌, ◌<◌, ◌≤◌, ◌^◌, length, IsTrue, IfOk, OnOk, OnErr};
ghost use Rattle.tm_disk.specs.Disk.{Stays, Within, Follows, WritesAtMost, FailedSince};
ghost use Rattle.log_writer.specs.ForcedLog.{log_sectors_of, log_pieces, log_piece, Lays, HasLaid};

use crate::seal::Seal;
use log_sectors::PAYLOAD_BYTES;
use tm_disk::{Disk, DiskFault};

/// How many sectors so many bytes take.
pub fn sectors_of(length: usize) -> usize
    requires { length + 4063 < 2 ^ 64 }
    ensures { result ≡ log_sectors_of length }
{
    length.div_ceil(PAYLOAD_BYTES)
}

// The bytes of one of the sectors.
fn piece(bytes: &[u8], place: usize) -> &[u8]
    requires { place < log_sectors_of (length bytes.now) }
    ensures value { result.now ≡ log_piece (log_pieces (log_sectors_of (length bytes.now)) bytes.now) place }
    ensures some { 0 < length result.now }
    ensures fits { length result.now ≤ 4064 }
{
    let rest = &bytes[place * PAYLOAD_BYTES..];
    &rest[..rest.len().min(PAYLOAD_BYTES)]
}

/// Writes bytes into log sectors from a place on, the first of them with this sequence. They are sealed one after another in one
/// sector.
#[tactic(auto, using(tm_disk::proofs::Words::stays_on))]
pub fn lay<D: Disk>(
    disk: &mut D,
    at: u32,
    sequence: u64,
    epoch: u64,
    bytes: &[u8],
    seal: &mut Seal,
) -> Result<(), DiskFault>
    requires within { at + log_sectors_of (length bytes.now) ≤ (D.state disk.old).size }
    requires sequences { sequence + log_sectors_of (length bytes.now) < 2 ^ 64 }
    ensures stays { Stays (D.state disk.old) (D.state disk.new) }
    ensures any_moment { Within (Lays at sequence epoch (log_pieces (log_sectors_of (length bytes.now)) bytes.now) (log_sectors_of (length bytes.now))) (D.state disk.old) (D.state disk.new) }
    ensures follows { Follows (Lays at sequence epoch (log_pieces (log_sectors_of (length bytes.now)) bytes.now) (log_sectors_of (length bytes.now))) (D.state disk.old) (D.state disk.new) }
    ensures shown { OnOk result (IsTrue (D.state disk.old).tells → HasLaid at sequence epoch (log_pieces (log_sectors_of (length bytes.now)) bytes.now) (log_sectors_of (length bytes.now)) (D.state disk.old).shown (D.state disk.new).shown) }
    ensures writes { WritesAtMost (log_sectors_of (length bytes.now)) (D.state disk.old) (D.state disk.new) }
    ensures no_fault { OnOk result ((D.state disk.new).faults ≡ (D.state disk.old).faults) }
    ensures cause { OnErr result (FailedSince (D.state disk.old) (D.state disk.new)) }
{
    let count = sectors_of(bytes.len());
    for place in 0..count {
        let payload = piece(bytes, place);
        seal.seal(epoch, sequence + place as u64, payload);
        if disk.write(at + place as u32, seal.sector()).is_err() {
            return Err(DiskFault::Disk);
        }
    }
    Ok(())
}
