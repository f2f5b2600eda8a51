//! How a sector of a snapshot is spelled and read.
ghost use Rattle.std.specs.Prelude.{◌≡◌, ◌<◌, ◌≤◌, ◌+◌, length, Ok, Err, MatchResult};
ghost use Rattle.restart_data.specs.Rules.{first_broken};
ghost use Rattle.restart_data.specs.Snapshot.{snapshot_header, snapshot_sector, used_of, other_letters, other_place, wrong_used, stray_snapshot, snapshot_sector_rules, part_of};

use crate::fields::{all_zero, all_zero_from, number2, number8};
use tm_disk::{SECTOR_BYTES, Sector};

const HEADER_BYTES: usize = 32;

/// How many bytes of a snapshot a sector holds at most.
pub(crate) const PAYLOAD_BYTES: usize = SECTOR_BYTES - HEADER_BYTES;

// What stands before the payload.
fn header(checkpoint: u64, place: u64, used: u16) -> [u8; HEADER_BYTES]
    ensures { result ≡ snapshot_header checkpoint place used }
{
    let c = checkpoint.to_be_bytes();
    let p = place.to_be_bytes();
    let u = used.to_be_bytes();
    [
        b'I', b'M', b'S', b'S', 0, 0, 0, 0, c[0], c[1], c[2], c[3], c[4], c[5], c[6], c[7], p[0],
        p[1], p[2], p[3], p[4], p[5], p[6], p[7], u[0], u[1], 0, 0, 0, 0, 0, 0,
    ]
}

/// The sector at a place of the snapshot of a checkpoint, with this payload.
pub(crate) fn seal(checkpoint: u64, place: u64, payload: &[u8]) -> Sector
    requires { length payload.now ≤ 4064 }
    ensures { result ≡ snapshot_sector checkpoint place payload.now }
{
    let mut sector = Sector::blank();
    sector.set(0, &header(checkpoint, place, payload.len() as u16));
    sector.set(HEADER_BYTES, payload);
    sector
}

fn has_other_letters(bytes: &[u8]) -> bool
    requires { length bytes.now ≡ 4096 }
    ensures { result ≡ other_letters bytes.now }
{
    &bytes[..4] != b"IMSS".as_slice()
}

fn is_of_other_place(bytes: &[u8], checkpoint: u64, place: u64) -> bool
    requires { length bytes.now ≡ 4096 }
    ensures { result ≡ other_place checkpoint place bytes.now }
{
    has_other_letters(bytes) || number8(bytes, 8) != checkpoint || number8(bytes, 16) != place
}

fn is_wrong_used(behind: u32, used: usize) -> bool
    ensures { result ≡ wrong_used behind used }
{
    if used == 0 || used > PAYLOAD_BYTES {
        return true;
    }
    behind > 0 && used != PAYLOAD_BYTES
}

fn has_stray_bytes(bytes: &[u8], used: usize) -> bool
    requires size { length bytes.now ≡ 4096 }
    requires used { used ≡ used_of bytes.now }
    requires fits { used ≤ 4064 }
    ensures { result ≡ stray_snapshot bytes.now }
{
    !all_zero(&bytes[4..8])
        || !all_zero(&bytes[26..HEADER_BYTES])
        || !all_zero_from(bytes, HEADER_BYTES + used)
}

/// The payload of the sector at a place of the snapshot of a checkpoint, with so many of its sectors behind it; or the
/// lowest rule that it breaks.
#[tactic(auto, unfolding(crate::specs::Snapshot::part_of))]
pub(crate) fn unseal(sector: &Sector, checkpoint: u64, place: u64, behind: u32) -> Result<&[u8], u8>
    ensures { MatchResult result (λ payload. part_of behind checkpoint place sector.now ≡ Ok payload.now) (λ rule. part_of behind checkpoint place sector.now ≡ Err rule) }
{
    let bytes = sector.bytes();
    if is_of_other_place(bytes, checkpoint, place) {
        return Err(7);
    }
    let used = number2(bytes, 24) as usize;
    if is_wrong_used(behind, used) {
        return Err(8);
    }
    if has_stray_bytes(bytes, used) {
        return Err(9);
    }
    Ok(&bytes[HEADER_BYTES..HEADER_BYTES + used])
}
