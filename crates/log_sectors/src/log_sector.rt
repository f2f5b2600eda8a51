//! How a log sector is spelled and read.
ghost use Rattle.std.specs.Prelude.{◌≡◌, ◌<◌, ◌≤◌, ◌↔◌, length, MatchOption, IsTrue, None, Some};
ghost use Rattle.tm_disk.specs.Sector.{zeros};
ghost use Rattle.log_sectors.specs.SealedSector.{header, sealed, HasZerosBehind, opened_payload, used_of};

use tm_disk::{SECTOR_BYTES, Sector};

const HEADER_BYTES: usize = 32;

/// How many bytes of payload a log sector holds at most.
pub const PAYLOAD_BYTES: usize = SECTOR_BYTES - HEADER_BYTES;

// What stands before the payload.
fn header(epoch: u64, sequence: u64, used: u16) -> [u8; HEADER_BYTES]
    ensures { result ≡ header epoch sequence used }
{
    let e = epoch.to_be_bytes();
    let s = sequence.to_be_bytes();
    let u = used.to_be_bytes();
    [
        b'I', b'M', b'S', b'L', 0, 0, 0, 0, e[0], e[1], e[2], e[3], e[4], e[5], e[6], e[7], s[0],
        s[1], s[2], s[3], s[4], s[5], s[6], s[7], u[0], u[1], 0, 0, 0, 0, 0, 0,
    ]
}

/// Makes a sector, in which there are zeros behind so many bytes of payload, a log sector of this epoch and sequence with this
/// payload. Only what it leaves of those bytes is zeroed.
pub fn reseal(sector: &mut Sector, held: usize, epoch: u64, sequence: u64, payload: &[u8])
    requires some { 0 < length payload.now }
    requires fits { length payload.now ≤ 4064 }
    requires few { held ≤ 4064 }
    requires behind { HasZerosBehind held sector.old }
    ensures { sector.new ≡ sealed epoch sequence payload.now }
{
    sector.set(0, &header(epoch, sequence, payload.len() as u16));
    sector.set(HEADER_BYTES, payload);
    let end = payload.len().max(held);
    sector.clear(HEADER_BYTES + payload.len(), HEADER_BYTES + end);
}

/// A log sector of this epoch and sequence with this payload.
pub fn seal(epoch: u64, sequence: u64, payload: &[u8]) -> Sector
    requires some { 0 < length payload.now }
    requires fits { length payload.now ≤ 4064 }
    ensures { result ≡ sealed epoch sequence payload.now }
{
    let mut sector = Sector::blank();
    reseal(&mut sector, 0, epoch, sequence, payload);
    sector
}

// How many bytes of payload the sector says it holds.
fn used(bytes: &[u8]) -> usize
    requires { length bytes.now ≡ 4096 }
    ensures { result ≡ used_of bytes.now }
{
    u16::from_be_bytes([bytes[24], bytes[25]]) as usize
}

fn all_zero(bytes: &[u8]) -> bool
    ensures { IsTrue result ↔ (bytes.now ≡ zeros (length bytes.now)) }
{
    for byte in bytes {
        if *byte != 0 {
            return false;
        }
    }
    true
}

/// The payload of a log sector of this epoch and sequence, and nothing for any other sector.
pub fn unseal(sector: &Sector, epoch: u64, sequence: u64) -> Option<&[u8]>
    ensures { MatchOption result (opened_payload epoch sequence sector.now ≡ None) (λ payload. opened_payload epoch sequence sector.now ≡ Some payload.now) }
{
    let bytes = sector.bytes();
    let used = used(bytes);
    if used == 0 || used > PAYLOAD_BYTES {
        return None;
    }
    let (front, rest) = bytes.split_at(HEADER_BYTES);
    let (payload, end) = rest.split_at(used);
    let expected = header(epoch, sequence, used as u16);
    if front == expected.as_slice() && all_zero(end) {
        Some(payload)
    } else {
        None
    }
}
