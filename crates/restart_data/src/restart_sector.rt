//! How the restart sector is spelled and read.
ghost use Rattle.std.specs.Prelude.{◌≡◌, ◌<◌, ◌^◌, length};
ghost use Rattle.restart_data.specs.Rules.{first_broken};
ghost use Rattle.restart_data.specs.Restart.{restart_front, restart_back, restart_sector, fields_of, other_letters, other_version, has_other_area, wrong_size, wrong_counter, wrong_counters, stray_bytes, restart_rules, restart_of};

use crate::RestartSector;
use crate::fields::{all_zero, all_zero_from, number4, number8};
use tm_disk::Sector;

const FRONT_BYTES: usize = 20;

const USED_BYTES: usize = 44;

const VERSION: u32 = 2;

// The version before, whose slots have one sector each.
const SINGLE_VERSION: u32 = 1;

const MOST_TEXT: u32 = 262_144;

const COUNTER_END: u64 = 2_000_000_000_000_000_000;

// What stands before the size of the snapshot.
fn front(epoch: u64, snapshot: u8, log: u8) -> [u8; FRONT_BYTES]
    ensures { result ≡ restart_front epoch snapshot log }
{
    let e = epoch.to_be_bytes();
    [
        b'I', b'M', b'S', b'R', 0, 0, 0, 2, e[0], e[1], e[2], e[3], e[4], e[5], e[6], e[7],
        snapshot, log, 0, 0,
    ]
}

// The size of the snapshot and what stands behind it.
fn back(sectors: u32, sequence: u64, checkpoint: u64, text: u32) -> [u8; 24]
    ensures { result ≡ restart_back sectors sequence checkpoint text }
{
    let n = sectors.to_be_bytes();
    let s = sequence.to_be_bytes();
    let c = checkpoint.to_be_bytes();
    let t = text.to_be_bytes();
    [
        n[0], n[1], n[2], n[3], s[0], s[1], s[2], s[3], s[4], s[5], s[6], s[7], c[0], c[1], c[2],
        c[3], c[4], c[5], c[6], c[7], t[0], t[1], t[2], t[3],
    ]
}

/// The sector of a value.
pub(crate) fn seal(value: &RestartSector) -> Sector
    ensures spelled { result ≡ restart_sector value.now }
    ensures fits { value.now.sectors < 2 ^ 32 }
{
    let mut sector = Sector::blank();
    sector.set(0, &front(value.epoch, value.snapshot, value.log));
    sector.set(
        FRONT_BYTES,
        &back(value.sectors, value.sequence, value.checkpoint, value.text),
    );
    sector
}

// What the sector says.
fn fields(bytes: &[u8]) -> RestartSector
    requires { length bytes.now ≡ 4096 }
    ensures { result ≡ fields_of bytes.now }
{
    RestartSector {
        epoch: number8(bytes, 8),
        snapshot: bytes[16],
        log: bytes[17],
        sectors: number4(bytes, 20),
        sequence: number8(bytes, 24),
        checkpoint: number8(bytes, 32),
        text: number4(bytes, 40),
    }
}

fn has_other_letters(bytes: &[u8]) -> bool
    requires { length bytes.now ≡ 4096 }
    ensures { result ≡ other_letters bytes.now }
{
    &bytes[..4] != b"IMSR".as_slice()
}

fn is_wrong_counter(counter: u64) -> bool
    ensures { result ≡ wrong_counter counter }
{
    counter == 0 || counter >= COUNTER_END
}

fn has_wrong_counters(value: &RestartSector) -> bool
    ensures { result ≡ wrong_counters value.now }
{
    is_wrong_counter(value.epoch)
        || is_wrong_counter(value.sequence)
        || is_wrong_counter(value.checkpoint)
}

fn has_stray_bytes(bytes: &[u8]) -> bool
    requires { length bytes.now ≡ 4096 }
    ensures { result ≡ stray_bytes bytes.now }
{
    !all_zero(&bytes[18..FRONT_BYTES]) || !all_zero_from(bytes, USED_BYTES)
}

fn has_other_version(bytes: &[u8], single: bool) -> bool
    requires { length bytes.now ≡ 4096 }
    ensures { result ≡ other_version single bytes.now }
{
    let version = number4(bytes, 4);
    version != VERSION && !(single && version == SINGLE_VERSION)
}

// The first rule that a sector that says this breaks.
fn broken_rule(bytes: &[u8], value: &RestartSector, most: u32, single: bool) -> Option<u8>
    requires size { length bytes.now ≡ 4096 }
    requires says { value.now ≡ fields_of bytes.now }
    ensures { result ≡ first_broken (restart_rules most single bytes.now) }
{
    if has_other_letters(bytes) {
        return Some(1);
    }
    if has_other_version(bytes, single) {
        return Some(2);
    }
    if value.snapshot > 1 || value.log > 1 {
        return Some(3);
    }
    if value.sectors == 0 || value.sectors > most {
        return Some(4);
    }
    if has_wrong_counters(value) {
        return Some(5);
    }
    if has_stray_bytes(bytes) || value.text > MOST_TEXT {
        return Some(6);
    }
    None
}

/// What the sector is read as, or the lowest rule that it breaks.
#[tactic(auto, unfolding(crate::specs::Restart::restart_of))]
pub(crate) fn unseal(sector: &Sector, most: u32, single: bool) -> Result<Option<RestartSector>, u8>
    ensures { result ≡ restart_of most single sector.now }
{
    let bytes = sector.bytes();
    if all_zero(bytes) {
        return Ok(None);
    }
    let value = fields(bytes);
    match broken_rule(bytes, &value, most, single) {
        Some(rule) => Err(rule),
        None => Ok(Some(value)),
    }
}
