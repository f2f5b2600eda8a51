//! What a slot's bytes and a data sector spell.
ghost use Rattle.std.specs.Prelude.{◌≡◌, ◌≤◌, true, false, length, IfOk, MatchOption};
ghost use Rattle.model_image.specs.Slots.{payload_in, is_wrong_sector, rows_of_bytes, used_in};

use restart_data::all_zero;
use seg_rows::{DecodeFault, RecordImage, decode_record};
use std::alloc::Global;
use tm_disk::Sector;
use tm_types::{Dbd, Memory};

const HEADER_BYTES: usize = 2;

/// The rows of the record that the bytes of a slot spell, and no rows for no bytes; None exactly where they are no record.
pub fn image_of(alloc: Global, dbd: &Dbd, bytes: &[u8]) -> Result<Option<RecordImage>, Memory>
    ensures { IfOk result (λ image. image ≡ rows_of_bytes dbd.now bytes.now) }
{
    let _types = dbd.types.as_slice();
    if bytes.is_empty() {
        return Ok(Some(RecordImage::new(alloc)));
    }
    match decode_record(alloc, dbd, bytes) {
        Ok(image) => Ok(Some(image)),
        Err(DecodeFault::Bad(_, _)) => Ok(None),
        Err(DecodeFault::Memory) => Err(Memory),
    }
}

/// The bytes of a record in a data sector; None exactly where it says that there are more than 4,000, where other bytes
/// than zeros stand behind them, or where there are some and not all sectors of the slot before it are full.
pub fn bytes_in(sector: &Sector, full: bool) -> Option<&[u8]>
    ensures { MatchOption result (is_wrong_sector full sector.now ≡ true) (λ bytes. (bytes.now ≡ payload_in sector.now) × (length bytes.now ≡ used_in sector.now) × (is_wrong_sector full sector.now ≡ false)) }
{
    let bytes = sector.bytes();
    let used = used(bytes);
    if used > 4000 {
        return None;
    }
    if used > 0 && !full {
        return None;
    }
    if all_zero(&bytes[HEADER_BYTES + used..]) {
        Some(&bytes[HEADER_BYTES..HEADER_BYTES + used])
    } else {
        None
    }
}

// How many bytes the sector says that it holds.
#[tactic(auto, unfolding(restart_data::specs::Fields::number2_at))]
fn used(bytes: &[u8]) -> usize
    requires { length bytes.now ≡ 4096 }
    ensures { result ≡ used_in bytes.now }
{
    u16::from_be_bytes([bytes[0], bytes[1]]) as usize
}
