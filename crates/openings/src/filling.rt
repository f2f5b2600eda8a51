//! Sectors of zeros, and the text of a definition.
ghost use Rattle.std.specs.Prelude.{◌≡◌, ◌+◌, ◌≤◌, ◌<◌, length, IsTrue, OnOk, OnErr};
ghost use Rattle.tm_disk.specs.Disk.{Stays, Within, Follows, WritesAtMost, FailedSince, ChangesOnly};
ghost use Rattle.tm_disk.specs.Sector.{blank};
ghost use Rattle.openings.specs.ColdWrites.{Fills, text_sectors, text_piece, text_sector};

use tm_disk::{Disk, DiskFault, SECTOR_BYTES, Sector};

/// Writes zeros into so many sectors from `first` on. No other sector is written.
#[tactic(auto, using(tm_disk::proofs::Words::stays_on))]
pub(crate) fn write_zeros<D: Disk>(disk: &mut D, first: u32, count: u32) -> Result<(), DiskFault>
    requires within { first + count ≤ (D.state disk.old).size }
    ensures stays { Stays (D.state disk.old) (D.state disk.new) }
    ensures any_moment { Within (ChangesOnly first count) (D.state disk.old) (D.state disk.new) }
    ensures follows { Follows (ChangesOnly first count) (D.state disk.old) (D.state disk.new) }
    ensures shown { OnOk result (IsTrue (D.state disk.old).tells → Fills (λ x. blank) first count (D.state disk.old).shown (D.state disk.new).shown) }
    ensures writes { WritesAtMost count (D.state disk.old) (D.state disk.new) }
    ensures no_fault { OnOk result ((D.state disk.new).faults ≡ (D.state disk.old).faults) }
    ensures cause { OnErr result (FailedSince (D.state disk.old) (D.state disk.new)) }
{
    let zeros = Sector::blank();
    for place in 0..count {
        if disk.write(first + place, &zeros).is_err() {
            return Err(DiskFault::Disk);
        }
    }
    Ok(())
}

// The bytes of a text in its sector at a place.
fn text_piece(text: &[u8], place: usize) -> &[u8]
    requires { place < text_sectors (length text.now) }
    ensures value { result.now ≡ text_piece text.now place }
    ensures fits { length result.now ≤ 4096 }
{
    let rest = &text[place * SECTOR_BYTES..];
    &rest[..rest.len().min(SECTOR_BYTES)]
}

// That sector: zeros stand behind the bytes.
fn text_sector(text: &[u8], place: usize) -> Sector
    requires { place < text_sectors (length text.now) }
    ensures { result ≡ text_sector text.now place }
{
    let mut sector = Sector::blank();
    sector.set(0, text_piece(text, place));
    sector
}

/// Writes the text into as many sectors behind the restart sector as it fills, the last of them padded with zeros.
#[tactic(auto, using(tm_disk::proofs::Words::stays_on))]
pub(crate) fn write_text<D: Disk>(disk: &mut D, text: &[u8]) -> Result<(), DiskFault>
    requires short { length text.now ≤ 262144 }
    requires within { 65 ≤ (D.state disk.old).size }
    ensures stays { Stays (D.state disk.old) (D.state disk.new) }
    ensures any_moment { Within (ChangesOnly 1 (text_sectors (length text.now))) (D.state disk.old) (D.state disk.new) }
    ensures follows { Follows (ChangesOnly 1 (text_sectors (length text.now))) (D.state disk.old) (D.state disk.new) }
    ensures shown { OnOk result (IsTrue (D.state disk.old).tells → Fills (text_sector text.now) 1 (text_sectors (length text.now)) (D.state disk.old).shown (D.state disk.new).shown) }
    ensures writes { WritesAtMost (text_sectors (length text.now)) (D.state disk.old) (D.state disk.new) }
    ensures no_fault { OnOk result ((D.state disk.new).faults ≡ (D.state disk.old).faults) }
    ensures cause { OnErr result (FailedSince (D.state disk.old) (D.state disk.new)) }
{
    let sectors = text.len().div_ceil(SECTOR_BYTES) as u32;
    for place in 0..sectors {
        let sector = text_sector(text, place as usize);
        if disk.write(1 + place, &sector).is_err() {
            return Err(DiskFault::Disk);
        }
    }
    Ok(())
}
