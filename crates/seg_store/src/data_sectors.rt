//! Records in data sectors.
ghost use Rattle.std.specs.Prelude.{◌≡◌, ◌+◌, ◌*◌, ◌<◌, ◌≤◌, IsTrue, OnOk, OnErr, drop, length, take};
ghost use Rattle.std.specs.List.{AllByRecursion};
ghost use Rattle.std.specs.Int.{w16, to_be_bytes};
ghost use Rattle.tm_disk.specs.Disk.{Stays, Within, Follows, WritesAtMost, FailedSince};
ghost use Rattle.model_data.specs.Record.{rows_spelling};
ghost use Rattle.seg_store.specs.DataSectors.{data_sector, pieces_from, pieces_of, MayPut, HasPut, PutsFront, bytes_of_slots};

use crate::RecordBytes;
use crate::record_bytes::spell;
use seg_rows::RecordImage;
use tm_disk::{Disk, DiskFault, Sector};

const HEADER_BYTES: usize = 2;

// How many bytes of a record a sector holds.
const PIECE_BYTES: usize = 4000;

// The data sector with these bytes of a record, or with none.
fn seal_bytes(bytes: &[u8]) -> Sector
    requires { length bytes.now ≤ 4000 }
    ensures { result ≡ data_sector bytes.now }
{
    let mut sector = Sector::blank();
    sector.set(0, &header(bytes.len() as u16));
    sector.set(HEADER_BYTES, bytes);
    sector
}

fn header(used: u16) -> [u8; HEADER_BYTES]
    ensures { result ≡ to_be_bytes w16 used }
{
    used.to_be_bytes()
}

// The bytes of a record that stand in one of the sectors of its slot.
#[tactic(auto, using(crate::proofs::Pieces::piece_last, crate::proofs::Pieces::piece_within, crate::proofs::Pieces::no_piece))]
fn piece_at(bytes: &[u8], place: u8) -> &[u8]
    ensures { result.now ≡ take 4000 (drop (4000 * place) bytes.now) }
{
    let from = PIECE_BYTES * usize::from(place);
    let end = from + PIECE_BYTES;
    if bytes.len() <= from {
        &[]
    } else if bytes.len() <= end {
        &bytes[from..]
    } else {
        &bytes[from..end]
    }
}

/// Writes the bytes of a record into the sectors of its slot, in ascending order: 4,000 bytes into each, as long as there are
/// any. The first sector is `at`. Nothing is synced. `Disk` comes exactly where the disk failed in the call.
#[tactic(auto, using(tm_disk::proofs::Words::stays_on))]
pub fn put_record<D: Disk>(
    disk: &mut D,
    at: u32,
    sectors: u8,
    bytes: &[u8],
) -> Result<(), DiskFault>
    requires area { at + sectors ≤ (D.state disk.old).size }
    ensures stays { Stays (D.state disk.old) (D.state disk.new) }
    // Whenever a crash comes, each sector is as it was or has its piece of the record.
    ensures any_moment { Within (MayPut at (pieces_from sectors 0 bytes.now)) (D.state disk.old) (D.state disk.new) }
    ensures follows { Follows (MayPut at (pieces_from sectors 0 bytes.now)) (D.state disk.old) (D.state disk.new) }
    ensures shown { OnOk result (IsTrue (D.state disk.old).tells → HasPut at (pieces_from sectors 0 bytes.now) (D.state disk.old).shown (D.state disk.new).shown) }
    // Where the disk fails, the sectors in front are written, and none behind.
    ensures ascending { OnErr result (IsTrue (D.state disk.old).tells → PutsFront at (pieces_from sectors 0 bytes.now) (D.state disk.old).shown (D.state disk.new).shown) }
    ensures writes { WritesAtMost sectors (D.state disk.old) (D.state disk.new) }
    ensures no_fault { OnOk result ((D.state disk.new).faults ≡ (D.state disk.old).faults) }
    ensures cause { OnErr result (FailedSince (D.state disk.old) (D.state disk.new)) }
{
    for place in 0..sectors {
        let sector = seal_bytes(piece_at(bytes, place));
        if disk.write(at + u32::from(place), &sector).is_err() {
            return Err(DiskFault::Disk);
        }
    }
    Ok(())
}

/// Writes the records of some slots into their sectors, of which the first belongs to slot 0. Nothing is synced.
#[tactic(auto, using(tm_disk::proofs::Words::stays_on))]
pub(crate) fn put_slots<D: Disk>(
    disk: &mut D,
    first: u32,
    sectors: u8,
    slots: &[RecordImage],
    numbers: &[u16],
) -> Result<(), DiskFault>
    requires area { first + length slots.now * sectors ≤ (D.state disk.old).size }
    requires within { AllByRecursion (λ slot. slot < length slots.now) numbers.now }
    requires fits { AllByRecursion (λ image. length (rows_spelling image) ≤ 32000) slots.now }
    ensures stays { Stays (D.state disk.old) (D.state disk.new) }
    ensures any_moment { Within (MayPut first (pieces_of sectors (bytes_of_slots slots.now numbers.now))) (D.state disk.old) (D.state disk.new) }
    ensures follows { Follows (MayPut first (pieces_of sectors (bytes_of_slots slots.now numbers.now))) (D.state disk.old) (D.state disk.new) }
    ensures shown { OnOk result (IsTrue (D.state disk.old).tells → HasPut first (pieces_of sectors (bytes_of_slots slots.now numbers.now)) (D.state disk.old).shown (D.state disk.new).shown) }
    // Where the disk fails, the sectors in front are written, and none behind.
    ensures ascending { OnErr result (IsTrue (D.state disk.old).tells → PutsFront first (pieces_of sectors (bytes_of_slots slots.now numbers.now)) (D.state disk.old).shown (D.state disk.new).shown) }
    ensures writes { WritesAtMost (length numbers.now * sectors) (D.state disk.old) (D.state disk.new) }
    ensures no_fault { OnOk result ((D.state disk.new).faults ≡ (D.state disk.old).faults) }
    ensures cause { OnErr result (FailedSince (D.state disk.old) (D.state disk.new)) }
{
    let mut spelled = RecordBytes::new();
    for number in numbers {
        spell(&mut spelled, slots[*number as usize].as_slice());
        let at = first + u32::from(*number) * u32::from(sectors);
        if put_record(disk, at, sectors, spelled.as_slice()).is_err() {
            return Err(DiskFault::Disk);
        }
    }
    Ok(())
}
