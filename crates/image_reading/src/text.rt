//! The text of the definition.
ghost use Rattle.std.specs.Prelude.{◌≡◌, ◌+◌, ◌-◌, ◌≤◌, None, length, drop, min, take, IsTrue, IfOk, IfSome, OnOk, OnErr};
ghost use Rattle.std.specs.Option.{option_map};
ghost use Rattle.tm_disk.specs.Disk.{Keeps, FailedSince};
ghost use Rattle.model_image.specs.Text as texts;

use tm_disk::{Disk, DiskFault, Sector};

// The first place where two texts differ; a shorter text differs at its end.
fn first_difference(text: &[u8], other: &[u8]) -> Option<usize>
    ensures value { result ≡ texts.first_difference text.now other.now }
    ensures within { IfSome result (λ place. place ≤ length other.now) }
{
    let both = text.len().min(other.len());
    for place in 0..both {
        if text[place] != other[place] {
            return Some(place);
        }
    }
    if text.len() == other.len() {
        return None;
    }
    Some(both)
}

// The first place of a text that differs from a definition of this size in one sector, which has it from `start` on.
fn difference_in(text: &[u8], start: u32, size: u32, sector: &Sector) -> Option<usize>
    requires reaches { start ≤ length text.now }
    requires within { start ≤ size }
    ensures value { result ≡ option_map (λ k. start + k) (texts.first_difference (take (min (size - start) 4096) (drop start text.now)) (take (min (size - start) 4096) sector.now)) }
    ensures size { length sector.now ≡ 4096 }
{
    let rest = &text[start as usize..];
    let piece = &sector.bytes()[..(size - start).min(4096) as usize];
    match first_difference(&rest[..piece.len().min(rest.len())], piece) {
        Some(place) => Some(start as usize + place),
        None => None,
    }
}

/// The first place where this text differs from the definition of `size` bytes on the disk. Only the sectors of those bytes
/// are read, and none behind that place.
pub fn text_difference<D: Disk>(
    disk: &mut D,
    text: &[u8],
    size: u32,
) -> Result<Option<usize>, DiskFault>
    requires within { 65 ≤ (D.state disk.old).size }
    requires short { size ≤ 262144 }
    ensures value { IfOk result (λ place. IsTrue (D.state disk.old).tells → place ≡ texts.first_difference text.now (texts.text_in (D.state disk.old).shown size)) }
    ensures length { IfOk result (λ place. place ≡ None → length text.now ≡ size) }
    ensures keeps { Keeps (D.state disk.old) (D.state disk.new) }
    ensures no_fault { OnOk result ((D.state disk.new).faults ≡ (D.state disk.old).faults) }
    ensures cause { OnErr result (FailedSince (D.state disk.old) (D.state disk.new)) }
{
    let mut sector = Sector::blank();
    let mut at = 1;
    let mut same = 0;
    while same < size {
        if disk.read(at, &mut sector).is_err() {
            return Err(DiskFault::Disk);
        }
        let found = difference_in(text, same, size, &sector);
        if found.is_some() {
            return Ok(found);
        }
        same += (size - same).min(4096);
        at += 1;
    }
    if text.len() > same as usize {
        return Ok(Some(same as usize));
    }
    Ok(None)
}
