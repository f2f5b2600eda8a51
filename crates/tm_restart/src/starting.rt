//! Cold starts.
ghost use Rattle.std.specs.Prelude.{◌≤◌, length, IfOk, OnOk};
ghost use Rattle.tm_disk.specs.Disk.{Image, Stays, Within, Only};
ghost use Rattle.model_image.specs.HeldStores.{HoldsStores};
ghost use Rattle.model_system.specs.Areas.{sectors_needed};
ghost use Rattle.checkpointing.specs.Counts.{RaisesCounts};
ghost use Rattle.openings.specs.KeptImage.{KeepsOrEmpties};
ghost use Rattle.openings.specs.MadeParts.{IsFirstMade};
ghost use Rattle.openings.specs.OpeningParts.{AreOpeningParts};
ghost use Rattle.openings.specs.Renewal.{IsRenewed};
ghost use Rattle.openings.specs.OpenedImage.{SizeFirst, TellsCold, MayBegin, OpeningCause};

use image_loading::sectors_needed;
use model_machine::Lasting;
use openings::{Made, OpenError, Parts, make, write_image};
use restart_data::RestartSector;
use std::alloc::Global;
use system_types::System;
use tm_disk::Disk;

// Lays the first image on a disk that is large enough, with the bytes of the first snapshot and the first restart sector,
// and answers what was made before.
fn lay<D: Disk>(
    disk: &mut D,
    system: &System,
    text: &[u8],
    bytes: &[u8],
    now: &RestartSector,
    parts: Parts,
    lasting: Lasting,
) -> Result<(Parts, Lasting), OpenError>
    requires text { length text.now ≤ 262144 }
    requires size { sectors_needed system.now ≤ (D.state disk.old).size }
    requires made { IsFirstMade system.now (length text.now) parts lasting bytes.now now.now }
    ensures size { SizeFirst system.now (D.state disk.old).size result }
    ensures value { TellsCold system.now result }
    ensures parts { IfOk result (λ opened. AreOpeningParts system.now opened.1 opened.0) }
    ensures begins { IfOk result (λ opened. MayBegin system.now text.now opened.0 opened.1) }
    ensures stays { Stays (D.state disk.old) (D.state disk.new) }
    ensures any_moment { Within (KeepsOrEmpties system.now text.now) (D.state disk.old) (D.state disk.new) }
    ensures counts { Within (RaisesCounts 1 system.now) (D.state disk.old) (D.state disk.new) }
    ensures done { IfOk result (λ opened. (image : Image) → (D.state disk.new).may_leave image → IsRenewed system.now text.now opened.0.now opened.0.next_unit opened.1 image) }
    ensures stored { IfOk result (λ opened. (image : Image) → (D.state disk.new).may_leave image → HoldsStores system.now opened.0.stores.stores image) }
    ensures synced { OnOk result (Only (D.state disk.new).shown (D.state disk.new)) }
    ensures cause { OpeningCause result (D.state disk.old) (D.state disk.new) }
{
    if write_image(disk, system, text, bytes, now).is_err() {
        return Err(OpenError::Disk);
    }
    Ok((parts, lasting))
}

// The same, from nothing.
fn begin<D: Disk>(
    alloc: Global,
    disk: &mut D,
    system: &System,
    text: &[u8],
) -> Result<(Parts, Lasting), OpenError>
    requires text { length text.now ≤ 262144 }
    requires size { sectors_needed system.now ≤ (D.state disk.old).size }
    ensures size { SizeFirst system.now (D.state disk.old).size result }
    ensures value { TellsCold system.now result }
    ensures parts { IfOk result (λ opened. AreOpeningParts system.now opened.1 opened.0) }
    ensures begins { IfOk result (λ opened. MayBegin system.now text.now opened.0 opened.1) }
    ensures stays { Stays (D.state disk.old) (D.state disk.new) }
    ensures any_moment { Within (KeepsOrEmpties system.now text.now) (D.state disk.old) (D.state disk.new) }
    ensures counts { Within (RaisesCounts 1 system.now) (D.state disk.old) (D.state disk.new) }
    ensures done { IfOk result (λ opened. (image : Image) → (D.state disk.new).may_leave image → IsRenewed system.now text.now opened.0.now opened.0.next_unit opened.1 image) }
    ensures stored { IfOk result (λ opened. (image : Image) → (D.state disk.new).may_leave image → HoldsStores system.now opened.0.stores.stores image) }
    ensures synced { OnOk result (Only (D.state disk.new).shown (D.state disk.new)) }
    ensures cause { OpeningCause result (D.state disk.old) (D.state disk.new) }
{
    let made = match make(alloc, system, text.len() as u32) {
        Ok(made) => made,
        Err(_) => return Err(OpenError::Memory),
    };
    let Made {
        parts,
        lasting,
        bytes,
        now,
    } = made;
    lay(disk, system, text, &bytes, &now, parts, lasting)
}

/// Begins an empty machine on the disk, whatever stands there: it zeroes the restart sector, and then writes the text, the
/// zeros of the log areas and of the data, the first snapshot, and the first restart sector. The size is looked at first.
/// `TooSmall` and `Memory` come before any write; `Disk` comes exactly where the disk failed in the call.
pub fn cold<D: Disk>(
    alloc: Global,
    disk: &mut D,
    system: &System,
    text: &[u8],
) -> Result<(Parts, Lasting), OpenError>
    requires text { length text.now ≤ 262144 }
    requires only { Only (D.state disk.old).shown (D.state disk.old) }
    ensures size { SizeFirst system.now (D.state disk.old).size result }
    ensures value { TellsCold system.now result }
    ensures parts { IfOk result (λ opened. AreOpeningParts system.now opened.1 opened.0) }
    ensures begins { IfOk result (λ opened. MayBegin system.now text.now opened.0 opened.1) }
    ensures stays { Stays (D.state disk.old) (D.state disk.new) }
    // Whenever a crash comes, it leaves the image before, or one of this text that recovers to the empty state.
    ensures any_moment { Within (KeepsOrEmpties system.now text.now) (D.state disk.old) (D.state disk.new) }
    // Where no counter is above a bound, none is more than one above it then.
    ensures counts { Within (RaisesCounts 1 system.now) (D.state disk.old) (D.state disk.new) }
    // Then each image recovers to the empty state, with the restart sector that is answered and an empty log.
    ensures done { IfOk result (λ opened. (image : Image) → (D.state disk.new).may_leave image → IsRenewed system.now text.now opened.0.now opened.0.next_unit opened.1 image) }
    // The databases that are answered stand in their sectors, slot by slot.
    ensures stored { IfOk result (λ opened. (image : Image) → (D.state disk.new).may_leave image → HoldsStores system.now opened.0.stores.stores image) }
    ensures synced { OnOk result (Only (D.state disk.new).shown (D.state disk.new)) }
    ensures cause { OpeningCause result (D.state disk.old) (D.state disk.new) }
{
    let needed = sectors_needed(system);
    let has = disk.sectors();
    if has < needed {
        return Err(OpenError::TooSmall(needed, has));
    }
    begin(alloc, disk, system, text)
}
