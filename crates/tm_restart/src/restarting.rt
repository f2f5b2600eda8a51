//! Restarts.
ghost use Rattle.std.specs.Prelude.{◌≤◌, length, IsTrue, IfOk, OnOk};
ghost use Rattle.tm_disk.specs.Disk.{Image, Stays, Within, Only};
ghost use Rattle.model_image.specs.HeldStores.{HoldsStores};
ghost use Rattle.openings.specs.OpeningParts.{AreOpeningParts};
ghost use Rattle.checkpointing.specs.Counts.{RaisesCounts};
ghost use Rattle.openings.specs.KeptImage.{KeepsImage};
ghost use Rattle.openings.specs.Renewal.{IsRenewed};
ghost use Rattle.openings.specs.OpenedImage.{SizeFirst, TellsOpening, MayBegin, OpeningCause};

use crate::finding::find;
use crate::reopening::reopen;
use crate::starting::cold;
use image_loading::sectors_needed;
use model_machine::Lasting;
use openings::{OpenError, Parts};
use std::alloc::Global;
use system_types::System;
use tm_disk::Disk;

/// Recovers what lasts from the disk. What is looked at is, in this order, the size, the restart sector, the text, the rest
/// of the image, and the counters; a refusal has written nothing. Then the slots that a record names are written, the
/// snapshot of what lasts into the free area, and the restart sector of the next life. An image whose restart sector is
/// all zeros is begun cold. `Disk` comes exactly where the disk failed in the call.
pub fn recover<D: Disk>(
    alloc: Global,
    disk: &mut D,
    system: &System,
    text: &[u8],
) -> Result<(Parts, Lasting), OpenError>
    requires text { length text.now ≤ 262144 }
    requires only { Only (D.state disk.old).shown (D.state disk.old) }
    ensures size { SizeFirst system.now (D.state disk.old).size result }
    // The state is what the disk recovers to, and each refusal has its cause there.
    ensures value { IsTrue (D.state disk.old).tells → TellsOpening system.now text.now (D.state disk.old).shown result }
    ensures parts { IfOk result (λ opened. AreOpeningParts system.now opened.1 opened.0) }
    ensures begins { IfOk result (λ opened. MayBegin system.now text.now opened.0 opened.1) }
    ensures stays { Stays (D.state disk.old) (D.state disk.new) }
    // Whenever a crash comes, what it leaves recovers as before, and is the image before or one of this text.
    ensures any_moment { Within (KeepsImage system.now text.now) (D.state disk.old) (D.state disk.new) }
    // Where no counter is above a bound, none is more than one above it then.
    ensures counts { Within (RaisesCounts 1 system.now) (D.state disk.old) (D.state disk.new) }
    // Then each image recovers to the state that is answered, with that restart sector and an empty log.
    ensures done { IfOk result (λ opened. (image : Image) → (D.state disk.new).may_leave image → IsRenewed system.now text.now opened.0.now opened.0.next_unit opened.1 image) }
    // The databases that are answered stand in their sectors, slot by slot.
    ensures stored { IfOk result (λ opened. (image : Image) → (D.state disk.new).may_leave image → HoldsStores system.now opened.0.stores.stores image) }
    ensures synced { OnOk result (Only (D.state disk.new).shown (D.state disk.new)) }
    ensures cause { OpeningCause result (D.state disk.old) (D.state disk.new) }
{
    let needed = sectors_needed(system);
    let has = disk.sectors();
    if has < needed {
        return Err(OpenError::TooSmall(needed, has));
    }
    match find(alloc, disk, system, text) {
        Ok(None) => cold(alloc, disk, system, text),
        Ok(Some(found)) => reopen(alloc, disk, system, text, found),
        Err(error) => Err(error),
    }
}
