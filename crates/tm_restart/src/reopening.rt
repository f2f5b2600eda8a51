//! An image that was found is opened.
ghost use Rattle.std.specs.Prelude.{◌≤◌, length, IsTrue, IfOk, OnOk};
ghost use Rattle.tm_disk.specs.Disk.{Image, Stays, Within, Only};
ghost use Rattle.model_image.specs.HeldStores.{HoldsStores};
ghost use Rattle.model_system.specs.Areas.{sectors_needed};
ghost use Rattle.openings.specs.OpeningParts.{AreOpeningParts};
ghost use Rattle.checkpointing.specs.Counts.{RaisesCounts};
ghost use Rattle.openings.specs.KeptImage.{KeepsImage};
ghost use Rattle.openings.specs.Renewal.{IsRenewed};
ghost use Rattle.openings.specs.OpenedImage.{SizeFirst, TellsOpening, MayBegin, OpeningCause};
ghost use Rattle.tm_restart.specs.FoundImage.{IsFoundJudged, IsSeen};
ghost use Rattle.tm_restart.specs.PreparedLife.{IsPrepared, IsMadeOf};

use crate::Found;
use crate::preparing::{Prepared, prepare};
use crate::renewing::renew;
use image_loading::Slots;
use model_machine::Lasting;
use openings::{OpenError, Parts};
use restart_data::RestartSector;
use std::alloc::Global;
use system_types::System;
use tm_disk::Disk;

// Writes what was made of the image, and answers the parts and what lasts.
fn lay<D: Disk>(
    disk: &mut D,
    system: &System,
    text: &[u8],
    given: &[Slots],
    bytes: &[u8],
    now: &RestartSector,
    parts: Parts,
    lasting: Lasting,
) -> Result<(Parts, Lasting), OpenError>
    requires size { sectors_needed system.now ≤ (D.state disk.old).size }
    requires only { Only (D.state disk.old).shown (D.state disk.old) }
    requires prepared { IsPrepared system.now text.now given.now parts lasting bytes.now now.now }
    requires made_of { IsTrue (D.state disk.old).tells → IsMadeOf system.now text.now given.now parts lasting now.now (D.state disk.old).shown }
    ensures size { SizeFirst system.now (D.state disk.old).size result }
    ensures value { IsTrue (D.state disk.old).tells → TellsOpening system.now text.now (D.state disk.old).shown result }
    ensures parts { IfOk result (λ opened. AreOpeningParts system.now opened.1 opened.0) }
    ensures begins { IfOk result (λ opened. MayBegin system.now text.now opened.0 opened.1) }
    ensures stays { Stays (D.state disk.old) (D.state disk.new) }
    ensures any_moment { Within (KeepsImage system.now text.now) (D.state disk.old) (D.state disk.new) }
    ensures counts { Within (RaisesCounts 1 system.now) (D.state disk.old) (D.state disk.new) }
    ensures done { IfOk result (λ opened. (image : Image) → (D.state disk.new).may_leave image → IsRenewed system.now text.now opened.0.now opened.0.next_unit opened.1 image) }
    ensures stored { IfOk result (λ opened. (image : Image) → (D.state disk.new).may_leave image → HoldsStores system.now opened.0.stores.stores image) }
    ensures synced { OnOk result (Only (D.state disk.new).shown (D.state disk.new)) }
    ensures cause { OpeningCause result (D.state disk.old) (D.state disk.new) }
{
    match renew(disk, system, given, bytes, now) {
        Ok(()) => Ok((parts, lasting)),
        Err(_) => Err(OpenError::Disk),
    }
}

/// Opens an image that was found: it writes the slots that records name, the snapshot of what lasts into the free area, and the
/// restart sector of the next life. `Memory` comes before any write; `Disk` comes exactly where the disk failed in the call.
pub(crate) fn reopen<D: Disk>(
    alloc: Global,
    disk: &mut D,
    system: &System,
    text: &[u8],
    found: Found,
) -> Result<(Parts, Lasting), OpenError>
    requires text { length text.now ≤ 262144 }
    requires size { sectors_needed system.now ≤ (D.state disk.old).size }
    requires only { Only (D.state disk.old).shown (D.state disk.old) }
    requires judged { IsFoundJudged system.now text.now found }
    requires seen { IsTrue (D.state disk.old).tells → IsSeen system.now text.now (D.state disk.old).shown found }
    ensures size { SizeFirst system.now (D.state disk.old).size result }
    ensures value { IsTrue (D.state disk.old).tells → TellsOpening system.now text.now (D.state disk.old).shown result }
    ensures parts { IfOk result (λ opened. AreOpeningParts system.now opened.1 opened.0) }
    ensures begins { IfOk result (λ opened. MayBegin system.now text.now opened.0 opened.1) }
    ensures stays { Stays (D.state disk.old) (D.state disk.new) }
    ensures any_moment { Within (KeepsImage system.now text.now) (D.state disk.old) (D.state disk.new) }
    ensures counts { Within (RaisesCounts 1 system.now) (D.state disk.old) (D.state disk.new) }
    ensures done { IfOk result (λ opened. (image : Image) → (D.state disk.new).may_leave image → IsRenewed system.now text.now opened.0.now opened.0.next_unit opened.1 image) }
    ensures stored { IfOk result (λ opened. (image : Image) → (D.state disk.new).may_leave image → HoldsStores system.now opened.0.stores.stores image) }
    ensures synced { OnOk result (Only (D.state disk.new).shown (D.state disk.new)) }
    ensures cause { OpeningCause result (D.state disk.old) (D.state disk.new) }
{
    let made = match prepare(alloc, system, text, found) {
        Ok(made) => made,
        Err(_) => return Err(OpenError::Memory),
    };
    let Prepared {
        parts,
        lasting,
        given,
        bytes,
        now,
    } = made;
    lay(disk, system, text, &given, &bytes, &now, parts, lasting)
}
