//! What a life begins with.
ghost use Rattle.std.specs.Prelude.{◌≡◌, ◌≤◌, length, IfOk, IsTrue};
ghost use Rattle.tm_disk.specs.Disk.{Stays, Within, Only};
ghost use Rattle.checkpointing.specs.Counts.{RaisesCounts};
ghost use Rattle.openings.specs.OpenedImage.{OpeningCause, SizeFirst, TellsCold, TellsOpening};
ghost use Rattle.openings.specs.declared.how.How.TheVariants.{Found, Cold};
ghost use Rattle.logged_machine.specs.MachineOpening.{BeginsOn};
ghost use Rattle.openings.specs.LifeBeginning.{KeepsBy};

use model_machine::Lasting;
use openings::{How, OpenError, Parts};
use std::alloc::Global;
use system_types::System;
use tm_disk::Disk;
use tm_restart::{cold, recover};

/// Recovers what the disk has, or begins it cold.
pub(crate) fn look<D: Disk>(
    alloc: Global,
    disk: &mut D,
    system: &System,
    text: &[u8],
    how: How,
) -> Result<(Parts, Lasting), OpenError>
    requires text { length text.now ≤ 262144 }
    requires only { Only (D.state disk.old).shown (D.state disk.old) }
    ensures size { SizeFirst system.now (D.state disk.old).size result }
    ensures found { how ≡ Found → IsTrue (D.state disk.old).tells → TellsOpening system.now text.now (D.state disk.old).shown result }
    ensures cold { how ≡ Cold → TellsCold system.now result }
    ensures begins { IfOk result (λ opened. BeginsOn system.now text.now opened.0 opened.1 (D.state disk.new)) }
    ensures stays { Stays (D.state disk.old) (D.state disk.new) }
    ensures any_moment { Within (KeepsBy how system.now text.now) (D.state disk.old) (D.state disk.new) }
    ensures counts { Within (RaisesCounts 1 system.now) (D.state disk.old) (D.state disk.new) }
    ensures cause { OpeningCause result (D.state disk.old) (D.state disk.new) }
{
    match how {
        How::Found => recover(alloc, disk, system, text),
        How::Cold => cold(alloc, disk, system, text),
    }
}
