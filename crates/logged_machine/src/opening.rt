//! How a machine with its log is opened.
ghost use Rattle.std.specs.Prelude.{◌≡◌, ◌≤◌, [], ◌∷◌, length, IfOk, IfErr, OnErr, Err};
ghost use Rattle.tm_disk.specs.Disk.{Stays, Within, Only};
ghost use Rattle.model_machine.specs.Machine.{empty_state, start_of};
ghost use Rattle.checkpointing.specs.Counts.{RaisesCounts};
ghost use Rattle.openings.specs.OpenedImage.{OpeningCause};
ghost use Rattle.journal.proofs.Openings.{no_units};
ghost use Rattle.logged_machine.specs.LoggedParts.{IsLogged};
ghost use Rattle.logged_machine.specs.MachineOpening.{OpensOn};
ghost use Rattle.openings.specs.LifeBeginning.{KeepsBy, Refuses};

use crate::beginning::begin;
use crate::looking::look;
use journal::Journal;
use model_machine::Lasting;
use openings::{How, OpenError};
use std::alloc::Global;
use tm_disk::Disk;
use tm_machine::Parts;

/// Opens the machine of these parts, which are new, with what the disk has, or cold. It answers the journal, the number of the
/// next unit, and what lasts. A refusal leaves the parts as they were.
pub fn open<D: Disk>(
    alloc: Global,
    disk: &mut D,
    parts: &mut Parts,
    text: &[u8],
    how: How,
) -> Result<(Journal, u64, Lasting), OpenError>
    requires fresh { parts.old.moment ≡ start_of parts.old.system (empty_state parts.old.system) }
    requires text { length text.now ≤ 262144 }
    requires only { Only (D.state disk.old).shown (D.state disk.old) }
    ensures system { parts.new.system ≡ parts.old.system }
    ensures kept { OnErr result (parts.new ≡ parts.old) }
    ensures opens { IfOk result (λ opened. OpensOn how parts.old.system text.entry.now (D.state disk.old) (D.state disk.new) parts.new opened.0 opened.1 opened.2) }
    ensures logged { IfOk result (λ opened. IsLogged parts.new (no_units (length parts.old.system.regions)) opened.1 opened.0 text.entry.now (opened.2 ∷ []) (D.state disk.new)) }
    ensures refuses { IfErr result (λ error. Refuses how parts.old.system text.entry.now (D.state disk.old) error) }
    ensures cause { IfErr result (λ error. OpeningCause (Err error) (D.state disk.old) (D.state disk.new)) }
    ensures stays { Stays (D.state disk.old) (D.state disk.new) }
    ensures any_moment { Within (KeepsBy how parts.old.system text.entry.now) (D.state disk.old) (D.state disk.new) }
    // Where no counter is above a bound, none of what a crash leaves is more than one above it.
    ensures counts { Within (RaisesCounts 1 parts.old.system) (D.state disk.old) (D.state disk.new) }
{
    match look(alloc, disk, parts.system(), text, how) {
        Ok((opening, lasting)) => {
            let (journal, next_unit) = begin(alloc, parts, opening);
            Ok((journal, next_unit, lasting))
        }
        Err(error) => Err(error),
    }
}
