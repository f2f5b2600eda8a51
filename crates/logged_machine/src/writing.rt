//! Checkpoints.
ghost use Rattle.std.specs.Prelude.{◌≡◌, ◌+◌, List, [], ◌∷◌, ℕ, OnOk, OnErr, IfErr};
ghost use Rattle.tm_disk.specs.Disk.{Stays, Within, WritesAtMost, Only, FailedSince};
ghost use Rattle.checkpointing.specs.CheckpointParts.{next_restart, next_writer};
ghost use Rattle.checkpointing.specs.DefinitionText.{KeepsText};
ghost use Rattle.checkpointing.specs.Counts.{CountsUpTo};
ghost use Rattle.disk_law.specs.PendingMoves.{KeepsBehindForce};
ghost use Rattle.disk_law.specs.UnitCounts.{StandsUpTo};
ghost use Rattle.model_machine.specs.Machine.{LastingState};
ghost use Rattle.journal.specs.CheckpointFor.{CanCheckpoint, TakesBehindForce, parts_for};
ghost use Rattle.program_rows.specs.SlotsState.{slots_stores};
ghost use Rattle.tm_machine.specs.SlotChanges.{slots_now};
ghost use Rattle.journal.specs.CountRanges.{AreCountsInRange};
ghost use Rattle.logged_machine.specs.LoggedParts.{HasLogged, IsLogged};
ghost use Rattle.logged_machine.specs.UntakenCheckpoint.{IsSnapshot, TakesNext, Untaken, checkpoint_sectors, settled_parts};

use crate::snapshots::snapshot;
use journal::Journal;
use model_machine::ControlFault;
use std::alloc::Global;
use tm_disk::{Disk, DiskFault};
use tm_machine::Parts;

/// Takes a checkpoint, before which all is forced. The machine stands where it stood, and no slot counts as changed. Where it answers `Memory`, nothing was
/// written.
pub fn checkpoint<D: Disk>(
    alloc: Global,
    parts: &mut Parts,
    journal: &mut Journal,
    disk: &mut D,
    units: &[u64],
    next_unit: u64,
) -> Result<(), ControlFault>
    requires logged { HasLogged parts.old units.now next_unit journal.old (D.state disk.old) }
    requires counted { AreCountsInRange 0 parts.old.moment.lasting next_unit journal.old }
    ensures system { parts.new.system ≡ parts.old.system }
    ensures moment { parts.new.moment ≡ parts.old.moment }
    ensures settled { OnOk result (parts.new ≡ settled_parts parts.old) }
    ensures logged { OnOk result ((text : List ℕ) → (states : List LastingState) → IsLogged parts.old units.entry.now next_unit journal.old text states (D.state disk.old) → IsLogged parts.new units.entry.now next_unit journal.new text (parts.old.moment.lasting ∷ []) (D.state disk.new)) }
    ensures stays { Stays (D.state disk.old) (D.state disk.new) }
    ensures any_moment { Within (KeepsBehindForce parts.old.system journal.old.log) (D.state disk.old) (D.state disk.new) }
    ensures texts { Within (KeepsText parts.old.system) (D.state disk.old) (D.state disk.new) }
    // Where its own counters stand up to a bound, each image counts further by the sectors of a log area at most, and so do they.
    ensures counts { (high : ℕ) → StandsUpTo high journal.old next_unit → Within (λ before after. CountsUpTo parts.old.system (high + parts.old.system.logs) after) (D.state disk.old) (D.state disk.new) }
    ensures raised { OnOk result ((high : ℕ) → StandsUpTo high journal.old next_unit → StandsUpTo (high + parts.old.system.logs) journal.new next_unit) }
    ensures takes { OnOk result (TakesNext parts.old.system journal.old journal.new) }
    ensures synced { OnOk result (Only (D.state disk.new).shown (D.state disk.new)) }
    ensures no_fault { OnOk result ((D.state disk.new).faults ≡ (D.state disk.old).faults) }
    ensures writes { WritesAtMost (checkpoint_sectors parts.old.system parts.old.databases.stores parts.old.databases.changed journal.old) (D.state disk.old) (D.state disk.new) }
    ensures cause { IfErr result (Untaken D.state parts.old parts.new journal.old journal.new disk.old disk.new) }
{
    let _stores = parts.stores();
    let number = journal.restart().checkpoint + 1;
    let Ok(bytes) = snapshot(alloc, parts, units, next_unit, number) else {
        return Err(ControlFault::Memory);
    };
    match take(alloc, parts, journal, disk, bytes.as_slice()) {
        Ok(()) => Ok(()),
        Err(_) => Err(ControlFault::Disk),
    }
}

/// Takes it with this snapshot.
fn take<D: Disk>(
    alloc: Global,
    parts: &mut Parts,
    journal: &mut Journal,
    disk: &mut D,
    bytes: &[u8],
) -> Result<(), DiskFault>
    requires can { CanCheckpoint parts.old.system journal.old (slots_stores (slots_now parts.old)) bytes.now (D.state disk.old) }
    ensures system { parts.new.system ≡ parts.old.system }
    ensures moment { parts.new.moment ≡ parts.old.moment }
    ensures settled { OnOk result (parts.new ≡ settled_parts parts.old) }
    ensures logged { OnOk result ((text units : List ℕ) → (next : ℕ) → (states : List LastingState) → IsLogged parts.old units next journal.old text states (D.state disk.old) → AreCountsInRange 0 parts.old.moment.lasting next journal.old → IsSnapshot parts.old units next (journal.old.restart.checkpoint + 1) bytes.entry.now → IsLogged parts.new units next journal.new text (parts.old.moment.lasting ∷ []) (D.state disk.new)) }
    ensures stays { Stays (D.state disk.old) (D.state disk.new) }
    ensures any_moment { Within (KeepsBehindForce parts.old.system journal.old.log) (D.state disk.old) (D.state disk.new) }
    ensures texts { Within (KeepsText parts.old.system) (D.state disk.old) (D.state disk.new) }
    ensures steps { Within (TakesBehindForce (parts_for parts.old.system journal.old.restart bytes.entry.now) journal.old.log (slots_stores (slots_now parts.old))) (D.state disk.old) (D.state disk.new) }
    ensures restart { OnOk result (journal.new.restart ≡ next_restart (parts_for parts.old.system journal.old.restart bytes.entry.now) journal.old.log) }
    ensures log { OnOk result (journal.new.log ≡ next_writer (parts_for parts.old.system journal.old.restart bytes.entry.now) journal.old.log) }
    ensures synced { OnOk result (Only (D.state disk.new).shown (D.state disk.new)) }
    ensures no_fault { OnOk result ((D.state disk.new).faults ≡ (D.state disk.old).faults) }
    ensures writes { WritesAtMost (checkpoint_sectors parts.old.system parts.old.databases.stores parts.old.databases.changed journal.old) (D.state disk.old) (D.state disk.new) }
    ensures cause { OnErr result (FailedSince (D.state disk.old) (D.state disk.new)) }
{
    journal.checkpoint(alloc, disk, parts.system(), parts.stores(), bytes)?;
    parts.settle();
    Ok(())
}
