//! The calls.
ghost use Rattle.std.specs.Prelude.{◌≡◌, ◌+◌, ℕ, List, false, length, IfErr, IfOk, OnOk};
ghost use Rattle.tm_disk.specs.Disk.{WritesAtMost};
ghost use Rattle.model_machine.specs.History.{IsCall};
ghost use Rattle.model_machine.specs.declared.entry.ControlFault.TheVariants as faults;
ghost use Rattle.tm_machine.specs.SlotChanges.{HasSlots};
ghost use Rattle.journal.specs.CountRanges.{AreCountsInRange};
ghost use Rattle.logged_machine.specs.CarriedParts.{IsCarried};
ghost use Rattle.logged_machine.specs.LoggedParts.{HasLogged};
ghost use Rattle.disk_law.specs.Life.{LifeOnDisk};
ghost use Rattle.logged_machine.specs.UntakenCheckpoint.{IsSnapshot, Untaken, checkpoint_sectors, settled_parts};
ghost use Rattle.logged_machine.specs.ToldCalls.{DoesCall, may_change, own_records};
ghost use Rattle.logged_machine.specs.ToldCheckpoint.{HasBehindDue, CountsWithin, IsEmptyLog, KeepsOnDisk};

use crate::rooms::all_room;
use crate::telling::tell;
use crate::told_checkpoints::{write_parts, write_told};
use crate::{Acknowledgement, Call, Input, Turn, snapshot};
use journal::Journal;
use model_machine::{Command, ControlFault};
use std::alloc::Global;
use tm_disk::Disk;
use tm_machine::Parts;

/// A call before which a checkpoint may be due.
pub trait DueCall: Call {
    /// Takes a checkpoint, which forces all, and does the call behind it. The records of what lasts of it are appended, and not forced.
    fn due<D: Disk>(
        &self,
        alloc: Global,
        parts: &mut Parts,
        journal: &mut Journal,
        disk: &mut D,
        units: &[u64],
        next_unit: u64,
    ) -> Result<Self::Answer, ControlFault>
        requires call { IsCall parts.old.system (Self.call self.now) }
        requires logged { HasLogged parts.old units.now next_unit journal.old (D.state disk.old) }
        requires counted { AreCountsInRange 0 parts.old.moment.lasting next_unit journal.old }
        ensures system { parts.new.system ≡ parts.old.system }
        ensures keeps { KeepsOnDisk parts.old.system journal.old.log (D.state disk.old) (D.state disk.new) }
        ensures counts { CountsWithin parts.old.system journal.old next_unit (D.state disk.old) (D.state disk.new) }
        ensures behind { OnOk result (HasBehindDue D.state parts.old units.entry.now next_unit (own_records (settled_parts parts.old) units.entry.now (Self.call self.entry.now)) journal.old journal.new disk.old disk.new) }
        ensures does { IfOk result (λ answer. DoesCall units.entry.now (Self.entry self.entry.now answer) (settled_parts parts.old) parts.new) }
        ensures before { OnOk result (HasSlots (settled_parts parts.old)) }
        ensures slots { OnOk result (HasSlots parts.new) }
        ensures writes { WritesAtMost (checkpoint_sectors parts.old.system parts.old.databases.stores parts.old.databases.changed journal.old) (D.state disk.old) (D.state disk.new) }
        ensures cause { IfErr result (Untaken D.state parts.old parts.new journal.old journal.new disk.old disk.new) };
}

impl DueCall for Input<'_> {
    fn due<D: Disk>(
        &self,
        alloc: Global,
        parts: &mut Parts,
        journal: &mut Journal,
        disk: &mut D,
        units: &[u64],
        next_unit: u64,
    ) -> Result<Self::Answer, ControlFault> {
        still_due(alloc, parts, journal, disk, units, next_unit, self)
    }
}

impl DueCall for Acknowledgement {
    fn due<D: Disk>(
        &self,
        alloc: Global,
        parts: &mut Parts,
        journal: &mut Journal,
        disk: &mut D,
        units: &[u64],
        next_unit: u64,
    ) -> Result<Self::Answer, ControlFault> {
        still_due(alloc, parts, journal, disk, units, next_unit, self)
    }
}

impl DueCall for Command {
    fn due<D: Disk>(
        &self,
        alloc: Global,
        parts: &mut Parts,
        journal: &mut Journal,
        disk: &mut D,
        units: &[u64],
        next_unit: u64,
    ) -> Result<Self::Answer, ControlFault> {
        still_due(alloc, parts, journal, disk, units, next_unit, self)
    }
}

impl DueCall for Turn {
    // It changes the stores, so the checkpoint is written from a copy, and where there is no memory for the step the copy takes
    // their place.
    fn due<D: Disk>(
        &self,
        alloc: Global,
        parts: &mut Parts,
        journal: &mut Journal,
        disk: &mut D,
        units: &[u64],
        next_unit: u64,
    ) -> Result<Self::Answer, ControlFault> {
        let bytes = next_snapshot(alloc, parts, journal, units, next_unit)?;
        let Ok(stores) = parts.stores().copy(alloc) else {
            return Err(ControlFault::Memory);
        };
        let mut told = journal_apart(alloc, parts, journal);
        let room = all_room(&told);
        parts.settle();
        let Ok(answer) = tell(alloc, parts, &mut told, units, self, room) else {
            parts.put_stores(stores);
            return Err(ControlFault::Memory);
        };
        write_told(
            alloc,
            parts.system(),
            &stores,
            journal,
            disk,
            bytes.as_slice(),
            &mut told,
        )?;
        Ok(answer)
    }
}

/// The same for a call that leaves the databases as they are.
fn still_due<C: Call, D: Disk>(
    alloc: Global,
    parts: &mut Parts,
    journal: &mut Journal,
    disk: &mut D,
    units: &[u64],
    next_unit: u64,
    call: &C,
) -> Result<C::Answer, ControlFault>
    requires call { IsCall parts.old.system (C.call call.now) }
    requires still { may_change (C.call call.now) ≡ false }
    requires logged { HasLogged parts.old units.now next_unit journal.old (D.state disk.old) }
    requires counted { AreCountsInRange 0 parts.old.moment.lasting next_unit journal.old }
    ensures system { parts.new.system ≡ parts.old.system }
    ensures keeps { KeepsOnDisk parts.old.system journal.old.log (D.state disk.old) (D.state disk.new) }
    ensures counts { CountsWithin parts.old.system journal.old next_unit (D.state disk.old) (D.state disk.new) }
    ensures behind { OnOk result (HasBehindDue D.state parts.old units.entry.now next_unit (own_records (settled_parts parts.old) units.entry.now (C.call call.entry.now)) journal.old journal.new disk.old disk.new) }
    ensures does { IfOk result (λ answer. DoesCall units.entry.now (C.entry call.entry.now answer) (settled_parts parts.old) parts.new) }
    ensures before { OnOk result (HasSlots (settled_parts parts.old)) }
    ensures slots { OnOk result (HasSlots parts.new) }
    ensures writes { WritesAtMost (checkpoint_sectors parts.old.system parts.old.databases.stores parts.old.databases.changed journal.old) (D.state disk.old) (D.state disk.new) }
    ensures cause { IfErr result (Untaken D.state parts.old parts.new journal.old journal.new disk.old disk.new) }
{
    let bytes = next_snapshot(alloc, parts, journal, units, next_unit)?;
    let mut told = journal_apart(alloc, parts, journal);
    let room = all_room(&told);
    let Ok(answer) = tell(alloc, parts, &mut told, units, call, room) else {
        return Err(ControlFault::Memory);
    };
    write_parts(alloc, parts, journal, disk, bytes.as_slice(), &mut told)?;
    Ok(answer)
}

/// The bytes of the next checkpoint's snapshot.
fn next_snapshot(
    alloc: Global,
    parts: &Parts,
    journal: &Journal,
    units: &[u64],
    next_unit: u64,
) -> Result<Vec<u8>, ControlFault>
    requires carried { (life : LifeOnDisk) × IsCarried parts.now units.now next_unit life }
    requires numbered { length units.now ≡ length parts.now.system.regions }
    requires counted { AreCountsInRange 0 parts.now.moment.lasting next_unit journal.now }
    ensures snapshot { IfOk result (λ bytes. IsSnapshot parts.entry.now units.entry.now next_unit (journal.entry.now.restart.checkpoint + 1) bytes.items) }
    ensures memory { IfErr result (λ fault. fault ≡ faults.Memory) }
    ensures slots { HasSlots parts.now }
{
    let _slots = parts.stores();
    let next = journal.restart().checkpoint + 1;
    match snapshot(alloc, parts, units, next_unit, next) {
        Ok(bytes) => Ok(bytes),
        Err(_) => Err(ControlFault::Memory),
    }
}

/// A journal of its own for the records of a call, with as much room as the log's area has.
fn journal_apart(alloc: Global, parts: &Parts, journal: &Journal) -> Journal
    ensures { IsEmptyLog parts.now.system.logs result.log }
{
    Journal::begin(alloc, 0, parts.system().logs(), journal.restart())
}
