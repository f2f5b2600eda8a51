//! Checkpoints with what was told behind them.
ghost use Rattle.std.specs.Prelude.{◌≡◌, ◌≤◌, length, IfErr, OnOk, OnErr};
ghost use Rattle.tm_disk.specs.Disk.{FailedSince, Within, WritesAtMost};
ghost use Rattle.log_writer.specs.ForcedLog.{log_sectors_of};
ghost use Rattle.model_machine.specs.declared.entry.ControlFault.TheVariants as faults;
ghost use Rattle.journal.specs.CheckpointFor.{CanCheckpoint, TakesBehindForce, parts_for};
ghost use Rattle.program_rows.specs.SlotsState.{slots_stores};
ghost use Rattle.tm_machine.specs.SlotChanges.{HasSlots, slots_now};
ghost use Rattle.logged_machine.specs.UntakenCheckpoint.{checkpoint_sectors, settled_parts};
ghost use Rattle.logged_machine.specs.ToldCheckpoint.{KeepsOnDisk, WroteTold};

use journal::Journal;
use model_machine::ControlFault;
use seg_store::Stores;
use std::alloc::Global;
use system_types::System;
use tm_disk::Disk;
use tm_machine::Parts;

/// Writes the checkpoint of these stores with this snapshot. What was told is appended behind it.
pub fn write_told<D: Disk>(
    alloc: Global,
    system: &System,
    stores: &Stores,
    journal: &mut Journal,
    disk: &mut D,
    bytes: &[u8],
    told: &mut Journal,
) -> Result<(), ControlFault>
    requires can { CanCheckpoint system.now journal.old stores.now bytes.now (D.state disk.old) }
    requires place { told.old.log.place ≡ 0 }
    requires fits { log_sectors_of (length told.old.log.appended) ≤ system.now.logs }
    ensures keeps { KeepsOnDisk system.entry.now journal.old.log (D.state disk.old) (D.state disk.new) }
    ensures steps { Within (TakesBehindForce (parts_for system.entry.now journal.old.restart bytes.entry.now) journal.old.log stores.now) (D.state disk.old) (D.state disk.new) }
    ensures done { OnOk result (WroteTold system.entry.now stores.now bytes.entry.now told.old.log.appended journal.old journal.new (D.state disk.old) (D.state disk.new)) }
    ensures writes { WritesAtMost (checkpoint_sectors system.entry.now stores.now.stores stores.now.changed journal.old) (D.state disk.old) (D.state disk.new) }
    ensures fault { IfErr result (λ fault. fault ≡ faults.Disk) }
    ensures cause { OnErr result (FailedSince (D.state disk.old) (D.state disk.new)) }
{
    let Ok(()) = journal.checkpoint(alloc, disk, system, stores, bytes) else {
        return Err(ControlFault::Disk);
    };
    let mut records = Vec::new(alloc);
    told.exchange(&mut records);
    journal.exchange(&mut records);
    Ok(())
}

/// So for parts whose databases are as they were before the call. No slot counts as changed then.
pub fn write_parts<D: Disk>(
    alloc: Global,
    parts: &mut Parts,
    journal: &mut Journal,
    disk: &mut D,
    bytes: &[u8],
    told: &mut Journal,
) -> Result<(), ControlFault>
    requires can { CanCheckpoint parts.old.system journal.old (slots_stores (slots_now parts.old)) bytes.now (D.state disk.old) }
    requires place { told.old.log.place ≡ 0 }
    requires fits { log_sectors_of (length told.old.log.appended) ≤ parts.old.system.logs }
    ensures system { parts.new.system ≡ parts.old.system }
    ensures keeps { KeepsOnDisk parts.old.system journal.old.log (D.state disk.old) (D.state disk.new) }
    ensures settled { OnOk result (parts.new ≡ settled_parts parts.old) }
    ensures steps { Within (TakesBehindForce (parts_for parts.old.system journal.old.restart bytes.entry.now) journal.old.log (slots_stores (slots_now parts.old))) (D.state disk.old) (D.state disk.new) }
    ensures done { OnOk result (WroteTold parts.old.system (slots_stores (slots_now parts.old)) bytes.entry.now told.old.log.appended journal.old journal.new (D.state disk.old) (D.state disk.new)) }
    ensures writes { WritesAtMost (checkpoint_sectors parts.old.system parts.old.databases.stores parts.old.databases.changed journal.old) (D.state disk.old) (D.state disk.new) }
    ensures slots { OnOk result (HasSlots parts.new) }
    ensures fault { IfErr result (λ fault. fault ≡ faults.Disk) }
    ensures cause { OnErr result (FailedSince (D.state disk.old) (D.state disk.new)) }
{
    write_told(
        alloc,
        parts.system(),
        parts.stores(),
        journal,
        disk,
        bytes,
        told,
    )?;
    parts.settle();
    let _slots = parts.stores();
    Ok(())
}
