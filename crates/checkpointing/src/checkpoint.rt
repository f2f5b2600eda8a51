//! A checkpoint.
ghost use Rattle.std.specs.Prelude.{◌≡◌, ◌+◌, ◌*◌, ◌<◌, ◌≤◌, ◌^◌, [], length, IfOk, OnOk, OnErr, IsErrOf, Some, slice_get};
ghost use Rattle.tm_disk.specs.Disk.{Image, Stays, Within, Follows, Only, WritesAtMost, FailedSince};
ghost use Rattle.restart_data.specs.Restart.{IsRestart};
ghost use Rattle.restart_data.specs.Snapshot as snapshot;
ghost use Rattle.log_writer.specs.ForcedLog.{log_sectors_of, log_of_writer, IsWriterReady};
ghost use Rattle.model_system.specs.Areas.{data_first};
ghost use Rattle.seg_store.specs.WrittenSlots.{changed_sectors};
ghost use Rattle.checkpointing.specs.CheckpointParts.{checkpoint_parts_of, other_area, restart_behind, sequence_behind, next_restart, next_writer, AreAreasFree, IsOver};
ghost use Rattle.checkpointing.specs.DirtySlots.{AreStoresOf};
ghost use Rattle.checkpointing.specs.Checkpoint.{KeepsRecovery, IsCheckpointed};
ghost use Rattle.checkpointing.specs.DefinitionText.{KeepsText};
ghost use Rattle.checkpointing.specs.CheckpointSteps.{Takes};
ghost use Rattle.checkpointing.specs.CheckpointNeeds.{HasRestart, NoneIsAhead, ChangedAreNamed, ForceKeeps, SnapshotKeeps};

use crate::steps::prepare;
use log_writer::LogWriter;
use restart_data::{RestartSector, write_restart};
use seg_store::Stores;
use std::alloc::Global;
use system_types::System;
use thiserror::Error;
use tm_disk::Disk;

/// Why a checkpoint wasn't taken.
#[derive(Clone, Copy, Debug, Drop, Error, PartialEq, Eq)]
pub enum CheckFault {
    /// The disk failed in the call, and its count of faults rose. Then the log is of no use.
    #[error("the disk failed")]
    Disk,
    /// There was no memory. As a checkpoint takes none, it never answers this.
    #[error("no memory")]
    Memory,
}

/// What a checkpoint is made of.
#[derive(Clone, Copy, Debug)]
pub struct PartsView<'a> {
    pub system: &'a System,
    /// The restart sector that holds now.
    pub now: &'a RestartSector,
    /// The first sector of the snapshot area that is free, and its length.
    pub snapshot_at: u32,
    pub snapshot_sectors: u32,
    /// The first sector of the other log area, and its length.
    pub log_at: u32,
    pub log_sectors: u32,
    /// The records of the new snapshot.
    pub snapshot: &'a [u8],
}

/// Forces the log, writes all sectors of each slot that was changed, in ascending order, and syncs; writes the snapshot into
/// the free area, and syncs; writes the restart sector, which names the snapshot and the other log area, and syncs. The answer is that
/// restart sector, and the log's writer then stands at the start of that area.
#[tactic(auto, using(tm_disk::proofs::Words::stays_on))]
pub fn take<D: Disk>(
    alloc: Global,
    disk: &mut D,
    log: &mut LogWriter,
    stores: &Stores,
    parts: &PartsView,
) -> Result<RestartSector, CheckFault>
    // All areas of the system lie on the disk.
    requires areas { data_first parts.now.system.now (length parts.now.system.now.databases) ≤ (D.state disk.old).size }
    // The restart sector is the disk's, and the areas are those that it doesn't name.
    requires now { HasRestart parts.now.system.now parts.now.now.now (D.state disk.old) }
    requires free { AreAreasFree (checkpoint_parts_of parts.now) }
    // The snapshot isn't empty and fits its area.
    requires some { 0 < length parts.now.snapshot.now }
    requires fits { length parts.now.snapshot.now ≤ parts.now.snapshot_sectors * 4064 }
    // The counters of the new restart sector are in their range.
    requires next { IsRestart (next_restart (checkpoint_parts_of parts.now) log.old) }
    // The stores are those of the system, and each slot that was changed is named by a record.
    requires stores { AreStoresOf parts.now.system.now stores.now }
    requires named { ChangedAreNamed (checkpoint_parts_of parts.now) log.old stores.now (D.state disk.old) }
    // The writer is over the log area that holds, and neither area has a sector of what is to come.
    requires over { IsOver (checkpoint_parts_of parts.now) log.old }
    requires log_area { log.old.first + log.old.count ≤ (D.state disk.old).size }
    requires ready { IsWriterReady log.old (D.state disk.old) }
    requires ahead { NoneIsAhead parts.now.system.now parts.now.now.now.epoch (sequence_behind log.old) (D.state disk.old) }
    // What lasts is the same within the force, and by the new snapshot.
    requires force_keeps { ForceKeeps (checkpoint_parts_of parts.now) log.old (D.state disk.old) }
    requires snapshot_keeps { SnapshotKeeps (checkpoint_parts_of parts.now) log.old stores.now (D.state disk.old) }

    ensures stays { Stays (D.state disk.old) (D.state disk.new) }
    // Whenever a crash comes, the image recovers to what lasted before.
    ensures any_moment { Within (KeepsRecovery parts.entry.now.system.now) (D.state disk.old) (D.state disk.new) }
    // It is of the same text.
    ensures texts { Within (KeepsText parts.entry.now.system.now) (D.state disk.old) (D.state disk.new) }
    // It is the one before with a front of the steps done.
    ensures steps { Within (Takes (checkpoint_parts_of parts.entry.now) log.old stores.now) (D.state disk.old) (D.state disk.new) }
    // Then each image is that of the checkpoint, and no other is left.
    ensures answer { IfOk result (λ restart. restart ≡ next_restart (checkpoint_parts_of parts.entry.now) log.old) }
    ensures done { OnOk result (Follows (IsCheckpointed (checkpoint_parts_of parts.entry.now) log.old stores.now) (D.state disk.old) (D.state disk.new)) }
    ensures restart { IfOk result (λ restart. HasRestart parts.entry.now.system.now restart (D.state disk.new)) }
    ensures synced { OnOk result (Only (D.state disk.new).shown (D.state disk.new)) }
    // The writer begins the other log area, which has nothing of its log.
    ensures writer { OnOk result (log.new ≡ next_writer (checkpoint_parts_of parts.entry.now) log.old) }
    ensures ready { OnOk result (IsWriterReady log.new (D.state disk.new)) }
    ensures ahead { OnOk result (NoneIsAhead parts.entry.now.system.now parts.entry.now.now.now.epoch (sequence_behind log.old) (D.state disk.new)) }
    ensures empty { OnOk result ((image : Image) → (D.state disk.new).may_leave image → log_of_writer log.new image ≡ []) }

    ensures writes { WritesAtMost (log_sectors_of (length log.old.appended) + changed_sectors stores.now.stores stores.now.changed + snapshot.snapshot_sectors_of (length parts.entry.now.snapshot.now) + 1) (D.state disk.old) (D.state disk.new) }
    ensures no_fault { OnOk result ((D.state disk.new).faults ≡ (D.state disk.old).faults) }
    ensures cause { OnErr result (FailedSince (D.state disk.old) (D.state disk.new)) }
    ensures memory { IsErrOf result CheckFault.Memory → ⊥ }
{
    let _room = log.room();
    let sectors = match prepare(disk, log, stores, data_at(parts), parts) {
        Ok(sectors) => sectors,
        Err(_) => return Err(CheckFault::Disk),
    };
    let next = next_restart(parts, sectors, log.next_sequence());
    if write_restart(disk, &next).is_err() {
        return Err(CheckFault::Disk);
    }
    *log = LogWriter::new(
        alloc,
        parts.log_at,
        parts.log_sectors,
        next.sequence,
        next.epoch,
    );
    Ok(next)
}

// The restart sector behind the one that holds, for a snapshot of so many sectors and a log with this first sequence.
fn next_restart(parts: &PartsView, sectors: u32, sequence: u64) -> RestartSector
    requires checkpoint { parts.now.now.now.checkpoint + 1 < 2 ^ 64 }
    requires sectors { sectors ≡ snapshot.snapshot_sectors_of (length parts.now.snapshot.now) }
    ensures { result ≡ restart_behind (checkpoint_parts_of parts.entry.now) sequence }
{
    RestartSector {
        epoch: parts.now.epoch,
        snapshot: other_area(parts.now.snapshot),
        log: other_area(parts.now.log),
        sectors,
        sequence,
        checkpoint: parts.now.checkpoint + 1,
        text: parts.now.text,
    }
}

// The first sector of the slots, which stand behind both log areas.
fn data_at(parts: &PartsView) -> u32
    requires free { AreAreasFree (checkpoint_parts_of parts.now) }
    requires fits { data_first parts.now.system.now 0 < 2 ^ 32 }
    ensures { result ≡ data_first parts.entry.now.system.now 0 }
{
    if parts.now.log == 0 {
        parts.log_at + parts.log_sectors
    } else {
        parts.log_at + parts.log_sectors + parts.log_sectors
    }
}

// The other of two areas.
fn other_area(area: u8) -> u8
    ensures { result ≡ other_area area }
{
    if area == 0 { 1 } else { 0 }
}
