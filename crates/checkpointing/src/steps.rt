//! The parts of a checkpoint, each with the sync that makes it last.
ghost use Rattle.std.specs.Prelude.{◌≡◌, ◌+◌, ◌*◌, ◌<◌, ◌≤◌, ◌^◌, length, IsTrue, IfOk, OnOk, OnErr};
ghost use Rattle.std.specs.List.{AllByRecursion};
ghost use Rattle.tm_disk.specs.Disk.{Stays, Within, Follows, Only, WritesAtMost, FailedSince, ChangesOnly};
ghost use Rattle.restart_data.specs.Snapshot as snapshot;
ghost use Rattle.restart_data.specs.WrittenSectors.{Saves};
ghost use Rattle.log_writer.specs.ForcedLog.{log_sectors_of, IsWriterReady};
ghost use Rattle.seg_store.specs.DataSectors.{MayPut, HasPut, PutsFront};
ghost use Rattle.seg_store.specs.WrittenSlots.{sector_count, changed_sectors, changed_bytes};
ghost use Rattle.model_system.specs.Areas.{data_first};
ghost use Rattle.checkpointing.specs.CheckpointParts.{checkpoint_parts_of, forced_writer};
ghost use Rattle.checkpointing.specs.DirtySlots.{AreStoresOf};
ghost use Rattle.checkpointing.specs.CheckpointSteps.{WritesSnapshot, Prepares};

use crate::PartsView;
use log_writer::LogWriter;
use restart_data::write_snapshot;
use seg_store::Stores;
use tm_disk::{Disk, DiskFault};

// Writes the slots that were changed, where the sectors of all slots stand from the sector `first` on.
#[tactic(auto, using(tm_disk::proofs::Words::stays_on))]
fn write_slots<D: Disk>(disk: &mut D, stores: &Stores, first: u32) -> Result<(), DiskFault>
    requires area { first + sector_count stores.now.stores ≤ (D.state disk.old).size }
    requires few_sectors { AllByRecursion (λ s. s.dbd.sectors ≤ 8) stores.now.stores }
    ensures stays { Stays (D.state disk.old) (D.state disk.new) }
    ensures any_moment { Within (MayPut first (changed_bytes stores.now)) (D.state disk.old) (D.state disk.new) }
    ensures done { OnOk result (Follows (HasPut first (changed_bytes stores.now)) (D.state disk.old) (D.state disk.new)) }
    // Where the disk fails, the slots in front are written, and none behind: so they are written in ascending order.
    ensures ascending { OnErr result (IsTrue (D.state disk.old).tells → PutsFront first (changed_bytes stores.now) (D.state disk.old).shown (D.state disk.new).shown) }
    ensures writes { WritesAtMost (changed_sectors stores.now.stores stores.now.changed) (D.state disk.old) (D.state disk.new) }
    ensures no_fault { OnOk result ((D.state disk.new).faults ≡ (D.state disk.old).faults) }
    ensures cause { OnErr result (FailedSince (D.state disk.old) (D.state disk.new)) }
{
    stores.write_changed(disk, first)?;
    disk.sync()?;
    Ok(())
}

/// Writes bytes as the snapshot of a checkpoint into the area of `count` sectors that begins at `first`, and syncs. The
/// answer is how many sectors they take. `Disk` comes exactly where the disk failed in the call.
#[tactic(auto, using(tm_disk::proofs::Words::stays_on))]
pub fn save_snapshot<D: Disk>(
    disk: &mut D,
    first: u32,
    count: u32,
    number: u64,
    bytes: &[u8],
) -> Result<u32, DiskFault>
    requires within { first + count ≤ (D.state disk.old).size }
    requires some { 0 < length bytes.now }
    requires fits { length bytes.now ≤ count * 4064 }
    ensures stays { Stays (D.state disk.old) (D.state disk.new) }
    ensures any_moment { Within (ChangesOnly first (snapshot.snapshot_sectors_of (length bytes.now))) (D.state disk.old) (D.state disk.new) }
    ensures done { OnOk result (Follows (Saves first number bytes.now) (D.state disk.old) (D.state disk.new)) }
    ensures sectors { IfOk result (λ n. n ≡ snapshot.snapshot_sectors_of (length bytes.now)) }
    ensures writes { WritesAtMost (snapshot.snapshot_sectors_of (length bytes.now)) (D.state disk.old) (D.state disk.new) }
    ensures no_fault { OnOk result ((D.state disk.new).faults ≡ (D.state disk.old).faults) }
    ensures cause { OnErr result (FailedSince (D.state disk.old) (D.state disk.new)) }
{
    let sectors = write_snapshot(disk, first, count, number, bytes)?;
    match disk.sync() {
        Ok(()) => Ok(sectors),
        Err(_) => Err(DiskFault::Disk),
    }
}

/// All but the restart sector: forces the log, writes the slots that were changed, and then the snapshot. The
/// answer is how many sectors the snapshot takes.
#[tactic(auto, using(tm_disk::proofs::Words::stays_on))]
pub(crate) fn prepare<D: Disk>(
    disk: &mut D,
    log: &mut LogWriter,
    stores: &Stores,
    first: u32,
    parts: &PartsView,
) -> Result<u32, DiskFault>
    requires log_area { log.old.first + log.old.count ≤ (D.state disk.old).size }
    requires sequences { log.old.sequence + log.old.count < 2 ^ 64 }
    requires ready { IsWriterReady log.old (D.state disk.old) }
    requires area { first + sector_count stores.now.stores ≤ (D.state disk.old).size }
    requires first { first ≡ data_first parts.now.system.now 0 }
    requires stores { AreStoresOf parts.now.system.now stores.now }
    requires within { parts.now.snapshot_at + parts.now.snapshot_sectors ≤ (D.state disk.old).size }
    requires some { 0 < length parts.now.snapshot.now }
    requires fits { length parts.now.snapshot.now ≤ parts.now.snapshot_sectors * 4064 }
    requires number { parts.now.now.now.checkpoint + 1 < 2 ^ 64 }
    ensures stays { Stays (D.state disk.old) (D.state disk.new) }
    ensures any_moment { Within (Prepares (checkpoint_parts_of parts.entry.now) log.old stores.now) (D.state disk.old) (D.state disk.new) }
    ensures done { OnOk result (Follows (WritesSnapshot (checkpoint_parts_of parts.entry.now) log.old stores.now) (D.state disk.old) (D.state disk.new)) }
    ensures sectors { IfOk result (λ n. n ≡ snapshot.snapshot_sectors_of (length parts.entry.now.snapshot.now)) }
    ensures forced { OnOk result (log.new ≡ forced_writer log.old) }
    ensures writes { WritesAtMost (log_sectors_of (length log.old.appended) + changed_sectors stores.now.stores stores.now.changed + snapshot.snapshot_sectors_of (length parts.entry.now.snapshot.now)) (D.state disk.old) (D.state disk.new) }
    ensures no_fault { OnOk result ((D.state disk.new).faults ≡ (D.state disk.old).faults) }
    ensures cause { OnErr result (FailedSince (D.state disk.old) (D.state disk.new)) }
{
    if log.force(disk).is_err() {
        return Err(DiskFault::Disk);
    }
    if write_slots(disk, stores, first).is_err() {
        return Err(DiskFault::Disk);
    }
    save_snapshot(
        disk,
        parts.snapshot_at,
        parts.snapshot_sectors,
        parts.now.checkpoint + 1,
        parts.snapshot,
    )
}
