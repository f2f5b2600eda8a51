//! The journal.
ghost use Rattle.std.specs.Prelude.{◌≡◌, ℕ, List, map, ◌+◌, ◌*◌, ◌<◌, ◌≤◌, ◌^◌, [], ◌∷◌, length, OnOk, OnErr};
ghost use Rattle.tm_disk.specs.Disk.{Stays, Within, Follows, Only, WritesAtMost, FailedSince};
ghost use Rattle.restart_data.specs.Restart.{IsRestart};
ghost use Rattle.restart_data.specs.Snapshot as sectors;
ghost use Rattle.model_system.specs.Areas.{data_first};
ghost use Rattle.std.specs.List.{AllByRecursion};
ghost use Rattle.seg_store.specs.DataSectors.{MayPut, HasPut};
ghost use Rattle.seg_store.specs.OneSlot.{IsSlotPlace, slot_sectors_at};
ghost use Rattle.seg_store.specs.WrittenSlots.{changed_sectors, sector_count};
ghost use Rattle.checkpointing.specs.CheckpointParts.{checkpoint_parts_of, sequence_behind, next_restart, forced_writer, next_writer, AreAreasFree, IsOver};
ghost use Rattle.checkpointing.specs.DirtySlots.{AreStoresOf};
ghost use Rattle.checkpointing.specs.Checkpoint.{KeepsRecovery, IsCheckpointed};
ghost use Rattle.checkpointing.specs.DefinitionText.{KeepsText};
ghost use Rattle.checkpointing.specs.CheckpointSteps.{Takes};
ghost use Rattle.checkpointing.specs.CheckpointNeeds.{HasRestart, NoneIsAhead, ChangedAreNamed, ForceKeeps, SnapshotKeeps};
ghost use Rattle.log_writer.specs.ForcedLog.{log_sectors_of, IsWriterReady, AddsFront, AddsAll};
ghost use Rattle.disk_law.specs.Life.{LifeOnDisk};
ghost use Rattle.disk_law.specs.KeptImages.{AreImagesKept};
ghost use Rattle.disk_law.specs.LifeSteps.{forced_life};
ghost use Rattle.disk_law.specs.PendingMoves.{PendsBehind, KeepsBehindForce};
ghost use Rattle.disk_law.specs.SlotWrites.{PutsBehindForce, HasPutBehindForce, slot_written_life};
ghost use Rattle.journal.specs.SlotWriteFor.{IsSlotWriteOf, CanWriteSlot, slot_write_pieces};
ghost use Rattle.model_machine.specs.Machine.{LastingState};
ghost use Rattle.log_records.specs.declared.record.Record.{Record};
ghost use Rattle.disk_law.specs.CommittedBytes.{Touches};
ghost use Rattle.disk_law.specs.LifeCheckpoint.{after_checkpoint};
ghost use Rattle.journal.specs.JournalDisk.{TellsRoom, TellsAllRoom, holding, RecoverOne};
ghost use Rattle.journal.specs.CheckpointFor.{parts_for, AreCheckpointPartsOf, CanCheckpoint, CanTake, TakesBehindForce, IsCheckpointedBehindForce};

use checkpointing::{PartsView, take};
use image_loading::{data_first, log_first, snapshot_area, snapshot_first};
use log_writer::LogWriter;
use restart_data::RestartSector;
use seg_store::{SlotPlace, Stores};
use std::alloc::Global;
use std::marker::Model;
use system_types::System;
use tm_disk::{Disk, DiskFault};

// 32 sectors of the log.
const KEPT_BYTES: u64 = 130_048;

/// What a control region keeps of its disk.
#[derive(Drop)]
pub struct Journal {
    log: LogWriter,
    restart: RestartSector,
}

impl Model for Journal {
    ghost use Rattle.disk_law.specs.JournalState.{JournalState};

    ghost Value = { JournalState };

    ghost view = { λ j. record { log = j.log; restart = j.restart } };
}

impl Journal {
    /// A journal whose log begins in this area, with the first sequence of the restart sector.
    pub fn begin(alloc: Global, first: u32, count: u32, restart: &RestartSector) -> Journal
        ensures log { result.log ≡ record { first = first; count = count; sequence = restart.now.sequence; epoch = restart.now.epoch; place = 0; appended = [] } }
        ensures restart { result.restart ≡ restart.now }
    {
        Journal {
            log: LogWriter::new(alloc, first, count, restart.sequence, restart.epoch),
            restart: *restart,
        }
    }

    /// The restart sector that holds.
    pub fn restart(&self) -> &RestartSector
        ensures { result.now ≡ self.now.restart }
    {
        &self.restart
    }

    /// How many bytes of its own a call may append before a checkpoint is due: at least 32 sectors of the log area stay free
    /// once all is forced. None where fewer stay even without any.
    pub fn room(&self) -> Option<u64>
        ensures { TellsRoom self.now.log result }
    {
        let all = self.log.room();
        if all < KEPT_BYTES {
            None
        } else {
            Some(all - KEPT_BYTES)
        }
    }

    /// How many bytes may be appended at all.
    pub fn all_room(&self) -> u64
        ensures { TellsAllRoom self.now.log result }
    {
        self.log.room()
    }

    /// The sequence of the next sector.
    pub fn next_sequence(&self) -> u64
        requires { self.now.log.sequence + self.now.log.count < 2 ^ 64 }
        ensures { result ≡ self.now.log.sequence + self.now.log.place }
    {
        self.log.next_sequence()
    }

    /// Exchanges what was appended for these bytes, for which the log area has room. This takes no memory: the records of a
    /// call are told behind what was appended before the call changes anything, and appended with it.
    pub fn exchange(&mut self, bytes: &mut Vec<u8>)
        requires fits { self.old.log.place + log_sectors_of (length bytes.old.items) ≤ self.old.log.count }
        ensures log { self.new.log ≡ holding bytes.old.items self.old.log }
        ensures bytes { bytes.new.items ≡ self.old.log.appended }
        ensures restart { self.new.restart ≡ self.old.restart }
    {
        self.log.exchange(bytes)
    }

    /// Forces all that was appended. Whenever a crash comes, the image recovers to one of the states that pend: what lasts in each
    /// image before, or behind a step since. Once it has answered, each image has all of the life. `Disk` comes exactly where the
    /// disk failed in the call. Then the journal is of no use.
    pub fn force<D: Disk>(&mut self, disk: &mut D) -> Result<(), DiskFault>
        requires area { self.old.log.first + self.old.log.count ≤ (D.state disk.old).size }
        requires sequences { self.old.log.sequence + self.old.log.count < 2 ^ 64 }
        requires ready { IsWriterReady self.old.log (D.state disk.old) }

        ensures stays { Stays (D.state disk.old) (D.state disk.new) }
        // Whenever a crash comes, the log has gained a front of the records, and once it is done, all of them.
        ensures any_moment { Within (AddsFront self.old.log) (D.state disk.old) (D.state disk.new) }
        ensures done { OnOk result (Follows (AddsAll self.old.log) (D.state disk.old) (D.state disk.new)) }
        // So the image recovers to one of the states that pend. Then each image has all of the life, and nothing pends but what lasts.
        ensures crash { (states : List LastingState) → (life : LifeOnDisk) → life.log ≡ self.old.log → PendsBehind states life (D.state disk.old) → RecoverOne life.system states (D.state disk.old) (D.state disk.new) }
        ensures images { OnOk result ((states : List LastingState) → (life : LifeOnDisk) → life.log ≡ self.old.log → PendsBehind states life (D.state disk.old) → AreImagesKept (forced_life life) (D.state disk.new)) }
        ensures kept { OnOk result ((states : List LastingState) → (life : LifeOnDisk) → life.log ≡ self.old.log → PendsBehind states life (D.state disk.old) → PendsBehind (life.lasting ∷ []) (forced_life life) (D.state disk.new)) }
        ensures log { OnOk result (self.new.log ≡ forced_writer self.old.log) }
        ensures ready { OnOk result (IsWriterReady self.new.log (D.state disk.new)) }
        ensures restart { self.new.restart ≡ self.old.restart }

        ensures writes { WritesAtMost (log_sectors_of (length self.old.log.appended)) (D.state disk.old) (D.state disk.new) }
        ensures no_fault { OnOk result ((D.state disk.new).faults ≡ (D.state disk.old).faults) }
        ensures cause { OnErr result (FailedSince (D.state disk.old) (D.state disk.new)) }
    {
        self.write(disk)
    }

    // The force, by what it leaves on the disk.
    fn write<D: Disk>(&mut self, disk: &mut D) -> Result<(), DiskFault>
        requires area { self.old.log.first + self.old.log.count ≤ (D.state disk.old).size }
        requires sequences { self.old.log.sequence + self.old.log.count < 2 ^ 64 }
        requires ready { IsWriterReady self.old.log (D.state disk.old) }
        ensures stays { Stays (D.state disk.old) (D.state disk.new) }
        ensures any_moment { Within (AddsFront self.old.log) (D.state disk.old) (D.state disk.new) }
        ensures done { OnOk result (Follows (AddsAll self.old.log) (D.state disk.old) (D.state disk.new)) }
        ensures ready { OnOk result (IsWriterReady self.new.log (D.state disk.new)) }
        ensures log { OnOk result (self.new.log ≡ forced_writer self.old.log) }
        ensures restart { self.new.restart ≡ self.old.restart }
        ensures writes { WritesAtMost (log_sectors_of (length self.old.log.appended)) (D.state disk.old) (D.state disk.new) }
        ensures no_fault { OnOk result ((D.state disk.new).faults ≡ (D.state disk.old).faults) }
        ensures cause { OnErr result (FailedSince (D.state disk.old) (D.state disk.new)) }
    {
        match self.log.force(disk) {
            Ok(_) => Ok(()),
            Err(_) => Err(DiskFault::Disk),
        }
    }

    /// Takes a checkpoint with these bytes as its snapshot: forces all, writes each slot that was changed and the snapshot, and
    /// then the restart sector, which is the journal's then; its log begins anew in the other area. Whenever a crash comes, the
    /// image is of the same text and recovers to one of the states that pend, behind the force to what lasts; once it has answered,
    /// each image has all of the life behind the checkpoint. `Disk` comes exactly where the disk failed in the call. Then the
    /// journal is of no use.
    #[tactic(auto, using(tm_disk::proofs::Words::stays_on))]
    pub fn checkpoint<D: Disk>(
        &mut self,
        alloc: Global,
        disk: &mut D,
        system: &System,
        stores: &Stores,
        snapshot: &[u8],
    ) -> Result<(), DiskFault>
        requires can { CanCheckpoint system.now self.old stores.now snapshot.now (D.state disk.old) }

        ensures stays { Stays (D.state disk.old) (D.state disk.new) }
        // A front of what was appended is forced; or all of it, and the image recovers as it did then.
        ensures any_moment { Within (KeepsBehindForce system.entry.now self.old.log) (D.state disk.old) (D.state disk.new) }
        ensures texts { Within (KeepsText system.entry.now) (D.state disk.old) (D.state disk.new) }
        ensures steps { Within (TakesBehindForce (parts_for system.entry.now self.old.restart snapshot.entry.now) self.old.log stores.now) (D.state disk.old) (D.state disk.new) }
        ensures done { OnOk result (Follows (IsCheckpointedBehindForce (parts_for system.entry.now self.old.restart snapshot.entry.now) self.old.log stores.now) (D.state disk.old) (D.state disk.new)) }
        // So the image recovers to one of the states that pend. Then each image has all of the life behind the checkpoint, and nothing
        // pends but what lasts.
        ensures crash { (life : LifeOnDisk) → (touches : Touches) → (told : List Record) → (states : List LastingState) → AreCheckpointPartsOf system.entry.now self.old stores.now snapshot.entry.now touches told states (D.state disk.old) life → RecoverOne system.entry.now states (D.state disk.old) (D.state disk.new) }
        ensures kept { OnOk result ((life : LifeOnDisk) → (touches : Touches) → (told : List Record) → (states : List LastingState) → AreCheckpointPartsOf system.entry.now self.old stores.now snapshot.entry.now touches told states (D.state disk.old) life → PendsBehind (life.lasting ∷ []) (after_checkpoint snapshot.entry.now touches life) (D.state disk.new)) }
        ensures restart { OnOk result (self.new.restart ≡ next_restart (parts_for system.entry.now self.old.restart snapshot.entry.now) self.old.log) }
        ensures log { OnOk result (self.new.log ≡ next_writer (parts_for system.entry.now self.old.restart snapshot.entry.now) self.old.log) }
        ensures ready { OnOk result (IsWriterReady self.new.log (D.state disk.new)) }
        ensures synced { OnOk result (Only (D.state disk.new).shown (D.state disk.new)) }

        ensures writes { WritesAtMost (log_sectors_of (length self.old.log.appended) + changed_sectors stores.now.stores stores.now.changed + sectors.snapshot_sectors_of (length snapshot.entry.now) + 1) (D.state disk.old) (D.state disk.new) }
        ensures no_fault { OnOk result ((D.state disk.new).faults ≡ (D.state disk.old).faults) }
        ensures cause { OnErr result (FailedSince (D.state disk.old) (D.state disk.new)) }
    {
        if self.write(disk).is_err() {
            return Err(DiskFault::Disk);
        }
        self.checkpoint_forced(alloc, disk, system, stores, snapshot)
    }

    /// Writes the record of one changed slot into its sectors, behind a force of all that was appended, and syncs. Whenever a crash
    /// comes, the image is of the same text and recovers to one of the states that pend, behind the force to what lasts; once it has
    /// answered, each image has all of the life, of which this slot doesn't count as changed any more. The stores count it so until
    /// `Stores::settle_slot`. It writes the sectors of what was appended and those of the slot at most, and takes no memory. `Disk` comes
    /// exactly where the disk failed in the call. Then the journal is of no use.
    #[tactic(auto, using(tm_disk::proofs::Words::stays_on))]
    pub fn write_slot<D: Disk>(
        &mut self,
        disk: &mut D,
        system: &System,
        stores: &Stores,
        place: SlotPlace,
    ) -> Result<(), DiskFault>
        requires can { CanWriteSlot system.now self.old stores.now place (D.state disk.old) }

        ensures stays { Stays (D.state disk.old) (D.state disk.new) }
        // A front of what was appended is forced; or all of it, and the image recovers as it did then.
        ensures any_moment { Within (KeepsBehindForce system.entry.now self.old.log) (D.state disk.old) (D.state disk.new) }
        ensures texts { Within (KeepsText system.entry.now) (D.state disk.old) (D.state disk.new) }
        ensures steps { Within (PutsBehindForce self.old.log (data_first system.entry.now 0) (slot_write_pieces place stores.now)) (D.state disk.old) (D.state disk.new) }
        ensures done { OnOk result (Follows (HasPutBehindForce self.old.log (data_first system.entry.now 0) (slot_write_pieces place stores.now)) (D.state disk.old) (D.state disk.new)) }
        // So the image recovers to one of the states that pend. Then each image has all of the life behind the write, and nothing pends
        // but what lasts.
        ensures crash { (life : LifeOnDisk) → (states : List LastingState) → IsSlotWriteOf system.entry.now self.old stores.now states (D.state disk.old) life → RecoverOne system.entry.now states (D.state disk.old) (D.state disk.new) }
        ensures kept { OnOk result ((life : LifeOnDisk) → (states : List LastingState) → IsSlotWriteOf system.entry.now self.old stores.now states (D.state disk.old) life → PendsBehind (life.lasting ∷ []) (slot_written_life place.db place.slot (forced_life life)) (D.state disk.new)) }
        ensures log { OnOk result (self.new.log ≡ forced_writer self.old.log) }
        ensures ready { OnOk result (IsWriterReady self.new.log (D.state disk.new)) }
        ensures restart { self.new.restart ≡ self.old.restart }
        ensures synced { OnOk result (Only (D.state disk.new).shown (D.state disk.new)) }

        ensures writes { WritesAtMost (log_sectors_of (length self.old.log.appended) + slot_sectors_at place stores.now.stores) (D.state disk.old) (D.state disk.new) }
        ensures no_fault { OnOk result ((D.state disk.new).faults ≡ (D.state disk.old).faults) }
        ensures cause { OnErr result (FailedSince (D.state disk.old) (D.state disk.new)) }
    {
        if self.write(disk).is_err() {
            return Err(DiskFault::Disk);
        }
        put_slot(disk, data_first(system), stores, place)
    }

    // The checkpoint once all is forced.
    fn checkpoint_forced<D: Disk>(
        &mut self,
        alloc: Global,
        disk: &mut D,
        system: &System,
        stores: &Stores,
        snapshot: &[u8],
    ) -> Result<(), DiskFault>
        requires can { CanTake system.now self.old stores.now snapshot.now (D.state disk.old) }
        ensures stays { Stays (D.state disk.old) (D.state disk.new) }
        ensures any_moment { Within (KeepsRecovery system.entry.now) (D.state disk.old) (D.state disk.new) }
        ensures texts { Within (KeepsText system.entry.now) (D.state disk.old) (D.state disk.new) }
        ensures steps { Within (Takes (parts_for system.entry.now self.old.restart snapshot.entry.now) self.old.log stores.now) (D.state disk.old) (D.state disk.new) }
        ensures done { OnOk result (Follows (IsCheckpointed (parts_for system.entry.now self.old.restart snapshot.entry.now) self.old.log stores.now) (D.state disk.old) (D.state disk.new)) }
        ensures restart { OnOk result (self.new.restart ≡ next_restart (parts_for system.entry.now self.old.restart snapshot.entry.now) self.old.log) }
        ensures log { OnOk result (self.new.log ≡ next_writer (parts_for system.entry.now self.old.restart snapshot.entry.now) self.old.log) }
        ensures ready { OnOk result (IsWriterReady self.new.log (D.state disk.new)) }
        ensures synced { OnOk result (Only (D.state disk.new).shown (D.state disk.new)) }
        ensures writes { WritesAtMost (log_sectors_of (length self.old.log.appended) + changed_sectors stores.now.stores stores.now.changed + sectors.snapshot_sectors_of (length snapshot.entry.now) + 1) (D.state disk.old) (D.state disk.new) }
        ensures no_fault { OnOk result ((D.state disk.new).faults ≡ (D.state disk.old).faults) }
        ensures cause { OnErr result (FailedSince (D.state disk.old) (D.state disk.new)) }
    {
        let now = self.restart;
        let view = PartsView {
            system,
            now: &now,
            snapshot_at: snapshot_first(system, 1 - now.snapshot),
            snapshot_sectors: snapshot_area(system),
            log_at: log_first(system, 1 - now.log),
            log_sectors: system.logs(),
            snapshot,
        };
        self.take_checkpoint(alloc, disk, stores, &view)
    }

    // The checkpoint, by what it leaves on the disk.
    fn take_checkpoint<D: Disk>(
        &mut self,
        alloc: Global,
        disk: &mut D,
        stores: &Stores,
        parts: &PartsView,
    ) -> Result<(), DiskFault>
        requires areas { data_first parts.now.system.now (length parts.now.system.now.databases) ≤ (D.state disk.old).size }
        requires now { HasRestart parts.now.system.now parts.now.now.now (D.state disk.old) }
        requires free { AreAreasFree (checkpoint_parts_of parts.now) }
        requires some { 0 < length parts.now.snapshot.now }
        requires fits { length parts.now.snapshot.now ≤ parts.now.snapshot_sectors * 4064 }
        requires next { IsRestart (next_restart (checkpoint_parts_of parts.now) self.old.log) }
        requires stores { AreStoresOf parts.now.system.now stores.now }
        requires named { ChangedAreNamed (checkpoint_parts_of parts.now) self.old.log stores.now (D.state disk.old) }
        requires over { IsOver (checkpoint_parts_of parts.now) self.old.log }
        requires log_area { self.old.log.first + self.old.log.count ≤ (D.state disk.old).size }
        requires ready { IsWriterReady self.old.log (D.state disk.old) }
        requires ahead { NoneIsAhead parts.now.system.now parts.now.now.now.epoch (sequence_behind self.old.log) (D.state disk.old) }
        requires force_keeps { ForceKeeps (checkpoint_parts_of parts.now) self.old.log (D.state disk.old) }
        requires snapshot_keeps { SnapshotKeeps (checkpoint_parts_of parts.now) self.old.log stores.now (D.state disk.old) }

        ensures stays { Stays (D.state disk.old) (D.state disk.new) }
        ensures any_moment { Within (KeepsRecovery parts.entry.now.system.now) (D.state disk.old) (D.state disk.new) }
        ensures texts { Within (KeepsText parts.entry.now.system.now) (D.state disk.old) (D.state disk.new) }
        ensures steps { Within (Takes (checkpoint_parts_of parts.entry.now) self.old.log stores.now) (D.state disk.old) (D.state disk.new) }
        ensures done { OnOk result (Follows (IsCheckpointed (checkpoint_parts_of parts.entry.now) self.old.log stores.now) (D.state disk.old) (D.state disk.new)) }
        ensures restart { OnOk result (self.new.restart ≡ next_restart (checkpoint_parts_of parts.entry.now) self.old.log) }
        ensures log { OnOk result (self.new.log ≡ next_writer (checkpoint_parts_of parts.entry.now) self.old.log) }
        ensures ready { OnOk result (IsWriterReady self.new.log (D.state disk.new)) }
        ensures synced { OnOk result (Only (D.state disk.new).shown (D.state disk.new)) }

        ensures writes { WritesAtMost (log_sectors_of (length self.old.log.appended) + changed_sectors stores.now.stores stores.now.changed + sectors.snapshot_sectors_of (length parts.entry.now.snapshot.now) + 1) (D.state disk.old) (D.state disk.new) }
        ensures no_fault { OnOk result ((D.state disk.new).faults ≡ (D.state disk.old).faults) }
        ensures cause { OnErr result (FailedSince (D.state disk.old) (D.state disk.new)) }
    {
        match take(alloc, disk, &mut self.log, stores, parts) {
            Ok(next) => {
                self.restart = next;
                Ok(())
            }
            Err(_) => {
                self.log = LogWriter::new(alloc, 0, 0, 0, 0);
                Err(DiskFault::Disk)
            }
        }
    }
}

// Writes a slot and syncs, where the sectors of all slots stand from the sector `first` on.
#[tactic(auto, using(tm_disk::proofs::Words::stays_on))]
fn put_slot<D: Disk>(
    disk: &mut D,
    first: u32,
    stores: &Stores,
    place: SlotPlace,
) -> Result<(), DiskFault>
    requires there { IsSlotPlace place stores.now.stores }
    requires area { first + sector_count stores.now.stores ≤ (D.state disk.old).size }
    requires few_sectors { AllByRecursion (λ s. s.dbd.sectors ≤ 8) stores.now.stores }
    ensures stays { Stays (D.state disk.old) (D.state disk.new) }
    ensures any_moment { Within (MayPut first (slot_write_pieces place stores.now)) (D.state disk.old) (D.state disk.new) }
    ensures done { OnOk result (Follows (HasPut first (slot_write_pieces place stores.now)) (D.state disk.old) (D.state disk.new)) }
    ensures synced { OnOk result (Only (D.state disk.new).shown (D.state disk.new)) }
    ensures writes { WritesAtMost (slot_sectors_at place stores.now.stores) (D.state disk.old) (D.state disk.new) }
    ensures no_fault { OnOk result ((D.state disk.new).faults ≡ (D.state disk.old).faults) }
    ensures cause { OnErr result (FailedSince (D.state disk.old) (D.state disk.new)) }
{
    stores.write_slot(disk, first, place)?;
    disk.sync()?;
    Ok(())
}
