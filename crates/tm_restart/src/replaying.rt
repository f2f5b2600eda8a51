//! The snapshot and the log of an image, read and done again.
ghost use Rattle.std.specs.Prelude.{◌≡◌, ℕ, ◌+◌, ◌≤◌, true, List, Some, Ok, IsTrue, IfOk, length};
ghost use Rattle.std.specs.List.{list_all};
ghost use Rattle.log_records.specs.declared.record.Record.{Record as OneRecord};
ghost use Rattle.tm_disk.specs.Disk.{Keeps};
ghost use Rattle.restart_data.specs.Restart.{restart_in};
ghost use Rattle.restart_data.specs.WrittenSectors.{IsValid};
ghost use Rattle.model_system.specs.Areas.{is_single, snapshot_area, data_first};
ghost use Rattle.model_image.specs.Slots.{is_image_of};
ghost use Rattle.image_records.specs.RecordAnswers.{IsSnapshotStateOf, TellsLog};
ghost use Rattle.image_reading.specs.ReadLog.{IsCutInto, ComesFromBytes};
ghost use Rattle.image_reading.specs.ReadSnapshot.{ComesFromRecords};
ghost use Rattle.tm_restart.specs.ReplayedImage.{ComesBehind, TellsReplay, ReplayCause};

use image_loading::log_first;
use image_reading::{LogFault, ReadFault, read_log, read_told};
use image_records::{Record, RecordsFault, Replayed, Snapshot};
use log_replay::replay_log;
use restart_data::RestartSector;
use std::alloc::Global;
use system_types::System;
use tm_disk::Disk;

/// What the snapshot and the log come to.
#[derive(Drop)]
pub struct Reread {
    pub replayed: Replayed,
    /// The sequence behind the log.
    pub next_sequence: u64,
    /// The first sector of the log's area that is of a later epoch.
    pub later: Option<u32>,
}

// Does the log with these records again behind a snapshot that was read.
fn replay(
    alloc: Global,
    system: &System,
    snapshot: Snapshot,
    log: Vec<Record>,
    is_cut_off: bool,
) -> Result<Replayed, RecordsFault>
    requires snapshot { ComesFromRecords system.now snapshot }
    requires log { ComesFromBytes log.items is_cut_off }
    ensures value { (bytes : List ℕ) → IsCutInto bytes log.items is_cut_off → (records : List OneRecord) → list_all (is_image_of system.now) records ≡ true → IsSnapshotStateOf system.now records snapshot → TellsLog system.now records bytes result }
    ensures behind { IfOk result (ComesBehind system.now) }
{
    replay_log(alloc, system, snapshot, log, is_cut_off)
}

/// Reads the snapshot and the log that this restart sector names, and does the log again. Nothing is written.
pub fn read_replayed<D: Disk>(
    alloc: Global,
    disk: &mut D,
    system: &System,
    restart: &RestartSector,
) -> Result<Reread, ReadFault>
    requires areas { data_first system.now (length system.now.databases) ≤ (D.state disk.old).size }
    requires valid { IsValid (snapshot_area system.now) restart.now }
    requires has { IsTrue (D.state disk.old).tells → restart_in (snapshot_area system.now) (is_single system.now) (D.state disk.old).shown ≡ Ok (Some restart.now) }
    ensures behind { IfOk result (λ read. ComesBehind system.now read.replayed) }
    ensures least { IfOk result (λ read. restart.now.sequence ≤ read.next_sequence) }
    ensures few { IfOk result (λ read. read.next_sequence ≤ restart.now.sequence + system.now.logs) }
    ensures value { IsTrue (D.state disk.old).tells → TellsReplay system.now restart.now (D.state disk.old).shown result }
    ensures keeps { Keeps (D.state disk.old) (D.state disk.new) }
    ensures cause { ReplayCause result (D.state disk.old) (D.state disk.new) }
{
    let log = match read_log(alloc, disk, system, restart) {
        Ok(log) => log,
        Err(LogFault::Disk) => return Err(ReadFault::Disk),
        Err(LogFault::Memory) => return Err(ReadFault::Memory),
    };
    let snapshot = match read_told(alloc, disk, system, restart) {
        Ok(snapshot) => snapshot,
        Err(fault) => return Err(fault),
    };
    match replay(alloc, system, snapshot, log.records, log.is_cut_off) {
        Ok(replayed) => Ok(Reread {
            replayed,
            next_sequence: log.next_sequence,
            later: log.later,
        }),
        Err(RecordsFault::Bad(rule)) => Err(ReadFault::Bad(rule, log_first(system, restart.log))),
        Err(RecordsFault::Memory) => Err(ReadFault::Memory),
    }
}
