//! The log that a restart sector names.
ghost use Rattle.std.specs.Prelude.{◌≡◌, ◌+◌, ◌≤◌, length, Decides, IsTrue, IfOk};
ghost use Rattle.log_records.proofs.Takes.{IsBytes};
ghost use Rattle.tm_disk.specs.Disk.{Keeps};
ghost use Rattle.restart_data.specs.WrittenSectors.{IsValid};
ghost use Rattle.model_system.specs.Areas.{snapshot_area, data_first};
ghost use Rattle.model_image.specs.CutRecords.{cut_of, IsRecordCutOff};
ghost use Rattle.image_reading.specs.ReadLog.{ComesFromBytes, IsLogOf, LogCause};

use crate::area::read_area;
use crate::rest::is_cut_off;
use image_loading::log_first;
use image_records::{Record, cut};
use restart_data::RestartSector;
use std::alloc::Global;
use system_types::System;
use thiserror::Error;
use tm_disk::Disk;
use tm_types::Memory;

/// The log behind a snapshot.
#[derive(Debug, Drop)]
pub struct ReadLog {
    /// Its records.
    pub records: Vec<Record>,
    /// Whether what is left behind them is the front of a record, without its end.
    pub is_cut_off: bool,
    /// The sequence behind its last sector.
    pub next_sequence: u64,
    /// The first sector of its area that is of a later epoch.
    pub later: Option<u32>,
}

/// Why a log wasn't read.
#[derive(Clone, Copy, Debug, Drop, Error, PartialEq, Eq)]
pub enum LogFault {
    /// The disk failed at a read, and its count of faults rose.
    #[error("the disk failed")]
    Disk,
    /// There was no memory. No read failed before.
    #[error("no memory")]
    Memory,
}

// The records of a log's bytes, and whether what is left behind them is cut off.
fn cut_log(alloc: Global, bytes: &[u8]) -> Result<(Vec<Record>, bool), Memory>
    ensures records { IfOk result (λ log. log.0.items ≡ (cut_of bytes.now).records) }
    ensures decided { IfOk result (λ log. Decides log.1 (IsRecordCutOff (cut_of bytes.now).rest)) }
    ensures bytes { IfOk result (λ log. IsBytes bytes.now) }
{
    let cut = cut(alloc, bytes)?;
    let is_cut_off = is_cut_off(&bytes[cut.length..]);
    Ok((cut.records, is_cut_off))
}

/// Reads the log that this restart sector names, as the disk reads.
pub fn read_log<D: Disk>(
    alloc: Global,
    disk: &mut D,
    system: &System,
    restart: &RestartSector,
) -> Result<ReadLog, LogFault>
    requires areas { data_first system.now (length system.now.databases) ≤ (D.state disk.old).size }
    requires valid { IsValid (snapshot_area system.now) restart.now }
    // They are those of some bytes on each disk.
    ensures cut { IfOk result (λ read. ComesFromBytes read.records.items read.is_cut_off) }
    ensures least { IfOk result (λ read. restart.now.sequence ≤ read.next_sequence) }
    ensures few { IfOk result (λ read. read.next_sequence ≤ restart.now.sequence + system.now.logs) }
    ensures value { IfOk result (λ read. IsTrue (D.state disk.old).tells → IsLogOf system.now restart.now (D.state disk.old).shown read) }
    ensures keeps { Keeps (D.state disk.old) (D.state disk.new) }
    ensures cause { LogCause result (D.state disk.old) (D.state disk.new) }
{
    let first = log_first(system, restart.log);
    let logs = system.logs();
    let area = match read_area(alloc, disk, first, logs, restart.sequence, restart.epoch) {
        Ok(area) => area,
        Err(fault) => return Err(fault),
    };
    let Ok(log) = cut_log(alloc, area.payload.as_slice()) else {
        return Err(LogFault::Memory);
    };
    Ok(ReadLog {
        records: log.0,
        is_cut_off: log.1,
        next_sequence: restart.sequence + u64::from(area.sectors),
        later: area.later,
    })
}
