//! The end of a log area.
ghost use Rattle.std.specs.Prelude.{◌≡◌, ◌+◌, ◌-◌, ◌*◌, ◌<◌, ◌≤◌, ◌^◌, ◌++◌, [], length, IsTrue, IsOk, IfOk, OnOk, OnErr};
ghost use Rattle.tm_disk.specs.Disk.{Stays, Within, Follows, Only, WritesAtMost, FailedSince};
ghost use Rattle.log_writer.specs.ForcedLog.{log_sectors_of, room_of, IsWriterReady, AddsFront, AddsAll};

use crate::lay::{lay, sectors_of};
use crate::seal::Seal;
use log_sectors::PAYLOAD_BYTES;
use std::alloc::Global;
use std::marker::Model;
use std::mem;
use tm_disk::{Disk, DiskFault};
use tm_types::Memory;

/// The end of a log area. What is appended is on the disk once it was forced.
#[derive(Drop)]
pub struct LogWriter {
    first: u32,
    count: u32,
    sequence: u64,
    epoch: u64,
    // How many sectors were written.
    place: u32,
    // What is to be written.
    appended: Vec<u8>,
    seal: Seal,
}

impl Model for LogWriter {
    ghost use Rattle.std.specs.Prelude.{◌≤◌, ◌+◌, ◌-◌, ◌*◌, length};
    ghost use Rattle.log_writer.specs.Writer.{Writer};

    ghost Value = { Writer };

    ghost view = { λ w. record { first = w.first; count = w.count; sequence = w.sequence; epoch = w.epoch; place = w.place; appended = w.appended.items } };

    ghost invariant = { λ w. (w.place ≤ w.count) × (length w.appended.items ≤ (w.count - w.place) * 4064) };
}

impl LogWriter {
    /// A writer at the start of an area, whose first sector is to have this sequence.
    pub fn new(alloc: Global, first: u32, count: u32, sequence: u64, epoch: u64) -> LogWriter
        ensures { result ≡ record { first = first; count = count; sequence = sequence; epoch = epoch; place = 0; appended = [] } }
    {
        LogWriter {
            first,
            count,
            sequence,
            epoch,
            place: 0,
            appended: Vec::new(alloc),
            seal: Seal::new(),
        }
    }

    /// How many bytes may still be appended.
    pub fn room(&self) -> u64
        ensures value { result ≡ room_of self.now }
        // What was appended fits in the sectors that are left.
        ensures fits { self.now.place + log_sectors_of (length self.now.appended) ≤ self.now.count }
    {
        (self.count - self.place) as u64 * PAYLOAD_BYTES as u64 - self.appended.len() as u64
    }

    /// How many bytes were appended and aren't forced yet.
    pub fn pending(&self) -> u64
        ensures value { result ≡ length self.now.appended }
    {
        self.appended.len() as u64
    }

    /// The sequence of the next sector that a force writes.
    pub fn next_sequence(&self) -> u64
        requires { self.now.sequence + self.now.count < 2 ^ 64 }
        ensures { result ≡ self.now.sequence + self.now.place }
    {
        self.sequence + self.place as u64
    }

    /// Appends bytes, for which there must be room. Where it answers `Memory`, none is appended.
    pub fn append(&mut self, bytes: &[u8]) -> Result<(), Memory>
        requires { length bytes.now ≤ room_of self.old }
        ensures ok { OnOk result (self.new ≡ record self.old { appended = self.old.appended ++ bytes.now }) }
        ensures err { OnErr result (self.new ≡ self.old) }
    {
        self.appended.extend_from_slice(bytes)
    }

    /// Exchanges what was appended for these bytes, which fit in the sectors that are left. This takes no memory, so bytes
    /// whose room was taken beforehand can be forced behind a change.
    pub fn exchange(&mut self, bytes: &mut Vec<u8>)
        requires { length bytes.old.items ≤ (self.old.count - self.old.place) * 4064 }
        ensures writer { self.new ≡ record self.old { appended = bytes.old.items } }
        ensures bytes { bytes.new.items ≡ self.old.appended }
    {
        mem::swap(&mut self.appended, bytes);
    }

    /// Writes what was appended into sectors of its own, and syncs. The answer is how many sectors they are. `Disk` comes
    /// exactly where the disk failed in the call; then the writer is of no use.
    #[tactic(auto, using(tm_disk::proofs::Words::stays_on))]
    pub fn force<D: Disk>(&mut self, disk: &mut D) -> Result<u32, DiskFault>
        requires area { self.old.first + self.old.count ≤ (D.state disk.old).size }
        requires sequences { self.old.sequence + self.old.count < 2 ^ 64 }
        requires ready { IsWriterReady self.old (D.state disk.old) }

        ensures stays { Stays (D.state disk.old) (D.state disk.new) }
        // Whenever a crash comes, the log has gained a front of what was appended.
        ensures any_moment { Within (AddsFront self.old) (D.state disk.old) (D.state disk.new) }
        // Then it has gained all.
        ensures done { OnOk result (Follows (AddsAll self.old) (D.state disk.old) (D.state disk.new)) }
        ensures shown { OnOk result (IsTrue (D.state disk.old).tells → AddsAll self.old (D.state disk.old).shown (D.state disk.new).shown) }
        // What was written stands the same in each image.
        ensures synced { OnOk result (0 < length self.old.appended → Only (D.state disk.new).shown (D.state disk.new)) }
        ensures ready { OnOk result (IsWriterReady self.new (D.state disk.new)) }
        ensures sectors { IfOk result (λ n. n ≡ log_sectors_of (length self.old.appended)) }
        ensures moves { IfOk result (λ n. self.new ≡ record self.old { place = self.old.place + n; appended = [] }) }

        ensures writes { WritesAtMost (log_sectors_of (length self.old.appended)) (D.state disk.old) (D.state disk.new) }
        ensures nothing { self.old.appended ≡ [] → IsOk result × (disk.new ≡ disk.old) }
        ensures no_fault { OnOk result ((D.state disk.new).faults ≡ (D.state disk.old).faults) }
        ensures cause { OnErr result (FailedSince (D.state disk.old) (D.state disk.new)) }
        ensures err { OnErr result (self.new ≡ self.old) }
    {
        if self.appended.is_empty() {
            return Ok(0);
        }
        let sectors = sectors_of(self.appended.len()) as u32;
        let sequence = self.sequence + self.place as u64;
        if lay(
            disk,
            self.first + self.place,
            sequence,
            self.epoch,
            &self.appended,
            &mut self.seal,
        )
        .is_err()
        {
            return Err(DiskFault::Disk);
        }
        if disk.sync().is_err() {
            return Err(DiskFault::Disk);
        }
        self.place += sectors;
        self.appended.clear();
        Ok(sectors)
    }
}
