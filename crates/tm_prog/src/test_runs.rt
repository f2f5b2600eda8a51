//! What the tests run, and what they expect of it.

use crate::run::run;
use crate::status_number;
use crate::test_system::SYSTEM;
use std::alloc::{AllocError, Global};
use std::test::Fail;
use tm_disk::{Disk, MemDisk};
use tm_edge::{MemSink, MemSource};
use tm_session::Lives;

/// The words of a session over a disk in memory.
pub const DRILL: &[&str] = &["drill", "MEM", "1517"];

/// What a run came to: its status, what was printed, its lives, how many stops there were, and the disk. Of a life it is told how long
/// its history is, and how many steps are kept.
#[derive(Drop)]
pub struct Report {
    pub status: u8,
    pub printed: Vec<u8>,
    pub lives: Vec<(usize, u64)>,
    pub stops: usize,
    pub disk: MemDisk,
}

/// These texts, one behind another.
pub fn joined(alloc: Global, texts: &[&[u8]]) -> Result<Vec<u8>, AllocError> {
    let mut all = Vec::new(alloc);
    for text in texts {
        all.extend_from_slice(text)?;
    }
    Ok(all)
}

/// These words, owned.
fn owned(alloc: Global, words: &[&str]) -> Result<Vec<String>, AllocError> {
    let mut all = Vec::new(alloc);
    for word in words {
        all.push(String::from_str(alloc, word)?)?;
    }
    Ok(all)
}

/// What is told of these lives.
fn lives_told(alloc: Global, lives: &Lives) -> Result<Vec<(usize, u64)>, AllocError> {
    let mut all = Vec::new(alloc);
    for life in &lives.items {
        all.push((life.history.len(), life.kept))?;
    }
    Ok(all)
}

/// Runs a source by these words, over a source and a sink that fail at the listed calls, and this disk, cut off.
pub fn told(
    alloc: Global,
    words: &[&str],
    bytes: &[u8],
    fails: (&[u64], &[u64]),
    disk: MemDisk,
) -> Result<Report, Fail> {
    let words = owned(alloc, words)?;
    let mut source = MemSource::new(bytes.to_vec(alloc)?, fails.0.to_vec(alloc)?);
    let mut sink = MemSink::new(alloc, fails.1.to_vec(alloc)?);
    sink.reserve(8192)?;
    let mut disk = disk;
    disk.cut(0);
    let outcome = run(alloc, &words, &mut source, &mut sink, disk);
    Ok(Report {
        status: status_number(outcome.status),
        printed: sink.bytes().to_vec(alloc)?,
        lives: lives_told(alloc, &outcome.lives)?,
        stops: outcome.stops.items.len(),
        disk: outcome.disk,
    })
}

/// A new disk of so many sectors, which fails at the listed calls.
pub fn disk_of(alloc: Global, sectors: u32, fails: &[u64]) -> Result<MemDisk, Fail> {
    Ok(MemDisk::new(alloc, sectors, fails.to_vec(alloc)?)?)
}

/// Whether a run came to this status and printed this. Else it fails by what it shows.
pub fn compare(shows: &'static str, report: &Report, wanted: (u8, &[u8])) -> Result<(), Fail> {
    if report.status == wanted.0 && report.printed.as_slice() == wanted.1 {
        Ok(())
    } else {
        Err(shows.into())
    }
}

/// Runs the lines of a session of the system of the worked rows over a new disk.
pub fn told_new(alloc: Global, lines: &[&[u8]]) -> Result<Report, Fail> {
    let system = joined(alloc, SYSTEM)?;
    let session = joined(alloc, lines)?;
    let source = joined(alloc, &[&system, &session])?;
    let disk = disk_of(alloc, 1517, &[])?;
    told(alloc, DRILL, &source, (&[], &[]), disk)
}

/// Runs such lines, and compares what they come to.
pub fn expect(
    alloc: Global,
    shows: &'static str,
    lines: &[&[u8]],
    wanted: (u8, &[&[u8]]),
) -> Result<(), Fail> {
    let report = told_new(alloc, lines)?;
    let printed = joined(alloc, wanted.1)?;
    compare(shows, &report, (wanted.0, &printed))
}
