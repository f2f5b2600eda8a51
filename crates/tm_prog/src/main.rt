//! A transaction manager: its sessions are served as `drill`, from standard input to standard output; a
//! `workload` makes its session by itself.
//!
//! `main` reads the words, opens the disk that they name, calls `run` and ends the process with the number of its
//! status, as `specs/Status` has it. Not proved are `main` itself, the standard streams (`tm_edge`) and the disk in a
//! file (`tm_disk`).
#![tactic(auto)]

ghost use Rattle.std.specs.Prelude.{◌≡◌};
ghost use Rattle.tm_disk.specs.Disk.{Only};
ghost use Rattle.tm_prog.specs.Status.{status_number};

mod run;
mod summed;
#[cfg(test)]
mod test_faults;
#[cfg(test)]
mod test_runs;
#[cfg(test)]
mod test_system;
#[cfg(test)]
mod tests;
mod words;
#[cfg(test)]
mod worked_rows;

use run::{print_last, run};
use std::alloc::Global;
use std::env::FillError;
use std::process::ExitCode;
use std::rt::Env;
use std::str;
use tm_disk::{Disk, FileDisk, MemDisk};
use tm_edge::{Sink, Source, StdSink, StdSource};
use tm_session::Ended;
use tm_types::Memory;
use words::{DiskWords, disk_words};

fn main(rt: HostRuntime) -> ExitCode {
    let alloc = rt.alloc();
    let mut source = StdSource::new(rt.reader());
    let mut sink = StdSink::new(std::io::writer(&rt));
    let Ok(words) = called_with(&rt) else {
        return no_memory(&mut sink);
    };
    match disk_words(&words) {
        DiskWords::InMemory(sectors) => match MemDisk::new(alloc, sectors, Vec::new(alloc)) {
            Ok(disk) => serve(alloc, &words, &mut source, &mut sink, disk),
            Err(_) => no_memory(&mut sink),
        },
        DiskWords::InFile(sectors) => {
            let path = words.get(2).map_or("", |word| word.as_str());
            let disk = FileDisk::open(&rt, path, sectors);
            serve(alloc, &words, &mut source, &mut sink, disk)
        }
    }
}

/// Serves a session over this disk, and ends with the number of its status.
fn serve<S: Source, K: Sink, D: Disk + Drop>(
    alloc: Global,
    words: &[String],
    source: &mut S,
    sink: &mut K,
    disk: D,
) -> ExitCode
    requires only { Only (D.state disk).shown (D.state disk) }
{
    let outcome = run(alloc, words, source, sink, disk);
    ExitCode::from(status_number(outcome.status))
}

/// Tells that there was no memory.
fn no_memory<K: Sink>(sink: &mut K) -> ExitCode {
    print_last(sink, b"STATUS 7 MEMORY\n");
    ExitCode::from(status_number(Ended::Memory))
}

/// The most bytes of a word that is looked at.
const WORD_ROOM: usize = 4096;

/// The most words that are looked at. No command of the grammar has so many.
const WORD_COUNT: usize = 8;

/// The words that the program is called with, without its own name. One that isn't UTF-8, or is too long, stands as an
/// empty word, which is no word of the grammar, and as a path names no file.
fn called_with<R: Env + AllocGlobal>(rt: &R) -> Result<Vec<String>, Memory> {
    let alloc = rt.alloc();
    let mut words = Vec::new(alloc);
    let mut bytes = [0; WORD_ROOM];
    for place in 0..WORD_COUNT {
        match rt.arg(place + 1, &mut bytes) {
            Ok(length) => words.push(word_of(alloc, &bytes[..length])?)?,
            Err(FillError::TooLong) => words.push(String::new(alloc))?,
            Err(FillError::NotPresent) => break,
        }
    }
    Ok(words)
}

/// A word as text, and an empty one where its bytes are no text.
fn word_of(alloc: Global, bytes: &[u8]) -> Result<String, Memory> {
    match str::from_utf8(bytes) {
        Ok(word) => Ok(String::from_str(alloc, word)?),
        Err(_) => Ok(String::new(alloc)),
    }
}

/// The number of a status, with which the process ends.
fn status_number(status: Ended) -> u8
    ensures { result ≡ status_number status }
{
    match status {
        Ended::Done => 0,
        Ended::Words(_, _) => 1,
        Ended::BadLine(_, _) | Ended::BadCross(_, _) => 2,
        Ended::Down => 3,
        Ended::Image(_) => 6,
        Ended::Read => 4,
        Ended::Write => 5,
        Ended::Memory => 7,
        Ended::Limit(_) => 9,
        Ended::Spent => 9,
    }
}
