//! How many inputs were accepted, completed and abended, and how often a region gave way.
ghost use Rattle.std.specs.Prelude.{◌≡◌, ◌+◌, IfOk, slice_get};
ghost use Rattle.workload.specs.Counts as spec;

use model_machine::{Entry, Taken, Turned};
use openings::{History, Life};
use tm_types::Memory;

/// How many inputs were accepted as new ones, how many messages were completed, how many were ended by an abend, and how often
/// a region gave way to break a ring.
#[derive(Clone, Copy, Debug)]
pub struct Counts {
    pub accepted: u64,
    pub completed: u64,
    pub abended: u64,
    pub victims: u64,
}

/// What the entries of these lives come to. `Memory` is the only refusal: of so many entries that a count passes 64 bits, no memory
/// could hold the list.
#[tactic(auto, using(crate::proofs::Counting::life_steps))]
pub fn count_lives(lives: &[Life]) -> Result<Counts, Memory>
    ensures { IfOk result (λ counts. counts ≡ spec.counts_of (spec.entries_of lives.now)) }
{
    let mut counts = Counts {
        accepted: 0,
        completed: 0,
        abended: 0,
        victims: 0,
    };
    for life in lives {
        counts = with_history(counts, &life.history)?;
    }
    Ok(counts)
}

/// The counts with those of a life's entries.
#[tactic(auto, using(crate::proofs::Counting::entry_steps))]
fn with_history(before: Counts, history: &History) -> Result<Counts, Memory>
    ensures { IfOk result (λ counts. counts ≡ spec.plus before (spec.counts_of history.now)) }
{
    let mut counts = before;
    for place in 0..history.len() {
        counts = with_place(counts, history, place)?;
    }
    Ok(counts)
}

/// The counts with that of the entry at a place.
fn with_place(counts: Counts, history: &History, place: usize) -> Result<Counts, Memory>
    ensures { IfOk result (λ with. with ≡ spec.with_found counts (slice_get history.now place)) }
{
    match history.get(place) {
        Some(entry) => with_entry(counts, entry),
        None => Ok(counts),
    }
}

/// The counts with that of an entry.
fn with_entry(counts: Counts, entry: &Entry) -> Result<Counts, Memory>
    ensures { IfOk result (λ with. with ≡ spec.plus counts (spec.count_of entry.now)) }
{
    Ok(Counts {
        accepted: sum(counts.accepted, accepted_in(entry))?,
        completed: sum(counts.completed, completed_in(entry))?,
        abended: sum(counts.abended, abended_in(entry))?,
        victims: sum(counts.victims, victims_in(entry))?,
    })
}

fn sum(count: u64, more: u64) -> Result<u64, Memory>
    ensures { IfOk result (λ sum. sum ≡ count + more) }
{
    count.checked_add(more).ok_or(Memory)
}

/// How many inputs were accepted as new ones: one, or none.
fn accepted_in(entry: &Entry) -> u64
    ensures { result ≡ spec.one_entry_if (spec.is_accepted entry.now) }
{
    match entry {
        Entry::Accept(_, _, _, Ok(Taken::New(_))) => 1,
        _ => 0,
    }
}

/// How many messages were completed: one, or none.
fn completed_in(entry: &Entry) -> u64
    ensures { result ≡ spec.one_entry_if (spec.is_completion entry.now) }
{
    match entry {
        Entry::Turn(_, Ok(Turned::Next(_, _, _))) => 1,
        Entry::Turn(_, Ok(Turned::QC(_, _))) => 1,
        Entry::Turn(_, Ok(Turned::Done(_, _))) => 1,
        _ => 0,
    }
}

/// How many messages were ended by an abend: one, or none.
fn abended_in(entry: &Entry) -> u64
    ensures { result ≡ spec.one_entry_if (spec.is_abend entry.now) }
{
    match entry {
        Entry::Turn(_, Ok(Turned::Abended(_, _, _))) => 1,
        _ => 0,
    }
}

/// How many regions gave way.
fn victims_in(entry: &Entry) -> u64
    ensures { result ≡ spec.victim_count_in entry.now }
{
    match entry {
        Entry::Turn(_, Ok(Turned::Backed(victims))) => victims.as_slice().len() as u64,
        _ => 0,
    }
}
