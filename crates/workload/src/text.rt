//! The text of the summary.
ghost use Rattle.std.specs.Prelude.{◌≡◌, ◌++◌, codes, decimal, IfOk, OnOk};
ghost use Rattle.std.specs.Option.{option_map};
ghost use Rattle.workload.specs.Counts.{counts_of, entries_of};
ghost use Rattle.workload.specs.ShownReply.{last_reply};
ghost use Rattle.workload.specs.Summary as spec;

use crate::counts::{Counts, count_lives};
use crate::shown::last_shown;
use itoa::Buffer;
use openings::Life;
use std::alloc::Global;
use tm_types::{Bytes, Memory};

/// The summary of a workload with this seed and so many transfers: how many inputs were accepted, completed and abended in
/// these lives, how often a region gave way, and the text of the reply that was shown last in what was printed. Where none was
/// shown, the last line is missing. `Memory` is the only refusal.
pub fn summary(
    alloc: Global,
    seed: u64,
    transfers: u32,
    lives: &[Life],
    printed: &[u8],
) -> Result<Bytes, Memory>
    ensures { IfOk result (λ text. text ≡ spec.summary_text seed transfers (counts_of (entries_of lives.now)) (last_reply printed.now)) }
{
    let counts = count_lives(lives)?;
    told(alloc, seed, transfers, counts, last_shown(printed))
}

/// The text of these counts and this last reply.
#[tactic(auto, unfolding(crate::specs::Summary::summary_text))]
fn told(
    alloc: Global,
    seed: u64,
    transfers: u32,
    counts: Counts,
    last: Option<&[u8]>,
) -> Result<Bytes, Memory>
    ensures { IfOk result (λ text. text ≡ spec.summary_text seed transfers counts (option_map (λ text. text.now) last.entry)) }
{
    let mut out = Bytes::new(alloc);
    add_workload_line(&mut out, seed, transfers)?;
    add_count_lines(&mut out, counts)?;
    add_last_line(&mut out, last)?;
    Ok(out)
}

/// Adds the line of the seed and the number of transfers.
#[tactic(auto, unfolding(crate::specs::Summary::workload_line))]
fn add_workload_line(out: &mut Bytes, seed: u64, transfers: u32) -> Result<(), Memory>
    ensures { OnOk result (out.new ≡ out.old ++ spec.workload_line seed transfers) }
{
    out.append(b"WORKLOAD ")?;
    add_number(out, seed)?;
    out.append(b" ")?;
    add_number(out, u64::from(transfers))?;
    out.append(b"\n")
}

/// Adds a line for each count.
#[tactic(auto, unfolding(crate::specs::Summary::count_lines))]
fn add_count_lines(out: &mut Bytes, counts: Counts) -> Result<(), Memory>
    ensures { OnOk result (out.new ≡ out.old ++ spec.count_lines counts) }
{
    add_count_line(out, b"ACCEPTED", counts.accepted)?;
    add_count_line(out, b"DONE", counts.completed)?;
    add_count_line(out, b"ABENDED", counts.abended)?;
    add_count_line(out, b"U0777", counts.victims)
}

/// Adds a word and a number on a line.
#[tactic(auto, unfolding(crate::specs::Summary::count_line))]
fn add_count_line(out: &mut Bytes, word: &[u8], number: u64) -> Result<(), Memory>
    ensures { OnOk result (out.new ≡ out.old ++ spec.count_line word.now number) }
{
    out.append(word)?;
    out.append(b" ")?;
    add_number(out, number)?;
    out.append(b"\n")
}

/// Adds the text of the last reply, if there is one.
#[tactic(auto, unfolding(crate::specs::Summary::reply_summary_line))]
fn add_last_line(out: &mut Bytes, last: Option<&[u8]>) -> Result<(), Memory>
    ensures { OnOk result (out.new ≡ out.old ++ spec.reply_summary_line (option_map (λ text. text.now) last.entry)) }
{
    match last {
        Some(text) => add_line(out, text),
        None => Ok(()),
    }
}

fn add_line(out: &mut Bytes, text: &[u8]) -> Result<(), Memory>
    ensures { OnOk result (out.new ≡ out.old ++ (text.now ++ codes "\n")) }
{
    out.append(text)?;
    out.append(b"\n")
}

/// Adds a number's decimal digits.
pub fn add_number(out: &mut Bytes, number: u64) -> Result<(), Memory>
    ensures { OnOk result (out.new ≡ out.old ++ decimal number) }
{
    let mut digits = Buffer::new();
    out.append(digits.format(number).as_bytes())
}
