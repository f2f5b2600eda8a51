//! What a script does with texts.
ghost use Rattle.std.specs.Prelude.{IsTrue, ◌≡◌, ◌≤◌, ◌==◌, ◌++◌, not, length, take, drop, position, slice_index_or, OnOk, OnErr, IfOk, [], nat_eq};
ghost use Rattle.std.specs.List.{list_all};
ghost use Rattle.tm_types.specs.Segment.{is_printable, IsSegmentText};
ghost use Rattle.script_run.specs.TextRuns as runs;
ghost use Rattle.model_system.specs.Texts as spec;

use model_system::Comparison;
use std::alloc::Global;
use std::cmp::Ordering;
use tm_types::{Bytes, Memory, SEGMENT_LIMIT, first_word};

/// The word of the text with this number, counted from 1; empty where there is none.
#[tactic(auto, using(crate::proofs::Words::word_steps))]
pub fn word(text: &[u8], number: u8) -> &[u8]
    requires { 1 ≤ number }
    ensures value { result.now ≡ spec.word text.now number }
    ensures text { IsSegmentText text.now → IsSegmentText result.now }
{
    let mut rest = text;
    for _passed in 1..number {
        let (_, behind) = split_word(rest);
        rest = behind;
    }
    let (first, _) = split_word(rest);
    first
}

/// The first word of the text, and what stands behind it.
#[tactic(auto, using(crate::proofs::SegmentTexts::part_steps))]
fn split_word(text: &[u8]) -> (&[u8], &[u8])
    ensures first { result.0.now ≡ slice_index_or (spec.words text.now) 0 [] }
    ensures behind { spec.words result.1.now ≡ drop 1 (spec.words text.now) }
    ensures first_text { IsSegmentText text.now → IsSegmentText result.0.now }
    ensures behind_text { IsSegmentText text.now → IsSegmentText result.1.now }
{
    let rest = &text[blanks_before(text)..];
    let word = first_word(rest);
    (word, &rest[word.len()..])
}

/// How many blanks the text begins with.
#[tactic(auto, using(crate::proofs::Words::blank_steps))]
fn blanks_before(text: &[u8]) -> usize
    ensures value { result ≡ runs.blanks_before text.now }
    ensures within { result ≤ length text.now }
{
    match first_other(text) {
        Some(place) => place,
        None => text.len(),
    }
}

fn first_other(text: &[u8]) -> Option<usize>
    ensures { result ≡ position (λ b. not (b == 32)) text.now }
{
    text.iter().position(|&b| b != b' ')
}

#[tactic(auto, using(crate::proofs::SegmentTexts::part_steps))]
/// So many bytes of the text from a place on, which is counted from 1; fewer where the text ends.
pub fn cut(text: &[u8], start: u16, count: u16) -> &[u8]
    requires { 1 ≤ start }
    ensures value { result.now ≡ spec.cut text.now start count }
    ensures text { IsSegmentText text.now → IsSegmentText result.now }
{
    let from = start as usize - 1;
    if text.len() <= from {
        return &text[text.len()..];
    }
    let rest = &text[from..];
    if rest.len() <= count as usize {
        rest
    } else {
        &rest[..count as usize]
    }
}

#[tactic(auto, using(crate::proofs::SegmentTexts::padded_text))]
/// The text with zeros before it, up to so many bytes.
pub fn padded(alloc: Global, text: &[u8], width: u8) -> Result<Bytes, Memory>
    requires { IsSegmentText text.now }
    ensures value { IfOk result (λ padded. padded ≡ spec.zero_padded text.now width) }
    ensures text { IfOk result (λ padded. IsSegmentText padded) }
{
    let zeros = (width as usize).saturating_sub(text.len());
    let mut padded = Bytes::from_vec(vec![in alloc; b'0'; zeros]?);
    padded.append(text)?;
    Ok(padded)
}

#[tactic(auto, using(crate::proofs::Joining::cut_steps, crate::proofs::SegmentTexts::joined_text))]
/// Adds the text at the end, as far as the limit leaves room.
pub fn append_cut(joined: &mut Bytes, text: &[u8]) -> Result<(), Memory>
    requires old { IsSegmentText joined.old }
    requires text { IsTrue (list_all is_printable text.now) }
    ensures ok { OnOk result (joined.new ≡ take 1996 (joined.old ++ text.now)) }
    ensures cut { IsSegmentText joined.new }
    ensures err { OnErr result (joined.new ≡ joined.old) }
{
    let room = SEGMENT_LIMIT - joined.len();
    if text.len() <= room {
        joined.append(text)
    } else {
        joined.append(&text[..room])
    }
}

/// Whether the comparison holds of the texts.
pub fn holds(comparison: Comparison, left: &[u8], right: &[u8]) -> bool
    ensures { result ≡ spec.comparison_holds comparison left.now right.now }
{
    match comparison {
        Comparison::Equal => left == right,
        Comparison::NotEqual => left != right,
        Comparison::LessThan => is_less(left.cmp(right)),
    }
}

fn is_less(ordering: Ordering) -> bool
    ensures { result ≡ spec.is_less ordering }
{
    match ordering {
        Ordering::Less => true,
        _ => false,
    }
}
